ghost use Rattle.std.specs.Prelude.{◌≡◌, ◌<◌, ◌++◌, [], ◌∷◌, true, All, IfOk, OnOk, OnErr, if◌then◌else◌};
ghost use Rattle.std.specs.BTreeMap.{IsOrdered};
ghost use Rattle.std.specs.Ordering.{nat_cmp};
ghost use Rattle.ci_change.specs.Order.{without_entry, given_up, renewed, retired};

use crate::What;
use crate::rows::Numbers;
use ci_base::OutOfMemory;
use std::collections::BTreeMap;

/// An unserved notice, without its number: the place of its path, and what happened.
#[derive(Clone, Copy, Debug)]
pub struct Entry {
    pub place: usize,
    pub what: What,
}

/// Unserved notices by their numbers, so in the order in which they came.
pub type Order = BTreeMap<u64, Entry>;

/// Appends a notice whose number is above all others.
fn append(order: &mut Order, number: u64, entry: Entry) -> Result<(), OutOfMemory>
    requires { All (λ e. e.0 < number) order.old.entries }
    ensures ordered { IsOrdered nat_cmp order.new }
    ensures ok { OnOk result (order.new.entries ≡ order.old.entries ++ (number, entry) ∷ []) }
    ensures err { OnErr result (order.new.entries ≡ order.old.entries) }
{
    order.insert(number, entry)?;
    Ok(())
}

/// Takes out the notice with the number, if it is there.
fn take_out(order: &mut Order, number: u64)
    requires { IsOrdered nat_cmp order.old }
    ensures ordered { IsOrdered nat_cmp order.new }
    ensures entries { order.new.entries ≡ without_entry number order.old.entries }
{
    order.remove(&number);
}

/// An order that equals this one.
pub fn copy_order(order: &Order) -> Result<Order, OutOfMemory>
    ensures { IfOk result (λ copied. copied.entries ≡ order.now.entries) }
{
    Ok(order.clone()?)
}

// Appends a notice to an order, and where it joins them, to the ready ones.
fn enter(
    order: &mut Order,
    ready: &mut Order,
    number: u64,
    entry: Entry,
    joins: bool,
) -> Result<(), OutOfMemory>
    requires ordered { IsOrdered nat_cmp order.old }
    requires ready_ordered { IsOrdered nat_cmp ready.old }
    requires newest { All (λ e. e.0 < number) order.old.entries }
    requires newest_ready { All (λ e. e.0 < number) ready.old.entries }
    ensures order { OnOk result (order.new.entries ≡ order.old.entries ++ (number, entry) ∷ []) }
    ensures ready { OnOk result (ready.new.entries
        ≡ ready.old.entries ++ (if joins then (number, entry) ∷ [] else [])) }
    ensures order_err { OnErr result (order.new.entries ≡ order.old.entries) }
    ensures ready_err { OnErr result (ready.new.entries ≡ ready.old.entries) }
    ensures order_ordered { IsOrdered nat_cmp order.new }
    ensures ready_ordered { IsOrdered nat_cmp ready.new }
{
    if !joins {
        return append(order, number, entry);
    }
    append(ready, number, entry)?;
    if append(order, number, entry).is_err() {
        take_out(ready, number);
        return Err(OutOfMemory);
    }
    Ok(())
}

/// Puts a path's newest notice in the place of the one it had. It is unserved if it is above its
/// served number, and then ready if it joins the ready ones.
pub fn renew(
    order: &mut Order,
    ready: &mut Order,
    had: Numbers,
    number: u64,
    entry: Entry,
    joins: bool,
) -> Result<(), OutOfMemory>
    requires ordered { IsOrdered nat_cmp order.old }
    requires ready_ordered { IsOrdered nat_cmp ready.old }
    requires newest { All (λ e. e.0 < number) order.old.entries }
    requires newest_ready { All (λ e. e.0 < number) ready.old.entries }
    requires latest { 0 < number → had.latest < number }
    ensures order { OnOk result
        (order.new.entries ≡ renewed order.old.entries had (number, entry) true) }
    ensures ready { OnOk result
        (ready.new.entries ≡ renewed ready.old.entries had (number, entry) joins) }
    ensures order_err { OnErr result (order.new.entries ≡ order.old.entries) }
    ensures ready_err { OnErr result (ready.new.entries ≡ ready.old.entries) }
    ensures order_ordered { IsOrdered nat_cmp order.new }
    ensures ready_ordered { IsOrdered nat_cmp ready.new }
{
    if had.served < number {
        enter(order, ready, number, entry, joins)?;
    }
    take_out(order, had.latest);
    take_out(ready, had.latest);
    Ok(())
}

/// Takes out a path's latest notice, if it has one that is set aside.
pub fn give_up(ready: &mut Order, numbers: Numbers, retries: u32)
    requires { IsOrdered nat_cmp ready.old }
    ensures entries { ready.new.entries ≡ given_up ready.old.entries numbers retries }
    ensures ordered { IsOrdered nat_cmp ready.new }
{
    if 0 < numbers.latest && numbers.sets_aside(retries) {
        take_out(ready, numbers.latest);
    }
}

/// Takes out a path's latest notice, if it is served by this number.
pub fn retire(order: &mut Order, latest: u64, served: u64)
    requires { IsOrdered nat_cmp order.old }
    ensures entries { order.new.entries ≡ retired order.old.entries latest served }
    ensures ordered { IsOrdered nat_cmp order.new }
{
    if latest <= served {
        take_out(order, latest);
    }
}

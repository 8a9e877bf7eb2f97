//! Copies of trees equal them, and lists of places are handed in and out.

use crate::show::{shown, tree};
use crate::table::{Table, all_hold, whether};
use ci_base::Text;
use ci_query::{QueryFault, Restriction, Slot, Slots};
use sqlite_items::Boxed;
use std::alloc::Global;
use std::test::Fail;

fn copy_of(alloc: Global, tree: &Restriction) -> Result<Boxed<Restriction>, QueryFault> {
    Ok(Boxed::new(alloc, tree.copy(alloc)?)?)
}

fn copy_shown(alloc: Global, tree: &Restriction) -> Result<String, Fail> {
    shown(alloc, copy_of(alloc, tree)?.get())
}

/// Whether the copy of a text's tree is shown as the tree is.
pub(crate) fn is_copied(alloc: Global, text: &str) -> Result<bool, Fail> {
    is_shown_alike(alloc, tree(alloc, text)?.get())
}

fn is_shown_alike(alloc: Global, tree: &Restriction) -> Result<bool, Fail> {
    let told = shown(alloc, tree)?;
    Ok(copy_shown(alloc, tree)?.as_str() == told.as_str())
}

// Rows of queries.
struct Copied;

impl Table for Copied {
    fn told(alloc: Global, given: &str) -> Result<String, Fail> {
        let same = is_copied(alloc, given)?;
        whether(alloc, same)
    }
}

#[test]
fn a_copy_of_each_kind_equals_it(rt: HostRuntime) -> Result<(), Fail> {
    const ROWS: &str = "\
red => true
re* => true
king of hearts => true
red ~ king of hearts ~ re* => true
@Size >= -5 => true
@DocTitle != \"Night train\" => true
#Filename *.txt => true
#scope / => true
#scope /d/e => true
red & !(blue | green) & black => true";
    all_hold::<Copied>(rt.alloc(), ROWS)
}

// A word and an open place.
fn slots(alloc: Global) -> Result<Vec<Slot>, Fail> {
    let mut list = Vec::new(alloc);
    list.push(Slot::Word(Text::of(alloc, "king")?))?;
    list.push(Slot::Open)?;
    Ok(list)
}

// The copies of some slots and of each of them, an open place as an underscore.
fn copied_slots(alloc: Global) -> Result<String, Fail> {
    let list = Slots::new(slots(alloc)?).copy(alloc)?;
    let mut told = String::new(alloc);
    for slot in list.items() {
        tell_slot(&mut told, &slot.copy(alloc)?)?;
    }
    write!(told, " {}", list.into_vec().len())?;
    Ok(told)
}

fn tell_slot(told: &mut String, slot: &Slot) -> Result<(), Fail> {
    match slot {
        Slot::Word(word) => Ok(told.push_str(word.as_str())?),
        Slot::Open => Ok(told.push('_')?),
    }
}

#[test]
fn a_copy_of_slots_equals_them(rt: HostRuntime) -> Result<(), Fail> {
    assert_eq!(rt; copied_slots(rt.alloc())?.as_str(), "king_ 2");
    Ok(())
}

ghost use Rattle.std.specs.Prelude.{◌≡◌, ◌≤◌, ℕ, List, IfOk, IsTrue, MatchOption, length};
ghost use Rattle.ci_io.specs.Causes.{HasCause};
ghost use Rattle.ci_volume.specs.Found.{HasHead, HasNone, IsFound, IsHead, IsTold};
ghost use Rattle.ci_volume.specs.Steps.{Stays};
ghost use Rattle.ci_volume.specs.Layout.{IsCurrent};
ghost use Rattle.ci_volume.specs.declared.slot.Slot.{Slot as Fields};

use crate::found::{Found, Head, current_of, read_fields, read_head};
use crate::told::Current;
use ci_device::{Disk, Failed};

/// Finds the current generation. None: no slot is current.
pub(crate) fn find_current<D: Disk>(disk: &mut D) -> Result<Option<Current>, Failed>
    ensures ok { IfOk result (λ told. IsTrue (D.honest disk.old)
        → MatchOption told (HasNone (D.seen disk.old)) (IsTold (D.seen disk.old))) }
    ensures stays { Stays D.seen D.may_leave D.moment D.left_since D.honest disk.old disk.new }
    ensures cause { HasCause (D.faults disk.old) (D.faults disk.new) result }
{
    match read_head(disk)? {
        None => Ok(None),
        Some(head) => {
            let told = find_slots(disk, head)?;
            Ok(told)
        }
    }
}

fn find_slots<D: Disk>(disk: &mut D, head: Head) -> Result<Option<Current>, Failed>
    requires { IsTrue (D.honest disk.old) → IsHead (D.seen disk.old) head }
    ensures ok { IfOk result (λ told. IsTrue (D.honest disk.old)
        → MatchOption told (HasNone (D.seen disk.old)) (IsTold (D.seen disk.old))) }
    ensures stays { Stays D.seen D.may_leave D.moment D.left_since D.honest disk.old disk.new }
    ensures cause { HasCause (D.faults disk.old) (D.faults disk.new) result }
{
    let first = read_fields(disk, 0, head.length)?;
    let second = read_fields(disk, 1, head.length)?;
    let first = Found {
        is_open: head.first_is_open,
        slot: first,
    };
    let second = Found {
        is_open: head.second_is_open,
        slot: second,
    };
    Ok(choose(head.length, &first, &second))
}

fn choose(size: u64, first: &Found, second: &Found) -> Option<Current>
    ensures { (image : List ℕ) → HasHead image → size ≡ length image
        → IsFound image 0 first.now → IsFound image 1 second.now
        → MatchOption result (HasNone image) (IsTold image) }
{
    match current_of(first, second) {
        Some(slot) => Some(Current {
            which: 0,
            slot,
            length: size,
            may_be_open: second.is_open,
        }),
        None => match choose_second(size, first, second) {
            Some(told) => Some(told),
            None => None,
        },
    }
}

fn choose_second(size: u64, first: &Found, second: &Found) -> Option<Current>
    ensures { (image : List ℕ) → HasHead image → size ≡ length image
        → IsFound image 0 first.now → IsFound image 1 second.now
        → MatchOption result ((slot : Fields) → ¬ IsCurrent image 1 slot) (IsTold image) }
{
    match current_of(second, first) {
        Some(slot) => Some(Current {
            which: 1,
            slot,
            length: size,
            may_be_open: first.is_open,
        }),
        None => None,
    }
}

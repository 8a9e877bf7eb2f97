ghost use Rattle.std.specs.Prelude.{◌≡◌, ◌↔◌, ◌<◌, ◌≤◌, ◌≢◌, ℕ, List, IfOk, IsTrue, MatchOption, length, take};
ghost use Rattle.ci_io.specs.Causes.{HasCause};
ghost use Rattle.ci_volume.specs.Found.{HasHead, IsFound, IsHead, IsSlotOf};
ghost use Rattle.ci_volume.specs.Layout.{IsCurrent, IsLesser};
ghost use Rattle.ci_volume.specs.Steps.{Stays};
ghost use Rattle.ci_volume.specs.declared.slot.Slot.{Slot as Fields};

use crate::Slot;
use crate::gates::{OPEN_GATE, slot_offset};
use crate::reading::{fetch, measure};
use crate::slot_bytes::{SLOT_SIZE, read_slot};
use ci_device::{Disk, Failed};

/// What a volume begins with.
const MARK: [u8; 6] = *b"CICAT1";

/// The length of an image, and whether its gates are open.
#[derive(Clone, Copy)]
pub(crate) struct Head {
    pub length: u64,
    pub first_is_open: bool,
    pub second_is_open: bool,
}

/// The gate and the fields of a slot, where these lie within the image.
#[derive(Clone, Copy)]
pub(crate) struct Found {
    pub is_open: bool,
    pub slot: Option<Slot>,
}

/// The gates of an image that has the mark. None: it hasn't, or ends before a volume's fields.
pub(crate) fn read_head<D: Disk>(disk: &mut D) -> Result<Option<Head>, Failed>
    ensures ok { IfOk result (λ head. IsTrue (D.honest disk.old)
        → MatchOption head (¬ HasHead (D.seen disk.old)) (IsHead (D.seen disk.old))) }
    ensures stays { Stays D.seen D.may_leave D.moment D.left_since D.honest disk.old disk.new }
    ensures cause { HasCause (D.faults disk.old) (D.faults disk.new) result }
{
    let size = measure(disk)?;
    if size <= 8 {
        return Ok(None);
    }
    let mut bytes = [0; 8];
    fetch(disk, 0, &mut bytes)?;
    Ok(head_of(&bytes, size))
}

fn head_of(bytes: &[u8], size: u64) -> Option<Head>
    requires { length bytes.now ≡ 8 }
    ensures { (image : List ℕ) → bytes.now ≡ take 8 image → size ≡ length image → 8 < length image
        → MatchOption result (¬ HasHead image) (IsHead image) }
{
    let (mark, gates) = bytes.split_at(6);
    if mark != MARK.as_slice() {
        return None;
    }
    Some(Head {
        length: size,
        first_is_open: gates[0] == OPEN_GATE,
        second_is_open: gates[1] == OPEN_GATE,
    })
}

/// The fields of a slot, where they lie within an image of this length.
pub(crate) fn read_fields<D: Disk>(
    disk: &mut D,
    which: u64,
    size: u64,
) -> Result<Option<Slot>, Failed>
    requires which { which ≤ 1 }
    requires sized { IsTrue (D.honest disk.old) → size ≡ length (D.seen disk.old) }
    ensures ok { IfOk result (λ slot. IsTrue (D.honest disk.old)
        → IsSlotOf (D.seen disk.old) which slot) }
    ensures stays { Stays D.seen D.may_leave D.moment D.left_since D.honest disk.old disk.new }
    ensures cause { HasCause (D.faults disk.old) (D.faults disk.new) result }
{
    let at = slot_offset(which);
    if size < at + SLOT_SIZE as u64 {
        return Ok(None);
    }
    let mut bytes = [0; SLOT_SIZE];
    fetch(disk, at, &mut bytes)?;
    Ok(Some(read_slot(&bytes)))
}

/// Whether a slot doesn't count beside one of this generation.
fn is_lesser(beside: &Found, generation: u64) -> bool
    ensures { (image : List ℕ) (which : ℕ) → IsFound image which beside.now
        → (IsTrue result ↔ IsLesser image which generation) }
{
    if !beside.is_open {
        return true;
    }
    match beside.slot {
        None => false,
        Some(slot) => slot.generation < generation,
    }
}

/// The slot, where it is the current one of its image.
pub(crate) fn current_of(found: &Found, beside: &Found) -> Option<Slot>
    ensures { (image : List ℕ) (which other : ℕ) → HasHead image → which ≤ 1 → other ≤ 1
        → other ≢ which → IsFound image which found.now → IsFound image other beside.now
        → MatchOption result ((slot : Fields) → ¬ IsCurrent image which slot)
        (IsCurrent image which) }
{
    if !found.is_open {
        return None;
    }
    match found.slot {
        None => None,
        Some(slot) => {
            if is_lesser(beside, slot.generation) {
                Some(slot)
            } else {
                None
            }
        }
    }
}

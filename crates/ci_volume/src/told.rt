ghost use Rattle.std.specs.Prelude.{◌≤◌};

use crate::Slot;

/// The current generation of an image.
#[derive(Clone, Copy)]
pub(crate) struct Current {
    /// The number of its slot, 0 or 1.
    pub which: u64,
    pub slot: Slot,
    /// How many bytes the image has.
    pub length: u64,
    /// Whether the gate of the slot beside it is open.
    pub may_be_open: bool,
    ghost number: { which ≤ 1 },
}

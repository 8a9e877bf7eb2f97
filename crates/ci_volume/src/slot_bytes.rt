ghost use Rattle.std.specs.Prelude.{◌≡◌, ◌+◌, ◌^◌, ◌<◌, ◌≤◌, ◌++◌, length, drop, take};
ghost use Rattle.byteorder.specs.Endian.{big_bytes};
ghost use Rattle.ci_volume.specs.Layout.{number_at, part, slot_bytes, slot_of};

use crate::Slot;
use byteorder::{BigEndian, ByteOrder};

/// The bytes of a slot's fields.
pub(crate) const SLOT_SIZE: usize = 20;

/// What these bytes name.
pub(crate) fn read_slot(bytes: &[u8]) -> Slot
    requires { length bytes.now ≡ SLOT_SIZE }
    ensures { result ≡ slot_of bytes.now }
{
    Slot {
        generation: BigEndian::read_u64(&bytes[0..8]),
        pages: BigEndian::read_u32(&bytes[8..12]),
        root: BigEndian::read_u32(&bytes[12..16]),
        length: BigEndian::read_u32(&bytes[16..20]),
    }
}

/// Spells a slot at the front of `out`.
pub(crate) fn write_slot(out: &mut [u8], slot: Slot)
    requires { SLOT_SIZE ≤ length out.old }
    ensures bytes { out.new ≡ slot_bytes slot ++ drop SLOT_SIZE out.old }
    ensures read { slot_of (slot_bytes slot) ≡ slot }
{
    write_front(out, slot.generation, slot.pages);
    write_back(&mut out[12..], slot.root, slot.length);
}

fn write_front(out: &mut [u8], generation: u64, pages: u32)
    requires { 12 ≤ length out.old }
    ensures bytes { out.new ≡ (big_bytes 8 generation ++ big_bytes 4 pages) ++ drop 12 out.old }
    ensures fits { (generation < 256 ^ 8) × (pages < 256 ^ 4) }
{
    BigEndian::write_u64(out, generation);
    BigEndian::write_u32(&mut out[8..], pages);
}

fn write_back(out: &mut [u8], root: u32, count: u32)
    requires { 8 ≤ length out.old }
    ensures bytes { out.new ≡ (big_bytes 4 root ++ big_bytes 4 count) ++ drop 8 out.old }
    ensures fits { (root < 256 ^ 4) × (count < 256 ^ 4) }
{
    BigEndian::write_u32(out, root);
    BigEndian::write_u32(&mut out[4..], count);
}

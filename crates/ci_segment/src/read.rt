// Segments, read. Each byte is looked at once, from the front to the end, and no list of the keys is made.
ghost use Rattle.std.specs.Prelude.{◌≡◌, ◌≢◌, ◌<◌, ◌/◌, ◌%◌, true, false, slice_index, List, ℕ, IfOk, IsErrOf, OnOk, Some, None, length};
ghost use Rattle.ci_front.specs.Front.{many_at, u32_at};
ghost use Rattle.ci_segment.specs.Postings.{Posting};
ghost use Rattle.ci_segment.specs.Reading.{Gives, postings_of};
ghost use Rattle.ci_segment.specs.Segment.{blocks};
ghost use Rattle.ci_segment.specs.SegmentReading.{Passes, are_some, fields_at, fields_in, item_at, items_of, magic_at};

use crate::SegmentFault;
use crate::fields::{Fields, fields_front, read_key};
use crate::postings::read_all;
use ci_front::{bytes_front, u32_front};
use ci_keys::Key;
use std::alloc::Global;

/// The letters that a segment begins with.
pub const MAGIC: [u8; 4] = *b"CIS1";

pub fn read_magic(bytes: &[u8]) -> Result<&[u8], SegmentFault>
    ensures { Gives (λ rest. rest.now) result (magic_at bytes.now) }
{
    match bytes_front(bytes, 4) {
        None => Err(SegmentFault::BadSegment),
        Some((front, rest)) => {
            if front != MAGIC.as_slice() {
                return Err(SegmentFault::BadSegment);
            }
            Ok(rest)
        }
    }
}

/// As many blocks as hold so many keys.
pub fn blocks(count: u64) -> u64
    ensures { result ≡ blocks count }
{
    count.div_ceil(16)
}

/// Where the blocks begin, so many of them.
pub fn read_table(
    alloc: Global,
    count: u64,
    bytes: &[u8],
) -> Result<(Vec<u32>, &[u8]), SegmentFault>
    ensures { Gives (λ x. (x.0.items, x.1.now)) result (many_at u32_at count bytes.now) }
{
    let mut table = Vec::new(alloc);
    let mut rest = bytes;
    for _ in 0..count {
        let (offset, after) = read_offset(rest)?;
        table.push(offset)?;
        rest = after;
    }
    Ok((table, rest))
}

fn read_offset(bytes: &[u8]) -> Result<(u32, &[u8]), SegmentFault>
    ensures { Gives (λ x. (x.0, x.1.now)) result (u32_at bytes.now) }
{
    match u32_front(bytes) {
        None => Err(SegmentFault::BadSegment),
        Some((number, rest)) => Ok((number, rest)),
    }
}

/// Whether so many keys take all of the bytes, and begin their blocks where the table says.
pub fn check_items(
    alloc: Global,
    count: usize,
    table: &[u32],
    bytes: &[u8],
) -> Result<(), SegmentFault>
    requires { length table.now ≡ blocks count }
    ensures { Passes result (items_of count table.now bytes.now) }
{
    let mut rest = bytes;
    let mut before = None;
    for at in 0..count {
        check_block(at, table, bytes.len() - rest.len())?;
        let (key, after) = read_item(alloc, at, &before, rest)?;
        before = Some(key);
        rest = after;
    }
    if !rest.is_empty() {
        return Err(SegmentFault::BadSegment);
    }
    Ok(())
}

// The first key of a block stands where the table says.
fn check_block(at: usize, table: &[u32], offset: usize) -> Result<(), SegmentFault>
    requires { at / 16 < length table.now }
    ensures ok { OnOk result (at % 16 ≡ 0 → slice_index table.now (at / 16) ≡ offset) }
    ensures bad { IsErrOf result SegmentFault.BadSegment →
        (at % 16 ≡ 0) × (slice_index table.now (at / 16) ≢ offset) }
{
    if at % 16 == 0 && table[at / 16] as usize != offset {
        return Err(SegmentFault::BadSegment);
    }
    Ok(())
}

fn read_fields(bytes: &[u8]) -> Result<(Fields<'_>, &[u8]), SegmentFault>
    ensures { Gives (λ x. (fields_in x.0, x.1.now)) result (fields_at bytes.now) }
{
    match fields_front(bytes) {
        None => Err(SegmentFault::BadSegment),
        Some((fields, rest)) => Ok((fields, rest)),
    }
}

// The key at the front, and the bytes behind it and its postings.
#[tactic(auto, unfolding(crate::specs::SegmentReading::item_at))]
fn read_item<'a>(
    alloc: Global,
    at: usize,
    before: &Option<Key>,
    bytes: &'a [u8],
) -> Result<(Key, &'a [u8]), SegmentFault>
    ensures ok { IfOk result (λ x. (postings : List Posting) ×
        (item_at (record { at = at; before = before.now }) bytes.entry.now ≡ Some ((x.0, postings), x.1.now))) }
    ensures bad { IsErrOf result SegmentFault.BadSegment →
        item_at (record { at = at; before = before.now }) bytes.entry.now ≡ None }
{
    let (fields, rest) = read_fields(bytes)?;
    let key = read_key(alloc, at, before, &fields)?;
    check_postings(alloc, fields.postings)?;
    Ok((key, rest))
}

fn check_postings(alloc: Global, bytes: &[u8]) -> Result<(), SegmentFault>
    ensures ok { OnOk result (are_some (postings_of bytes.now) ≡ true) }
    ensures bad { IsErrOf result SegmentFault.BadSegment → are_some (postings_of bytes.now) ≡ false }
{
    match read_all(alloc, bytes) {
        Err(fault) => Err(fault),
        Ok(list) => {
            if list.is_empty() {
                return Err(SegmentFault::BadSegment);
            }
            Ok(())
        }
    }
}

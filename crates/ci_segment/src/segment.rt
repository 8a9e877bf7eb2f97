ghost use Rattle.std.specs.Prelude.{◌≡◌, ◌<◌, ◌≤◌, ◌+◌, ◌*◌, List, None, drop, slice_index, IfOk, IsErrOf, length};
ghost use Rattle.ci_segment.specs.Segment.{AreSegmentKeys, IsSegment, Item, blocks, segment_bytes};
ghost use Rattle.ci_segment.specs.Tail.{tail_at};
ghost use Rattle.ci_segment.specs.SegmentReading.{IsLaidOut, items_in, segment_of};

use crate::SegmentFault;
use crate::build::{put_items, put_segment};
use crate::gap::read_number;
use crate::read::{blocks, check_items, read_magic, read_table};
use ci_base::{OutOfMemory, Text8};
use ci_keys::{Key, Postings};
use std::alloc::Global;
use std::marker::Model;

/// Keys in their order with their postings, packed. Contracts see the list.
#[derive(Drop)]
pub struct Segment {
    bytes: Text8,
    table: Vec<u32>,
    count: usize,
    body: usize,
}

impl Model for Segment {
    ghost use Rattle.std.specs.Prelude.{List};
    ghost use Rattle.ci_segment.specs.Segment.{Item};
    ghost use Rattle.ci_segment.specs.SegmentReading.{IsLaidOut, items_in, segment_of};

    ghost Value = { List Item };

    ghost view = { λ s. items_in (segment_of s.bytes) };

    ghost invariant = { λ s.
        IsLaidOut (items_in (segment_of s.bytes)) s.bytes s.table.items s.count s.body };
}

// Where the keys of a segment lie.
#[derive(Drop)]
struct Layout {
    table: Vec<u32>,
    count: usize,
    body: usize,
}

impl Segment {
    /// The segment of these keys.
    pub fn build(alloc: Global, keys: &[(Key, Postings)]) -> Result<Segment, OutOfMemory>
        requires { AreSegmentKeys keys.now }
        ensures { IfOk result (λ segment. segment ≡ keys.now) }
    {
        let (table, items) = put_items(alloc, keys)?;
        let (bytes, body) = put_segment(alloc, keys.len(), table.as_slice(), items.as_slice())?;
        Ok(Segment {
            bytes: Text8::from(bytes),
            table,
            count: keys.len(),
            body,
        })
    }

    /// The segment that the bytes spell, all of the bytes.
    pub fn read(alloc: Global, bytes: Text8) -> Result<Segment, SegmentFault>
        ensures ok { IfOk result (λ segment. IsSegment segment × (segment_bytes segment ≡ bytes)) }
        ensures bad { IsErrOf result SegmentFault.BadSegment →
            (items : List Item) → IsSegment items → ¬ (segment_bytes items ≡ bytes) }
    {
        match read_layout(alloc, bytes.items()) {
            Err(fault) => Err(fault),
            Ok(layout) => Ok(Segment {
                bytes,
                table: layout.table,
                count: layout.count,
                body: layout.body,
            }),
        }
    }

    /// The one spelling of the segment.
    pub fn bytes(&self) -> &[u8]
        ensures spelling { result.now ≡ segment_bytes self.now }
        ensures grammar { IsSegment self.now }
    {
        self.bytes.items()
    }

    /// How many keys it has.
    pub fn len(&self) -> usize
        ensures count { result ≡ length self.now }
        ensures keys { AreSegmentKeys self.now }
    {
        self.count
    }

    /// Another segment that equals this one.
    pub fn copy(&self, alloc: Global) -> Result<Segment, OutOfMemory>
        ensures { IfOk result (λ segment. segment ≡ self.now) }
    {
        let bytes = self.bytes.copy(alloc)?;
        let table = Vec::from_slice(alloc, self.table.as_slice())?;
        Ok(Segment {
            bytes,
            table,
            count: self.count,
            body: self.body,
        })
    }

    /// How many blocks it has.
    pub(crate) fn blocks(&self) -> usize
        ensures count { result ≡ blocks (length self.now) }
        ensures grammar { IsSegment self.now }
    {
        self.table.as_slice().len()
    }

    /// The bytes of the keys from a block on.
    pub(crate) fn from_block(&self, block: usize) -> &[u8]
        requires { block < blocks (length self.now) }
        ensures bytes { result.now ≡ tail_at self.now (16 * block) }
        ensures grammar { IsSegment self.now }
    {
        let bytes = self.bytes.items();
        tail_of(bytes, self.table.as_slice(), self.body, block)
    }
}

// The bytes from a block on.
fn tail_of<'a>(bytes: &'a [u8], table: &[u32], body: usize, block: usize) -> &'a [u8]
    requires block { block < length table.now }
    requires within { body + slice_index table.now block ≤ length bytes.now }
    ensures { result.now ≡ drop (body + slice_index table.now block) bytes.entry.now }
{
    let (_, tail) = bytes.split_at(body + table[block] as usize);
    tail
}

/// A segment has one spelling. A call does nothing: the contract is what it is for.
pub fn segment_law()
    ensures { (a b : List Item) → IsSegment a → IsSegment b →
        segment_bytes a ≡ segment_bytes b → a ≡ b }
{}

#[tactic(auto, unfolding(crate::specs::SegmentReading::segment_of))]
fn read_layout(alloc: Global, bytes: &[u8]) -> Result<Layout, SegmentFault>
    ensures ok { IfOk result (λ layout.
        IsLaidOut (items_in (segment_of bytes.now)) bytes.now
        layout.table.items layout.count layout.body) }
    ensures bad { IsErrOf result SegmentFault.BadSegment → segment_of bytes.now ≡ None }
{
    let rest = read_magic(bytes)?;
    let (count, rest) = read_number(rest)?;
    if count == 0 {
        return Err(SegmentFault::BadSegment);
    }
    let (table, body) = read_table(alloc, blocks(count), rest)?;
    check_items(alloc, count as usize, table.as_slice(), body)?;
    Ok(Layout {
        table,
        count: count as usize,
        body: bytes.len() - body.len(),
    })
}

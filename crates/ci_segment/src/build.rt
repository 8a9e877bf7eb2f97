// Segments, written.
ghost use Rattle.std.specs.Prelude.{◌≡◌, ◌≤◌, ◌<◌, ◌%◌, ◌^◌, ◌++◌, ◌∷◌, [], IfOk, IfSome, OnOk, slice_get, IsUtf8, codes, drop, length, if◌then◌else◌, ◌==◌};
ghost use Rattle.std.specs.Int.{w32, to_be_bytes};
ghost use Rattle.std.specs.List.{AllByRecursion, flat_map};
ghost use Rattle.ci_base.specs.Varint.{varint};
ghost use Rattle.ci_front.specs.Front.{sized};
ghost use Rattle.ci_segment.specs.Chain.{Follow};
ghost use Rattle.ci_segment.specs.Postings.{IsSpelledPostings, postings_bytes};
ghost use Rattle.ci_segment.specs.Segment.{AreSegmentKeys, IsItemAt, after_item, first_spot, items_bytes, offsets, shared, spot_at};

use crate::fields::leaning;
use crate::put::{put_count, put_sized, spelled_postings};
use crate::read::MAGIC;
use ci_base::{OutOfMemory, put_varint};
use ci_keys::{Key, Postings};
use std::alloc::Global;

// What four bytes can't count.
const LIMIT: usize = 0x1_0000_0000;

/// Where the blocks of the keys begin, and the keys one behind the other.
pub fn put_items(
    alloc: Global,
    keys: &[(Key, Postings)],
) -> Result<(Vec<u32>, Vec<u8>), OutOfMemory>
    requires { AreSegmentKeys keys.now }
    ensures table { IfOk result (λ made. made.0.items ≡ offsets keys.now) }
    ensures items { IfOk result (λ made. made.1.items ≡ items_bytes keys.now) }
    ensures each { OnOk result (Follow IsItemAt after_item first_spot keys.now) }
    ensures near { OnOk result (AllByRecursion (λ o. o < 2 ^ 32) (offsets keys.now)) }
{
    let mut table = Vec::new(alloc);
    let mut items = Vec::new(alloc);
    for at in 0..keys.len() {
        note_block(&mut table, at, items.len())?;
        let shared = shared_at(keys, at);
        put_item(alloc, &mut items, shared, &keys[at].0, &keys[at].1)?;
    }
    Ok((table, items))
}

// The first key of a block is noted in the table.
fn note_block(table: &mut Vec<u32>, at: usize, offset: usize) -> Result<(), OutOfMemory>
    ensures table { OnOk result (table.new.items ≡ table.old.items
        ++ (if at % 16 == 0 then offset ∷ [] else [])) }
    ensures range { OnOk result (offset < 2 ^ 32) }
{
    if offset >= LIMIT {
        return Err(OutOfMemory);
    }
    if at % 16 == 0 {
        table.push(offset as u32)?;
    }
    Ok(())
}

// How many bytes the word has of the word before it.
fn shared_at(keys: &[(Key, Postings)], at: usize) -> usize
    requires { at < length keys.now }
    ensures { IfSome (slice_get keys.now at) (λ item.
        result ≡ shared (spot_at keys.now at) item.0) }
{
    if at % 16 == 0 {
        return 0;
    }
    leaning(&keys[at - 1].0, &keys[at].0)
}

// A key that has so many bytes of the word before it.
fn put_item(
    alloc: Global,
    out: &mut Vec<u8>,
    shared: usize,
    key: &Key,
    postings: &Postings,
) -> Result<(), OutOfMemory>
    requires { shared ≤ length key.now.word }
    ensures bytes { OnOk result (out.new.items ≡ out.old.items ++ (varint key.now.property.0
        ++ (varint shared ++ (sized (drop shared key.now.word)
        ++ sized (postings_bytes postings.now))))) }
    ensures text { IsUtf8 key.now.word }
    ensures grammar { OnOk result (IsSpelledPostings postings.now) }
    ensures few { OnOk result (length (postings_bytes postings.now) < 2 ^ 64) }
{
    let word = key.word.as_str().as_bytes();
    put_varint(out, u64::from(key.property.0))?;
    put_count(out, shared)?;
    put_sized(out, &word[shared..])?;
    let spelled = spelled_postings(alloc, postings.items())?;
    put_sized(out, spelled.as_slice())?;
    Ok(())
}

/// The segment, and how many bytes stand before its keys.
pub fn put_segment(
    alloc: Global,
    count: usize,
    table: &[u32],
    items: &[u8],
) -> Result<(Vec<u8>, usize), OutOfMemory>
    ensures bytes { IfOk result (λ made. made.0.items ≡ codes "CIS1" ++ (varint count
        ++ (flat_map (to_be_bytes w32) table.now ++ items.now))) }
    ensures body { IfOk result (λ made. (made.1 ≤ length made.0.items)
        × (drop made.1 made.0.items ≡ items.now)) }
    ensures few { count < 2 ^ 64 }
{
    let mut out = Vec::new(alloc);
    out.extend_from_slice(MAGIC.as_slice())?;
    put_count(&mut out, count)?;
    put_table(&mut out, table)?;
    let body = out.len();
    if items.len() >= LIMIT || body >= LIMIT - items.len() {
        return Err(OutOfMemory);
    }
    out.extend_from_slice(items)?;
    Ok((out, body))
}

fn put_table(out: &mut Vec<u8>, table: &[u32]) -> Result<(), OutOfMemory>
    ensures { OnOk result (out.new.items ≡ out.old.items ++ flat_map (to_be_bytes w32) table.now) }
{
    for offset in table {
        out.extend_from_slice(&offset.to_be_bytes())?;
    }
    Ok(())
}

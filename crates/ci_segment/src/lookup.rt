// Keys and postings at a place, read where they lie.
ghost use Rattle.std.specs.Prelude.{◌≡◌, ◌<◌, ℕ, List, Some, IfOk, IsSome, IsUtf8, length, map, slice_get};
ghost use Rattle.ci_keys.specs.Key.{MayHaveWords};
ghost use Rattle.ci_segment.specs.Postings.{IsSpelledPostings, Posting, postings_bytes};
ghost use Rattle.ci_segment.specs.SegmentReading.{fields_at, fields_in};

use crate::fields::{Fields, fields_front};
use crate::postings::read_postings;
use crate::{Segment, SegmentFault};
use ci_base::{OutOfMemory, PropNo, Text};
use ci_keys::{Key, Postings};
use std::alloc::Global;

impl Segment {
    /// The key at a place.
    pub fn key_at(&self, alloc: Global, index: usize) -> Result<Key, OutOfMemory>
        requires { index < length self.now }
        ensures { IfOk result (λ key. slice_get (map (λ item. item.0) self.now) index ≡ Some key) }
    {
        let mut rest = self.from_block(index / 16);
        let mut word = Vec::new(alloc);
        let mut property = 0;
        for _ in 0..index % 16 + 1 {
            let (fields, after) = front_key(rest);
            word.truncate(fields.shared as usize);
            word.extend_from_slice(fields.others)?;
            property = fields.property;
            rest = after;
        }
        made_key(alloc, property, word.as_slice())
    }

    /// The postings of the key at a place.
    pub fn postings_at(&self, alloc: Global, index: usize) -> Result<Postings, OutOfMemory>
        requires { index < length self.now }
        ensures { IfOk result (λ postings.
            slice_get (map (λ item. item.1) self.now) index ≡ Some postings) }
    {
        let mut rest = self.from_block(index / 16);
        for _ in 0..index % 16 {
            let (_, after) = front_key(rest);
            rest = after;
        }
        let (fields, _) = front_key(rest);
        made_postings(alloc, fields.postings)
    }
}

/// The fields of the key at the front, and the bytes behind it.
pub fn front_key(bytes: &[u8]) -> (Fields<'_>, &[u8])
    requires { IsSome (fields_at bytes.now) }
    ensures { fields_at bytes.now ≡ Some (fields_in result.0, result.1.now) }
{
    match fields_front(bytes) {
        Some(found) => found,
        None => unreachable!(),
    }
}

fn made_key(alloc: Global, property: u64, word: &[u8]) -> Result<Key, OutOfMemory>
    requires property { MayHaveWords property }
    requires text { IsUtf8 word.now }
    ensures { IfOk result (λ key.
        key ≡ record { property = record { 0 = property }; word = word.now }) }
{
    match str::from_utf8(word) {
        Ok(text) => Ok(Key {
            property: PropNo(property as u16),
            word: Text::of(alloc, text)?,
        }),
        Err(_) => unreachable!(),
    }
}

// The postings that are spelled there.
fn made_postings(alloc: Global, bytes: &[u8]) -> Result<Postings, OutOfMemory>
    requires { (postings : List Posting) × IsSpelledPostings postings
        × (postings_bytes postings ≡ bytes.now) }
    ensures { IfOk result (λ made. (postings : List Posting) → IsSpelledPostings postings →
        postings_bytes postings ≡ bytes.now → made ≡ postings) }
{
    match read_postings(alloc, bytes) {
        Ok(postings) => Ok(postings),
        Err(SegmentFault::OutOfMemory) => Err(OutOfMemory),
        Err(SegmentFault::BadSegment) => unreachable!(),
    }
}

// A key, read beside the one before it.
ghost use Rattle.std.specs.Prelude.{◌≡◌, ◌≤◌, ◌++◌, ◌==◌, ◌&&◌, false, true, None, Some, IfOk, IsErrOf, MatchOption, IsUtf8, length, take};
ghost use Rattle.ci_segment.specs.Segment.{Spot, common, leaning, shared};
ghost use Rattle.ci_segment.specs.SegmentReading.{fields_at, fields_in, has_word, is_after, is_key_at, may_have_words, key_of, word_before};

use crate::SegmentFault;
use ci_base::{PropNo, Text};
use ci_front::{number_front, sized_front};
use ci_keys::Key;
use std::alloc::Global;

/// The fields of a key as they stand: its property, how many bytes its word has of the word before
/// it, the other bytes of its word, and the bytes of its postings.
#[derive(Clone, Copy)]
pub struct Fields<'a> {
    pub property: u64,
    pub shared: u64,
    pub others: &'a [u8],
    pub postings: &'a [u8],
}

/// The fields at the front, and the bytes behind them.
#[tactic(auto, unfolding(crate::specs::SegmentReading::fields_at))]
pub fn fields_front(bytes: &[u8]) -> Option<(Fields<'_>, &[u8])>
    ensures { MatchOption result (fields_at bytes.now ≡ None)
        (λ found. fields_at bytes.now ≡ Some (fields_in found.0, found.1.now)) }
{
    let (property, rest) = number_front(bytes)?;
    let (shared, rest) = number_front(rest)?;
    let (others, rest) = sized_front(rest)?;
    let (postings, rest) = sized_front(rest)?;
    let fields = Fields {
        property,
        shared,
        others,
        postings,
    };
    Some((fields, rest))
}

/// How many bytes a word has of the word before it.
pub fn shared(at: usize, before: &Option<Key>, key: &Key) -> usize
    ensures { result ≡ shared (record { at = at; before = before.now }) key.now }
{
    if at % 16 == 0 {
        return 0;
    }
    match before {
        None => 0,
        Some(before) => leaning(before, key),
    }
}

/// How many bytes a word has of the word before it, inside a block.
pub fn leaning(before: &Key, key: &Key) -> usize
    ensures { result ≡ leaning (Some before.now) key.now }
{
    if before.property.0 != key.property.0 {
        return 0;
    }
    common(
        before.word.as_str().as_bytes(),
        key.word.as_str().as_bytes(),
    )
}

/// How many values both lists begin with.
pub fn common(a: &[u8], b: &[u8]) -> usize
    ensures { result ≡ common a.now b.now }
{
    let most = a.len().min(b.len());
    for same in 0..most {
        if a[same] != b[same] {
            return same;
        }
    }
    most
}

/// The key that the fields spell, which may stand there.
pub fn read_key(
    alloc: Global,
    at: usize,
    before: &Option<Key>,
    fields: &Fields<'_>,
) -> Result<Key, SegmentFault>
    ensures ok { IfOk result (λ key.
        (key ≡ key_of (record { at = at; before = before.now }) (fields_in fields.now))
        × (is_key_at (record { at = at; before = before.now }) (fields_in fields.now) ≡ true)) }
    ensures bad { IsErrOf result SegmentFault.BadSegment →
        is_key_at (record { at = at; before = before.now }) (fields_in fields.now) ≡ false }
{
    if !may_have_words(fields.property) {
        return Err(SegmentFault::BadSegment);
    }
    let word = spelled_word(alloc, word_before(before), fields.shared, fields.others)?;
    let key = Key {
        property: PropNo(fields.property as u16),
        word,
    };
    if !may_stand(at, before, &key, fields.shared) {
        return Err(SegmentFault::BadSegment);
    }
    Ok(key)
}

fn may_have_words(property: u64) -> bool
    ensures { result ≡ may_have_words property }
{
    property == 1 || property == 2 || (5 <= property && property <= 9)
}

fn word_before(before: &Option<Key>) -> &[u8]
    ensures { result.now ≡ word_before before.now }
{
    match before {
        None => &[],
        Some(key) => key.word.as_str().as_bytes(),
    }
}

// The front of the word before, and the other bytes.
fn spelled_word(
    alloc: Global,
    before: &[u8],
    shared: u64,
    others: &[u8],
) -> Result<Text, SegmentFault>
    ensures ok { IfOk result (λ t. (t ≡ take shared before.now ++ others.now)
        × IsUtf8 (take shared before.now ++ others.now) × (shared ≤ length before.now)) }
    ensures bad { IsErrOf result SegmentFault.BadSegment → shared ≤ length before.now →
        ¬ IsUtf8 (take shared before.now ++ others.now) }
{
    if (before.len() as u64) < shared {
        return Err(SegmentFault::BadSegment);
    }
    let mut word = Vec::new(alloc);
    word.extend_from_slice(&before[..shared as usize])?;
    word.extend_from_slice(others)?;
    match str::from_utf8(word.as_slice()) {
        Ok(text) => Ok(Text::of(alloc, text)?),
        Err(_) => Err(SegmentFault::BadSegment),
    }
}

fn may_stand(at: usize, before: &Option<Key>, key: &Key, told: u64) -> bool
    ensures { result ≡ ((shared (record { at = at; before = before.now }) key.now == told)
        && (is_after before.now key.now && has_word key.now)) }
{
    shared(at, before, key) as u64 == told && is_after(before, key) && has_word(key)
}

fn has_word(key: &Key) -> bool
    ensures { result ≡ has_word key.now }
{
    let word = key.word.as_str().as_bytes();
    1 <= word.len() && word.len() <= 128
}

fn is_after(before: &Option<Key>, key: &Key) -> bool
    ensures { result ≡ is_after before.now key.now }
{
    match before {
        None => true,
        Some(before) => before < key,
    }
}

// The keys of a part that begin as another key does. Of all keys that begin so it is the first.
ghost use Rattle.std.specs.Prelude.{◌≡◌, ◌++◌, OnOk};
ghost use Rattle.ci_keys.specs.Key.{key_cmp};
ghost use Rattle.ci_keys.specs.Order.{Ascends};
ghost use Rattle.ci_part.specs.Keys.{all_keys};
ghost use Rattle.ci_part.specs.Part.{lists_of};
ghost use Rattle.ci_part.specs.Range.{beginning, begins};
ghost use Rattle.ci_segment.specs.Finding.{IsPlaceOf};
ghost use Rattle.ci_segment.specs.Segment.{AreSegmentKeys};

use crate::Part;
use ci_base::OutOfMemory;
use ci_keys::{Key, Postings};
use ci_segment::Segment;
use std::alloc::Global;

/// Adds the keys of the part that begin so.
pub fn add_beginning(
    alloc: Global,
    keys: &mut Vec<Key>,
    part: &Part,
    first: &Key,
) -> Result<(), OutOfMemory>
    ensures { OnOk result (keys.new.items
        ≡ keys.old.items ++ beginning first.now (lists_of part.now).keys) }
{
    match part {
        Part::List(list) => add_listed(alloc, keys, list.keys(), first),
        Part::Shadow(kept) => add_packed(alloc, keys, kept.segments(), first),
        Part::Master(kept) => add_packed(alloc, keys, kept.segments(), first),
    }
}

fn add_listed(
    alloc: Global,
    keys: &mut Vec<Key>,
    items: &[(Key, Postings)],
    first: &Key,
) -> Result<(), OutOfMemory>
    requires { Ascends (λ item. item.0) key_cmp items.now }
    ensures { OnOk result (keys.new.items ≡ keys.old.items ++ beginning first.now items.now) }
{
    let start = place_of(items, first);
    for at in start..items.len() {
        if !begins(first, &items[at].0) {
            return Ok(());
        }
        keys.push(items[at].0.copy(alloc)?)?;
    }
    Ok(())
}

fn add_packed(
    alloc: Global,
    keys: &mut Vec<Key>,
    segments: &[Segment],
    first: &Key,
) -> Result<(), OutOfMemory>
    ensures { OnOk result (keys.new.items
        ≡ keys.old.items ++ beginning first.now (all_keys segments.now)) }
{
    for segment in segments {
        add_segment(alloc, keys, segment, first)?;
    }
    Ok(())
}

fn add_segment(
    alloc: Global,
    keys: &mut Vec<Key>,
    segment: &Segment,
    first: &Key,
) -> Result<(), OutOfMemory>
    ensures { OnOk result (keys.new.items ≡ keys.old.items ++ beginning first.now segment.now) }
{
    let start = segment.from(first);
    for at in start..segment.len() {
        let key = segment.key_at(alloc, at)?;
        if !begins(first, &key) {
            return Ok(());
        }
        keys.push(key)?;
    }
    Ok(())
}

fn place_of(items: &[(Key, Postings)], key: &Key) -> usize
    requires { Ascends (λ item. item.0) key_cmp items.now }
    ensures { IsPlaceOf items.now key.now result }
{
    items.partition_point(|item| item.0.cmp(key).is_lt())
}

fn begins(first: &Key, key: &Key) -> bool
    ensures { result ≡ begins first.now key.now }
{
    let word = key.word.as_str().as_bytes();
    key.property.0 == first.property.0 && word.starts_with(first.word.as_str().as_bytes())
}

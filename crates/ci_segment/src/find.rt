// Keys, looked for where they lie.
ghost use Rattle.std.specs.Prelude.{◌≡◌, ◌<◌, ◌≤◌, ◌+◌, ◌*◌, ◌^◌, ℕ, None, Some, true, false, Contains, IfSome, length, map, slice_get, if◌then◌else◌};
ghost use Rattle.std.specs.Ordering.{is_gt};
ghost use Rattle.ci_keys.specs.Key.{key_cmp};
ghost use Rattle.ci_segment.specs.Finding.{IsBlockOf, IsFoundAt, IsPlaceOf, compared, next_same};
ghost use Rattle.ci_segment.specs.Segment.{IsSegment, Item, blocks};
ghost use Rattle.ci_segment.specs.SegmentReading.{fields_in};

use crate::fields::{Fields, common};
use crate::lookup::front_key;
use crate::{Segment, Steps};
use ci_keys::Key;
use std::cmp::Ordering;
use std::marker::Brand;
use std::sync::ledger::{Blank, Ledger};

impl Segment {
    /// The place of the key, where it is there.
    pub fn find<L: Ledger>(&self, key: &Key, steps: &mut Steps<L>) -> Option<usize>
        ensures found { IfSome result (λ index.
            slice_get (map (λ item. item.0) self.now) index ≡ Some key.now) }
        ensures none { result ≡ None → ¬ Contains (map (λ item. item.0) self.now) key.now }
        ensures cost { (digits : ℕ) → length self.now < 2 ^ digits →
            steps.new ≤ steps.old + digits + 16 }
    {
        let (place, found) = self.seek(key, steps);
        if found { Some(place) } else { None }
    }

    /// How many keys are below the key.
    pub fn from(&self, key: &Key) -> usize
        ensures { IsPlaceOf self.now key.now result }
    {
        self.place_of::<Brand>(key, Blank::new(1))
    }

    fn place_of<L: Ledger>(&self, key: &Key, blank: Blank) -> usize
        requires name { blank.name ≡ L.name }
        requires parts { blank.parts ≡ L.parts }
        requires some { 0 < blank.parts }
        ensures { IsPlaceOf self.now key.now result }
    {
        let mut steps = Steps::<L>::new(blank);
        let (place, _) = self.seek(key, &mut steps);
        place
    }

    // The place of the key, and whether the key is there.
    fn seek<L: Ledger>(&self, key: &Key, steps: &mut Steps<L>) -> (usize, bool)
        ensures found { IsFoundAt self.now key.now result.0 result.1 }
        ensures cost { (digits : ℕ) → length self.now < 2 ^ digits →
            steps.new ≤ steps.old + digits + 16 }
    {
        let block = self.block_of(key, steps);
        if block == 0 {
            return (0, false);
        }
        self.walk(key, block - 1, steps)
    }

    // How many blocks begin at the key or below it.
    fn block_of<L: Ledger>(&self, key: &Key, steps: &mut Steps<L>) -> usize
        ensures block { IsBlockOf self.now key.now result }
        ensures grammar { IsSegment self.now }
        ensures cost { (digits : ℕ) → blocks (length self.now) < 2 ^ digits →
            steps.new ≤ steps.old + digits }
    {
        let mut low = 0;
        let mut high = self.blocks();
        while low < high {
            let middle = low + (high - low) / 2;
            let above = self.begins_above(key, middle, steps);
            let next = halves(low, middle, high, above);
            low = next.0;
            high = next.1;
        }
        low
    }

    // Whether the first key of the block is above the key.
    fn begins_above<L: Ledger>(&self, key: &Key, block: usize, steps: &mut Steps<L>) -> bool
        requires { block < blocks (length self.now) }
        ensures above { (item : Item) → slice_get self.now (16 * block) ≡ Some item →
            result ≡ is_gt (key_cmp item.0 key.now) }
        ensures step { steps.new ≡ steps.old + 1 }
    {
        let (fields, _) = front_key(self.from_block(block));
        let (order, _) = compare(&fields, key, 0, steps);
        is_above(order)
    }

    // The place of the key behind the first key of the block, and before the next block.
    fn walk<L: Ledger>(&self, key: &Key, block: usize, steps: &mut Steps<L>) -> (usize, bool)
        requires { IsBlockOf self.now key.now (block + 1) }
        ensures found { IsFoundAt self.now key.now result.0 result.1 }
        ensures cost { steps.new ≤ steps.old + 16 }
    {
        let mut rest = self.from_block(block);
        let start = block * 16;
        let end = start + (self.len() - start).min(16);
        let mut same = 0;
        for at in start..end {
            let (fields, after) = front_key(rest);
            let (order, more) = compare(&fields, key, same, steps);
            match order {
                Ordering::Less => {}
                Ordering::Equal => return (at, true),
                Ordering::Greater => return (at, false),
            }
            same = more;
            rest = after;
        }
        (end, false)
    }
}

// A key as it lies, beside a key of which the one before it had so many bytes; and how many bytes of
// it the key as it lies has.
fn compare<L: Ledger>(
    fields: &Fields<'_>,
    key: &Key,
    same: usize,
    steps: &mut Steps<L>,
) -> (Ordering, usize)
    requires { same ≤ length key.now.word }
    ensures order { result.0 ≡ compared (fields_in fields.now) key.now same }
    ensures same { result.1 ≡ next_same (fields_in fields.now) key.now same }
    ensures step { steps.new ≡ steps.old + 1 }
{
    steps.tick();
    let property = u64::from(key.property.0);
    if fields.property != property {
        return (fields.property.cmp(&property), 0);
    }
    if (same as u64) < fields.shared {
        return (Ordering::Less, same);
    }
    if fields.shared < same as u64 {
        return (Ordering::Greater, 0);
    }
    let word = key.word.as_str().as_bytes();
    let (_, left) = word.split_at(same);
    let more = common(fields.others, left);
    (fields.others.cmp(left), joined(same, more, word.len()))
}

// What is left of a search, after a look at the middle.
fn halves(low: usize, middle: usize, high: usize, above: bool) -> (usize, usize)
    requires { middle < high }
    ensures low { result.0 ≡ (if above then low else middle + 1) }
    ensures high { result.1 ≡ (if above then middle else high) }
{
    if above {
        (low, middle)
    } else {
        (middle + 1, high)
    }
}

// A part of a word and a part of what follows it.
fn joined(same: usize, more: usize, most: usize) -> usize
    requires { same + more ≤ most }
    ensures { result ≡ same + more }
{
    same + more
}

fn is_above(order: Ordering) -> bool
    ensures { result ≡ is_gt order }
{
    match order {
        Ordering::Greater => true,
        _ => false,
    }
}

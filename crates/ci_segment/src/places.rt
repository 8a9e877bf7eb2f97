// Places, read: their count, and then each as the difference to the one before it.
ghost use Rattle.std.specs.Prelude.{◌≡◌, Some, None};
ghost use Rattle.ci_segment.specs.Chain.{chain_at};
ghost use Rattle.ci_segment.specs.Postings.{after_place};
ghost use Rattle.ci_segment.specs.Reading.{Gives, place_at, places_at};

use crate::SegmentFault;
use crate::gap::{read_gap, read_number};
use ci_base::Place;
use ci_keys::Places;
use std::alloc::Global;

/// The places at the front, and the bytes behind them.
#[tactic(auto, unfolding(crate::specs::Reading::places_at))]
pub fn read_places(alloc: Global, bytes: &[u8]) -> Result<(Places, &[u8]), SegmentFault>
    ensures { Gives (λ x. (x.0, x.1.now)) result (places_at bytes.now) }
{
    let (count, rest) = read_number(bytes)?;
    if count == 0 {
        return Err(SegmentFault::BadSegment);
    }
    let (list, rest) = read_list(alloc, count, rest)?;
    Ok((Places::new(list), rest))
}

fn read_list(alloc: Global, count: u64, bytes: &[u8]) -> Result<(Vec<Place>, &[u8]), SegmentFault>
    ensures { Gives (λ x. (x.0.items, x.1.now)) result
        (chain_at place_at after_place None count bytes.now) }
{
    let mut list = Vec::new(alloc);
    let mut rest = bytes;
    let mut before = None;
    for _ in 0..count {
        let (place, after) = read_place(before, rest)?;
        list.push(place)?;
        before = Some(place.0);
        rest = after;
    }
    Ok((list, rest))
}

fn read_place(before: Option<u32>, bytes: &[u8]) -> Result<(Place, &[u8]), SegmentFault>
    ensures { Gives (λ x. (x.0, x.1.now)) result (place_at before bytes.now) }
{
    let (number, rest) = read_gap(before, bytes)?;
    Ok((Place(number), rest))
}

// Numbers that are spelled as the differences to those before them.
ghost use Rattle.std.specs.Prelude.{◌≡◌, ◌&&◌, ◌+◌, ◌^◌, nat_lt, true};
ghost use Rattle.ci_front.specs.Front.{number_at};
ghost use Rattle.ci_segment.specs.Reading.{Gives, gap_at, is_gap, over_gap};

use crate::SegmentFault;
use ci_front::number_front;

// One above the highest number of a document or a place.
const LIMIT: u64 = 0x1_0000_0000;

pub fn read_number(bytes: &[u8]) -> Result<(u64, &[u8]), SegmentFault>
    ensures { Gives (λ x. (x.0, x.1.now)) result (number_at bytes.now) }
{
    match number_front(bytes) {
        None => Err(SegmentFault::BadSegment),
        Some((number, rest)) => Ok((number, rest)),
    }
}

/// A number that is spelled beside the one before it, and the bytes behind it.
#[tactic(auto, unfolding(crate::specs::Reading::gap_at))]
pub fn read_gap(before: Option<u32>, bytes: &[u8]) -> Result<(u32, &[u8]), SegmentFault>
    ensures { Gives (λ x. (x.0, x.1.now)) result (gap_at before bytes.now) }
{
    let (gap, rest) = read_number(bytes)?;
    if !is_gap(before, gap) {
        return Err(SegmentFault::BadSegment);
    }
    Ok((over_gap(before, gap), rest))
}

fn is_gap(before: Option<u32>, gap: u64) -> bool
    ensures { result ≡ is_gap before gap }
{
    match before {
        None => gap < LIMIT,
        Some(before) => is_rise(before, gap),
    }
}

fn is_rise(before: u32, gap: u64) -> bool
    ensures { result ≡ (nat_lt 0 gap && nat_lt (before + gap) (2 ^ 32)) }
{
    if gap >= LIMIT {
        return false;
    }
    0 < gap && u64::from(before) + gap < LIMIT
}

fn over_gap(before: Option<u32>, gap: u64) -> u32
    requires { is_gap before gap ≡ true }
    ensures { result ≡ over_gap before gap }
{
    match before {
        None => gap as u32,
        Some(before) => before + gap as u32,
    }
}

//! Walks along two lists of places that rise, each of them once.

ghost use Rattle.std.specs.Prelude.{◌≡◌, ◌≤◌, ◌+◌, ◌-◌, ◌^◌, ℕ, IfOk, filter};
ghost use Rattle.std.specs.List.{list_any};
ghost use Rattle.ci_restrict.specs.Walk.{BeginsFrom, Rise, from, is_between, numbers};

use ci_base::{OutOfMemory, Place};
use std::alloc::Global;

/// Those of the places from which, so much further on, one of the others is no farther away than
/// this. The time is the sum of both lengths.
pub fn those_with(
    alloc: Global,
    places: &[Place],
    others: &[Place],
    further: u64,
    within: u64,
) -> Result<Vec<Place>, OutOfMemory>
    requires places { Rise places.now }
    requires others { Rise others.now }
    requires further { further ≤ 2 ^ 63 }
    requires within { within ≤ 2 ^ 32 }
    ensures ok { IfOk result (λ kept. numbers kept.items ≡ filter (λ p. list_any
        (is_between (p + further - within) (p + further + within)) (numbers others.now))
        (numbers places.now)) }
    ensures rise { IfOk result (λ kept. Rise kept.items) }
{
    let mut kept = Vec::new(alloc);
    let mut rest = others;
    for place in places {
        let at = u64::from(place.0) + further;
        rest = not_below(rest, at.saturating_sub(within));
        if is_next_upto(rest, at + within) {
            kept.push(*place)?;
        }
    }
    Ok(kept)
}

// The places from the first on that isn't below `low`.
fn not_below(places: &[Place], low: u64) -> &[Place]
    ensures from { numbers result.now ≡ from low (numbers places.now) }
{
    for (i, place) in places.iter().enumerate() {
        if u64::from(place.0) >= low {
            return &places[i..];
        }
    }
    &[]
}

// Whether there is a place up to `high`; the first is the lowest.
fn is_next_upto(places: &[Place], high: u64) -> bool
    requires { Rise places.now }
    ensures { (low : ℕ) → BeginsFrom low (numbers places.now) →
        result ≡ list_any (is_between low high) (numbers places.now) }
{
    match places {
        [] => false,
        [first, ..] => u64::from(first.0) <= high,
    }
}

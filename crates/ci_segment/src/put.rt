// Postings, written.
ghost use Rattle.std.specs.Prelude.{◌≡◌, ◌<◌, ◌^◌, ◌++◌, All, IfOk, OnOk, length};
ghost use Rattle.ci_front.specs.Front.{sized};
ghost use Rattle.ci_keys.specs.Places.{IsPlaces};
ghost use Rattle.ci_keys.specs.Postings.{IsPostings};
ghost use Rattle.ci_base.specs.Varint.{varint};
ghost use Rattle.ci_segment.specs.Postings.{ArePlaces, IsSpelledPostings, gap_bytes, places_bytes, postings_bytes};
ghost use Rattle.ci_segment.specs.Writing.{MayRise};

use ci_base::{DocNo, OutOfMemory, Place, put_varint};
use ci_keys::{Places, Postings};
use std::alloc::Global;

pub fn put_sized(out: &mut Vec<u8>, bytes: &[u8]) -> Result<(), OutOfMemory>
    ensures bytes { OnOk result (out.new.items ≡ out.old.items ++ sized bytes.now) }
    ensures few { length bytes.now < 2 ^ 64 }
{
    put_varint(out, bytes.len() as u64)?;
    out.extend_from_slice(bytes)?;
    Ok(())
}

// A number beside the one before it, which is below it.
fn put_gap(out: &mut Vec<u8>, before: Option<u32>, number: u32) -> Result<(), OutOfMemory>
    requires { MayRise before number }
    ensures bytes { OnOk result (out.new.items ≡ out.old.items ++ gap_bytes before number) }
    ensures range { number < 2 ^ 32 }
{
    match before {
        None => put_varint(out, u64::from(number)),
        Some(before) => put_varint(out, u64::from(number - before)),
    }
}

fn put_places(out: &mut Vec<u8>, places: &Places) -> Result<(), OutOfMemory>
    ensures bytes { OnOk result (out.new.items ≡ out.old.items ++ places_bytes places.now) }
    ensures grammar { OnOk result (ArePlaces places.now) }
{
    put_list(out, places.items())
}

pub fn put_count(out: &mut Vec<u8>, count: usize) -> Result<(), OutOfMemory>
    ensures bytes { OnOk result (out.new.items ≡ out.old.items ++ varint count) }
    ensures range { count < 2 ^ 64 }
{
    put_varint(out, count as u64)
}

fn put_list(out: &mut Vec<u8>, places: &[Place]) -> Result<(), OutOfMemory>
    requires { IsPlaces places.now }
    ensures bytes { OnOk result (out.new.items ≡ out.old.items ++ places_bytes places.now) }
    ensures grammar { OnOk result (ArePlaces places.now) }
{
    put_count(out, places.len())?;
    let mut before = None;
    for place in places {
        put_gap(out, before, place.0)?;
        before = Some(place.0);
    }
    Ok(())
}

/// The one spelling of the postings.
#[tactic(auto, unfolding(crate::specs::Postings::postings_bytes))]
pub fn spelled_postings(alloc: Global, postings: &[(DocNo, Places)]) -> Result<Vec<u8>, OutOfMemory>
    requires { IsPostings postings.now }
    ensures bytes { IfOk result (λ out. out.items ≡ postings_bytes postings.now) }
    ensures grammar { OnOk result (IsSpelledPostings postings.now) }
{
    let mut out = Vec::new(alloc);
    let mut before = None;
    for (doc, places) in postings {
        put_gap(&mut out, before, doc.0)?;
        put_places(&mut out, places)?;
        before = Some(doc.0);
    }
    Ok(out)
}

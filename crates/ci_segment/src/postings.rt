// Postings, read: for each document its number, as the difference to the one before it, and its places.
ghost use Rattle.std.specs.Prelude.{◌≡◌, List, ℕ, IfOk, IsErrOf, Some};
ghost use Rattle.ci_segment.specs.Postings.{IsSpelledPostings, Posting, postings_bytes};
ghost use Rattle.ci_segment.specs.Reading.{Gives, posting_at, postings_of};

use crate::SegmentFault;
use crate::gap::read_gap;
use crate::places::read_places;
use ci_base::DocNo;
use ci_keys::{Places, Postings};
use std::alloc::Global;

/// The postings that the bytes spell, all of the bytes.
pub fn read_postings(alloc: Global, bytes: &[u8]) -> Result<Postings, SegmentFault>
    ensures ok { IfOk result (λ postings.
        IsSpelledPostings postings × (postings_bytes postings ≡ bytes.now)) }
    ensures bad { IsErrOf result SegmentFault.BadSegment → (postings : List Posting) →
        IsSpelledPostings postings → ¬ (postings_bytes postings ≡ bytes.now) }
{
    match read_all(alloc, bytes) {
        Ok(list) => Ok(Postings::new(list)),
        Err(fault) => Err(fault),
    }
}

/// Postings have one spelling. A call does nothing: the contract is what it is for.
pub fn postings_law()
    ensures { (a b : List Posting) → IsSpelledPostings a → IsSpelledPostings b →
        postings_bytes a ≡ postings_bytes b → a ≡ b }
{}

pub fn read_all(alloc: Global, bytes: &[u8]) -> Result<Vec<(DocNo, Places)>, SegmentFault>
    ensures { Gives (λ list. list.items) result (postings_of bytes.now) }
{
    let mut list = Vec::new(alloc);
    let mut rest = bytes;
    let mut before = None;
    for _ in 0..bytes.len() {
        if rest.is_empty() {
            return Ok(list);
        }
        let ((doc, places), after) = read_posting(alloc, before, rest)?;
        list.push((doc, places))?;
        before = Some(doc.0);
        rest = after;
    }
    if !rest.is_empty() {
        return Err(SegmentFault::BadSegment);
    }
    Ok(list)
}

#[tactic(auto, unfolding(crate::specs::Reading::posting_at))]
fn read_posting(
    alloc: Global,
    before: Option<u32>,
    bytes: &[u8],
) -> Result<((DocNo, Places), &[u8]), SegmentFault>
    ensures { Gives (λ x. (x.0, x.1.now)) result (posting_at before bytes.now) }
{
    let (number, rest) = read_gap(before, bytes)?;
    let (places, rest) = read_places(alloc, rest)?;
    Ok(((DocNo(number), places), rest))
}

ghost use Rattle.std.specs.Prelude.{◌≡◌, IfOk};
ghost use Rattle.std.specs.List.{list_any};
ghost use Rattle.ci_dialect.specs.Near as spec;
ghost use Rattle.ci_restrict.specs.Walk.{HaveTheSame, Rise, numbers};

use crate::walk::those_with;
use crate::word::{phrase_places, places_of};
use ci_base::{OutOfMemory, Place};
use ci_dialect::Restriction;
use ci_keys::Entry;
use std::alloc::Global;

/// By how much the places of neighbours differ at most.
const NEAR_PLACES: u64 = 50;

/// Whether there are places, one for each term in order, of which neighbours are near.
pub fn are_near(alloc: Global, entry: &Entry, terms: &[Restriction]) -> Result<bool, OutOfMemory>
    ensures { IfOk result (λ yes. yes ≡ spec.are_near entry.now.words terms.now) }
{
    match terms {
        [] => Ok(true),
        [first, more @ ..] => {
            let places = term_places(alloc, entry, first)?;
            are_behind(alloc, entry, places, more)
        }
    }
}

// Whether the terms stand behind one of the places. Of each term those places are kept that are
// near one of the term before.
fn are_behind(
    alloc: Global,
    entry: &Entry,
    first: Vec<Place>,
    terms: &[Restriction],
) -> Result<bool, OutOfMemory>
    requires { Rise first.items }
    ensures { IfOk result (λ yes. yes ≡ list_any
        (λ p. spec.near_behind entry.now.words p terms.now) (numbers first.items)) }
{
    let mut places = first;
    for term in terms {
        let all = term_places(alloc, entry, term)?;
        places = those_with(alloc, all.as_slice(), places.as_slice(), 0, NEAR_PLACES)?;
    }
    Ok(!places.is_empty())
}

// The places at which a term begins.
fn term_places(alloc: Global, entry: &Entry, term: &Restriction) -> Result<Vec<Place>, OutOfMemory>
    ensures same { IfOk result (λ places. HaveTheSame (numbers places.items)
        (spec.term_places entry.now.words term.now)) }
    ensures rise { IfOk result (λ places. Rise places.items) }
{
    match term {
        Restriction::Content {
            property,
            word,
            prefix,
        } => places_of(alloc, entry, *property, word, *prefix),
        Restriction::Phrase { property, slots } => {
            phrase_places(alloc, entry, *property, slots.items())
        }
        Restriction::Proximity { .. } => Ok(Vec::new(alloc)),
        Restriction::Property { .. } => Ok(Vec::new(alloc)),
        Restriction::Pattern { .. } => Ok(Vec::new(alloc)),
        Restriction::Scope(_) => Ok(Vec::new(alloc)),
        Restriction::And(_) => Ok(Vec::new(alloc)),
        Restriction::Or(_) => Ok(Vec::new(alloc)),
        Restriction::Not(_) => Ok(Vec::new(alloc)),
    }
}

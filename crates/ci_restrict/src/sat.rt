ghost use Rattle.std.specs.Prelude.{◌≡◌, IfOk};
ghost use Rattle.std.specs.List.{list_all, list_any};
ghost use Rattle.ci_dialect.specs.Sat as spec;

use crate::near::are_near;
use crate::value::{has_match, has_related};
use crate::word::{has_word, phrase_places};
use ci_base::{OutOfMemory, PathText};
use ci_dialect::Restriction;
use ci_keys::Entry;
use std::alloc::Global;

/// Whether a document with this path and this entry satisfies the restriction.
#[cycle(sat)]
pub fn satisfies(
    alloc: Global,
    restriction: &Restriction,
    path: &PathText,
    entry: &Entry,
) -> Result<bool, OutOfMemory>
    ensures { IfOk result (λ yes. yes ≡ spec.sat restriction.now path.now entry.now) }
{
    match restriction {
        Restriction::Content {
            property,
            word,
            prefix,
        } => Ok(has_word(entry.words(), *property, word, *prefix)),
        Restriction::Phrase { property, slots } => {
            let places = phrase_places(alloc, entry, *property, slots.items())?;
            Ok(!places.is_empty())
        }
        Restriction::Proximity { terms, .. } => are_near(alloc, entry, terms.as_slice()),
        Restriction::Property {
            property,
            relation,
            value,
        } => Ok(has_related(entry.values(), *property, *relation, value)),
        Restriction::Pattern { property, pattern } => {
            Ok(has_match(entry.values(), *property, pattern))
        }
        Restriction::Scope(prefix) => Ok(prefix.holds(path)),
        Restriction::And(all) => satisfies_all(alloc, all.as_slice(), path, entry),
        Restriction::Or(any) => satisfies_any(alloc, any.as_slice(), path, entry),
        Restriction::Not(one) => {
            let holds = satisfies(alloc, one.get(), path, entry)?;
            Ok(!holds)
        }
    }
}

#[cycle(sat)]
fn satisfies_all(
    alloc: Global,
    all: &[Restriction],
    path: &PathText,
    entry: &Entry,
) -> Result<bool, OutOfMemory>
    ensures { IfOk result (λ yes. yes ≡ list_all (λ r. spec.sat r path.now entry.now) all.now) }
{
    for one in all {
        if !satisfies(alloc, one, path, entry)? {
            return Ok(false);
        }
    }
    Ok(true)
}

#[cycle(sat)]
fn satisfies_any(
    alloc: Global,
    any: &[Restriction],
    path: &PathText,
    entry: &Entry,
) -> Result<bool, OutOfMemory>
    ensures { IfOk result (λ yes. yes ≡ list_any (λ r. spec.sat r path.now entry.now) any.now) }
{
    for one in any {
        if satisfies(alloc, one, path, entry)? {
            return Ok(true);
        }
    }
    Ok(false)
}

// The postings of a key in one part.
ghost use Rattle.std.specs.Prelude.{◌≡◌, [], IfOk};
ghost use Rattle.ci_keys.specs.Key.{key_cmp};
ghost use Rattle.ci_keys.specs.Order.{Ascends};
ghost use Rattle.ci_part.specs.Keys.{all_keys};
ghost use Rattle.ci_part.specs.Part.{lists_of};
ghost use Rattle.ci_part.specs.View.{AreBeside};
ghost use Rattle.ci_wordlist.specs.WordList.{AreKeys};

use crate::Part;
use ci_base::OutOfMemory;
use ci_keys::{Key, Postings};
use ci_segment::{Segment, Steps};
use std::alloc::Global;
use std::sync::ledger::Ledger;

impl Part {
    /// The part's postings of the key, and none where the key isn't there.
    pub fn postings<L: Ledger>(
        &self,
        alloc: Global,
        key: &Key,
        steps: &mut Steps<L>,
    ) -> Result<Postings, OutOfMemory>
        ensures beside { IfOk result (λ postings.
            AreBeside key.now (lists_of self.now).keys postings) }
        ensures order { AreKeys (lists_of self.now).rows (lists_of self.now).keys }
    {
        match self {
            Part::List(list) => listed(alloc, list.keys(), key),
            Part::Shadow(kept) => packed(alloc, kept.segments(), key, steps),
            Part::Master(kept) => packed(alloc, kept.segments(), key, steps),
        }
    }
}

fn listed(alloc: Global, keys: &[(Key, Postings)], key: &Key) -> Result<Postings, OutOfMemory>
    requires { Ascends (λ item. item.0) key_cmp keys.now }
    ensures { IfOk result (λ postings. AreBeside key.now keys.now postings) }
{
    match keys.binary_search_by(|item| item.0.cmp(key)) {
        Ok(at) => keys[at].1.copy(alloc),
        Err(_) => Ok(no_postings(alloc)),
    }
}

fn packed<L: Ledger>(
    alloc: Global,
    segments: &[Segment],
    key: &Key,
    steps: &mut Steps<L>,
) -> Result<Postings, OutOfMemory>
    requires { Ascends (λ item. item.0) key_cmp (all_keys segments.now) }
    ensures { IfOk result (λ postings. AreBeside key.now (all_keys segments.now) postings) }
{
    for segment in segments {
        match segment.find(key, steps) {
            Some(at) => return segment.postings_at(alloc, at),
            None => {}
        }
    }
    Ok(no_postings(alloc))
}

fn no_postings(alloc: Global) -> Postings
    ensures { result ≡ [] }
{
    Postings::new(Vec::new(alloc))
}

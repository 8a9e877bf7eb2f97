ghost use Rattle.std.specs.Prelude.{◌≡◌, IfOk};
ghost use Rattle.std.proofs.Common.{rules};
ghost use Rattle.std.specs.Cmp.Rules.{comparing};
ghost use Rattle.std.specs.Cmp.{partial_order_from_own_ties};
ghost use Rattle.std.specs.Ordering.{as_partial_cmp};
ghost use Rattle.ci_keys.specs.Key.{key_cmp};

use ci_base::{OutOfMemory, PropNo, Text};
use std::alloc::Global;
use std::cmp::Ordering;

/// A word in a property. Keys are in order by property, and at one property by the word's bytes.
#[derive(Debug, PartialEq, Eq, Hash, Drop)]
pub struct Key {
    pub property: PropNo,
    pub word: Text,
}

impl Key {
    /// Another key that equals this one.
    pub fn copy(&self, alloc: Global) -> Result<Key, OutOfMemory>
        ensures { IfOk result (λ k. k ≡ self.now) }
    {
        Ok(Key {
            property: self.property,
            word: self.word.copy(alloc)?,
        })
    }
}

impl PartialOrd for Key {
    ghost partial_cmp = { as_partial_cmp key_cmp };

    ghost laws = { partial_order_from_own_ties (Prim.search (comparing, rules))
        (Prim.search (comparing, rules)) };

    fn partial_cmp(&self, other: &Key) -> Option<Ordering> {
        Some(self.cmp(other))
    }
}

impl Ord for Key {
    ghost cmp = { key_cmp };

    ghost total = { Prim.search (comparing, rules) };

    ghost matches_partial_cmp = { Prim.search (comparing, rules) };

    ghost matches_eq = { Prim.search (comparing, rules) };

    fn cmp(&self, other: &Key) -> Ordering {
        let by_property = self.property.cmp(&other.property);
        by_property.then(self.word.cmp(&other.word))
    }
}

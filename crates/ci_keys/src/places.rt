ghost use Rattle.std.specs.Prelude.{◌≡◌, IfOk};
ghost use Rattle.ci_keys.specs.Places.{IsPlaces};

use ci_base::{OutOfMemory, Place};
use std::alloc::Global;
use std::marker::Model;

/// The places of a word in one document. Contracts see the list: at least one, and they ascend.
#[derive(Debug, Drop)]
pub struct Places {
    list: Vec<Place>,
}

impl Model for Places {
    ghost use Rattle.std.specs.Prelude.{List};
    ghost use Rattle.ci_base.specs.declared.numbers.Place.{Place};
    ghost use Rattle.ci_keys.specs.Places.{IsPlaces};

    ghost Value = { List Place };

    ghost view = { λ p. p.list.items };

    ghost invariant = { λ p. IsPlaces p.list.items };
}

impl Places {
    /// These places, without a copy.
    pub fn new(list: Vec<Place>) -> Places
        requires { IsPlaces list.items }
        ensures { result ≡ list.items }
    {
        Places { list }
    }

    pub fn items(&self) -> &[Place]
        ensures items { result.now ≡ self.now }
        ensures places { IsPlaces self.now }
    {
        self.list.as_slice()
    }

    /// The same places once more.
    pub fn copy(&self, alloc: Global) -> Result<Places, OutOfMemory>
        ensures { IfOk result (λ p. p ≡ self.now) }
    {
        Ok(Places {
            list: Vec::from_slice(alloc, self.items())?,
        })
    }

    /// The places as a `Vec`, without a copy.
    pub fn into_vec(self) -> Vec<Place>
        ensures items { result.items ≡ self }
        ensures places { IsPlaces self }
    {
        self.list
    }
}

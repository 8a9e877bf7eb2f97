ghost use Rattle.std.specs.Prelude.{◌≡◌, ◌<◌, ◌≤◌, ◌↔◌, ◌+◌, ◌^◌, [], None, Some, length, IsOk, IfOk, OnOk, OnErr, IsErrOf, IsSome, IfSome};
ghost use Rattle.std.specs.Option.{option_copied};

use crate::numbered::Numbered;
use crate::places::Places;
use crate::{AdoptFault, NumberFault};
use ci_base::{DocNo, OutOfMemory, PathText};
use std::alloc::Global;
use std::marker::Model;

/// The most documents of a catalogue. Adopted numbers are below it.
pub const DOCUMENTS: u32 = 262_144;

/// The numbers of paths. A path keeps its number for ever. Contracts see a `Numbering`.
#[derive(Debug, Drop)]
pub struct Numbers {
    alloc: Global,
    limit: u32,
    docs: Numbered,
    places: Places,
}

impl Model for Numbers {
    ghost use Rattle.ci_paths.specs.Numbering.{Numbering};
    ghost use Rattle.ci_paths.specs.Places.{IsIndexed};

    ghost Value = { Numbering };

    ghost view = { λ n. record { numbered = n.docs; limit = n.limit } };

    ghost invariant = { λ n. IsIndexed n.docs n.places };
}

impl Numbers {
    ghost use Rattle.ci_paths.specs.Numbering.{Clashes, IsLeastFree, number_of, path_of};
    ghost use Rattle.ci_paths.specs.Numbering.{IsFullFor, with_path};

    /// No path is numbered, and at most so many will be.
    pub fn new(alloc: Global, limit: u32) -> Numbers
        ensures { result ≡ record { numbered = []; limit = limit } }
    {
        Numbers {
            alloc,
            limit,
            docs: Numbered::new(alloc),
            places: Places::new(alloc),
        }
    }

    /// Other numbers, which contracts see as equal to these.
    pub fn copy(&self, alloc: Global) -> Result<Numbers, OutOfMemory>
        ensures { IfOk result (λ n. n ≡ self.now) }
    {
        let mut copied = Numbers::new(alloc, self.limit);
        for (path, doc) in self.docs.items() {
            copied.keep(*doc, path)?;
        }
        Ok(copied)
    }

    /// From now on at most so many paths are numbered. Those that are stay so.
    pub fn limit_to(&mut self, limit: u32)
        ensures { self.new ≡ record self.old { limit = limit } }
    {
        self.limit = limit;
    }

    /// The number of a path. A new path gets the least number that no path has.
    pub fn number(&mut self, path: &PathText) -> Result<DocNo, NumberFault>
        ensures known { (doc : DocNo) → number_of self.old.numbered path.now ≡ Some doc →
            result ≡ Ok doc }
        ensures ok { IfOk result (λ doc. number_of self.new.numbered path.now ≡ Some doc) }
        ensures stays { IsSome (number_of self.old.numbered path.now) → self.new ≡ self.old }
        ensures new { number_of self.old.numbered path.now ≡ None →
            IfOk result (λ doc. self.new ≡ with_path self.old path.now doc) }
        ensures least { number_of self.old.numbered path.now ≡ None →
            IfOk result (λ doc. IsLeastFree self.old.numbered doc.0) }
        ensures full { IsErrOf result NumberFault.TooManyDocuments ↔
            IsFullFor self.old path.now }
        ensures err { OnErr result (self.new ≡ self.old) }
    {
        if let Some(doc) = self.find(path) {
            return Ok(doc);
        }
        if self.limit <= self.len() {
            return Err(NumberFault::TooManyDocuments);
        }
        let doc = DocNo(self.places.least_free() as u32);
        self.keep(doc, path)?;
        Ok(doc)
    }

    /// Gives a path the number that it brought.
    pub fn adopt(&mut self, doc: DocNo, path: &PathText) -> Result<(), AdoptFault>
        requires { doc.0 < DOCUMENTS }
        ensures known { number_of self.old.numbered path.now ≡ Some doc → IsOk result }
        ensures ok { OnOk result (number_of self.new.numbered path.now ≡ Some doc) }
        ensures stays { IsSome (number_of self.old.numbered path.now) → self.new ≡ self.old }
        ensures new { number_of self.old.numbered path.now ≡ None →
            OnOk result (self.new ≡ with_path self.old path.now doc) }
        ensures clash { IsErrOf result AdoptFault.Clash ↔ Clashes self.old.numbered path.now doc }
        ensures err { OnErr result (self.new ≡ self.old) }
    {
        match self.find(path) {
            Some(kept) if kept == doc => Ok(()),
            None if self.path(doc).is_none() => {
                self.keep(doc, path)?;
                Ok(())
            }
            _ => Err(AdoptFault::Clash),
        }
    }

    /// The number of a path, if it has one.
    pub fn find(&self, path: &PathText) -> Option<DocNo>
        ensures number { result ≡ number_of self.now.numbered path.now }

        // No other path has it.
        ensures own { IfSome result (λ doc. path_of self.now.numbered doc.0 ≡ Some path.now) }
    {
        self.docs.get(path).copied()
    }

    /// The path that has a number.
    pub fn path(&self, doc: DocNo) -> Option<&PathText>
        ensures path { option_copied result ≡ path_of self.now.numbered doc.0 }

        // It has no other number.
        ensures own { IfSome result (λ p. number_of self.now.numbered p.now ≡ Some doc) }
    {
        match self.places.place_of(doc.0 as usize) {
            Some(place) => Some(&self.docs.items()[place].0),
            None => None,
        }
    }

    /// How many paths are numbered.
    pub fn len(&self) -> u32
        ensures { result ≡ length self.now.numbered }
    {
        self.docs.items().len() as u32
    }

    // Numbers a new path by a free number.
    fn keep(&mut self, doc: DocNo, path: &PathText) -> Result<(), OutOfMemory>
        requires number { path_of self.old.numbered doc.0 ≡ None }
        requires path { number_of self.old.numbered path.now ≡ None }
        requires bound { doc.0 + 1 < 2 ^ 32 }
        ensures ok { OnOk result (self.new ≡ with_path self.old path.now doc) }
        ensures numbered { OnOk result (number_of self.new.numbered path.now ≡ Some doc) }
        ensures err { OnErr result (self.new ≡ self.old) }
    {
        let number = doc.0 as usize;
        let place = self.docs.items().len();
        self.places.make_room(number)?;
        self.docs.add(self.alloc, path, doc)?;
        self.places.put(number, place);
        Ok(())
    }
}

ghost use Rattle.std.specs.Prelude.{◌≡◌, ◌++◌, ◌<◌, ◌+◌, ◌≤◌, [], ◌∷◌, None, length, slice_get, IfOk, OnOk, OnErr, vec_capacity, vec_len};
ghost use Rattle.std.specs.Option.{option_copied};

use ci_base::{DocNo, OutOfMemory, PathText};
use std::alloc::Global;
use std::collections::BTreeMap;
use std::marker::Model;

/// Paths with their numbers, in the order in which they came. Contracts see the list.
#[derive(Debug, Drop)]
pub(crate) struct Numbered {
    listed: Vec<(PathText, DocNo)>,
    // The same numbers by path, so that each look-up is as fast as the next, whatever the paths are.
    sorted: BTreeMap<PathText, DocNo>,
}

impl Model for Numbered {
    ghost use Rattle.std.specs.Prelude.{List, ℕ};
    ghost use Rattle.ci_base.specs.declared.numbers.DocNo.{DocNo};
    ghost use Rattle.ci_paths.specs.Places.{IsSorted};

    ghost Value = { List (List ℕ × DocNo) };

    ghost view = { λ n. n.listed.items };

    ghost invariant = { λ n. IsSorted n.listed.items n.sorted };
}

impl Numbered {
    ghost use Rattle.ci_paths.specs.Numbering.{number_of};

    /// No paths, and no memory taken.
    pub fn new(alloc: Global) -> Numbered
        ensures { result ≡ [] }
    {
        Numbered {
            listed: Vec::new(alloc),
            sorted: BTreeMap::new(alloc),
        }
    }

    pub fn items(&self) -> &[(PathText, DocNo)]
        ensures { result.now ≡ self.now }
    {
        self.listed.as_slice()
    }

    /// The number of a path, if it has one.
    pub fn get(&self, path: &PathText) -> Option<&DocNo>
        ensures { option_copied result ≡ number_of self.now path.now }
    {
        self.sorted.get(path)
    }

    /// Appends a path that isn't there.
    pub fn add(&mut self, alloc: Global, path: &PathText, doc: DocNo) -> Result<(), OutOfMemory>
        requires { number_of self.old path.now ≡ None }
        ensures ok { OnOk result (self.new ≡ self.old ++ (path.now, doc) ∷ []) }
        ensures err { OnErr result (self.new ≡ self.old) }
    {
        let listed = path.copy(alloc)?;
        let sorted = path.copy(alloc)?;
        // Behind the map nothing may fail, so the list's room is taken before.
        self.listed.reserve(1)?;
        self.sorted.insert(sorted, doc)?;
        match self.listed.push((listed, doc)) {
            Ok(()) => Ok(()),
            Err(_) => unreachable!(),
        }
    }
}

ghost use Rattle.std.specs.Prelude.{◌≡◌, IfOk};
ghost use Rattle.ci_journal.specs.Served.{hits_in};

use crate::Plain;
use ci_base::OutOfMemory;
use ci_dialect::Restriction;
use ci_journal::Paths;
use std::alloc::Global;
use std::marker::Model;
use std::sync::Arc;

/// A plain list of documents that several questions hold without a copy. Contracts see the list.
#[derive(Drop)]
pub struct SharedPlain {
    plain: Arc<Plain, Global>,
}

impl Model for SharedPlain {
    ghost use Rattle.std.specs.Arc.{arc_value};
    ghost use Rattle.std.specs.Prelude.{List, ℕ};
    ghost use Rattle.ci_keys.specs.Entry.{EntryLists};

    ghost Value = { List (List ℕ × EntryLists) };

    ghost view = { λ s. arc_value s.plain };
}

impl SharedPlain {
    pub fn new(alloc: Global, plain: Plain) -> Result<SharedPlain, OutOfMemory>
        ensures { IfOk result (λ shared. shared ≡ plain) }
    {
        Ok(SharedPlain {
            plain: Arc::new(alloc, plain)?,
        })
    }

    /// The paths of the documents that satisfy the restriction.
    pub fn hits(&self, alloc: Global, tree: &Restriction) -> Result<Paths, OutOfMemory>
        ensures { IfOk result (λ paths. paths ≡ hits_in tree.now self.now) }
    {
        self.plain.hits(alloc, tree)
    }

    /// The same list for one holder more.
    pub fn share(&self) -> Result<SharedPlain, OutOfMemory>
        ensures { IfOk result (λ shared. shared ≡ self.now) }
    {
        Ok(SharedPlain {
            plain: Arc::try_clone(&self.plain)?,
        })
    }
}

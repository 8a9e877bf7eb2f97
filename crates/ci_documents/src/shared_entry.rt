ghost use Rattle.std.specs.Prelude.{◌≡◌, IfOk};

use ci_base::OutOfMemory;
use ci_keys::Entry;
use std::alloc::Global;
use std::marker::Model;
use std::sync::Arc;

/// An entry that several lists hold without a copy. Contracts see the entry.
#[derive(Drop)]
pub struct SharedEntry {
    entry: Arc<Entry, Global>,
}

impl Model for SharedEntry {
    ghost use Rattle.std.specs.Arc.{arc_value};
    ghost use Rattle.ci_keys.specs.Entry.{EntryLists};

    ghost Value = { EntryLists };

    ghost view = { λ s. arc_value s.entry };
}

impl SharedEntry {
    pub fn new(alloc: Global, entry: Entry) -> Result<SharedEntry, OutOfMemory>
        ensures { IfOk result (λ shared. shared ≡ entry) }
    {
        Ok(SharedEntry {
            entry: Arc::new(alloc, entry)?,
        })
    }

    pub fn entry(&self) -> &Entry
        ensures { result.now ≡ self.now }
    {
        &self.entry
    }

    /// The same entry for one holder more.
    pub fn share(&self) -> Result<SharedEntry, OutOfMemory>
        ensures { IfOk result (λ shared. shared ≡ self.now) }
    {
        Ok(SharedEntry {
            entry: Arc::try_clone(&self.entry)?,
        })
    }
}

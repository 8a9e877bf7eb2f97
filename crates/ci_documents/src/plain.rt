ghost use Rattle.std.specs.Prelude.{◌≡◌, ◌++◌, [], ◌∷◌, IfOk, OnOk, OnErr};
ghost use Rattle.ci_journal.specs.Served.{hits_in};

use crate::SharedEntry;
use ci_base::{OutOfMemory, PathText};
use ci_dialect::Restriction;
use ci_journal::Paths;
use ci_restrict::satisfies;
use std::alloc::Global;
use std::marker::Model;

/// A plain list of documents and their entries, in byte order of paths.
#[derive(Drop)]
pub struct Plain {
    documents: Vec<(PathText, SharedEntry)>,
}

impl Model for Plain {
    ghost use Rattle.std.specs.Prelude.{List, ℕ};
    ghost use Rattle.ci_keys.specs.Entry.{EntryLists};

    ghost Value = { List (List ℕ × EntryLists) };

    ghost view = { λ p. p.documents.items };
}

impl Plain {
    /// No document, and no memory taken.
    pub fn new(alloc: Global) -> Plain
        ensures { result ≡ [] }
    {
        Plain {
            documents: Vec::new(alloc),
        }
    }

    /// Appends a document.
    pub fn add(&mut self, path: PathText, entry: SharedEntry) -> Result<(), OutOfMemory>
        ensures ok { OnOk result (self.new ≡ self.old ++ (path, entry) ∷ []) }
        ensures err { OnErr result (self.new ≡ self.old) }
    {
        self.documents.push((path, entry))?;
        Ok(())
    }

    /// The paths of the documents that satisfy the restriction.
    pub fn hits(&self, alloc: Global, tree: &Restriction) -> Result<Paths, OutOfMemory>
        ensures { IfOk result (λ paths. paths ≡ hits_in tree.now self.now) }
    {
        let mut hits = Paths::new(alloc);
        for (path, entry) in self.documents.iter() {
            if satisfies(alloc, tree, path, entry.entry())? {
                hits.add(path.copy(alloc)?)?;
            }
        }
        Ok(hits)
    }

    /// Another list of the same documents, whose entries are shared.
    pub fn copy(&self, alloc: Global) -> Result<Plain, OutOfMemory>
        ensures { IfOk result (λ plain. plain ≡ self.now) }
    {
        let mut copied = Plain::new(alloc);
        for (path, entry) in self.documents.iter() {
            copied.add(path.copy(alloc)?, entry.share()?)?;
        }
        Ok(copied)
    }
}

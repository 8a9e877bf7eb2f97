ghost use Rattle.std.specs.Prelude.{◌≡◌, ◌++◌, [], ◌∷◌, IfOk, OnOk, OnErr};

use ci_base::{OutOfMemory, PathText, Seq};
use std::alloc::Global;
use std::marker::Model;

/// The documents of a batch, each with the number of its notice. Contracts see the list.
#[derive(Debug, Drop)]
pub struct Docs {
    docs: Vec<(PathText, Seq)>,
}

impl Model for Docs {
    ghost use Rattle.std.specs.Prelude.{List, ℕ};
    ghost use Rattle.ci_base.specs.declared.numbers.Seq.{Seq};

    ghost Value = { List (List ℕ × Seq) };

    ghost view = { λ d. d.docs.items };
}

impl Docs {
    /// No documents, and no memory taken.
    pub fn new(alloc: Global) -> Docs
        ensures { result ≡ [] }
    {
        Docs {
            docs: Vec::new(alloc),
        }
    }

    /// Appends one document.
    pub fn add(&mut self, doc: (PathText, Seq)) -> Result<(), OutOfMemory>
        ensures ok { OnOk result (self.new ≡ self.old ++ doc ∷ []) }
        ensures err { OnErr result (self.new ≡ self.old) }
    {
        self.docs.push(doc)?;
        Ok(())
    }

    pub fn items(&self) -> &[(PathText, Seq)]
        ensures { result.now ≡ self.now }
    {
        self.docs.as_slice()
    }

    /// Another list of the same documents.
    pub fn copy(&self, alloc: Global) -> Result<Docs, OutOfMemory>
        ensures { IfOk result (λ d. d ≡ self.now) }
    {
        let mut copied = Docs::new(alloc);
        for (path, seq) in self.items() {
            copied.add((path.copy(alloc)?, *seq))?;
        }
        Ok(copied)
    }

    /// The documents as a `Vec`, without a copy.
    pub fn into_vec(self) -> Vec<(PathText, Seq)>
        ensures { result.items ≡ self }
    {
        self.docs
    }
}

impl From<Vec<(PathText, Seq)>> for Docs {
    ghost from_gives = { λ v d. d ≡ v.items };

    fn from(docs: Vec<(PathText, Seq)>) -> Docs {
        Docs { docs }
    }
}

ghost use Rattle.std.specs.Prelude.{◌≡◌, ◌++◌, [], ◌∷◌, IfOk, OnOk, OnErr};

use ci_base::{OutOfMemory, PathText};
use std::alloc::Global;
use std::marker::Model;

/// A list of paths, which is made from a `Vec` without taking memory. Contracts see it as the list of their bytes.
#[derive(Debug, Drop)]
pub struct Paths {
    paths: Vec<PathText>,
}

impl Model for Paths {
    ghost use Rattle.std.specs.Prelude.{List, ℕ};

    ghost Value = { List (List ℕ) };

    ghost view = { λ p. p.paths.items };
}

impl Paths {
    /// No path, and no memory taken.
    pub fn new(alloc: Global) -> Paths
        ensures { result ≡ [] }
    {
        Paths {
            paths: Vec::new(alloc),
        }
    }

    /// Appends a path.
    pub fn add(&mut self, path: PathText) -> Result<(), OutOfMemory>
        ensures ok { OnOk result (self.new ≡ self.old ++ path ∷ []) }
        ensures err { OnErr result (self.new ≡ self.old) }
    {
        self.paths.push(path)?;
        Ok(())
    }

    pub fn items(&self) -> &[PathText]
        ensures { result.now ≡ self.now }
    {
        self.paths.as_slice()
    }

    /// Another list of the same paths.
    pub fn copy(&self, alloc: Global) -> Result<Paths, OutOfMemory>
        ensures { IfOk result (λ paths. paths ≡ self.now) }
    {
        let mut copied = Paths::new(alloc);
        for path in self.paths.iter() {
            copied.add(path.copy(alloc)?)?;
        }
        Ok(copied)
    }
}

impl From<Vec<PathText>> for Paths {
    ghost from_gives = { λ v p. p ≡ v.items };

    fn from(paths: Vec<PathText>) -> Paths {
        Paths { paths }
    }
}

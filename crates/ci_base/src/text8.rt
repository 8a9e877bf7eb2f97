ghost use Rattle.std.specs.Prelude.{◌≡◌, ◌==◌, ◌++◌, [], ◌∷◌, IfOk, OnOk, OnErr};
ghost use Rattle.std.proofs.Common.{rules};
ghost use Rattle.std.specs.Cmp.Lexicographic.{slice_cmp, pointwise};
ghost use Rattle.std.specs.Cmp.Rules.{comparing, hashing};
ghost use Rattle.std.specs.Cmp.{partial_order_from_own_ties};
ghost use Rattle.std.specs.Ordering.{nat_cmp, as_partial_cmp};
ghost use Rattle.std.specs.Hash as fed;

use crate::OutOfMemory;
use std::alloc::Global;
use std::cmp::Ordering;
use std::hash::{Hash, Hasher};
use std::marker::Model;

/// An owned list of bytes, of any kind. Contracts see the list, and lists compare byte by byte.
#[derive(Debug, Drop)]
pub struct Text8 {
    bytes: Vec<u8>,
}

impl Model for Text8 {
    ghost use Rattle.std.specs.Prelude.{List, ℕ};

    ghost Value = { List ℕ };

    ghost view = { λ t. t.bytes.items };
}

impl Text8 {
    /// No bytes, and no memory taken.
    pub fn new(alloc: Global) -> Text8
        ensures { result ≡ [] }
    {
        Text8 {
            bytes: Vec::new(alloc),
        }
    }

    /// A copy of the bytes.
    pub fn of(alloc: Global, bytes: &[u8]) -> Result<Text8, OutOfMemory>
        ensures { IfOk result (λ t. t ≡ bytes.now) }
    {
        Ok(Text8 {
            bytes: Vec::from_slice(alloc, bytes)?,
        })
    }

    /// Appends one byte.
    pub fn add(&mut self, byte: u8) -> Result<(), OutOfMemory>
        ensures ok { OnOk result (self.new ≡ self.old ++ byte ∷ []) }
        ensures err { OnErr result (self.new ≡ self.old) }
    {
        self.bytes.push(byte)?;
        Ok(())
    }

    pub fn items(&self) -> &[u8]
        ensures { result.now ≡ self.now }
    {
        self.bytes.as_slice()
    }

    /// Another list of the same bytes.
    pub fn copy(&self, alloc: Global) -> Result<Text8, OutOfMemory>
        ensures { IfOk result (λ t. t ≡ self.now) }
    {
        Text8::of(alloc, self.items())
    }

    /// The bytes as a `Vec`, without a copy.
    pub fn into_vec(self) -> Vec<u8>
        ensures { result.items ≡ self }
    {
        self.bytes
    }
}

impl From<Vec<u8>> for Text8 {
    ghost from_gives = { λ v t. t ≡ v.items };

    fn from(bytes: Vec<u8>) -> Text8 {
        Text8 { bytes }
    }
}

impl PartialEq for Text8 {
    ghost eq = { pointwise ◌==◌ };

    ghost laws = { Prim.search (comparing, rules) };

    fn eq(&self, other: &Text8) -> bool {
        self.items() == other.items()
    }
}

impl Eq for Text8 {
    ghost laws = { Prim.search (comparing, rules) };
}

impl PartialOrd for Text8 {
    ghost partial_cmp = { as_partial_cmp (slice_cmp nat_cmp) };

    ghost laws = { partial_order_from_own_ties (Prim.search (comparing, rules)) (Prim.search (comparing, rules)) };

    fn partial_cmp(&self, other: &Text8) -> Option<Ordering> {
        Some(self.cmp(other))
    }
}

impl Ord for Text8 {
    ghost cmp = { slice_cmp nat_cmp };

    ghost total = { Prim.search (comparing, rules) };

    ghost matches_partial_cmp = { Prim.search (comparing, rules) };

    ghost matches_eq = { Prim.search (comparing, rules) };

    fn cmp(&self, other: &Text8) -> Ordering {
        self.items().cmp(other.items())
    }
}

impl Hash for Text8 {
    ghost hash_input = { fed.slice fed.u8 };

    ghost respects_eq = { Prim.search (hashing, rules) };

    fn hash<H: Hasher>(&self, state: &mut H) {
        self.items().hash(state);
    }
}

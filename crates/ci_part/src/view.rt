ghost use Rattle.std.specs.Prelude.{◌≡◌, IfOk, map};
ghost use Rattle.ci_part.specs.Part.{lists_of};
ghost use Rattle.ci_part.specs.View.{AreKeysWithin, AreLiveRows, ArePostingsOf, IsOneToOne};

use crate::Part;
use crate::covered::add_uncovered;
use crate::live::add_live;
use crate::range::add_beginning;
use ci_base::{OutOfMemory, PropNo, Text};
use ci_keys::{Key, Postings};
use ci_rows_format::Row;
use ci_segment::Steps;
use std::alloc::Global;
use std::marker::Model;
use std::sync::ledger::Ledger;

/// Parts of one index, newest first. Contracts see the list of what they stand for.
#[derive(Drop)]
pub struct View<'a> {
    parts: &'a [Part],
}

impl<'a> Model for View<'a> {
    ghost use Rattle.std.specs.Prelude.{List, map};
    ghost use Rattle.ci_part.specs.Part.{lists_of};
    ghost use Rattle.ci_wordlist.specs.WordList.{WordLists};
    ghost use Rattle.ci_part.specs.View.{IsOneToOne};

    ghost Value = { List WordLists };

    ghost view = { λ v. map lists_of v.parts.now };

    ghost invariant = { λ v. IsOneToOne (map lists_of v.parts.now) };
}

impl<'a> View<'a> {
    /// A look at these parts, newest first.
    pub fn new(parts: &'a [Part]) -> View<'a>
        requires one_to_one { IsOneToOne (map lists_of parts.now) }
        ensures { result ≡ map lists_of parts.entry.now }
    {
        View { parts }
    }

    /// The postings of the key of documents that no newer part covers, in the order of documents.
    pub fn postings<L: Ledger>(
        &self,
        alloc: Global,
        key: &Key,
        steps: &mut Steps<L>,
    ) -> Result<Postings, OutOfMemory>
        ensures { IfOk result (λ postings. ArePostingsOf self.now key.now postings) }
    {
        let mut all = Vec::new(alloc);
        for at in 0..self.parts.len() {
            let found = self.parts[at].postings(alloc, key, steps)?;
            add_uncovered(&mut all, found, &self.parts[..at])?;
        }
        all.sort_by_key(|posting| posting.0.0)?;
        Ok(Postings::new(all))
    }

    /// The rows of the documents that are there, in the byte order of their paths: of each document
    /// the row of the newest part that has one.
    pub fn rows(&self, alloc: Global) -> Result<Vec<Row>, OutOfMemory>
        ensures { IfOk result (λ rows. AreLiveRows self.now rows.items) }
    {
        let mut all = Vec::new(alloc);
        for at in 0..self.parts.len() {
            add_live(alloc, &mut all, self.parts[at].rows(), &self.parts[..at])?;
        }
        all.sort_unstable_by(|one, other| one.path.cmp(&other.path));
        Ok(all)
    }

    /// All keys of some part in the property whose words begin with the prefix, in order, each once.
    pub fn range(
        &self,
        alloc: Global,
        property: PropNo,
        prefix: &Text,
    ) -> Result<Vec<Key>, OutOfMemory>
        ensures { IfOk result (λ keys.
            AreKeysWithin self.now property prefix.now keys.items) }
    {
        let first = Key {
            property,
            word: prefix.copy(alloc)?,
        };
        let mut keys = Vec::new(alloc);
        for part in self.parts {
            add_beginning(alloc, &mut keys, part, &first)?;
        }
        keys.sort()?;
        keys.dedup_by(|one, other| (*one).cmp(other).is_eq());
        Ok(keys)
    }
}

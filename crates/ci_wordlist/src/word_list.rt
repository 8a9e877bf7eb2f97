ghost use Rattle.std.specs.Prelude.{◌≡◌, All, Contains, IfOk, OnOk, map, length};
ghost use Rattle.std.specs.BTreeMap.{IsOrdered};
ghost use Rattle.std.specs.List.{zip};
ghost use Rattle.ci_keys.specs.Key.{key_cmp};
ghost use Rattle.ci_keys.specs.Entry.{IsWords};
ghost use Rattle.ci_wordlist.specs.Filing.{NoneEmpty, documents, held, is_kept, kept_docs, postings_of};
ghost use Rattle.ci_wordlist.specs.WordList.{AreEntries, AreKeys, AreRows, StandFor};
ghost use Rattle.ci_keys.specs.declared.key.Key.{Key as AnyKey};

use crate::filing::{Index, file_words, keys_of};
use ci_base::{DocNo, OutOfMemory};
use ci_keys::{Entry, Key, Postings};
use ci_rows_format::{Row, RowState};
use std::alloc::Global;
use std::collections::BTreeMap;
use std::marker::Model;

/// The index of one batch of documents, in memory: its rows, and the keys of its documents' words.
#[derive(Drop)]
pub struct WordList {
    rows: Vec<Row>,
    keys: Vec<(Key, Postings)>,
}

impl Model for WordList {
    ghost use Rattle.ci_wordlist.specs.WordList.{WordLists, IsWordList};

    ghost Value = { WordLists };

    ghost view = { λ w. record { rows = w.rows.items; keys = w.keys.items } };

    ghost invariant = { λ w. IsWordList record { rows = w.rows.items; keys = w.keys.items } };
}

impl WordList {
    /// The word list of a batch: its rows, and an entry for each document that is there.
    pub fn from_batch(
        alloc: Global,
        rows: Vec<Row>,
        entries: &[Entry],
    ) -> Result<WordList, OutOfMemory>
        requires rows { AreRows rows.items }
        requires entries { AreEntries rows.items entries.now }
        ensures rows { IfOk result (λ list. list.rows ≡ rows.items) }
        ensures keys { IfOk result (λ list. StandFor rows.items entries.now list.keys) }
    {
        let docs = kept(alloc, rows.as_slice())?;
        let index = file_all(alloc, docs.as_slice(), entries)?;
        let keys = keys_of(alloc, index)?;
        Ok(WordList { rows, keys })
    }

    pub fn rows(&self) -> &[Row]
        ensures rows { result.now ≡ self.now.rows }
        ensures order { AreRows self.now.rows }
    {
        self.rows.as_slice()
    }

    pub fn keys(&self) -> &[(Key, Postings)]
        ensures keys { result.now ≡ self.now.keys }
        ensures order { AreKeys self.now.rows self.now.keys }
    {
        self.keys.as_slice()
    }
}

// The documents that are there.
fn kept(alloc: Global, rows: &[Row]) -> Result<Vec<DocNo>, OutOfMemory>
    ensures { IfOk result (λ docs. docs.items ≡ kept_docs rows.now) }
{
    let mut docs = Vec::new(alloc);
    for row in rows {
        if is_kept(row) {
            docs.push(row.doc)?;
        }
    }
    Ok(docs)
}

fn is_kept(row: &Row) -> bool
    ensures { result ≡ is_kept row.now.state }
{
    match row.state {
        RowState::Kept => true,
        RowState::Erased => false,
    }
}

fn file_all(alloc: Global, docs: &[DocNo], entries: &[Entry]) -> Result<Index, OutOfMemory>
    requires { length docs.now ≡ length entries.now }
    ensures held { IfOk result (λ index. (key : AnyKey) → held index key
        ≡ postings_of key (zip docs.now (map (λ entry. entry.words) entries.now))) }
    ensures some { IfOk result (λ index. NoneEmpty index) }
    ensures order { IfOk result (λ index. IsOrdered key_cmp index) }
    ensures words { OnOk result (All (λ entry. IsWords entry.words) entries.now) }
{
    let mut index = BTreeMap::new(alloc);
    for at in 0..entries.len() {
        file_words(alloc, &mut index, docs[at], entries[at].words())?;
    }
    Ok(index)
}

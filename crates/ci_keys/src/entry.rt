ghost use Rattle.std.specs.Prelude.{◌≡◌, IfOk};
ghost use Rattle.ci_keys.specs.Entry.{EntryLists, IsEntry, IsWords, IsValues, SaysTheSame, StandBeside};
ghost use Rattle.ci_keys.specs.Key.{key_cmp};
ghost use Rattle.ci_keys.specs.Order.{Ascends};

use crate::{Key, Places};
use ci_base::{OutOfMemory, Place, PropNo, Value};
use std::alloc::Global;
use std::marker::Model;

/// What is known of one document: its words with their places, and its values.
#[derive(Debug, Drop)]
pub struct Entry {
    words: Vec<(Key, Places)>,
    values: Vec<(PropNo, Value)>,
}

impl Model for Entry {
    ghost use Rattle.ci_keys.specs.Entry.{EntryLists, IsEntry};

    ghost Value = { EntryLists };

    ghost view = { λ e. record { words = e.words.items; values = e.values.items } };

    ghost invariant = { λ e. IsEntry record { words = e.words.items; values = e.values.items } };
}

impl Entry {
    /// The entry of these lists, without a copy.
    pub fn new(words: Vec<(Key, Places)>, values: Vec<(PropNo, Value)>) -> Entry
        requires words { IsWords words.items }
        requires values { IsValues values.items }
        ensures entry { result ≡ record { words = words.items; values = values.items } }

        // An entry has one form: no other says the same.
        ensures one_form { (other : EntryLists) →
            IsEntry other → SaysTheSame other result → other ≡ result }
    {
        Entry { words, values }
    }

    pub fn words(&self) -> &[(Key, Places)]
        ensures items { result.now ≡ self.now.words }
        ensures words { IsWords self.now.words }
    {
        self.words.as_slice()
    }

    pub fn values(&self) -> &[(PropNo, Value)]
        ensures items { result.now ≡ self.now.values }
        ensures values { IsValues self.now.values }
    {
        self.values.as_slice()
    }

    /// The places beside the key, and none where the key isn't there. The time grows as the
    /// logarithm of the number of keys.
    pub fn places(&self, key: &Key) -> &[Place]
        ensures { StandBeside key.now self.now.words result.now }
    {
        places_beside(self.words.as_slice(), key)
    }

    /// Another entry that equals this one.
    pub fn copy(&self, alloc: Global) -> Result<Entry, OutOfMemory>
        ensures { IfOk result (λ e. e ≡ self.now) }
    {
        Ok(Entry {
            words: copy_words(alloc, self.words.as_slice())?,
            values: copy_values(alloc, self.values.as_slice())?,
        })
    }

    /// The words and the values as `Vec`s, without a copy.
    pub fn into_lists(self) -> (Vec<(Key, Places)>, Vec<(PropNo, Value)>)
        ensures words { result.0.items ≡ self.words }
        ensures values { result.1.items ≡ self.values }
        ensures entry { IsEntry self }
    {
        (self.words, self.values)
    }
}

fn places_beside<'a>(words: &'a [(Key, Places)], key: &Key) -> &'a [Place]
    requires { Ascends (λ word. word.0) key_cmp words.now }
    ensures { StandBeside key.now words.entry.now result.now }
{
    match words.binary_search_by(|word| word.0.cmp(key)) {
        Ok(at) => words[at].1.items(),
        Err(_) => &[],
    }
}

fn copy_words(alloc: Global, words: &[(Key, Places)]) -> Result<Vec<(Key, Places)>, OutOfMemory>
    ensures { IfOk result (λ copied. copied.items ≡ words.now) }
{
    let mut copied = Vec::new(alloc);
    for (key, places) in words {
        copied.push((key.copy(alloc)?, places.copy(alloc)?))?;
    }
    Ok(copied)
}

fn copy_values(
    alloc: Global,
    values: &[(PropNo, Value)],
) -> Result<Vec<(PropNo, Value)>, OutOfMemory>
    ensures { IfOk result (λ copied. copied.items ≡ values.now) }
{
    let mut copied = Vec::new(alloc);
    for (property, value) in values {
        copied.push((*property, value.copy(alloc)?))?;
    }
    Ok(copied)
}

ghost use Rattle.std.specs.Prelude.{◌≡◌, ◌++◌, [], ◌∷◌, List, All, IfOk, OnOk};
ghost use Rattle.std.specs.List.Sorted.{IsStrictlySortedBy};
ghost use Rattle.std.specs.Ordering.{is_eq};
ghost use Rattle.ci_base.specs.declared.numbers.Place.{Place};
ghost use Rattle.ci_keys.specs.declared.key.Key.{Key};
ghost use Rattle.ci_keys.specs.Entry.{IsWords};
ghost use Rattle.ci_keys.specs.Key.{IsIndexKey, key_cmp};
ghost use Rattle.ci_keys.specs.Places.{IsPlaces};
ghost use Rattle.ci_entry.specs.Words.{grouped, stand_cmp};

use ci_base::{OutOfMemory, Place};
use ci_keys::{Key, Places};
use std::alloc::Global;
use std::marker::Model;

// A word with the places that were found so far.
#[derive(Drop)]
struct Word {
    key: Key,
    places: Vec<Place>,
}

impl Model for Word {
    ghost use Rattle.std.specs.Prelude.{List};
    ghost use Rattle.ci_base.specs.declared.numbers.Place.{Place};
    ghost use Rattle.ci_keys.specs.declared.key.Key.{Key};

    ghost Value = { Key × List Place };

    ghost view = { λ w. (w.key, w.places.items) };
}

impl Word {
    fn begin(alloc: Global, key: Key, place: Place) -> Result<Word, OutOfMemory>
        ensures { IfOk result (λ word. word ≡ (key, place ∷ [])) }
    {
        let mut places = Vec::new(alloc);
        places.push(place)?;
        Ok(Word { key, places })
    }

    fn has_key(&self, key: &Key) -> bool
        ensures { result ≡ is_eq (key_cmp self.now.0 key.now) }
    {
        self.key.cmp(key).is_eq()
    }

    fn add(&mut self, place: Place) -> Result<(), OutOfMemory>
        ensures { OnOk result (self.new ≡ (self.old.0, self.old.1 ++ place ∷ [])) }
    {
        self.places.push(place)?;
        Ok(())
    }

    fn finish(self) -> (Key, Places)
        requires { IsPlaces self.1 }
        ensures { result ≡ self }
    {
        (self.key, Places::new(self.places))
    }
}

/// The places of each word together, of words in order.
pub fn group(alloc: Global, found: Vec<(Key, Place)>) -> Result<Vec<(Key, Places)>, OutOfMemory>
    requires ascend { IsStrictlySortedBy stand_cmp found.items }
    requires keys { All (λ stand. IsIndexKey stand.0) found.items }
    ensures list { IfOk result (λ list. list.items ≡ grouped found.items) }
    ensures words { IfOk result (λ list. IsWords list.items) }
{
    let mut words = Vec::new(alloc);
    for (key, place) in found {
        add_stand(alloc, &mut words, key, place)?;
    }
    finish_all(alloc, words)
}

// A place of the last word is added to it, any other begins a word.
fn add_stand(
    alloc: Global,
    words: &mut Vec<Word>,
    key: Key,
    place: Place,
) -> Result<(), OutOfMemory>
    ensures { OnOk result ((all : List (Key × Place)) → words.old.items ≡ grouped all →
        words.new.items ≡ grouped (all ++ (key, place) ∷ [])) }
{
    let count = words.len();
    if count > 0 && words[count - 1].has_key(&key) {
        let last = &mut words[count - 1];
        last.add(place)?;
    } else {
        words.push(Word::begin(alloc, key, place)?)?;
    }
    Ok(())
}

fn finish_all(alloc: Global, words: Vec<Word>) -> Result<Vec<(Key, Places)>, OutOfMemory>
    requires { All (λ word. IsPlaces word.1) words.items }
    ensures { IfOk result (λ list. list.items ≡ words.items) }
{
    let mut list = Vec::new(alloc);
    for word in words {
        list.push(word.finish())?;
    }
    Ok(list)
}

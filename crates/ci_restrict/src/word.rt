ghost use Rattle.std.specs.Prelude.{◌≡◌, ◌+◌, ◌≤◌, ◌^◌, false, true, IfOk, filter};
ghost use Rattle.ci_dialect.specs.Places as spec;
ghost use Rattle.ci_restrict.specs.Walk.{HaveTheSame, Rise, numbers};

use crate::walk::those_with;
use ci_base::{OutOfMemory, Place, PropNo, Text};
use ci_dialect::Slot;
use ci_keys::{Entry, Key, Places};
use std::alloc::Global;

/// Whether one of the words is this one of the property, or for a prefix begins with it.
pub fn has_word(words: &[(Key, Places)], property: PropNo, word: &Text, prefix: bool) -> bool
    ensures { result ≡ spec.has_word words.now property word.now prefix }
{
    words
        .iter()
        .any(|found| is_key(&found.0, property, word, prefix))
}

/// The places of the word, or of all words that begin with it.
pub fn places_of(
    alloc: Global,
    entry: &Entry,
    property: PropNo,
    word: &Text,
    prefix: bool,
) -> Result<Vec<Place>, OutOfMemory>
    ensures same { IfOk result (λ places. HaveTheSame (numbers places.items)
        (spec.places_of entry.now.words property word.now prefix)) }
    ensures rise { IfOk result (λ places. Rise places.items) }
{
    if prefix {
        return prefix_places(alloc, entry, property, word);
    }
    let key = key_of(alloc, property, word)?;
    Ok(Vec::from_slice(alloc, beside(entry, &key))?)
}

/// The places at which a phrase begins.
pub fn phrase_places(
    alloc: Global,
    entry: &Entry,
    property: PropNo,
    slots: &[Slot],
) -> Result<Vec<Place>, OutOfMemory>
    ensures ok { IfOk result (λ places. numbers places.items
        ≡ spec.phrase_places entry.now.words property slots.now) }
    ensures rise { IfOk result (λ places. Rise places.items) }
{
    match slots {
        [] => Ok(Vec::new(alloc)),
        [Slot::Open, ..] => Ok(Vec::new(alloc)),
        [Slot::Word(word), more @ ..] => {
            let key = key_of(alloc, property, word)?;
            followed(alloc, entry, property, beside(entry, &key), more)
        }
    }
}

// Those of the places behind which the words of the slots stand: fewer with each word.
fn followed(
    alloc: Global,
    entry: &Entry,
    property: PropNo,
    first: &[Place],
    more: &[Slot],
) -> Result<Vec<Place>, OutOfMemory>
    requires { Rise first.now }
    ensures ok { IfOk result (λ places. numbers places.items
        ≡ filter (λ p. spec.follow entry.now.words property (p + 1) more.now)
        (numbers first.now)) }
    ensures rise { IfOk result (λ places. Rise places.items) }
{
    let mut places = Vec::from_slice(alloc, first)?;
    for (i, slot) in more.iter().enumerate() {
        places = with_slot(alloc, entry, property, places, i as u64 + 1, slot)?;
    }
    Ok(places)
}

// Those of the places from which, so much further on, the slot's word stands.
fn with_slot(
    alloc: Global,
    entry: &Entry,
    property: PropNo,
    places: Vec<Place>,
    further: u64,
    slot: &Slot,
) -> Result<Vec<Place>, OutOfMemory>
    requires rise { Rise places.items }
    requires further { further ≤ 2 ^ 63 }
    ensures ok { IfOk result (λ kept. numbers kept.items
        ≡ filter (λ p. spec.has_slot entry.now.words property (p + further) slot.now)
        (numbers places.items)) }
    ensures rise { IfOk result (λ kept. Rise kept.items) }
{
    match slot {
        Slot::Open => Ok(places),
        Slot::Word(word) => {
            let key = key_of(alloc, property, word)?;
            those_with(alloc, places.as_slice(), beside(entry, &key), further, 0)
        }
    }
}

fn key_of(alloc: Global, property: PropNo, word: &Text) -> Result<Key, OutOfMemory>
    ensures property { IfOk result (λ key. key.property ≡ property) }
    ensures word { IfOk result (λ key. key.word ≡ word.now) }
{
    Ok(Key {
        property,
        word: word.copy(alloc)?,
    })
}

// The places beside a key, by a look-up.
fn beside<'a>(entry: &'a Entry, key: &Key) -> &'a [Place]
    ensures places { numbers result.now
        ≡ spec.places_of entry.entry.now.words key.now.property key.now.word false }
    ensures rise { Rise result.now }
{
    // Says that keys and places ascend.
    let _words = entry.words();
    entry.places(key)
}

// The places of all words that begin with this one, word by word, and then in order.
fn prefix_places(
    alloc: Global,
    entry: &Entry,
    property: PropNo,
    word: &Text,
) -> Result<Vec<Place>, OutOfMemory>
    ensures same { IfOk result (λ places. HaveTheSame (numbers places.items)
        (spec.places_of entry.now.words property word.now true)) }
    ensures rise { IfOk result (λ places. Rise places.items) }
{
    let mut places = listed(alloc, entry.words(), property, word)?;
    places.sort()?;
    Ok(places)
}

fn listed(
    alloc: Global,
    words: &[(Key, Places)],
    property: PropNo,
    word: &Text,
) -> Result<Vec<Place>, OutOfMemory>
    ensures { IfOk result (λ places. numbers places.items
        ≡ spec.places_of words.now property word.now true) }
{
    let mut places = Vec::new(alloc);
    for found in words {
        if is_key(&found.0, property, word, true) {
            places.extend_from_slice(found.1.items())?;
        }
    }
    Ok(places)
}

fn is_key(key: &Key, property: PropNo, word: &Text, prefix: bool) -> bool
    ensures { result ≡ spec.is_key property word.now prefix key.now }
{
    if key.property.0 != property.0 {
        return false;
    }
    if prefix {
        key.word
            .as_str()
            .as_bytes()
            .starts_with(word.as_str().as_bytes())
    } else {
        key.word == *word
    }
}

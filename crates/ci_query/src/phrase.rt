ghost use Rattle.std.specs.Prelude.{◌≡◌, ◌<◌, ◌↔◌, ◌++◌, ◌∷◌, [], List, IfOk, IfSome, IsTrue, OnOk, find, length};
ghost use Rattle.std.specs.Option.{option_copied};
ghost use Rattle.ci_dialect.specs.Left.{place_in};
ghost use Rattle.ci_query.specs.Reading.{Gives};
ghost use Rattle.ci_dialect.specs.Words as spec;
ghost use Rattle.ci_query.specs.Words.{with_slot};
ghost use Rattle.ci_dialect.specs.declared.slots.Slot.{Slot as Slot'};

use crate::items::{is_prefix_run, is_starred, without_star};
use crate::{QueryFault, Restriction, Slot, Slots};
use ci_base::{OutOfMemory, PropNo, Text};
use ci_pieces::Piece;
use ci_words::NoiseList;
use std::alloc::Global;

/// What items say of a property. Their words are handed in.
pub fn restriction_of(
    alloc: Global,
    noise: &NoiseList,
    property: PropNo,
    items: &[Piece<'_>],
    words: Vec<Text>,
) -> Result<Restriction, QueryFault>
    requires { words.items ≡ spec.words_of items.now }
    ensures { Gives (spec.restriction_of noise.now property items.now) result }
{
    match first_prefix_run(items) {
        Some(run) => prefix_said(property, run, items, words),
        None => said(
            alloc,
            noise,
            property,
            place_of_first(items),
            words.as_slice(),
        ),
    }
}

fn first_prefix_run<'a, 't>(items: &'a [Piece<'t>]) -> Option<&'a Piece<'t>>
    ensures first { option_copied result ≡ find spec.is_prefix_run items.entry.now }
    ensures starred { IfSome result (λ run. IsTrue (spec.is_starred run.now.text)) }
{
    items.iter().find(|item| is_prefix_run(item))
}

fn place_of_first(items: &[Piece<'_>]) -> u64
    ensures { result ≡ place_in 0 items.now }
{
    match items {
        [] => 0,
        [first, ..] => first.at() as u64,
    }
}

// A prefix run stands alone, has one word, and ends with one star.
fn prefix_said(
    property: PropNo,
    run: &Piece<'_>,
    items: &[Piece<'_>],
    mut words: Vec<Text>,
) -> Result<Restriction, QueryFault>
    requires { IsTrue (spec.is_starred run.now.text) }
    ensures { spec.prefix_said property run.now items.now words.items ≡ result }
{
    let is_twice = is_starred(without_star(run.text()));
    if items.len() != 1 || words.len() != 1 || is_twice {
        let at = run.at() as u64;
        return Err(QueryFault::Bad { at });
    }
    Ok(Restriction::Content {
        property,
        word: words.remove(0),
        prefix: true,
    })
}

// What words say whose first item stands at the place.
fn said(
    alloc: Global,
    noise: &NoiseList,
    property: PropNo,
    at: u64,
    words: &[Text],
) -> Result<Restriction, QueryFault>
    ensures { Gives (spec.said noise.now property at words.now) result }
{
    if words.is_empty() {
        return Err(QueryFault::Bad { at });
    }
    phrase(property, at, slots_of(alloc, noise, words)?)
}

fn phrase(property: PropNo, at: u64, mut list: Vec<Slot>) -> Result<Restriction, QueryFault>
    ensures { spec.phrase property at list.items ≡ result }
{
    if list.len() > 1 {
        let slots = Slots::new(list);
        return Ok(Restriction::Phrase { property, slots });
    }
    match list.pop() {
        Some(Slot::Word(word)) => Ok(Restriction::Content {
            property,
            word,
            prefix: false,
        }),
        Some(Slot::Open) | None => Err(QueryFault::OnlyNoise { at }),
    }
}

// The places of words, without the open ones at either end.
fn slots_of(alloc: Global, noise: &NoiseList, words: &[Text]) -> Result<Vec<Slot>, OutOfMemory>
    ensures { IfOk result (λ slots. slots.items ≡ spec.slots_of noise.now words.now) }
{
    let mut slots = Vec::new(alloc);
    for word in words {
        add_slot(alloc, noise, word, &mut slots)?;
    }
    drop_open_end(&mut slots);
    Ok(slots)
}

// Adds the place of a word, unless it is an open one at the beginning.
fn add_slot(
    alloc: Global,
    noise: &NoiseList,
    word: &Text,
    slots: &mut Vec<Slot>,
) -> Result<(), OutOfMemory>
    ensures { OnOk result (slots.new.items
        ≡ with_slot slots.old.items (spec.slot_of noise.now word.now)) }
{
    if !is_noise(noise, word) {
        slots.push(Slot::Word(word.copy(alloc)?))?;
    } else if !slots.is_empty() {
        slots.push(Slot::Open)?;
    }
    Ok(())
}

fn is_noise(noise: &NoiseList, word: &Text) -> bool
    ensures { result ≡ spec.is_noise noise.now word.now }
{
    noise.holds(word)
}

fn drop_open_end(slots: &mut Vec<Slot>)
    ensures { slots.new.items ≡ spec.closed slots.old.items }
{
    while ends_open(slots) {
        slots.truncate(slots.len() - 1);
    }
}

fn ends_open(slots: &[Slot]) -> bool
    ensures some { IsTrue result → 0 < length slots.now }
    ensures open { IsTrue result
        ↔ ((front : List Slot') × (slots.now ≡ front ++ Slot.Open ∷ [])) }
{
    matches!(slots, [.., Slot::Open])
}

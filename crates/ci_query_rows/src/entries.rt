//! Words at their places, and values.

use crate::table::{Table, all_hold};
use ci_base::{PathText, Place, PropNo, Text, Value};
use ci_chunk::{Break, ChunkState, Piece, StatChunk, Transcript};
use ci_entry::{Filtering, entry_of};
use ci_keys::{Entry, Key};
use ci_words::NoiseList;
use std::alloc::Global;
use std::test::Fail;

fn chunk(break_type: Break, state: ChunkState, property: u16) -> StatChunk {
    StatChunk {
        id: 1,
        break_type,
        state,
        locale: 0,
        property: PropNo(property),
        source: 1,
        start: 0,
        length: 0,
    }
}

fn break_named(name: &str) -> Break {
    match name {
        "Eow" => Break::Eow,
        "Eos" => Break::Eos,
        "Eop" => Break::Eop,
        "Eoc" => Break::Eoc,
        _ => Break::NoBreak,
    }
}

fn held(state: ChunkState, property: u16, value: Value) -> Piece {
    Piece::Held {
        chunk: chunk(Break::Eop, state, property),
        value: Some(value),
    }
}

fn int(state: ChunkState, property: u16, number: &str) -> Result<Piece, Fail> {
    let number = number.parse::<i64>().ok().ok_or("a number")?;
    Ok(held(state, property, Value::Int(number)))
}

fn str(alloc: Global, property: u16, text: &str) -> Result<Piece, Fail> {
    let text = Text::of(alloc, text)?;
    Ok(held(ChunkState::Text, property, Value::Str(text)))
}

fn words(alloc: Global, name: &str, property: u16, text: &str) -> Result<Piece, Fail> {
    Ok(Piece::Words {
        chunk: chunk(break_named(name), ChunkState::Text, property),
        text: Text::of(alloc, text)?,
    })
}

// The piece of a sign, the number of a property, and a text. `value`, `int` and `str` are signs of
// values, the first in a chunk of values and the others in one of text; else a sign is the break that
// stands before words.
fn piece(alloc: Global, given: &str) -> Result<Piece, Fail> {
    let (sign, rest) = given.split_once(' ').ok_or("a sign")?;
    let (property, text) = rest.split_once(' ').ok_or("a property")?;
    piece_of(
        alloc,
        sign,
        property.parse::<u16>().ok().ok_or("a number")?,
        text,
    )
}

fn piece_of(alloc: Global, sign: &str, property: u16, text: &str) -> Result<Piece, Fail> {
    match sign {
        "value" => int(ChunkState::Value, property, text),
        "int" => int(ChunkState::Text, property, text),
        "str" => str(alloc, property, text),
        _ => words(alloc, sign, property, text),
    }
}

fn add_all(alloc: Global, read: &mut Transcript, given: &str) -> Result<(), Fail> {
    for part in given.split("; ") {
        add(read, piece(alloc, part)?)?;
    }
    Ok(())
}

fn add(read: &mut Transcript, piece: Piece) -> Result<(), Fail> {
    Ok(read.add(piece)?)
}

/// The transcript of some pieces.
pub(crate) fn read(alloc: Global, given: &str) -> Result<Transcript, Fail> {
    let mut read = Transcript::new(alloc);
    add_all(alloc, &mut read, given)?;
    Ok(read)
}

// The words of an entry with their places, and its values.
fn shown(alloc: Global, entry: &Entry) -> Result<String, Fail> {
    let mut told = String::new(alloc);
    show_words(&mut told, entry)?;
    show_values(&mut told, entry)?;
    Ok(told)
}

fn show_words(told: &mut String, entry: &Entry) -> Result<(), Fail> {
    for (key, places) in entry.words() {
        show_word(told, key, places.items())?;
    }
    Ok(())
}

fn show_word(told: &mut String, key: &Key, places: &[Place]) -> Result<(), Fail> {
    write!(told, "{}:{}", key.property.0, key.word.as_str())?;
    show_places(told, places)?;
    Ok(told.push('|')?)
}

fn show_places(told: &mut String, places: &[Place]) -> Result<(), Fail> {
    for place in places {
        write!(told, " {}", place.0)?;
    }
    Ok(())
}

fn show_values(told: &mut String, entry: &Entry) -> Result<(), Fail> {
    for (property, value) in entry.values() {
        show_value(told, property.0, value)?;
    }
    Ok(())
}

fn show_value(told: &mut String, property: u16, value: &Value) -> Result<(), Fail> {
    match value {
        Value::Int(number) => write!(told, "{property}={number}|")?,
        Value::Str(text) => write!(told, "{property}={}|", text.as_str())?,
    }
    Ok(())
}

fn entry_shown(alloc: Global, read: &Transcript) -> Result<String, Fail> {
    shown(alloc, &entry_read(alloc, read)?)
}

/// The entry of a transcript, under the standard noise words.
pub(crate) fn entry_read(alloc: Global, read: &Transcript) -> Result<Entry, Fail> {
    let noise = NoiseList::standard(alloc)?;
    Ok(entry_of(alloc, read, &noise)?)
}

// Rows of pieces: the entry of a transcript of them.
struct Entries;

impl Table for Entries {
    fn told(alloc: Global, given: &str) -> Result<String, Fail> {
        entry_shown(alloc, &read(alloc, given)?)
    }
}

#[test]
fn a_break_leaves_its_gap(rt: HostRuntime) -> Result<(), Fail> {
    // no break goes on with the word, and noise takes its place
    const ROWS: &str = "\
Eop 1 fire; Eow 1 fox => 1:fire 0|1:fox 1|
Eop 1 fire; Eos 1 fox => 1:fire 0|1:fox 9|
Eop 1 fire; Eop 1 fox => 1:fire 0|1:fox 129|
Eop 1 fire; Eoc 1 fox => 1:fire 0|1:fox 1025|
Eop 1 fire; NoBreak 1 fox => 1:firefox 0|
Eop 1 The fox and the fox of; Eow 1 fox => 1:fox 1 4 6|";
    all_hold::<Entries>(rt.alloc(), ROWS)
}

#[test]
fn a_run_goes_on_behind_another_property(rt: HostRuntime) -> Result<(), Fail> {
    const ROWS: &str = "\
NoBreak 1 fi; Eos 5 Red Book; NoBreak 1 re; NoBreak 1 fox runs; Eos 1 away => 1:away 10|1:firefox 0|1:runs 1|5:book 1|5:red 0|";
    all_hold::<Entries>(rt.alloc(), ROWS)
}

fn filtering(alloc: Global, given: &str) -> Result<Filtering, Fail> {
    filtering_of(alloc, read(alloc, given)?)
}

fn filtering_of(alloc: Global, read: Transcript) -> Result<Filtering, Fail> {
    let noise = NoiseList::standard(alloc)?;
    Ok(Filtering::of(alloc, read, &noise)?)
}

// Rows of pieces: how many a filtering of them keeps, and the entry of its copy.
struct Filterings;

impl Table for Filterings {
    fn told(alloc: Global, given: &str) -> Result<String, Fail> {
        filtering_shown(alloc, &filtering(alloc, given)?)
    }
}

fn filtering_shown(alloc: Global, filtering: &Filtering) -> Result<String, Fail> {
    let entry = copy_shown(alloc, filtering)?;
    let pieces = filtering.transcript.items().len();
    Ok(format!(in alloc; "{pieces} {}", entry.as_str())?)
}

fn copy_shown(alloc: Global, filtering: &Filtering) -> Result<String, Fail> {
    shown(alloc, &filtering.copy(alloc)?.entry)
}

#[test]
fn the_first_value_of_the_right_kind_is_kept(rt: HostRuntime) -> Result<(), Fail> {
    const ENTRY: &str = "\
int 5 7; str 5 red; str 5 blue; int 3 12; str 1 no; int 10 1 => 3=12|5=red|";
    const FILTERING: &str = "\
int 5 7; str 5 red; str 5 blue; int 3 12; str 1 no; int 10 1 => 6 3=12|5=red|";
    all_hold::<Entries>(rt.alloc(), ENTRY)?;
    all_hold::<Filterings>(rt.alloc(), FILTERING)
}

fn plain_entry(alloc: Global) -> Result<Entry, Fail> {
    entry_read(alloc, &plain_read(alloc)?)
}

fn plain_read(alloc: Global) -> Result<Transcript, Fail> {
    let path = PathText::read(alloc, b"/d/a.txt")?;
    Ok(Transcript::plain(alloc, &path, "a red fox, a red dog")?)
}

// The entry of a plain text, and which places a key has there.
fn plain(alloc: Global, key: &Key) -> Result<String, Fail> {
    plain_shown(alloc, &plain_entry(alloc)?, key)
}

fn plain_shown(alloc: Global, entry: &Entry, key: &Key) -> Result<String, Fail> {
    let mut told = shown(alloc, entry)?;
    show_places(&mut told, entry.places(key))?;
    Ok(told)
}

// Rows of a property and a word.
struct InPlain;

impl Table for InPlain {
    fn told(alloc: Global, given: &str) -> Result<String, Fail> {
        let (property, word) = given.split_once(' ').ok_or("a property")?;
        let property = PropNo(if property == "2" { 2 } else { 1 });
        let word = Text::of(alloc, word)?;
        plain(alloc, &Key { property, word })
    }
}

#[test]
fn a_plain_text_has_an_entry(rt: HostRuntime) -> Result<(), Fail> {
    const ROWS: &str = "\
1 red => 1:dog 5|1:fox 2|1:red 1 4|2=a.txt|3=20| 1 4
2 a.txt => 1:dog 5|1:fox 2|1:red 1 4|2=a.txt|3=20|
1 cat => 1:dog 5|1:fox 2|1:red 1 4|2=a.txt|3=20|";
    all_hold::<InPlain>(rt.alloc(), ROWS)
}

//! Small parts of one document with at most one word. A document's number is the byte of a letter, and
//! its path is that letter under the root.
ghost use Rattle.std.specs.Prelude.{◌≡◌, [], All, IfOk};
ghost use Rattle.ci_index_rows.specs.Named.{AreNamed, IsNamed};
ghost use Rattle.ci_keys.specs.Places.{IsPlaces};
ghost use Rattle.ci_part.specs.Keys.{all_keys};
ghost use Rattle.ci_part.specs.Part.{lists_of};
ghost use Rattle.ci_wordlist.specs.WordList.{AreKeys};

use ci_base::{DocNo, PathText, Place, PropNo, Seq, Text};
use ci_keys::{Entry, Key, Places};
use ci_part::{Kept, Part};
use ci_rows_format::{Row, RowState, Values};
use ci_segment::Segment;
use ci_wordlist::WordList;
use std::alloc::Global;
use std::test::Fail;

/// The parts of a text as `list a red, shadow b blue, list a`. The last tells that `a` was taken away.
pub(crate) fn parts_of(alloc: Global, text: &str) -> Result<Vec<Part>, Fail>
    ensures { IfOk result (λ parts. All (λ part. AreNamed (lists_of part)) parts.items) }
{
    let mut parts = Vec::new(alloc);
    for told in text.split(", ") {
        parts.push(part_of(alloc, told)?)?;
    }
    Ok(parts)
}

fn part_of(alloc: Global, text: &str) -> Result<Part, Fail>
    ensures { IfOk result (λ part. AreNamed (lists_of part)) }
{
    let (kind, document) = text.split_once(' ').ok_or("a part")?;
    let list = document_of(alloc, document)?;
    match kind {
        "list" => Ok(Part::List(list)),
        "shadow" => Ok(Part::Shadow(kept_of(alloc, &list)?)),
        "master" => Ok(Part::Master(kept_of(alloc, &list)?)),
        _ => Err("a kind".into()),
    }
}

fn document_of(alloc: Global, text: &str) -> Result<WordList, Fail>
    ensures { IfOk result AreNamed }
{
    let letter = text.as_bytes().first().copied().ok_or("a letter")?;
    match text.split_once(' ') {
        Some((_, word)) => list_with(alloc, letter, word),
        None => list_without(alloc, letter),
    }
}

/// A document that has the word.
pub(crate) fn list_with(alloc: Global, letter: u8, word: &str) -> Result<WordList, Fail>
    ensures { IfOk result AreNamed }
{
    let mut rows = Vec::new(alloc);
    rows.push(row_of(alloc, letter, RowState::Kept)?)?;
    let mut entries = Vec::new(alloc);
    entries.push(entry_of(alloc, word)?)?;
    Ok(WordList::from_batch(alloc, rows, entries.as_slice())?)
}

// A document that was taken away.
fn list_without(alloc: Global, letter: u8) -> Result<WordList, Fail>
    ensures { IfOk result AreNamed }
{
    let mut rows = Vec::new(alloc);
    rows.push(row_of(alloc, letter, RowState::Erased)?)?;
    Ok(WordList::from_batch(alloc, rows, &[])?)
}

fn row_of(alloc: Global, letter: u8, state: RowState) -> Result<Row, Fail>
    ensures named { IfOk result IsNamed }
    ensures bare { IfOk result (λ row. row.values ≡ []) }
    ensures state { IfOk result (λ row. row.state ≡ state) }
{
    let path = PathText::read(alloc, &[b'/', letter]).map_err(|_| "a path")?;
    Ok(Row {
        doc: DocNo(u32::from(letter)),
        path,
        seq: Seq(1),
        state,
        values: Values::new(alloc),
    })
}

fn entry_of(alloc: Global, word: &str) -> Result<Entry, Fail>
    ensures { IfOk result (λ entry. entry.values ≡ []) }
{
    if word.is_empty() || word.len() > 128 {
        return Err("a word".into());
    }
    let key = Key {
        property: PropNo(1),
        word: Text::of(alloc, word)?,
    };
    let mut words = Vec::new(alloc);
    words.push((key, one_place(alloc)?))?;
    Ok(Entry::new(words, Vec::new(alloc)))
}

fn one_place(alloc: Global) -> Result<Places, Fail>
    ensures { IfOk result IsPlaces }
{
    let mut list = Vec::new(alloc);
    list.push(Place(1))?;
    Ok(Places::new(list))
}

// The rows and the keys of a list, in a segment.
fn kept_of(alloc: Global, list: &WordList) -> Result<Kept, Fail>
    ensures { IfOk result (λ kept. kept.rows ≡ list.now.rows) }
{
    let rows = copy_rows(alloc, list.rows())?;
    let segments = segments_of(alloc, list)?;
    Ok(Kept::new(rows, segments))
}

fn copy_rows(alloc: Global, rows: &[Row]) -> Result<Vec<Row>, Fail>
    ensures { IfOk result (λ copied. copied.items ≡ rows.now) }
{
    let mut copied = Vec::new(alloc);
    for row in rows {
        copied.push(row.copy(alloc)?)?;
    }
    Ok(copied)
}

fn segments_of(alloc: Global, list: &WordList) -> Result<Vec<Segment>, Fail>
    ensures keys { IfOk result (λ segments. all_keys segments.items ≡ list.now.keys) }
    ensures order { AreKeys list.now.rows list.now.keys }
{
    let mut segments = Vec::new(alloc);
    if !list.keys().is_empty() {
        segments.push(Segment::build(alloc, list.keys())?)?;
    }
    Ok(segments)
}

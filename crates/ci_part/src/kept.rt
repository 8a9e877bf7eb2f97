ghost use Rattle.std.specs.Prelude.{◌≡◌};
ghost use Rattle.ci_part.specs.Keys.{all_keys};
ghost use Rattle.ci_wordlist.specs.WordList.{AreKeys, AreRows};

use ci_rows_format::Row;
use ci_segment::Segment;
use std::marker::Model;

/// Rows, and the keys of their documents in segments that follow one another. Contracts see the rows and
/// all of the keys, as they do of a word list.
#[derive(Drop)]
pub struct Kept {
    rows: Vec<Row>,
    segments: Vec<Segment>,
}

impl Model for Kept {
    ghost use Rattle.ci_part.specs.Keys.{all_keys};
    ghost use Rattle.ci_wordlist.specs.WordList.{WordLists, IsWordList};

    ghost Value = { WordLists };

    ghost view = { λ k. record { rows = k.rows.items; keys = all_keys k.segments.items } };

    ghost invariant = { λ k.
        IsWordList record { rows = k.rows.items; keys = all_keys k.segments.items } };
}

impl Kept {
    /// These rows and segments, without a copy.
    pub fn new(rows: Vec<Row>, segments: Vec<Segment>) -> Kept
        requires rows { AreRows rows.items }
        requires keys { AreKeys rows.items (all_keys segments.items) }
        ensures rows { result.rows ≡ rows.items }
        ensures keys { result.keys ≡ all_keys segments.items }
    {
        Kept { rows, segments }
    }

    pub fn rows(&self) -> &[Row]
        ensures rows { result.now ≡ self.now.rows }
        ensures order { AreRows self.now.rows }
    {
        self.rows.as_slice()
    }

    pub fn segments(&self) -> &[Segment]
        ensures keys { all_keys result.now ≡ self.now.keys }
        ensures order { AreKeys self.now.rows self.now.keys }
    {
        self.segments.as_slice()
    }
}

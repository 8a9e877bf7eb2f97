ghost use Rattle.std.specs.Prelude.{◌≡◌, ◌<◌, None, Some, Contains, IfSome, length, map, slice_get};
ghost use Rattle.ci_part.specs.Part.{lists_of};
ghost use Rattle.ci_wordlist.specs.WordList.{AreRows};

use crate::Kept;
use ci_base::DocNo;
use ci_rows_format::Row;
use ci_wordlist::WordList;

/// A part of an index: a word list in memory, a shadow of word lists, or the master.
#[derive(Drop)]
pub enum Part {
    List(WordList),
    Shadow(Kept),
    Master(Kept),
}

impl Part {
    /// The place of the document's row among the part's rows.
    pub fn covers(&self, doc: DocNo) -> Option<usize>
        ensures found { IfSome result (λ place.
            slice_get (map (λ row. row.doc) (lists_of self.now).rows) place ≡ Some doc) }
        ensures none { result ≡ None →
            ¬ Contains (map (λ row. row.doc) (lists_of self.now).rows) doc }
    {
        place_of(self.rows(), doc)
    }

    /// The row at a place.
    pub fn row(&self, place: usize) -> &Row
        requires { place < length (lists_of self.now).rows }
        ensures { slice_get (lists_of self.now).rows place ≡ Some result.now }
    {
        row_at(self.rows(), place)
    }

    /// The rows, in the order of their documents.
    pub fn rows(&self) -> &[Row]
        ensures rows { result.now ≡ (lists_of self.now).rows }
        ensures order { AreRows (lists_of self.now).rows }
    {
        match self {
            Part::List(list) => list.rows(),
            Part::Shadow(kept) => kept.rows(),
            Part::Master(kept) => kept.rows(),
        }
    }
}

fn row_at(rows: &[Row], place: usize) -> &Row
    requires { place < length rows.now }
    ensures { slice_get rows.now place ≡ Some result.now }
{
    &rows[place]
}

fn place_of(rows: &[Row], doc: DocNo) -> Option<usize>
    requires { AreRows rows.now }
    ensures found { IfSome result (λ place.
        slice_get (map (λ row. row.doc) rows.now) place ≡ Some doc) }
    ensures none { result ≡ None → ¬ Contains (map (λ row. row.doc) rows.now) doc }
{
    match rows.binary_search_by(|row| row.doc.0.cmp(&doc.0)) {
        Ok(place) => Some(place),
        Err(_) => None,
    }
}

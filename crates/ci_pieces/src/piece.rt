ghost use Rattle.std.specs.Prelude.{◌≡◌};

use ci_props::Relation;
use std::marker::Model;

/// What a piece of a query is.
#[derive(Clone, Copy, Debug, PartialEq, Eq)]
pub enum PieceKind {
    /// `(`
    Open,
    /// `)`
    Close,
    /// `&`, or the run `and`
    And,
    /// `|`, or the run `or`
    Or,
    /// `!`, or the run `not`
    Not,
    /// `~`, or the run `near`
    Near,
    /// Characters up to a blank or a sign.
    Run,
    /// What stands between two quotes.
    Quoted,
    /// `@` and a name
    Property,
    /// `#` and a name
    Pattern,
    /// `<`, `<=`, `>`, `>=`, `=` or `!=`, where one is due
    Relates(Relation),
    /// A run where a value is due, which may begin with `@` or `#`.
    Bare,
    /// A quote that isn't closed, or `@` or `#` without a name. No query has one.
    Broken,
}

/// A piece of a query. Contracts see its kind, its text and its place: how many bytes stand before
/// it. The text of a sign is empty; that of a name is without `@` or `#`.
#[derive(Debug, Drop)]
pub struct Piece<'a> {
    kind: PieceKind,
    text: &'a str,
    at: usize,
}

impl<'a> Model for Piece<'a> {
    ghost use Rattle.ci_pieces.specs.Cut.{Cut};

    ghost Value = { Cut };

    ghost view = { λ p. record { kind = p.kind; text = p.text.now; at = p.at } };
}

impl<'a> Piece<'a> {
    pub(crate) fn new(kind: PieceKind, text: &'a str, at: usize) -> Piece<'a>
        ensures { result ≡ record { kind = kind; text = text.entry.now; at = at } }
    {
        Piece { kind, text, at }
    }

    pub fn kind(&self) -> PieceKind
        ensures { result ≡ self.now.kind }
    {
        self.kind
    }

    pub fn text(&self) -> &'a str
        ensures { result.now ≡ self.now.text }
    {
        self.text
    }

    pub fn at(&self) -> usize
        ensures { result ≡ self.now.at }
    {
        self.at
    }
}

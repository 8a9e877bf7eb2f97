ghost use Rattle.std.specs.Prelude.{◌≡◌, Some};
ghost use Rattle.ci_dialect.specs.Step as spec;

use ci_pieces::PieceKind;

/// A sign that stands behind a rule.
#[derive(Clone, Copy, Debug)]
pub enum Sign {
    Or,
    And,
    Near,
    Close,
}

impl Sign {
    /// Whether this sign comes next.
    pub fn is(self, next: Option<PieceKind>) -> bool
        ensures { result ≡ spec.is self next }
    {
        match next {
            Some(PieceKind::Or) => matches!(self, Sign::Or),
            Some(PieceKind::And) => matches!(self, Sign::And),
            Some(PieceKind::Near) => matches!(self, Sign::Near),
            Some(PieceKind::Close) => matches!(self, Sign::Close),
            _ => false,
        }
    }
}

/// A sign that something stands behind or within. Few of them may be open at once.
#[derive(Clone, Copy, Debug)]
pub enum Opener {
    /// `(`, and a query within
    Parenthesis,
    /// `!`, and what it denies
    Not,
}

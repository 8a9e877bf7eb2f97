ghost use Rattle.std.specs.Prelude.{ℕ, List};
ghost use Rattle.ci_pieces.specs.Laid.{AreLaid};
ghost use Rattle.ci_pieces.specs.Pieces.{pieces};

/// What holds of the pieces of every text. A call does nothing: the contract is what it is for.
pub fn pieces_law()
    // Their spellings and the blanks between make up the text, each stands at its place, and each is
    // the longest that begins there.
    ensures { (text : List ℕ) → AreLaid 0 text (pieces text) }
{}

ghost use Rattle.std.specs.Prelude.{◌≡◌, ℕ, ◌≤◌, length, take, IsCharBoundary};
ghost use Rattle.ci_words.specs.Front.{front_within};

/// The longest front of a text that has whole characters and at most `most` bytes.
pub fn cut(text: &str, most: usize) -> &str
    ensures front { result.now ≡ front_within most text.now }

    // What makes it the longest: where another front may end, it ends too, or later.
    ensures begins { result.now ≡ take (length result.now) text.now }
    ensures whole { IsCharBoundary text.now (length result.now) }
    ensures within { length result.now ≤ most }
    ensures longest { (n : ℕ) → IsCharBoundary text.now n → n ≤ most → n ≤ length result.now }
{
    &text[..text.floor_char_boundary(most)]
}

ghost use Rattle.std.specs.Prelude.{◌≡◌, ◌==◌, ◌≤◌, ◌-◌, IfOk, OnErr, drop, length};
ghost use Rattle.ci_words.specs.Front.{front_within};

use ci_base::{OutOfMemory, Text};
use ci_words::cut;
use std::alloc::Global;
use std::marker::Model;

/// A text that is handed out piece by piece. Contracts see what is left of it.
#[derive(Drop)]
pub struct TextLeft {
    text: Text,
    given: usize,
}

impl Model for TextLeft {
    ghost use Rattle.std.specs.Prelude.{List, ℕ, drop, IsCharBoundary};

    ghost Value = { List ℕ };

    ghost view = { λ t. drop t.given t.text };

    ghost invariant = { λ t. IsCharBoundary t.text t.given };
}

impl TextLeft {
    /// A text of which nothing was handed out.
    pub fn new(text: Text) -> TextLeft
        ensures { result ≡ text }
    {
        // It is UTF-8, so it begins with a character.
        let _ = text.as_str();
        TextLeft { text, given: 0 }
    }

    pub fn is_empty(&self) -> bool
        ensures { result ≡ (length self.now == 0) }
    {
        self.given == self.text.as_str().len()
    }

    /// Takes the longest front that has whole characters and at most `most` bytes.
    pub fn take(&mut self, alloc: Global, most: usize) -> Result<Text, OutOfMemory>
        ensures piece { IfOk result (λ piece. piece ≡ front_within most self.old) }
        ensures within { IfOk result (λ piece. length piece ≤ most) }
        ensures left { IfOk result (λ piece. self.new ≡ drop (length piece) self.old) }
        ensures err { OnErr result (self.new ≡ self.old) }
    {
        let piece = cut(&self.text.as_str()[self.given..], most);
        let count = piece.len();
        let taken = Text::of(alloc, piece)?;
        self.given += count;
        Ok(taken)
    }
}

ghost use Rattle.std.specs.Prelude.{◌≡◌, ◌≢◌, IfOk, IfErr, OnOk, length, if◌then◌else◌};
ghost use Rattle.ci_dialect.specs.Left as left;
ghost use Rattle.ci_dialect.specs.Step as spec;
ghost use Rattle.ci_dialect.specs.Words.{words_of as read_words};

use crate::QueryFault;
use crate::items::{len_of_items, words_of};
use ci_base::Text;
use ci_dialect::Sign;
use ci_pieces::{Piece, PieceKind};
use std::alloc::Global;
use std::marker::Model;

/// The pieces of a query that are still to be read.
#[derive(Drop)]
pub struct Reader<'a, 't> {
    pieces: &'a [Piece<'t>],
    words: usize,
    size: usize,
}

impl<'a, 't> Model for Reader<'a, 't> {
    ghost use Rattle.ci_dialect.specs.Left.{Left};

    ghost Value = { Left };

    ghost view = { λ r. record { pieces = r.pieces.now; words = r.words; size = r.size } };

    ghost use Rattle.std.specs.Prelude.{◌≤◌};

    ghost invariant = { λ r. r.words ≤ 1024 };
}

impl<'a, 't> Reader<'a, 't> {
    /// Reads from the first piece of a text of this length.
    pub fn new(pieces: &'a [Piece<'t>], size: usize) -> Reader<'a, 't>
        ensures { result ≡ record { pieces = pieces.entry.now; words = 0; size = size } }
    {
        Reader {
            pieces,
            words: 0,
            size,
        }
    }

    /// What comes next.
    pub fn peek(&self) -> Option<PieceKind>
        ensures { result ≡ left.ahead self.now }
    {
        match self.pieces {
            [] => None,
            [first, ..] => Some(first.kind()),
        }
    }

    /// The place of what comes next.
    pub fn place(&self) -> u64
        ensures { result ≡ left.place self.now }
    {
        match self.pieces {
            [] => self.size as u64,
            [first, ..] => first.at() as u64,
        }
    }

    /// What comes next can't stand there.
    pub fn refuse(&self) -> QueryFault
        ensures { result ≡ QueryFault.Bad (left.place self.now) }
    {
        QueryFault::Bad { at: self.place() }
    }

    /// How many pieces are still to be read.
    pub fn left(&self) -> usize
        ensures { result ≡ length self.now.pieces }
    {
        self.pieces.len()
    }

    /// Whether the sign comes next.
    pub fn sees(&self, sign: Sign) -> bool
        ensures { result ≡ spec.sees sign self.now }
    {
        sign.is(self.peek())
    }

    /// Passes over the next piece.
    pub fn step(&mut self)
        ensures { self.new ≡ left.next self.old }
    {
        if let [_, rest @ ..] = self.pieces {
            self.pieces = rest;
        }
    }

    /// Takes the next piece.
    pub fn take(&mut self) -> Result<&'a Piece<'t>, QueryFault>
        ensures ok { IfOk result (λ piece. spec.piece self.old ≡ Ok (piece.now, self.new)) }
        ensures err { IfErr result (λ fault. spec.piece self.old ≡ Err fault) }
    {
        match self.pieces {
            [] => Err(self.refuse()),
            [first, rest @ ..] => {
                self.pieces = rest;
                Ok(first)
            }
        }
    }

    /// Takes the sign, if it comes next.
    pub fn eat(&mut self, sign: Sign) -> bool
        ensures found { result ≡ spec.sees sign self.old }
        ensures left { self.new ≡ (if result then left.next self.old else self.old) }
    {
        let found = self.sees(sign);
        if found {
            self.step();
        }
        found
    }

    pub fn expect(&mut self, sign: Sign) -> Result<(), QueryFault>
        ensures ok { OnOk result (spec.expect sign self.old ≡ Ok (tt, self.new)) }
        ensures err { IfErr result (λ fault. spec.expect sign self.old ≡ Err fault) }
    {
        if !self.eat(sign) {
            return Err(self.refuse());
        }
        Ok(())
    }

    /// Takes the items that come next, and gives their words beside them.
    pub fn items(&mut self, alloc: Global) -> Result<(&'a [Piece<'t>], Vec<Text>), QueryFault>
        ensures ok { IfOk result (λ read. spec.items self.old ≡ Ok (read.0.now, self.new)) }
        ensures words { IfOk result (λ read. read.1.items ≡ read_words read.0.now) }
        ensures err { IfErr result (λ fault. fault ≢ QueryFault.OutOfMemory →
            spec.items self.old ≡ Err fault) }
    {
        let pieces = self.pieces;
        let count = len_of_items(pieces);
        let words = words_of(alloc, &pieces[..count], self.words)?;
        self.words += words.len();
        self.pieces = &pieces[count..];
        Ok((&pieces[..count], words))
    }

    /// Takes a value.
    pub fn value(&mut self) -> Result<&'a Piece<'t>, QueryFault>
        ensures ok { IfOk result (λ given. spec.value self.old ≡ Ok (given.now, self.new)) }
        ensures err { IfErr result (λ fault. spec.value self.old ≡ Err fault) }
    {
        match self.peek() {
            Some(PieceKind::Quoted | PieceKind::Bare) => self.take(),
            _ => Err(self.refuse()),
        }
    }
}

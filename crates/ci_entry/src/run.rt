ghost use Rattle.std.specs.Prelude.{◌≡◌, ◌++◌, [], ◌∷◌, List, IfOk, OnOk, string_bytes};
ghost use Rattle.std.specs.Option.{option_map};
ghost use Rattle.ci_entry.specs.Runs.{Passage, goes_on, passage_of, property_runs, runs};

use ci_base::{OutOfMemory, PropNo};
use ci_chunk::{Break, Piece};
use std::alloc::Global;
use std::marker::Model;

/// Texts that are read as one, with the break before the first of them.
#[derive(Drop)]
pub struct Run {
    before: Break,
    text: String,
}

impl Model for Run {
    ghost use Rattle.std.specs.Prelude.{string_bytes};
    ghost use Rattle.ci_entry.specs.Runs.{Passage};

    ghost Value = { Passage };

    ghost view = { λ r. record { before = r.before; text = string_bytes r.text } };
}

impl Run {
    pub fn before(&self) -> Break
        ensures { result ≡ self.now.before }
    {
        self.before
    }

    pub fn text(&self) -> &str
        ensures { result.now ≡ self.now.text }
    {
        self.text.as_str()
    }

    fn begin(alloc: Global, before: Break, text: &str) -> Result<Run, OutOfMemory>
        ensures { IfOk result (λ run. run ≡ record { before = before; text = text.now }) }
    {
        Ok(Run {
            before,
            text: String::from_str(alloc, text)?,
        })
    }

    fn join(&mut self, text: &str) -> Result<(), OutOfMemory>
        ensures { OnOk result
            (self.new ≡ record { before = self.old.before; text = self.old.text ++ text.now }) }
    {
        self.text.push_str(text)?;
        Ok(())
    }
}

/// The runs of a property, in a whole transcript.
pub fn runs_of(alloc: Global, property: PropNo, pieces: &[Piece]) -> Result<Vec<Run>, OutOfMemory>
    ensures { IfOk result (λ list. list.items ≡ property_runs property.0 pieces.now) }
{
    let mut list = Vec::new(alloc);
    for piece in pieces {
        if let Some((before, text)) = passage(property, piece) {
            add_passage(alloc, &mut list, before, text)?;
        }
    }
    Ok(list)
}

fn passage(property: PropNo, piece: &Piece) -> Option<(Break, &str)>
    ensures { option_map (λ p. record { before = p.0; text = p.1.now }) result
        ≡ passage_of property.0 piece.entry.now }
{
    match piece {
        Piece::Words { chunk, text } if chunk.property == property => {
            Some((chunk.break_type, text.as_str()))
        }
        Piece::Words { .. } => None,
        Piece::Held { .. } => None,
    }
}

fn goes_on(before: Break) -> bool
    ensures { result ≡ goes_on before }
{
    matches!(before, Break::NoBreak)
}

// The last run goes on where nothing is between; else another run begins.
fn add_passage(
    alloc: Global,
    list: &mut Vec<Run>,
    before: Break,
    text: &str,
) -> Result<(), OutOfMemory>
    ensures { OnOk result ((all : List Passage) → list.old.items ≡ runs all →
        list.new.items ≡ runs (all ++ record { before = before; text = text.now } ∷ [])) }
{
    let count = list.len();
    if count > 0 && goes_on(before) {
        let last = &mut list[count - 1];
        last.join(text)?;
    } else {
        list.push(Run::begin(alloc, before, text)?)?;
    }
    Ok(())
}

ghost use Rattle.std.specs.Prelude.{◌≡◌, ◌++◌, [], ◌∷◌, IfOk, OnOk, OnErr};

use crate::{Status, Transcript};
use ci_base::OutOfMemory;
use std::alloc::Global;
use std::marker::Model;

/// What reading a document came to.
#[derive(Debug, Drop)]
pub enum Outcome {
    /// It was read to its end: its pieces.
    Done(Transcript),
    /// Its filter failed with this status. It may be tried again.
    Failed(Status),
    /// Its filter refused it with this status, and isn't asked again.
    Refused(Status),
}

/// The outcomes of documents, in order. Contracts see the list.
#[derive(Debug, Drop)]
pub struct Outcomes {
    outcomes: Vec<Outcome>,
}

impl Model for Outcomes {
    ghost use Rattle.std.specs.Prelude.{List};
    ghost use Rattle.ci_chunk.specs.declared.outcome.Outcome.{Outcome};

    ghost Value = { List Outcome };

    ghost view = { λ o. o.outcomes.items };
}

impl Outcome {
    /// Another outcome that equals this one.
    pub fn copy(&self, alloc: Global) -> Result<Outcome, OutOfMemory>
        ensures { IfOk result (λ o. o ≡ self.now) }
    {
        match self {
            Outcome::Done(transcript) => Ok(Outcome::Done(transcript.copy(alloc)?)),
            Outcome::Failed(status) => Ok(Outcome::Failed(*status)),
            Outcome::Refused(status) => Ok(Outcome::Refused(*status)),
        }
    }
}

impl Outcomes {
    /// No outcomes, and no memory taken.
    pub fn new(alloc: Global) -> Outcomes
        ensures { result ≡ [] }
    {
        Outcomes {
            outcomes: Vec::new(alloc),
        }
    }

    /// Appends one outcome, which is dropped at a refusal.
    pub fn add(&mut self, outcome: Outcome) -> Result<(), OutOfMemory>
        ensures ok { OnOk result (self.new ≡ self.old ++ outcome ∷ []) }
        ensures err { OnErr result (self.new ≡ self.old) }
    {
        self.outcomes.push(outcome)?;
        Ok(())
    }

    pub fn items(&self) -> &[Outcome]
        ensures { result.now ≡ self.now }
    {
        self.outcomes.as_slice()
    }

    /// Another list of the same outcomes.
    pub fn copy(&self, alloc: Global) -> Result<Outcomes, OutOfMemory>
        ensures { IfOk result (λ o. o ≡ self.now) }
    {
        let mut copied = Outcomes::new(alloc);
        for outcome in self.items() {
            copied.add(outcome.copy(alloc)?)?;
        }
        Ok(copied)
    }

    /// The outcomes as a `Vec`, without a copy.
    pub fn into_vec(self) -> Vec<Outcome>
        ensures { result.items ≡ self }
    {
        self.outcomes
    }
}

impl From<Vec<Outcome>> for Outcomes {
    ghost from_gives = { λ v o. o ≡ v.items };

    fn from(outcomes: Vec<Outcome>) -> Outcomes {
        Outcomes { outcomes }
    }
}

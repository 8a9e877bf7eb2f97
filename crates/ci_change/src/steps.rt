ghost use Rattle.std.specs.Prelude.{◌≡◌, ◌+◌, ◌++◌, [], ◌∷◌};
ghost use Rattle.ci_change.specs.Charges.{charges_with, refusals_with};
ghost use Rattle.ci_change.specs.HandedIn.{no_history, notice_of};

use crate::What;
use ci_base::{PathText, Seq};
use std::marker::Model;
use std::snapshot::Snapshot;

/// What was handed in, and in how many steps it came. Each step remembers those before it.
#[cycle(past)]
#[derive(Drop)]
pub struct Steps {
    step: Step,
}

/// Nothing so far; one thing more than before; or what was there before, as a copy has it.
#[cycle(past)]
#[derive(Drop)]
enum Step {
    Start,
    Noted(Snapshot<Steps>, Snapshot<PathText>, Seq, What),
    Served(Snapshot<Steps>, Snapshot<PathText>, Seq),
    Charged(Snapshot<Steps>, Snapshot<PathText>, Seq),
    Refused(Snapshot<Steps>, Snapshot<PathText>, Seq),
    Same(Snapshot<Steps>),
}

impl Model for Steps {
    ghost use Rattle.ci_change.specs.HandedIn.{Remembered};

    ghost Value = { Remembered };

    ghost use Rattle.ci_change.specs.Past.{handed_in};

    ghost view = { λ s. handed_in s.step };

    ghost size = { λ r. r.steps };

    ghost use Rattle.std.proofs.Common.{arith};

    ghost size_decreases = { λ a h. Prim.grind arith };
}

impl Steps {
    pub fn start() -> Steps
        ensures { result ≡ record { history = no_history; steps = 0 } }
    {
        Steps { step: Step::Start }
    }

    pub fn noted(&self, path: &PathText, seq: Seq, what: What) -> Steps
        ensures { let past = self.now.history in let notice = notice_of path.now seq what in
            result.history ≡ record past { notices = past.notices ++ notice ∷ [] } }
    {
        Steps {
            step: Step::Noted(Snapshot::of(self), Snapshot::of(path), seq, what),
        }
    }

    pub fn served(&self, path: &PathText, seq: Seq) -> Steps
        ensures { let past = self.now.history in
            result.history ≡ record past { served = past.served ++ (path.now, seq) ∷ [] } }
    {
        Steps {
            step: Step::Served(Snapshot::of(self), Snapshot::of(path), seq),
        }
    }

    pub fn charged(&self, path: &PathText, seq: Seq) -> Steps
        ensures { let past = self.now.history in
            let charges = charges_with past.notices past.charges path.now seq in
            result.history ≡ record past { charges = charges } }
    {
        Steps {
            step: Step::Charged(Snapshot::of(self), Snapshot::of(path), seq),
        }
    }

    pub fn refused(&self, path: &PathText, seq: Seq) -> Steps
        ensures { let past = self.now.history in
            let refusals = refusals_with past.notices past.refusals path.now seq in
            result.history ≡ record past { refusals = refusals } }
    {
        Steps {
            step: Step::Refused(Snapshot::of(self), Snapshot::of(path), seq),
        }
    }

    pub fn same(&self) -> Steps
        ensures { result.history ≡ self.now.history }
    {
        Steps {
            step: Step::Same(Snapshot::of(self)),
        }
    }
}

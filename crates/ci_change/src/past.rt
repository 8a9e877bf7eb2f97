ghost use Rattle.std.specs.Prelude.{◌≡◌, ◌++◌, [], ◌∷◌};
ghost use Rattle.ci_change.specs.Charges.{charges_with, refusals_with};
ghost use Rattle.ci_change.specs.HandedIn.{no_history, notice_of};

use crate::What;
use crate::steps::Steps;
use ci_base::{PathText, Seq};
use std::marker::Model;

/// What was handed in so far. It is for contracts alone: it holds no memory, and no code reads it.
#[derive(Drop)]
pub struct Past {
    steps: Steps,
}

impl Model for Past {
    ghost use Rattle.ci_change.specs.HandedIn.{History};

    ghost Value = { History };

    ghost view = { λ p. p.steps.history };
}

impl Past {
    pub fn new() -> Past
        ensures { result ≡ no_history }
    {
        Past {
            steps: Steps::start(),
        }
    }

    pub fn noted(&self, path: &PathText, seq: Seq, what: What) -> Past
        ensures { let notice = notice_of path.now seq what in
            result ≡ record self.now { notices = self.now.notices ++ notice ∷ [] } }
    {
        Past {
            steps: self.steps.noted(path, seq, what),
        }
    }

    pub fn served(&self, path: &PathText, seq: Seq) -> Past
        ensures { result ≡ record self.now { served = self.now.served ++ (path.now, seq) ∷ [] } }
    {
        Past {
            steps: self.steps.served(path, seq),
        }
    }

    pub fn charged(&self, path: &PathText, seq: Seq) -> Past
        ensures { let charges = charges_with self.now.notices self.now.charges path.now seq in
            result ≡ record self.now { charges = charges } }
    {
        Past {
            steps: self.steps.charged(path, seq),
        }
    }

    pub fn refused(&self, path: &PathText, seq: Seq) -> Past
        ensures { let refusals = refusals_with self.now.notices self.now.refusals path.now seq in
            result ≡ record self.now { refusals = refusals } }
    {
        Past {
            steps: self.steps.refused(path, seq),
        }
    }

    /// Another past that equals this one.
    pub fn copy(&self) -> Past
        ensures { result ≡ self.now }
    {
        Past {
            steps: self.steps.same(),
        }
    }
}

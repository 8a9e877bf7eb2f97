ghost use Rattle.std.specs.Prelude.{◌≡◌, None, Some};
ghost use Rattle.ci_journal.specs.declared.event.Happened.{Happened};
ghost use Rattle.ci_book.specs.Refusal.{tried_at};

use ci_base::OutOfMemory;
use ci_book::{CoreFault, Refusal, Tried, tried_with};
use ci_change::Batch;

/// Why no batch was begun, and, unless memory was wanted, what would have been told.
#[derive(Drop)]
pub struct Unbegun {
    pub fault: CoreFault,
    pub tried: Option<Tried>,
}

impl Unbegun {
    pub fn of(fault: CoreFault, batch: &Batch) -> Unbegun
        ensures fault { result.fault ≡ fault }
        ensures tried { result.tried ≡ tried_at fault (Happened.Begun batch.now) }
    {
        Unbegun {
            fault,
            tried: tried_with(fault, Tried::begun(batch)),
        }
    }

    /// The refusal is kept. Its fault is given.
    pub fn keep(self, refusal: &mut Option<Refusal>, by: u32, at: u64) -> CoreFault
        ensures fault { result ≡ self.fault }
        ensures kept { refusal.new
            ≡ Some (record { by = by; at = at; fault = self.fault; tried = self.tried }) }
    {
        let fault = self.fault;
        *refusal = Some(Refusal {
            by,
            at,
            fault,
            tried: self.tried,
        });
        fault
    }
}

impl From<OutOfMemory> for Unbegun {
    ghost use Rattle.ci_book.specs.declared.core_fault.CoreFault.TheVariants.{OutOfMemory as NoMemory};

    ghost from_gives = { λ _ u. u ≡ record { fault = NoMemory; tried = None } };

    fn from(_refused: OutOfMemory) -> Unbegun {
        Unbegun {
            fault: CoreFault::OutOfMemory,
            tried: None,
        }
    }
}

ghost use Rattle.std.specs.Prelude.{◌≡◌, Some, OnOk, IfErr};
ghost use Rattle.ci_book.specs.Refusal.{tried_at};

use crate::{CoreFault, Tried};

/// The first step that was refused: who made it, how many events stood in the journal, why, and,
/// unless memory was wanted, what it would have told.
#[derive(Drop)]
pub struct Refusal {
    pub by: u32,
    pub at: u64,
    pub fault: CoreFault,
    pub tried: Option<Tried>,
}

/// What a step made, whose refusal is kept.
pub fn keep<T>(
    refusal: &mut Option<Refusal>,
    by: u32,
    at: u64,
    tried: Tried,
    made: Result<T, CoreFault>,
) -> Result<T, CoreFault>
    ensures same { result ≡ made }
    ensures ok { OnOk made (refusal.new ≡ refusal.old) }
    ensures err { IfErr made (λ fault. refusal.new
        ≡ Some (record { by = by; at = at; fault = fault; tried = tried_at fault tried })) }
{
    match made {
        Ok(value) => Ok(value),
        Err(fault) => {
            *refusal = Some(Refusal {
                by,
                at,
                fault,
                tried: tried_with(fault, tried),
            });
            Err(fault)
        }
    }
}

pub fn tried_with(fault: CoreFault, tried: Tried) -> Option<Tried>
    ensures { result ≡ tried_at fault tried }
{
    match fault {
        CoreFault::OutOfMemory => None,
        CoreFault::TooManyDocuments => Some(tried),
        CoreFault::JournalFull { .. } => Some(tried),
        CoreFault::WriteFault => Some(tried),
        CoreFault::Ended => Some(tried),
    }
}

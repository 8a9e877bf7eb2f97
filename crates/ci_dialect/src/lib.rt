//! What queries say: the trees of restrictions, the faults of texts that are none, and the definitions
//! of both and of the documents that satisfy a restriction.
#![tactic(auto)]

mod fault;
mod restriction;
mod sign;
mod slots;

pub use fault::{QueryFault, QueryKind};
pub use restriction::Restriction;
pub use sign::{Opener, Sign};
pub use slots::{Slot, Slots};

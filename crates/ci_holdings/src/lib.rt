//! What the catalogue holds, and what each step makes of it: the documents, the change list, the
//! queries that wait or are open, and the journal.
#![tactic(auto)]

mod answering;
mod asking;
mod batches;
mod daemon;
mod holdings;
mod noting;
mod querying;
mod question;
mod reading;
mod replied;
mod serving;
mod unbegun;
mod waiting;

pub use holdings::Holdings;
pub use question::Question;
use replied::Replied;
pub use unbegun::Unbegun;
use waiting::Waiting;
pub use waiting::asked_tree;

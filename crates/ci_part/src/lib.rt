//! Parts of an index: word lists in memory, and rows with segments that were written.
#![tactic(auto)]

mod covered;
mod kept;
mod live;
mod lookup;
mod part;
mod range;
mod view;

pub use kept::Kept;
pub use part::Part;
pub use view::View;

//! The turn lock: threads share one value, one turn each, and each seat keeps what it saw.
#![tactic(auto)]

mod calls;
mod held;
mod law;
mod plays;
mod seat;
mod stands;
mod steps;
mod turn;
mod view;

pub use held::{Held, NoTurn, Worn};
pub use law::Opening;
pub use seat::Seat;
pub use stands::Stands;
pub use turn::Turn;
pub use view::View;

ghost use Rattle.std.specs.Prelude.{◌≡◌, ◌≤◌, ◌+◌, ◌^◌, true, []};
ghost use Rattle.ci_turn.specs.Views.{view_of, lives, one_if, carried_by};

use crate::law::Token;
use crate::stands::Stands;

/// A seat of a lock: what one thread knows of the value, and whether it holds it.
#[derive(Drop)]
pub struct Seat<V: Stands> {
    pub(crate) token: Token<V>,
    pub(crate) number: u32,
    // The ticket to try first: the last that the seat has seen.
    pub(crate) ticket: u64,
    ghost number_is: { number ≡ (view_of token).number },
    ghost ticket_is: { ticket ≡ (view_of token).ticket },
    ghost top: { ticket + one_if (view_of token).holds ≤ 2 ^ 62 },
    ghost queued: { (view_of token).queued ≡ (view_of token).holds },
    ghost carries: { token.me.1 ≡ carried_by (view_of token).holds },
    ghost lives: { lives (view_of token) ≡ true },
    ghost heard: { (view_of token).told ≡ [] },
    ghost settled: { (view_of token).drawn ≡ (view_of token).made },
}

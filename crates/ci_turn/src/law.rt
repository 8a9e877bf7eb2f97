use crate::stands::Stands;
use crate::view::View;
use atomic_table::{Seat, TableRule};
use std::snapshot::Snapshot;

/// How a lock began: with this value, and with this ticket.
#[derive(Drop)]
pub struct Opening<V> {
    pub value: Snapshot<V>,
    pub first: u64,
}

/// The rule of the lock.
pub struct Law;

impl<V: Stands> TableRule<Option<V>, View<V::Event, V::Fixed>, Opening<V>> for Law {
    ghost use Rattle.ci_turn.specs.Rule.{Kept};
    ghost use Rattle.ci_turn.specs.Views.{first_view};

    ghost holds = { λ key. Kept V.list V.author V.stands (V.picked key.value.value) };

    ghost first = { λ key. first_view (V.picked key.value.value) key.first };
}

/// A seat at the table below.
pub type Token<V> = Seat<Option<V>, View<<V as Stands>::Event, <V as Stands>::Fixed>>;

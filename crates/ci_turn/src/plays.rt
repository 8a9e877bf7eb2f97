//! What each step tells. These types are for the proofs alone.
use crate::stands::Stands;
use crate::view::View;
use atomic_table::{Join, Play, Split};

/// A seat number is drawn.
pub struct DrawsNumber;

impl<V: Stands> Play<Option<V>, View<V::Event, V::Fixed>> for DrawsNumber {
    ghost use Rattle.ci_turn.specs.Plays.{DrewNumber};

    ghost then = { DrewNumber };
}

/// A seat with the last number drawn.
pub struct NewSeat;

impl<E, F> Split<View<E, F>> for NewSeat {
    ghost use Rattle.ci_turn.specs.Views.{after_split, newcomer};

    ghost left = { after_split };

    ghost right = { newcomer };
}

/// One seat takes a note of what another knows, which is then spent.
pub struct Note;

impl<E, F> Join<View<E, F>> for Note {
    ghost use Rattle.ci_turn.specs.Views.{after_note, spent};

    ghost both = { after_note };

    ghost spent = { spent };
}

/// What was seen is compared with what was told.
pub struct Compares;

impl<V: Stands> Play<Option<V>, View<V::Event, V::Fixed>> for Compares {
    ghost use Rattle.ci_turn.specs.Plays.{Compared};

    ghost then = { Compared };
}

/// A ticket is drawn, or found to be another.
pub struct DrawsTicket;

impl<V: Stands> Play<Option<V>, View<V::Event, V::Fixed>> for DrawsTicket {
    ghost use Rattle.ci_turn.specs.Plays.{DrewTicket};

    ghost then = { DrewTicket };
}

/// The ticket that is served; at the seat's own the value is at hand.
pub struct Looks;

impl<V: Stands> Play<Option<V>, View<V::Event, V::Fixed>> for Looks {
    ghost use Rattle.ci_turn.specs.Plays.{Looked};

    ghost then = { Looked V.list V.author V.stands };
}

/// The value goes back, and the next ticket is served.
pub struct Passes;

impl<V: Stands> Play<Option<V>, View<V::Event, V::Fixed>> for Passes {
    ghost use Rattle.ci_turn.specs.Plays.{Passed};

    ghost then = { Passed V.list };
}

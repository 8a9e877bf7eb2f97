//! The steps of a lock, each of which moves one word or the slot.
ghost use Rattle.std.specs.Prelude.{◌≡◌, ◌+◌, ◌^◌, ◌<◌, ◌≤◌, false, true, [], ◌∷◌, IfOk, IfErr, Some, None};
ghost use mathlib.Core.List.{IsPrefix};
ghost use Rattle.ci_turn.specs.Views.{view_of, lives, longer, StandsFor, Adds, Becomes, first_view, newcomer, after_number, after_split, after_note, after_look, after_miss, after_draw, after_pass};
ghost use Rattle.ci_turn.specs.Plays.{Took, Served};

use crate::held::NoTurn;
use crate::law::{Opening, Token};
use crate::plays::{Compares, DrawsNumber, DrawsTicket, Looks, NewSeat, Note, Passes};
use crate::seat::Seat;
use crate::stands::Stands;
use crate::turn::{LAST, Turn};
use atomic_table::{Refused, Table};
use std::alloc::{AllocFailed, Global};
use std::snapshot::Snapshot;
use std::sync::Wait;

// The number of seats, the next ticket, and the ticket that is served.
const SEATS: usize = 0;

const NEXT: usize = 1;

const SERVING: usize = 2;

// The one slot, which has the value.
const SLOT: usize = 0;

// A place for the value, with the value in it.
fn one_slot<V>(alloc: Global, value: V) -> Result<Vec<Option<V>>, NoTurn<V>>
    ensures ok { IfOk result (λ v. v.items ≡ Some value ∷ []) }
    ensures err { IfErr result (λ n. n.value ≡ value) }
{
    let mut slots = Vec::new(alloc);
    match slots.push(Some(value)) {
        Ok(()) => Ok(slots),
        Err(AllocFailed { value }) => {
            slots.destroy_empty();
            match value {
                Some(value) => Err(NoTurn { value }),
                None => unreachable!(),
            }
        }
    }
}

// The value of a lock that wasn't made.
fn refused<V>(mut slots: Vec<Option<V>>) -> NoTurn<V>
    requires { (x : V) × (slots.items ≡ Some x ∷ []) }
    ensures { slots.items ≡ Some result.value ∷ [] }
{
    let Some(Some(value)) = slots.pop() else {
        unreachable!()
    };
    slots.destroy_empty();
    NoTurn { value }
}

impl<V: Stands> Turn<V> {
    pub(crate) fn opened(
        alloc: Global,
        value: V,
        first: u64,
    ) -> Result<(Turn<V>, Seat<V>), NoTurn<V>>
        requires first { first ≤ 2 ^ 62 }
        requires fixed { V.stands value (V.picked value) }
        requires empty { V.list value ≡ [] }
        ensures lock { IfOk result (λ r. r.1.token.table_id ≡ r.0.table.shared.table_id) }
        ensures first { IfOk result (λ r. r.0.first ≡ first) }
        ensures seat { IfOk result (λ r. view_of r.1.token ≡ first_view (V.picked value) first) }
        ensures err { IfErr result (λ n. n.value ≡ value) }
    {
        let opening = Opening {
            value: Snapshot::of(&value),
            first,
        };
        let slots = one_slot(alloc, value)?;
        match Table::new(alloc, &[1, first, first], slots, &opening) {
            Ok((table, token)) => {
                let turn = Turn { table, first };
                let seat = Seat {
                    token,
                    number: 0,
                    ticket: first,
                };
                Ok((turn, seat))
            }
            Err(Refused { slots }) => Err(refused(slots)),
        }
    }

    // The number of a new seat, one above the last.
    pub(crate) fn draw_number(&self, token: &mut Token<V>) -> u64
        requires lock { token.old.table_id ≡ self.now.table.shared.table_id }
        requires first { (lives (view_of token.old) ≡ true) × ((view_of token.old).number ≡ 0) }
        requires room { (view_of token.old).drawn < 4294967295 }
        ensures lock { token.new.table_id ≡ token.old.table_id }
        ensures number { result ≡ (view_of token.old).drawn + 1 }
        ensures seat { Becomes after_number token.old token.new }
    {
        self.table.shared.fetch_add::<DrawsNumber>(token, SEATS, 1)
    }

    // A seat with the number that was drawn.
    pub(crate) fn seat_drawn(&self, token: &mut Token<V>) -> Token<V>
        requires lock { token.old.table_id ≡ self.now.table.shared.table_id }
        requires first { (lives (view_of token.old) ≡ true) × ((view_of token.old).number ≡ 0) }
        requires drawn { (view_of token.old).drawn ≡ (view_of token.old).made + 1 }
        ensures lock { token.new.table_id ≡ token.old.table_id }
        ensures made_lock { result.table_id ≡ token.old.table_id }
        ensures seat { Becomes after_split token.old token.new }
        ensures made { result.me ≡ (newcomer (view_of token.old), []) }
    {
        self.table.shared.split_seat::<NewSeat>(token)
    }

    // The other seat's events are kept, and what it has seen is told.
    pub(crate) fn note(&self, token: &mut Token<V>, other: Token<V>)
        requires lock { token.old.table_id ≡ self.now.table.shared.table_id }
        requires other_lock { other.table_id ≡ self.now.table.shared.table_id }
        requires first { (lives (view_of token.old) ≡ true) × ((view_of token.old).number ≡ 0) }
        requires other { (lives (view_of other) ≡ true) × ((view_of other).holds ≡ false) }
        requires empty { other.me.1 ≡ [] }
        ensures lock { token.new.table_id ≡ token.old.table_id }
        ensures seat { Becomes (λ v. after_note v (view_of other)) token.old token.new }
    {
        self.table.shared.join_seat::<Note>(token, other);
    }

    // What was seen and what was told are fronts of one list, and the longer stays.
    pub(crate) fn compare(&self, token: &mut Token<V>)
        requires lock { token.old.table_id ≡ self.now.table.shared.table_id }
        requires free { (view_of token.old).holds ≡ false }
        ensures lock { token.new.table_id ≡ token.old.table_id }
        ensures seat { Becomes after_look token.old token.new }
        ensures seen { IsPrefix (view_of token.old).seen (view_of token.new).seen }
        ensures told { IsPrefix (view_of token.old).told (view_of token.new).seen }
    {
        self.table.shared.load::<Compares>(token, SEATS);
    }

    // Draws a ticket. Where the ticket would be the last one, none is drawn.
    pub(crate) fn draw_ticket<W: Wait>(&self, rt: &W, token: &mut Token<V>, from: u64) -> u64
        requires lock { token.old.table_id ≡ self.now.table.shared.table_id }
        requires free { ((view_of token.old).queued ≡ false) × ((view_of token.old).holds ≡ false) }
        requires from { (from ≡ (view_of token.old).ticket) × (from ≤ 2 ^ 62) }
        ensures lock { token.new.table_id ≡ token.old.table_id }
        ensures most { (from ≤ result) × (result ≤ 2 ^ 62) }
        ensures drawn { result < 2 ^ 62 → Becomes (λ v. after_draw v result) token.old token.new }
        ensures worn { result ≡ 2 ^ 62 → Becomes (λ v. after_miss v result) token.old token.new }
    {
        let mut next = from;
        for _ in rt.forever() {
            if next >= LAST {
                return next;
            }
            let found = self.next_ticket(token, next);
            if found == next {
                return found;
            }
            next = found;
        }
        unreachable!()
    }

    // Draws this ticket, where it is the next one; and else tells which one is.
    fn next_ticket(&self, token: &mut Token<V>, next: u64) -> u64
        requires lock { token.old.table_id ≡ self.now.table.shared.table_id }
        requires free { ((view_of token.old).queued ≡ false) × ((view_of token.old).holds ≡ false) }
        requires next { next < 2 ^ 62 }
        ensures lock { token.new.table_id ≡ token.old.table_id }
        ensures most { ((view_of token.old).ticket ≤ result) × (result ≤ 2 ^ 62) }
        ensures drawn { result ≡ next → Becomes (λ v. after_draw v result) token.old token.new }
        ensures missed { ¬ (result ≡ next) → Becomes (λ v. after_miss v result) token.old token.new }
    {
        self.table
            .shared
            .compare_exchange::<DrawsTicket>(token, NEXT, next, next + 1)
    }

    // Waits until the seat's ticket is served. Then the value is at hand.
    pub(crate) fn await_turn<W: Wait>(&self, rt: &W, token: &mut Token<V>, ticket: u64)
        requires lock { token.old.table_id ≡ self.now.table.shared.table_id }
        requires queued { (view_of token.old).queued ≡ true }
        requires free { (view_of token.old).holds ≡ false }
        requires ticket { ticket ≡ (view_of token.old).ticket }
        requires lives { lives (view_of token.old) ≡ true }
        requires empty { token.old.me.1 ≡ [] }
        ensures lock { token.new.table_id ≡ token.old.table_id }
        ensures took { Took V.list V.author V.stands token.old.me token.new.me }
    {
        for _ in rt.forever() {
            let served = self.look(token);
            if served == ticket {
                return;
            }
            // A sleep compares the low 32 bits, and each pass changes those.
            self.table
                .shared
                .park(rt, SERVING, (served % (1 << 32)) as u32);
        }
        unreachable!()
    }

    // The ticket that is served.
    fn look(&self, token: &mut Token<V>) -> u64
        requires lock { token.old.table_id ≡ self.now.table.shared.table_id }
        requires queued { (view_of token.old).queued ≡ true }
        requires free { (view_of token.old).holds ≡ false }
        requires lives { lives (view_of token.old) ≡ true }
        requires empty { token.old.me.1 ≡ [] }
        ensures lock { token.new.table_id ≡ token.old.table_id }
        ensures tells { Served V.list V.author V.stands result token.old.me token.new.me }
    {
        self.table.shared.load::<Looks>(token, SERVING)
    }

    // Takes the value out of the slot.
    pub(crate) fn take_out(&self, token: &mut Token<V>) -> V
        requires lock { token.old.table_id ≡ self.now.table.shared.table_id }
        requires there { (x : V) × (token.old.me.1 ≡ (0, Some x) ∷ []) }
        ensures lock { token.new.table_id ≡ token.old.table_id }
        ensures value { token.old.me.1 ≡ (0, Some result) ∷ [] }
        ensures seat { token.new.me ≡ (view_of token.old, (0, None) ∷ []) }
    {
        match self.table.shared.exchange(token, SLOT, None) {
            Some(value) => value,
            None => unreachable!(),
        }
    }

    // Puts the value into the slot, and then lets the next ticket be served.
    pub(crate) fn put_back(&self, token: &mut Token<V>, value: V, next: u64)
        requires lock { token.old.table_id ≡ self.now.table.shared.table_id }
        requires held { ((view_of token.old).holds ≡ true) × (token.old.me.1 ≡ (0, None) ∷ []) }
        requires lives { lives (view_of token.old) ≡ true }
        requires fixed { StandsFor V.stands value (view_of token.old).fixed }
        requires adds { Adds V.author (view_of token.old).number (view_of token.old).seen (V.list value) }
        requires next { next ≡ (view_of token.old).ticket + 1 }
        ensures lock { token.new.table_id ≡ token.old.table_id }
        ensures seat { token.new.me ≡ (after_pass (view_of token.old) (V.list value), []) }
    {
        let before = self.table.shared.exchange(token, SLOT, Some(value));
        let None = before else { unreachable!() };
        self.table.shared.store::<Passes>(token, SERVING, next);
        self.table.shared.wake_all(SERVING);
    }
}

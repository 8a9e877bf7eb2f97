//! The calls of a lock.
ghost use Rattle.std.specs.Prelude.{◌≡◌, ℕ, ◌-◌, ◌^◌, ◌<◌, ◌≤◌, false, true, [], length, All, IfOk, IfErr, IsOk};
ghost use mathlib.Core.List.{IsPrefix};
ghost use Rattle.ci_turn.specs.Calls.{knows, IsSeatOf, HasFixed, BeginsWithSeen, HasOwn, HasJoined, HasNoOthers, AddsOwn, HasTaken, HasTicket};
ghost use Rattle.ci_turn.specs.Views.{events_of, first_view, with_seat, new_seat, with_joined, after_miss, after_pass};

use crate::held::{Held, NoTurn, Worn};
use crate::seat::Seat;
use crate::stands::Stands;
use crate::turn::{LAST, Turn};
use ci_base::OutOfMemory;
use std::alloc::Global;
use std::sync::Wait;

impl<V: Stands> Seat<V> {
    /// The seat's number. The first seat has 0.
    pub fn number(&self) -> u32
        ensures { result ≡ (knows self.now).number }
    {
        self.number
    }
}

impl<V: Stands> Turn<V> {
    /// A lock, and its first seat. The first ticket has the number `first`.
    pub fn new(alloc: Global, value: V, first: u64) -> Result<(Turn<V>, Seat<V>), NoTurn<V>>
        requires first { first ≤ 2 ^ 62 }
        requires fixed { V.stands value (V.picked value) }
        requires empty { V.list value ≡ [] }
        ensures lock { IfOk result (λ r. IsSeatOf r.0 r.1) }
        ensures first { IfOk result (λ r. r.0.first ≡ first) }
        ensures seat { IfOk result (λ r. knows r.1 ≡ first_view (V.picked value) first) }
        ensures err { IfErr result (λ n. n.value ≡ value) }
    {
        Turn::opened(alloc, value, first)
    }

    /// Waits for the seat's turn. No clause says that the turn comes.
    pub fn take<W: Wait>(&self, rt: &W, seat: &mut Seat<V>) -> Result<Held<V>, Worn>
        requires lock { IsSeatOf self.now seat.old }
        requires free { (knows seat.old).holds ≡ false }
        ensures lock { IsSeatOf self.now seat.new }
        ensures fixed { IfOk result (λ h. HasFixed seat.old h.value) }
        ensures begins { IfOk result (λ h. BeginsWithSeen seat.old h.value) }
        ensures own { IfOk result (λ h. HasOwn seat.old h.value) }
        ensures seat { IfOk result (λ h. HasTaken seat.old seat.new h.value) }
        ensures ticket { IfOk result (λ h. HasTicket seat.old seat.new) }
        ensures worn { IfErr result (λ w. knows seat.new ≡ after_miss (knows seat.old) (2 ^ 62)) }
        ensures drawn { IfErr result (λ w. w.tickets ≡ 2 ^ 62 - self.now.first) }
    {
        let ticket = self.draw_ticket(rt, &mut seat.token, seat.ticket);
        seat.ticket = ticket;
        if ticket >= LAST {
            return Err(Worn::after(LAST - self.first));
        }
        self.await_turn(rt, &mut seat.token, ticket);
        Ok(Held {
            value: self.take_out(&mut seat.token),
        })
    }

    /// Gives the value back, with the events that the seat added.
    pub fn give_back(&self, seat: &mut Seat<V>, held: Held<V>)
        requires lock { IsSeatOf self.now seat.old }
        requires took { (knows seat.old).holds ≡ true }
        requires fixed { HasFixed seat.old held.value }
        requires adds { AddsOwn seat.old held.value }
        ensures lock { IsSeatOf self.now seat.new }
        ensures seat { knows seat.new ≡ after_pass (knows seat.old) (V.list held.value) }
    {
        let Held { value } = held;
        let next = seat.ticket + 1;
        self.put_back(&mut seat.token, value, next);
        seat.ticket = next;
    }

    /// A new seat, which knows as much as the first one.
    pub fn split(&self, seat: &mut Seat<V>) -> Result<Seat<V>, OutOfMemory>
        requires lock { IsSeatOf self.now seat.old }
        requires free { (knows seat.old).holds ≡ false }
        requires first { (knows seat.old).number ≡ 0 }
        requires room { (knows seat.old).made < 4294967295 }
        ensures lock { IsSeatOf self.now seat.new × IfOk result (λ s. IsSeatOf self.now s) }
        ensures made { IsOk result }
        ensures ok { IfOk result (λ s. knows s ≡ new_seat (knows seat.old)) }
        ensures seat { knows seat.new ≡ with_seat (knows seat.old) }
    {
        let number = self.draw_number(&mut seat.token);
        let token = self.seat_drawn(&mut seat.token);
        Ok(Seat {
            token,
            number: number as u32,
            ticket: seat.ticket,
        })
    }

    /// Ends a seat that was split off. The first one keeps its events and the longer list.
    pub fn join(&self, seat: &mut Seat<V>, other: Seat<V>)
        requires lock { IsSeatOf self.now seat.old × IsSeatOf self.now other }
        requires free { ((knows seat.old).holds ≡ false) × ((knows other).holds ≡ false) }
        requires first { (knows seat.old).number ≡ 0 }
        ensures lock { IsSeatOf self.now seat.new }
        ensures seat { knows seat.new ≡ with_joined (knows seat.old) (knows other) }
        ensures begins { IsPrefix (knows seat.old).seen (knows seat.new).seen }
        ensures other_begins { IsPrefix (knows other).seen (knows seat.new).seen }
    {
        let Seat {
            token,
            number: _,
            ticket: _,
        } = other;
        self.note(&mut seat.token, token);
        self.compare(&mut seat.token);
    }

    /// Ends the lock. The value's events are those of the seats, each one's in order.
    pub fn close(self, seat: Seat<V>) -> V
        requires lock { IsSeatOf self seat }
        requires free { (knows seat).holds ≡ false }
        requires first { (knows seat).number ≡ 0 }
        requires joined { length (knows seat).joined ≡ (knows seat).made }
        ensures fixed { HasFixed seat result }
        ensures begins { BeginsWithSeen seat result }
        ensures own { events_of V.author 0 (V.list result) ≡ (knows seat).own }
        ensures joined { HasJoined seat result }
        ensures others { HasNoOthers seat result }
    {
        let Turn { table, first: _ } = self;
        let Seat {
            token,
            number: _,
            ticket: _,
        } = seat;
        let mut closed = table.close_with(token);
        let value = closed.take(0);
        closed.free();
        match value {
            Some(value) => value,
            None => unreachable!(),
        }
    }
}

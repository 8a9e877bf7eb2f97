ghost use Rattle.std.specs.Prelude.{◌≡◌, ◌+◌, ◌*◌, [], length, true, false, IfSome};
ghost use Rattle.ci_turn.specs.Calls.{knows, IsSeatOf};
ghost use Rattle.ci_turn_rows.specs.Turns.{turns_of, entries_of, IsSame, AddsEntry};
ghost use Rattle.ci_turn_rows.specs.Seats.{AreFreeSeatsOf};

use crate::tally::{Entry, Tally};
use ci_turn::{Seat, Turn};
use std::alloc::Global;
use std::sync::Wait;
use std::thread::{Threads, join};

// One turn of a seat, and whether it added its entry.
fn take_turn<W: Wait>(rt: &W, turn: &Turn<Tally>, seat: &mut Seat<Tally>, count: u64) -> bool
    requires lock { IsSeatOf turn.now seat.old }
    requires free { (knows seat.old).holds ≡ false }
    ensures lock { IsSeatOf turn.now seat.new }
    ensures free { (knows seat.new).holds ≡ false }
    ensures same { IsSame (knows seat.old) (knows seat.new) }
    ensures own { result ≡ true → AddsEntry count (knows seat.old) (knows seat.new) }
{
    let Ok(mut held) = turn.take(rt, seat) else {
        return false;
    };
    let added = held.value.add(Entry {
        seat: seat.number(),
        count,
    });
    turn.give_back(seat, held);
    added
}

// A seat's turns, one entry each.
fn take_turns<W: Wait>(
    rt: &W,
    turn: &Turn<Tally>,
    mut seat: Seat<Tally>,
    count: u64,
) -> Option<Seat<Tally>>
    requires lock { IsSeatOf turn.now seat }
    requires free { (knows seat).holds ≡ false }
    requires own { (knows seat).own ≡ [] }
    ensures lock { IfSome result (λ s. IsSeatOf turn.now s) }
    ensures free { IfSome result (λ s. (knows s).holds ≡ false) }
    ensures same { IfSome result (λ s. IsSame (knows seat) (knows s)) }
    ensures own { IfSome result (λ s. (knows s).own ≡ turns_of (knows seat).number count) }
{
    for k in 0..count {
        if !take_turn(rt, turn, &mut seat, k) {
            return None;
        }
    }
    Some(seat)
}

/// Two threads, of which each adds its entries, one in a turn.
pub fn two_threads<R: Threads + Wait + Sync>(rt: &R, alloc: Global, count: u64) -> Option<Tally>
    ensures first { IfSome result (λ t. entries_of 0 t.entries.items ≡ turns_of 0 count) }
    ensures second { IfSome result (λ t. entries_of 1 t.entries.items ≡ turns_of 1 count) }
    ensures total { IfSome result (λ t. t.total ≡ 5 + 2 * count) }
{
    let Ok((turn, mut first)) = Turn::new(alloc, Tally::new(alloc, 5), 0) else {
        return None;
    };
    let Ok(other) = turn.split(&mut first) else {
        return None;
    };
    let lock = &turn;
    let (one, two) = join(
        rt,
        move || -> Option<Seat<Tally>>
            requires lock { IsSeatOf lock.now first }
            requires free { ((knows first).holds ≡ false) × ((knows first).own ≡ []) }
            ensures lock { IfSome result (λ s. IsSeatOf lock.entry.now s) }
            ensures free { IfSome result (λ s. (knows s).holds ≡ false) }
            ensures same { IfSome result (λ s. IsSame (knows first) (knows s)) }
            ensures own { IfSome result (λ s. (knows s).own ≡ turns_of (knows first).number count) }
        { take_turns(rt, lock, first, count) },
        move || -> Option<Seat<Tally>>
            requires lock { IsSeatOf lock.now other }
            requires free { ((knows other).holds ≡ false) × ((knows other).own ≡ []) }
            ensures lock { IfSome result (λ s. IsSeatOf lock.entry.now s) }
            ensures free { IfSome result (λ s. (knows s).holds ≡ false) }
            ensures same { IfSome result (λ s. IsSame (knows other) (knows s)) }
            ensures own { IfSome result (λ s. (knows s).own ≡ turns_of (knows other).number count) }
        { take_turns(rt, lock, other, count) },
    );
    let (Some(mut one), Some(two)) = (one, two) else {
        return None;
    };
    turn.join(&mut one, two);
    Some(turn.close(one))
}

/// The tickets begin at their end, so no turn comes. The number is that of the tickets drawn.
pub fn worn_at_once<W: Wait>(rt: &W, alloc: Global) -> Option<(u64, Tally)>
    ensures none { IfSome result (λ r. r.0 ≡ 0) }
    ensures total { IfSome result (λ r. r.1.total ≡ 5 + length r.1.entries.items) }
{
    let Ok((turn, mut first)) = Turn::new(alloc, Tally::new(alloc, 5), 1 << 62) else {
        return None;
    };
    let worn = match turn.take(rt, &mut first) {
        Ok(_) => unreachable!(),
        Err(worn) => worn,
    };
    Some((worn.drawn(), turn.close(first)))
}

/// Seats that are split off and joined in the other order; each takes one turn before it joins.
pub fn many_seats<W: Wait>(rt: &W, alloc: Global, count: u32) -> Option<Tally> {
    let Ok((turn, mut first)) = Turn::new(alloc, Tally::new(alloc, 5), 0) else {
        return None;
    };
    let seats = split_off(alloc, &turn, &mut first, count)?;
    if !join_back(rt, &turn, &mut first, seats) {
        return None;
    }
    Some(turn.close(first))
}

// So many new seats, in the order of their numbers.
fn split_off(
    alloc: Global,
    turn: &Turn<Tally>,
    first: &mut Seat<Tally>,
    count: u32,
) -> Option<Vec<Seat<Tally>>>
    requires lock { IsSeatOf turn.now first.old }
    requires free { (knows first.old).holds ≡ false }
    requires first { (knows first.old).number ≡ 0 }
    requires none { ((knows first.old).made ≡ 0) × ((knows first.old).joined ≡ []) }
    ensures lock { IsSeatOf turn.now first.new }
    ensures free { (knows first.new).holds ≡ false }
    ensures first { (knows first.new).number ≡ 0 }
    ensures made { IfSome result (λ v. (knows first.new).made ≡ length v.items) }
    ensures joined { IfSome result (λ v. (knows first.new).joined ≡ []) }
    ensures seats { IfSome result (λ v. AreFreeSeatsOf turn.now v.items) }
{
    let mut seats = Vec::new(alloc);
    for _ in 0..count {
        // Far below the number of seats that a lock may have.
        if seats.len() >= 1000 {
            return None;
        }
        let Ok(seat) = turn.split(first) else {
            return None;
        };
        if seats.push(seat).is_err() {
            return None;
        }
    }
    Some(seats)
}

// Each seat takes a turn and joins the first one, the last seat before the others.
fn join_back<W: Wait>(
    rt: &W,
    turn: &Turn<Tally>,
    first: &mut Seat<Tally>,
    mut seats: Vec<Seat<Tally>>,
) -> bool
    requires lock { IsSeatOf turn.now first.old }
    requires free { (knows first.old).holds ≡ false }
    requires first { (knows first.old).number ≡ 0 }
    requires made { (knows first.old).made ≡ length seats.items }
    requires joined { (knows first.old).joined ≡ [] }
    requires seats { AreFreeSeatsOf turn.now seats.items }
    ensures lock { IsSeatOf turn.now first.new }
    ensures free { (knows first.new).holds ≡ false }
    ensures first { (knows first.new).number ≡ 0 }
    ensures joined { result ≡ true → length (knows first.new).joined ≡ (knows first.new).made }
{
    while let Some(mut seat) = seats.pop() {
        if !take_turn(rt, turn, &mut seat, 0) {
            return false;
        }
        turn.join(first, seat);
    }
    true
}

/// A seat that is split off and joined without a turn.
pub fn idle_seat(alloc: Global) -> Option<Tally> {
    let Ok((turn, mut first)) = Turn::new(alloc, Tally::new(alloc, 5), 0) else {
        return None;
    };
    let Ok(other) = turn.split(&mut first) else {
        return None;
    };
    turn.join(&mut first, other);
    Some(turn.close(first))
}

use super::*;
use std::test::*;

// The counts of a seat's entries, in their order, are the numbers from 0 on.
fn counts_up(entries: &[Entry], seat: u32) -> bool {
    let mut next = 0u64;
    for entry in entries {
        if entry.seat == seat {
            if entry.count != next {
                return false;
            }
            next = next.saturating_add(1);
        }
    }
    next == 1000
}

#[test]
fn two_threads_add_a_thousand_entries_each(rt: HostRuntime) -> Result<(), Fail> {
    let Some(tally) = two_threads(&rt, rt.alloc(), 1000) else {
        panic!(rt; "there was no room")
    };
    let entries = tally.entries.as_slice();
    assert_eq!(rt; (entries.len(), tally.total), (2000, 2005));
    assert!(rt; counts_up(entries, 0) && counts_up(entries, 1));
    Ok(())
}

#[test]
fn the_last_ticket_is_worn(rt: HostRuntime) -> Result<(), Fail> {
    let Some((drawn, tally)) = worn_at_once(&rt, rt.alloc()) else {
        panic!(rt; "there was no room")
    };
    assert_eq!(rt; (drawn, tally.entries.len(), tally.total), (0, 0, 5));
    Ok(())
}

#[test]
fn sixteen_seats_join_in_the_other_order(rt: HostRuntime) -> Result<(), Fail> {
    let Some(tally) = many_seats(&rt, rt.alloc(), 16) else {
        panic!(rt; "there was no room")
    };
    assert_eq!(rt; (tally.entries.len(), tally.total), (16, 21));
    let mut number = 16u32;
    for entry in tally.entries.as_slice() {
        assert_eq!(rt; (entry.seat, entry.count), (number, 0));
        number = number.saturating_sub(1);
    }
    Ok(())
}

#[test]
fn a_seat_that_never_takes_leaves_the_value(rt: HostRuntime) -> Result<(), Fail> {
    let Some(tally) = idle_seat(rt.alloc()) else {
        panic!(rt; "there was no room")
    };
    assert_eq!(rt; (tally.entries.len(), tally.total), (0, 5));
    Ok(())
}

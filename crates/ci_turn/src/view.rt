use std::collections::LinkedList;

/// What a seat knows. No value of it is made.
pub struct View<E, F> {
    // The seat's fixed part; a spent seat has none.
    pub fixed: Option<F>,
    pub number: u64,
    // A front of the list, and the seat's own events in it.
    pub seen: LinkedList<E>,
    pub own: LinkedList<E>,
    // A front that another seat told of.
    pub told: LinkedList<E>,
    // The ticket that the seat drew last, or a ticket that was free when it looked.
    pub ticket: u64,
    // The ticket is drawn, and its turn isn't over.
    pub queued: bool,
    pub holds: bool,
    // Of the first seat: numbers drawn, seats made, and the events of those that have joined it.
    pub drawn: u64,
    pub made: u64,
    pub joined: LinkedList<(u64, LinkedList<E>)>,
}

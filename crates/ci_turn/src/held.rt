ghost use Rattle.std.specs.Prelude.{◌≡◌};

/// The value, in the hands of the seat whose turn it is.
#[derive(Drop)]
pub struct Held<V> {
    pub value: V,
}

/// The tickets of a lock have run out. Only `take` makes one.
#[derive(Clone, Copy, Debug, PartialEq, Eq)]
pub struct Worn {
    tickets: u64,
}

impl Worn {
    pub(crate) fn after(tickets: u64) -> Worn
        ensures { result.tickets ≡ tickets }
    {
        Worn { tickets }
    }

    /// How many tickets were drawn from the lock.
    pub fn drawn(&self) -> u64
        ensures { result ≡ self.now.tickets }
    {
        self.tickets
    }
}

/// There was no memory for a lock. The value comes back.
#[derive(Drop)]
pub struct NoTurn<V> {
    pub value: V,
}

ghost use Rattle.std.specs.Prelude.{◌≡◌, ◌+◌, ◌++◌, ◌∷◌, [], true, false};

use ci_turn::Stands;
use std::alloc::Global;

/// One turn of a seat: the seat's number, and how many turns it had before.
#[derive(Clone, Copy, Debug, PartialEq, Eq)]
pub struct Entry {
    pub seat: u32,
    pub count: u64,
}

/// Entries, and a total to which each of them adds one.
#[derive(Drop)]
pub struct Tally {
    pub entries: Vec<Entry>,
    pub total: u64,
}

// It stands for the number that the total began with, which it doesn't keep.
impl Stands for Tally {
    type Event = Entry;

    type Fixed = u64;

    ghost use Rattle.std.specs.Prelude.{◌≡◌, ◌+◌, length};

    ghost list = { λ t. t.entries.items };

    ghost author = { λ e. e.seat };

    ghost stands = { λ t f. t.total ≡ f + length t.entries.items };

    ghost picked = { λ t. t.total };
}

impl Tally {
    pub fn new(alloc: Global, total: u64) -> Tally
        ensures entries { result.entries.items ≡ [] }
        ensures total { result.total ≡ total }
    {
        Tally {
            entries: Vec::new(alloc),
            total,
        }
    }

    /// Adds an entry, and says whether there was room.
    pub fn add(&mut self, entry: Entry) -> bool
        ensures added { result ≡ true → self.new.entries.items ≡ self.old.entries.items ++ entry ∷ [] }
        ensures raised { result ≡ true → self.new.total ≡ self.old.total + 1 }
        ensures same { result ≡ false → self.new.entries.items ≡ self.old.entries.items }
        ensures same_total { result ≡ false → self.new.total ≡ self.old.total }
    {
        if self.total == u64::MAX || self.entries.push(entry).is_err() {
            return false;
        }
        self.total += 1;
        true
    }
}

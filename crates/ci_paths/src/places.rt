ghost use Rattle.std.specs.Prelude.{◌≡◌, ◌+◌, ◌-◌, ◌^◌, ◌<◌, ◌≤◌, [], ◌++◌, None, Some, length, replicate, slice_set, OnOk, OnErr};
ghost use Rattle.ci_paths.specs.Places.{least_empty, place_of};

use ci_base::OutOfMemory;
use std::alloc::Global;
use std::marker::Model;

/// For each number the place of the path that has it. Contracts see the list.
#[derive(Debug, Drop)]
pub struct Places {
    places: Vec<Option<usize>>,
    free: usize,
}

impl Model for Places {
    ghost use Rattle.std.specs.Prelude.{◌≤◌, List, ℕ, Option};
    ghost use Rattle.ci_paths.specs.Places.{least_empty};

    ghost Value = { List (Option ℕ) };

    ghost view = { λ p. p.places.items };

    // No free number stands below the one from which the next search for one begins.
    ghost invariant = { λ p. p.free ≤ least_empty p.places.items };
}

impl Places {
    pub fn new(alloc: Global) -> Places
        ensures { result ≡ [] }
    {
        Places {
            places: Vec::new(alloc),
            free: 0,
        }
    }

    pub fn place_of(&self, number: usize) -> Option<usize>
        ensures { result ≡ place_of self.now number }
    {
        match self.places.get(number) {
            Some(place) => *place,
            None => None,
        }
    }

    /// The least number without a place. The search never goes back, since no number is given up.
    pub fn least_free(&mut self) -> usize
        ensures free { result ≡ least_empty self.old }
        ensures same { self.new ≡ self.old }
    {
        self.free = first_empty(self.places.as_slice(), self.free);
        self.free
    }

    /// Makes room for the number, so that `put` needs none.
    pub fn make_room(&mut self, number: usize) -> Result<(), OutOfMemory>
        requires { number < 2 ^ 32 }
        ensures ok { let more = number + 1 - length self.old in
            OnOk result (self.new ≡ self.old ++ replicate more None) }
        ensures err { OnErr result (self.new ≡ self.old) }
    {
        let room = self.places.len().max(number + 1);
        self.places.resize(room, None)?;
        Ok(())
    }

    /// Gives the number a place.
    pub fn put(&mut self, number: usize, place: usize)
        requires { number < length self.old }
        ensures { self.new ≡ slice_set self.old number (Some place) }
    {
        self.places[number] = Some(place);
    }
}

// The first empty place, if none stands before `from`.
fn first_empty(places: &[Option<usize>], from: usize) -> usize
    requires { from ≤ least_empty places.now }
    ensures { result ≡ least_empty places.now }
{
    for at in from..places.len() {
        if places[at].is_none() {
            return at;
        }
    }
    places.len()
}

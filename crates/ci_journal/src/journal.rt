ghost use Rattle.std.specs.Prelude.{◌≡◌, ◌≢◌, ◌≤◌, ◌+◌, ◌++◌, [], ◌∷◌, IfOk, OnOk};

use crate::Event;
use ci_base::OutOfMemory;
use std::alloc::Global;
use std::marker::Model;

/// The events of a session in order. Contracts see the list, and beside it the number of events
/// that can be added without taking memory.
#[derive(Debug, Drop)]
pub struct Journal {
    events: Vec<Event>,
}

impl Model for Journal {
    ghost use Rattle.std.specs.Prelude.{◌-◌, vec_len, vec_capacity};
    ghost use Rattle.ci_journal.specs.Events.{Events};

    ghost Value = { Events };

    ghost view = { λ j. record {
      list = j.events.items;
      spare = vec_capacity j.events - vec_len j.events;
    } };
}

impl Journal {
    /// No event, and no memory taken.
    pub fn new(alloc: Global) -> Journal
        ensures { result.list ≡ [] }
    {
        Journal {
            events: Vec::new(alloc),
        }
    }

    /// Makes room for `more` events. Room that was there stays.
    pub fn reserve(&mut self, more: usize) -> Result<(), OutOfMemory>
        ensures events { self.new.list ≡ self.old.list }
        ensures spare { self.old.spare ≤ self.new.spare }
        ensures ok { OnOk result (more ≤ self.new.spare) }
    {
        self.events.reserve(more)?;
        Ok(())
    }

    /// Puts the event at the end, in the room that was made for it.
    pub fn add(&mut self, event: Event)
        requires { self.old.spare ≢ 0 }
        ensures events { self.new.list ≡ self.old.list ++ event ∷ [] }
        ensures spare { self.new.spare + 1 ≡ self.old.spare }
    {
        self.events.push_reserved(event);
    }

    pub fn events(&self) -> &[Event]
        ensures { result.now ≡ self.now.list }
    {
        self.events.as_slice()
    }

    /// Another list of the same events.
    pub fn copy(&self, alloc: Global) -> Result<Journal, OutOfMemory>
        ensures { IfOk result (λ journal. journal.list ≡ self.now.list) }
    {
        let mut events = Vec::new(alloc);
        for event in self.events.iter() {
            events.push(event.copy(alloc)?)?;
        }
        Ok(Journal { events })
    }
}

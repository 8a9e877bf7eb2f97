ghost use Rattle.std.specs.Prelude.{◌≡◌, ◌≢◌, ◌≤◌, ◌<◌, ◌+◌, ◌^◌, ◌∷◌, ℕ, [], OnOk, OnErr, IfOk, IfErr};
ghost use Rattle.ci_journal.specs.Bytes.{event_bytes, journal_bytes};
ghost use Rattle.ci_journal.specs.Printed.{lines_of, printed};
ghost use Rattle.ci_book.specs.Changes.{Puts, Enters, Writes, CutsOff, LacksRoom, IsReady};
ghost use Rattle.ci_book.specs.declared.settings.TheConstants.{JOURNAL_MOST};

use crate::CoreFault;
use ci_base::Text8;
use ci_io::{Sink, put_all};
use ci_journal::{Event, Journal};
use std::alloc::Global;
use std::marker::Model;

/// The journal under its bound, and the sink that its replies are printed to.
#[derive(Drop)]
pub struct Book<K: Sink + Drop> {
    journal: Journal,
    limit: u64,
    /// The bytes that the events count.
    used: u64,
    sink: K,
}

impl<K: Sink + Drop> Model for Book<K> {
    ghost use Rattle.ci_book.specs.Sheet.{Sheet};
    ghost use Rattle.ci_book.specs.Book.{IsBook};

    ghost Value = { Sheet };

    ghost view = { λ b. record {
      events = b.journal.list;
      spare = b.journal.spare;
      limit = b.limit;
      written = K.written b.sink;
      faults = K.faults b.sink;
    } };

    ghost invariant = { λ b. IsBook b.journal.list b.limit b.used };
}

impl<K: Sink + Drop> Book<K> {
    pub fn new(alloc: Global, sink: K, limit: u64) -> Book<K>
        requires { limit ≤ JOURNAL_MOST }
        ensures events { result.events ≡ [] }
        ensures limit { result.limit ≡ limit }
        ensures written { result.written ≡ K.written sink }
        ensures faults { result.faults ≡ K.faults sink }
    {
        Book {
            journal: Journal::new(alloc),
            limit,
            used: 0,
            sink,
        }
    }

    /// Makes sure that events of `more` bytes can be added, and room for `places` events. Ends of
    /// batches may have passed the bound before.
    pub fn prepare(&mut self, places: usize, more: u64) -> Result<(), CoreFault>
        ensures ok { OnOk result (IsReady self.old self.new places more) }
        ensures refused { IfErr result (LacksRoom self.old self.new more) }
    {
        if self.limit < self.used || self.limit - self.used < more {
            return Err(CoreFault::JournalFull {
                used: self.used,
                more,
            });
        }
        self.journal.reserve(places)?;
        Ok(())
    }

    /// Adds an event that prints nothing, in the room that was made for it.
    pub fn add(&mut self, event: Event)
        requires room { self.old.spare ≢ 0 }
        requires counted { journal_bytes self.old.events + event_bytes event.what < 2 ^ 64 }
        requires silent { lines_of event.what ≡ [] }
        ensures { Puts self.old self.new event }
    {
        self.used += event.bytes();
        self.journal.add(event);
    }

    /// Adds an event whose lines are to be printed next, and gives them. Beside it there is room for
    /// `places` events less one.
    pub fn enter(&mut self, alloc: Global, places: usize, event: Event) -> Result<Text8, CoreFault>
        requires { places ≢ 0 }
        ensures ok { OnOk result (Enters self.old self.new places event) }
        ensures lines { IfOk result (λ text. text ≡ lines_of event.what) }
        ensures refused { IfErr result (LacksRoom self.old self.new (event_bytes event.what)) }
    {
        // What the type says of the bound is known once a field is looked at.
        let _limit = &self.limit;
        let more = event.bytes();
        self.prepare(places, more)?;
        let lines = event.lines(alloc)?;
        self.used += more;
        self.journal.add(event);
        Ok(lines)
    }

    /// Prints the lines of an event.
    pub fn write(&mut self, lines: &Text8) -> Result<(), CoreFault>
        ensures ok { OnOk result (Writes self.old self.new lines.now) }
        ensures refused { OnErr result (CutsOff self.old self.new lines.now) }
        ensures fault { IfErr result (λ fault. fault ≡ CoreFault.WriteFault) }
    {
        match put_all(&mut self.sink, lines.items()) {
            Ok(()) => Ok(()),
            Err(_) => Err(CoreFault::WriteFault),
        }
    }

    pub fn journal(&self) -> &Journal
        ensures { result.now.list ≡ self.now.events }
    {
        &self.journal
    }

    /// Hands out the journal and the sink.
    pub fn close(self) -> (Journal, K)
        ensures journal { result.0.list ≡ self.events }
        ensures written { K.written result.1 ≡ self.written }
        ensures faults { K.faults result.1 ≡ self.faults }
    {
        let Book { journal, sink, .. } = self;
        (journal, sink)
    }
}

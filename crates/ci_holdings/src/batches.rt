ghost use Rattle.std.specs.Prelude.{◌≡◌, ◌<◌, ◌≤◌, [], drop, length, take, IfOk, IfErr, OnOk};
ghost use Rattle.ci_journal.specs.Bytes.{capped, event_bytes};
ghost use Rattle.ci_holdings.specs.Batches.{Begins, CanFinish, HaltsBeginning};
ghost use Rattle.ci_journal.specs.Tells.{event};
ghost use Rattle.ci_book.specs.Changes.{IsReady, LacksRoom};
ghost use Rattle.ci_holdings.specs.Refusals.{Tries};
ghost use Rattle.ci_holdings.specs.Steps.{Charges, Ends, KeepsMap};
ghost use Rattle.ci_journal.specs.Step.{MayEnd};

use crate::serving::{make_places, settle_all, verdicts_of};
use crate::{Holdings, Unbegun};
use ci_book::{Book, CoreFault};
use ci_change::Batch;
use ci_io::Sink;
use ci_journal::{Event, Happened, Outcomes, begun_bytes, done_bytes};
use std::alloc::Global;

impl<K: Sink + Drop> Holdings<K> {
    /// The first free documents are out as a batch, at most `max`. None where none is free.
    pub fn begin(&mut self, by: u32, max: usize) -> Result<Option<Batch>, Unbegun>
        requires { 1 ≤ max }
        ensures ok { IfOk result (Begins self.old self.new by max) }
        ensures refused { IfErr result
            (λ u. HaltsBeginning self.old self.new by max u.fault u.tried) }
    {
        let number = self.begun + 1;
        let batch = self.changes.take_batch(number, max)?;
        if batch.docs.items().is_empty() {
            return Ok(None);
        }
        match ready_to_begin(self.alloc, &mut self.book, self.places + 1, &batch) {
            Ok(copied) => {
                self.begun = number;
                self.places += 1;
                self.book.add(Event {
                    by,
                    what: Happened::Begun { batch: copied },
                });
                Ok(Some(batch))
            }
            Err(fault) => {
                self.changes.give_back(&batch);
                Err(Unbegun::of(fault, &batch))
            }
        }
    }

    /// The batch is out no more, and each of its documents has its outcome: its entry, an attempt that
    /// failed, or a refusal.
    pub fn finish(&mut self, by: u32, batch: &Batch, outcomes: Outcomes) -> Result<(), CoreFault>
        requires { CanFinish self.old.sheet.events by batch.now outcomes }
        ensures step { Tries self.old self.new
            (event by (Happened.BatchDone batch.now.number outcomes)) result }
    {
        self.book
            .prepare(self.places, done_bytes(outcomes.items()))?;
        let verdicts = verdicts_of(self.alloc, outcomes.items(), &self.noise)?;
        make_places(self.alloc, &mut self.documents, batch.docs.items())?;
        settle_all(
            &mut self.changes,
            &mut self.documents,
            batch.docs.items(),
            verdicts,
        );
        self.changes.give_back(batch);
        self.places -= 1;
        self.book.add(Event {
            by,
            what: Happened::BatchDone {
                number: batch.number,
                outcomes,
            },
        });
        Ok(())
    }

    /// The batch is out no more, since its daemon died within the document at a place: that one is
    /// charged. The event takes the room that was made when the batch began.
    pub fn die(&mut self, by: u32, batch: &Batch, charged: u32)
        requires may { MayEnd self.old.sheet.events by batch.now.number batch.now }
        requires place { charged < length batch.now.docs }
        ensures ends { Ends self.old self.new
            (event by (Happened.BatchDied batch.now.number charged)) }
        ensures entries { KeepsMap self.old self.new }
        ensures charges { Charges self.old self.new (take 1 (drop charged batch.now.docs)) }
    {
        let (path, seq) = &batch.docs.items()[charged as usize];
        self.changes.charge(path, *seq);
        self.changes.give_back(batch);
        self.places -= 1;
        self.book.add(Event {
            by,
            what: Happened::BatchDied {
                number: batch.number,
                charged,
            },
        });
    }

    /// The batch is out no more, and none of its documents was tried. The event takes the room that
    /// was made when the batch began.
    pub fn give_back(&mut self, by: u32, batch: &Batch)
        requires { MayEnd self.old.sheet.events by batch.now.number batch.now }
        ensures ends { Ends self.old self.new (event by (Happened.Returned batch.now.number)) }
        ensures entries { KeepsMap self.old self.new }
        ensures charges { Charges self.old self.new [] }
    {
        self.changes.give_back(batch);
        self.places -= 1;
        self.book.add(Event {
            by,
            what: Happened::Returned {
                number: batch.number,
            },
        });
    }
}

// A copy of the batch, and room for the event that tells of it beside `places` less one.
fn ready_to_begin<K: Sink + Drop>(
    alloc: Global,
    book: &mut Book<K>,
    places: usize,
    batch: &Batch,
) -> Result<Batch, CoreFault>
    ensures batch { IfOk result (λ copied. copied ≡ batch.now) }
    ensures ok { let bytes = capped (event_bytes (Happened.Begun batch.now)) in
        OnOk result (IsReady book.old book.new places bytes) }
    ensures refused { let bytes = capped (event_bytes (Happened.Begun batch.now)) in
        IfErr result (LacksRoom book.old book.new bytes) }
{
    book.prepare(places, begun_bytes(batch.docs.items()))?;
    Ok(batch.copy(alloc)?)
}

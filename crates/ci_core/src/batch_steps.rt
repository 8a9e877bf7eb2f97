ghost use Rattle.std.specs.Prelude.{◌<◌, ◌≤◌, [], drop, length, take, IfOk, IfErr, OnOk};
ghost use Rattle.ci_journal.specs.declared.event.Happened.{Happened};
ghost use Rattle.ci_holdings.specs.Batches.{Begins, CanFinish, RefusesBeginning};
ghost use Rattle.ci_journal.specs.Tells.{event};
ghost use Rattle.ci_core.specs.Fixed.{KeepsFixed};
ghost use Rattle.ci_holdings.specs.Refusals.{IsStep};
ghost use Rattle.ci_holdings.specs.Steps.{Charges, Ends, IsUnrefused, KeepsMap};
ghost use Rattle.ci_journal.specs.Step.{MayEnd};

use crate::Catalog;
use ci_book::{CoreFault, Tried, keep};
use ci_change::Batch;
use ci_io::Sink;
use ci_journal::Outcomes;

impl<K: Sink + Drop> Catalog<K> {
    /// The first free documents are out as a batch, at most `max`, in the order in which they were
    /// noted. None where none is free.
    pub fn begin_batch(&mut self, by: u32, max: usize) -> Result<Option<Batch>, CoreFault>
        requires { 1 ≤ max }
        ensures ok { IfOk result (Begins self.old self.new by max) }
        ensures unrefused { OnOk result (IsUnrefused self.old self.new) }
        ensures refused { IfErr result (RefusesBeginning self.old self.new by max) }
        ensures fixed { KeepsFixed self.old self.new }
    {
        let at = self.place()?;
        match self.holdings.begin(by, max) {
            Ok(batch) => Ok(batch),
            Err(unbegun) => Err(unbegun.keep(&mut self.refusal, by, at)),
        }
    }

    /// The batch is out no more, and each of its documents has its outcome. One that was read to its
    /// end gets the entry of its transcript, unless it was served under a later number. One that
    /// failed spent an attempt, and one that its filter refused isn't tried again: both keep the
    /// entry that they have.
    pub fn finish_batch(
        &mut self,
        by: u32,
        batch: &Batch,
        outcomes: Outcomes,
    ) -> Result<(), CoreFault>
        requires { CanFinish self.old.sheet.events by batch.now outcomes }
        ensures step { IsStep self.old self.new
            (event by (Happened.BatchDone batch.now.number outcomes)) result }
        ensures fixed { KeepsFixed self.old self.new }
    {
        let at = self.place()?;
        let tried = Tried::batch_done(batch.number, &outcomes);
        let made = self.holdings.finish(by, batch, outcomes);
        keep(&mut self.refusal, by, at, tried, made)
    }

    /// The batch is out no more, since its daemon died within the document at the place `charged`,
    /// from 0: an attempt was spent on that one alone. No document's entry changes. That takes no
    /// memory and is never refused, also where a step was refused before.
    pub fn batch_died(&mut self, by: u32, batch: &Batch, charged: u32)
        requires may { MayEnd self.old.sheet.events by batch.now.number batch.now }
        requires place { charged < length batch.now.docs }
        ensures ends { Ends self.old self.new
            (event by (Happened.BatchDied batch.now.number charged)) }
        ensures entries { KeepsMap self.old self.new }
        ensures charges { Charges self.old self.new (take 1 (drop charged batch.now.docs)) }
        ensures fixed { KeepsFixed self.old self.new }
    {
        self.holdings.die(by, batch, charged);
    }

    /// The batch is out no more, and none of its documents was tried. That takes no memory and is
    /// never refused, also where a step was refused before.
    pub fn return_batch(&mut self, by: u32, batch: &Batch)
        requires { MayEnd self.old.sheet.events by batch.now.number batch.now }
        ensures ends { Ends self.old self.new (event by (Happened.Returned batch.now.number)) }
        ensures entries { KeepsMap self.old self.new }
        ensures charges { Charges self.old self.new [] }
        ensures fixed { KeepsFixed self.old self.new }
    {
        self.holdings.give_back(by, batch);
    }
}

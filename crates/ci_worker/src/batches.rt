ghost use Rattle.std.specs.Prelude.{◌≡◌, ◌<◌, ◌≤◌, ◌^◌, [], true, None, IfErr, IfOk, OnErr, OnOk, length};
ghost use Rattle.ci_journal.specs.Daemon.{holds_link};
ghost use Rattle.ci_journal.specs.Pending.{deletions};
ghost use Rattle.ci_link.specs.declared.outcome.Talk.TheVariants.{Finished, Died as DiedAt};
ghost use Rattle.ci_worker.specs.Filtering.{GoesIdle, HasBegun, HasLessRoom, IsOut, StopsFiltering};
ghost use Rattle.ci_worker.specs.Stops.{IsSound};
ghost use Rattle.ci_worker.specs.Way.{IsWanted};
ghost use Rattle.ci_worker.specs.Working.{Holds, KeepsBegun, KeepsOn, RanOut, Talked, Working, is_held};

use crate::Worker;
use ci_base::OutOfMemory;
use ci_change::Batch;
use ci_chunk::Outcomes;
use ci_core::{Catalog, CoreFault};
use ci_io::Sink;
use ci_link::{Spawner, Talk};
use std::alloc::Global;

/// How many documents a batch has, at most.
const BATCH_DOCS: usize = 16;

impl<P: Spawner + Drop> Worker<P> {
    // Begins a batch, and has its documents read over the link that is held.
    pub(crate) fn filter_batch<K: Sink + Drop>(
        &mut self,
        alloc: Global,
        catalog: &mut Catalog<K>,
        by: u32,
    ) -> Result<(), CoreFault>
        requires sound { IsSound catalog.old }
        requires wanted { IsWanted catalog.old.terms catalog.old.sheet.events }
        requires linked { holds_link catalog.old.sheet.events by ≡ true }
        requires holds { Holds self.old catalog.old.sheet.events by }
        ensures ok { OnOk result (GoesIdle by catalog.old catalog.new) }
        ensures less { OnOk result (HasLessRoom catalog.old catalog.new) }
        ensures holds { OnOk result (Holds self.new catalog.new.sheet.events by) }
        ensures err { IfErr result (StopsFiltering by catalog.old catalog.new) }
        ensures keeps { KeepsOn self.old catalog.old.sheet.events self.new catalog.new.sheet.events }
    {
        let batch = begin_batch(catalog, by)?;
        match self.talk(alloc, &batch) {
            Ok(Talk::Finished(outcomes)) => self.finish(catalog, by, &batch, outcomes),
            Ok(Talk::Died { charged }) => {
                self.bury(catalog, by, &batch, charged);
                Ok(())
            }
            Err(OutOfMemory) => {
                self.give_back(catalog, by, &batch);
                Err(CoreFault::OutOfMemory)
            }
        }
    }

    // Has the documents of a batch read.
    fn talk(&mut self, alloc: Global, batch: &Batch) -> Result<Talk, OutOfMemory>
        requires held { is_held self.old.held ≡ true }
        requires some { 0 < length batch.now.docs }
        requires few { length batch.now.docs < 2 ^ 32 }
        ensures ok { IfOk result (Talked self.old self.new batch.now.docs) }
        ensures err { OnErr result (RanOut self.old self.new batch.now.docs) }
    {
        match &mut self.held {
            Some(daemon) => daemon.talk(alloc, batch),
            None => unreachable!(),
        }
    }

    // Each document has its outcome.
    fn finish<K: Sink + Drop>(
        &mut self,
        catalog: &mut Catalog<K>,
        by: u32,
        batch: &Batch,
        outcomes: Outcomes,
    ) -> Result<(), CoreFault>
        requires sound { IsSound catalog.old }
        requires out { IsOut by catalog.old batch.now }
        requires erased { deletions catalog.old.terms catalog.old.sheet.events ≡ [] }
        requires each { length outcomes ≡ length batch.now.docs }
        requires holds { Holds self.old catalog.old.sheet.events by }
        ensures ok { OnOk result (GoesIdle by catalog.old catalog.new) }
        ensures holds { OnOk result (Holds self.new catalog.new.sheet.events by) }
        ensures err { IfErr result (StopsFiltering by catalog.old catalog.new) }
        ensures keeps { (before : Working) → Talked before self.old batch.now.docs (Finished outcomes)
            → KeepsOn before catalog.old.sheet.events self.new catalog.new.sheet.events }
    {
        match catalog.finish_batch(by, batch, outcomes) {
            Ok(()) => Ok(()),
            Err(fault) => {
                self.stop();
                Err(fault)
            }
        }
    }

    // The daemon died within the document at the place `charged`.
    fn bury<K: Sink + Drop>(
        &mut self,
        catalog: &mut Catalog<K>,
        by: u32,
        batch: &Batch,
        charged: u32,
    )
        requires sound { IsSound catalog.old }
        requires out { IsOut by catalog.old batch.now }
        requires erased { deletions catalog.old.terms catalog.old.sheet.events ≡ [] }
        requires place { charged < length batch.now.docs }
        requires holds { Holds self.old catalog.old.sheet.events by }
        ensures back { GoesIdle by catalog.old catalog.new }
        ensures holds { Holds self.new catalog.new.sheet.events by }
        ensures keeps { (before : Working) → Talked before self.old batch.now.docs (DiedAt charged)
            → KeepsOn before catalog.old.sheet.events self.new catalog.new.sheet.events }
    {
        self.stop();
        catalog.batch_died(by, batch, charged);
    }

    // There was no memory for the talk, so the batch is given back, and the link with it.
    fn give_back<K: Sink + Drop>(&mut self, catalog: &mut Catalog<K>, by: u32, batch: &Batch)
        requires sound { IsSound catalog.old }
        requires out { IsOut by catalog.old batch.now }
        ensures stops { StopsFiltering by catalog.old catalog.new CoreFault.OutOfMemory }
        ensures keeps { (before : Working) → RanOut before self.old batch.now.docs
            → KeepsOn before catalog.old.sheet.events self.new catalog.new.sheet.events }
    {
        self.stop();
        catalog.return_batch(by, batch);
    }
}

// Takes the next batch out.
fn begin_batch<K: Sink + Drop>(catalog: &mut Catalog<K>, by: u32) -> Result<Batch, CoreFault>
    requires sound { IsSound catalog.old }
    requires wanted { IsWanted catalog.old.terms catalog.old.sheet.events }
    requires linked { holds_link catalog.old.sheet.events by ≡ true }
    ensures ok { IfOk result (HasBegun by catalog.old catalog.new) }
    ensures err { IfErr result (StopsFiltering by catalog.old catalog.new) }
    ensures keeps { KeepsBegun catalog.old.sheet.events catalog.new.sheet.events }
{
    match catalog.begin_batch(by, BATCH_DOCS)? {
        Some(batch) => Ok(batch),
        // Something is free.
        None => unreachable!(),
    }
}

ghost use Rattle.std.specs.Prelude.{◌≡◌, ◌≢◌, true, false, Some, None, IfErr, IfOk, IfSome, IsSome};
ghost use Rattle.ci_link.specs.Records.{IsFresh, IsTold};
ghost use Rattle.ci_worker.specs.Filtering.{Starts, StopsFiltering};
ghost use Rattle.ci_worker.specs.Stops.{IsSound};
ghost use Rattle.ci_worker.specs.Way.{IsWanted, MayStart};
ghost use Rattle.ci_worker.specs.Working.{Holds, KeepsOn, KeepsRisen, records_behind};

use crate::Worker;
use ci_core::{Catalog, CoreFault};
use ci_io::Sink;
use ci_link::{Daemon, SpawnFault, Spawner};
use std::alloc::Global;

impl<P: Spawner + Drop> Worker<P> {
    // Sees that a link is held, where something is free. False: no daemon can be had.
    pub(crate) fn make_ready<K: Sink + Drop>(
        &mut self,
        alloc: Global,
        catalog: &mut Catalog<K>,
        by: u32,
        program: &str,
    ) -> Result<bool, CoreFault>
        requires sound { IsSound catalog.old }
        requires wanted { IsWanted catalog.old.terms catalog.old.sheet.events }
        requires holds { Holds self.old catalog.old.sheet.events by }
        ensures ok { IfOk result (Starts by catalog.old catalog.new) }
        ensures holds { IfOk result (λ _. Holds self.new catalog.new.sheet.events by) }
        ensures err { IfErr result (StopsFiltering by catalog.old catalog.new) }
        ensures keeps { KeepsOn self.old catalog.old.sheet.events self.new catalog.new.sheet.events }
    {
        if self.held.is_some() {
            return Ok(true);
        }
        if self.lost {
            return Ok(false);
        }
        match self.spawner.start(alloc, program) {
            Ok(link) => self.hold(alloc, catalog, by, link),
            Err(SpawnFault::Failed) => self.fail(catalog, by),
            Err(SpawnFault::OutOfMemory) => Err(CoreFault::OutOfMemory),
        }
    }

    // Holds the link of a daemon that was just started.
    fn hold<K: Sink + Drop>(
        &mut self,
        alloc: Global,
        catalog: &mut Catalog<K>,
        by: u32,
        link: P::Link,
    ) -> Result<bool, CoreFault>
        requires sound { IsSound catalog.old }
        requires may { MayStart catalog.old.terms catalog.old.sheet.events by }
        requires none { self.old.held ≡ None }
        requires holds { Holds self.old catalog.old.sheet.events by }
        requires fresh { IsFresh (P.Link.sent link) (P.Link.given link) (P.Link.faults link) }
        requires told { IsSome self.old.records →
            IsTold (P.Link.sent link) (P.Link.given link) (P.Link.more link) }
        ensures ok { IfOk result (Starts by catalog.old catalog.new) }
        ensures holds { IfOk result (λ _. Holds self.new catalog.new.sheet.events by) }
        ensures err { IfErr result (StopsFiltering by catalog.old catalog.new) }
        ensures keeps { KeepsOn self.old catalog.old.sheet.events self.new catalog.new.sheet.events }
    {
        match Daemon::new(alloc, link) {
            Ok(daemon) => self.held = Some(daemon),
            Err(refused) => {
                self.spawner.stop(refused.link);
                return Err(CoreFault::OutOfMemory);
            }
        }
        catalog.started(by)?;
        Ok(true)
    }

    // A daemon could not be started, which the spawner counted.
    fn fail<K: Sink + Drop>(&mut self, catalog: &mut Catalog<K>, by: u32) -> Result<bool, CoreFault>
        requires sound { IsSound catalog.old }
        requires may { MayStart catalog.old.terms catalog.old.sheet.events by }
        requires holds { Holds self.old catalog.old.sheet.events by }
        ensures ok { IfOk result (Starts by catalog.old catalog.new) }
        ensures holds { IfOk result (λ _. Holds self.new catalog.new.sheet.events by) }
        ensures err { IfErr result (StopsFiltering by catalog.old catalog.new) }
        ensures keeps { KeepsRisen self.old catalog.old.sheet.events self.new catalog.new.sheet.events }
    {
        self.lost = catalog.start_failed(by)?;
        Ok(false)
    }

    // Gives the link back that is held.
    pub(crate) fn stop(&mut self)
        ensures records { self.new.records ≡ records_behind self.old.records self.old.held }
        ensures tells_on { IsSome self.old.records → IsSome self.new.records }
        ensures faults { self.new.faults ≡ self.old.faults }
        ensures held { self.new.held ≡ None }
        ensures lost { self.new.lost ≡ self.old.lost }
    {
        if let Some(daemon) = self.held.take() {
            self.spawner.stop(daemon.into_link());
        }
    }
}

ghost use Rattle.std.specs.Prelude.{◌≡◌, false, List, Option, None, IfErr, IfOk};
ghost use Rattle.ci_worker.specs.Filtering.{Filters, StopsFiltering};
ghost use Rattle.ci_worker.specs.Links.{FitTold};
ghost use Rattle.ci_worker.specs.Stops.{IsSound};
ghost use Rattle.ci_worker.specs.Talks.{BatchTalk};
ghost use Rattle.ci_worker.specs.Way.{IsIdle};
ghost use Rattle.ci_worker.specs.Working.{Holds, KeepsOn};
ghost use Rattle.ci_link.specs.declared.record.LinkRecord.{LinkRecord};

use crate::erase_deletions;
use ci_core::{Catalog, CoreFault};
use ci_io::Sink;
use ci_link::{Daemon, Spawner};
use std::alloc::Global;
use std::marker::Model;

/// What starts daemons, and the daemon that is held from batch to batch.
#[derive(Drop)]
pub struct Worker<P: Spawner + Drop> {
    pub(crate) spawner: P,
    pub(crate) held: Option<Daemon<P::Link>>,
    pub(crate) lost: bool,
}

impl<P: Spawner + Drop> Model for Worker<P> {
    ghost use Rattle.ci_worker.specs.Working.{Working};

    ghost Value = { Working };

    ghost view = { λ w. record {
      records = P.records w.spawner;
      faults = P.faults w.spawner;
      held = w.held;
      lost = w.lost;
    } };
}

impl<P: Spawner + Drop> Worker<P> {
    /// A worker that holds no link.
    pub fn new(spawner: P) -> Worker<P>
        ensures { result ≡ record {
          records = P.records spawner;
          faults = P.faults spawner;
          held = None;
          lost = false;
        } }
    {
        Worker {
            spawner,
            held: None,
            lost: false,
        }
    }

    /// Filters what is free, in batches, behind the deletions, which are erased. False: a daemon
    /// can't be had.
    pub fn filter<K: Sink + Drop>(
        &mut self,
        alloc: Global,
        catalog: &mut Catalog<K>,
        by: u32,
        program: &str,
    ) -> Result<bool, CoreFault>
        requires sound { IsSound catalog.old }
        requires idle { IsIdle catalog.old.sheet.events }
        requires holds { Holds self.old catalog.old.sheet.events by }
        ensures ok { IfOk result (Filters by catalog.old catalog.new) }
        ensures holds { IfOk result (λ _. Holds self.new catalog.new.sheet.events by) }
        ensures err { IfErr result (StopsFiltering by catalog.old catalog.new) }
        ensures keeps { KeepsOn self.old catalog.old.sheet.events self.new catalog.new.sheet.events }
    {
        erase_deletions(catalog, by)?;
        while catalog.free() != 0 {
            if !self.make_ready(alloc, catalog, by, program)? {
                return Ok(false);
            }
            self.filter_batch(alloc, catalog, by)?;
        }
        Ok(true)
    }

    /// Gives the link back that is held, and hands out the spawner.
    pub fn close(self) -> P
        ensures told { (first : Option (List LinkRecord)) (talks : List BatchTalk)
            → FitTold first self.records self.held talks
            → FitTold first (P.records result) None talks }
        ensures faults { P.faults result ≡ self.faults }
    {
        let mut worker = self;
        worker.stop();
        worker.spawner
    }
}

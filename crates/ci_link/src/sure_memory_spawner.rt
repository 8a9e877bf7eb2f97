ghost use Rattle.std.specs.Prelude.{◌≡◌, ◌≢◌, ◌<◌, ◌++◌, ◌∷◌, [], Some, IfOk, IsErr, IsErrOf, IsSome, OnErr, nat_lt, length};
ghost use Rattle.std.specs.List.{AllByRecursion};
ghost use Rattle.ci_link.specs.Memory.{IsSureUnused, entry_of, or_ended};
ghost use Rattle.ci_link.specs.Records.{IsFresh, IsTold, record_of, with_record};

use crate::{Records, SpawnFault, Spawner, SureMemoryLink};
use ci_base::{OutOfMemory, Text8};
use std::alloc::Global;
use std::marker::Model;

/// The room of a link that has ended, for the calls that are still sent to it.
const ENDED_ROOM: usize = 2048;

/// A spawner in memory, whose starts give these links in order, and then links that have ended. No
/// start fails. It tells the records of the links given back. Contracts see a `SureSpawnerState`.
#[derive(Debug, Drop)]
pub struct SureMemorySpawner {
    links: Vec<SureMemoryLink>,
    records: Records,
}

impl Model for SureMemorySpawner {
    ghost use Rattle.std.specs.List.{AllByRecursion};
    ghost use Rattle.ci_link.specs.Memory.{IsSureUnused, SureSpawnerState};

    ghost Value = { SureSpawnerState };

    ghost view = { λ s. record { links = s.links.items; records = s.records } };

    ghost invariant = { λ s. AllByRecursion IsSureUnused s.links.items };
}

impl SureMemorySpawner {
    /// A spawner of these links.
    pub fn new(_alloc: Global, links: Vec<SureMemoryLink>) -> SureMemorySpawner
        requires { AllByRecursion IsSureUnused links.items }
        ensures { result ≡ record { links = links.items; records = [] } }
    {
        SureMemorySpawner {
            links,
            records: Records::new(),
        }
    }

    /// Another spawner, with links of its own, which contracts see as equal to this one.
    pub fn copy(&self, alloc: Global) -> Result<SureMemorySpawner, OutOfMemory>
        ensures { IfOk result (λ s. s ≡ self.now) }
    {
        Ok(SureMemorySpawner {
            links: copy_links(alloc, self.links.as_slice())?,
            records: self.records.copy(alloc)?,
        })
    }

    /// The records of the links given back, in order.
    pub fn records(&self) -> &Records
        ensures { result.now ≡ self.now.records }
    {
        &self.records
    }
}

impl Spawner for SureMemorySpawner {
    type Link = SureMemoryLink;

    ghost records = { λ s. Some s.records };

    ghost faults = { λ _. 0 };

    fn start(&mut self, alloc: Global, _program: &str) -> Result<SureMemoryLink, SpawnFault>
        ensures fresh { IfOk result (λ link.
            IsFresh (Some link.sent) (Some link.given) link.faults) }
        ensures told { IsSome (Some self.old.records) → IfOk result (λ link.
            IsTold (Some link.sent) (Some link.given) (Some (nat_lt 0 (length link.left)))) }
        ensures records { Some self.new.records ≡ Some self.old.records }
        ensures sure { IsErrOf result SpawnFault.Failed → ⊥ }

        // Memory is taken only for a link that has ended.
        ensures memory { IsErr result → self.old.links ≡ [] }
        ensures gives { IfOk result (λ link. link ∷ self.new.links ≡ or_ended self.old.links) }
        ensures err { OnErr result (self.new ≡ self.old) }
    {
        if self.links.is_empty() {
            return match SureMemoryLink::new(alloc, Text8::new(alloc), ENDED_ROOM) {
                Ok(link) => Ok(link),
                Err(_) => Err(SpawnFault::OutOfMemory),
            };
        }
        Ok(take_first(&mut self.links))
    }

    fn stop(&mut self, link: SureMemoryLink)
        ensures records { Some self.new.records ≡ with_record (Some self.old.records)
            (record_of (Some link.sent) (Some link.given) (Some (nat_lt 0 (length link.left)))
            link.faults) }
        ensures tells_on { IsSome (Some self.old.records) → IsSome (Some self.new.records) }

        // Nothing else changes.
        ensures now { let entry = entry_of link.sent link.given link.left link.faults in
            self.new ≡ record self.old { records = self.old.records ++ entry ∷ [] } }
    {
        let (record, memory) = link.into_record();
        self.records.add(memory, record);
    }
}

fn take_first(links: &mut Vec<SureMemoryLink>) -> SureMemoryLink
    requires some { links.old.items ≢ [] }
    requires unused { AllByRecursion IsSureUnused links.old.items }
    ensures first { links.old.items ≡ result ∷ links.new.items }
    ensures was_unused { IsSureUnused result }
    ensures still { AllByRecursion IsSureUnused links.new.items }
{
    links.remove(0)
}

fn copy_links(alloc: Global, links: &[SureMemoryLink]) -> Result<Vec<SureMemoryLink>, OutOfMemory>
    ensures { IfOk result (λ copied. copied.items ≡ links.now) }
{
    let mut copied = Vec::new(alloc);
    for link in links {
        copied.push(link.copy(alloc)?)?;
    }
    Ok(copied)
}

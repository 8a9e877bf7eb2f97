ghost use Rattle.std.specs.Prelude.{◌≡◌, ◌≢◌, ◌⊎◌, ◌↔◌, ◌<◌, ◌≤◌, ◌++◌, ◌∷◌, [], Contains, Some, IfOk, IsErr, IsErrOf, IsSome, OnErr, OnOk, nat_lt, length};
ghost use Rattle.std.specs.List.{AllByRecursion};
ghost use Rattle.ci_io.specs.Causes.{Rose, one_more};
ghost use Rattle.ci_link.specs.Memory.{IsUnused, entry_of};
ghost use Rattle.ci_link.specs.Records.{IsFresh, IsTold, record_of, with_record};

use crate::{MemoryLink, Records, SpawnFault, Spawner};
use ci_base::OutOfMemory;
use std::alloc::Global;
use std::marker::Model;

/// A spawner in memory, whose starts give these links in order, with a list of the starts that are
/// to fail. It tells the records of the links given back. Contracts see a `SpawnerState`.
#[derive(Debug, Drop)]
pub struct MemorySpawner {
    links: Vec<MemoryLink>,
    fails: Vec<u64>,
    calls: u64,
    faults: u64,
    records: Records,
}

impl Model for MemorySpawner {
    ghost use Rattle.std.specs.List.{AllByRecursion};
    ghost use Rattle.ci_link.specs.Memory.{IsUnused, SpawnerState};

    ghost Value = { SpawnerState };

    ghost view = { λ s. record {
      links = s.links.items;
      fails = s.fails.items;
      calls = s.calls;
      faults = s.faults;
      records = s.records;
    } };

    ghost invariant = { λ s. AllByRecursion IsUnused s.links.items };
}

impl MemorySpawner {
    /// A spawner of these links. Starts whose numbers, counted from 0, stand in `fails` are to fail.
    pub fn new(_alloc: Global, links: Vec<MemoryLink>, fails: Vec<u64>) -> MemorySpawner
        requires { AllByRecursion IsUnused links.items }
        ensures { result ≡ record {
          links = links.items;
          fails = fails.items;
          calls = 0;
          faults = 0;
          records = [];
        } }
    {
        MemorySpawner {
            links,
            fails,
            calls: 0,
            faults: 0,
            records: Records::new(),
        }
    }

    /// Another spawner, with links of its own, which contracts see as equal to this one.
    pub fn copy(&self, alloc: Global) -> Result<MemorySpawner, OutOfMemory>
        ensures { IfOk result (λ s. s ≡ self.now) }
    {
        Ok(MemorySpawner {
            links: copy_links(alloc, self.links.as_slice())?,
            fails: Vec::from_slice(alloc, self.fails.as_slice())?,
            calls: self.calls,
            faults: self.faults,
            records: self.records.copy(alloc)?,
        })
    }

    /// The records of the links given back, in order.
    pub fn records(&self) -> &Records
        ensures { result.now ≡ self.now.records }
    {
        &self.records
    }
}

impl Spawner for MemorySpawner {
    type Link = MemoryLink;

    ghost records = { λ s. Some s.records };

    ghost faults = { λ s. s.faults };

    fn start(&mut self, _alloc: Global, _program: &str) -> Result<MemoryLink, SpawnFault>
        ensures fresh { IfOk result (λ link.
            IsFresh (Some link.sent) (Some link.given) link.faults) }
        ensures told { IsSome (Some self.old.records) → IfOk result (λ link.
            IsTold (Some link.sent) (Some link.given) (Some (nat_lt 0 (length link.left)))) }
        ensures records { Some self.new.records ≡ Some self.old.records }
        ensures later { self.old.faults ≤ self.new.faults }
        ensures failed { IsErrOf result SpawnFault.Failed → Rose self.old.faults self.new.faults }
        ensures kept { OnOk result (self.new.faults ≡ self.old.faults) }
        ensures memory { IsErrOf result SpawnFault.OutOfMemory → ⊥ }

        // A start fails where its number is listed, and where no link is left.
        ensures fails { IsErr result ↔
            (Contains self.old.fails self.old.calls ⊎ (self.old.links ≡ [])) }
        ensures gives { IfOk result (λ link. self.old.links ≡ link ∷ self.new.links) }
        ensures err { OnErr result (self.new.links ≡ self.old.links) }
        ensures calls { self.new.calls ≡ one_more self.old.calls }
        ensures listed { self.new.fails ≡ self.old.fails }
    {
        let call = self.calls;
        self.calls = call.saturating_add(1);
        if self.fails.contains(&call) || self.links.is_empty() {
            self.faults = self.faults.saturating_add(1);
            return Err(SpawnFault::Failed);
        }
        Ok(take_first(&mut self.links))
    }

    fn stop(&mut self, link: MemoryLink)
        ensures records { Some self.new.records ≡ with_record (Some self.old.records)
            (record_of (Some link.sent) (Some link.given) (Some (nat_lt 0 (length link.left)))
            link.faults) }
        ensures tells_on { IsSome (Some self.old.records) → IsSome (Some self.new.records) }
        ensures faults { self.new.faults ≡ self.old.faults }

        // Nothing else changes.
        ensures now { let entry = entry_of link.sent link.given link.left link.faults in
            self.new ≡ record self.old { records = self.old.records ++ entry ∷ [] } }
    {
        let (record, memory) = link.into_record();
        self.records.add(memory, record);
    }
}

fn take_first(links: &mut Vec<MemoryLink>) -> MemoryLink
    requires some { links.old.items ≢ [] }
    requires unused { AllByRecursion IsUnused links.old.items }
    ensures first { links.old.items ≡ result ∷ links.new.items }
    ensures was_unused { IsUnused result }
    ensures still { AllByRecursion IsUnused links.new.items }
{
    links.remove(0)
}

fn copy_links(alloc: Global, links: &[MemoryLink]) -> Result<Vec<MemoryLink>, OutOfMemory>
    ensures { IfOk result (λ copied. copied.items ≡ links.now) }
{
    let mut copied = Vec::new(alloc);
    for link in links {
        copied.push(link.copy(alloc)?)?;
    }
    Ok(copied)
}

ghost use Rattle.std.specs.Prelude.{◌≡◌, ◌⊎◌, ◌<◌, ◌≤◌, ◌++◌, ℕ, List, IfOk, IsErrOf, IsTrue, OnErr, OnOk, count_by, length, take};
ghost use Rattle.ci_io.specs.Causes.{Rose};
ghost use Rattle.ci_pages.specs.Tables.{IsHeldChain, IsOnce};
ghost use Rattle.ci_pages.specs.Uses.{AllFree, Marks, free_pages, is_free};
ghost use Rattle.ci_pages.specs.declared.page_use.PageUse.TheVariants.{Leaving, Reserved};
ghost use Rattle.ci_volume.specs.Accounts.{IsHolding, KeepsTable, StaysHeld, unused_pages};
ghost use Rattle.ci_volume.specs.Chain.{IsChain};
ghost use Rattle.ci_volume.specs.Steps.{Stays};
ghost use Rattle.ci_volume.specs.declared.fault.VolumeFault.TheVariants.{DiskFault, NotACatalogue, OutOfMemory, VolumeFull};

use crate::chains::walk;
use crate::opening::page_count;
use crate::{Volume, VolumeFault};
use ci_device::Disk;
use std::alloc::Global;

impl<D: Disk> Volume<D> {
    /// How many pages are free.
    pub fn free(&self) -> u32
        ensures { result ≡ count_by is_free self.now.table.uses.pages.items }
    {
        self.table.free()
    }

    /// Gives out the least free pages.
    pub fn reserve_pages(&mut self, alloc: Global, count: u32) -> Result<Vec<u32>, VolumeFault>
        ensures least { IfOk result (λ v. v.items
            ≡ take count (free_pages self.old.table.uses.pages.items)) }
        ensures marked { IfOk result (λ v. Marks self.old.table.uses.pages.items
            self.new.table.uses.pages.items v.items Reserved) }
        ensures count { IfOk result (λ v. length v.items ≡ count) }
        ensures apart { IfOk result (λ v. IsOnce v.items) }
        ensures unused { IfOk result (λ v. unused_pages self.new.table
            ≡ unused_pages self.old.table ++ v.items) }
        ensures held { IfOk result (λ _. StaysHeld self.old.table self.new.table) }
        ensures once { IfOk result (λ _. IsOnce self.old.table.pending.items
            → IsOnce self.new.table.pending.items) }
        ensures pending { IfOk result (λ v. self.new.table.pending.items
            ≡ self.old.table.pending.items ++ v.items) }
        ensures full { (needed free : ℕ) → IsErrOf result (VolumeFull needed free)
            → (needed ≡ count) × (free ≡ count_by is_free self.old.table.uses.pages.items)
            × (free < needed) }
        ensures fits { count ≤ count_by is_free self.old.table.uses.pages.items
            → OnErr result (IsErrOf result OutOfMemory) }
        ensures causes { (fault : _) → IsErrOf result fault
            → (fault ≡ OutOfMemory)
            ⊎ (fault ≡ VolumeFull count (count_by is_free self.old.table.uses.pages.items)) }
        ensures err { OnErr result (KeepsTable self.old.table self.new.table) }
        ensures links { self.new.table.links.items ≡ self.old.table.links.items }
        ensures place { (self.new.which ≡ self.old.which) × (self.new.slot ≡ self.old.slot)
            × (self.new.size ≡ self.old.size) × (self.new.may_be_open ≡ self.old.may_be_open)
            × (self.new.root.items ≡ self.old.root.items) }
        ensures disk { self.new.disk ≡ self.old.disk }
    {
        let free = self.table.free();
        if free < count {
            return Err(VolumeFault::VolumeFull {
                needed: count,
                free,
            });
        }
        match self.table.reserve(alloc, count) {
            Ok(pages) => Ok(pages),
            Err(_) => Err(VolumeFault::OutOfMemory),
        }
    }

    /// Holds the chain that begins at a page and has so many bytes.
    pub fn hold(&mut self, alloc: Global, first: u32, size: u32) -> Result<(), VolumeFault>
        requires some { 0 < size }
        requires sized { IsTrue (D.honest self.old.disk)
            → self.old.size ≡ length (D.seen self.old.disk) }
        ensures ok { OnOk result (IsTrue (D.honest self.old.disk)
            → IsHolding (D.seen self.old.disk) self.old.slot.pages first size
            self.old.table self.new.table) }
        ensures held { OnOk result (StaysHeld self.old.table self.new.table) }
        ensures refused { IsErrOf result NotACatalogue → IsTrue (D.honest self.old.disk)
            → (chain : List ℕ)
            → IsChain (D.seen self.old.disk) self.old.slot.pages first size chain
            → ¬ AllFree self.old.table.uses.pages.items chain }
        ensures place { (self.new.which ≡ self.old.which) × (self.new.slot ≡ self.old.slot)
            × (self.new.size ≡ self.old.size) × (self.new.may_be_open ≡ self.old.may_be_open)
            × (self.new.root.items ≡ self.old.root.items) }
        ensures err { OnErr result (KeepsTable self.old.table self.new.table) }
        ensures pending { self.new.table.pending.items ≡ self.old.table.pending.items }
        ensures stays { Stays D.seen D.may_leave D.moment D.left_since D.honest
            self.old.disk self.new.disk }
        ensures failed { IsErrOf result DiskFault
            → Rose (D.faults self.old.disk) (D.faults self.new.disk) }
        ensures never_full { (needed free : ℕ) → ¬ IsErrOf result (VolumeFull needed free) }
    {
        let bounds = self.bounds();
        let chain = walk(&mut self.disk, alloc, bounds, first, page_count(size))?;
        if !self.table.are_free(&chain) {
            return Err(VolumeFault::NotACatalogue);
        }
        self.table.hold(&chain);
        Ok(())
    }

    /// Lets go the held chain that begins at a page: the next generation doesn't name it.
    pub fn let_go(&mut self, first: u32)
        requires { (chain : List ℕ) × IsHeldChain self.old.table.links.items
            self.old.table.uses.pages.items first chain }
        ensures marked { (chain : List ℕ)
            → IsHeldChain self.old.table.links.items self.old.table.uses.pages.items first chain
            → Marks self.old.table.uses.pages.items self.new.table.uses.pages.items chain
            Leaving }
        ensures links { self.new.table.links.items ≡ self.old.table.links.items }
        ensures pending { self.new.table.pending.items ≡ self.old.table.pending.items }
        ensures place { (self.new.which ≡ self.old.which) × (self.new.slot ≡ self.old.slot)
            × (self.new.size ≡ self.old.size) × (self.new.may_be_open ≡ self.old.may_be_open)
            × (self.new.root.items ≡ self.old.root.items) }
        ensures disk { self.new.disk ≡ self.old.disk }
    {
        self.table.let_go(first);
    }
}

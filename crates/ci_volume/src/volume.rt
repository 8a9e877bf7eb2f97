ghost use Rattle.std.specs.Prelude.{◌≡◌, ◌-◌, ◌<◌, ◌≤◌, [], ℕ, List, IfErr, IfOk, IsErrOf, IsTrue, MatchResult, OnOk, length};
ghost use Rattle.ci_io.specs.Causes.{Rose};
ghost use Rattle.ci_device.specs.Images.{Only};
ghost use Rattle.ci_pages.specs.Tables.{AllData, new_uses};
ghost use Rattle.ci_pages.specs.Uses.{Marks};
ghost use Rattle.ci_pages.specs.declared.page_use.PageUse.TheVariants.{Held};
ghost use Rattle.ci_volume.specs.Chain.{IsChain, chain_bytes};
ghost use Rattle.ci_volume.specs.Opening.{Opens, OpensToNothing};
ghost use Rattle.ci_volume.specs.Steps.{EachLeft, StandsBeside, Stays};
ghost use Rattle.ci_volume.specs.declared.fault.VolumeFault.TheVariants.{DiskFault, NotACatalogue, VolumeFull};

use crate::chains::{Bounds, walk};
use crate::gathering::gather;
use crate::opening::{open_image, page_count};
use crate::stable::make_stable;
use crate::writing::zeros;
use crate::{NoVolume, Slot, VolumeFault};
use ci_base::Text8;
use ci_device::Disk;
use ci_pages::PageTable;
use std::alloc::{AllocError, Global};

/// A volume, its current generation, and the pages of its root.
#[derive(Drop)]
pub struct Volume<D: Disk> {
    pub(crate) disk: D,
    /// The number of the current slot, 0 or 1.
    pub(crate) which: u64,
    pub(crate) slot: Slot,
    /// How many bytes the image has.
    pub(crate) size: u64,
    /// Whether the gate of the slot beside the current one may be open.
    pub(crate) may_be_open: bool,
    pub(crate) root: Vec<u32>,
    pub(crate) table: PageTable,
    /// The bytes of one page.
    pub(crate) buffer: Vec<u8>,
    ghost number: { which ≤ 1 },
    ghost buffer_size: { length buffer.items ≡ 4096 },
    ghost account: { length table.uses.pages.items ≡ slot.pages },
    ghost few: { slot.pages ≤ 262144 },
}

impl<D: Disk> Volume<D> {
    /// Opens the image that stands on the disk. It begins with a sync, and writes nothing.
    pub fn open(alloc: Global, disk: D) -> Result<Volume<D>, NoVolume<D>>
        ensures ok { IfOk result (λ v. IsTrue (D.honest disk)
            → Opens (D.seen disk) v.which v.slot v.root.items) }
        ensures held { IfOk result (λ v. Marks (new_uses v.slot.pages)
            v.table.uses.pages.items v.root.items Held) }
        ensures pending { IfOk result (λ v. v.table.pending.items ≡ []) }
        // A change of generation may follow.
        ensures ready { IfOk result (λ v. IsTrue (D.honest disk) → EachLeft (D.may_leave v.disk)
            (StandsBeside v.may_be_open (1 - v.which) v.slot v.root.items (D.seen disk))) }
        ensures sized { IfOk result (λ v. IsTrue (D.honest disk)
            → v.size ≡ length (D.seen v.disk)) }
        ensures nothing { IfErr result (λ no. no.fault ≡ NotACatalogue → IsTrue (D.honest disk)
            → OpensToNothing (D.seen disk)) }
        ensures stable { IfOk result (λ v. IsTrue (D.honest disk)
            → Only (D.seen v.disk) (D.may_leave v.disk)) }
        // At each moment a stop leaves what it might leave before.
        ensures stays { MatchResult result
            (λ v. Stays D.seen D.may_leave D.moment D.left_since D.honest disk v.disk)
            (λ no. Stays D.seen D.may_leave D.moment D.left_since D.honest disk no.disk) }
        ensures failed { IfErr result (λ no. no.fault ≡ DiskFault
            → Rose (D.faults disk) (D.faults no.disk)) }
        ensures never_full { (needed free : ℕ)
            → IfErr result (λ no. ¬ (no.fault ≡ VolumeFull needed free)) }
    {
        let mut disk = disk;
        match open_image(&mut disk, alloc) {
            Ok(opened) => {
                let current = opened.current;
                match prepare(alloc, current.slot.pages, &opened.root) {
                    Ok((table, buffer)) => Ok(Volume {
                        disk,
                        which: current.which,
                        slot: current.slot,
                        size: current.length,
                        may_be_open: current.may_be_open,
                        root: opened.root,
                        table,
                        buffer,
                    }),
                    Err(_) => Err(NoVolume {
                        fault: VolumeFault::OutOfMemory,
                        disk,
                    }),
                }
            }
            Err(fault) => Err(NoVolume { fault, disk }),
        }
    }

    /// The current generation.
    pub fn generation(&self) -> u64
        ensures { result ≡ self.now.slot.generation }
    {
        self.slot.generation
    }

    /// The first page and the length of the current generation's root.
    pub fn root(&self) -> (u32, u32)
        ensures { result ≡ (self.now.slot.root, self.now.slot.length) }
    {
        (self.slot.root, self.slot.length)
    }

    /// The pages of the root, in order.
    pub fn root_pages(&self) -> &[u32]
        ensures { result.now ≡ self.now.root.items }
    {
        &self.root
    }

    /// The pages of a chain, in order.
    pub fn chain(&mut self, alloc: Global, first: u32, size: u32) -> Result<Vec<u32>, VolumeFault>
        requires some { 0 < size }
        requires sized { IsTrue (D.honest self.old.disk)
            → self.old.size ≡ length (D.seen self.old.disk) }
        ensures ok { IfOk result (λ chain. IsTrue (D.honest self.old.disk)
            → IsChain (D.seen self.old.disk) self.old.slot.pages first size chain.items) }
        ensures no_chain { IsErrOf result NotACatalogue → IsTrue (D.honest self.old.disk)
            → (chain : List ℕ)
            → ¬ IsChain (D.seen self.old.disk) self.old.slot.pages first size chain }
        ensures stays { Stays D.seen D.may_leave D.moment D.left_since D.honest
            self.old.disk self.new.disk }
        ensures failed { IsErrOf result DiskFault
            → Rose (D.faults self.old.disk) (D.faults self.new.disk) }
        ensures never_full { (needed free : ℕ) → ¬ IsErrOf result (VolumeFull needed free) }
        ensures place { (self.new.which ≡ self.old.which) × (self.new.slot ≡ self.old.slot)
            × (self.new.size ≡ self.old.size) × (self.new.may_be_open ≡ self.old.may_be_open)
            × (self.new.root.items ≡ self.old.root.items) }
        ensures account { self.new.table ≡ self.old.table }
    {
        let bounds = self.bounds();
        let chain = walk(&mut self.disk, alloc, bounds, first, page_count(size))?;
        Ok(chain)
    }

    pub(crate) fn bounds(&self) -> Bounds
        ensures pages { result.pages ≡ self.now.slot.pages }
        ensures size { result.size ≡ self.now.size }
    {
        Bounds {
            pages: self.slot.pages,
            size: self.size,
        }
    }

    /// Makes what was written stable.
    pub fn sync(&mut self) -> Result<(), VolumeFault>
        ensures stable { OnOk result (IsTrue (D.honest self.old.disk)
            → Only (D.seen self.new.disk) (D.may_leave self.new.disk)) }
        ensures stays { Stays D.seen D.may_leave D.moment D.left_since D.honest
            self.old.disk self.new.disk }
        ensures failed { IsErrOf result DiskFault
            → Rose (D.faults self.old.disk) (D.faults self.new.disk) }
        ensures only_failed { (fault : _) → IsErrOf result fault → fault ≡ DiskFault }
        ensures place { (self.new.which ≡ self.old.which) × (self.new.slot ≡ self.old.slot)
            × (self.new.size ≡ self.old.size) × (self.new.may_be_open ≡ self.old.may_be_open)
            × (self.new.root.items ≡ self.old.root.items) }
        ensures account { self.new.table ≡ self.old.table }
    {
        make_stable(&mut self.disk)?;
        Ok(())
    }

    /// The bytes of a chain.
    pub fn read_run(&mut self, alloc: Global, first: u32, size: u32) -> Result<Text8, VolumeFault>
        requires some { 0 < size }
        requires sized { IsTrue (D.honest self.old.disk)
            → self.old.size ≡ length (D.seen self.old.disk) }
        ensures ok { IfOk result (λ bytes. IsTrue (D.honest self.old.disk)
            → (chain : List ℕ)
            → IsChain (D.seen self.old.disk) self.old.slot.pages first size chain
            → bytes ≡ chain_bytes (D.seen self.old.disk) chain size) }
        ensures is_chain { IfOk result (λ _. IsTrue (D.honest self.old.disk)
            → (chain : List ℕ)
            × IsChain (D.seen self.old.disk) self.old.slot.pages first size chain) }
        ensures no_chain { IsErrOf result NotACatalogue → IsTrue (D.honest self.old.disk)
            → (chain : List ℕ)
            → ¬ IsChain (D.seen self.old.disk) self.old.slot.pages first size chain }
        ensures stays { Stays D.seen D.may_leave D.moment D.left_since D.honest
            self.old.disk self.new.disk }
        ensures failed { IsErrOf result DiskFault
            → Rose (D.faults self.old.disk) (D.faults self.new.disk) }
        ensures never_full { (needed free : ℕ) → ¬ IsErrOf result (VolumeFull needed free) }
        ensures place { (self.new.which ≡ self.old.which) × (self.new.slot ≡ self.old.slot)
            × (self.new.size ≡ self.old.size) × (self.new.may_be_open ≡ self.old.may_be_open)
            × (self.new.root.items ≡ self.old.root.items) }
        ensures account { self.new.table ≡ self.old.table }
    {
        let bounds = self.bounds();
        let count = page_count(size);
        let mut bytes = gather(
            &mut self.disk,
            &mut self.buffer,
            alloc,
            bounds,
            first,
            count,
        )?;
        bytes.truncate(size as usize);
        Ok(Text8::from(bytes))
    }

    /// Gives the disk back.
    pub fn into_disk(self) -> D
        ensures { result ≡ self.disk }
    {
        self.disk
    }
}

/// What a volume keeps of its pages, and the bytes of one.
pub(crate) fn prepare(
    alloc: Global,
    pages: u32,
    root: &[u32],
) -> Result<(PageTable, Vec<u8>), AllocError>
    requires least { 3 ≤ pages }
    requires most { pages ≤ 262144 }
    requires data_pages { AllData pages root.now }
    ensures marked { IfOk result (λ p.
        Marks (new_uses pages) p.0.uses.pages.items root.now Held) }
    ensures pending { IfOk result (λ p. p.0.pending.items ≡ []) }
    ensures buffer { IfOk result (λ p. length p.1.items ≡ 4096) }
{
    let table = PageTable::opened(alloc, pages, root)?;
    let buffer = zeros(alloc, 4096)?;
    Ok((table, buffer))
}

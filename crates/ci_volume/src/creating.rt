ghost use Rattle.std.specs.Prelude.{◌≡◌, ◌⊎◌, ◌+◌, ◌-◌, ◌<◌, ◌≤◌, [], IfErr, IfOk, IsTrue, MatchResult, length};
ghost use Rattle.std.specs.List.{range_with_len};
ghost use Rattle.ci_io.specs.Causes.{Rose};
ghost use Rattle.ci_device.specs.Images.{Only};
ghost use Rattle.ci_device.specs.Time.{LeavesOnly};
ghost use Rattle.ci_pages.specs.Tables.{IsHeldChain, new_uses};
ghost use Rattle.ci_pages.specs.Uses.{Marks};
ghost use Rattle.ci_pages.specs.declared.page_use.PageUse.TheVariants.{Held};
ghost use Rattle.ci_volume.specs.Chain.{pages_for};
ghost use Rattle.ci_volume.specs.Creation.{FreshOrNew, IsNew, first_slot, log_chain, log_pages, root_chain};
ghost use Rattle.ci_volume.specs.Layout.{IsFresh};
ghost use Rattle.ci_volume.specs.Steps.{EachLeft, StandsBeside};
ghost use Rattle.ci_volume.specs.declared.fault.VolumeFault.TheVariants.{DiskFault, OutOfMemory};

use crate::founding::{Plan, found_volume};
use crate::opening::page_count;
use crate::volume::prepare;
use crate::{NoVolume, Slot, Volume, VolumeFault};
use ci_device::Disk;
use ci_pages::PageTable;
use std::alloc::{AllocError, Global};

/// Where the root's chain begins.
const FIRST_PAGE: u32 = 3;

/// How many pages the log of a new volume has.
const LOG_PAGES: u32 = 16;

/// The pages of a new volume's chains, its account, and the bytes of one page.
#[derive(Drop)]
struct Begun {
    root: Vec<u32>,
    log: Vec<u32>,
    table: PageTable,
    buffer: Vec<u8>,
}

// So many numbers, from one on.
fn successive(alloc: Global, first: u32, count: u32) -> Result<Vec<u32>, AllocError>
    requires { first + count ≤ 262144 }
    ensures { IfOk result (λ v. v.items ≡ range_with_len first count) }
{
    let mut pages = Vec::with_capacity(alloc, count as usize)?;
    for step in 0..count {
        pages.push(first + step)?;
    }
    Ok(pages)
}

// What a volume of so many pages begins with, whose root has so many.
fn begin(alloc: Global, pages: u32, count: u32) -> Result<Begun, AllocError>
    requires most { pages ≤ 262144 }
    requires fits { 19 + count ≤ pages }
    ensures root { IfOk result (λ b. b.root.items ≡ range_with_len 3 count) }
    ensures log { IfOk result (λ b. b.log.items ≡ range_with_len (3 + count) 16) }
    ensures marked { IfOk result (λ b. Marks (new_uses pages) b.table.uses.pages.items
        (range_with_len 3 (count + 16)) Held) }
    ensures log_held { IfOk result (λ b. IsHeldChain b.table.links.items
        b.table.uses.pages.items (3 + count) b.log.items) }
    ensures pending { IfOk result (λ b. b.table.pending.items ≡ []) }
    ensures buffer { IfOk result (λ b. length b.buffer.items ≡ 4096) }
{
    let root = successive(alloc, FIRST_PAGE, count)?;
    let log = successive(alloc, FIRST_PAGE + count, LOG_PAGES)?;
    let (table, buffer) = prepare(alloc, pages, &root)?;
    let mut table = table;
    table.hold(&log);
    Ok(Begun {
        root,
        log,
        table,
        buffer,
    })
}

impl<D: Disk> Volume<D> {
    /// Makes a fresh image a volume of so many pages, with this root and a log of zeros behind it.
    /// Both chains are held.
    pub fn create(alloc: Global, disk: D, pages: u32, root: &[u8]) -> Result<Volume<D>, NoVolume<D>>
        requires fresh { IsTrue (D.honest disk) → IsFresh (D.seen disk) }
        requires least { 64 ≤ pages }
        requires most { pages ≤ 262144 }
        requires some { 0 < length root.now }
        requires fits { 19 + pages_for (length root.now) ≤ pages }
        // At each moment a stop leaves a fresh image, or the new volume.
        ensures any_moment { IsTrue (D.honest disk) → EachLeft (D.may_leave disk) IsFresh
            → MatchResult result
            (λ v. LeavesOnly D.moment D.left_since disk v.disk (FreshOrNew pages root.now))
            (λ no. LeavesOnly D.moment D.left_since disk no.disk (FreshOrNew pages root.now)) }
        ensures acknowledged { IfOk result (λ v. IsTrue (D.honest disk)
            → EachLeft (D.may_leave v.disk) (IsNew pages root.now)) }
        ensures stable { IfOk result (λ v. IsTrue (D.honest disk)
            → Only (D.seen v.disk) (D.may_leave v.disk)) }
        ensures place { IfOk result (λ v. (v.which ≡ 0)
            × (v.slot ≡ first_slot pages (length root.now))
            × (v.root.items ≡ root_chain (length root.now))) }
        // The pages of both chains are held, and all behind them are free.
        ensures held { IfOk result (λ v. Marks (new_uses pages) v.table.uses.pages.items
            (range_with_len 3 (pages_for (length root.now) + log_pages)) Held) }
        ensures log { IfOk result (λ v. IsHeldChain v.table.links.items
            v.table.uses.pages.items (3 + pages_for (length root.now))
            (log_chain (length root.now))) }
        ensures pending { IfOk result (λ v. v.table.pending.items ≡ []) }
        // A change of generation may follow.
        ensures ready { IfOk result (λ v. IsTrue (D.honest disk) → EachLeft (D.may_leave v.disk)
            (StandsBeside v.may_be_open (1 - v.which) v.slot
            (range_with_len 3 (pages_for (length root.now) + log_pages)) (D.seen v.disk))) }
        ensures sized { IfOk result (λ v. IsTrue (D.honest disk)
            → v.size ≡ length (D.seen v.disk)) }
        ensures honest { MatchResult result (λ v. D.honest v.disk ≡ D.honest disk)
            (λ no. D.honest no.disk ≡ D.honest disk) }
        // Memory is taken before the first call on the disk.
        ensures memory { IfErr result (λ no. no.fault ≡ OutOfMemory → no.disk ≡ disk) }
        ensures failed { IfErr result (λ no. no.fault ≡ DiskFault
            → Rose (D.faults disk) (D.faults no.disk)) }
        ensures causes { IfErr result (λ no. (no.fault ≡ DiskFault)
            ⊎ (no.fault ≡ OutOfMemory)) }
    {
        let mut disk = disk;
        let slot = Slot {
            generation: 1,
            pages,
            root: FIRST_PAGE,
            length: root.len() as u32,
        };
        match begin(alloc, pages, page_count(slot.length)) {
            Err(_) => Err(NoVolume {
                fault: VolumeFault::OutOfMemory,
                disk,
            }),
            Ok(begun) => {
                let mut begun = begun;
                let plan = Plan {
                    slot,
                    root_pages: &begun.root,
                    root,
                    log: &begun.log,
                };
                match found_volume(&mut disk, &mut begun.buffer, plan) {
                    Err(_) => Err(NoVolume {
                        fault: VolumeFault::DiskFault,
                        disk,
                    }),
                    Ok(size) => Ok(Volume {
                        disk,
                        which: 0,
                        slot,
                        size,
                        may_be_open: false,
                        root: begun.root,
                        table: begun.table,
                        buffer: begun.buffer,
                    }),
                }
            }
        }
    }
}

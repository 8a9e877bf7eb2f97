ghost use Rattle.std.specs.Prelude.{◌≡◌, ◌⊎◌, ◌-◌, ◌^◌, ◌<◌, [], ℕ, List, Contains, IsErrOf, IsTrue, OnErr, OnOk, length, slice_index};
ghost use Rattle.ci_io.specs.Causes.{Rose};
ghost use Rattle.ci_device.specs.Images.{Only};
ghost use Rattle.ci_device.specs.Time.{LeavesOnly};
ghost use Rattle.ci_pages.specs.Tables.{IsOnce, Relinks};
ghost use Rattle.ci_pages.specs.Uses.{AllHave};
ghost use Rattle.ci_pages.specs.declared.page_use.PageUse.TheVariants.{Held, Reserved};
ghost use Rattle.ci_volume.specs.Accounts.{IsTurned, KeepsTable, unused_pages};
ghost use Rattle.ci_volume.specs.Chain.{HoldsChain, pages_for};
ghost use Rattle.ci_volume.specs.Steps.{EachLeft, StandsBeside, StandsEither};
ghost use Rattle.ci_volume.specs.Volumes.{next_slot};
ghost use Rattle.ci_volume.specs.declared.fault.VolumeFault.TheVariants.{DiskFault, OutOfMemory};

use crate::committing::{Goal, write_generation};
use crate::{Header, Slot, Volume, VolumeFault};
use ci_device::Disk;
use ci_pages::PageTable;
use std::alloc::Global;

impl<D: Disk> Volume<D> {
    /// Goes to the next generation. Its root is written into the pages that were given out since the
    /// last commit and are in no run, in order.
    pub fn commit(&mut self, alloc: Global, header: &Header) -> Result<(), VolumeFault>
        requires generation { self.old.slot.generation < 2 ^ 62 - 1 }
        requires some { 0 < length header.now.root }
        requires small { length header.now.root < 2 ^ 32 }
        requires room { length (unused_pages self.old.table) ≡ pages_for (length header.now.root) }
        requires once { IsOnce self.old.table.pending.items }
        requires held { AllHave self.old.table.uses.pages.items self.old.root.items Held }
        // At each moment a stop leaves the old generation or the next, and the pages of both.
        ensures any_moment { IsTrue (D.honest self.old.disk) → (held base : List ℕ)
            → ((page : ℕ) → Contains (unused_pages self.old.table) page → ¬ Contains held page)
            → EachLeft (D.may_leave self.old.disk) (StandsBeside self.old.may_be_open
            (1 - self.old.which) self.old.slot held base)
            → LeavesOnly D.moment D.left_since self.old.disk self.new.disk
            (StandsEither (1 - self.old.which) self.old.slot (next_slot self.old.slot
            (slice_index (unused_pages self.old.table) 0) (length header.now.root)) held base) }
        // Behind it each image has the next, and a commit may follow.
        ensures acknowledged { OnOk result (IsTrue (D.honest self.old.disk)
            → (held base : List ℕ)
            → ((page : ℕ) → Contains (unused_pages self.old.table) page → ¬ Contains held page)
            → EachLeft (D.may_leave self.old.disk) (StandsBeside self.old.may_be_open
            (1 - self.old.which) self.old.slot held base)
            → EachLeft (D.may_leave self.new.disk) (StandsBeside self.new.may_be_open
            (1 - self.new.which) self.new.slot held base)) }
        ensures next { OnOk result (self.new.slot ≡ next_slot self.old.slot
            (slice_index (unused_pages self.old.table) 0) (length header.now.root)) }
        ensures root { OnOk result (IsTrue (D.honest self.old.disk)
            → HoldsChain (D.seen self.new.disk) self.new.slot.pages self.new.slot.root
            header.now.root self.new.root.items) }
        ensures sized { OnOk result (IsTrue (D.honest self.old.disk)
            → self.new.size ≡ length (D.seen self.new.disk)) }
        ensures stable { OnOk result (IsTrue (D.honest self.old.disk)
            → Only (D.seen self.new.disk) (D.may_leave self.new.disk)) }
        // What was given out is held, and what was let go is free.
        ensures turned { OnOk result (IsTurned self.old.table self.new.table
            self.old.root.items) }
        ensures linked { OnOk result (Relinks self.old.table.links.items
            self.new.table.links.items (unused_pages self.old.table)) }
        ensures root_held { OnOk result (AllHave self.new.table.uses.pages.items
            self.new.root.items Held) }
        ensures pending { OnOk result (self.new.table.pending.items ≡ []) }
        ensures root_pages { OnOk result (self.new.root.items ≡ unused_pages self.old.table) }
        // A page that is let go stays what it is where the next generation isn't stable.
        ensures err { OnErr result (KeepsTable self.old.table self.new.table) }
        ensures failed { IsErrOf result DiskFault
            → Rose (D.faults self.old.disk) (D.faults self.new.disk) }
        ensures causes { (fault : _) → IsErrOf result fault
            → (fault ≡ DiskFault) ⊎ (fault ≡ OutOfMemory) }
    {
        let pages = self.table.unused(alloc)?;
        let root = header.root.items();
        let beside = 1 - self.which;
        let next = next_of(self.slot, &pages, root);
        let goal = Goal {
            which: beside,
            may_be_open: self.may_be_open,
            next,
        };
        self.size = write_generation(&mut self.disk, &mut self.buffer, goal, &pages, root)?;
        self.which = beside;
        self.slot = next;
        self.may_be_open = true;
        turn_over(&mut self.table, &pages, &self.root);
        self.root = pages;
        Ok(())
    }
}

// The account of the next generation, whose root is in some pages. The old root is let go.
fn turn_over(table: &mut PageTable, pages: &[u32], root: &[u32])
    requires reserved { AllHave table.old.uses.pages.items pages.now Reserved }
    requires once { IsOnce pages.now }
    requires held { AllHave table.old.uses.pages.items root.now Held }
    ensures turned { IsTurned table.old table.new root.now }
    ensures size { length table.new.uses.pages.items ≡ length table.old.uses.pages.items }
    ensures linked { Relinks table.old.links.items table.new.links.items pages.now }
    ensures filled { AllHave table.new.uses.pages.items pages.now Held }
    ensures pending { table.new.pending.items ≡ [] }
{
    table.fill(pages);
    table.leave_all(root);
    table.turn();
}

// What the slot of the next generation has, whose root is in some pages.
fn next_of(slot: Slot, pages: &[u32], root: &[u8]) -> Slot
    requires generation { slot.generation < 2 ^ 62 - 1 }
    requires some { 0 < length pages.now }
    requires small { length root.now < 2 ^ 32 }
    ensures { result ≡ next_slot slot (slice_index pages.now 0) (length root.now) }
{
    Slot {
        generation: slot.generation + 1,
        pages: slot.pages,
        root: pages[0],
        length: root.len() as u32,
    }
}

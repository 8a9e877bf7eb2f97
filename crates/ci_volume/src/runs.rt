ghost use Rattle.std.specs.Prelude.{◌≡◌, ◌++◌, ◌-◌, ◌+◌, ◌*◌, ◌<◌, ◌≤◌, ℕ, List, Contains, IsErrOf, IsTrue, OnOk, length, slice_index};
ghost use Rattle.ci_io.specs.Causes.{Rose};
ghost use Rattle.ci_device.specs.Images.{Holds, Torn};
ghost use Rattle.ci_device.specs.Time.{LeavesOnly};
ghost use Rattle.ci_pages.specs.Tables.{IsOnce, Relinks};
ghost use Rattle.ci_pages.specs.Uses.{AllHave, Marks, use_of};
ghost use Rattle.ci_pages.specs.declared.page_use.PageUse.TheVariants.{Held, Reserved, Used};
ghost use Rattle.ci_volume.specs.Accounts.{StaysHeld, unused_pages};
ghost use Rattle.ci_volume.specs.Chain.{HoldsChain, pages_for};
ghost use Rattle.ci_volume.specs.Steps.{EachLeft, IsTornFrom, StandsBeside};
ghost use Rattle.ci_volume.specs.declared.fault.VolumeFault.TheVariants.{DiskFault};

use crate::chains::PAGE_BYTES;
use crate::stable::write_now;
use crate::writing::write_chain;
use crate::{Volume, VolumeFault};
use ci_device::Disk;

impl<D: Disk> Volume<D> {
    /// Writes a chain into pages that were given out since the last commit and are in no run.
    pub fn write_run(&mut self, pages: &[u32], bytes: &[u8]) -> Result<(), VolumeFault>
        requires reserved { AllHave self.old.table.uses.pages.items pages.now Reserved }
        requires once { IsOnce pages.now }
        requires count { length pages.now ≡ pages_for (length bytes.now) }
        requires some { 0 < length bytes.now }
        ensures ok { OnOk result (IsTrue (D.honest self.old.disk)
            → HoldsChain (D.seen self.new.disk) self.old.slot.pages (slice_index pages.now 0)
            bytes.now pages.now) }
        // A stop at any moment leaves the current generation, and the pages of its chains.
        ensures any_moment { (held base : List ℕ)
            → ((page : ℕ) → Contains pages.now page → ¬ Contains held page)
            → EachLeft (D.may_leave self.old.disk) (StandsBeside self.old.may_be_open
            (1 - self.old.which) self.old.slot held base)
            → LeavesOnly D.moment D.left_since self.old.disk self.new.disk
            (StandsBeside self.old.may_be_open (1 - self.old.which) self.old.slot held base) }
        ensures sized { OnOk result (IsTrue (D.honest self.old.disk)
            → self.new.size ≡ length (D.seen self.new.disk)) }
        ensures marked { OnOk result (Marks self.old.table.uses.pages.items
            self.new.table.uses.pages.items pages.now Used) }
        ensures held { OnOk result (StaysHeld self.old.table self.new.table) }
        // Where these pages stand first among those in no run, the others are left.
        ensures unused { (rest : List ℕ) → IsOnce self.old.table.pending.items
            → unused_pages self.old.table ≡ pages.now ++ rest
            → OnOk result (unused_pages self.new.table ≡ rest) }
        ensures linked { OnOk result (Relinks self.old.table.links.items
            self.new.table.links.items pages.now) }
        ensures place { (self.new.which ≡ self.old.which) × (self.new.slot ≡ self.old.slot)
            × (self.new.may_be_open ≡ self.old.may_be_open)
            × (self.new.root.items ≡ self.old.root.items) }
        ensures pending { self.new.table.pending.items ≡ self.old.table.pending.items }
        ensures honest { D.honest self.new.disk ≡ D.honest self.old.disk }
        ensures failed { IsErrOf result DiskFault
            → Rose (D.faults self.old.disk) (D.faults self.new.disk) }
        ensures only_failed { (fault : _) → IsErrOf result fault → fault ≡ DiskFault }
    {
        self.table.fill(pages);
        self.size = write_chain(&mut self.disk, &mut self.buffer, pages, bytes)?;
        Ok(())
    }

    /// Writes into the content of one page of a held chain. All other bytes stay in every image.
    pub fn patch(&mut self, page: u32, at: u32, bytes: &[u8]) -> Result<(), VolumeFault>
        requires held { use_of self.old.table.uses.pages.items page ≡ Held }
        requires fits { at + length bytes.now ≤ 4092 }
        ensures ok { OnOk result (IsTrue (D.honest self.old.disk)
            → Holds (D.seen self.new.disk) (PAGE_BYTES * page + 4 + at) bytes.now) }
        ensures others { Torn (PAGE_BYTES * page + 4 + at) (length bytes.now)
            (D.seen self.old.disk) (D.seen self.new.disk) }
        ensures images { EachLeft (D.may_leave self.new.disk) (IsTornFrom
            (D.may_leave self.old.disk) (PAGE_BYTES * page + 4 + at) (length bytes.now)) }
        ensures any_moment { LeavesOnly D.moment D.left_since self.old.disk self.new.disk
            (IsTornFrom (D.may_leave self.old.disk) (PAGE_BYTES * page + 4 + at)
            (length bytes.now)) }
        ensures place { (self.new.which ≡ self.old.which) × (self.new.slot ≡ self.old.slot)
            × (self.new.size ≡ self.old.size) × (self.new.may_be_open ≡ self.old.may_be_open)
            × (self.new.root.items ≡ self.old.root.items) }
        ensures account { self.new.table ≡ self.old.table }
        ensures honest { D.honest self.new.disk ≡ D.honest self.old.disk }
        ensures failed { IsErrOf result DiskFault
            → Rose (D.faults self.old.disk) (D.faults self.new.disk) }
        ensures only_failed { (fault : _) → IsErrOf result fault → fault ≡ DiskFault }
    {
        let place = PAGE_BYTES * u64::from(page) + 4 + u64::from(at);
        write_now(&mut self.disk, place, bytes)?;
        Ok(())
    }
}

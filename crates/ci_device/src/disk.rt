ghost use Rattle.std.specs.Prelude.{◌≡◌, ◌+◌, ◌≤◌, ℕ, Bool, List, IsTrue, IfOk, OnOk, length, take, drop};
ghost use Rattle.ci_io.specs.Causes.{HasCause};
ghost use Rattle.ci_device.specs.Images.{Holds, Torn, Follows, NoMore, Only};
ghost use Rattle.ci_device.specs.Time.{Elapses};

use ci_io::Failed;

/// The most bytes that a disk is asked to have: 1 GiB.
pub const DISK_BYTES: u64 = 1_073_741_824;

/// Bytes that outlive a stop. What was written since the last sync, and what lies past the end that
/// the disk had then, may be anything after a stop; all other bytes stay.
pub trait Disk {
    /// The bytes as they read.
    ghost seen: { Self → List ℕ };

    /// The images that a stop at this moment may leave.
    ghost may_leave: { Self → List ℕ → Type 0 };

    /// The moment, as a number that doesn't fall.
    ghost moment: { Self → ℕ };

    /// The images that a stop at some moment from that one on might have left.
    ghost left_since: { Self → ℕ → List ℕ → Type 0 };

    /// How many calls failed.
    ghost faults: { Self → ℕ };

    /// The disk keeps to the clauses on contents, and tells them.
    ghost honest: { Self → Bool };

    /// The disk as it reads is one of its images.
    ghost seen_may_stay: { (disk : Self) → may_leave disk (seen disk) };

    /// This moment is one of those since an earlier one.
    ghost counts_now: { (disk : Self) (t : ℕ) (image : List ℕ) → t ≤ moment disk
        → may_leave disk image → left_since disk t image };

    /// Since this moment there is no other.
    ghost only_now: { (disk : Self) (image : List ℕ) → left_since disk (moment disk) image
        → may_leave disk image };

    /// How many bytes there are.
    fn length(&mut self) -> Result<u64, Failed>
        ensures ok { IfOk result (λ n. IsTrue (honest self.old) → n ≡ length (seen self.old)) }
        ensures seen { seen self.new ≡ seen self.old }
        ensures images { NoMore (may_leave self.old) (may_leave self.new) }
        ensures moments { Elapses (moment self.old) (moment self.new)
            (left_since self.old) (left_since self.new) (may_leave self.new) }
        ensures honest { honest self.new ≡ honest self.old }
        ensures cause { HasCause (faults self.old) (faults self.new) result };

    /// The bytes from a place on, as many as `out` has.
    fn read_at(&mut self, at: u64, out: &mut [u8]) -> Result<(), Failed>
        requires { IsTrue (honest self.old) → at + length out.old ≤ length (seen self.old) }
        ensures ok { OnOk result (IsTrue (honest self.old)
            → out.new ≡ take (length out.old) (drop at (seen self.old))) }
        ensures seen { seen self.new ≡ seen self.old }
        ensures images { NoMore (may_leave self.old) (may_leave self.new) }
        ensures moments { Elapses (moment self.old) (moment self.new)
            (left_since self.old) (left_since self.new) (may_leave self.new) }
        ensures honest { honest self.new ≡ honest self.old }
        ensures cause { HasCause (faults self.old) (faults self.new) result };

    /// Writes over what is there, and past the end. A write that fails leaves its range unsynced.
    fn write_at(&mut self, at: u64, bytes: &[u8]) -> Result<(), Failed>
        requires { at + length bytes.now ≤ DISK_BYTES }
        ensures ok { OnOk result (IsTrue (honest self.old) → Holds (seen self.new) at bytes.now) }
        ensures others { Torn at (length bytes.now) (seen self.old) (seen self.new) }
        ensures images { Follows (Torn at (length bytes.now)) (may_leave self.old)
            (may_leave self.new) }
        ensures moments { Elapses (moment self.old) (moment self.new)
            (left_since self.old) (left_since self.new) (may_leave self.new) }
        ensures honest { honest self.new ≡ honest self.old }
        ensures cause { HasCause (faults self.old) (faults self.new) result };

    /// Makes what was written stable: behind it a stop leaves what a read gives.
    fn sync(&mut self) -> Result<(), Failed>
        ensures ok { OnOk result (IsTrue (honest self.old)
            → Only (seen self.old) (may_leave self.new)) }
        ensures seen { seen self.new ≡ seen self.old }
        ensures images { NoMore (may_leave self.old) (may_leave self.new) }
        ensures moments { Elapses (moment self.old) (moment self.new)
            (left_since self.old) (left_since self.new) (may_leave self.new) }
        ensures honest { honest self.new ≡ honest self.old }
        ensures cause { HasCause (faults self.old) (faults self.new) result };
}

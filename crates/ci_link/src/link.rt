ghost use Rattle.std.specs.Prelude.{◌≡◌, ◌<◌, ℕ, Bool, false, List, Option, IfOk, IfSome, OnErr, length, take};
ghost use Rattle.std.specs.Io.{ReadsAtMost, WritesAtMost};
ghost use Rattle.std.specs.Io.KnownBytes.{Appends};
ghost use Rattle.ci_io.specs.Causes.{HasCause};

use ci_io::Failed;

/// The pipe to a daemon, in both directions.
pub trait Link {
    /// The bytes that were sent so far, where the link tells them.
    ghost sent: { Self → Option (List ℕ) };

    /// The bytes that were received so far, where the link tells them.
    ghost given: { Self → Option (List ℕ) };

    /// Whether any bytes are still to come, where the link tells it.
    ghost more: { Self → Option Bool };

    /// How many calls failed.
    ghost faults: { Self → ℕ };

    /// Sends a front of the bytes, and answers its length. To take nothing of some is a fault.
    fn send(&mut self, bytes: &[u8]) -> Result<usize, Failed>
        ensures bound { WritesAtMost result bytes.now }
        ensures some { IfOk result (λ n. 0 < length bytes.now → 0 < n) }
        ensures ok { IfOk result
            (λ n. Appends (sent self.old) (sent self.new) (take n bytes.now)) }
        ensures err { OnErr result (sent self.new ≡ sent self.old) }
        ensures given { given self.new ≡ given self.old }
        ensures more { more self.new ≡ more self.old }
        ensures cause { HasCause (faults self.old) (faults self.new) result };

    /// Writes the next bytes to the front of `out`, and answers how many. 0 is the daemon's end,
    /// unless `out` is empty.
    fn receive(&mut self, out: &mut [u8]) -> Result<usize, Failed>
        ensures bound { ReadsAtMost result out.new }
        ensures ok { IfOk result
            (λ n. Appends (given self.old) (given self.new) (take n out.new)) }
        ensures err { OnErr result (given self.new ≡ given self.old) }
        ensures ended { IfOk result
            (λ n. n ≡ 0 → 0 < length out.new → IfSome (more self.new) (λ m. m ≡ false)) }
        ensures sent { sent self.new ≡ sent self.old }
        ensures cause { HasCause (faults self.old) (faults self.new) result };
}

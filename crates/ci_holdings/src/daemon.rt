ghost use Rattle.std.specs.Prelude.{◌≡◌, ◌==◌, ◌+◌, true, false, IfOk};
ghost use Rattle.ci_journal.specs.Daemon.{failures, most_failures};
ghost use Rattle.ci_journal.specs.Tells.{event};
ghost use Rattle.ci_holdings.specs.Refusals.{Tries};

use crate::Holdings;
use ci_book::CoreFault;
use ci_io::Sink;
use ci_journal::{EVENT_BYTES, Event, Happened};

/// So many failed starts in a row end all trying.
const FAILURES_MOST: u64 = 8;

impl<K: Sink + Drop> Holdings<K> {
    /// The daemon was started.
    pub fn started(&mut self, by: u32) -> Result<(), CoreFault>
        ensures step { Tries self.old self.new (event by Happened.Started) result }
    {
        self.book.prepare(self.places, EVENT_BYTES)?;
        self.failed = 0;
        self.book.add(Event {
            by,
            what: Happened::Started,
        });
        Ok(())
    }

    /// The daemon could not be started. True where no other start is to be tried, which the step
    /// tells in an event of its own.
    pub fn start_failed(&mut self, by: u32) -> Result<bool, CoreFault>
        ensures step { Tries self.old self.new (event by Happened.StartFailed) result }
        ensures lost { IfOk result (λ lost.
            lost ≡ (failures self.old.sheet.events + 1 == most_failures)) }
    {
        if self.failed + 1 == FAILURES_MOST {
            self.fail_last(by)?;
            return Ok(true);
        }
        self.fail(by)?;
        Ok(false)
    }

    // A start failed, behind which another may be tried.
    fn fail(&mut self, by: u32) -> Result<(), CoreFault>
        requires { (failures self.old.sheet.events + 1 == most_failures) ≡ false }
        ensures step { Tries self.old self.new (event by Happened.StartFailed) result }
    {
        self.book.prepare(self.places, EVENT_BYTES)?;
        self.failed += 1;
        self.book.add(Event {
            by,
            what: Happened::StartFailed,
        });
        Ok(())
    }

    // A start failed, and it was the last.
    fn fail_last(&mut self, by: u32) -> Result<(), CoreFault>
        requires { (failures self.old.sheet.events + 1 == most_failures) ≡ true }
        ensures step { Tries self.old self.new (event by Happened.StartFailed) result }
    {
        self.book.prepare(self.places + 1, 2 * EVENT_BYTES)?;
        self.failed += 1;
        self.book.add(Event {
            by,
            what: Happened::StartFailed,
        });
        self.book.add(Event {
            by,
            what: Happened::DaemonLost,
        });
        Ok(())
    }
}

ghost use Rattle.std.specs.Prelude.{◌≡◌, ◌==◌, ◌+◌, IfOk};
ghost use Rattle.ci_journal.specs.declared.event.Happened.{Happened};
ghost use Rattle.ci_journal.specs.Daemon.{failures, most_failures};
ghost use Rattle.ci_journal.specs.Tells.{event};
ghost use Rattle.ci_core.specs.Fixed.{KeepsFixed};
ghost use Rattle.ci_holdings.specs.Refusals.{IsStep};

use crate::Catalog;
use ci_book::{CoreFault, Tried, keep};
use ci_io::Sink;

impl<K: Sink + Drop> Catalog<K> {
    /// The daemon was started.
    pub fn started(&mut self, by: u32) -> Result<(), CoreFault>
        ensures step { IsStep self.old self.new (event by Happened.Started) result }
        ensures fixed { KeepsFixed self.old self.new }
    {
        let at = self.place()?;
        let tried = Tried::started();
        let made = self.holdings.started(by);
        keep(&mut self.refusal, by, at, tried, made)
    }

    /// The daemon could not be started. True at the eighth such step without a start between: then
    /// no other start is to be tried, which the same step tells in an event of its own.
    pub fn start_failed(&mut self, by: u32) -> Result<bool, CoreFault>
        ensures step { IsStep self.old self.new (event by Happened.StartFailed) result }
        ensures lost { IfOk result (λ lost.
            lost ≡ (failures self.old.sheet.events + 1 == most_failures)) }
        ensures fixed { KeepsFixed self.old self.new }
    {
        let at = self.place()?;
        let tried = Tried::start_failed();
        let made = self.holdings.start_failed(by);
        keep(&mut self.refusal, by, at, tried, made)
    }
}

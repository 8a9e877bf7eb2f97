ghost use Rattle.std.specs.Prelude.{◌≡◌, ◌+◌, false, length, IfOk};
ghost use Rattle.ci_journal.specs.Folds.{requests_in, is_opened, is_replied};
ghost use Rattle.ci_journal.specs.Step.{MaySay};
ghost use Rattle.ci_journal.specs.Tells.{event};
ghost use Rattle.ci_holdings.specs.Refusals.{Tries};

use crate::answering::close_question;
use crate::{Holdings, waiting};
use ci_book::CoreFault;
use ci_io::Sink;
use ci_journal::{Event, Happened, Reply, Request, asked_bytes};

impl<K: Sink + Drop> Holdings<K> {
    /// A request is asked, and gets the next number, from 1.
    pub fn ask(&mut self, by: u32, request: Request) -> Result<u64, CoreFault>
        requires { by ≡ 0 }
        ensures id { IfOk result (λ id. id ≡ length (requests_in self.old.sheet.events) + 1) }
        ensures unreplied { IfOk result (λ id. is_replied self.new.sheet.events id ≡ false) }
        ensures unopened { IfOk result (λ id. is_opened self.new.sheet.events id ≡ false) }
        ensures step { let id = length (requests_in self.old.sheet.events) + 1 in
            Tries self.old self.new (event by (Happened.Asked id request)) result }
    {
        let id = self.requests + 1;
        self.book.prepare(self.places, asked_bytes(&request))?;
        let tree = waiting::asked_tree(self.alloc, &request, &self.noise)?;
        self.replied.prepare()?;
        waiting::enqueue(&mut self.waiting, id, tree)?;
        self.replied.ask();
        self.requests = id;
        self.book.add(Event {
            by,
            what: Happened::Asked { id, request },
        });
        Ok(id)
    }

    /// The reply to a request is printed.
    pub fn say(&mut self, by: u32, id: u64, reply: Reply) -> Result<(), CoreFault>
        requires { MaySay self.old.sheet.events id }
        ensures step { Tries self.old self.new (event by (Happened.Said id reply)) result }
    {
        let event = Event {
            by,
            what: Happened::Said { id, reply },
        };
        let lines = self.book.enter(self.alloc, self.places, event)?;
        self.replied.mark(id);
        self.replies += 1;
        close_question(&mut self.questions, id);
        self.book.write(&lines)?;
        Ok(())
    }
}

ghost use Rattle.std.specs.Prelude.{ℕ, IfOk, IfErr};
ghost use Rattle.ci_dialect.specs.declared.restriction.Restriction.{Restriction as Tree};
ghost use Rattle.ci_journal.specs.Queries.{IsFirstWaiting};
ghost use Rattle.ci_journal.specs.Step.{MayAnswer};
ghost use Rattle.ci_journal.specs.Tells.{event};
ghost use Rattle.ci_holdings.specs.Opening.{OpensFirst};
ghost use Rattle.ci_holdings.specs.Refusals.{Halts, Tries};

use crate::answering::{close_question, keep_question};
use crate::{Holdings, Question, waiting};
use ci_book::CoreFault;
use ci_documents::{SharedPlain, plain_list};
use ci_io::Sink;
use ci_journal::{EVENT_BYTES, Event, Happened, Paths};

impl<K: Sink + Drop> Holdings<K> {
    /// Opens the first query that waits, if one does.
    pub fn open_query(&mut self, by: u32) -> Result<Option<Question>, CoreFault>
        ensures ok { IfOk result (OpensFirst self.old self.new by) }
        ensures refused { IfErr result (λ fault. (id : ℕ) (tree : Tree)
            → IsFirstWaiting self.old.terms self.old.sheet.events id tree
            → Halts self.old self.new (event by (Happened.Opened id)) fault) }
    {
        let Some(first) = waiting::first_waiting(&self.waiting) else {
            return Ok(None);
        };
        // The tree is copied here, and the want of memory for it told behind that of the bound.
        let id = first.id;
        let tree = first.tree.copy(self.alloc);
        self.book.prepare(self.places, EVENT_BYTES)?;
        let tree = tree?;
        let plain = SharedPlain::new(self.alloc, plain_list(self.alloc, &self.documents)?)?;
        let at = self.book.journal().events().len() as u64 + 1;
        let question = Question {
            id,
            at,
            tree,
            plain,
        };
        keep_question(&mut self.questions, question.copy(self.alloc)?)?;
        self.waiting.pop_front();
        self.book.add(Event {
            by,
            what: Happened::Opened { id },
        });
        Ok(Some(question))
    }

    /// The hits of a query that is open are printed.
    pub fn answer(&mut self, by: u32, id: u64, at: u64, paths: Paths) -> Result<(), CoreFault>
        requires { MayAnswer self.old.terms self.old.sheet.events id at paths }
        ensures step { Tries self.old self.new (event by (Happened.Answered id at paths)) result }
    {
        let event = Event {
            by,
            what: Happened::Answered { id, at, paths },
        };
        let lines = self.book.enter(self.alloc, self.places, event)?;
        self.replied.mark(id);
        self.replies += 1;
        close_question(&mut self.questions, id);
        self.book.write(&lines)?;
        Ok(())
    }
}

ghost use Rattle.std.specs.Prelude.{◌≡◌, ◌≤◌, ◌+◌, false, None, length, IfOk, IfErr, OnOk, IsErrOf};
ghost use Rattle.ci_journal.specs.Folds.{is_numbered, requests_in, next_notice, is_opened, is_replied};
ghost use Rattle.ci_journal.specs.declared.event.Happened.{Happened};
ghost use Rattle.ci_journal.specs.Step.{MayPut, MayAnswer, MaySay};
ghost use Rattle.ci_journal.specs.Tells.{event};
ghost use Rattle.ci_book.specs.Changes.{noted};
ghost use Rattle.ci_core.specs.Erasing.{Erases, RefusesErasing};
ghost use Rattle.ci_core.specs.Fixed.{KeepsFixed};
ghost use Rattle.ci_holdings.specs.Opening.{OpensFirst, RefusesOpening};
ghost use Rattle.ci_holdings.specs.Refusals.{IsOver, IsStep};
ghost use Rattle.ci_holdings.specs.Steps.{IsUnrefused};

use crate::Catalog;
use ci_base::{PathText, Seq};
use ci_book::{CoreFault, Tried, keep};
use ci_chunk::Transcript;
use ci_holdings::Question;
use ci_io::Sink;
use ci_journal::{Paths, Reply, Request, What};

impl<K: Sink + Drop> Catalog<K> {
    /// A request is asked, and gets the next number, from 1.
    pub fn ask(&mut self, by: u32, request: Request) -> Result<u64, CoreFault>
        requires { by ≡ 0 }
        ensures id { IfOk result (λ id. id ≡ length (requests_in self.old.sheet.events) + 1) }
        ensures unreplied { IfOk result (λ id. is_replied self.new.sheet.events id ≡ false) }
        ensures unopened { IfOk result (λ id. is_opened self.new.sheet.events id ≡ false) }
        ensures step { let id = length (requests_in self.old.sheet.events) + 1 in
            IsStep self.old self.new (event by (Happened.Asked id request)) result }
        ensures fixed { KeepsFixed self.old self.new }
    {
        let at = self.place()?;
        let tried = Tried::asked(self.holdings.next_request(), &request);
        let made = self.holdings.ask(by, request);
        keep(&mut self.refusal, by, at, tried, made)
    }

    /// A notice of the path is noted, and gets the next number, from 1.
    pub fn note(&mut self, by: u32, path: &PathText, what: What) -> Result<Seq, CoreFault>
        requires { by ≡ 0 }
        ensures seq { IfOk result (λ seq. seq.0 ≡ next_notice self.old.terms self.old.sheet.events) }
        ensures step { let number = next_notice self.old.terms self.old.sheet.events in
            IsStep self.old self.new (noted by path.now number what) result }
        ensures fixed { KeepsFixed self.old self.new }

        // Too many documents are told exactly where the path is new, and no more may come.
        ensures crowded { self.old.refusal ≡ None →
            is_numbered self.old.numbered path.now ≡ false →
            self.old.most ≤ length self.old.numbered →
            IsErrOf result CoreFault.TooManyDocuments }
    {
        let at = self.place()?;
        let tried = Tried::noted(path, self.holdings.next_notice(), what);
        let made = self.holdings.note(by, path, what);
        keep(&mut self.refusal, by, at, tried, made)
    }

    /// The transcript is taken as the document's filtering under its latest notice.
    pub fn put(
        &mut self,
        by: u32,
        path: &PathText,
        seq: Seq,
        transcript: Transcript,
    ) -> Result<(), CoreFault>
        requires { MayPut self.old.terms self.old.sheet.events by
            (record { path = path.now; seq = seq; what = What.Changed }) }
        ensures step { IsStep self.old self.new
            (event by (Happened.Put path.now seq transcript)) result }
        ensures fixed { KeepsFixed self.old self.new }
    {
        let at = self.place()?;
        let tried = Tried::put(path, seq, &transcript);
        let made = self.holdings.put(by, path, seq, transcript);
        keep(&mut self.refusal, by, at, tried, made)
    }

    /// The document is taken away, where a deletion of it is pending. False where none is.
    pub fn erase(&mut self, by: u32, path: &PathText) -> Result<bool, CoreFault>
        ensures ok { IfOk result (Erases self.old self.new by path.now) }
        ensures unrefused { OnOk result (IsUnrefused self.old self.new) }
        ensures refused { IfErr result (RefusesErasing self.old self.new by path.now) }
        ensures fixed { KeepsFixed self.old self.new }
    {
        let at = self.place()?;
        let Some(seq) = self.holdings.deletion(path) else {
            return Ok(false);
        };
        let tried = Tried::erased(path, seq);
        let made = self.holdings.erase(by, path, seq);
        keep(&mut self.refusal, by, at, tried, made)?;
        Ok(true)
    }

    /// Opens the first query that waits, if one does.
    pub fn open_query(&mut self, by: u32) -> Result<Option<Question>, CoreFault>
        ensures ok { IfOk result (OpensFirst self.old self.new by) }
        ensures unrefused { OnOk result (IsUnrefused self.old self.new) }
        ensures refused { IfErr result (RefusesOpening self.old self.new by) }
        ensures fixed { KeepsFixed self.old self.new }
    {
        let at = self.place()?;
        let Some(id) = self.holdings.first_waiting() else {
            return Ok(None);
        };
        let tried = Tried::opened(id);
        let made = self.holdings.open_query(by);
        keep(&mut self.refusal, by, at, tried, made)
    }

    /// The hits of a query that is open are printed.
    pub fn answer(&mut self, by: u32, id: u64, at: u64, paths: Paths) -> Result<(), CoreFault>
        requires { MayAnswer self.old.terms self.old.sheet.events id at paths }
        ensures step { IsStep self.old self.new
            (event by (Happened.Answered id at paths)) result }
        ensures fixed { KeepsFixed self.old self.new }
    {
        let place = self.place()?;
        let tried = Tried::answered(id, at, &paths);
        let made = self.holdings.answer(by, id, at, paths);
        keep(&mut self.refusal, by, place, tried, made)
    }

    /// The reply to a request is printed.
    pub fn say(&mut self, by: u32, id: u64, reply: Reply) -> Result<(), CoreFault>
        requires { MaySay self.old.sheet.events id }
        ensures step { IsStep self.old self.new (event by (Happened.Said id reply)) result }
        ensures fixed { KeepsFixed self.old self.new }
    {
        let at = self.place()?;
        let tried = Tried::said(id, &reply);
        let made = self.holdings.say(by, id, reply);
        keep(&mut self.refusal, by, at, tried, made)
    }

    // How many events stand in the journal, unless a step was refused.
    pub(crate) fn place(&self) -> Result<u64, CoreFault>
        ensures at { IfOk result (λ at. at ≡ length self.now.sheet.events) }
        ensures unrefused { OnOk result (self.now.refusal ≡ None) }
        ensures ended { IfErr result (IsOver self.now self.now) }
    {
        if self.refusal.is_some() {
            return Err(CoreFault::Ended);
        }
        Ok(self.holdings.journal().events().len() as u64)
    }
}

ghost use Rattle.std.specs.Prelude.{◌≡◌, ◌↔◌, ◌<◌, ◌+◌, ◌-◌, ◌^◌, true, length, map, IfOk, IfNone, IfSome};
ghost use Rattle.std.specs.FinMap.{entries};
ghost use Rattle.ci_base.specs.declared.numbers.Seq.{Seq};
ghost use Rattle.ci_change.specs.Pending.{ListsByPath, ListsPaths, paths_of};
ghost use Rattle.ci_journal.specs.Folds.{requests_in, next_notice, is_replied, reply_numbers};
ghost use Rattle.ci_journal.specs.Pending.{free, pending, unfiltered};
ghost use Rattle.ci_journal.specs.Queries.{IsFirstWaiting};
ghost use Rattle.ci_journal.specs.Served.{live_map};
ghost use Rattle.ci_journal.specs.Step.{MayErase, MaySay};
ghost use Rattle.ci_dialect.specs.declared.restriction.Restriction.{Restriction as Tree};
ghost use Rattle.ci_holdings.specs.Opening.{NoneWaits};

use crate::{Holdings, waiting};
use ci_base::{OutOfMemory, PathText, Seq};
use ci_change::What;
use ci_documents::paths_of;
use ci_io::Sink;
use ci_journal::{Notices, Paths};

impl<K: Sink + Drop> Holdings<K> {
    /// The number of the next request.
    pub fn next_request(&self) -> u64
        ensures { result ≡ length (requests_in self.now.sheet.events) + 1 }
    {
        self.requests + 1
    }

    /// The number of the next notice.
    pub fn next_notice(&self) -> Seq
        ensures { result ≡ record { 0 = next_notice self.now.terms self.now.sheet.events } }
    {
        Seq(self.noted + 1)
    }

    /// The number of the path's deletion, if one is pending.
    pub fn deletion(&self, path: &PathText) -> Option<Seq>
        ensures some { IfSome result (MayErase self.now.terms self.now.sheet.events path.now) }
        ensures none { IfNone result
            ((seq : Seq) → ¬ MayErase self.now.terms self.now.sheet.events path.now seq) }
    {
        match self.changes.unserved_of(path) {
            Some((seq, What::Deleted)) => Some(seq),
            Some((_, What::Changed)) => None,
            None => None,
        }
    }

    /// The number of the query that waits longest, if one waits.
    pub fn first_waiting(&self) -> Option<u64>
        ensures some { IfSome result (λ id. (tree : Tree)
            × IsFirstWaiting self.now.terms self.now.sheet.events id tree) }
        ensures none { IfNone result (NoneWaits self.now.terms self.now.sheet.events) }
    {
        match waiting::first_waiting(&self.waiting) {
            Some(first) => Some(first.id),
            None => None,
        }
    }

    /// The pending notices, in byte order of their paths.
    pub fn pending(&self) -> Result<Notices, OutOfMemory>
        ensures { IfOk result (λ list. ListsByPath (pending self.now.terms self.now.sheet.events) list) }
    {
        Ok(Notices::from(self.changes.pending()?))
    }

    /// How many documents are free: their changes are pending, and no batch that is out has them.
    pub fn free(&self) -> u64
        ensures { result ≡ length (free self.now.terms self.now.sheet.events) }
    {
        self.changes.free() as u64
    }

    /// The paths of the documents that are set aside as unfiltered, in byte order.
    pub fn unfiltered(&self) -> Result<Paths, OutOfMemory>
        ensures paths { let paths = paths_of (unfiltered self.now.terms self.now.sheet.events) in
            IfOk result (λ list. ListsPaths paths list) }
        ensures few { IfOk result (λ list. length list < 2 ^ 32) }
    {
        Ok(Paths::from(self.changes.unfiltered()?))
    }

    /// The paths of the documents, in byte order.
    pub fn paths(&self) -> Result<Paths, OutOfMemory>
        ensures { IfOk result (λ paths. paths
            ≡ map (λ d. d.0) (entries (live_map self.now.terms self.now.sheet.events))) }
    {
        paths_of(self.alloc, &self.documents)
    }

    /// How many requests have no reply.
    pub fn waiting(&self) -> u64
        ensures { result
            ≡ length (requests_in self.now.sheet.events) - length (reply_numbers self.now.sheet.events) }
    {
        self.requests.saturating_sub(self.replies)
    }

    /// Whether the request was asked and has no reply.
    pub fn can_say(&self, id: u64) -> bool
        ensures { (result ≡ true) ↔ MaySay self.now.sheet.events id }
    {
        id != 0 && id <= self.requests && !self.replied.has(id)
    }

    /// Whether the request was asked and has its reply.
    pub fn replied(&self, id: u64) -> bool
        ensures { result ≡ is_replied self.now.sheet.events id }
    {
        self.replied.has(id)
    }
}

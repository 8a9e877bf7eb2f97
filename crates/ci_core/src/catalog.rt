ghost use Rattle.std.specs.Prelude.{◌≡◌, ◌↔◌, ◌<◌, ◌-◌, ◌^◌, [], None, true, length, map, IfOk, IfErr, IfSome};
ghost use Rattle.std.specs.FinMap.{entries};
ghost use Rattle.std.specs.Option.{option_copied, option_map};
ghost use Rattle.ci_change.specs.Pending.{ListsByPath, ListsPaths, paths_of};
ghost use Rattle.ci_journal.specs.Folds.{requests_in, is_replied, reply_numbers};
ghost use Rattle.ci_journal.specs.Pending.{free, pending, unfiltered};
ghost use Rattle.ci_journal.specs.Served.{live_map};
ghost use Rattle.ci_journal.specs.Step.{MayAnswer, MaySay, Run};
ghost use Rattle.ci_book.specs.Book.{IsWithin};
ghost use Rattle.ci_core.specs.Catalog.{IsCaused, NumbersAfter};
ghost use Rattle.ci_holdings.specs.Core.{terms_of};
ghost use Rattle.ci_core.specs.Fixed.{HasFixed};
ghost use Rattle.ci_holdings.specs.Kept.{StartsEmpty};

use crate::{Closed, NoCatalog};
use ci_base::OutOfMemory;
use ci_book::{CoreFault, Refusal, Settings};
use ci_holdings::Holdings;
use ci_io::Sink;
use ci_journal::{Journal, Notices, Paths};
use ci_words::NoiseList;
use std::alloc::Global;
use std::marker::Model;

/// The documents and the journal of what happened to them. Once a step was refused, every further
/// step answers `Ended`.
#[derive(Drop)]
pub struct Catalog<K: Sink + Drop> {
    pub(crate) holdings: Holdings<K>,
    pub(crate) refusal: Option<Refusal>,
}

impl<K: Sink + Drop> Model for Catalog<K> {
    ghost use Rattle.ci_holdings.specs.Core.{Core};
    ghost use Rattle.ci_core.specs.Catalog.{IsCatalog};

    ghost Value = { Core };

    ghost view = { λ c. record c.holdings { refusal = c.refusal } };

    ghost invariant = { λ c. IsCatalog (record c.holdings { refusal = c.refusal }) };
}

impl<K: Sink + Drop> Catalog<K> {
    /// A catalogue without documents, whose journal is empty.
    pub fn new(alloc: Global, sink: K, settings: &Settings) -> Result<Catalog<K>, NoCatalog<K>>
        ensures events { IfOk result (λ c. c.sheet.events ≡ []) }
        ensures numbered { IfOk result (λ c. c.numbered ≡ []) }
        ensures unrefused { IfOk result (λ c. c.refusal ≡ None) }
        ensures fixed { IfOk result (HasFixed (record {
          limit = settings.now.journal;
          most = settings.now.documents;
          terms = terms_of settings.now.noise settings.now.retries;
          written = K.written sink;
          faults = K.faults sink;
        })) }
        ensures err { IfErr result (λ e. e.sink ≡ sink) }
    {
        match settings.noise.copy(alloc) {
            Ok(noise) => Ok(Catalog {
                holdings: Holdings::new(alloc, sink, settings, noise),
                refusal: None,
            }),
            Err(_) => Err(NoCatalog { sink }),
        }
    }

    /// The pending notices, in byte order of their paths.
    pub fn pending(&self) -> Result<Notices, OutOfMemory>
        ensures { IfOk result (λ list. ListsByPath (pending self.now.terms self.now.sheet.events) list) }
    {
        self.holdings.pending()
    }

    /// How many documents are free: their changes are pending, and no batch that is out has them.
    pub fn free(&self) -> u64
        ensures { result ≡ length (free self.now.terms self.now.sheet.events) }
    {
        self.holdings.free()
    }

    /// The paths of the documents that are set aside as unfiltered, in byte order.
    pub fn unfiltered(&self) -> Result<Paths, OutOfMemory>
        ensures paths { let paths = paths_of (unfiltered self.now.terms self.now.sheet.events) in
            IfOk result (λ list. ListsPaths paths list) }
        ensures few { IfOk result (λ list. length list < 2 ^ 32) }
    {
        self.holdings.unfiltered()
    }

    /// The paths of the documents, in byte order.
    pub fn paths(&self) -> Result<Paths, OutOfMemory>
        ensures { IfOk result (λ paths. paths
            ≡ map (λ d. d.0) (entries (live_map self.now.terms self.now.sheet.events))) }
    {
        self.holdings.paths()
    }

    /// How many requests have no reply.
    pub fn waiting(&self) -> u64
        ensures { result
            ≡ length (requests_in self.now.sheet.events) - length (reply_numbers self.now.sheet.events) }
    {
        self.holdings.waiting()
    }

    /// Whether the request was asked and has no reply.
    pub fn can_say(&self, id: u64) -> bool
        ensures { (result ≡ true) ↔ MaySay self.now.sheet.events id }
    {
        self.holdings.can_say(id)
    }

    /// Whether the request was asked and has its reply.
    pub fn replied(&self, id: u64) -> bool
        ensures { result ≡ is_replied self.now.sheet.events id }
    {
        self.holdings.replied(id)
    }

    /// Whether these paths answer a query that was opened right before the place, and that has no
    /// reply.
    pub fn can_answer(&self, id: u64, at: u64, paths: &Paths) -> Result<bool, OutOfMemory>
        ensures { IfOk result (λ can. (can ≡ true)
            ↔ MayAnswer self.now.terms self.now.sheet.events id at paths.now) }
    {
        self.holdings.can_answer(id, at, paths)
    }

    /// Why the first step that was refused was so. None where no step was.
    pub fn fault(&self) -> Option<&CoreFault>
        ensures { option_copied result ≡ option_map (λ r. r.fault) self.now.refusal }
    {
        match &self.refusal {
            Some(refusal) => Some(&refusal.fault),
            None => None,
        }
    }

    /// The first refusal: its cause, its author, its place, and what it would have told. The cause
    /// holds of the catalogue as it is now.
    pub fn refusal(&self) -> Option<&Refusal>
        ensures first { option_copied result ≡ self.now.refusal }
        ensures cause { IfSome result (λ r. IsCaused self.now r.now) }
    {
        self.refusal.as_ref()
    }

    /// The journal of a session that found nothing, which is a run of steps. It is within its bound,
    /// but for ends of batches, and the numbered paths are those that it notes, unless memory was
    /// wanted.
    pub fn journal(&self) -> &Journal
        ensures events { result.now.list ≡ self.now.sheet.events }
        ensures run { Run self.now.terms result.now.list }
        ensures starts { StartsEmpty self.now.terms }
        ensures within { IsWithin self.now.sheet.limit result.now.list }
        ensures numbered { NumbersAfter self.now self.now.refusal }
    {
        self.holdings.journal()
    }

    /// The words that are passed over.
    pub fn noise(&self) -> &NoiseList
        ensures noise { result.now ≡ self.now.terms.noise }
        ensures terms { self.now.terms ≡ terms_of result.now self.now.terms.retries }
    {
        self.holdings.noise()
    }

    /// Hands out the journal and the sink, as they are.
    pub fn close(self) -> Closed<K>
        ensures journal { result.journal.list ≡ self.sheet.events }
        ensures written { K.written result.sink ≡ self.sheet.written }
        ensures faults { K.faults result.sink ≡ self.sheet.faults }
        ensures run { Run self.terms result.journal.list }
        ensures within { IsWithin self.sheet.limit result.journal.list }
    {
        let (journal, sink) = self.holdings.close();
        Closed { journal, sink }
    }
}

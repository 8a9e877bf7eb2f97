ghost use Rattle.std.specs.Prelude.{◌≡◌, []};
ghost use Rattle.ci_journal.specs.Step.{Run};
ghost use Rattle.ci_book.specs.Book.{IsWithin};
ghost use Rattle.ci_holdings.specs.Core.{terms_of};
ghost use Rattle.ci_holdings.specs.Kept.{StartsEmpty};

use crate::{Question, Replied, Waiting};
use ci_book::{Book, Settings};
use ci_change::ChangeList;
use ci_documents::Documents;
use ci_io::Sink;
use ci_journal::Journal;
use ci_paths::Numbers;
use ci_words::NoiseList;
use std::alloc::Global;
use std::collections::{BTreeMap, VecDeque};
use std::marker::Model;

/// The documents, the notices of them that are pending, the queries that wait or are open, and the
/// journal of what happened to them, with the sink that replies are printed to.
#[derive(Drop)]
pub struct Holdings<K: Sink + Drop> {
    pub(crate) alloc: Global,
    pub(crate) noise: NoiseList,
    /// How often a document is tried.
    pub(crate) retries: u32,
    pub(crate) most: u32,
    pub(crate) book: Book<K>,
    pub(crate) documents: Documents,
    pub(crate) changes: ChangeList,
    pub(crate) numbers: Numbers,
    pub(crate) waiting: VecDeque<Waiting>,
    pub(crate) questions: Vec<Question>,
    pub(crate) replied: Replied,
    pub(crate) requests: u64,
    pub(crate) replies: u64,
    pub(crate) noted: u64,
    pub(crate) begun: u64,
    /// One place for the next event, and one for the end of each batch that is out.
    pub(crate) places: usize,
    /// The starts of the daemon that failed since the last that came.
    pub(crate) failed: u64,
}

impl<K: Sink + Drop> Model for Holdings<K> {
    ghost use Rattle.std.specs.Prelude.{◌≡◌, None, map};
    ghost use Rattle.ci_holdings.specs.Core.{Core, terms_of};
    ghost use Rattle.ci_holdings.specs.Kept.{IsHolding, Shelf};

    ghost Value = { Core };

    ghost view = { λ h. record {
      sheet = h.book;
      terms = terms_of h.noise h.retries;
      most = h.most;
      numbered = map (λ e. e.0) h.numbers.numbered;
      refusal = None;
    } };

    ghost invariant = { λ h. (h.numbers.limit ≡ h.most)
        × IsHolding (terms_of h.noise h.retries) h.book (record {
          documents = h.documents.entries;
          changes = h.changes;
          waiting = h.waiting.items;
          questions = h.questions.items;
          marks = h.replied;
          requests = h.requests;
          replies = h.replies;
          noted = h.noted;
          begun = h.begun;
          places = h.places;
          failed = h.failed;
        }) };
}

impl<K: Sink + Drop> Holdings<K> {
    /// No document, and an empty journal.
    pub fn new(alloc: Global, sink: K, settings: &Settings, noise: NoiseList) -> Holdings<K>
        requires { noise ≡ settings.now.noise }
        ensures events { result.sheet.events ≡ [] }
        ensures limit { result.sheet.limit ≡ settings.now.journal }
        ensures written { result.sheet.written ≡ K.written sink }
        ensures faults { result.sheet.faults ≡ K.faults sink }
        ensures terms { result.terms
            ≡ terms_of settings.now.noise settings.now.retries }
        ensures most { result.most ≡ settings.now.documents }
        ensures numbered { result.numbered ≡ [] }
    {
        Holdings {
            alloc,
            noise,
            retries: settings.retries,
            most: settings.documents,
            book: Book::new(alloc, sink, settings.journal),
            documents: BTreeMap::new(alloc),
            changes: ChangeList::new(alloc, settings.retries),
            numbers: Numbers::new(alloc, settings.documents),
            waiting: VecDeque::new(alloc),
            questions: Vec::new(alloc),
            replied: Replied::new(alloc),
            requests: 0,
            replies: 0,
            noted: 0,
            begun: 0,
            places: 1,
            failed: 0,
        }
    }

    pub fn journal(&self) -> &Journal
        ensures events { result.now.list ≡ self.now.sheet.events }
        ensures run { Run self.now.terms result.now.list }
        ensures starts { StartsEmpty self.now.terms }
        ensures within { IsWithin self.now.sheet.limit result.now.list }
    {
        self.book.journal()
    }

    /// The words that are passed over.
    pub fn noise(&self) -> &NoiseList
        ensures noise { result.now ≡ self.now.terms.noise }
        ensures terms { self.now.terms ≡ terms_of result.now self.now.terms.retries }
    {
        &self.noise
    }

    /// Hands out the journal and the sink, as they are.
    pub fn close(self) -> (Journal, K)
        ensures journal { result.0.list ≡ self.sheet.events }
        ensures written { K.written result.1 ≡ self.sheet.written }
        ensures faults { K.faults result.1 ≡ self.sheet.faults }
        ensures run { Run self.terms result.0.list }
        ensures within { IsWithin self.sheet.limit result.0.list }
    {
        self.book.close()
    }
}

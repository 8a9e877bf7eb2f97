ghost use Rattle.std.specs.Prelude.{◌≡◌, ◌≤◌, ◌+◌, ◌&&◌, false, length, nat_le, not, IfOk, IsErrOf};
ghost use Rattle.ci_journal.specs.Folds.{is_numbered, next_notice};
ghost use Rattle.ci_journal.specs.Step.{MayPut, MayErase};
ghost use Rattle.ci_journal.specs.Tells.{event};
ghost use Rattle.ci_book.specs.Changes.{noted};
ghost use Rattle.ci_holdings.specs.Refusals.{Tries};

use crate::Holdings;
use ci_base::{PathText, Seq};
use ci_book::CoreFault;
use ci_change::{Notice, What};
use ci_chunk::Transcript;
use ci_documents::{SharedEntry, make_place, serve, take_away};
use ci_entry::entry_of;
use ci_io::Sink;
use ci_journal::{Event, Happened, erased_bytes, noted_bytes, put_bytes};

impl<K: Sink + Drop> Holdings<K> {
    /// A notice of the path is noted, and gets the next number, from 1.
    pub fn note(&mut self, by: u32, path: &PathText, what: What) -> Result<Seq, CoreFault>
        requires { by ≡ 0 }
        ensures seq { IfOk result (λ seq. seq.0 ≡ next_notice self.old.terms self.old.sheet.events) }
        ensures step { let number = next_notice self.old.terms self.old.sheet.events in
            Tries self.old self.new (noted by path.now number what) result }

        // Too many documents are told exactly where the path is new, and no more may come.
        ensures crowded { is_numbered self.old.numbered path.now ≡ false →
            self.old.most ≤ length self.old.numbered →
            IsErrOf result CoreFault.TooManyDocuments }
    {
        if self.is_crowded(path) {
            return Err(CoreFault::TooManyDocuments);
        }
        let seq = Seq(self.noted + 1);
        self.book.prepare(self.places, noted_bytes(path))?;
        let copied = path.copy(self.alloc)?;
        self.numbers.number(path)?;
        self.changes.note(path, seq, what)?;
        self.noted = seq.0;
        self.book.add(Event {
            by,
            what: Happened::Noted {
                notice: Notice {
                    path: copied,
                    seq,
                    what,
                },
            },
        });
        Ok(seq)
    }

    // Whether the path is new, and no more paths may be numbered.
    fn is_crowded(&self, path: &PathText) -> bool
        ensures { result ≡ (not (is_numbered self.now.numbered path.now)
            && nat_le self.now.most (length self.now.numbered)) }
    {
        self.numbers.find(path).is_none() && self.most <= self.numbers.len()
    }

    /// The transcript is taken as the document's filtering under its latest notice.
    pub fn put(
        &mut self,
        by: u32,
        path: &PathText,
        seq: Seq,
        transcript: Transcript,
    ) -> Result<(), CoreFault>
        requires { MayPut self.old.terms self.old.sheet.events by
            (record { path = path.now; seq = seq; what = What.Changed }) }
        ensures step { Tries self.old self.new
            (event by (Happened.Put path.now seq transcript)) result }
    {
        self.book
            .prepare(self.places, put_bytes(path, &transcript))?;
        let entry = entry_of(self.alloc, &transcript, &self.noise)?;
        let entry = SharedEntry::new(self.alloc, entry)?;
        let copied = path.copy(self.alloc)?;
        make_place(self.alloc, &mut self.documents, path)?;
        let served = self.changes.served_of(path);
        self.changes.served(path, seq)?;
        serve(&mut self.documents, path, served, seq, entry);
        self.book.add(Event {
            by,
            what: Happened::Put {
                path: copied,
                seq,
                transcript,
            },
        });
        Ok(())
    }

    /// The document is taken away under the number of its deletion, which is pending.
    pub fn erase(&mut self, by: u32, path: &PathText, seq: Seq) -> Result<(), CoreFault>
        requires { MayErase self.old.terms self.old.sheet.events path.now seq }
        ensures step { Tries self.old self.new (event by (Happened.Erased path.now seq)) result }
    {
        self.book.prepare(self.places, erased_bytes(path))?;
        let copied = path.copy(self.alloc)?;
        self.changes.served(path, seq)?;
        take_away(&mut self.documents, path);
        self.book.add(Event {
            by,
            what: Happened::Erased { path: copied, seq },
        });
        Ok(())
    }
}

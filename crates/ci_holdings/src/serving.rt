ghost use Rattle.std.specs.Prelude.{◌≡◌, true, nat_lt, length, map, All, IsTrue, IfOk, OnOk};
ghost use Rattle.ci_change.specs.HandedIn.{is_known, with_served};
ghost use Rattle.ci_change.specs.Pending.{served_number};
ghost use Rattle.ci_documents.specs.Documents.{KeepsEntries, Serves, StandFor, has_place};
ghost use Rattle.ci_journal.specs.Terms.{Served};
ghost use Rattle.ci_holdings.specs.Serving.{IsSettledBy, settle_all, tell, tell_all, verdict_of};

use ci_base::{OutOfMemory, PathText, Seq};
use ci_change::ChangeList;
use ci_documents::{Documents, SharedEntry, make_place, serve};
use ci_entry::entry_of;
use ci_journal::Outcome;
use ci_words::NoiseList;
use std::alloc::Global;
use std::collections::VecDeque;

/// What an outcome comes to: the entry of what was read, an attempt that failed, or a refusal.
#[derive(Drop)]
pub enum Verdict {
    Filtered(SharedEntry),
    Failed,
    Refused,
}

/// What outcomes come to, in order.
pub fn verdicts_of(
    alloc: Global,
    outcomes: &[Outcome],
    noise: &NoiseList,
) -> Result<VecDeque<Verdict>, OutOfMemory>
    ensures { IfOk result (λ verdicts. verdicts.items ≡ map (verdict_of noise.now) outcomes.now) }
{
    let mut verdicts = VecDeque::new(alloc);
    for outcome in outcomes {
        verdicts.push_back(verdict_of(alloc, outcome, noise)?)?;
    }
    Ok(verdicts)
}

fn verdict_of(alloc: Global, outcome: &Outcome, noise: &NoiseList) -> Result<Verdict, OutOfMemory>
    ensures { IfOk result (λ verdict. verdict ≡ verdict_of noise.now outcome.now) }
{
    match outcome {
        Outcome::Done(transcript) => {
            let entry = entry_of(alloc, transcript, noise)?;
            Ok(Verdict::Filtered(SharedEntry::new(alloc, entry)?))
        }
        Outcome::Failed(_) => Ok(Verdict::Failed),
        Outcome::Refused(_) => Ok(Verdict::Refused),
    }
}

/// Makes room for the entries of these documents.
pub fn make_places(
    alloc: Global,
    documents: &mut Documents,
    docs: &[(PathText, Seq)],
) -> Result<(), OutOfMemory>
    ensures keeps { KeepsEntries documents.old.entries documents.new.entries }
    ensures places { OnOk result
        (All (λ doc. has_place documents.new.entries doc.0 ≡ true) docs.now) }
{
    for (path, _) in docs {
        make_place(alloc, documents, path)?;
    }
    Ok(())
}

/// IsSettledBy each document by its verdict, in the room that was made for its entry.
pub fn settle_all(
    changes: &mut ChangeList,
    documents: &mut Documents,
    docs: &[(PathText, Seq)],
    verdicts: VecDeque<Verdict>,
)
    requires each { length docs.now ≡ length verdicts.items }
    requires known { All (λ doc. IsTrue (is_known changes.old doc.0)) docs.now }
    requires places { All (λ doc. has_place documents.old.entries doc.0 ≡ true) docs.now }
    ensures changes { changes.new ≡ tell_all changes.old docs.now verdicts.items }
    ensures stands { (served : Served) → served.numbers ≡ changes.old.served →
        StandFor served.documents documents.old.entries →
        StandFor (settle_all served docs.now verdicts.items).documents documents.new.entries }
{
    let mut verdicts = verdicts;
    for (path, seq) in docs {
        let Some(verdict) = verdicts.pop_front() else {
            unreachable!()
        };
        settle(changes, documents, path, *seq, verdict);
    }
}

// An attempt that failed and a refusal leave the path the entry that it has.
fn settle(
    changes: &mut ChangeList,
    documents: &mut Documents,
    path: &PathText,
    seq: Seq,
    verdict: Verdict,
)
    requires known { IsTrue (is_known changes.old path.now) }
    requires place { has_place documents.old.entries path.now ≡ true }
    ensures changes { changes.new ≡ tell changes.old (path.now, seq) verdict }
    ensures settles { let counts = nat_lt (served_number changes.old.served path.now) seq.0 in
        IsSettledBy documents.old.entries documents.new.entries path.now counts verdict }
{
    match verdict {
        Verdict::Filtered(entry) => serve_one(changes, documents, path, seq, entry),
        Verdict::Failed => changes.charge(path, seq),
        Verdict::Refused => changes.refuse(path, seq),
    }
}

fn serve_one(
    changes: &mut ChangeList,
    documents: &mut Documents,
    path: &PathText,
    seq: Seq,
    entry: SharedEntry,
)
    requires known { IsTrue (is_known changes.old path.now) }
    requires place { has_place documents.old.entries path.now ≡ true }
    ensures changes { changes.new ≡ with_served changes.old path.now seq }
    ensures serves { let counts = nat_lt (served_number changes.old.served path.now) seq.0 in
        Serves documents.old.entries documents.new.entries path.now counts entry }
{
    let served = changes.served_of(path);
    match changes.served(path, seq) {
        Ok(()) => {}
        Err(_) => unreachable!(),
    }
    serve(documents, path, served, seq, entry);
}

ghost use Rattle.std.specs.Prelude.{ℕ, List, false, ◌≡◌, ◌==◌, ◌<◌, ◌≤◌, ◌↔◌, ◌&&◌, nat_lt, not, [], length, All, take, option_to_list, IsTrue, IsOk, IfOk, OnOk, OnErr};
ghost use Rattle.ci_change.specs.HandedIn.{numbered};
ghost use Rattle.ci_change.specs.Pending.{is_changed, is_out};
ghost use Rattle.ci_change.specs.Register.{IsOwn, Marks};
ghost use Rattle.ci_change.specs.Rows.{has_row};

use crate::past::Past;
use crate::register::Register;
use crate::{Batch, Docs, Notice, What};
use ci_base::{OutOfMemory, PathText, Seq};
use std::alloc::Global;
use std::marker::Model;

/// The notices of changed and deleted documents: which are pending, in the order in which they
/// came, and which batches of them are out. Contracts see what was handed in.
#[derive(Drop)]
pub struct ChangeList {
    alloc: Global,
    retries: u32,
    register: Register,
    out: Vec<Batch>,
    past: Past,
}

impl Model for ChangeList {
    ghost use Rattle.ci_change.specs.HandedIn.{HandedIn};
    ghost use Rattle.ci_change.specs.ChangeList.{IsMarked, IsUpToDate};

    ghost Value = { HandedIn };

    ghost view = { λ c. record {
      notices = c.past.notices;
      served = c.past.served;
      charges = c.past.charges;
      refusals = c.past.refusals;
      out = c.out.items;
      retries = c.retries;
    } };

    ghost invariant = { λ c.
        IsUpToDate c.past c.register c.retries × IsMarked c.register c.out.items };
}

impl ChangeList {
    ghost use Rattle.ci_change.specs.Charges.{attempts_at, with_charge, with_refusal};
    ghost use Rattle.ci_change.specs.HandedIn.{is_known, nothing, notice_of};
    ghost use Rattle.ci_change.specs.HandedIn.{with_notice, with_served};
    ghost use Rattle.ci_change.specs.HandedIn.{with_batch, without_batch};
    ghost use Rattle.ci_change.specs.Pending as spec;
    ghost use Rattle.ci_change.specs.Pending.{has_notice_of};
    ghost use Rattle.ci_change.specs.Register.{counted};

    /// Nothing handed in yet. A document is to be tried so many times.
    pub fn new(alloc: Global, retries: u32) -> ChangeList
        ensures { result ≡ nothing retries }
    {
        ChangeList {
            alloc,
            retries,
            register: Register::new(alloc),
            out: Vec::new(alloc),
            past: Past::new(),
        }
    }

    /// Another list, which contracts see as equal to this one.
    pub fn copy(&self, alloc: Global) -> Result<ChangeList, OutOfMemory>
        ensures { IfOk result (λ c. c ≡ self.now) }
    {
        Ok(ChangeList {
            alloc,
            retries: self.retries,
            register: self.register.copy(alloc)?,
            out: copy_batches(alloc, self.out.as_slice())?,
            past: self.past.copy(),
        })
    }

    /// The path's latest notice is this one, which comes last.
    pub fn note(&mut self, path: &PathText, seq: Seq, what: What) -> Result<(), OutOfMemory>
        requires { All (λ n. n.seq.0 < seq.0) self.old.notices }
        ensures ok { let notice = notice_of path.now seq what in
            OnOk result (self.new ≡ with_notice self.old notice) }
        ensures err { OnErr result (self.new ≡ self.old) }
    {
        let joins = is_to_try(what, self.retries);
        self.register.note(self.alloc, path, seq, what, joins)?;
        self.past = self.past.noted(path, seq, what);
        Ok(())
    }

    /// Takes out the first free notices, at most `max`, as a batch.
    pub fn take_batch(&mut self, number: u64, max: usize) -> Result<Batch, OutOfMemory>
        requires { 1 ≤ max }
        ensures batch { let docs = spec.docs_of (take max (spec.free self.old)) in
            IfOk result (λ b. b ≡ record { number = number; docs = docs }) }
        ensures out { IfOk result (λ b. self.new ≡ with_batch self.old b) }
        ensures empty { IfOk result (λ b. (b.docs ≡ []) ↔ (spec.free self.old ≡ [])) }
        ensures err { OnErr result (self.new ≡ self.old) }
    {
        let batch = Batch {
            number,
            docs: self.free_docs(max)?,
        };
        if !batch.docs.items().is_empty() {
            self.out.push(batch.copy(self.alloc)?)?;
            self.register.mark(batch.docs.items(), true);
            self.register.skip();
        }
        Ok(batch)
    }

    // The documents of the first free notices, at most so many.
    fn free_docs(&self, most: usize) -> Result<Docs, OutOfMemory>
        ensures { IfOk result (λ docs. docs ≡ spec.docs_of (take most (spec.free self.now))) }
    {
        self.register.free_docs(self.alloc, most)
    }

    /// Whether a batch could be taken that isn't empty.
    pub fn has_free(&self) -> bool
        ensures { result ≡ not (length (spec.free self.now) == 0) }
    {
        self.free() != 0
    }

    /// How many notices a batch could take.
    pub fn free(&self) -> usize
        ensures { result ≡ length (spec.free self.now) }
    {
        self.register.free()
    }

    /// The batch is out no more.
    pub fn give_back(&mut self, batch: &Batch)
        ensures { self.new ≡ without_batch self.old batch.now.number }
    {
        release(&mut self.register, self.out.as_slice(), batch.number);
        self.out.retain(|out| out.number != batch.number);
    }

    /// The notice of the path with this number was tried and failed. A charge that comes before its
    /// notice says nothing.
    pub fn charge(&mut self, path: &PathText, seq: Seq)
        ensures { self.new ≡ with_charge self.old path.now seq }
    {
        self.register.tried(path, seq, false, self.retries);
        self.past = self.past.charged(path, seq);
    }

    /// The filter refused the notice of the path with this number, which isn't tried again. A
    /// refusal that comes before its notice says nothing.
    pub fn refuse(&mut self, path: &PathText, seq: Seq)
        ensures { self.new ≡ with_refusal self.old path.now seq }
    {
        self.register.tried(path, seq, true, self.retries);
        self.past = self.past.refused(path, seq);
    }

    /// The path is served up to this number. That takes memory only for a path that is new.
    pub fn served(&mut self, path: &PathText, seq: Seq) -> Result<(), OutOfMemory>
        ensures ok { OnOk result (self.new ≡ with_served self.old path.now seq) }
        ensures err { OnErr result (self.new ≡ self.old) }
        ensures known { IsTrue (is_known self.old path.now) → IsOk result }
    {
        self.register.serve(self.alloc, path, seq)?;
        self.past = self.past.served(path, seq);
        Ok(())
    }

    /// The path's served number, or 0.
    pub fn served_of(&self, path: &PathText) -> Seq
        ensures { result ≡ record { 0 = spec.served_number self.now.served path.now } }
    {
        Seq(self.register.served_of(path))
    }

    /// How often the path's latest notice was tried and failed.
    pub fn attempts_of(&self, path: &PathText) -> u32
        ensures { result ≡ counted (attempts_at self.now path.now) }
    {
        self.register.attempts_of(path)
    }

    /// Whether the path is unfiltered: its unserved notice is set aside.
    pub fn unfiltered_of(&self, path: &PathText) -> bool
        ensures { result ≡ has_notice_of path.now (spec.unfiltered self.now) }
    {
        let is_set_aside = self.register.is_set_aside(path, self.retries);
        is_set_aside && self.unserved_of(path).is_some()
    }

    /// The number and the kind of the path's unserved notice, if it has one.
    pub fn unserved_of(&self, path: &PathText) -> Option<(Seq, What)>
        ensures { spec.kinds (spec.with_path path.now (spec.unserved self.now))
            ≡ option_to_list result }
    {
        self.register.unserved_of(path)
    }

    /// A copy of the pending notices, in byte order of their paths.
    pub fn pending(&self) -> Result<Vec<Notice>, OutOfMemory>
        ensures { IfOk result (λ list. spec.ListsByPath (spec.pending self.now) list.items) }
    {
        let mut list = self.register.pending(self.alloc, self.retries)?;
        list.sort_unstable_by(|a, b| a.path.cmp(&b.path));
        Ok(list)
    }

    /// The paths of the notices that are to be tried no more, in byte order: their filter refused
    /// them, or they failed as often as they are to be tried.
    pub fn unfiltered(&self) -> Result<Vec<PathText>, OutOfMemory>
        ensures { let paths = spec.paths_of (spec.unfiltered self.now) in
            IfOk result (λ list. spec.ListsPaths paths list.items) }
    {
        let mut list = self.register.given_up(self.alloc, self.retries)?;
        list.sort_unstable_by(|a, b| a.cmp(b));
        Ok(list)
    }
}

// The documents of the batch with the number come to be in none that is out.
fn release(register: &mut Register, out: &[Batch], number: u64)
    requires own { (path : List ℕ) → IsOwn register.old path }
    requires rows { (path : List ℕ) → IsTrue (is_out out.now path)
        → IsTrue (has_row register.old.rows path) }
    ensures { Marks register.old register.new (is_out (numbered number out.now)) false }
{
    for batch in out {
        if batch.number == number {
            register.mark(batch.docs.items(), false);
        }
    }
}

// Whether a new notice is to be tried at all.
fn is_to_try(what: What, retries: u32) -> bool
    ensures { result ≡ (is_changed what && nat_lt 0 retries) }
{
    what == What::Changed && 0 < retries
}

fn copy_batches(alloc: Global, batches: &[Batch]) -> Result<Vec<Batch>, OutOfMemory>
    ensures { IfOk result (λ copied. copied.items ≡ batches.now) }
{
    let mut copied = Vec::new(alloc);
    for batch in batches {
        copied.push(batch.copy(alloc)?)?;
    }
    Ok(copied)
}

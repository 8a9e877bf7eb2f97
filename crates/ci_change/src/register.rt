ghost use Rattle.std.specs.Prelude.{◌≡◌, ◌<◌, ◌≤◌, ◌+◌, ◌-◌, ◌^◌, ◌&&◌, ℕ, List, [], All, bytes_eq, cond, filter, length, min, not, take, option_to_list, IsTrue, IsOk, IfOk, OnOk, OnErr, if◌then◌else◌};

use crate::held::{lowered, moved, recounted};
use crate::order::{Entry, Order, copy_order, give_up, renew, retire};
use crate::rows::{
    Numbers, Rows, attempts_of, copy_rows, is_given_up, is_out, is_set_aside, latest_of,
    numbers_of, path_at, place_of, put_numbers, served_of,
};
use crate::{Docs, Notice, What};
use ci_base::{OutOfMemory, PathText, Seq};
use indexmap::IndexMap;
use std::alloc::Global;
use std::collections::BTreeMap;
use std::marker::Model;

/// The numbers of each path, and in order the unserved notices and the ready ones among them. It
/// counts those of the ready ones that are held: their path is in a batch that is out. Those with
/// numbers below `from` are.
#[derive(Drop)]
pub struct Register {
    rows: Rows,
    order: Order,
    ready: Order,
    held: usize,
    from: u64,
}

impl Model for Register {
    ghost use Rattle.ci_change.specs.Order.{IsIndexed};
    ghost use Rattle.ci_change.specs.Register.{Kept, kept_of, IsCounted, IsHeldBelow};

    ghost Value = { Kept };

    ghost view = { λ r. kept_of r.rows.entries r.order.entries r.ready.entries };

    ghost invariant = { λ r.
        IsIndexed r.rows.entries r.order.entries × IsIndexed r.rows.entries r.ready.entries
        × IsCounted (kept_of r.rows.entries r.order.entries r.ready.entries) r.held
        × IsHeldBelow (kept_of r.rows.entries r.order.entries r.ready.entries) r.from };
}

impl Register {
    ghost use Rattle.ci_change.specs.HandedIn.{notice_of};
    ghost use Rattle.ci_change.specs.Register.{waits, is_spare, is_given_up as is_given_up_in};
    ghost use Rattle.ci_change.specs.Register.{Marks, Notes, Serves, Stays, Tries, IsHeldBelow, IsOwn};
    ghost use Rattle.ci_change.specs.Rows.{has_row, numbers_at, sets_aside};
    ghost use Rattle.ci_change.specs.Pending.{docs_of, has_path, kinds, paths_of, with_number};

    pub fn new(alloc: Global) -> Register
        ensures { result ≡ record { rows = []; unserved = []; ready = [] } }
    {
        Register {
            rows: IndexMap::new(alloc),
            order: BTreeMap::new(alloc),
            ready: BTreeMap::new(alloc),
            held: 0,
            from: 0,
        }
    }

    /// Another register that equals this one.
    pub fn copy(&self, alloc: Global) -> Result<Register, OutOfMemory>
        ensures { IfOk result (λ r. r ≡ self.now) }
    {
        Ok(Register {
            rows: copy_rows(&self.rows, alloc)?,
            order: copy_order(&self.order)?,
            ready: copy_order(&self.ready)?,
            held: self.held,
            from: self.from,
        })
    }

    /// The path's latest notice is this one. It is unserved if it is above the path's served
    /// number, and then ready if it joins the ready ones.
    pub fn note(
        &mut self,
        alloc: Global,
        path: &PathText,
        seq: Seq,
        what: What,
        joins: bool,
    ) -> Result<(), OutOfMemory>
        requires newest { All (λ n. n.seq.0 < seq.0) self.old.unserved }
        requires newest_ready { All (λ n. n.seq.0 < seq.0) self.old.ready }
        requires latest { 0 < seq.0 → (numbers_at self.old.rows path.now).latest < seq.0 }
        requires own { IsOwn self.old path.now }
        ensures ok { let notice = notice_of path.now seq what in
            OnOk result (Notes self.old self.new notice joins) }
        ensures err { OnErr result (Stays self.old self.new) }
    {
        let place = place_of(&mut self.rows, alloc, path)?;
        let numbers = numbers_of(&self.rows, place);
        let (latest, entry) = (seq.0, Entry { place, what });
        let was = self.ready.len();
        renew(
            &mut self.order,
            &mut self.ready,
            numbers,
            latest,
            entry,
            joins,
        )?;
        self.held = recounted(self.held, numbers.is_out, was, self.ready.len());
        self.from = self.from.min(latest);
        let newest = Numbers {
            latest,
            attempts: 0,
            refused: false,
            ..numbers
        };
        put_numbers(&mut self.rows, place, newest);
        Ok(())
    }

    /// The path's served number is at least this one, so a latest notice up to it isn't unserved.
    pub fn serve(&mut self, alloc: Global, path: &PathText, seq: Seq) -> Result<(), OutOfMemory>
        requires own { IsOwn self.old path.now }
        ensures ok { OnOk result (Serves self.old self.new path.now seq.0) }
        ensures err { OnErr result (Stays self.old self.new) }
        ensures known { IsTrue (has_row self.old.rows path.now) → IsOk result }
    {
        let place = place_of(&mut self.rows, alloc, path)?;
        let numbers = numbers_of(&self.rows, place);
        retire(&mut self.order, numbers.latest, seq.0);
        let was = self.ready.len();
        retire(&mut self.ready, numbers.latest, seq.0);
        self.held = recounted(self.held, numbers.is_out, was, self.ready.len());
        let served = numbers.served.max(seq.0);
        put_numbers(&mut self.rows, place, Numbers { served, ..numbers });
        Ok(())
    }

    /// The path's latest notice was tried in vain, where it has this number: its filter refused it,
    /// or it failed. It isn't ready any more when it is set aside.
    pub fn tried(&mut self, path: &PathText, seq: Seq, refuses: bool, retries: u32)
        requires own { IsOwn self.old path.now }
        ensures { Tries self.old self.new path.now seq.0 refuses retries }
    {
        if let Some(place) = self.rows.get_index_of(path) {
            let numbers = numbers_of(&self.rows, place).tried(seq.0, refuses);
            put_numbers(&mut self.rows, place, numbers);
            let was = self.ready.len();
            give_up(&mut self.ready, numbers, retries);
            self.held = recounted(self.held, numbers.is_out, was, self.ready.len());
        }
    }

    /// The documents come to be in a batch that is out, or in none.
    pub fn mark(&mut self, docs: &[(PathText, Seq)], is_out: bool)
        requires own { (path : List ℕ) → IsOwn self.old path }
        requires rows { All (λ d. IsTrue (has_row self.old.rows d.0)) docs.now }
        ensures { Marks self.old self.new (has_path docs.now) is_out }
    {
        for (path, _) in docs {
            self.mark_path(path, is_out);
        }
    }

    // The path comes to be in a batch that is out, or in none.
    fn mark_path(&mut self, path: &PathText, is_out: bool)
        requires own { IsOwn self.old path.now }
        requires row { IsTrue (has_row self.old.rows path.now) }
        ensures { Marks self.old self.new (λ other. bytes_eq path.now other) is_out }
    {
        if let Some(place) = self.rows.get_index_of(path) {
            let numbers = numbers_of(&self.rows, place);
            let all = self.ready.len();
            let has = self.ready.contains_key(&numbers.latest);
            self.held = moved(self.held, all, has, numbers.is_out, is_out);
            self.from = lowered(self.from, has, is_out, numbers.latest);
            put_numbers(&mut self.rows, place, Numbers { is_out, ..numbers });
        }
    }

    /// How often the path's latest notice was tried and failed, or 0.
    pub fn attempts_of(&self, path: &PathText) -> u32
        ensures { result ≡ (numbers_at self.now.rows path.now).attempts }
    {
        attempts_of(&self.rows, path)
    }

    /// Whether the path's latest notice is set aside.
    pub fn is_set_aside(&self, path: &PathText, retries: u32) -> bool
        ensures { result ≡ sets_aside (numbers_at self.now.rows path.now) retries }
    {
        is_set_aside(&self.rows, path, retries)
    }

    /// The served number of a path, or 0.
    pub fn served_of(&self, path: &PathText) -> u64
        ensures { result ≡ (numbers_at self.now.rows path.now).served }
    {
        served_of(&self.rows, path)
    }

    /// The number and the kind of the unserved notice that has the number of the path's latest one.
    pub fn unserved_of(&self, path: &PathText) -> Option<(Seq, What)>
        ensures { let latest = (numbers_at self.now.rows path.now).latest in
            kinds (with_number latest self.now.unserved) ≡ option_to_list result }
    {
        let latest = latest_of(&self.rows, path);
        match self.order.get(&latest) {
            Some(entry) => Some((Seq(latest), entry.what)),
            None => None,
        }
    }

    /// A copy of the unserved notices that are still to be tried, in order.
    pub fn pending(&self, alloc: Global, retries: u32) -> Result<Vec<Notice>, OutOfMemory>
        ensures { let pending = filter (waits self.now.rows retries) self.now.unserved in
            IfOk result (λ list. list.items ≡ pending) }
    {
        let mut list = Vec::new(alloc);
        for (number, entry) in &self.order {
            if !is_given_up(&self.rows, entry.place, retries) {
                list.push(Notice {
                    path: path_at(&self.rows, entry.place).copy(alloc)?,
                    seq: Seq(*number),
                    what: entry.what,
                })?;
            }
        }
        Ok(list)
    }

    /// The paths of the unserved notices that are set aside, in order.
    pub fn given_up(&self, alloc: Global, retries: u32) -> Result<Vec<PathText>, OutOfMemory>
        ensures { let given_up = filter (is_given_up_in self.now.rows retries) self.now.unserved in
            IfOk result (λ list. list.items ≡ paths_of given_up) }
    {
        let mut list = Vec::new(alloc);
        for (_, entry) in &self.order {
            if is_given_up(&self.rows, entry.place, retries) {
                list.push(path_at(&self.rows, entry.place).copy(alloc)?)?;
            }
        }
        Ok(list)
    }

    /// The documents of the first ready notices that no batch that is out has, at most so many.
    pub fn free_docs(&self, alloc: Global, most: usize) -> Result<Docs, OutOfMemory>
        ensures { let free = filter (is_spare self.now.rows) self.now.ready in
            IfOk result (λ docs. docs ≡ docs_of (take most free)) }
    {
        let mut docs = Docs::new(alloc);
        for (number, entry) in self.ready.range(self.from..) {
            if docs.items().len() == most {
                return Ok(docs);
            }
            let path = path_at(&self.rows, entry.place);
            if !is_out(&self.rows, entry.place) {
                docs.add((path.copy(alloc)?, Seq(*number)))?;
            }
        }
        Ok(docs)
    }

    /// Those at the front that are held are passed over from now on.
    pub fn skip(&mut self)
        ensures { self.new ≡ self.old }
    {
        self.from = self.first_spare();
    }

    // A number below which the ready notices are held: the first one that isn't has it.
    fn first_spare(&self) -> u64
        ensures { IsHeldBelow self.now result }
    {
        for (number, entry) in self.ready.range(self.from..) {
            if !is_out(&self.rows, entry.place) {
                return *number;
            }
        }
        u64::MAX
    }

    /// How many ready notices no batch that is out has.
    pub fn free(&self) -> usize
        ensures { result ≡ length (filter (is_spare self.now.rows) self.now.ready) }
    {
        self.ready.len() - self.held
    }
}

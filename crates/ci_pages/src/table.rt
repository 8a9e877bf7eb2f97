ghost use Rattle.std.specs.Prelude.{◌≡◌, ◌<◌, ◌≤◌, ◌+◌, ◌++◌, [], ℕ, Contains, IfOk, IsTrue, OnErr, count_by, filter, length, map, slice_index, take, vec_capacity, ◌↔◌};
ghost use Rattle.ci_pages.specs.Tables.{AllData, IsHeaded, IsLinked, IsListOf, IsOnce, Relinks, is_leaving, is_pending, is_unused, new_uses, turned};
ghost use Rattle.ci_pages.specs.Uses.{AllFree, AllHave, Marks, free_pages, is_free, use_of};
ghost use Rattle.ci_pages.specs.declared.page_use.PageUse.TheVariants.{Held, Reserved, Used};

use crate::PageUse;
use crate::uses::Uses;
use std::alloc::{AllocError, Global};

/// The pages of a volume: what each is for, and which follows it in its chain.
#[derive(Drop)]
pub struct PageTable {
    pub(crate) uses: Uses,
    pub(crate) links: Vec<u32>,
    /// The pages that were given out since the last commit, in order.
    pending: Vec<u32>,
    /// The pages of chains that were let go, and room for all pages.
    pub(crate) leaving: Vec<u32>,
    ghost headed: { IsHeaded uses.pages.items },
    ghost linked: { length links.items ≡ length uses.pages.items },
    ghost pending_are: { IsListOf is_pending uses.pages.items pending.items },
    ghost leaving_are: { IsListOf is_leaving uses.pages.items leaving.items },
    ghost leaving_count: { length leaving.items ≡ count_by is_leaving uses.pages.items },
    ghost room: { length uses.pages.items ≤ vec_capacity leaving },
}

impl PageTable {
    /// The pages of a new volume.
    pub fn new(alloc: Global, pages: u32) -> Result<PageTable, AllocError>
        requires least { 3 ≤ pages }
        requires most { pages ≤ 262144 }
        ensures uses { IfOk result (λ t. t.uses.pages.items ≡ new_uses pages) }
        ensures pending { IfOk result (λ t. t.pending.items ≡ []) }
    {
        let mut uses = Uses::new(alloc, pages)?;
        uses.set(0, PageUse::Head);
        uses.set(1, PageUse::Head);
        uses.set(2, PageUse::Head);
        let links = Vec::from_elem(alloc, 0, pages as usize)?;
        let leaving = Vec::with_capacity(alloc, pages as usize)?;
        Ok(PageTable {
            uses,
            links,
            pending: Vec::new(alloc),
            leaving,
        })
    }

    /// The pages of a volume in which one chain is held.
    pub fn opened(alloc: Global, pages: u32, root: &[u32]) -> Result<PageTable, AllocError>
        requires least { 3 ≤ pages }
        requires most { pages ≤ 262144 }
        requires data_pages { AllData pages root.now }
        ensures marked { IfOk result (λ t.
            Marks (new_uses pages) t.uses.pages.items root.now Held) }
        ensures linked { IfOk result (λ t. IsOnce root.now → IsLinked t.links.items root.now) }
        ensures pending { IfOk result (λ t. t.pending.items ≡ []) }
    {
        let mut table = PageTable::new(alloc, pages)?;
        table.hold(root);
        Ok(table)
    }

    /// How many pages are free.
    pub fn free(&self) -> u32
        ensures { result ≡ count_by is_free self.now.uses.pages.items }
    {
        self.uses.free()
    }

    /// Whether each of these is a page that is free.
    pub fn are_free(&self, pages: &[u32]) -> bool
        ensures { IsTrue result ↔ AllFree self.now.uses.pages.items pages.now }
    {
        self.uses.are_free(pages)
    }

    /// Gives out the least free pages.
    pub fn reserve(&mut self, alloc: Global, count: u32) -> Result<Vec<u32>, AllocError>
        requires { count ≤ count_by is_free self.old.uses.pages.items }
        ensures least { IfOk result (λ v. v.items
            ≡ take count (free_pages self.old.uses.pages.items)) }
        ensures marked { IfOk result (λ v.
            Marks self.old.uses.pages.items self.new.uses.pages.items v.items Reserved) }
        ensures pending { IfOk result (λ v. self.new.pending.items
            ≡ self.old.pending.items ++ v.items) }
        ensures data_pages { IfOk result (λ v.
            AllData (length self.old.uses.pages.items) v.items) }
        ensures once { IfOk result (λ _. IsOnce self.old.pending.items
            → IsOnce self.new.pending.items) }
        ensures small { length self.old.uses.pages.items ≤ 262144 }
        ensures err { OnErr result (self.new.uses.pages.items ≡ self.old.uses.pages.items) }
        ensures err_pending { OnErr result (self.new.pending.items ≡ self.old.pending.items) }
        ensures links { self.new.links.items ≡ self.old.links.items }
    {
        self.pending.reserve(count as usize)?;
        let pages = self.uses.take(alloc, count)?;
        note(&mut self.pending, &pages);
        Ok(pages)
    }

    /// Holds a chain.
    pub fn hold(&mut self, chain: &[u32])
        requires { AllFree self.old.uses.pages.items chain.now }
        ensures marked { Marks self.old.uses.pages.items self.new.uses.pages.items
            chain.now Held }
        ensures linked { IsOnce chain.now
            → Relinks self.old.links.items self.new.links.items chain.now }
        ensures pending { self.new.pending.items ≡ self.old.pending.items }
    {
        self.uses.mark(chain, PageUse::Held);
        link(&mut self.links, chain);
    }

    /// Notes a run in pages that were given out.
    pub fn fill(&mut self, run: &[u32])
        requires unused { AllHave self.old.uses.pages.items run.now Reserved }
        requires once { IsOnce run.now }
        ensures data_pages { AllData 262144 run.now }
        ensures marked { Marks self.old.uses.pages.items self.new.uses.pages.items run.now Used }
        ensures linked { Relinks self.old.links.items self.new.links.items run.now }
        ensures pending { self.new.pending.items ≡ self.old.pending.items }
    {
        self.uses.mark(run, PageUse::Used);
        link(&mut self.links, run);
    }

    /// The pages that were given out and are in no run, in order.
    pub fn unused(&self, alloc: Global) -> Result<Vec<u32>, AllocError>
        ensures unused { IfOk result (λ v. v.items
            ≡ filter (λ page. is_unused (use_of self.now.uses.pages.items page))
            self.now.pending.items) }
        ensures reserved { IfOk result (λ v. AllHave self.now.uses.pages.items v.items
            Reserved) }
        ensures data_pages { IfOk result (λ v. AllData 262144 v.items) }
        ensures once { IfOk result (λ v. IsOnce self.now.pending.items → IsOnce v.items) }
    {
        let pages = pick_unused(alloc, &self.uses, &self.pending)?;
        Ok(pages)
    }

    /// Goes to the next generation: what was given out is held, and what was let go is free.
    pub fn turn(&mut self)
        ensures uses { self.new.uses.pages.items ≡ map turned self.old.uses.pages.items }
        ensures links { self.new.links.items ≡ self.old.links.items }
        ensures pending { self.new.pending.items ≡ [] }
    {
        self.uses.mark(&self.pending, PageUse::Held);
        self.uses.mark(&self.leaving, PageUse::Free);
        self.pending.clear();
        self.leaving.clear();
    }
}

// Those of some pages that are in no run.
fn pick_unused(alloc: Global, uses: &Uses, pages: &[u32]) -> Result<Vec<u32>, AllocError>
    requires { (page : ℕ) → Contains pages.now page → page < length uses.now.pages.items }
    ensures { IfOk result (λ v. v.items
        ≡ filter (λ page. is_unused (use_of uses.now.pages.items page)) pages.now) }
{
    let mut unused = Vec::new(alloc);
    for page in pages {
        if uses.is_unused(*page) {
            unused.push(*page)?;
        }
    }
    Ok(unused)
}

fn note(pending: &mut Vec<u32>, pages: &[u32])
    requires { length pending.old.items + length pages.now ≤ vec_capacity pending.old }
    ensures { pending.new.items ≡ pending.old.items ++ pages.now }
{
    match pending.extend_from_slice(pages) {
        Ok(()) => {}
        Err(_) => unreachable!(),
    }
}

// The page that follows one in a chain. 0: none does.
fn next_in(chain: &[u32], at: usize) -> u32
    requires { at < length chain.now }
    ensures { result ≡ slice_index chain.now (at + 1) }
{
    if at + 1 < chain.len() {
        return chain[at + 1];
    }
    0
}

// Links the pages of a chain.
fn link(links: &mut Vec<u32>, chain: &[u32])
    requires { (page : ℕ) → Contains chain.now page → page < length links.old.items }
    ensures size { length links.new.items ≡ length links.old.items }
    ensures linked { IsOnce chain.now → Relinks links.old.items links.new.items chain.now }
{
    for at in 0..chain.len() {
        let page = chain[at] as usize;
        links[page] = next_in(chain, at);
    }
}

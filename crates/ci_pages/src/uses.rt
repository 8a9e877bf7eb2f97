ghost use Rattle.std.specs.Prelude.{◌≡◌, ◌+◌, ◌<◌, ◌≤◌, IfOk, Bool, count_by, cond, length, replicate, set, take, true};
ghost use Rattle.ci_pages.specs.Tables.{is_held, is_unused};
ghost use Rattle.ci_pages.specs.Uses.{IsFlagged, Marks, free_pages, is_free, use_of};
ghost use Rattle.ci_pages.specs.declared.page_use.PageUse.TheVariants.{Free};

use crate::PageUse;
use std::alloc::{AllocError, Global};

/// The pages of a block, which is passed over as one where none of them is free.
pub(crate) const BLOCK: usize = 512;

/// What each page is for. The free ones are found by blocks.
#[derive(Drop)]
pub struct Uses {
    pub(crate) pages: Vec<PageUse>,
    /// Whether a block may have a free page.
    pub(crate) blocks: Vec<bool>,
    free: u32,
    ghost small: { length pages.items ≤ 262144 },
    ghost few: { length blocks.items ≤ 1024 },
    ghost counted: { free ≡ count_by is_free pages.items },
    ghost flagged: { IsFlagged pages.items blocks.items },
}

impl Uses {
    /// So many pages, all of them free.
    pub fn new(alloc: Global, count: u32) -> Result<Uses, AllocError>
        requires { count ≤ 262144 }
        ensures { IfOk result (λ u. u.pages.items ≡ replicate count Free) }
    {
        let pages = Vec::from_elem(alloc, PageUse::Free, count as usize)?;
        let blocks = Vec::from_elem(alloc, true, count as usize / BLOCK + 1)?;
        Ok(Uses {
            pages,
            blocks,
            free: count,
        })
    }

    /// How many pages there are.
    pub fn len(&self) -> u32
        ensures { result ≡ length self.now.pages.items }
    {
        self.pages.len() as u32
    }

    /// How many pages are free.
    pub fn free(&self) -> u32
        ensures { result ≡ count_by is_free self.now.pages.items }
    {
        self.free
    }

    /// What a page is for.
    pub fn at(&self, page: u32) -> PageUse
        requires { page < length self.now.pages.items }
        ensures { result ≡ use_of self.now.pages.items page }
    {
        self.pages[page as usize]
    }

    /// Whether this is a page that is free.
    pub fn is_free(&self, page: u32) -> bool
        ensures { result ≡ is_free (use_of self.now.pages.items page) }
    {
        if page < self.len() {
            return self.at(page).is_free();
        }
        false
    }

    /// Whether this is a page that was given out and is in no run.
    pub fn is_unused(&self, page: u32) -> bool
        requires { page < length self.now.pages.items }
        ensures { result ≡ is_unused (use_of self.now.pages.items page) }
    {
        self.at(page).is_unused()
    }

    /// Whether this is a page of a chain that is held.
    pub fn is_held(&self, page: u32) -> bool
        requires { page < length self.now.pages.items }
        ensures { result ≡ is_held (use_of self.now.pages.items page) }
    {
        self.at(page).is_held()
    }

    pub fn set(&mut self, page: u32, to: PageUse)
        requires { page < length self.old.pages.items }
        ensures { self.new.pages.items ≡ set self.old.pages.items page to }
    {
        let at = page as usize;
        self.free = recount(self.free, self.pages[at], to);
        raise(&mut self.blocks, at / BLOCK, to);
        self.pages[at] = to;
    }
}

// The number of free pages after one got another use.
fn recount(free: u32, was: PageUse, to: PageUse) -> u32
    requires most { free ≤ 262144 }
    requires least { cond (is_free was) 1 0 ≤ free }
    ensures { result + cond (is_free was) 1 0 ≡ free + cond (is_free to) 1 0 }
{
    let others = if was.is_free() { free - 1 } else { free };
    if to.is_free() { others + 1 } else { others }
}

// Sets a block's flag where a page of it is to be free.
fn raise(blocks: &mut Vec<bool>, block: usize, to: PageUse)
    requires { block < length blocks.old.items }
    ensures { blocks.new.items
        ≡ cond (is_free to) (set blocks.old.items block true) blocks.old.items }
{
    if to.is_free() {
        blocks[block] = true;
    }
}

ghost use Rattle.std.specs.Prelude.{◌≡◌, ◌↔◌, ◌<◌, ◌≤◌, ℕ, Contains, IfOk, IsTrue, OnErr, count_by, length, take};
ghost use Rattle.ci_pages.specs.Uses.{AllFree, Marks, NoneFree, free_pages, is_free};
ghost use Rattle.ci_pages.specs.declared.page_use.PageUse.TheVariants.{Reserved};

use crate::PageUse;
use crate::uses::{BLOCK, Uses};
use std::alloc::{AllocError, Global};

impl Uses {
    /// Gives these pages one use.
    pub fn mark(&mut self, pages: &[u32], to: PageUse)
        requires { (page : ℕ) → Contains pages.now page → page < length self.old.pages.items }
        ensures { Marks self.old.pages.items self.new.pages.items pages.now to }
    {
        for page in pages {
            self.set(*page, to);
        }
    }

    /// Whether each of these is a page that is free.
    pub fn are_free(&self, pages: &[u32]) -> bool
        ensures { IsTrue result ↔ AllFree self.now.pages.items pages.now }
    {
        for page in pages {
            if !self.is_free(*page) {
                return false;
            }
        }
        true
    }

    /// Reserves the least free pages.
    pub fn take(&mut self, alloc: Global, count: u32) -> Result<Vec<u32>, AllocError>
        requires { count ≤ count_by is_free self.old.pages.items }
        ensures least { IfOk result (λ v. v.items ≡ take count (free_pages self.old.pages.items)) }
        ensures count { IfOk result (λ v. length v.items ≡ count) }
        ensures free { IfOk result (λ v. AllFree self.old.pages.items v.items) }
        ensures marked { IfOk result (λ v.
            Marks self.old.pages.items self.new.pages.items v.items Reserved) }
        ensures err { OnErr result (self.new.pages.items ≡ self.old.pages.items) }
    {
        let mut found = Vec::with_capacity(alloc, count as usize)?;
        let stop = self.find(count as usize, &mut found)?;
        self.mark(&found, PageUse::Reserved);
        self.lower(stop);
        Ok(found)
    }

    // Forgets the blocks below a place, where no page below it is free.
    fn lower(&mut self, stop: usize)
        requires none { NoneFree self.old.pages.items 0 stop }
        requires within { stop ≤ length self.old.pages.items }
        ensures { self.new.pages.items ≡ self.old.pages.items }
    {
        for block in 0..stop / BLOCK {
            self.blocks[block] = false;
        }
    }
}

ghost use Rattle.std.specs.Prelude.{◌≡◌, ◌+◌, ◌*◌, ◌<◌, ◌≤◌, ◌++◌, [], ◌∷◌, IfOk, OnErr, OnOk, cond, count_by, length, min, take};
ghost use Rattle.ci_pages.specs.Uses.{free_from, is_free};

use crate::PageUse;
use crate::uses::{BLOCK, Uses};
use std::alloc::AllocError;

// Puts out a page that is free.
fn put(out: &mut Vec<u32>, what: PageUse, page: u32) -> Result<(), AllocError>
    ensures ok { OnOk result (out.new.items
        ≡ out.old.items ++ cond (is_free what) (page ∷ []) []) }
    ensures err { OnErr result (out.new.items ≡ out.old.items) }
{
    if what.is_free() {
        out.push(page)?;
    }
    Ok(())
}

// Puts out the free pages from one number up to another until `out` has as many as are wanted. The
// answer is where it stopped.
fn scan(
    pages: &[PageUse],
    from: usize,
    end: usize,
    wanted: usize,
    out: &mut Vec<u32>,
) -> Result<usize, AllocError>
    requires small { length pages.now ≤ 262144 }
    requires range { from ≤ end }
    requires within { end ≤ length pages.now }
    requires so_far { out.old.items ≡ free_from (take from pages.now) 0 }
    requires count { length out.old.items ≤ wanted }
    ensures found { IfOk result (λ stop. out.new.items ≡ free_from (take stop pages.now) 0) }
    ensures stop { IfOk result (λ stop. stop ≤ end) }
    ensures count { OnOk result (length out.new.items ≤ wanted) }
    ensures ended { IfOk result (λ stop. length out.new.items < wanted → stop ≡ end) }
{
    for page in from..end {
        if out.len() == wanted {
            return Ok(page);
        }
        put(out, pages[page], page as u32)?;
    }
    Ok(end)
}

impl Uses {
    // The pages of one block, behind those of the blocks before it.
    fn pass_block(
        &self,
        block: usize,
        from: usize,
        wanted: usize,
        out: &mut Vec<u32>,
    ) -> Result<usize, AllocError>
        requires block { block < length self.now.blocks.items }
        requires so_far { out.old.items ≡ free_from (take from self.now.pages.items) 0 }
        requires from { from ≤ length self.now.pages.items }
        requires count { length out.old.items ≤ wanted }
        requires begun { length out.old.items < wanted
            → from ≡ min (512 * block) (length self.now.pages.items) }
        ensures found { IfOk result (λ stop. out.new.items
            ≡ free_from (take stop self.now.pages.items) 0) }
        ensures stop { IfOk result (λ stop. stop ≤ length self.now.pages.items) }
        ensures count { OnOk result (length out.new.items ≤ wanted) }
        ensures ended { IfOk result (λ stop. length out.new.items < wanted
            → stop ≡ min (512 * (block + 1)) (length self.now.pages.items)) }
    {
        if out.len() == wanted {
            return Ok(from);
        }
        let end = (BLOCK * (block + 1)).min(self.pages.len());
        if !self.blocks[block] {
            return Ok(end);
        }
        scan(&self.pages, from, end, wanted, out)
    }

    /// Puts out the least free pages, as many as are wanted. All free pages below the answer are
    /// among them.
    pub(crate) fn find(&self, wanted: usize, out: &mut Vec<u32>) -> Result<usize, AllocError>
        requires empty { out.old.items ≡ [] }
        requires enough { wanted ≤ count_by is_free self.now.pages.items }
        ensures found { IfOk result (λ stop. out.new.items
            ≡ free_from (take stop self.now.pages.items) 0) }
        ensures stop { IfOk result (λ stop. stop ≤ length self.now.pages.items) }
        ensures count { OnOk result (length out.new.items ≡ wanted) }
    {
        let mut stop = 0;
        for block in 0..self.blocks.len() {
            stop = self.pass_block(block, stop, wanted, out)?;
        }
        Ok(stop)
    }
}

ghost use Rattle.std.specs.Prelude.{◌≡◌, ◌⊎◌, ◌+◌, ◌<◌, ◌≤◌, ◌++◌, [], ◌∷◌, ℕ, List, length, set, vec_capacity};
ghost use Rattle.ci_pages.specs.Tables.{IsHeldChain};
ghost use Rattle.ci_pages.specs.Uses.{AllHave, Marks, use_of};
ghost use Rattle.ci_pages.specs.declared.page_use.PageUse.TheVariants.{Held, Leaving};

use crate::{PageTable, PageUse};

impl PageTable {
    /// Lets go the held chain that begins at a page.
    pub fn let_go(&mut self, first: u32)
        requires { (chain : List ℕ) × IsHeldChain self.old.links.items
            self.old.uses.pages.items first chain }
        ensures marked { (chain : List ℕ)
            → IsHeldChain self.old.links.items self.old.uses.pages.items first chain
            → Marks self.old.uses.pages.items self.new.uses.pages.items chain Leaving }
        ensures links { self.new.links.items ≡ self.old.links.items }
        ensures pending { self.new.pending.items ≡ self.old.pending.items }
    {
        let mut page = first;
        for _step in 0..self.links.len() {
            self.leave(page);
            page = self.links[page as usize];
            if page == 0 {
                return;
            }
        }
    }

    /// Lets go held pages.
    pub fn leave_all(&mut self, pages: &[u32])
        requires { AllHave self.old.uses.pages.items pages.now Held }
        ensures marked { Marks self.old.uses.pages.items self.new.uses.pages.items
            pages.now Leaving }
        ensures links { self.new.links.items ≡ self.old.links.items }
        ensures pending { self.new.pending.items ≡ self.old.pending.items }
    {
        for page in pages {
            self.leave_once(*page);
        }
    }

    // A page that is held, or was let go before.
    fn leave_once(&mut self, page: u32)
        requires { (use_of self.old.uses.pages.items page ≡ Held)
            ⊎ (use_of self.old.uses.pages.items page ≡ Leaving) }
        ensures uses { self.new.uses.pages.items
            ≡ set self.old.uses.pages.items page Leaving }
        ensures links { self.new.links.items ≡ self.old.links.items }
        ensures pending { self.new.pending.items ≡ self.old.pending.items }
    {
        if self.uses.is_held(page) {
            self.leave(page);
        }
    }

    // One page of a chain that is let go.
    fn leave(&mut self, page: u32)
        requires { use_of self.old.uses.pages.items page ≡ Held }
        ensures uses { self.new.uses.pages.items
            ≡ set self.old.uses.pages.items page Leaving }
        ensures count { length self.new.leaving.items ≡ length self.old.leaving.items + 1 }
        ensures links { self.new.links.items ≡ self.old.links.items }
        ensures pending { self.new.pending.items ≡ self.old.pending.items }
    {
        self.uses.set(page, PageUse::Leaving);
        push_within(&mut self.leaving, page);
    }
}

// One number more, for which there is room.
fn push_within(list: &mut Vec<u32>, page: u32)
    requires { length list.old.items < vec_capacity list.old }
    ensures items { list.new.items ≡ list.old.items ++ page ∷ [] }
    ensures room { vec_capacity list.old ≤ vec_capacity list.new }
{
    match list.push(page) {
        Ok(()) => {}
        Err(_) => unreachable!(),
    }
}

ghost use Rattle.std.specs.Prelude.{◌≡◌, ◌≢◌, ◌<◌, ◌≤◌, ◌+◌, ◌-◌, ◌++◌, [], ◌∷◌, false, length, OnOk, OnErr, vec_capacity, vec_len};
ghost use Rattle.ci_holdings.specs.Waiting.{is_marked, marked_at};

use ci_base::OutOfMemory;
use std::alloc::Global;
use std::marker::Model;

/// Which requests have their replies. Contracts see a mark for each request, in the order of their
/// numbers, which begin with 1, and beside it how many requests more take no memory.
#[derive(Drop)]
pub struct Replied {
    marks: Vec<bool>,
}

impl Model for Replied {
    ghost use Rattle.std.specs.Prelude.{◌-◌, vec_len, vec_capacity};
    ghost use Rattle.ci_holdings.specs.Waiting.{Marks};

    ghost Value = { Marks };

    ghost view = { λ r. record {
      list = r.marks.items;
      spare = vec_capacity r.marks - vec_len r.marks;
    } };
}

impl Replied {
    pub fn new(alloc: Global) -> Replied
        ensures { result.list ≡ [] }
    {
        Replied {
            marks: Vec::new(alloc),
        }
    }

    /// Makes room for a request more.
    pub fn prepare(&mut self) -> Result<(), OutOfMemory>
        ensures list { self.new.list ≡ self.old.list }
        ensures ok { OnOk result (1 ≤ self.new.spare) }
    {
        self.marks.reserve(1)?;
        Ok(())
    }

    /// A request more, which has no reply, in the room that was made for it.
    pub fn ask(&mut self)
        requires { self.old.spare ≢ 0 }
        ensures { self.new.list ≡ self.old.list ++ false ∷ [] }
    {
        self.marks.push_reserved(false);
    }

    /// The request has its reply now.
    pub fn mark(&mut self, id: u64)
        requires some { 0 < id }
        requires within { id ≤ length self.old.list }
        ensures { self.new.list ≡ marked_at self.old.list id }
    {
        self.marks[id as usize - 1] = true;
    }

    /// Whether the request was asked and has its reply.
    pub fn has(&self, id: u64) -> bool
        ensures { result ≡ is_marked self.now.list id }
    {
        if id == 0 {
            return false;
        }
        match self.marks.get((id - 1) as usize) {
            Some(mark) => *mark,
            None => false,
        }
    }
}

ghost use Rattle.std.specs.Prelude.{◌≡◌, IfOk};
ghost use Rattle.ci_journal.specs.Served.{hits_in};

use ci_base::OutOfMemory;
use ci_dialect::Restriction;
use ci_documents::SharedPlain;
use ci_journal::Paths;
use std::alloc::Global;

/// A query that was opened, with all that answering it needs.
#[derive(Drop)]
pub struct Question {
    /// The number of its request.
    pub id: u64,
    /// The journal's length right behind its opening.
    pub at: u64,
    pub tree: Restriction,
    /// The documents at that point.
    pub plain: SharedPlain,
}

impl Question {
    /// The paths of the documents that satisfy the query, in byte order.
    pub fn hits(&self, alloc: Global) -> Result<Paths, OutOfMemory>
        ensures { IfOk result (λ paths. paths ≡ hits_in self.now.tree self.now.plain) }
    {
        self.plain.hits(alloc, &self.tree)
    }

    /// Another question that equals this one; its documents are shared.
    pub fn copy(&self, alloc: Global) -> Result<Question, OutOfMemory>
        ensures { IfOk result (λ question. question ≡ self.now) }
    {
        Ok(Question {
            id: self.id,
            at: self.at,
            tree: self.tree.copy(alloc)?,
            plain: self.plain.share()?,
        })
    }
}

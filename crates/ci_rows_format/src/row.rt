ghost use Rattle.std.specs.Prelude.{◌≡◌, IfOk};

use crate::Values;
use ci_base::{DocNo, OutOfMemory, PathText, Seq};
use std::alloc::Global;

/// Whether a document is there, or was taken away.
#[derive(Clone, Copy, Debug, PartialEq, Eq)]
pub enum RowState {
    Kept,
    Erased,
}

/// What an index keeps of a document beside its words: its number and its path, the notice that was
/// served last, and its values.
#[derive(Debug, Drop)]
pub struct Row {
    pub doc: DocNo,
    pub path: PathText,
    pub seq: Seq,
    pub state: RowState,
    pub values: Values,
}

impl Row {
    /// Another row that equals this one.
    pub fn copy(&self, alloc: Global) -> Result<Row, OutOfMemory>
        ensures { IfOk result (λ row. row ≡ self.now) }
    {
        Ok(Row {
            doc: self.doc,
            path: self.path.copy(alloc)?,
            seq: self.seq,
            state: self.state,
            values: self.values.copy(alloc)?,
        })
    }
}

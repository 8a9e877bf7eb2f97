use crate::Records;
use ci_base::OutOfMemory;
use std::alloc::Global;
use std::fmt;

/// The memory for one record. Each link brings its own, so that to take it back takes none.
#[derive(Drop)]
pub(crate) struct RecordRoom {
    pub room: Box<Records>,
}

impl RecordRoom {
    pub fn new(alloc: Global) -> Result<RecordRoom, OutOfMemory> {
        Ok(RecordRoom {
            room: Box::new(alloc, Records::new())?,
        })
    }
}

impl fmt::Debug for RecordRoom {
    fn fmt<W: fmt::Write>(&self, f: &mut fmt::Formatter<W>) -> fmt::Result {
        write!(f, "RecordRoom")
    }
}

ghost use Rattle.std.specs.Prelude.{◌≡◌, IfOk};

use ci_base::{OutOfMemory, Text8};
use std::alloc::Global;

/// What is told of a link that was given back: the bytes that it took and gave, whether its count of
/// faults rose, and whether any bytes were still to come.
#[derive(Debug, Drop)]
pub struct LinkRecord {
    pub sent: Text8,
    pub given: Text8,
    pub rose: bool,
    pub more: bool,
}

impl LinkRecord {
    /// Another record that equals this one.
    pub fn copy(&self, alloc: Global) -> Result<LinkRecord, OutOfMemory>
        ensures { IfOk result (λ r. r ≡ self.now) }
    {
        Ok(LinkRecord {
            sent: self.sent.copy(alloc)?,
            given: self.given.copy(alloc)?,
            rose: self.rose,
            more: self.more,
        })
    }
}

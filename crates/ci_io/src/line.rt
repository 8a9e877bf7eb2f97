ghost use Rattle.std.specs.Prelude.{◌≡◌, IfOk};

use ci_base::{OutOfMemory, Text8};
use std::alloc::Global;

/// The most bytes of a line that is given, before its carriage return is dropped. A reader's one
/// buffer has room for such a line, so that no request can make it grow.
pub const LINE_BYTES: usize = 65_536;

/// A line of so many bytes without a line feed is endless. Reading goes no further, so that a call
/// returns for each source.
pub const ENDLESS_BYTES: usize = 1_073_741_824;

/// What reading a line gives.
#[derive(Debug, PartialEq, Eq, Drop)]
pub enum Line {
    /// A line, without its line feed and the carriage return before that.
    Text(Text8),
    /// A line of over `LINE_BYTES` bytes, which was passed over.
    Long,
    /// The source ended with no further byte.
    End,
}

impl Line {
    /// Another line that equals this one.
    pub fn copy(&self, alloc: Global) -> Result<Line, OutOfMemory>
        ensures { IfOk result (λ l. l ≡ self.now) }
    {
        match self {
            Line::Text(text) => Ok(Line::Text(text.copy(alloc)?)),
            Line::Long => Ok(Line::Long),
            Line::End => Ok(Line::End),
        }
    }
}

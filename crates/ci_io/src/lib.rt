//! Sources that bytes come from, sinks that they go to, and the lines of a source.
#![tactic(auto)]

mod failed;
mod line;
mod line_buffer;
mod line_end;
mod line_reader;
mod memory_parts;
mod memory_sink;
mod memory_source;
mod no_reader;
mod read_fault;
mod sink;
mod source;
mod std_sink;
mod std_source;
mod sure_memory_sink;
mod sure_memory_source;

pub use failed::Failed;
pub use line::{ENDLESS_BYTES, LINE_BYTES, Line};
pub use line_reader::LineReader;
pub use memory_sink::MemorySink;
pub use memory_source::MemorySource;
pub use no_reader::NoReader;
pub use read_fault::ReadFault;
pub use sink::{Sink, put_all};
pub use source::Source;
pub use std_sink::StdSink;
pub use std_source::StdSource;
pub use sure_memory_sink::SureMemorySink;
pub use sure_memory_source::SureMemorySource;

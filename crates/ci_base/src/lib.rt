//! Numbers, texts, paths and values: the plain data that every other crate of the catalogue speaks of.
#![tactic(auto)]

mod memory;
mod numbers;
mod path_text;
mod text;
mod text8;
mod value;
mod varint;

pub use memory::OutOfMemory;
pub use numbers::{DocNo, Place, PropNo, Seq};
pub use path_text::{PathFault, PathText};
pub use text::Text;
pub use text8::Text8;
pub use value::Value;
pub use varint::{get_varint, put_varint, varint_law};

//! The filters of plain texts, of texts with properties, and of files of which only the name is read.
#![tactic(auto)]

mod content;
mod document;
mod ending;
mod field;
mod filter;
mod format;
mod format_filter;
mod given;
mod head;
mod item;
mod items;
mod null;
mod plain;
mod props;
mod text;
mod text_left;

pub use content::Content;
pub use document::Document;
pub use format::{FILE_BYTES, Format};
pub use format_filter::FormatFilter;
pub use given::Given;
pub use item::Item;
pub use null::{Null, NullFilter};
pub use plain::{Plain, PlainFilter};
pub use props::{Props, PropsFilter};
pub use text_left::TextLeft;

use crate::TextLeft;
use ci_base::Value;

/// What is left of the chunk that was told last.
#[derive(Drop)]
pub enum Given {
    /// No chunk was told.
    Nothing,
    /// The rest of its words.
    Words(TextLeft),
    /// Its value, until it was handed out.
    Held(Option<Value>),
}

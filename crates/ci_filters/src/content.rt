use ci_base::{Text, Value};

/// What a chunk holds: words, or the value of its property.
#[derive(Drop)]
pub enum Content {
    Words(Text),
    Held(Value),
}

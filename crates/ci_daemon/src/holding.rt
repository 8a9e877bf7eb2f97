use ci_chunk::ChunkState;

/// A document that is open.
#[derive(Clone, Copy, Debug, PartialEq, Eq)]
pub struct Holding {
    /// The place of the filter that holds it.
    pub filter: usize,
    /// The state of the chunk that the filter gave last.
    pub given: Option<ChunkState>,
}

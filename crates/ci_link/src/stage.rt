use ci_base::Text;
use ci_chunk::StatChunk;

/// How far a document was read.
#[derive(Drop)]
pub(crate) enum Stage {
    /// It isn't open yet.
    Opening,
    /// The next chunk is due.
    Chunks,
    /// The text of this chunk is being read, and so much of it was.
    Text { chunk: StatChunk, text: Text },
    /// The value of this chunk is due.
    Value { chunk: StatChunk },
}

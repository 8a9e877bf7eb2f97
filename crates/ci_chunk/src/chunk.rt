use ci_base::PropNo;

/// What stands between the previous chunk and this one.
#[derive(Clone, Copy, Debug, PartialEq, Eq, Hash)]
pub enum Break {
    NoBreak = 0,
    /// The end of a word.
    Eow = 1,
    /// The end of a sentence.
    Eos = 2,
    /// The end of a paragraph.
    Eop = 3,
    /// The end of a chapter.
    Eoc = 4,
}

/// What a chunk has: a text, a value, or a value that its filter keeps to itself.
#[derive(Clone, Copy, Debug, PartialEq, Eq, Hash)]
pub enum ChunkState {
    Text = 1,
    Value = 2,
    FilterOwnedValue = 4,
}

/// What a filter tells of a chunk before it gives the chunk's text or value.
#[derive(Clone, Copy, Debug, PartialEq, Eq, Hash)]
pub struct StatChunk {
    pub id: u32,
    pub break_type: Break,
    pub state: ChunkState,
    pub locale: u32,
    pub property: PropNo,
    pub source: u32,
    pub start: u32,
    pub length: u32,
}

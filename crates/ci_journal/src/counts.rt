/// How far the index is merged into one.
#[derive(Clone, Copy, Debug, PartialEq, Eq)]
pub enum Shape {
    /// No master merge has begun yet.
    Absent,
    /// The last master merge has ended.
    Whole,
    /// A master merge runs.
    Half,
}

/// What `status` tells: how many documents have an entry, how many notices are pending, how many
/// documents are set aside, and what the index is made of.
#[derive(Clone, Copy, Debug, PartialEq, Eq)]
pub struct Counts {
    pub documents: u32,
    pub pending: u32,
    pub unfiltered: u32,
    pub lists: u32,
    pub shadows: u32,
    pub master: Shape,
}

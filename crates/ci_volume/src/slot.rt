/// What a slot names: a generation, how many pages the volume has, and the root's chain.
#[derive(Clone, Copy, Debug, PartialEq, Eq)]
pub struct Slot {
    pub generation: u64,
    pub pages: u32,
    /// The first page of the root.
    pub root: u32,
    /// How many bytes the root has.
    pub length: u32,
}

/// Which image of those that a stop may leave.
#[derive(Clone, Copy, Debug, PartialEq, Eq)]
pub enum Pick {
    /// All unsynced bytes as at the last sync, and nothing past the end that the disk had then.
    Old,
    /// All bytes as written.
    New,
    /// Each unsynced byte is this one.
    Filled(u8),
}

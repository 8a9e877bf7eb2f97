ghost use Rattle.std.specs.Prelude.{◌≡◌, ◌≤◌, ◌^◌, ◌↔◌, IsTrue};
ghost use Rattle.ci_chunk.specs.Statuses.{named};

/// What a filter says of a call. A status whose top bit is set is a failing one.
#[derive(Clone, Copy, Debug, PartialEq, Eq, PartialOrd, Ord, Hash)]
pub struct Status(pub u32);

impl Status {
    pub const S_OK: Status = Status(0);

    pub const FILTER_E_END_OF_CHUNKS: Status = Status(0x8004_1700);

    pub const FILTER_E_NO_MORE_TEXT: Status = Status(0x8004_1701);

    pub const FILTER_E_NO_MORE_VALUES: Status = Status(0x8004_1702);

    pub const FILTER_E_ACCESS: Status = Status(0x8004_1703);

    pub const FILTER_E_NO_TEXT: Status = Status(0x8004_1705);

    pub const FILTER_E_NO_VALUES: Status = Status(0x8004_1706);

    pub const FILTER_E_EMBEDDING_UNAVAILABLE: Status = Status(0x8004_1707);

    pub const FILTER_E_LINK_UNAVAILABLE: Status = Status(0x8004_1708);

    pub const FILTER_S_LAST_TEXT: Status = Status(0x0004_1709);

    pub const FILTER_S_LAST_VALUES: Status = Status(0x0004_170A);

    pub const FILTER_E_PASSWORD: Status = Status(0x8004_170B);

    pub const FILTER_E_UNKNOWNFORMAT: Status = Status(0x8004_170C);

    /// All statuses that have names, in the order in which they stand here.
    pub fn named() -> [Status; 13]
        ensures { result ≡ named }
    {
        [
            Status::S_OK,
            Status::FILTER_E_END_OF_CHUNKS,
            Status::FILTER_E_NO_MORE_TEXT,
            Status::FILTER_E_NO_MORE_VALUES,
            Status::FILTER_E_ACCESS,
            Status::FILTER_E_NO_TEXT,
            Status::FILTER_E_NO_VALUES,
            Status::FILTER_E_EMBEDDING_UNAVAILABLE,
            Status::FILTER_E_LINK_UNAVAILABLE,
            Status::FILTER_S_LAST_TEXT,
            Status::FILTER_S_LAST_VALUES,
            Status::FILTER_E_PASSWORD,
            Status::FILTER_E_UNKNOWNFORMAT,
        ]
    }

    pub fn is_failing(self) -> bool
        ensures { IsTrue result ↔ (2 ^ 31 ≤ self.0) }
    {
        self.0 >= 1 << 31
    }
}

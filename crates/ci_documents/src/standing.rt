ghost use Rattle.std.specs.Prelude.{◌≡◌, None};
ghost use Rattle.std.specs.Option.{option_copied};

use crate::SharedEntry;
use std::marker::Model;

/// What stands for a path: its document's entry, or nothing yet. A path without an entry holds the
/// room for one, so that giving it one takes no memory.
#[derive(Drop)]
pub struct Standing {
    entry: Option<SharedEntry>,
}

impl Model for Standing {
    ghost use Rattle.std.specs.Prelude.{Option};
    ghost use Rattle.ci_keys.specs.Entry.{EntryLists};

    ghost Value = { Option EntryLists };

    ghost view = { λ s. s.entry };
}

impl Standing {
    /// Room for an entry.
    pub fn empty() -> Standing
        ensures { result ≡ None }
    {
        Standing { entry: None }
    }

    pub fn of(entry: Option<SharedEntry>) -> Standing
        ensures { result ≡ entry }
    {
        Standing { entry }
    }

    pub fn entry(&self) -> Option<&SharedEntry>
        ensures { option_copied result ≡ self.now }
    {
        self.entry.as_ref()
    }
}

ghost use Rattle.std.specs.Prelude.{◌≡◌, ◌≤◌, ◌<◌, ◌^◌, ◌-◌, IfOk, IfSome, length, option_map};

use crate::Item;
use ci_base::{OutOfMemory, PathText, Text8};
use std::alloc::Global;
use std::collections::VecDeque;

/// The most bytes that are read of a file.
pub const FILE_BYTES: usize = 1_048_576;

/// What a filter makes of files: which paths it takes, and the chunks that a file has.
pub trait Format {
    ghost use Rattle.ci_filters.specs.Formats.{Format as Rules};

    ghost format: { Rules };

    fn accepts(&self, path: &PathText) -> bool
        ensures { result ≡ format.accepts path.now };

    /// The chunks of a file with these bytes. None: the bytes are no document of this format.
    fn items(
        &self,
        alloc: Global,
        path: &PathText,
        bytes: Text8,
    ) -> Result<Option<VecDeque<Item>>, OutOfMemory>
        requires { length bytes ≤ FILE_BYTES }
        ensures items { IfOk result (λ found.
            option_map (λ items. items.items) found ≡ format.items path.now bytes) }
        ensures few { IfOk result (λ found.
            IfSome found (λ items. length items.items < 2 ^ 32 - 1)) };
}

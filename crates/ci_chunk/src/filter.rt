ghost use Rattle.std.specs.Prelude.{◌≤◌, ◌≡◌, ◌⊎◌, IfOk, length};
ghost use Rattle.ci_chunk.specs.Talk.{Heard, Talk, init_answer, chunk_answer, text_answer, value_answer, value_bytes};
ghost use Rattle.ci_chunk.specs.Statuses.{last_text, last_values, s_ok};

use crate::{Answer, Call, FilterStop, StatChunk, Status};
use ci_base::{OutOfMemory, PathText, Text, Value};
use std::alloc::Global;

/// What reads a document, a chunk at a time. What a filter means is the conversations that it may
/// have: each answer is one that might come, and what the filter may say afterwards might have
/// followed that answer.
pub trait Filter: Drop {
    // Whether the filter may have this conversation from now on.
    ghost talks: { Self → Talk → Type 0 };

    fn init(&mut self, alloc: Global, flags: u32, path: &PathText) -> Result<Status, OutOfMemory>
        ensures { Heard (talks self.old)
            (Call.Init flags path.now) (init_answer result) (talks self.new) };

    fn get_chunk(&mut self, alloc: Global) -> Result<StatChunk, FilterStop>
        ensures { Heard (talks self.old)
            Call.GetChunk (chunk_answer result) (talks self.new) };

    fn get_text(&mut self, alloc: Global, max: u32) -> Result<(Status, Text), FilterStop>
        ensures heard { Heard (talks self.old)
            (Call.GetText max) (text_answer result) (talks self.new) }
        ensures status { IfOk result (λ given.
            (given.0 ≡ s_ok) ⊎ (given.0 ≡ last_text)) }
        ensures short { IfOk result (λ given. length given.1 ≤ 65536) };

    fn get_value(&mut self, alloc: Global) -> Result<(Status, Value), FilterStop>
        ensures heard { Heard (talks self.old)
            Call.GetValue (value_answer result) (talks self.new) }
        ensures status { IfOk result (λ given.
            (given.0 ≡ s_ok) ⊎ (given.0 ≡ last_values)) }
        ensures short { IfOk result (λ given. value_bytes given.1 ≤ 65536) };
}

ghost use Rattle.std.specs.Prelude.{◌≡◌, ◌≤◌, ◌⊎◌, IfOk, length};
ghost use Rattle.ci_chunk.specs.Talk.{Heard, TalksBy, init_answer, chunk_answer, text_answer, value_answer, value_bytes};
ghost use Rattle.ci_chunk.specs.Statuses.{last_text, last_values, s_ok};
ghost use Rattle.ci_chunk.specs.declared.talk.Call.TheVariants as calls;
ghost use Rattle.ci_filters.specs.Talking.{Answers, IsAnswered};

use crate::{Format, FormatFilter};
use ci_base::{OutOfMemory, PathText, Text, Value};
use ci_chunk::{Filter, FilterStop, StatChunk, Status};
use ci_files::Files;
use std::alloc::Global;

// Each call says twice what it answers: exactly, and as a conversation, for who doesn't know the
// filter.
impl<F: Files + Drop, M: Format + Drop> Filter for FormatFilter<F, M> {
    ghost talks = { λ f. TalksBy (Answers M.format) f };

    fn init(&mut self, alloc: Global, flags: u32, path: &PathText) -> Result<Status, OutOfMemory>
        ensures heard { Heard (TalksBy (Answers M.format) self.old) (calls.Init flags path.now)
            (init_answer result) (TalksBy (Answers M.format) self.new) }
        ensures answered { IsAnswered M.format self.old (calls.Init flags path.now)
            (init_answer result) self.new }
    {
        self.begin(alloc, flags, path)
    }

    fn get_chunk(&mut self, _alloc: Global) -> Result<StatChunk, FilterStop>
        ensures heard { Heard (TalksBy (Answers M.format) self.old) calls.GetChunk
            (chunk_answer result) (TalksBy (Answers M.format) self.new) }
        ensures answered { IsAnswered M.format self.old calls.GetChunk (chunk_answer result)
            self.new }
    {
        self.chunk()
    }

    fn get_text(&mut self, alloc: Global, max: u32) -> Result<(Status, Text), FilterStop>
        ensures heard { Heard (TalksBy (Answers M.format) self.old) (calls.GetText max)
            (text_answer result) (TalksBy (Answers M.format) self.new) }
        ensures status { IfOk result (λ given. (given.0 ≡ s_ok) ⊎ (given.0 ≡ last_text)) }
        ensures short { IfOk result (λ given. length given.1 ≤ 65536) }
        ensures answered { IsAnswered M.format self.old (calls.GetText max) (text_answer result)
            self.new }
    {
        self.text(alloc, max)
    }

    fn get_value(&mut self, _alloc: Global) -> Result<(Status, Value), FilterStop>
        ensures heard { Heard (TalksBy (Answers M.format) self.old) calls.GetValue
            (value_answer result) (TalksBy (Answers M.format) self.new) }
        ensures status { IfOk result (λ given. (given.0 ≡ s_ok) ⊎ (given.0 ≡ last_values)) }
        ensures short { IfOk result (λ given. value_bytes given.1 ≤ 65536) }
        ensures answered { IsAnswered M.format self.old calls.GetValue (value_answer result)
            self.new }
    {
        self.value()
    }
}

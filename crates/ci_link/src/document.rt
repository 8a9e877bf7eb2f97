ghost use Rattle.std.specs.Prelude.{◌≡◌, ℕ, List, [], IfOk};
ghost use Rattle.ci_chunk.specs.Talk.{Talk as Exchanged};
ghost use Rattle.ci_link.specs.Document.{Hears, IsNearer, Stands, asked, left};

use crate::hear::{hear_chunk, hear_init};
use crate::hear_text::hear_text;
use crate::hear_value::hear_value;
use crate::stage::Stage;
use ci_base::{OutOfMemory, PathText};
use ci_chunk::{Answer, Call, Outcome, Transcript};
use std::alloc::Global;
use std::mem;

/// The flags of Init: the document is read for the index alone, with the attributes that it applies.
const FLAGS: u32 = 80;

/// The most bytes that are asked for at once.
const MAX: u32 = 65_536;

/// The most bytes of a document's texts and text values.
pub(crate) const CLIP_BYTES: usize = 1_048_576;

/// A document that is being read.
#[derive(Drop)]
pub(crate) struct Document {
    /// The pieces of the chunks that ended.
    pub pieces: Transcript,
    /// The identifier of the last chunk.
    pub last: Option<u32>,
    /// The bytes of the texts and text values so far.
    pub size: usize,
    /// How many chunks were asked for.
    pub chunks: usize,
    pub stage: Stage,
}

/// What follows an answer.
#[derive(Drop)]
pub(crate) enum Next {
    /// The document's next call.
    Ask(Document),
    /// The document has its outcome.
    Ends(Outcome),
    /// The answer isn't legal.
    Illegal,
}

impl Document {
    pub fn new(alloc: Global) -> Document
        ensures { (path : List ℕ) → Stands path result [] }
    {
        Document {
            pieces: Transcript::new(alloc),
            last: None,
            size: 0,
            chunks: 0,
            stage: Stage::Opening,
        }
    }

    /// The call that is next.
    pub fn call(&self, alloc: Global, path: &PathText) -> Result<Call, OutOfMemory>
        ensures { IfOk result (λ c. c ≡ asked path.now self.now.stage) }
    {
        match &self.stage {
            Stage::Opening => Ok(Call::Init {
                flags: FLAGS,
                path: path.copy(alloc)?,
            }),
            Stage::Chunks => Ok(Call::GetChunk),
            Stage::Text { .. } => Ok(Call::GetText { max: MAX }),
            Stage::Value { .. } => Ok(Call::GetValue),
        }
    }

    /// Hears the answer to that call.
    pub fn hear(mut self, alloc: Global, answer: Answer) -> Result<Next, OutOfMemory>
        requires { (path : List ℕ) × (talk : Exchanged) × Stands path self talk }
        ensures next { IfOk result (λ next. (path : List ℕ) (talk : Exchanged) →
            Stands path self talk → Hears path talk (asked path self.stage) answer next) }
        ensures nearer { IfOk result (λ next. IsNearer (left self) next) }
    {
        match mem::replace(&mut self.stage, Stage::Chunks) {
            Stage::Opening => Ok(hear_init(self, answer)),
            Stage::Chunks => Ok(hear_chunk(self, alloc, answer)),
            Stage::Text { chunk, text } => hear_text(self, chunk, text, answer),
            Stage::Value { chunk } => hear_value(self, chunk, answer),
        }
    }
}

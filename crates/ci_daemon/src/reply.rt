use crate::Holding;
use ci_chunk::Answer;

/// The answer to a call, and the document that is open behind it.
#[derive(Drop)]
pub(crate) struct Reply {
    pub answer: Answer,
    pub document: Option<Holding>,
}

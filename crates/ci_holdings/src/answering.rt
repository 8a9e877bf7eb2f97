ghost use Rattle.std.specs.Prelude.{◌≡◌, ◌↔◌, ◌==◌, ◌&&◌, ◌++◌, [], ◌∷◌, not, true, filter, find, IfOk, OnOk, OnErr};
ghost use Rattle.std.specs.Option.{option_copied};
ghost use Rattle.ci_journal.specs.Step.{MayAnswer};

use crate::{Holdings, Question};
use ci_base::{OutOfMemory, PathText};
use ci_io::Sink;
use ci_journal::Paths;
use ci_query::query_law;

impl<K: Sink + Drop> Holdings<K> {
    /// Whether these paths answer a query that was opened right before the place, and that has no
    /// reply. Its documents are kept since its opening.
    pub fn can_answer(&self, id: u64, at: u64, paths: &Paths) -> Result<bool, OutOfMemory>
        ensures { IfOk result (λ can. (can ≡ true)
            ↔ MayAnswer self.now.terms self.now.sheet.events id at paths.now) }
    {
        if self.replied.has(id) {
            return Ok(false);
        }
        let Some(question) = open_question(self.questions.as_slice(), id, at) else {
            return Ok(false);
        };
        // A text has one tree.
        query_law();
        let hits = question.hits(self.alloc)?;
        Ok(are_same(hits.items(), paths.items()))
    }
}

// The question of a query that was opened right before the place.
fn open_question(questions: &[Question], id: u64, at: u64) -> Option<&Question>
    ensures { option_copied result ≡ find (λ q. q.id == id && q.at == at) questions.now }
{
    questions
        .iter()
        .find(|question| question.id == id && question.at == at)
}

/// Keeps one question more.
pub fn keep_question(questions: &mut Vec<Question>, question: Question) -> Result<(), OutOfMemory>
    ensures ok { OnOk result (questions.new.items ≡ questions.old.items ++ question ∷ []) }
    ensures err { OnErr result (questions.new.items ≡ questions.old.items) }
{
    questions.push(question)?;
    Ok(())
}

/// The query has its reply, so that its question is kept no longer.
pub fn close_question(questions: &mut Vec<Question>, id: u64)
    ensures { questions.new.items ≡ filter (λ q. not (q.id == id)) questions.old.items }
{
    questions.retain(|question| question.id != id);
}

fn are_same(one: &[PathText], other: &[PathText]) -> bool
    ensures { (result ≡ true) ↔ (one.now ≡ other.now) }
{
    one == other
}

ghost use Rattle.std.specs.Prelude.{◌≡◌, ◌++◌, ◌∷◌, [], ⊤, IfOk, OnOk, OnErr, Option, Some, None, List, ℕ, slice_get};
ghost use Rattle.std.specs.Option.{option_copied};
ghost use Rattle.ci_holdings.specs.Asking.{TellsTree, grown};

use ci_base::OutOfMemory;
use ci_dialect::{QueryFault, Restriction};
use ci_journal::Request;
use ci_query::parse;
use ci_words::NoiseList;
use std::alloc::Global;
use std::collections::VecDeque;

/// A query that waits to be opened.
#[derive(Drop)]
pub struct Waiting {
    pub id: u64,
    pub tree: Restriction,
}

/// The tree of the query that a request asks, if it asks one.
pub fn asked_tree(
    alloc: Global,
    request: &Request,
    noise: &NoiseList,
) -> Result<Option<Restriction>, OutOfMemory>
    ensures { IfOk result (TellsTree noise.now request.now) }
{
    let Request::Query(text) = request else {
        return Ok(None);
    };
    match parse(alloc, text.as_str(), noise) {
        Ok(tree) => Ok(Some(tree)),
        Err(QueryFault::OutOfMemory) => Err(OutOfMemory),
        Err(_) => Ok(None),
    }
}

/// Has a query wait behind the others, if there is one.
pub fn enqueue(
    waiting: &mut VecDeque<Waiting>,
    id: u64,
    tree: Option<Restriction>,
) -> Result<(), OutOfMemory>
    ensures ok { OnOk result (waiting.new.items ≡ grown waiting.old.items id tree) }
    ensures err { OnErr result (waiting.new.items ≡ waiting.old.items) }
{
    if let Some(tree) = tree {
        waiting.push_back(Waiting { id, tree })?;
    }
    Ok(())
}

/// The query that waits longest, if one waits.
pub fn first_waiting(waiting: &VecDeque<Waiting>) -> Option<&Waiting>
    ensures { option_copied result ≡ slice_get waiting.now.items 0 }
{
    waiting.front()
}

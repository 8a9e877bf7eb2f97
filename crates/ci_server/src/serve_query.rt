ghost use Rattle.std.specs.Prelude.{OnOk, IfOk, IfErr};
ghost use Rattle.ci_dialect.specs.declared.restriction.Restriction.{Restriction as Tree};
ghost use Rattle.ci_dialect.specs.Tree.{IsTree};
ghost use Rattle.ci_server.specs.Right.{HasFault};
ghost use Rattle.ci_server.specs.Served.{IsJustAsked, ServesSteps, StopsSteps};

use crate::{FOREGROUND, say_reply};
use ci_base::{OutOfMemory, Text};
use ci_core::{Catalog, CoreFault};
use ci_dialect::QueryKind;
use ci_io::Sink;
use ci_journal::{Reply, Request};
use ci_query::parse;
use ci_words::NoiseList;
use std::alloc::Global;

/// Opens the query, looks its hits up, and answers it. A text that is no query is answered with its
/// first fault.
pub fn serve_query<K: Sink + Drop>(
    alloc: Global,
    catalog: &mut Catalog<K>,
    id: u64,
    text: &Text,
) -> Result<(), CoreFault>
    requires { IsJustAsked catalog.old id (Request.Query text.now) }
    ensures ok { OnOk result (ServesSteps catalog.old catalog.new id (Request.Query text.now)) }
    ensures err { IfErr result (StopsSteps catalog.old catalog.new id (Request.Query text.now)) }
{
    let Some(question) = catalog.open_query(FOREGROUND)? else {
        let (kind, at) = first_fault(alloc, text, catalog.noise())?;
        return say_reply(catalog, id, Reply::QueryFault { kind, at });
    };
    let hits = question.hits(alloc)?;
    catalog.answer(FOREGROUND, question.id, question.at, hits)?;
    Ok(())
}

// The first fault of a text that has no tree: its kind, and the number of bytes before it.
fn first_fault(
    alloc: Global,
    text: &Text,
    noise: &NoiseList,
) -> Result<(QueryKind, u64), OutOfMemory>
    requires { (tree : Tree) → IsTree noise.now text.now tree → ⊥ }
    ensures { IfOk result (λ met. HasFault noise.now text.now met.0 met.1) }
{
    match parse(alloc, text.as_str(), noise) {
        Ok(_) => unreachable!(),
        Err(fault) => match fault.met() {
            Some(met) => Ok(met),
            None => Err(OutOfMemory),
        },
    }
}

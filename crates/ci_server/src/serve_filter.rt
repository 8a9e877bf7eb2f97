ghost use Rattle.std.specs.Prelude.{◌≡◌, [], IfErr, IfOk, OnOk, length};
ghost use Rattle.ci_journal.specs.declared.request.Request.TheVariants.{Filter};
ghost use Rattle.ci_journal.specs.Filings.{out};
ghost use Rattle.ci_journal.specs.Pending.{unfiltered};
ghost use Rattle.ci_server.specs.Served.{IsJustAsked, ServesSteps, StopsSteps};
ghost use Rattle.ci_worker.specs.Working.{Holds, KeepsOn};

use crate::{FOREGROUND, say_reply};
use ci_base::OutOfMemory;
use ci_core::{Catalog, CoreFault};
use ci_io::Sink;
use ci_journal::Reply;
use ci_link::Spawner;
use ci_worker::Worker;
use std::alloc::Global;

/// Erases what was deleted, has what is free filtered, and tells how many documents are set aside,
/// or that no daemon can be had.
pub fn serve_filter<K: Sink + Drop, P: Spawner + Drop>(
    alloc: Global,
    worker: &mut Worker<P>,
    program: &str,
    catalog: &mut Catalog<K>,
    id: u64,
) -> Result<(), CoreFault>
    requires asked { IsJustAsked catalog.old id Filter }
    requires holds { Holds worker.old catalog.old.sheet.events 0 }
    ensures ok { OnOk result (ServesSteps catalog.old catalog.new id Filter) }
    ensures back { OnOk result (out catalog.new.sheet.events ≡ []) }
    ensures holds { OnOk result (Holds worker.new catalog.new.sheet.events 0) }
    ensures err { IfErr result (StopsSteps catalog.old catalog.new id Filter) }
    ensures keeps { KeepsOn worker.old catalog.old.sheet.events
        worker.new catalog.new.sheet.events }
{
    if worker.filter(alloc, catalog, FOREGROUND, program)? {
        let reply = filtered(catalog)?;
        return say_reply(catalog, id, reply);
    }
    say_reply(catalog, id, Reply::NoDaemon)
}

// How many documents are set aside.
fn filtered<K: Sink + Drop>(catalog: &Catalog<K>) -> Result<Reply, OutOfMemory>
    ensures { IfOk result (λ said. said
        ≡ Reply.Filtered (length (unfiltered catalog.now.terms catalog.now.sheet.events))) }
{
    let paths = catalog.unfiltered()?;
    Ok(Reply::Filtered(paths.items().len() as u32))
}

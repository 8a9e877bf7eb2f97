ghost use Rattle.std.specs.Prelude.{◌≡◌, IfErr, IfOk, map};
ghost use Rattle.std.specs.FinMap.{entries};
ghost use Rattle.ci_change.specs.Pending.{ListsByPath};
ghost use Rattle.ci_core.specs.Fixed.{KeepsFixed};
ghost use Rattle.ci_journal.specs.Pending.{pending};
ghost use Rattle.ci_journal.specs.Served.{live_map};
ghost use Rattle.ci_journal.specs.Step.{Run};
ghost use Rattle.ci_journal.specs.Filings.{out};
ghost use Rattle.ci_journal.specs.Law.{AllAnswer};
ghost use Rattle.ci_play.specs.Apart.{AreApart};
ghost use Rattle.ci_play.specs.Played.{Played, StopsBehind};

use crate::{Step, run_core};
use ci_core::{Catalog, CoreFault};
use ci_io::Sink;
use ci_journal::{Notices, Paths};

/// What stands behind a list of steps: the paths of the documents and the notices that are pending,
/// both in byte order of paths.
#[derive(Drop)]
pub struct Standing {
    pub paths: Paths,
    pub pending: Notices,
}

/// Plays the steps as `run_core` does, and lists what stands behind them. Where they were all played
/// and there is no memory for the lists, the answer is `OutOfMemory`, and the steps stay made.
pub fn run_and_list<K: Sink + Drop>(
    catalog: &mut Catalog<K>,
    steps: Vec<Step>,
) -> Result<Standing, CoreFault>
    ensures ok { IfOk result (λ standing. Played catalog.old steps.items catalog.new) }
    ensures refused { IfErr result (StopsBehind catalog.old steps.items catalog.new) }
    ensures fixed { KeepsFixed catalog.old catalog.new }
    ensures run { Run catalog.new.terms catalog.new.sheet.events }
    ensures answers { AllAnswer catalog.new.terms catalog.new.sheet.events }
    ensures apart { AreApart (out catalog.new.sheet.events) }
    ensures paths { IfOk result (λ standing. standing.paths
        ≡ map (λ d. d.0) (entries (live_map catalog.new.terms catalog.new.sheet.events))) }
    ensures pending { IfOk result (λ standing.
        ListsByPath (pending catalog.new.terms catalog.new.sheet.events) standing.pending) }
{
    run_core(catalog, steps)?;
    let paths = catalog.paths()?;
    let pending = catalog.pending()?;
    Ok(Standing { paths, pending })
}

ghost use Rattle.std.specs.Prelude.{◌≡◌, OnOk, IfErr};
ghost use Rattle.ci_core.specs.Fixed.{KeepsFixed};
ghost use Rattle.ci_journal.specs.Step.{Run};
ghost use Rattle.ci_journal.specs.Filings.{out};
ghost use Rattle.ci_journal.specs.Law.{AllAnswer};
ghost use Rattle.ci_play.specs.Apart.{AreApart};
ghost use Rattle.ci_play.specs.Played.{Played, PlayedUntil};

use crate::Step;
use crate::play::play;
use ci_core::{Catalog, CoreFault};
use ci_io::Sink;

/// Plays the steps in order. One whose condition doesn't hold is passed over. At the first that is
/// refused the rest are left, and its fault is answered.
pub fn run_core<K: Sink + Drop>(catalog: &mut Catalog<K>, steps: Vec<Step>) -> Result<(), CoreFault>
    ensures ok { OnOk result (Played catalog.old steps.items catalog.new) }
    ensures refused { IfErr result (PlayedUntil catalog.old steps.items catalog.new) }
    ensures unrefused { OnOk result (catalog.new.refusal ≡ catalog.old.refusal) }
    ensures fixed { KeepsFixed catalog.old catalog.new }
    ensures run { Run catalog.new.terms catalog.new.sheet.events }
    ensures answers { AllAnswer catalog.new.terms catalog.new.sheet.events }
    ensures apart { AreApart (out catalog.new.sheet.events) }
{
    let played = play_all(catalog, steps);
    tell_run(catalog);
    played
}

fn play_all<K: Sink + Drop>(catalog: &mut Catalog<K>, steps: Vec<Step>) -> Result<(), CoreFault>
    ensures ok { OnOk result (Played catalog.old steps.items catalog.new) }
    ensures refused { IfErr result (PlayedUntil catalog.old steps.items catalog.new) }
    ensures unrefused { OnOk result (catalog.new.refusal ≡ catalog.old.refusal) }
    ensures fixed { KeepsFixed catalog.old catalog.new }
{
    for step in steps {
        play(catalog, step)?;
    }
    Ok(())
}

// A catalogue's journal is a run. A call does nothing.
fn tell_run<K: Sink + Drop>(catalog: &Catalog<K>)
    ensures run { Run catalog.now.terms catalog.now.sheet.events }
    ensures answers { AllAnswer catalog.now.terms catalog.now.sheet.events }
    ensures apart { AreApart (out catalog.now.sheet.events) }
{
    let _journal = catalog.journal();
}

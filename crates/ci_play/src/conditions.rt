ghost use Rattle.std.specs.Prelude.{◌≡◌, ◌↔◌, ◌<◌, length, true};
ghost use Rattle.ci_change.specs.declared.notice.What.{What};
ghost use Rattle.ci_journal.specs.Step.{MayEnd, MayPut};
ghost use Rattle.ci_journal.specs.Terms.{Terms, empty_beginning};
ghost use Rattle.ci_holdings.specs.Batches.{CanFinish};

use crate::batch_out::{is_begun_by, is_out};
use crate::latest::is_latest_change;
use ci_base::{PathText, Seq};
use ci_change::Batch;
use ci_journal::{Event, Outcomes};

pub fn can_put(events: &[Event], by: u32, path: &PathText, seq: Seq) -> bool
    ensures { (terms : Terms) → terms.beginning ≡ empty_beginning →
        (result ≡ true) ↔ (MayPut terms events.now by
        (record { path = path.now; seq = seq; what = What.Changed })) }
{
    by == 0 && is_latest_change(events, path, seq)
}

pub fn can_finish(events: &[Event], by: u32, batch: &Batch, outcomes: &Outcomes) -> bool
    ensures { (result ≡ true) ↔ CanFinish events.now by batch.now outcomes.now }
{
    is_out(events, batch)
        && is_begun_by(events, by, batch)
        && outcomes.items().len() == batch.docs.items().len()
}

pub fn can_die(events: &[Event], by: u32, batch: &Batch, charged: u32) -> bool
    ensures { (result ≡ true) ↔ (MayEnd events.now by batch.now.number batch.now
        × (charged < length batch.now.docs)) }
{
    can_return(events, by, batch) && (charged as usize) < batch.docs.items().len()
}

pub fn can_return(events: &[Event], by: u32, batch: &Batch) -> bool
    ensures { (result ≡ true) ↔ MayEnd events.now by batch.now.number batch.now }
{
    is_out(events, batch) && is_begun_by(events, by, batch)
}

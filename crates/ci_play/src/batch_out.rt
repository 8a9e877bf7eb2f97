ghost use Rattle.std.specs.Prelude.{◌≡◌, ◌↔◌, true, Contains};
ghost use Rattle.ci_journal.specs.declared.event.Happened.TheVariants.{Begun};
ghost use Rattle.ci_journal.specs.Filings.{out};
ghost use Rattle.ci_journal.specs.Tells.{event};

use crate::same::is_same;
use crate::told::{batch_in, is_out_behind};
use ci_change::Batch;
use ci_journal::Event;

/// Whether the batch was begun, and isn't done.
pub fn is_out(events: &[Event], batch: &Batch) -> bool
    ensures { (result ≡ true) ↔ Contains (out events.now) batch.now }
{
    let mut is_out = false;
    for event in events {
        is_out = is_out_behind(is_out, &event.what, batch);
    }
    is_out
}

/// Whether this author began the batch.
pub fn is_begun_by(events: &[Event], by: u32, batch: &Batch) -> bool
    ensures { (result ≡ true) ↔ Contains events.now (event by (Begun batch.now)) }
{
    for event in events {
        if tells_begun(event, by, batch) {
            return true;
        }
    }
    false
}

fn tells_begun(told: &Event, by: u32, batch: &Batch) -> bool
    ensures { (result ≡ true) ↔ (told.now ≡ event by (Begun batch.now)) }
{
    match batch_in(&told.what) {
        Some(begun) => told.by == by && is_same(begun, batch),
        None => false,
    }
}

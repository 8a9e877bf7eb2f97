ghost use Rattle.std.specs.Prelude.{◌≡◌, ◌↔◌, true, Contains};
ghost use Rattle.std.specs.Option.{option_copied};
ghost use Rattle.ci_journal.specs.Filings.{Filings, without_number};
ghost use Rattle.ci_journal.specs.Tells.{tells};
ghost use Rattle.ci_play.specs.Told.{batch_of, out_behind};

use crate::same::is_same;
use ci_change::{Batch, Notice};
use ci_journal::Happened;

/// The notice that is noted, if one is.
pub fn notice_in(what: &Happened) -> Option<&Notice>
    ensures { option_copied result ≡ (tells what.now).notice }
{
    match what {
        Happened::Asked { .. } => None,
        Happened::Noted { notice } => Some(notice),
        Happened::Put { .. } => None,
        Happened::Erased { .. } => None,
        Happened::Started => None,
        Happened::StartFailed => None,
        Happened::DaemonLost => None,
        Happened::Begun { .. } => None,
        Happened::BatchDone { .. } => None,
        Happened::BatchDied { .. } => None,
        Happened::Returned { .. } => None,
        Happened::Shadowed => None,
        Happened::MasterBegun => None,
        Happened::MasterStep { .. } => None,
        Happened::MasterEnded => None,
        Happened::Opened { .. } => None,
        Happened::Answered { .. } => None,
        Happened::Said { .. } => None,
    }
}

/// The batch that is begun, if one is.
pub fn batch_in(what: &Happened) -> Option<&Batch>
    ensures { option_copied result ≡ batch_of what.now }
{
    match what {
        Happened::Asked { .. } => None,
        Happened::Noted { .. } => None,
        Happened::Put { .. } => None,
        Happened::Erased { .. } => None,
        Happened::Started => None,
        Happened::StartFailed => None,
        Happened::DaemonLost => None,
        Happened::Begun { batch } => Some(batch),
        Happened::BatchDone { .. } => None,
        Happened::BatchDied { .. } => None,
        Happened::Returned { .. } => None,
        Happened::Shadowed => None,
        Happened::MasterBegun => None,
        Happened::MasterStep { .. } => None,
        Happened::MasterEnded => None,
        Happened::Opened { .. } => None,
        Happened::Answered { .. } => None,
        Happened::Said { .. } => None,
    }
}

/// Whether the batch is out behind the event, where it was out before or wasn't.
pub fn is_out_behind(was_out: bool, what: &Happened, batch: &Batch) -> bool
    ensures { (filed : Filings) → ((was_out ≡ true) ↔ Contains filed.out batch.now) →
        (result ≡ true) ↔ Contains (out_behind filed what.now) batch.now }
{
    match what {
        Happened::Asked { .. } => was_out,
        Happened::Noted { .. } => was_out,
        Happened::Put { .. } => was_out,
        Happened::Erased { .. } => was_out,
        Happened::Started => was_out,
        Happened::StartFailed => was_out,
        Happened::DaemonLost => was_out,
        Happened::Begun { batch: begun } => was_out || is_same(begun, batch),
        Happened::BatchDone { number, .. } => is_still_out(was_out, *number, batch),
        Happened::BatchDied { number, .. } => is_still_out(was_out, *number, batch),
        Happened::Returned { number } => is_still_out(was_out, *number, batch),
        Happened::Shadowed => was_out,
        Happened::MasterBegun => was_out,
        Happened::MasterStep { .. } => was_out,
        Happened::MasterEnded => was_out,
        Happened::Opened { .. } => was_out,
        Happened::Answered { .. } => was_out,
        Happened::Said { .. } => was_out,
    }
}

// Whether the batch is still out behind the end of the one with this number.
fn is_still_out(was_out: bool, number: u64, batch: &Batch) -> bool
    ensures { (filed : Filings) → ((was_out ≡ true) ↔ Contains filed.out batch.now) →
        (result ≡ true) ↔ Contains (without_number filed.out number) batch.now }
{
    was_out && number != batch.number
}

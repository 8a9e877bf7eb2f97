ghost use Rattle.std.specs.Prelude.{◌≡◌, ◌↔◌, true, Some};
ghost use Rattle.std.specs.Option.{option_map};
ghost use Rattle.ci_change.specs.declared.notice.What.{What};
ghost use Rattle.ci_journal.specs.Folds.{latest};
ghost use Rattle.ci_journal.specs.Terms.{Terms, empty_beginning};
ghost use Rattle.ci_play.specs.Latest.{latest_new};

use crate::told::notice_in;
use ci_base::{PathText, Seq};
use ci_change::What;
use ci_journal::Event;

/// Whether the path's latest notice tells of a change, under this number.
pub fn is_latest_change(events: &[Event], path: &PathText, seq: Seq) -> bool
    ensures { (terms : Terms) → terms.beginning ≡ empty_beginning →
        (result ≡ true) ↔ (latest terms events.now path.now
        ≡ Some (record { path = path.now; seq = seq; what = What.Changed })) }
{
    match latest_new(events, path) {
        Some((found, What::Changed)) => found == seq,
        Some((_, What::Deleted)) => false,
        None => false,
    }
}

// The number and the kind of the path's latest notice, if it has one.
fn latest_new(events: &[Event], path: &PathText) -> Option<(Seq, What)>
    ensures { option_map (λ n. (n.seq, n.what)) (latest_new events.now path.now) ≡ result }
{
    let mut found = None;
    for event in events {
        if let Some(notice) = notice_in(&event.what) {
            if notice.path == *path {
                found = Some((notice.seq, notice.what));
            }
        }
    }
    found
}

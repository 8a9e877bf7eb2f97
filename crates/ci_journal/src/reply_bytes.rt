ghost use Rattle.std.specs.Prelude.{◌≡◌, ◌<◌, ◌+◌, ◌^◌, length, flat_map, decimal};
ghost use Rattle.ci_journal.specs.Bytes.{capped};
ghost use Rattle.ci_journal.specs.Printed.{line, list_lines, notice_line, property_text, reply_lines, reply_text, status_text};

use crate::reply_text::{kind_word, shape_word};
use crate::{Counts, Reply};
use ci_base::{PathText, PropNo};
use ci_change::Notice;
use ci_props::name_of;

/// What a reply's printed lines count.
pub(crate) fn reply_len(id: u64, reply: &Reply) -> u64
    ensures { result ≡ capped (length (reply_lines id reply.now)) }
{
    // The first line has the number, a space, the text and a line feed.
    reply_text_len(reply)
        .saturating_add(decimal_len(id) + 2)
        .saturating_add(list_len(reply))
}

// The fixed words of each text are counted here; what stands between them is counted below.
fn reply_text_len(reply: &Reply) -> u64
    ensures { result ≡ capped (length (reply_text reply.now)) }
{
    match reply {
        Reply::Ok => 2,
        Reply::Bad => 3,
        Reply::Long => 4,
        Reply::Outside => 7,
        Reply::QueryFault { kind, at } => {
            16 + (kind_word(*kind).len() as u64).saturating_add(decimal_len(*at))
        }
        Reply::Filtered(count) => 9 + decimal_len(u64::from(*count)),
        Reply::NoDaemon => 8,
        Reply::Shadowed => 8,
        Reply::Merged => 6,
        Reply::Begun => 5,
        Reply::Split(key) => property_len(key.property)
            .saturating_add(key.word.as_str().len() as u64)
            .saturating_add(7),
        Reply::Scanned {
            changed,
            deleted,
            skipped,
        } => 7 + decimal_len(*changed) + decimal_len(*deleted) + decimal_len(*skipped),
        Reply::ListFault => 9,
        Reply::Pending(notices) => 8 + decimal_len(notices.items().len() as u64),
        Reply::Unfiltered(paths) => 11 + decimal_len(paths.items().len() as u64),
        Reply::Status(counts) => status_len(counts),
        Reply::Loaded { count, bytes } => {
            8 + decimal_len(u64::from(*count)) + decimal_len(*bytes)
        }
        Reply::Done => 4,
        Reply::Bye => 3,
    }
}

fn property_len(property: PropNo) -> u64
    ensures { result ≡ capped (length (property_text property)) }
{
    match name_of(property) {
        Some(name) => name.len() as u64,
        None => decimal_len(u64::from(property.0)),
    }
}

fn status_len(counts: &Counts) -> u64
    ensures { result ≡ capped (length (status_text counts.now)) }
{
    let documents = decimal_len(u64::from(counts.documents))
        + decimal_len(u64::from(counts.pending))
        + decimal_len(u64::from(counts.unfiltered));
    let index = decimal_len(u64::from(counts.lists)) + decimal_len(u64::from(counts.shadows));
    (shape_word(counts.master).len() as u64).saturating_add(documents + index + 62)
}

fn list_len(reply: &Reply) -> u64
    ensures { result ≡ capped (length (list_lines reply.now)) }
{
    match reply {
        Reply::Pending(notices) => notices_len(notices.items()),
        Reply::Unfiltered(paths) => lines_len(paths.items()),
        Reply::Ok
        | Reply::Bad
        | Reply::Long
        | Reply::Outside
        | Reply::QueryFault { .. }
        | Reply::Filtered(_)
        | Reply::NoDaemon
        | Reply::Shadowed
        | Reply::Merged
        | Reply::Begun
        | Reply::Split(_)
        | Reply::Scanned { .. }
        | Reply::ListFault
        | Reply::Status(_)
        | Reply::Loaded { .. }
        | Reply::Done
        | Reply::Bye => 0,
    }
}

// Each line has a word of seven letters, a space, the path and a line feed.
fn notices_len(notices: &[Notice]) -> u64
    ensures { result ≡ capped (length (flat_map notice_line notices.now)) }
{
    let mut len: u64 = 0;
    for notice in notices {
        len = len
            .saturating_add(notice.path.as_str().len() as u64)
            .saturating_add(9);
    }
    len
}

fn lines_len(paths: &[PathText]) -> u64
    ensures { result ≡ capped (length (flat_map line paths.now)) }
{
    let mut len: u64 = 0;
    for path in paths {
        len = len
            .saturating_add(path.as_str().len() as u64)
            .saturating_add(1);
    }
    len
}

fn decimal_len(number: u64) -> u64
    ensures len { result ≡ length (decimal number) }
    ensures small { result < 21 }
{
    let mut len = 1;
    let mut rest = number;
    while rest >= 10 {
        rest /= 10;
        len += 1;
    }
    len
}

ghost use Rattle.std.specs.Prelude.{◌≡◌, IfOk, string_bytes};
ghost use Rattle.ci_journal.specs.Printed.{kind_text, property_text, reply_text, shape_text, status_text};

use crate::{Counts, Reply, Shape};
use ci_base::{OutOfMemory, PropNo};
use ci_dialect::QueryKind;
use ci_props::name_of;
use std::alloc::Global;

/// A reply's first line behind the request's number.
pub(crate) fn print_text(alloc: Global, reply: &Reply) -> Result<String, OutOfMemory>
    ensures { IfOk result (λ text. string_bytes text ≡ reply_text reply.now) }
{
    match reply {
        Reply::Ok => print_word(alloc, "ok"),
        Reply::Bad => print_word(alloc, "bad"),
        Reply::Long => print_word(alloc, "long"),
        Reply::Outside => print_word(alloc, "outside"),
        Reply::QueryFault { kind, at } => print_fault(alloc, *kind, *at),
        Reply::Filtered(count) => Ok(format!(in alloc; "filtered {count}")?),
        Reply::NoDaemon => print_word(alloc, "nodaemon"),
        Reply::Shadowed => print_word(alloc, "shadowed"),
        Reply::Merged => print_word(alloc, "merged"),
        Reply::Begun => print_word(alloc, "begun"),
        Reply::Split(key) => {
            let property = print_property(alloc, key.property)?;
            Ok(format!(in alloc; "split {property} {}", key.word.as_str())?)
        }
        Reply::Scanned {
            changed,
            deleted,
            skipped,
        } => print_scan(alloc, *changed, *deleted, *skipped),
        Reply::ListFault => print_word(alloc, "listfault"),
        Reply::Pending(notices) => Ok(format!(in alloc; "pending {}", notices.items().len())?),
        Reply::Unfiltered(paths) => Ok(format!(in alloc; "unfiltered {}", paths.items().len())?),
        Reply::Status(counts) => print_status(alloc, counts),
        Reply::Loaded { count, bytes } => print_load(alloc, *count, *bytes),
        Reply::Done => print_word(alloc, "done"),
        Reply::Bye => print_word(alloc, "bye"),
    }
}

fn print_word(alloc: Global, word: &str) -> Result<String, OutOfMemory>
    ensures { IfOk result (λ text. string_bytes text ≡ word.now) }
{
    Ok(format!(in alloc; "{word}")?)
}

fn print_fault(alloc: Global, kind: QueryKind, at: u64) -> Result<String, OutOfMemory>
    ensures { IfOk result (λ text. string_bytes text ≡ reply_text (Reply.QueryFault kind at)) }
{
    Ok(format!(in alloc; "query fault {} at {at}", kind_word(kind))?)
}

/// The name of a kind of faults.
pub(crate) fn kind_word(kind: QueryKind) -> &'static str
    ensures { result.now ≡ kind_text kind }
{
    match kind {
        QueryKind::Bad => "Bad",
        QueryKind::UnknownProperty => "UnknownProperty",
        QueryKind::WrongKind => "WrongKind",
        QueryKind::TooDeep => "TooDeep",
        QueryKind::TooLong => "TooLong",
        QueryKind::OnlyNoise => "OnlyNoise",
    }
}

fn print_scan(
    alloc: Global,
    changed: u64,
    deleted: u64,
    skipped: u64,
) -> Result<String, OutOfMemory>
    ensures { IfOk result
        (λ text. string_bytes text ≡ reply_text (Reply.Scanned changed deleted skipped)) }
{
    Ok(format!(in alloc; "scan {changed} {deleted} {skipped}")?)
}

fn print_load(alloc: Global, count: u32, bytes: u64) -> Result<String, OutOfMemory>
    ensures { IfOk result (λ text. string_bytes text ≡ reply_text (Reply.Loaded count bytes)) }
{
    Ok(format!(in alloc; "loaded {count} {bytes}")?)
}

// A property's name, or its number where it has none.
fn print_property(alloc: Global, property: PropNo) -> Result<String, OutOfMemory>
    ensures { IfOk result (λ text. string_bytes text ≡ property_text property) }
{
    match name_of(property) {
        Some(name) => Ok(format!(in alloc; "{name}")?),
        None => Ok(format!(in alloc; "{}", property.0)?),
    }
}

fn print_status(alloc: Global, counts: &Counts) -> Result<String, OutOfMemory>
    ensures { IfOk result (λ text. string_bytes text ≡ status_text counts.now) }
{
    let mut text = format!(in alloc;
        "status documents {} pending {} unfiltered {}",
        counts.documents, counts.pending, counts.unfiltered
    )?;
    let index = format!(in alloc;
        " lists {} shadows {} master ",
        counts.lists, counts.shadows
    )?;
    text.push_str(index.as_str())?;
    text.push_str(shape_word(counts.master))?;
    Ok(text)
}

/// The word that `status` prints for a shape.
pub(crate) fn shape_word(shape: Shape) -> &'static str
    ensures { result.now ≡ shape_text shape }
{
    match shape {
        Shape::Absent => "none",
        Shape::Whole => "whole",
        Shape::Half => "half",
    }
}

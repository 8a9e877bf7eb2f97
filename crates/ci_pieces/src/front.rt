ghost use Rattle.std.specs.Prelude.{◌≡◌, ◌<◌, ◌≤◌, ℕ, false, [], drop, length, not, slice_index, IsCharBoundary};
ghost use Rattle.std.specs.List.{position_or_len};
ghost use Rattle.ci_pieces.specs.Bytes as byte;
ghost use Rattle.ci_pieces.specs.Front as spec;
ghost use Rattle.ci_pieces.specs.Finds.{Finds, FindsRelation};

use crate::PieceKind;
use crate::bytes::{is_end, is_name, is_quote, sign_kind};
use ci_props::Relation;

/// What may stand next, beside what may stand anywhere.
#[derive(Clone, Copy, Debug, PartialEq, Eq)]
pub enum Due {
    Any,
    Relation,
    Value,
}

/// What stands first in a text: its kind, what it says, and the text behind it.
#[derive(Clone, Copy)]
pub struct Found<'a> {
    pub kind: PieceKind,
    pub says: &'a str,
    pub rest: &'a str,
}

/// What stands first in a text that begins with no blank.
pub fn front(text: &str, due: Due) -> Found<'_>
    requires some { 0 < length text.now }
    requires shown { byte.is_blank (slice_index text.now 0) ≡ false }
    ensures { Finds (spec.front_of due (slice_index text.now 0) (drop 1 text.now)) text.now result }
{
    match due {
        Due::Any => plain(text),
        Due::Relation => match relation(text) {
            Some(found) => found,
            None => plain(text),
        },
        Due::Value => {
            if is_end(text.as_bytes()[0]) {
                plain(text)
            } else {
                bare(text)
            }
        }
    }
}

/// What may stand next behind a piece of this kind.
pub fn due_after(kind: PieceKind) -> Due
    ensures { result ≡ spec.due_after kind }
{
    match kind {
        PieceKind::Property => Due::Relation,
        PieceKind::Pattern => Due::Value,
        PieceKind::Relates(_) => Due::Value,
        _ => Due::Any,
    }
}

fn plain(text: &str) -> Found<'_>
    requires some { 0 < length text.now }
    requires shown { byte.is_blank (slice_index text.now 0) ≡ false }
    ensures { Finds (spec.plain (slice_index text.now 0) (drop 1 text.now)) text.now result }
{
    let byte = text.as_bytes()[0];
    if let Some(kind) = sign_kind(byte) {
        return sign(text, kind, 0);
    }
    match byte {
        b'"' => quoted(text),
        b'@' => named(text, PieceKind::Property),
        b'#' => named(text, PieceKind::Pattern),
        _ => run(text),
    }
}

// A sign of one byte, or of one and `more`.
fn sign(text: &str, kind: PieceKind, more: usize) -> Found<'_>
    requires within { more < length text.now }
    requires ascii { (k : ℕ) → k ≤ more → slice_index text.now k < 128 }
    ensures { Finds (record { kind = kind; says = []; more = more }) text.now result }
{
    Found {
        kind,
        says: "",
        rest: &text[1 + more..],
    }
}

// The text behind a first byte of ASCII.
fn behind_byte(text: &str) -> &str
    requires some { 0 < length text.now }
    requires ascii { slice_index text.now 0 < 128 }
    ensures { result.now ≡ drop 1 text.now }
{
    &text[1..]
}

fn relation(text: &str) -> Option<Found<'_>>
    requires { 0 < length text.now }
    ensures { FindsRelation (spec.relation (slice_index text.now 0) (drop 1 text.now)) text.now result }
{
    let is_equal_next = text.len() > 1 && text.as_bytes()[1] == b'=';
    let (relation, more) = match text.as_bytes()[0] {
        b'<' if is_equal_next => (Relation::Le, 1),
        b'<' => (Relation::Lt, 0),
        b'>' if is_equal_next => (Relation::Ge, 1),
        b'>' => (Relation::Gt, 0),
        b'=' => (Relation::Eq, 0),
        b'!' if is_equal_next => (Relation::Ne, 1),
        _ => return None,
    };
    Some(sign(text, PieceKind::Relates(relation), more))
}

fn run(text: &str) -> Found<'_>
    requires some { 0 < length text.now }
    requires begins { byte.is_end (slice_index text.now 0) ≡ false }
    ensures { Finds (spec.run (slice_index text.now 0) (drop 1 text.now)) text.now result }
{
    let (says, rest) = text.split_at(len_to_end(text));
    Found {
        kind: run_kind(says),
        says,
        rest,
    }
}

fn bare(text: &str) -> Found<'_>
    requires some { 0 < length text.now }
    requires begins { byte.is_end (slice_index text.now 0) ≡ false }
    ensures { Finds (spec.bare (slice_index text.now 0) (drop 1 text.now)) text.now result }
{
    let (says, rest) = text.split_at(len_to_end(text));
    Found {
        kind: PieceKind::Bare,
        says,
        rest,
    }
}

fn run_kind(run: &str) -> PieceKind
    ensures { result ≡ spec.run_kind run.now }
{
    if run.eq_ignore_ascii_case("and") {
        PieceKind::And
    } else if run.eq_ignore_ascii_case("or") {
        PieceKind::Or
    } else if run.eq_ignore_ascii_case("not") {
        PieceKind::Not
    } else if run.eq_ignore_ascii_case("near") {
        PieceKind::Near
    } else {
        PieceKind::Run
    }
}

fn quoted(text: &str) -> Found<'_>
    requires some { 0 < length text.now }
    requires quote { slice_index text.now 0 ≡ 34 }
    ensures { Finds (spec.quoted (drop 1 text.now)) text.now result }
{
    let behind = behind_byte(text);
    let len = len_to_quote(behind);
    if len == behind.len() {
        return Found {
            kind: PieceKind::Broken,
            says: "",
            rest: "",
        };
    }
    let (says, rest) = behind.split_at(len);
    Found {
        kind: PieceKind::Quoted,
        says,
        rest: behind_byte(rest),
    }
}

fn named(text: &str, kind: PieceKind) -> Found<'_>
    requires some { 0 < length text.now }
    requires sign { slice_index text.now 0 < 128 }
    ensures { Finds (spec.named kind (drop 1 text.now)) text.now result }
{
    let behind = behind_byte(text);
    let len = len_of_name(behind);
    if len == 0 {
        return sign(text, PieceKind::Broken, 0);
    }
    let (says, rest) = behind.split_at(len);
    Found { kind, says, rest }
}

fn len_to_end(text: &str) -> usize
    ensures first { result ≡ position_or_len byte.is_end text.now }
    ensures boundary { IsCharBoundary text.now result }
{
    let found = text.as_bytes().iter().position(|byte| is_end(*byte));
    found.unwrap_or(text.len())
}

fn len_to_quote(text: &str) -> usize
    ensures first { result ≡ position_or_len byte.is_quote text.now }
    ensures boundary { IsCharBoundary text.now result }
    ensures quote { result < length text.now → slice_index text.now result ≡ 34 }
{
    let found = text.as_bytes().iter().position(|byte| is_quote(*byte));
    found.unwrap_or(text.len())
}

fn len_of_name(text: &str) -> usize
    ensures first { result ≡ position_or_len (λ b. not (byte.is_name b)) text.now }
    ensures boundary { IsCharBoundary text.now result }
{
    let found = text.as_bytes().iter().position(|byte| !is_name(*byte));
    found.unwrap_or(text.len())
}

//! What documents come to, as rows.

use crate::frames::{frames, frames_around};
use crate::table::{Table, unmet};
use crate::talks::talked;
use ci_base::{Text8, Value};
use ci_chunk::{Outcome, Piece, StatChunk};
use ci_link::{SureMemoryLink, Talk};
use std::alloc::Global;
use std::test::Fail;

// What a talk came to: the outcome of each document, or where the talk died.
fn told_talk(alloc: Global, talk: &Talk) -> Result<String, Fail> {
    match talk {
        Talk::Finished(outcomes) => told_outcomes(alloc, outcomes.items()),
        Talk::Died { charged } => Ok(format!(in alloc; "died at {charged}")?),
    }
}

fn told_outcomes(alloc: Global, outcomes: &[Outcome]) -> Result<String, Fail> {
    let mut told = String::new(alloc);
    for (place, outcome) in outcomes.iter().enumerate() {
        told.push_str(if place == 0 { "" } else { ", " })?;
        tell_outcome(&mut told, outcome)?;
    }
    Ok(told)
}

fn tell_outcome(told: &mut String, outcome: &Outcome) -> Result<(), Fail> {
    match outcome {
        Outcome::Done(pieces) => tell_pieces(told, pieces.items()),
        Outcome::Failed(status) => Ok(write!(told, "failed {:08x}", status.0)?),
        Outcome::Refused(status) => Ok(write!(told, "refused {:08x}", status.0)?),
    }
}

fn tell_pieces(told: &mut String, pieces: &[Piece]) -> Result<(), Fail> {
    told.push_str("done")?;
    for piece in pieces {
        tell_piece(told, piece)?;
    }
    Ok(())
}

// A piece by its chunk's identifier.
fn tell_piece(told: &mut String, piece: &Piece) -> Result<(), Fail> {
    match piece {
        Piece::Words { chunk, text } => Ok(write!(told, " {}:'{}'", chunk.id, text.as_str())?),
        Piece::Held { chunk, value } => tell_value(told, chunk, value),
    }
}

fn tell_value(told: &mut String, chunk: &StatChunk, value: &Option<Value>) -> Result<(), Fail> {
    match value {
        Some(Value::Int(number)) => Ok(write!(told, " {}:{number}", chunk.id)?),
        Some(Value::Str(text)) => Ok(write!(told, " {}:held '{}'", chunk.id, text.as_str())?),
        None => Ok(write!(told, " {}:none", chunk.id)?),
    }
}

// What a talk over these answers came to.
fn told_over(alloc: Global, answers: Text8, paths: &str) -> Result<String, Fail> {
    let link = SureMemoryLink::new(alloc, answers, 4096)?;
    let (talk, _link) = talked(alloc, link, paths)?;
    told_talk(alloc, &talk)
}

// The frames that come before the answer to Init, to GetChunk, to GetText and to GetValue.
const BEFORE: [&str; 4] = ["", "o", "o1", "ov"];

// Rows of a status, and of what it comes to as the answer to each of the four calls. A text and the
// end of the chunks are still to come behind it.
struct Statuses;

impl Table for Statuses {
    fn told(alloc: Global, given: &str) -> Result<String, Fail> {
        let mut told = String::new(alloc);
        for (place, before) in BEFORE.iter().enumerate() {
            told.push_str(if place == 0 { "" } else { "; " })?;
            let one = told_after(alloc, before, given)?;
            told.push_str(one.as_str())?;
        }
        Ok(told)
    }
}

fn told_after(alloc: Global, before: &str, digits: &str) -> Result<String, Fail> {
    let answers = frames_around(alloc, before, digits, "2r.")?;
    told_over(alloc, answers, "/d/a.txt")
}

#[test]
fn a_status_is_heard_by_its_call(rt: HostRuntime) -> Result<(), Fail> {
    // the end of the chunks, of a text and of the values; no access; no text and no values; an
    // embedding and a link that can't be had
    const ROWS: &str = "\
80041700 => failed 80041700; done; failed 80041700; failed 80041700
80041701 => failed 80041701; failed 80041701; done 1:'' 2:'red'; failed 80041701
80041702 => failed 80041702; failed 80041702; failed 80041702; done 1:none 2:'red'
80041703 => failed 80041703; failed 80041703; failed 80041703; failed 80041703
80041705 => failed 80041705; failed 80041705; done 1:'' 2:'red'; failed 80041705
80041706 => failed 80041706; failed 80041706; failed 80041706; done 1:none 2:'red'
80041707 => failed 80041707; done 2:'red'; failed 80041707; failed 80041707
80041708 => failed 80041708; done 2:'red'; failed 80041708; failed 80041708";
    assert_eq!(rt; unmet::<Statuses>(rt.alloc(), ROWS)?.as_str(), "");
    Ok(())
}

#[test]
fn a_refusal_is_heard_at_each_call(rt: HostRuntime) -> Result<(), Fail> {
    // a password and a format that isn't known, and the numbers beside them
    const ROWS: &str = "\
8004170a => failed 8004170a; failed 8004170a; failed 8004170a; failed 8004170a
8004170b => refused 8004170b; refused 8004170b; refused 8004170b; refused 8004170b
8004170c => refused 8004170c; refused 8004170c; refused 8004170c; refused 8004170c
8004170d => failed 8004170d; failed 8004170d; failed 8004170d; failed 8004170d";
    assert_eq!(rt; unmet::<Statuses>(rt.alloc(), ROWS)?.as_str(), "");
    Ok(())
}

#[test]
fn a_status_that_fails_has_its_top_bit_set(rt: HostRuntime) -> Result<(), Fail> {
    // one that doesn't opens a document, and is no legal answer to another call: that all is well,
    // that a text or the values were the last, the greatest such number
    const ROWS: &str = "\
00000000 => done 2:'red'; died at 0; died at 0; died at 0
00041709 => done 2:'red'; died at 0; died at 0; died at 0
0004170a => done 2:'red'; died at 0; died at 0; died at 0
0004170b => done 2:'red'; died at 0; died at 0; died at 0
7fffffff => done 2:'red'; died at 0; died at 0; died at 0
80000000 => failed 80000000; failed 80000000; failed 80000000; failed 80000000
ffffffff => failed ffffffff; failed ffffffff; failed ffffffff; failed ffffffff";
    assert_eq!(rt; unmet::<Statuses>(rt.alloc(), ROWS)?.as_str(), "");
    Ok(())
}

// Rows of a daemon's frames, a letter each, and of the paths that are asked for.
struct Documents;

impl Table for Documents {
    fn told(alloc: Global, given: &str) -> Result<String, Fail> {
        let (letters, paths) = given.split_once("; ").ok_or("paths")?;
        told_over(alloc, frames(alloc, letters)?, paths)
    }
}

#[test]
fn chunks_give_their_pieces(rt: HostRuntime) -> Result<(), Fail> {
    // texts in parts; a number, a text value; a value that is kept; answers that no call may have
    const ROWS: &str = "\
o.; /d/a.txt => done
o1br2be.; /d/a.txt => done 1:'bluered' 2:'blue'
ov72r.; /d/a.txt => done 1:7 2:'red'
ovg.; /d/a.txt => done 1:held 'green'
ok2r.; /d/a.txt => done 2:'red'
1; /d/a.txt => died at 0
or; /d/a.txt => died at 0
o17; /d/a.txt => died at 0
ovr; /d/a.txt => died at 0
o1c; /d/a.txt => died at 0
o2r1r.; /d/a.txt => died at 0";
    assert_eq!(rt; unmet::<Documents>(rt.alloc(), ROWS)?.as_str(), "");
    Ok(())
}

#[test]
fn each_document_of_a_batch_has_its_own_outcome(rt: HostRuntime) -> Result<(), Fail> {
    // one that fails, one that is refused and one that is read, in each order; the end within one
    const ROWS: &str = "\
oapo2r.; /d/a.txt /d/b.txt /d/c.txt => failed 80041703, refused 8004170b, done 2:'red'
o1ao2r.o?; /d/a.txt /d/b.txt /d/c.txt => failed 80041703, done 2:'red', refused 8004170c
ovpao2r.; /d/a.txt /d/b.txt /d/c.txt => refused 8004170b, failed 80041703, done 2:'red'
o1?o2r.ova; /d/a.txt /d/b.txt /d/c.txt => refused 8004170c, done 2:'red', failed 80041703
o2r.o1aop; /d/a.txt /d/b.txt /d/c.txt => done 2:'red', failed 80041703, refused 8004170b
o2r.o1b?a; /d/a.txt /d/b.txt /d/c.txt => done 2:'red', refused 8004170c, failed 80041703
ap; /d/a.txt /d/b.txt /d/c.txt => died at 2
po1ro; /d/a.txt /d/b.txt /d/c.txt => died at 1";
    assert_eq!(rt; unmet::<Documents>(rt.alloc(), ROWS)?.as_str(), "");
    Ok(())
}

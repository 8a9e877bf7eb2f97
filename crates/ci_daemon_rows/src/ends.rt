//! How services end.

use crate::pipe::all_come;
use crate::service::{CutOff, Unread, Whole};
use std::test::Fail;

#[test]
fn ends_of_the_source(rt: HostRuntime) -> Result<(), Fail> {
    // nothing at all; a frame that is cut; a length that is cut
    const ROWS: &str = "\
nothing => Quiet nothing
05 => BadFrame nothing
get_chunk 0503 => BadFrame end_of_chunks
get_chunk 80 => BadFrame end_of_chunks";
    all_come::<Whole>(rt.alloc(), ROWS)
}

#[test]
fn frames_that_are_no_calls(rt: HostRuntime) -> Result<(), Fail> {
    // an answer; a body of no kind; no body; a length that is spelled longer than it need be
    const ROWS: &str = "\
get_chunk ok get_chunk => BadFrame end_of_chunks
get_chunk 0109 get_chunk => BadFrame end_of_chunks
get_chunk 00 get_chunk => BadFrame end_of_chunks
get_chunk 810002 get_chunk => BadFrame end_of_chunks";
    all_come::<Whole>(rt.alloc(), ROWS)
}

#[test]
fn faults(rt: HostRuntime) -> Result<(), Fail> {
    const UNREAD: &str = "\
get_chunk => ReadFault end_of_chunks
init:/a.txt get_text 05 => ReadFault ok no_text";
    const CUT_OFF: &str = "\
get_chunk => Quiet end_of_chunks
get_chunk get_chunk get_chunk => WriteFault end_of_chunks 05108004";
    all_come::<Unread>(rt.alloc(), UNREAD)?;
    all_come::<CutOff>(rt.alloc(), CUT_OFF)
}

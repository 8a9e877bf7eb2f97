//! What is answered to calls in turn and out of turn.

use crate::pipe::all_come;
use crate::service::{NoFiles, TwoPlain, Whole};
use std::test::Fail;

#[test]
fn files_of_each_kind(rt: HostRuntime) -> Result<(), Fail> {
    // a path that no filter takes, and a file that is no text, are of no format; a file that isn't
    // there has no bytes
    const ROWS: &str = "\
init:/x.zip => Quiet unknown
init:/a.txt => Quiet ok
init:/b.props init:/c.bin init:/d.txt init:/x.dat => Quiet ok ok unknown ok
init:/a.txt get_chunk get_value get_value => Quiet ok filename 0b130000000002612e747874 no_more_values
init:/c.bin get_chunk get_chunk get_value => Quiet ok filename size 0e1300000000010000000000000002
init:/a.txt get_chunk get_chunk get_chunk get_text get_text => Quiet ok filename size contents 081200041709726564 no_more_text";
    all_come::<Whole>(rt.alloc(), ROWS)
}

#[test]
fn calls_out_of_turn(rt: HostRuntime) -> Result<(), Fail> {
    // no document; no chunk yet; a chunk of the other kind; behind the last chunk, whose state is
    // still that of the chunk that was given last; behind an Init that opens nothing; a new document
    const ROWS: &str = "\
get_chunk get_text get_value => Quiet end_of_chunks end_of_chunks end_of_chunks
init:/a.txt get_text get_value => Quiet ok no_text no_values
init:/a.txt get_chunk get_text => Quiet ok filename no_text
init:/a.txt get_chunk get_chunk get_chunk get_value => Quiet ok filename size contents no_values
init:/c.bin get_chunk get_chunk get_chunk get_chunk get_value get_value => Quiet ok filename size end_of_chunks end_of_chunks 0e1300000000010000000000000002 no_more_values
init:/a.txt get_chunk init:/x.zip get_chunk get_value => Quiet ok filename unknown end_of_chunks end_of_chunks
init:/a.txt get_chunk init:/c.bin get_value get_chunk => Quiet ok filename ok no_values filename";
    all_come::<Whole>(rt.alloc(), ROWS)
}

#[test]
fn a_long_document_comes_in_pieces(rt: HostRuntime) -> Result<(), Fail> {
    const ROWS: &str = "\
init:/long.txt get_chunk get_chunk get_chunk get_text get_text get_text => Quiet ok filename size contents 8580011200000000 a*16384 a51c1200041709 a*3616 no_more_text";
    all_come::<Whole>(rt.alloc(), ROWS)
}

#[test]
fn the_first_filter_that_takes_a_document_holds_it(rt: HostRuntime) -> Result<(), Fail> {
    const ROWS: &str = "\
init:/a.txt get_chunk get_chunk get_chunk get_text => Quiet ok filename size contents 081200041709726564";
    all_come::<TwoPlain>(rt.alloc(), ROWS)
}

#[test]
fn a_file_that_fails_opens_nothing(rt: HostRuntime) -> Result<(), Fail> {
    const ROWS: &str = "\
init:/a.txt get_chunk get_text => Quiet access end_of_chunks end_of_chunks";
    all_come::<NoFiles>(rt.alloc(), ROWS)
}

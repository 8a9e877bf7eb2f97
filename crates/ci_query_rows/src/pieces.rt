//! Queries cut into pieces.

use crate::table::{Table, all_hold};
use ci_pieces::pieces;
use std::alloc::Global;
use std::test::Fail;

// Rows of queries: the pieces of each with their places and what they say.
struct Cut;

impl Table for Cut {
    fn told(alloc: Global, given: &str) -> Result<String, Fail> {
        let mut told = String::new(alloc);
        for piece in pieces(alloc, given)? {
            write!(told, "{:?} {} {}|", piece.kind(), piece.at(), piece.text())?;
        }
        Ok(told)
    }
}

#[test]
fn a_query_is_cut_into_pieces(rt: HostRuntime) -> Result<(), Fail> {
    const ROWS: &str = "\
(re*|\"a b\") => Open 0 |Run 1 re*|Or 4 |Quoted 5 a b|Close 10 |
\x20And @Size>=-5 => And 1 And|Property 5 Size|Relates(Ge) 10 |Bare 12 -5|
#Filename *.txt => Pattern 0 Filename|Bare 10 *.txt|
@ x\" => Broken 0 |Run 2 x|Broken 3 |
\x20\t  => ";
    all_hold::<Cut>(rt.alloc(), ROWS)
}

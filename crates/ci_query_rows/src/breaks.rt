//! Documents of several pieces: words of one phrase on either side of a break, and values.

use crate::entries::{entry_read, read};
use crate::show::tree;
use crate::table::{Table, all_hold, whether};
use ci_base::PathText;
use ci_chunk::Transcript;
use ci_keys::Entry;
use ci_query::Restriction;
use ci_restrict::satisfies;
use std::alloc::Global;
use std::test::Fail;

// Whether a document of these pieces satisfies a query.
fn holds(alloc: Global, pieces: &str, query: &str) -> Result<bool, Fail> {
    is_satisfied(alloc, &read(alloc, pieces)?, query)
}

fn is_satisfied(alloc: Global, read: &Transcript, query: &str) -> Result<bool, Fail> {
    is_held(alloc, tree(alloc, query)?.get(), &entry_read(alloc, read)?)
}

fn is_held(alloc: Global, restriction: &Restriction, entry: &Entry) -> Result<bool, Fail> {
    let path = PathText::read(alloc, b"/d/a.txt")?;
    Ok(satisfies(alloc, restriction, &path, entry)?)
}

// Rows of a document's pieces and a query.
struct OfPieces;

impl Table for OfPieces {
    fn told(alloc: Global, given: &str) -> Result<String, Fail> {
        let (pieces, query) = given.split_once(": ").ok_or("a query")?;
        let held = holds(alloc, pieces, query)?;
        whether(alloc, held)
    }
}

#[test]
fn a_break_parts_the_words_of_a_phrase(rt: HostRuntime) -> Result<(), Fail> {
    const ROWS: &str = "\
Eop 1 fire; NoBreak 1 fox: \"fire fox\" => false
Eop 1 fire; Eow 1 fox: \"fire fox\" => true
Eop 1 fire; Eos 1 fox: \"fire fox\" => false
Eop 1 fire; Eop 1 fox: \"fire fox\" => false
Eop 1 fire; Eoc 1 fox: \"fire fox\" => false
Eop 1 fire; Eow 1 fox: fire ~ fox => true
Eop 1 fire; Eos 1 fox: fire ~ fox => true
Eop 1 fire; Eop 1 fox: fire ~ fox => false
Eop 1 fire; Eoc 1 fox: fire ~ fox => false
Eop 1 fire; Eoc 1 fox: fire & fox => true
Eop 1 fire; NoBreak 1 fox: firefox => true
Eop 1 fire; NoBreak 1 fox: fire | fox => false
Eop 5 fire; Eow 5 fox: @DocTitle fire fox => true
Eop 5 fire; Eow 5 fox: @DocTitle fi* ~ @DocTitle fox => true
Eop 5 fire; Eow 5 fox: fire => false
Eop 5 fire; Eow 5 fox: @DocAuthor fire => false";
    all_hold::<OfPieces>(rt.alloc(), ROWS)
}

#[test]
fn numbers_compare_by_value(rt: HostRuntime) -> Result<(), Fail> {
    // the time of the last write
    const ROWS: &str = "\
value 4 -5: @Write >= -5 => true
value 4 -6: @Write >= -5 => false
value 4 10: @Write >= -5 => true
value 4 10: @Write > 9 => true
value 4 10: @Write < 9 => false
value 4 10: @Write != 10 => false
value 4 10: @Write <= 10 => true
value 4 10: @Size >= -5 => false";
    all_hold::<OfPieces>(rt.alloc(), ROWS)
}

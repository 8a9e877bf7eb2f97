//! Documents and the queries that they satisfy.

use crate::entries::entry_read;
use crate::show::tree;
use crate::table::{Table, all_hold, whether};
use ci_base::{PathText, PropNo, Text};
use ci_chunk::Transcript;
use ci_keys::Entry;
use ci_query::Restriction;
use ci_restrict::satisfies;
use sqlite_items::Boxed;
use std::alloc::Global;
use std::test::Fail;

// Whether a document of this path and text satisfies a restriction.
fn is_satisfied(
    alloc: Global,
    restriction: &Restriction,
    path: &str,
    text: &str,
) -> Result<bool, Fail> {
    let path = PathText::read(alloc, path.as_bytes())?;
    let entry = plain_entry(alloc, &path, text)?;
    Ok(satisfies(alloc, restriction, &path, &entry)?)
}

// The entry of a plain text.
fn plain_entry(alloc: Global, path: &PathText, text: &str) -> Result<Entry, Fail> {
    entry_read(alloc, &Transcript::plain(alloc, path, text)?)
}

/// Whether it satisfies a query.
pub(crate) fn holds(alloc: Global, path: &str, text: &str, query: &str) -> Result<bool, Fail> {
    is_satisfied(alloc, tree(alloc, query)?.get(), path, text)
}

// Rows of a path, a text and a query.
struct Satisfies;

impl Table for Satisfies {
    fn told(alloc: Global, given: &str) -> Result<String, Fail> {
        let (path, rest) = given.split_once("; ").ok_or("a path")?;
        let (text, query) = rest.split_once("; ").ok_or("a text")?;
        let held = holds(alloc, path, text, query)?;
        whether(alloc, held)
    }
}

#[test]
fn documents_satisfy_these_queries(rt: HostRuntime) -> Result<(), Fail> {
    const ROWS: &str = "\
/d/a.txt; Red fox; fox => true
/d/a.txt; Red fox; FOX => true
/d/a.txt; Red fox; f* => true
/d/a.txt; Red fox; ox* => false
/d/a.txt; Red fox; re* & fo* => true
/d/a.txt; king in hearts; \"king of hearts\" => true
/d/a.txt; king hearts; \"king of hearts\" => false
/d/a.txt; king of hearts; king in hearts => true
/d/a.txt; king hearts of; king of hearts => false
/d/a.txt; red big fox; \"red fox\" => false
/d/a.txt; red fox; NOT fox => false
/d/a.txt; red dog; NOT fox => true
/d/a.txt; red dog; fox | dog => true
/d/a.txt; red dog; fox & dog => false
/d/a.txt; red dog; @Size = 7 => true
/d/a.txt; red dog; @Size > 7 => false
/d/a.txt; red dog; @DocTitle = x => false
/d/a.txt; red dog; @Filename = a.txt => true
/d/a.txt; red dog; #Filename *.txt => true
/d/a.txt; red dog; #Filename *.doc => false
/d/a.txt; red dog; #scope /d => true
/d/a.txt; red dog; #scope /d/a => false
/d/a.txt; ; fox => false";
    all_hold::<Satisfies>(rt.alloc(), ROWS)
}

#[test]
fn patterns_match_file_names(rt: HostRuntime) -> Result<(), Fail> {
    const ROWS: &str = "\
/d/a.txt; red; #Filename * => true
/d/a.txt; red; #Filename ** => true
/d/a.txt; red; #Filename ? => false
/d/a.txt; red; #Filename \"\" => false
/d/a; red; #Filename ? => true
/d/é; red; #Filename ? => true
/d/é; red; #Filename ?? => false
/d/Straße; red; #Filename *ß? => true
/d/A; red; #Filename a => false
/d/?; red; #Filename ? => true";
    all_hold::<Satisfies>(rt.alloc(), ROWS)
}

// Whether two words with so many others between are near each other.
fn are_near(alloc: Global, between: usize, query: &str) -> Result<bool, Fail> {
    let mut text = String::from_str(alloc, "one")?;
    for _ in 0..between {
        text.push_str(" x")?;
    }
    text.push_str(" two")?;
    holds(alloc, "/d/a.txt", text.as_str(), query)
}

#[test]
fn near_is_within_fifty_places(rt: HostRuntime) -> Result<(), Fail> {
    for (between, wanted) in [(0, true), (49, true), (50, false)] {
        assert_eq!(rt; are_near(rt.alloc(), between, "one ~ two")?, wanted);
        assert_eq!(rt; are_near(rt.alloc(), between, "two ~ one")?, wanted);
    }
    Ok(())
}

// Whether a document of this text has the word fox, by a restriction that no text was read for.
fn has_fox(alloc: Global, text: &str) -> Result<bool, Fail> {
    is_satisfied(alloc, fox(alloc)?.get(), "/d/a.txt", text)
}

fn fox(alloc: Global) -> Result<Boxed<Restriction>, Fail> {
    let fox = Restriction::Content {
        property: PropNo(1),
        word: Text::of(alloc, "fox")?,
        prefix: false,
    };
    Ok(Boxed::new(alloc, fox)?)
}

#[test]
fn fox_is_in_red_fox(rt: HostRuntime) -> Result<(), Fail> {
    assert!(rt; has_fox(rt.alloc(), "Red fox")?);
    assert!(rt; !has_fox(rt.alloc(), "Red dog")?);
    Ok(())
}

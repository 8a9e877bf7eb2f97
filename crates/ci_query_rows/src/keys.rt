//! Keys and properties.

use crate::table::{Table, all_hold, whether};
use ci_base::{PropNo, Text};
use ci_keys::Key;
use ci_props::{Kind, kind_of, named};
use std::alloc::Global;
use std::test::Fail;

fn key(alloc: Global, text: &str) -> Result<Key, Fail> {
    let (property, word) = text.split_once(' ').ok_or("a key")?;
    Ok(Key {
        property: PropNo(if property == "2" { 2 } else { 1 }),
        word: Text::of(alloc, word)?,
    })
}

// Rows of two keys, each the number of a property and a word.
struct Before;

impl Table for Before {
    fn told(alloc: Global, given: &str) -> Result<String, Fail> {
        let (one, other) = given.split_once("; ").ok_or("two keys")?;
        let before = key(alloc, one)? < key(alloc, other)?.copy(alloc)?;
        whether(alloc, before)
    }
}

#[test]
fn keys_are_in_order_by_property_first(rt: HostRuntime) -> Result<(), Fail> {
    const ROWS: &str = "\
1 zebra; 2 ant => true
2 ant; 1 zebra => false
1 a; 1 ab => true
1 a; 1 a => false";
    all_hold::<Before>(rt.alloc(), ROWS)
}

// Rows of names: the number of the property and its kind.
struct Named;

impl Table for Named {
    fn told(alloc: Global, given: &str) -> Result<String, Fail> {
        let number = named(given).map(|property| property.0);
        Ok(format!(in alloc; "{number:?} {:?}", number.map(|n| kind_of(PropNo(n))))?)
    }
}

#[test]
fn properties_have_names_and_kinds(rt: HostRuntime) -> Result<(), Fail> {
    const ROWS: &str = "\
CONTENTS => Some(1) Some(Some(Words))
FileName => Some(2) Some(Some(Str))
Size => Some(3) Some(Some(Int))
Write => Some(4) Some(Some(Int))
DocTitle => Some(5) Some(Some(Str))
dockeywords => Some(8) Some(Some(Str))
Keywords => None None
\x20=> None None";
    all_hold::<Named>(rt.alloc(), ROWS)?;
    assert_eq!(rt; kind_of(PropNo(9)), Some(Kind::Str));
    assert_eq!(rt; kind_of(PropNo(0)), None);
    assert_eq!(rt; kind_of(PropNo(10)), None);
    Ok(())
}

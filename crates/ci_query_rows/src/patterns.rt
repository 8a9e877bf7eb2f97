//! How values compare, and which texts match a pattern.

use crate::table::{Table, all_hold, whether};
use ci_base::{Text, Value};
use ci_props::{Relation, compare, matches_pattern};
use std::alloc::Global;
use std::test::Fail;

// Rows of a pattern and a text.
struct Matched;

impl Table for Matched {
    fn told(alloc: Global, given: &str) -> Result<String, Fail> {
        let (pattern, text) = given.split_once(';').ok_or("a text")?;
        let found = matches_pattern(pattern, text);
        whether(alloc, found)
    }
}

#[test]
fn patterns_match_whole_texts(rt: HostRuntime) -> Result<(), Fail> {
    const ROWS: &str = "\
; => true
;a => false
*; => true
*;abc => true
**;abc => true
?; => false
?;a => true
?;é => true
??;é => false
*.txt;a.txt => true
*.txt;a.txt.bak => false
a*b*c;aXbYbZc => true
a*b*c;aXcYb => false
*ß?;Straße => true
a?c;a*c => true
A;a => false";
    all_hold::<Matched>(rt.alloc(), ROWS)
}

// How two texts stand to each other, also as values of two kinds, which don't.
fn compare_texts(
    alloc: Global,
    relation: Relation,
    one: &str,
    other: &str,
) -> Result<String, Fail> {
    let one = Value::Str(Text::of(alloc, one)?);
    let other = Value::Str(Text::of(alloc, other)?);
    let apart = compare(relation, &one, &Value::Int(1)).is_none()
        && compare(relation, &Value::Int(1), &one).is_none();
    Ok(format!(in alloc; "{:?} {apart}", compare(relation, &one, &other))?)
}

fn relation_named(sign: &str) -> Relation {
    match sign {
        "<" => Relation::Lt,
        "<=" => Relation::Le,
        ">" => Relation::Gt,
        ">=" => Relation::Ge,
        "=" => Relation::Eq,
        _ => Relation::Ne,
    }
}

// Rows of a relation and two texts.
struct Compared;

impl Table for Compared {
    fn told(alloc: Global, given: &str) -> Result<String, Fail> {
        let (one, rest) = given.split_once(' ').ok_or("a text")?;
        let (sign, other) = rest.split_once(' ').ok_or("a sign")?;
        compare_texts(alloc, relation_named(sign), one, other)
    }
}

#[test]
fn values_of_one_kind_compare(rt: HostRuntime) -> Result<(), Fail> {
    const ROWS: &str = "\
blue < red => Some(true) true
red < red => Some(false) true
red < blue => Some(false) true
blue <= red => Some(true) true
red <= red => Some(true) true
red <= blue => Some(false) true
blue > red => Some(false) true
red > red => Some(false) true
red > blue => Some(true) true
blue >= red => Some(false) true
red >= red => Some(true) true
red >= blue => Some(true) true
blue = red => Some(false) true
red = red => Some(true) true
red = blue => Some(false) true
blue != red => Some(true) true
red != red => Some(false) true
red != blue => Some(true) true";
    all_hold::<Compared>(rt.alloc(), ROWS)?;
    assert_eq!(rt;
        compare(Relation::Lt, &Value::Int(-5), &Value::Int(4)),
        Some(true)
    );
    assert_eq!(rt;
        compare(Relation::Ge, &Value::Int(-5), &Value::Int(4)),
        Some(false)
    );
    Ok(())
}

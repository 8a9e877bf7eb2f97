ghost use Rattle.std.specs.Prelude.{◌≡◌, IfOk};
ghost use Rattle.std.specs.List.{list_all};
ghost use Rattle.ci_query.specs.Reading.{Gives};
ghost use Rattle.ci_dialect.specs.Values as spec;

use crate::{QueryFault, Restriction};
use ci_base::{OutOfMemory, PathFault, PropNo, Text, Value};
use ci_paths::Prefix;
use ci_pieces::Piece;
use ci_props::{Kind, Relation, kind_of, named};
use std::alloc::Global;

/// The property of a name, and its kind.
pub fn known(name: &str) -> Option<(PropNo, Kind)>
    ensures { result ≡ spec.known name.now }
{
    let property = named(name)?;
    let kind = kind_of(property)?;
    Some((property, kind))
}

/// The property that has words, of a name that stands before some.
pub fn worded(name: &Piece<'_>) -> Result<PropNo, QueryFault>
    ensures { result ≡ spec.worded name.now }
{
    let at = name.at() as u64;
    match known(name.text()) {
        None => Err(QueryFault::UnknownProperty { at }),
        Some((property, kind)) => match kind {
            Kind::Words | Kind::Str => Ok(property),
            Kind::Int => Err(QueryFault::WrongKind { at }),
        },
    }
}

/// What a name, a comparison and a value say.
pub fn compared(
    alloc: Global,
    name: &Piece<'_>,
    relation: Relation,
    given: &Piece<'_>,
) -> Result<Restriction, QueryFault>
    ensures { Gives (spec.compared name.now relation given.now) result }
{
    let at = name.at() as u64;
    match known(name.text()) {
        None => Err(QueryFault::UnknownProperty { at }),
        Some((property, kind)) => match kind {
            Kind::Words => Err(QueryFault::WrongKind { at }),
            Kind::Str => Ok(Restriction::Property {
                property,
                relation,
                value: Value::Str(Text::of(alloc, given.text())?),
            }),
            Kind::Int => compared_number(property, relation, given),
        },
    }
}

fn compared_number(
    property: PropNo,
    relation: Relation,
    given: &Piece<'_>,
) -> Result<Restriction, QueryFault>
    ensures { spec.compared_number property relation given.now
        (spec.number_of given.now.text) ≡ result }
{
    match number_of(given.text()) {
        Some(number) => Ok(Restriction::Property {
            property,
            relation,
            value: Value::Int(number),
        }),
        None => {
            let at = given.at() as u64;
            Err(QueryFault::WrongKind { at })
        }
    }
}

/// What a name and the pattern behind it say.
pub fn patterned(
    alloc: Global,
    name: &Piece<'_>,
    given: &Piece<'_>,
) -> Result<Restriction, QueryFault>
    ensures { Gives (spec.patterned name.now given.now) result }
{
    if name.text().eq_ignore_ascii_case("scope") {
        return scoped(alloc, given);
    }
    let at = name.at() as u64;
    match known(name.text()) {
        None => Err(QueryFault::UnknownProperty { at }),
        Some((property, kind)) => match kind {
            Kind::Words | Kind::Int => Err(QueryFault::WrongKind { at }),
            Kind::Str => Ok(Restriction::Pattern {
                property,
                pattern: Text::of(alloc, given.text())?,
            }),
        },
    }
}

fn scoped(alloc: Global, given: &Piece<'_>) -> Result<Restriction, QueryFault>
    ensures { Gives (spec.scoped given.now) result }
{
    match Prefix::read(alloc, given.text()) {
        Ok(prefix) => Ok(Restriction::Scope(prefix)),
        Err(PathFault::BadPath) => {
            let at = given.at() as u64;
            Err(QueryFault::Bad { at })
        }
        Err(PathFault::OutOfMemory) => Err(QueryFault::OutOfMemory),
    }
}

// The number that an optional minus sign and 1 to 19 digits write.
fn number_of(text: &str) -> Option<i64>
    ensures { result ≡ spec.number_of text.now }
{
    if !is_digits(unsigned(text)) {
        return None;
    }
    text.parse::<i64>().ok()
}

fn unsigned(text: &str) -> &str
    ensures { result.now ≡ spec.unsigned text.now }
{
    if is_negative(text) { &text[1..] } else { text }
}

fn is_negative(text: &str) -> bool
    ensures { result ≡ spec.is_negative text.now }
{
    text.len() > 0 && text.as_bytes()[0] == b'-'
}

fn is_digits(text: &str) -> bool
    ensures { result ≡ spec.is_digits text.now }
{
    text.len() >= 1 && text.len() <= 19 && has_digits_alone(text)
}

fn has_digits_alone(text: &str) -> bool
    ensures { result ≡ list_all spec.is_digit text.now }
{
    text.bytes().all(|byte| byte >= b'0' && byte <= b'9')
}

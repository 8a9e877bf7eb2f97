// What a line of a head says.
ghost use Rattle.std.specs.Prelude.{◌≡◌, ◌++◌, ◌≤◌, IfOk, OnOk, length};
ghost use Rattle.ci_filters.specs.Head.{field_items, is_number, number_items, number_of, property_items, text_items, without_minus};
ghost use Rattle.std.specs.Char.{is_ascii_digit};
ghost use Rattle.std.specs.List.{list_all};

use crate::{Content, Item};
use ci_base::{OutOfMemory, PropNo, Text, Value};
use ci_props::named;
use std::alloc::Global;
use std::collections::VecDeque;

/// The number of Write, whose value is a number.
const WRITE: u16 = 4;

/// The numbers of the properties whose values are texts.
const FIRST_TEXT: u16 = 5;

const LAST_TEXT: u16 = 9;

/// The most bytes of a text that is a value.
const VALUE_BYTES: usize = 65_536;

/// The most digits of a number.
const DIGITS: usize = 19;

/// Appends the chunks of a name and a value.
#[tactic(auto, unfolding(crate::specs::Head::field_items))]
pub(crate) fn add_field(
    alloc: Global,
    name: &str,
    value: &str,
    items: &mut VecDeque<Item>,
) -> Result<(), OutOfMemory>
    ensures { OnOk result (items.new.items ≡ items.old.items ++ field_items name.now value.now) }
{
    add_property(alloc, named(name), value, items)
}

fn add_property(
    alloc: Global,
    property: Option<PropNo>,
    value: &str,
    items: &mut VecDeque<Item>,
) -> Result<(), OutOfMemory>
    ensures { OnOk result
        (items.new.items ≡ items.old.items ++ property_items property value.now) }
{
    let Some(property) = property else {
        return Ok(());
    };
    if property.0 == WRITE {
        return add_number(property, number_of(value), items);
    }
    if FIRST_TEXT <= property.0 && property.0 <= LAST_TEXT {
        return add_text(alloc, property, value, items);
    }
    Ok(())
}

fn add_number(
    property: PropNo,
    number: Option<i64>,
    items: &mut VecDeque<Item>,
) -> Result<(), OutOfMemory>
    ensures { OnOk result (items.new.items ≡ items.old.items ++ number_items property number) }
{
    if let Some(number) = number {
        items.push_back(Item::new(property, Content::Held(Value::Int(number))))?;
    }
    Ok(())
}

fn add_text(
    alloc: Global,
    property: PropNo,
    value: &str,
    items: &mut VecDeque<Item>,
) -> Result<(), OutOfMemory>
    ensures { OnOk result (items.new.items ≡ items.old.items ++ text_items property value.now) }
{
    let words = Content::Words(Text::of(alloc, value)?);
    items.push_back(Item::new(property, words))?;
    if value.len() <= VALUE_BYTES {
        let held = Content::Held(Value::Str(Text::of(alloc, value)?));
        items.push_back(Item::new(property, held))?;
    }
    Ok(())
}

fn number_of(value: &str) -> Option<i64>
    ensures { result ≡ number_of value.now }
{
    if !is_number(value) {
        return None;
    }
    value.parse().ok()
}

fn is_number(value: &str) -> bool
    ensures { result ≡ is_number value.now }
{
    let digits = without_minus(value);
    1 <= digits.len() && digits.len() <= DIGITS && are_digits(digits)
}

fn without_minus(value: &str) -> &str
    ensures { result.now ≡ without_minus value.now }
{
    match value.strip_prefix('-') {
        Some(digits) => digits,
        None => value,
    }
}

fn are_digits(text: &str) -> bool
    ensures { result ≡ list_all is_ascii_digit text.now }
{
    text.bytes().all(|byte| byte.is_ascii_digit())
}

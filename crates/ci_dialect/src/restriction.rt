ghost use Rattle.std.specs.Prelude.{◌≡◌, IfOk};

use crate::Slots;
use ci_base::{OutOfMemory, PropNo, Text, Value};
use ci_paths::Prefix;
use ci_props::Relation;
use sqlite_items::{Boxed, Items};
use std::alloc::Global;

/// What a document has to satisfy. Operands are lists, so that only nesting is recursion.
#[derive(Drop)]
pub enum Restriction {
    /// The property has the word, or a word that begins with it.
    Content {
        property: PropNo,
        word: Text,
        prefix: bool,
    },
    /// The property has these words one behind another.
    Phrase {
        property: PropNo,
        slots: Slots,
    },
    /// The property has places, one for each term in order, of which neighbours are near.
    Proximity {
        property: PropNo,
        terms: Items<Restriction>,
    },
    /// The property has a value that stands so to this one.
    Property {
        property: PropNo,
        relation: Relation,
        value: Value,
    },
    /// The property has a text that matches the pattern.
    Pattern {
        property: PropNo,
        pattern: Text,
    },
    /// The document is at the prefix or under it.
    Scope(Prefix),
    /// All of them hold.
    And(Items<Restriction>),
    /// One of them holds.
    Or(Items<Restriction>),
    /// It doesn't hold.
    Not(Boxed<Restriction>),
}

impl Restriction {
    /// Another restriction that equals this one.
    #[cycle(copies)]
    pub fn copy(&self, alloc: Global) -> Result<Restriction, OutOfMemory>
        ensures { IfOk result (λ r. r ≡ self.now) }
    {
        match self {
            Restriction::Content {
                property,
                word,
                prefix,
            } => copy_content(alloc, *property, word, *prefix),
            Restriction::Phrase { property, slots } => Ok(Restriction::Phrase {
                property: *property,
                slots: slots.copy(alloc)?,
            }),
            Restriction::Proximity { property, terms } => Ok(Restriction::Proximity {
                property: *property,
                terms: copy_all(alloc, terms.as_slice())?,
            }),
            Restriction::Property {
                property,
                relation,
                value,
            } => copy_comparison(alloc, *property, *relation, value),
            Restriction::Pattern { property, pattern } => Ok(Restriction::Pattern {
                property: *property,
                pattern: pattern.copy(alloc)?,
            }),
            Restriction::Scope(prefix) => Ok(Restriction::Scope(prefix.copy(alloc)?)),
            Restriction::And(all) => Ok(Restriction::And(copy_all(alloc, all.as_slice())?)),
            Restriction::Or(any) => Ok(Restriction::Or(copy_all(alloc, any.as_slice())?)),
            Restriction::Not(one) => {
                Ok(Restriction::Not(Boxed::new(alloc, one.get().copy(alloc)?)?))
            }
        }
    }
}

// The same restrictions once more.
#[cycle(copies)]
fn copy_all(alloc: Global, all: &[Restriction]) -> Result<Items<Restriction>, OutOfMemory>
    ensures { IfOk result (λ copied. copied ≡ all.now) }
{
    let mut copied = Items::new(alloc);
    for one in all {
        copied.push(one.copy(alloc)?)?;
    }
    Ok(copied)
}

fn copy_content(
    alloc: Global,
    property: PropNo,
    word: &Text,
    prefix: bool,
) -> Result<Restriction, OutOfMemory>
    ensures { IfOk result (λ r. r ≡ Restriction.Content property word.now prefix) }
{
    let word = word.copy(alloc)?;
    Ok(Restriction::Content {
        property,
        word,
        prefix,
    })
}

fn copy_comparison(
    alloc: Global,
    property: PropNo,
    relation: Relation,
    value: &Value,
) -> Result<Restriction, OutOfMemory>
    ensures { IfOk result (λ r. r ≡ Restriction.Property property relation value.now) }
{
    let value = value.copy(alloc)?;
    Ok(Restriction::Property {
        property,
        relation,
        value,
    })
}

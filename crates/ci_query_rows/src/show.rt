//! Restrictions and faults as short texts, such as `&(1:red !1:blue)` and `Bad 4`.

use crate::table::Table;
use ci_base::Value;
use ci_paths::Prefix;
use ci_props::Relation;
use ci_query::{QueryFault, QueryKind, Restriction, Slot, parse};
use ci_words::NoiseList;
use sqlite_items::Boxed;
use std::alloc::Global;
use std::test::Fail;

/// The tree of a text under the standard noise words. Trees stand in boxes here, which let them go in
/// one step.
pub(crate) fn tree(alloc: Global, text: &str) -> Result<Boxed<Restriction>, QueryFault> {
    let noise = NoiseList::standard(alloc)?;
    parsed(alloc, text, &noise)
}

fn parsed(alloc: Global, text: &str, noise: &NoiseList) -> Result<Boxed<Restriction>, QueryFault> {
    Ok(Boxed::new(alloc, parse(alloc, text, noise)?)?)
}

/// The tree of a text, or its first fault.
pub(crate) fn read(alloc: Global, text: &str) -> Result<String, Fail> {
    match tree(alloc, text) {
        Ok(tree) => shown(alloc, tree.get()),
        Err(fault) => fault_shown(alloc, &fault),
    }
}

/// Rows of queries.
pub(crate) struct Readings;

impl Table for Readings {
    fn told(alloc: Global, given: &str) -> Result<String, Fail> {
        read(alloc, given)
    }
}

pub(crate) fn shown(alloc: Global, tree: &Restriction) -> Result<String, Fail> {
    let mut out = String::new(alloc);
    show(&mut out, tree)?;
    Ok(out)
}

// A fault with its place.
fn fault_shown(alloc: Global, fault: &QueryFault) -> Result<String, Fail> {
    match fault.met() {
        Some((kind, at)) => Ok(format!(in alloc; "{} {at}", kind_name(kind))?),
        None => Ok(String::from_str(alloc, "OutOfMemory")?),
    }
}

fn kind_name(kind: QueryKind) -> &'static str {
    match kind {
        QueryKind::Bad => "Bad",
        QueryKind::UnknownProperty => "UnknownProperty",
        QueryKind::WrongKind => "WrongKind",
        QueryKind::TooDeep => "TooDeep",
        QueryKind::TooLong => "TooLong",
        QueryKind::OnlyNoise => "OnlyNoise",
    }
}

fn sign(relation: Relation) -> &'static str {
    match relation {
        Relation::Lt => "<",
        Relation::Le => "<=",
        Relation::Gt => ">",
        Relation::Ge => ">=",
        Relation::Eq => "=",
        Relation::Ne => "!=",
    }
}

#[cycle(show)]
fn show(out: &mut String, tree: &Restriction) -> Result<(), Fail> {
    match tree {
        Restriction::Content {
            property,
            word,
            prefix,
        } => {
            let star = if *prefix { "*" } else { "" };
            write!(out, "{}:{}{star}", property.0, word.as_str())?;
        }
        Restriction::Phrase { property, slots } => {
            write!(out, "{}:", property.0)?;
            show_slots(out, slots.items())?;
        }
        Restriction::Proximity { property, terms } => {
            write!(out, "~{}", property.0)?;
            show_list(out, terms.as_slice())?;
        }
        Restriction::Property {
            property,
            relation,
            value,
        } => {
            write!(out, "{}{}", property.0, sign(*relation))?;
            show_value(out, value)?;
        }
        Restriction::Pattern { property, pattern } => {
            write!(out, "{}#{}", property.0, pattern.as_str())?;
        }
        Restriction::Scope(prefix) => show_prefix(out, prefix)?,
        Restriction::And(all) => show_joined(out, '&', all.as_slice())?,
        Restriction::Or(any) => show_joined(out, '|', any.as_slice())?,
        Restriction::Not(one) => {
            out.push('!')?;
            show(out, one.get())?;
        }
    }
    Ok(())
}

fn show_value(out: &mut String, value: &Value) -> Result<(), Fail> {
    match value {
        Value::Int(number) => write!(out, "{number}")?,
        Value::Str(text) => write!(out, "'{}'", text.as_str())?,
    }
    Ok(())
}

fn show_prefix(out: &mut String, prefix: &Prefix) -> Result<(), Fail> {
    match prefix {
        Prefix::Root => out.push('/')?,
        Prefix::At(path) => out.push_str(path.as_str())?,
    }
    Ok(())
}

fn show_slots(out: &mut String, slots: &[Slot]) -> Result<(), Fail> {
    out.push('[')?;
    for (i, slot) in slots.iter().enumerate() {
        if i > 0 {
            out.push(' ')?;
        }
        match slot {
            Slot::Word(word) => out.push_str(word.as_str())?,
            Slot::Open => out.push('_')?,
        }
    }
    out.push(']')?;
    Ok(())
}

#[cycle(show)]
fn show_joined(out: &mut String, sign: char, list: &[Restriction]) -> Result<(), Fail> {
    out.push(sign)?;
    show_list(out, list)
}

#[cycle(show)]
fn show_list(out: &mut String, list: &[Restriction]) -> Result<(), Fail> {
    out.push('(')?;
    for (i, one) in list.iter().enumerate() {
        if i > 0 {
            out.push(' ')?;
        }
        show(out, one)?;
    }
    out.push(')')?;
    Ok(())
}

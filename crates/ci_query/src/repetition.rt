//! Rules that are repeated behind a sign.

ghost use Rattle.ci_query.specs.Opens.{ReadsBy};
ghost use Rattle.ci_query.specs.Reading.{ReadsList, read, repeated};

use crate::reader::Reader;
use crate::{QueryFault, Restriction};
use ci_dialect::Sign;
use std::alloc::Global;
use std::marker::Brand;

/// A rule of the grammar that a call names.
pub trait Named {
    ghost use Rattle.ci_dialect.specs.Rule.{Rule};

    ghost rule: { Rule };
}

impl Named for Brand {
    ghost use Rattle.ci_dialect.specs.Grammar.{refuse};

    ghost rule = { refuse };
}

/// { sign rule } behind a first tree, where `one` reads by the rule.
pub fn read_list<K: Named, F: Fn(&mut Reader<'_, '_>) -> Result<Restriction, QueryFault>>(
    alloc: Global,
    reader: &mut Reader<'_, '_>,
    sign: Sign,
    first: Restriction,
    one: F,
) -> Result<Vec<Restriction>, QueryFault>
    requires { ReadsBy K.rule (F.pre one) (F.post one) }
    ensures { ReadsList first (repeated sign (read K.rule) reader.old) result reader.new }
{
    let mut list = Vec::new(alloc);
    list.push(first)?;
    for _turn in 0..reader.left() {
        if !reader.eat(sign) {
            return Ok(list);
        }
        list.push(one(reader)?)?;
    }
    Ok(list)
}

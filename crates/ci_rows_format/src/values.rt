ghost use Rattle.std.specs.Prelude.{◌≡◌, ◌++◌, [], ◌∷◌, IfOk, OnOk, OnErr};

use ci_base::{OutOfMemory, PropNo, Value};
use std::alloc::Global;
use std::marker::Model;

/// The values of a document, each beside its property. Contracts see the list.
#[derive(Debug, Drop)]
pub struct Values {
    list: Vec<(PropNo, Value)>,
}

impl Model for Values {
    ghost use Rattle.std.specs.Prelude.{List};
    ghost use Rattle.ci_base.specs.declared.numbers.PropNo.{PropNo};
    ghost use Rattle.ci_base.specs.declared.value.Value.{Value as Held};

    ghost Value = { List (PropNo × Held) };

    ghost view = { λ v. v.list.items };
}

impl Values {
    /// No values, and no memory taken.
    pub fn new(alloc: Global) -> Values
        ensures { result ≡ [] }
    {
        Values {
            list: Vec::new(alloc),
        }
    }

    /// Appends a value.
    pub fn add(&mut self, property: PropNo, value: Value) -> Result<(), OutOfMemory>
        ensures ok { OnOk result (self.new ≡ self.old ++ (property, value) ∷ []) }
        ensures err { OnErr result (self.new ≡ self.old) }
    {
        self.list.push((property, value))?;
        Ok(())
    }

    pub fn items(&self) -> &[(PropNo, Value)]
        ensures { result.now ≡ self.now }
    {
        self.list.as_slice()
    }

    /// Other values that equal these.
    pub fn copy(&self, alloc: Global) -> Result<Values, OutOfMemory>
        ensures { IfOk result (λ values. values ≡ self.now) }
    {
        Ok(Values {
            list: copy_values(alloc, self.list.as_slice())?,
        })
    }

    /// The values as a `Vec`, without a copy.
    pub fn into_vec(self) -> Vec<(PropNo, Value)>
        ensures { result.items ≡ self }
    {
        self.list
    }
}

impl From<Vec<(PropNo, Value)>> for Values {
    ghost from_gives = { λ v values. values ≡ v.items };

    fn from(list: Vec<(PropNo, Value)>) -> Values {
        Values { list }
    }
}

fn copy_values(
    alloc: Global,
    values: &[(PropNo, Value)],
) -> Result<Vec<(PropNo, Value)>, OutOfMemory>
    ensures { IfOk result (λ copied. copied.items ≡ values.now) }
{
    let mut copied = Vec::new(alloc);
    for (property, value) in values {
        copied.push((*property, value.copy(alloc)?))?;
    }
    Ok(copied)
}

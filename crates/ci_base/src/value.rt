ghost use Rattle.std.specs.Prelude.{◌≡◌, IfOk};

use crate::{OutOfMemory, Text};
use std::alloc::Global;

/// The value of a property: a signed number or a text.
#[derive(Debug, PartialEq, Eq, Drop)]
pub enum Value {
    Int(i64),
    Str(Text),
}

impl Value {
    /// Another value that equals this one.
    pub fn copy(&self, alloc: Global) -> Result<Value, OutOfMemory>
        ensures { IfOk result (λ v. v ≡ self.now) }
    {
        match self {
            Value::Int(number) => Ok(Value::Int(*number)),
            Value::Str(text) => Ok(Value::Str(text.copy(alloc)?)),
        }
    }
}

ghost use Rattle.std.specs.Prelude.{◌≡◌};
ghost use Rattle.ci_props.specs.Compare.{compared, relates};

use ci_base::Value;
use std::cmp::Ordering;

/// How one value stands to another.
#[derive(Clone, Copy, Debug, PartialEq, Eq)]
pub enum Relation {
    Lt,
    Le,
    Gt,
    Ge,
    Eq,
    Ne,
}

impl Relation {
    fn holds(self, order: Ordering) -> bool
        ensures { result ≡ relates self order }
    {
        match self {
            Relation::Lt => order.is_lt(),
            Relation::Le => order.is_le(),
            Relation::Gt => order.is_gt(),
            Relation::Ge => order.is_ge(),
            Relation::Eq => order.is_eq(),
            Relation::Ne => order.is_ne(),
        }
    }
}

/// Whether the left value stands so to the right one. Values of two kinds don't compare.
pub fn compare(relation: Relation, left: &Value, right: &Value) -> Option<bool>
    ensures { result ≡ compared relation left.now right.now }
{
    match left {
        Value::Int(left) => match right {
            Value::Int(right) => Some(relation.holds(left.cmp(right))),
            Value::Str(_) => None,
        },
        Value::Str(left) => match right {
            Value::Int(_) => None,
            Value::Str(right) => Some(relation.holds(left.cmp(right))),
        },
    }
}

ghost use Rattle.std.specs.Prelude.{◌≡◌};
ghost use Rattle.ci_dialect.specs.Held as spec;

use ci_base::{PropNo, Text, Value};
use ci_props::{Relation, compare, matches_pattern};

/// Whether the value of the property stands so to the given one.
pub fn has_related(
    values: &[(PropNo, Value)],
    property: PropNo,
    relation: Relation,
    given: &Value,
) -> bool
    ensures { result ≡ spec.has_value values.now property (spec.stands_to relation given.now) }
{
    values.iter().any(|value| value.0.0 == property.0 && stands_to(relation, given, &value.1))
}

/// Whether the value of the property is a text that matches the pattern.
pub fn has_match(values: &[(PropNo, Value)], property: PropNo, pattern: &Text) -> bool
    ensures { result ≡ spec.has_value values.now property (spec.is_match pattern.now) }
{
    values.iter().any(|value| value.0.0 == property.0 && is_match(pattern, &value.1))
}

fn stands_to(relation: Relation, given: &Value, value: &Value) -> bool
    ensures { result ≡ spec.stands_to relation given.now value.now }
{
    compare(relation, value, given).unwrap_or(false)
}

fn is_match(pattern: &Text, value: &Value) -> bool
    ensures { result ≡ spec.is_match pattern.now value.now }
{
    match value {
        Value::Str(text) => matches_pattern(pattern.as_str(), text.as_str()),
        Value::Int(_) => false,
    }
}

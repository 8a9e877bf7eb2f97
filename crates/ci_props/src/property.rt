ghost use Rattle.std.specs.Prelude.{◌≡◌};
ghost use Rattle.std.specs.Option.{option_map};
ghost use Rattle.ci_props.specs.Table.{kind_of_number, name_of_number, number_of_name};

use ci_base::PropNo;

/// What a property has: words alone, or values that are numbers or texts. One of texts may have
/// words too.
#[derive(Clone, Copy, Debug, PartialEq, Eq)]
pub enum Kind {
    Words,
    Int,
    Str,
}

// The number, the name and the kind.
#[derive(Clone, Copy)]
struct Property(u16, &'static str, Kind);

const TABLE: [Property; 9] = [
    Property(1, "Contents", Kind::Words),
    Property(2, "Filename", Kind::Str),
    Property(3, "Size", Kind::Int),
    Property(4, "Write", Kind::Int),
    Property(5, "DocTitle", Kind::Str),
    Property(6, "DocSubject", Kind::Str),
    Property(7, "DocAuthor", Kind::Str),
    Property(8, "DocKeywords", Kind::Str),
    Property(9, "DocComments", Kind::Str),
];

/// The property of this name, in any ASCII case.
pub fn named(name: &str) -> Option<PropNo>
    ensures { result ≡ number_of_name name.now }
{
    TABLE
        .iter()
        .find(|row| row.1.eq_ignore_ascii_case(name))
        .map(|row| PropNo(row.0))
}

/// The kind of the property of this number.
pub fn kind_of(property: PropNo) -> Option<Kind>
    ensures { result ≡ kind_of_number property.0 }
{
    TABLE
        .iter()
        .find(|row| row.0 == property.0)
        .map(|row| row.2)
}

/// The name of the property of this number, as the table spells it.
pub fn name_of(property: PropNo) -> Option<&'static str>
    ensures { option_map (λ name. name.now) result ≡ name_of_number property.0 }
{
    TABLE
        .iter()
        .find(|row| row.0 == property.0)
        .map(|row| row.1)
}

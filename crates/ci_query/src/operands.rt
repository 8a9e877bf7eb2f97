ghost use Rattle.std.specs.Prelude.{◌≡◌};
ghost use Rattle.ci_query.specs.Words.{joined_list};

use crate::Restriction;
use sqlite_items::Items;

/// One operand by itself, or all of them.
pub fn all_of(mut list: Vec<Restriction>) -> Restriction
    ensures { result ≡ joined_list Restriction.And list.items }
{
    if list.len() == 1 {
        return list.remove(0);
    }
    Restriction::And(Items::from_vec(list))
}

/// One operand by itself, or any of them.
pub fn any_of(mut list: Vec<Restriction>) -> Restriction
    ensures { result ≡ joined_list Restriction.Or list.items }
{
    if list.len() == 1 {
        return list.remove(0);
    }
    Restriction::Or(Items::from_vec(list))
}

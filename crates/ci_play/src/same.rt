ghost use Rattle.std.specs.Prelude.{◌≡◌, ◌↔◌, true};

use ci_base::{PathText, Seq};
use ci_change::Batch;

/// Whether the batches have the same number and the same documents.
pub fn is_same(one: &Batch, other: &Batch) -> bool
    ensures { (result ≡ true) ↔ (one.now ≡ other.now) }
{
    one.number == other.number && are_same(one.docs.items(), other.docs.items())
}

fn are_same(one: &[(PathText, Seq)], other: &[(PathText, Seq)]) -> bool
    ensures { (result ≡ true) ↔ (one.now ≡ other.now) }
{
    one == other
}

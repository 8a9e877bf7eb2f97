//! Change lists as the tests make them. A list goes through these calls as a value, so that at most
//! one of them holds it where something is refused.

ghost use Rattle.std.specs.Prelude.{◌<◌, ◌+◌, All, IfOk};

use ci_base::{PathText, Seq};
use ci_change::{ChangeList, What};
use std::alloc::Global;
use std::test::Fail;

pub(crate) fn path(alloc: Global, text: &str) -> Result<PathText, Fail> {
    Ok(PathText::read(alloc, text.as_bytes())?)
}

/// The list with the document noted under this number, which is above all numbers before it.
pub(crate) fn noted(
    list: ChangeList,
    path: &PathText,
    seq: u64,
    what: What,
) -> Result<ChangeList, Fail>
    requires { All (λ n. n.seq.0 < seq) list.notices }
    ensures { IfOk result (λ list. All (λ n. n.seq.0 < seq + 1) list.notices) }
{
    let mut list = list;
    list.note(path, Seq(seq), what)?;
    Ok(list)
}

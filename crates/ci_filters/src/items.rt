// The chunks that are made of any file.
ghost use Rattle.std.specs.Prelude.{◌≡◌, ◌≤◌, [], ◌∷◌, IfOk};
ghost use Rattle.ci_filters.specs.Items.{contents, filename, size_of};

use crate::{Content, Item};
use ci_base::{OutOfMemory, PathText, PropNo, Text, Value};
use std::alloc::Global;
use std::collections::VecDeque;

const CONTENTS: PropNo = PropNo(1);

const FILENAME: PropNo = PropNo(2);

const SIZE: PropNo = PropNo(3);

/// The name of the file and how many bytes were read of it.
pub(crate) fn name_and_size(
    alloc: Global,
    path: &PathText,
    count: usize,
) -> Result<VecDeque<Item>, OutOfMemory>
    requires { count ≤ 1048576 }
    ensures { IfOk result (λ items. items.items ≡ filename path.now ∷ size_of count ∷ []) }
{
    let mut items = VecDeque::new(alloc);
    items.push_back(filename(alloc, path)?)?;
    items.push_back(size(count))?;
    Ok(items)
}

fn filename(alloc: Global, path: &PathText) -> Result<Item, OutOfMemory>
    ensures { IfOk result (λ item. item ≡ filename path.now) }
{
    // A path is short, and so is its name.
    let _ = path.as_str();
    let name = Text::of(alloc, path.last_part())?;
    Ok(Item::new(FILENAME, Content::Held(Value::Str(name))))
}

fn size(count: usize) -> Item
    requires { count ≤ 1048576 }
    ensures { result ≡ size_of count }
{
    Item::new(SIZE, Content::Held(Value::Int(count as i64)))
}

/// A whole text.
pub(crate) fn contents(text: Text) -> Item
    ensures { result ≡ contents text }
{
    Item::new(CONTENTS, Content::Words(text))
}

ghost use Rattle.ci_filters.specs.Formats.{props};

use crate::ending::has_ending;
use crate::head::read_head;
use crate::items::{contents, name_and_size};
use crate::text::text_of;
use crate::{Format, FormatFilter, Item};
use ci_base::{OutOfMemory, PathText, Text, Text8};
use std::alloc::Global;
use std::collections::VecDeque;

/// Texts that begin with properties: lines of a name, a colon with a space, and a value.
#[derive(Drop)]
pub struct Props;

pub type PropsFilter<F> = FormatFilter<F, Props>;

impl Format for Props {
    ghost format = { props };

    fn accepts(&self, path: &PathText) -> bool {
        has_ending(".props", path)
    }

    fn items(
        &self,
        alloc: Global,
        path: &PathText,
        bytes: Text8,
    ) -> Result<Option<VecDeque<Item>>, OutOfMemory> {
        let count = bytes.items().len();
        match text_of(bytes) {
            None => Ok(None),
            Some(text) => {
                let mut items = name_and_size(alloc, path, count)?;
                let rest = read_head(alloc, text.as_str(), &mut items)?;
                let rest = Text::of(alloc, rest)?;
                items.push_back(contents(rest))?;
                Ok(Some(items))
            }
        }
    }
}

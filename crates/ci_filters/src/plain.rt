ghost use Rattle.ci_filters.specs.Formats.{plain};

use crate::ending::has_ending;
use crate::items::{contents, name_and_size};
use crate::text::text_of;
use crate::{Format, FormatFilter, Item};
use ci_base::{OutOfMemory, PathText, Text8};
use std::alloc::Global;
use std::collections::VecDeque;

/// Files that are a text.
#[derive(Drop)]
pub struct Plain;

pub type PlainFilter<F> = FormatFilter<F, Plain>;

impl Format for Plain {
    ghost format = { plain };

    fn accepts(&self, path: &PathText) -> bool {
        has_ending(".txt", path)
            || has_ending(".md", path)
            || has_ending(".log", path)
            || has_ending(".csv", path)
    }

    fn items(
        &self,
        alloc: Global,
        path: &PathText,
        bytes: Text8,
    ) -> Result<Option<VecDeque<Item>>, OutOfMemory> {
        let count = bytes.items().len();
        match text_of(bytes) {
            None => Ok(None),
            Some(text) => {
                let mut items = name_and_size(alloc, path, count)?;
                items.push_back(contents(text))?;
                Ok(Some(items))
            }
        }
    }
}

ghost use Rattle.std.specs.Prelude.{◌≡◌, ◌≤◌, ◌<◌, ◌^◌, ◌-◌, ◌||◌, [], ◌∷◌, codes, IfOk, IfSome, length, option_map};
ghost use Rattle.ci_filters.specs.Formats.{null};

use crate::ending::has_ending;
use crate::items::name_and_size;
use crate::{Format, FormatFilter, Item};
use ci_base::{OutOfMemory, PathText, Text8};
use std::alloc::Global;
use std::collections::VecDeque;

/// Files of which nothing is known but the name and the size.
#[derive(Drop)]
pub struct Null;

pub type NullFilter<F> = FormatFilter<F, Null>;

impl Format for Null {
    ghost format = { null };

    fn accepts(&self, path: &PathText) -> bool {
        has_ending(".bin", path) || has_ending(".dat", path)
    }

    fn items(
        &self,
        alloc: Global,
        path: &PathText,
        bytes: Text8,
    ) -> Result<Option<VecDeque<Item>>, OutOfMemory> {
        let items = name_and_size(alloc, path, bytes.items().len())?;
        Ok(Some(items))
    }
}

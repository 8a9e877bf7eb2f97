// The head of a text with properties.
ghost use Rattle.std.specs.Prelude.{◌≡◌, ◌++◌, ◌∷◌, [], ◌<◌, MatchOption, IfOk, OnOk, drop, length, option_map};
ghost use Rattle.std.specs.Str.Lines.{strip_carriage_return};
ghost use Rattle.ci_filters.specs.Head.{behind_head, ended_lines, head_items, name_and_value};

use crate::Item;
use crate::field::add_field;
use ci_base::OutOfMemory;
use std::alloc::Global;
use std::collections::VecDeque;

/// Appends the chunks of the text's head, and answers the rest of the text.
pub(crate) fn read_head<'a>(
    alloc: Global,
    text: &'a str,
    items: &mut VecDeque<Item>,
) -> Result<&'a str, OutOfMemory>
    ensures items { OnOk result
        (items.new.items ≡ items.old.items ++ head_items (ended_lines text.now)) }
    ensures rest { IfOk result (λ rest. rest.now ≡ behind_head text.now) }
{
    let mut rest = text;
    'lines: while let Some((line, behind)) = next_line(rest) {
        let line = without_return(line);
        match split_field(line) {
            Some((name, value)) => {
                add_field(alloc, name, value, items)?;
                rest = behind;
            }
            None if line.is_empty() => return Ok(behind),
            None => return Ok(rest),
        }
    }
    Ok(rest)
}

// The first line that a line feed ends, and what stands behind the feed.
fn next_line(text: &str) -> Option<(&str, &str)>
    ensures lines { MatchOption result (ended_lines text.now ≡ [])
        (λ found. ended_lines text.now ≡ found.0.now ∷ ended_lines found.1.now) }
    ensures parts { MatchOption result (Unit {0}) (λ found. text.now ≡ found.0.now ++ 10 ∷ found.1.now) }
{
    text.split_once('\n')
}

fn without_return(line: &str) -> &str
    ensures { result.now ≡ strip_carriage_return line.now }
{
    match line.strip_suffix('\r') {
        Some(front) => front,
        None => line,
    }
}

// The name and the value around the first colon with a space behind it.
fn split_field(line: &str) -> Option<(&str, &str)>
    ensures { option_map (λ found. (found.0.now, found.1.now)) result ≡ name_and_value line.now }
{
    line.split_once(": ")
}

// Which documents newer parts cover.
ghost use Rattle.std.specs.Prelude.{◌≡◌, ◌++◌, OnOk, map};
ghost use Rattle.ci_part.specs.Covering.{covers, is_covered, uncovered};
ghost use Rattle.ci_part.specs.Part.{lists_of};

use crate::Part;
use ci_base::{DocNo, OutOfMemory};
use ci_keys::{Places, Postings};

/// Whether one of the parts has a row of the document.
pub fn is_covered(parts: &[Part], doc: DocNo) -> bool
    ensures { result ≡ is_covered (map lists_of parts.now) doc }
{
    for part in parts {
        if covers(part, doc) {
            return true;
        }
    }
    false
}

fn covers(part: &Part, doc: DocNo) -> bool
    ensures { result ≡ covers doc (lists_of part.now) }
{
    match part.covers(doc) {
        Some(_) => true,
        None => false,
    }
}

/// Adds the postings of documents that no newer part covers.
pub fn add_uncovered(
    all: &mut Vec<(DocNo, Places)>,
    found: Postings,
    newer: &[Part],
) -> Result<(), OutOfMemory>
    ensures { OnOk result (all.new.items
        ≡ all.old.items ++ uncovered (map lists_of newer.now) found) }
{
    for (doc, places) in found.into_vec() {
        if !is_covered(newer, doc) {
            all.push((doc, places))?;
        }
    }
    Ok(())
}

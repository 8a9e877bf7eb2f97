ghost use Rattle.std.specs.Prelude.{◌≡◌, ◌==◌, ◌↔◌, IfOk, IsErrOf, OnOk, IsTrue};
ghost use Rattle.std.specs.List.{after_last, list_all, slice_split};
ghost use Rattle.ci_base.specs.Path.{IsPath, is_part, is_shown, has_path_form, parts_of};

use crate::{OutOfMemory, Text};
use std::alloc::Global;
use std::marker::Model;
use thiserror::Error;

/// The most bytes that a path has.
pub const PATH_BYTES: usize = 1024;

/// The path of a document under the catalogue's root, as `/d/a.txt`. Contracts see its UTF-8 bytes.
#[derive(Debug, PartialEq, Eq, PartialOrd, Ord, Hash, Drop)]
pub struct PathText {
    text: Text,
}

impl Model for PathText {
    ghost use Rattle.std.specs.Prelude.{List, ℕ};
    ghost use Rattle.ci_base.specs.Path.{IsPath};

    ghost Value = { List ℕ };

    ghost view = { λ p. p.text };

    ghost inverse = { λ bytes. record { text = bytes } };

    ghost invariant = { λ p. IsPath p.text };
}

/// Why bytes were not read as a path.
#[derive(Clone, Copy, Debug, PartialEq, Eq, Error)]
pub enum PathFault {
    #[error("not a path")]
    BadPath,
    #[error("out of memory")]
    OutOfMemory,
}

impl PathText {
    /// Reads a path, from bytes of any kind.
    pub fn read(alloc: Global, bytes: &[u8]) -> Result<PathText, PathFault>
        ensures ok { IfOk result (λ p. p ≡ bytes.now) }
        ensures path { OnOk result (IsPath bytes.now) }
        ensures bad { IsErrOf result PathFault.BadPath → ¬ IsPath bytes.now }
    {
        let Ok(text) = str::from_utf8(bytes) else {
            return Err(PathFault::BadPath);
        };
        if !names_document(text) {
            return Err(PathFault::BadPath);
        }
        let text = Text::of(alloc, text).map_err(|_| PathFault::OutOfMemory)?;
        Ok(PathText { text })
    }

    pub fn as_str(&self) -> &str
        ensures text { result.now ≡ self.now }
        ensures path { IsPath self.now }
    {
        self.text.as_str()
    }

    /// What stands after the last slash.
    pub fn last_part(&self) -> &str
        ensures { result.now ≡ after_last (λ b. b == 47) self.now }
    {
        let text = self.text.as_str();
        match text.rfind('/') {
            Some(slash) => &text[slash + 1..],
            None => text,
        }
    }

    /// Another path that equals this one.
    pub fn copy(&self, alloc: Global) -> Result<PathText, OutOfMemory>
        ensures { IfOk result (λ p. p ≡ self.now) }
    {
        Ok(PathText {
            text: self.text.copy(alloc)?,
        })
    }
}

fn names_document(text: &str) -> bool
    ensures { result ≡ has_path_form text.now }
{
    text.len() <= PATH_BYTES
        && text.starts_with('/')
        && is_shown_text(text)
        && names_parts(&text[1..])
}

fn is_shown_text(text: &str) -> bool
    ensures { result ≡ list_all is_shown text.now }
{
    text.bytes().all(|byte| byte >= 32 && byte != 127)
}

fn names_parts(rest: &str) -> bool
    ensures { result ≡ list_all is_part (slice_split (λ b. b == 47) rest.now) }
{
    rest.split('/').all(|part| names_entry(part))
}

fn names_entry(part: &str) -> bool
    ensures { result ≡ is_part part.now }
{
    part != "" && part != "." && part != ".."
}

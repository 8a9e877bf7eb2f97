ghost use Rattle.std.specs.Prelude.{◌≡◌, IfOk, OnOk, IsErrOf};
ghost use Rattle.ci_paths.specs.Prefix as spec;

use ci_base::{OutOfMemory, PathFault, PathText};
use std::alloc::Global;

/// The root, or the path of a file or folder: what documents stand at or under.
#[derive(Debug, PartialEq, Eq, Drop)]
pub enum Prefix {
    /// `/`, under which every document stands.
    Root,
    At(PathText),
}

impl Prefix {
    /// Reads a prefix: `/` is the root, and any other prefix is a path.
    pub fn read(alloc: Global, text: &str) -> Result<Prefix, PathFault>
        ensures ok { IfOk result (λ p. p ≡ spec.prefix_of text.now) }
        ensures prefix { OnOk result (spec.IsPrefix text.now) }
        ensures bad { IsErrOf result PathFault.BadPath → ¬ spec.IsPrefix text.now }
    {
        if text == "/" {
            return Ok(Prefix::Root);
        }
        let path = PathText::read(alloc, text.as_bytes())?;
        Ok(Prefix::At(path))
    }

    /// Whether the path is the prefix, or stands under it.
    pub fn holds(&self, path: &PathText) -> bool
        ensures { result ≡ spec.stands_under self.now path.now }
    {
        match self {
            Prefix::Root => true,
            Prefix::At(top) => is_at_or_under(path.as_str().as_bytes(), top.as_str().as_bytes()),
        }
    }

    /// Another prefix that equals this one.
    pub fn copy(&self, alloc: Global) -> Result<Prefix, OutOfMemory>
        ensures { IfOk result (λ p. p ≡ self.now) }
    {
        match self {
            Prefix::Root => Ok(Prefix::Root),
            Prefix::At(path) => Ok(Prefix::At(path.copy(alloc)?)),
        }
    }
}

// A slash has to stand behind the top, so that /d doesn't hold /data.
fn is_at_or_under(path: &[u8], top: &[u8]) -> bool
    ensures { result ≡ spec.is_at_or_under path.now top.now }
{
    path == top || (path.starts_with(top) && path[top.len()..].starts_with(b"/"))
}

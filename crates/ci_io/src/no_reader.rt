ghost use Rattle.std.specs.Prelude.{Some, codes};

use std::error::Error;
use std::fmt;

/// There was no memory for a reader of lines. The source is handed back as it was.
#[derive(Drop)]
pub struct NoReader<S> {
    pub source: S,
}

impl<S> fmt::Debug for NoReader<S> {
    ghost debug_output = { λ _. Some (codes "NoReader") };

    fn fmt<W: fmt::Write>(&self, f: &mut fmt::Formatter<W>) -> fmt::Result {
        write!(f, "NoReader")
    }
}

impl<S> fmt::Display for NoReader<S> {
    ghost output = { λ _. Some (codes "out of memory") };

    fn fmt<W: fmt::Write>(&self, f: &mut fmt::Formatter<W>) -> fmt::Result {
        write!(f, "out of memory")
    }
}

impl<S: Drop> Error for NoReader<S> {}

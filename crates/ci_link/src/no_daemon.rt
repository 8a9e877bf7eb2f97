use std::error::Error;
use std::fmt;

/// There was no memory for a daemon. The link is handed back as it was.
#[derive(Drop)]
pub struct NoDaemon<L> {
    pub link: L,
}

impl<L> fmt::Debug for NoDaemon<L> {
    fn fmt<W: fmt::Write>(&self, f: &mut fmt::Formatter<W>) -> fmt::Result {
        write!(f, "NoDaemon")
    }
}

impl<L> fmt::Display for NoDaemon<L> {
    fn fmt<W: fmt::Write>(&self, f: &mut fmt::Formatter<W>) -> fmt::Result {
        write!(f, "out of memory")
    }
}

impl<L: Drop> Error for NoDaemon<L> {}

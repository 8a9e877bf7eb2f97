use thiserror::Error;

/// A call on an object of the outside failed. Its count of faults says so too.
#[derive(Clone, Copy, Debug, PartialEq, Eq, Error)]
#[error("a call on the outside failed")]
pub struct Failed;

ghost use Rattle.std.specs.Prelude.{◌≡◌};
ghost use Rattle.ci_dialect.specs.Fault.{met_in};

use ci_base::OutOfMemory;
use std::alloc::{AllocError, AllocFailed};
use thiserror::Error;

/// The kinds of faults in a query.
#[derive(Clone, Copy, Debug, PartialEq, Eq)]
pub enum QueryKind {
    Bad,
    UnknownProperty,
    WrongKind,
    TooDeep,
    TooLong,
    OnlyNoise,
}

/// Why a text was not read as a query. A place is the number of bytes before it.
#[derive(Clone, Copy, Debug, PartialEq, Eq, Error)]
pub enum QueryFault {
    #[error("what stands at {at} can't stand there")]
    Bad { at: u64 },
    #[error("the property at {at} isn't known")]
    UnknownProperty { at: u64 },
    #[error("the property or value at {at} is of the wrong kind")]
    WrongKind { at: u64 },
    #[error("what opens at {at} is too deep")]
    TooDeep { at: u64 },
    #[error("the query has too many words at {at}")]
    TooLong { at: u64 },
    #[error("the words at {at} are all noise")]
    OnlyNoise { at: u64 },
    #[error("out of memory")]
    OutOfMemory,
}

impl QueryFault {
    /// The kind and the place of a fault that is in the text.
    pub fn met(&self) -> Option<(QueryKind, u64)>
        ensures { result ≡ met_in self.now }
    {
        match self {
            QueryFault::Bad { at } => Some((QueryKind::Bad, *at)),
            QueryFault::UnknownProperty { at } => Some((QueryKind::UnknownProperty, *at)),
            QueryFault::WrongKind { at } => Some((QueryKind::WrongKind, *at)),
            QueryFault::TooDeep { at } => Some((QueryKind::TooDeep, *at)),
            QueryFault::TooLong { at } => Some((QueryKind::TooLong, *at)),
            QueryFault::OnlyNoise { at } => Some((QueryKind::OnlyNoise, *at)),
            QueryFault::OutOfMemory => None,
        }
    }
}

impl From<OutOfMemory> for QueryFault {
    ghost use Rattle.ci_dialect.specs.declared.fault.QueryFault.TheVariants as faults;

    ghost from_gives = { λ _ e. e ≡ faults.OutOfMemory };

    fn from(_refused: OutOfMemory) -> QueryFault {
        QueryFault::OutOfMemory
    }
}

impl From<AllocError> for QueryFault {
    ghost use Rattle.ci_dialect.specs.declared.fault.QueryFault.TheVariants as faults;

    ghost from_gives = { λ _ e. e ≡ faults.OutOfMemory };

    fn from(_refused: AllocError) -> QueryFault {
        QueryFault::OutOfMemory
    }
}

impl<T: Drop> From<AllocFailed<T>> for QueryFault {
    ghost use Rattle.ci_dialect.specs.declared.fault.QueryFault.TheVariants as faults;

    ghost from_gives = { λ _ e. e ≡ faults.OutOfMemory };

    fn from(_refused: AllocFailed<T>) -> QueryFault {
        QueryFault::OutOfMemory
    }
}

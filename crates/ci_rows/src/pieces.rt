//! A source that hands out its bytes in small pieces.

ghost use Rattle.std.specs.Prelude.{None};

use ci_base::Text8;
use ci_io::{Failed, Source};
use std::alloc::Global;
use std::test::Fail;

/// Bytes of which a call gives at most so many. It tells a contract nothing.
#[derive(Drop)]
pub(crate) struct Pieces {
    pub(crate) bytes: Text8,
    pub(crate) given: usize,
    pub(crate) most: usize,
}

impl Pieces {
    pub(crate) fn of(alloc: Global, text: &str, most: usize) -> Result<Pieces, Fail> {
        Ok(Pieces {
            bytes: Text8::of(alloc, text.as_bytes())?,
            given: 0,
            most,
        })
    }
}

impl Source for Pieces {
    ghost left = { λ _. None };

    ghost faults = { λ _. 0 };

    fn take(&mut self, out: &mut [u8]) -> Result<usize, Failed> {
        let Some(rest) = self.bytes.items().get(self.given..) else {
            return Ok(0);
        };
        let count = self.most.min(rest.len()).min(out.len());
        out[..count].copy_from_slice(&rest[..count]);
        self.given += count;
        Ok(count)
    }
}

//! A line that never ends.

ghost use Rattle.std.specs.Prelude.{None};

use crate::daemons::no_daemon;
use crate::sessions::{sink, told};
use ci_base::Text8;
use ci_core::Settings;
use ci_io::{Failed, Source};
use ci_server::run_steps;
use std::alloc::Global;
use std::test::Fail;

// Gives lines, and then x for ever. It tells a contract nothing.
#[derive(Drop)]
struct Endless {
    lines: Text8,
    given: bool,
}

impl Source for Endless {
    ghost left = { λ _. None };

    ghost faults = { λ _. 0 };

    fn take(&mut self, out: &mut [u8]) -> Result<usize, Failed> {
        let lines = self.lines.items();
        if !self.given && lines.len() <= out.len() {
            out[..lines.len()].copy_from_slice(lines);
            self.given = true;
            return Ok(lines.len());
        }
        out.fill(b'x');
        Ok(out.len())
    }
}

// A session of these lines, with a line behind them that never ends.
fn session(alloc: Global, lines: &str) -> Result<String, Fail> {
    let source = Endless {
        lines: Text8::of(alloc, lines.as_bytes())?,
        given: false,
    };
    let settings = Settings::standard(alloc)?;
    let session = run_steps(alloc, &settings, source, sink(alloc)?, no_daemon(alloc));
    told(
        alloc,
        session.status,
        session.journal.events().len(),
        session.sink.bytes(),
    )
}

#[test]
fn a_line_without_an_end_ends_the_session(rt: HostRuntime) -> Result<(), Fail> {
    let told = session(rt.alloc(), "hello\nwait\n")?;
    assert_eq!(rt; told.as_str(), "EndlessLine 4: 1 bad|2 done|");
    Ok(())
}

ghost use Rattle.std.specs.Prelude.{◌≡◌, ◌<◌, ◌≤◌, None, IfOk, IfSome, length};

use crate::Link;
use ci_io::Failed;
use std::io::{Read, Write};
use std::marker::Model;
use std::process::{Child, OpenProcess};

/// A daemon in a process of its own, over its standard input and output. It tells no contents, and
/// contracts see its count of faults.
#[derive(Drop)]
pub struct ChildLink<P: OpenProcess + Drop> {
    child: Child<P>,
    faults: u64,
}

impl<P: OpenProcess + Drop> Model for ChildLink<P> {
    ghost use Rattle.std.specs.Prelude.{ℕ};

    ghost Value = { ℕ };

    ghost view = { λ l. l.faults };
}

impl<P: OpenProcess + Drop> ChildLink<P> {
    /// A link to a process whose input and output are pipes.
    pub fn new(child: Child<P>) -> ChildLink<P>
        ensures { result ≡ 0 }
    {
        ChildLink { child, faults: 0 }
    }

    /// Ends the process, whether it has heard that its input ended or not.
    pub fn end(mut self) {
        let _ = self.child.kill();
        let _ = self.child.wait();
    }
}

impl<P: OpenProcess + Drop> Link for ChildLink<P> {
    ghost sent = { λ _. None };

    ghost given = { λ _. None };

    ghost more = { λ _. None };

    ghost faults = { λ l. l };

    fn send(&mut self, bytes: &[u8]) -> Result<usize, Failed> {
        match write_some(&mut self.child, bytes) {
            Some(count) => Ok(count),
            None => {
                self.faults = self.faults.saturating_add(1);
                Err(Failed)
            }
        }
    }

    fn receive(&mut self, out: &mut [u8]) -> Result<usize, Failed> {
        match read_some(&mut self.child, out) {
            Some(count) => Ok(count),
            None => {
                self.faults = self.faults.saturating_add(1);
                Err(Failed)
            }
        }
    }
}

// Writes a front of the bytes, some unless there are none. None: the pipe failed.
fn write_some<P: OpenProcess>(child: &mut Child<P>, bytes: &[u8]) -> Option<usize>
    ensures bound { IfSome result (λ n. n ≤ length bytes.now) }
    ensures some { IfSome result (λ n. 0 < length bytes.now → 0 < n) }
{
    match &mut child.stdin {
        Some(input) => {
            let count = input.write(bytes).ok()?;
            if count == 0 && !bytes.is_empty() {
                return None;
            }
            Some(count)
        }
        None => None,
    }
}

// Reads to the front of `out`. None: the pipe failed.
fn read_some<P: OpenProcess>(child: &mut Child<P>, out: &mut [u8]) -> Option<usize>
    ensures { IfSome result (λ n. n ≤ length out.new) }
{
    match &mut child.stdout {
        Some(output) => output.read(out).ok(),
        None => None,
    }
}

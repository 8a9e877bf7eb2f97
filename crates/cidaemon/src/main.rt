//! The filter daemon: it answers the calls of a server over standard input and standard output.
#![tactic(auto)]

use ci_base::OutOfMemory;
use ci_chunk::Filter;
use ci_daemon::{Ended, serve_filters};
use ci_files::RealFiles;
use ci_filters::{FormatFilter, Null, Plain, Props};
use ci_io::{Sink, Source, StdSink, StdSource};
use std::env;
use std::env::Env;
use std::io::{self, ErrorKind};
use std::process::ExitCode;

/// The status where the command line has a word: the daemon takes none.
const USAGE: u8 = 2;

fn main(rt: HostRuntime) -> ExitCode {
    match has_words(&rt) {
        Ok(false) => {
            let mut source = StdSource::new(rt.stdin());
            let mut sink = StdSink::new(rt.stdout());
            let ended = match serve(&rt, &mut source, &mut sink) {
                Ok(ended) => ended,
                Err(OutOfMemory) => Ended::OutOfMemory,
            };
            ExitCode::from(ended.exit_code())
        }
        Err(error) if error.kind() == ErrorKind::OutOfMemory => {
            ExitCode::from(Ended::OutOfMemory.exit_code())
        }
        // A word that isn't UTF-8 is a word.
        _ => ExitCode::from(USAGE),
    }
}

// Whether the command line has a word behind the program's name.
fn has_words<R: Env + AllocGlobal>(rt: &R) -> io::Result<bool> {
    let mut words = env::args(rt)?;
    let _program = words.next();
    Ok(words.next().is_some())
}

// Serves the files under the folder in which the program was started. The first filter that takes
// a document holds it.
fn serve<S: Source, K: Sink>(
    rt: &HostRuntime,
    source: &mut S,
    sink: &mut K,
) -> Result<Ended, OutOfMemory> {
    let alloc = rt.alloc();
    let mut filters: [Box<dyn Filter>; 3] = [
        Box::new(alloc, FormatFilter::new(RealFiles::new(rt.clone()?), Props))?,
        Box::new(alloc, FormatFilter::new(RealFiles::new(rt.clone()?), Plain))?,
        Box::new(alloc, FormatFilter::new(RealFiles::new(rt.clone()?), Null))?,
    ];
    Ok(serve_filters(alloc, source, sink, &mut filters))
}

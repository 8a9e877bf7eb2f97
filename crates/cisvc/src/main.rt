//! The catalogue server over standard input and standard output, and daemons in processes.
#![tactic(auto)]

use ci_base::Text;
use ci_io::{StdSink, StdSource};
use ci_link::ChildSpawner;
use ci_server::{Status, run};
use std::env;
use std::env::Env;
use std::io::{self, ErrorKind};
use std::process::ExitCode;

fn main(rt: HostRuntime) -> ExitCode {
    let status = match words(&rt) {
        Ok(words) => {
            let source = StdSource::new(rt.stdin());
            let sink = StdSink::new(rt.stdout());
            let spawner = ChildSpawner::new(&rt);
            run(rt.alloc(), &words, source, sink, spawner).status
        }
        Err(error) if error.kind() == ErrorKind::OutOfMemory => Status::OutOfMemory,
        // A word that isn't UTF-8 is no word of the command line.
        Err(_) => Status::Usage,
    };
    if status != Status::Done {
        // The exit status tells it, also where standard error is closed.
        let _told = eprintln!(rt; "cisvc: {}", status.name());
    }
    ExitCode::from(status.exit_code())
}

// The words of the command line, the program's name first.
fn words<R: Env + AllocGlobal>(rt: &R) -> io::Result<Vec<Text>> {
    let mut words = Vec::new(rt.alloc());
    for word in env::args(rt)? {
        words.push(Text::from(word))?;
    }
    Ok(words)
}

ghost use Rattle.std.specs.Prelude.{◌≡◌, [], IfOk, IfErr};
ghost use Rattle.ci_server.specs.Progress.{Ends, GoesOn, StopsAt};
ghost use Rattle.ci_server.specs.Requests.{is_end};
ghost use Rattle.ci_server.specs.Served.{IsBetween};
ghost use Rattle.ci_worker.specs.Working.{Holds, KeepsOn};

use crate::{Status, serve_line};
use ci_core::Catalog;
use ci_io::{Line, LineReader, Sink, Source};
use ci_link::Spawner;
use ci_worker::Worker;
use std::alloc::Global;

/// Serves the lines of a source, one after the other, until a request ends the session, the source
/// ends, or a step is refused.
pub fn read_lines<S: Source + Drop, K: Sink + Drop, P: Spawner + Drop>(
    alloc: Global,
    worker: &mut Worker<P>,
    program: &str,
    reader: &mut LineReader<S>,
    catalog: &mut Catalog<K>,
) -> Status
    requires empty { catalog.old.sheet.events ≡ [] }
    requires between { IsBetween catalog.old }
    requires holds { Holds worker.old catalog.old.sheet.events 0 }
    ensures ends { Ends reader.old catalog.old reader.new catalog.new result }
    ensures keeps { KeepsOn worker.old catalog.old.sheet.events
        worker.new catalog.new.sheet.events }
{
    loop {
        match next_line(alloc, worker, program, reader, catalog) {
            Ok(true) => {}
            Ok(false) => return Status::Done,
            Err(status) => return status,
        }
    }
}

// Serves the next line. False is the end of the session or of the source.
fn next_line<S: Source + Drop, K: Sink + Drop, P: Spawner + Drop>(
    alloc: Global,
    worker: &mut Worker<P>,
    program: &str,
    reader: &mut LineReader<S>,
    catalog: &mut Catalog<K>,
) -> Result<bool, Status>
    requires between { IsBetween catalog.old }
    requires holds { Holds worker.old catalog.old.sheet.events 0 }
    ensures ok { IfOk result (GoesOn reader.old reader.new catalog.old catalog.new) }
    ensures err { IfErr result (StopsAt reader.old reader.new catalog.old catalog.new) }
    ensures holds { IfOk result (λ _. Holds worker.new catalog.new.sheet.events 0) }
    ensures keeps { KeepsOn worker.old catalog.old.sheet.events
        worker.new catalog.new.sheet.events }
{
    let line = match reader.read_line(alloc) {
        Ok(line) => line,
        Err(fault) => return Err(Status::from(fault)),
    };
    if is_end(&line) {
        return Ok(false);
    }
    match serve_line(alloc, worker, program, catalog, &line) {
        Ok(quits) => Ok(!quits),
        Err(fault) => Err(Status::of_step(fault)),
    }
}

fn is_end(line: &Line) -> bool
    ensures { result ≡ is_end line.now }
{
    match line {
        Line::End => true,
        Line::Text(_) => false,
        Line::Long => false,
    }
}

ghost use Rattle.std.specs.Prelude.{◌≡◌};
ghost use Rattle.ci_journal.specs.Step.{Run};
ghost use Rattle.ci_holdings.specs.Core.{terms_of};
ghost use Rattle.ci_book.specs.Book.{IsWithin};
ghost use Rattle.ci_server.specs.Course.{IsTold};

use crate::{Session, Status, read_lines};
use ci_core::{Catalog, Settings};
use ci_io::{LineReader, Sink, Source};
use ci_journal::Journal;
use ci_link::Spawner;
use ci_worker::Worker;
use std::alloc::Global;

/// Runs a session: reads the source line by line, serves each request, and prints each reply. It
/// waits for its source, its sink and the answers of its daemons alone, and returns for every
/// source: each line adds to a journal that the setting bounds.
pub fn run_steps<S: Source + Drop, K: Sink + Drop, P: Spawner + Drop>(
    alloc: Global,
    settings: &Settings,
    source: S,
    sink: K,
    spawner: P,
) -> Session<S, K, P>
    // What is promised of a session: how its journal came to be, what was asked, what was written,
    // which daemons were heard, why it ended, and what bounds it.
    ensures { IsTold (record {
      terms = terms_of settings.now.noise settings.now.retries;
      limit = settings.now.journal;
      most = settings.now.documents;
      bytes = S.left source;
      left = S.left result.source;
      read_faults = S.faults source;
      read_faults_after = S.faults result.source;
      written = K.written sink;
      written_after = K.written result.sink;
      write_faults = K.faults sink;
      write_faults_after = K.faults result.sink;
      records = P.records spawner;
      records_after = P.records result.spawner;
      spawn_faults = P.faults spawner;
      spawn_faults_after = P.faults result.spawner;
      status = result.status;
      journal = result.journal.list;
    }) }
{
    let mut catalog = match Catalog::new(alloc, sink, settings) {
        Ok(catalog) => catalog,
        Err(no_catalog) => {
            return Session::idle(alloc, Status::OutOfMemory, source, no_catalog.sink, spawner);
        }
    };
    let mut worker = Worker::new(spawner);
    match LineReader::new(alloc, source) {
        Ok(mut reader) => {
            let program = settings.daemon.as_str();
            let status = read_lines(alloc, &mut worker, program, &mut reader, &mut catalog);
            end(status, catalog, reader.into_source(), worker.close())
        }
        Err(no_reader) => end(
            Status::OutOfMemory,
            catalog,
            no_reader.source,
            worker.close(),
        ),
    }
}

// Closes the catalogue, and hands out what is left.
fn end<S: Source + Drop, K: Sink + Drop, P: Spawner + Drop>(
    status: Status,
    catalog: Catalog<K>,
    source: S,
    spawner: P,
) -> Session<S, K, P>
    ensures status { result.status ≡ status }
    ensures journal { result.journal.list ≡ catalog.sheet.events }
    ensures run { Run catalog.terms result.journal.list }
    ensures within { IsWithin catalog.sheet.limit result.journal.list }
    ensures source { result.source ≡ source }
    ensures spawner { result.spawner ≡ spawner }
    ensures written { K.written result.sink ≡ catalog.sheet.written }
    ensures faults { K.faults result.sink ≡ catalog.sheet.faults }
{
    let closed = catalog.close();
    Session {
        status,
        journal: closed.journal,
        source,
        sink: closed.sink,
        spawner,
    }
}

ghost use Rattle.std.specs.Prelude.{◌≡◌, ◌≢◌, ◌+◌, [], false, length, OnOk, IfOk, IfErr};
ghost use Rattle.ci_io.specs.Reading.{IsShort};
ghost use Rattle.ci_journal.specs.Filings.{out};
ghost use Rattle.ci_journal.specs.Folds.{requests_in};
ghost use Rattle.ci_journal.specs.Requests.{IsAskable, is_quit, request_of};
ghost use Rattle.ci_server.specs.Requests.{is_filter};
ghost use Rattle.ci_server.specs.Served.{IsBetween, IsJustAsked, ServesSteps, StopsSteps, ServesTurn, StopsTurn};
ghost use Rattle.ci_worker.specs.Filtering.{GoesBeside};
ghost use Rattle.ci_worker.specs.Working.{Holds, KeepsOn};

use crate::{
    FOREGROUND, say_reply, serve_changed, serve_deleted, serve_filter, serve_put, serve_query,
};
use ci_core::{Catalog, CoreFault};
use ci_io::{Line, Sink};
use ci_journal::{Reply, Request};
use ci_link::Spawner;
use ci_worker::Worker;
use std::alloc::Global;

/// Serves the request of one line: asks it, makes its steps, and replies to it. True ends the
/// session.
pub fn serve_line<K: Sink + Drop, P: Spawner + Drop>(
    alloc: Global,
    worker: &mut Worker<P>,
    program: &str,
    catalog: &mut Catalog<K>,
    line: &Line,
) -> Result<bool, CoreFault>
    requires line { line.now ≢ Line.End }
    requires short { IsShort line.now }
    requires between { IsBetween catalog.old }
    requires holds { Holds worker.old catalog.old.sheet.events 0 }
    ensures ok { let id = length (requests_in catalog.old.sheet.events) + 1 in
        OnOk result (ServesTurn catalog.old catalog.new id (request_of line.now)) }
    ensures quits { IfOk result (λ quits. quits ≡ is_quit (request_of line.now)) }
    ensures err { let id = length (requests_in catalog.old.sheet.events) + 1 in
        IfErr result (StopsTurn catalog.old catalog.new id (request_of line.now)) }
    ensures holds { IfOk result (λ _. Holds worker.new catalog.new.sheet.events 0) }
    ensures keeps { KeepsOn worker.old catalog.old.sheet.events
        worker.new catalog.new.sheet.events }
{
    let request = Request::read(alloc, line)?;
    serve_request(alloc, worker, program, catalog, &request)?;
    Ok(request.is_quit())
}

fn serve_request<K: Sink + Drop, P: Spawner + Drop>(
    alloc: Global,
    worker: &mut Worker<P>,
    program: &str,
    catalog: &mut Catalog<K>,
    request: &Request,
) -> Result<(), CoreFault>
    requires askable { IsAskable request.now }
    requires between { IsBetween catalog.old }
    requires holds { Holds worker.old catalog.old.sheet.events 0 }
    ensures ok { let id = length (requests_in catalog.old.sheet.events) + 1 in
        OnOk result (ServesTurn catalog.old catalog.new id request.now) }
    ensures err { let id = length (requests_in catalog.old.sheet.events) + 1 in
        IfErr result (StopsTurn catalog.old catalog.new id request.now) }
    ensures holds { OnOk result (Holds worker.new catalog.new.sheet.events 0) }
    ensures keeps { KeepsOn worker.old catalog.old.sheet.events
        worker.new catalog.new.sheet.events }
{
    let copied = request.copy(alloc)?;
    let id = catalog.ask(FOREGROUND, copied)?;
    serve_steps(alloc, worker, program, catalog, id, request)?;
    Ok(())
}

// Makes the steps of a request that was just asked, its reply the last.
fn serve_steps<K: Sink + Drop, P: Spawner + Drop>(
    alloc: Global,
    worker: &mut Worker<P>,
    program: &str,
    catalog: &mut Catalog<K>,
    id: u64,
    request: &Request,
) -> Result<(), CoreFault>
    requires askable { IsAskable request.now }
    requires asked { IsJustAsked catalog.old id request.now }
    requires holds { Holds worker.old catalog.old.sheet.events 0 }
    ensures ok { OnOk result (ServesSteps catalog.old catalog.new id request.now) }
    ensures back { OnOk result (out catalog.new.sheet.events ≡ []) }
    ensures holds { OnOk result (Holds worker.new catalog.new.sheet.events 0) }
    ensures err { IfErr result (StopsSteps catalog.old catalog.new id request.now) }
    ensures keeps { KeepsOn worker.old catalog.old.sheet.events
        worker.new catalog.new.sheet.events }
{
    if is_filter(request) {
        return serve_filter(alloc, worker, program, catalog, id);
    }
    serve_beside(alloc, catalog, id, request)
}

fn is_filter(request: &Request) -> bool
    ensures { result ≡ is_filter request.now }
{
    matches!(request, Request::Filter)
}

// Makes the steps of any other request.
fn serve_beside<K: Sink + Drop>(
    alloc: Global,
    catalog: &mut Catalog<K>,
    id: u64,
    request: &Request,
) -> Result<(), CoreFault>
    requires askable { IsAskable request.now }
    requires asked { IsJustAsked catalog.old id request.now }
    requires other { is_filter request.now ≡ false }
    ensures ok { OnOk result (ServesSteps catalog.old catalog.new id request.now) }
    ensures err { IfErr result (StopsSteps catalog.old catalog.new id request.now) }
    ensures beside { GoesBeside catalog.old.sheet.events catalog.new.sheet.events }
{
    serve_alone(alloc, catalog, id, request)
}

fn serve_alone<K: Sink + Drop>(
    alloc: Global,
    catalog: &mut Catalog<K>,
    id: u64,
    request: &Request,
) -> Result<(), CoreFault>
    requires askable { IsAskable request.now }
    requires asked { IsJustAsked catalog.old id request.now }
    requires other { is_filter request.now ≡ false }
    ensures ok { OnOk result (ServesSteps catalog.old catalog.new id request.now) }
    ensures err { IfErr result (StopsSteps catalog.old catalog.new id request.now) }
{
    match request {
        Request::Changed(path) => serve_changed(catalog, id, path),
        Request::Deleted(path) => serve_deleted(catalog, id, path),
        Request::Put { path, text } => serve_put(alloc, catalog, id, path, text),
        Request::Query(text) => serve_query(alloc, catalog, id, text),
        Request::Pending => serve_pending(catalog, id),
        Request::Unfiltered => serve_unfiltered(catalog, id),
        // Every earlier request has its reply: they are served one after the other.
        Request::Wait => say_reply(catalog, id, Reply::Done),
        Request::Quit => say_reply(catalog, id, Reply::Bye),
        Request::Long => say_reply(catalog, id, Reply::Long),
        Request::Bad => say_reply(catalog, id, Reply::Bad),
        Request::Filter => unreachable!(),
        // Nothing serves these yet, so they are answered as a line that isn't known.
        Request::Shadow => say_reply(catalog, id, Reply::Bad),
        Request::Master => say_reply(catalog, id, Reply::Bad),
        Request::Step => say_reply(catalog, id, Reply::Bad),
        Request::Scan => say_reply(catalog, id, Reply::Bad),
        Request::Status => say_reply(catalog, id, Reply::Bad),
        Request::Load { .. } => say_reply(catalog, id, Reply::Bad),
    }
}

// Lists the pending notices.
fn serve_pending<K: Sink + Drop>(catalog: &mut Catalog<K>, id: u64) -> Result<(), CoreFault>
    requires { IsJustAsked catalog.old id Request.Pending }
    ensures ok { OnOk result (ServesSteps catalog.old catalog.new id Request.Pending) }
    ensures err { IfErr result (StopsSteps catalog.old catalog.new id Request.Pending) }
{
    let notices = catalog.pending()?;
    say_reply(catalog, id, Reply::Pending(notices))
}

// Lists the documents that are set aside.
fn serve_unfiltered<K: Sink + Drop>(catalog: &mut Catalog<K>, id: u64) -> Result<(), CoreFault>
    requires { IsJustAsked catalog.old id Request.Unfiltered }
    ensures ok { OnOk result (ServesSteps catalog.old catalog.new id Request.Unfiltered) }
    ensures err { IfErr result (StopsSteps catalog.old catalog.new id Request.Unfiltered) }
{
    let paths = catalog.unfiltered()?;
    say_reply(catalog, id, Reply::Unfiltered(paths))
}

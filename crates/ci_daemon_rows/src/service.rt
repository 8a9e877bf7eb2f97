//! Services over memory: bytes in; how it ended, and the bytes written, out. No contract of a
//! service is seen by a test, so that proving the tests takes little.

use crate::files::{files, no_files, one_file};
use crate::pipe::Pipe;
use ci_base::Text8;
use ci_chunk::Filter;
use ci_daemon::{Ended, serve_filters};
use ci_files::{Files, SureMemoryFiles};
use ci_filters::{FormatFilter, Null, NullFilter, Plain, PlainFilter, Props, PropsFilter};
use ci_io::{MemorySink, MemorySource, Sink, Source};
use std::alloc::Global;
use std::test::Fail;

fn source(alloc: Global, calls: &[u8], fails: Vec<u64>) -> Result<MemorySource, Fail> {
    Ok(MemorySource::new(alloc, Text8::of(alloc, calls)?, fails))
}

// A sink that takes four bytes at once.
fn sink(alloc: Global, fails: Vec<u64>) -> Result<MemorySink, Fail> {
    Ok(MemorySink::new(alloc, 4, fails, 65_536)?)
}

fn told(alloc: Global, ended: Ended, written: &[u8]) -> Result<String, Fail> {
    let digits = hex::encode(alloc, written)?;
    Ok(format!(in alloc; "{ended:?} {}", digits.as_str())?)
}

// The filters of a service.
trait Filters {
    // How their service over a source and a sink ends.
    fn ended<S: Source, K: Sink>(
        alloc: Global,
        source: &mut S,
        sink: &mut K,
    ) -> Result<Ended, Fail>;
}

// How the service of some filters over these calls ended, and the digits of what it wrote; with the
// calls of the source and of the sink that fail.
fn served<F: Filters>(
    alloc: Global,
    calls: &[u8],
    unread: Vec<u64>,
    unwritten: Vec<u64>,
) -> Result<String, Fail> {
    let mut source = source(alloc, calls, unread)?;
    let mut sink = sink(alloc, unwritten)?;
    served_over::<F>(alloc, &mut source, &mut sink)
}

fn served_over<F: Filters>(
    alloc: Global,
    source: &mut MemorySource,
    sink: &mut MemorySink,
) -> Result<String, Fail> {
    let ended = F::ended(alloc, source, sink)?;
    told(alloc, ended, sink.bytes())
}

// A filter of each kind, as the daemon has them.
struct EachKind;

impl Filters for EachKind {
    fn ended<S: Source, K: Sink>(
        alloc: Global,
        source: &mut S,
        sink: &mut K,
    ) -> Result<Ended, Fail> {
        let props = boxed_props(alloc)?;
        let plain = boxed_plain(alloc, files(alloc)?)?;
        let null = boxed_null(alloc)?;
        let mut filters: [Box<dyn Filter>; 3] = [props, plain, null];
        Ok(serve_filters(alloc, source, sink, &mut filters))
    }
}

fn boxed_props(alloc: Global) -> Result<Box<PropsFilter<SureMemoryFiles>>, Fail> {
    Ok(Box::new(alloc, FormatFilter::new(files(alloc)?, Props))?)
}

fn boxed_plain<D: Files + Drop>(alloc: Global, files: D) -> Result<Box<PlainFilter<D>>, Fail> {
    Ok(Box::new(alloc, FormatFilter::new(files, Plain))?)
}

fn boxed_null(alloc: Global) -> Result<Box<NullFilter<SureMemoryFiles>>, Fail> {
    Ok(Box::new(alloc, FormatFilter::new(files(alloc)?, Null))?)
}

/// Rows of a service in which nothing fails.
pub(crate) struct Whole;

impl Pipe for Whole {
    fn came(alloc: Global, calls: &[u8]) -> Result<String, Fail> {
        served::<EachKind>(alloc, calls, Vec::new(alloc), Vec::new(alloc))
    }
}

/// Rows of a service whose source fails at its second call.
pub(crate) struct Unread;

impl Pipe for Unread {
    fn came(alloc: Global, calls: &[u8]) -> Result<String, Fail> {
        served::<EachKind>(alloc, calls, vec![in alloc; 1]?, Vec::new(alloc))
    }
}

/// Rows of a service whose sink fails at its fourth call, behind three times four bytes at most.
pub(crate) struct CutOff;

impl Pipe for CutOff {
    fn came(alloc: Global, calls: &[u8]) -> Result<String, Fail> {
        served::<EachKind>(alloc, calls, Vec::new(alloc), vec![in alloc; 3]?)
    }
}

/// Rows of a service of two filters that both take plain texts, of other files.
pub(crate) struct TwoPlain;

impl Pipe for TwoPlain {
    fn came(alloc: Global, calls: &[u8]) -> Result<String, Fail> {
        served::<TwoPlain>(alloc, calls, Vec::new(alloc), Vec::new(alloc))
    }
}

impl Filters for TwoPlain {
    fn ended<S: Source, K: Sink>(
        alloc: Global,
        source: &mut S,
        sink: &mut K,
    ) -> Result<Ended, Fail> {
        let one = boxed_plain(alloc, one_file(alloc, "/a.txt", b"red")?)?;
        let other = boxed_plain(alloc, one_file(alloc, "/a.txt", b"fox")?)?;
        let mut filters: [Box<dyn Filter>; 2] = [one, other];
        Ok(serve_filters(alloc, source, sink, &mut filters))
    }
}

/// Rows of a service of a filter that reads no file.
pub(crate) struct NoFiles;

impl Pipe for NoFiles {
    fn came(alloc: Global, calls: &[u8]) -> Result<String, Fail> {
        served::<NoFiles>(alloc, calls, Vec::new(alloc), Vec::new(alloc))
    }
}

impl Filters for NoFiles {
    fn ended<S: Source, K: Sink>(
        alloc: Global,
        source: &mut S,
        sink: &mut K,
    ) -> Result<Ended, Fail> {
        let mut filters: [Box<dyn Filter>; 1] = [boxed_plain(alloc, no_files(alloc))?];
        Ok(serve_filters(alloc, source, sink, &mut filters))
    }
}

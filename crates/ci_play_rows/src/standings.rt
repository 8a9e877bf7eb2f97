//! Catalogues over memory, and what stands behind the steps that they made.

ghost use Rattle.std.specs.Prelude.{◌≤◌};

use ci_base::{Seq, Text};
use ci_core::{Catalog, CoreFault, Question, Settings};
use ci_io::SureMemorySink;
use ci_journal::{Journal, Notice, What};
use ci_play::{Standing, Step, run_and_list, run_core};
use ci_words::NoiseList;
use std::alloc::Global;
use std::test::Fail;

// A catalogue over memory, with a bound on its documents.
fn catalog(alloc: Global, documents: u32) -> Result<Catalog<SureMemorySink>, Fail>
    requires some { 1 ≤ documents }
    requires few { documents ≤ 262144 }
{
    let sink = SureMemorySink::new(alloc, 64, 1024)?;
    let settings = Settings {
        journal: 65_536,
        documents,
        retries: 4,
        noise: NoiseList::standard(alloc)?,
        daemon: Text::of(alloc, "./cidaemon")?,
    };
    match Catalog::new(alloc, sink, &settings) {
        Ok(catalog) => Ok(catalog),
        Err(_) => Err("no memory".into()),
    }
}

/// How a list of steps ended, and what it left.
#[derive(Drop)]
pub(crate) struct Left {
    pub(crate) ended: Result<(), CoreFault>,
    pub(crate) crowded: bool,
    pub(crate) events: usize,
    pub(crate) copied: usize,
    pub(crate) documents: usize,
    pub(crate) replied: bool,
}

/// The steps are played on a new catalogue.
pub(crate) fn play(alloc: Global, documents: u32, steps: Vec<Step>) -> Result<Left, Fail>
    requires some { 1 ≤ documents }
    requires few { documents ≤ 262144 }
{
    let mut catalog = catalog(alloc, documents)?;
    let ended = run_core(&mut catalog, steps);
    tell_left(alloc, ended, &catalog)
}

fn tell_left(
    alloc: Global,
    ended: Result<(), CoreFault>,
    catalog: &Catalog<SureMemorySink>,
) -> Result<Left, Fail> {
    let documents = catalog.paths()?.items().len();
    let copied = count_copied(alloc, catalog.journal())?;
    Ok(Left {
        ended,
        crowded: is_crowded(catalog.fault()),
        events: catalog.journal().events().len(),
        copied,
        documents,
        replied: catalog.replied(1),
    })
}

// How many events the copy of a journal has.
fn count_copied(alloc: Global, journal: &Journal) -> Result<usize, Fail> {
    Ok(journal.copy(alloc)?.events().len())
}

/// How many hits the query has that waits behind the steps, and how many by a copy of its question.
pub(crate) fn count_hits(alloc: Global, steps: Vec<Step>) -> Result<(usize, usize), Fail> {
    let mut catalog = catalog(alloc, 8)?;
    let _ended = run_core(&mut catalog, steps);
    open_next(alloc, &mut catalog)
}

fn open_next(alloc: Global, catalog: &mut Catalog<SureMemorySink>) -> Result<(usize, usize), Fail> {
    match catalog.open_query(0)? {
        Some(question) => hits_of(alloc, &question),
        None => Err("a question".into()),
    }
}

fn hits_of(alloc: Global, question: &Question) -> Result<(usize, usize), Fail> {
    let hits = question.hits(alloc)?.items().len();
    Ok((hits, question.copy(alloc)?.hits(alloc)?.items().len()))
}

fn is_crowded(fault: Option<&CoreFault>) -> bool {
    matches!(fault, Some(CoreFault::TooManyDocuments))
}

/// What stands behind a list of steps, and how many events tell of them.
#[derive(Drop)]
pub(crate) struct Listed {
    pub(crate) standing: Standing,
    pub(crate) events: usize,
}

/// The steps are played on a new catalogue, and what stands behind them is listed.
pub(crate) fn list(alloc: Global, steps: Vec<Step>) -> Result<Listed, Fail> {
    let mut catalog = catalog(alloc, 8)?;
    let standing = run_and_list(&mut catalog, steps)?;
    Ok(Listed {
        standing,
        events: catalog.journal().events().len(),
    })
}

/// How two lists of steps ended, and how many events stand behind them.
#[derive(Drop)]
pub(crate) struct Both {
    pub(crate) first: Result<(), CoreFault>,
    pub(crate) second: Result<(), CoreFault>,
    pub(crate) events: usize,
}

/// Two lists are played on one catalogue, behind each other.
pub(crate) fn play_both(
    alloc: Global,
    documents: u32,
    steps: Vec<Step>,
    more: Vec<Step>,
) -> Result<Both, Fail>
    requires some { 1 ≤ documents }
    requires few { documents ≤ 262144 }
{
    let mut catalog = catalog(alloc, documents)?;
    let first = run_core(&mut catalog, steps);
    let second = run_core(&mut catalog, more);
    Ok(Both {
        first,
        second,
        events: catalog.journal().events().len(),
    })
}

/// Whether this is the one document.
pub(crate) fn holds_only(standing: &Standing, text: &str) -> bool {
    let paths = standing.paths.items();
    paths.len() == 1 && paths.iter().all(|path| path.as_str() == text)
}

/// Whether this change is the one that is pending.
pub(crate) fn waits_only(standing: &Standing, text: &str, seq: u64) -> bool {
    let pending = standing.pending.items();
    pending.len() == 1 && pending.iter().all(|notice| is_change(notice, text, seq))
}

fn is_change(notice: &Notice, text: &str, seq: u64) -> bool {
    notice.path.as_str() == text && notice.seq == Seq(seq) && notice.what == What::Changed
}

/// Whether there is no document, and nothing is pending.
pub(crate) fn is_empty(standing: &Standing) -> bool {
    standing.paths.items().is_empty() && standing.pending.items().is_empty()
}

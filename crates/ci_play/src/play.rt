ghost use Rattle.std.specs.Prelude.{◌≡◌, OnOk, IfErr};
ghost use Rattle.ci_core.specs.Fixed.{KeepsFixed};
ghost use Rattle.ci_play.specs.Played.{Plays, Stops};
ghost use Rattle.ci_play.specs.declared.step.Step.{Step};

use crate::Step;
use crate::conditions::{can_die, can_finish, can_put, can_return};
use ci_base::{PathText, Seq};
use ci_change::{Batch, What};
use ci_chunk::Transcript;
use ci_core::{Catalog, CoreFault};
use ci_io::Sink;
use ci_journal::{Outcomes, Paths, Reply, Request};

/// Plays one step, or passes it over where its condition doesn't hold.
pub fn play<K: Sink + Drop>(catalog: &mut Catalog<K>, step: Step) -> Result<(), CoreFault>
    ensures ok { OnOk result (Plays catalog.old catalog.new step) }
    ensures refused { IfErr result (Stops catalog.old catalog.new step) }
    ensures unrefused { OnOk result (catalog.new.refusal ≡ catalog.old.refusal) }
    ensures fixed { KeepsFixed catalog.old catalog.new }
{
    match step {
        Step::Ask { by, request } => play_ask(catalog, by, request),
        Step::Note { by, path, what } => play_note(catalog, by, path, what),
        Step::Put {
            by,
            path,
            seq,
            transcript,
        } => play_put(catalog, by, path, seq, transcript),
        Step::Erase { by, path } => play_erase(catalog, by, path),
        Step::Started { by } => catalog.started(by),
        Step::StartFailed { by } => play_failed(catalog, by),
        Step::BeginBatch { by, max } => play_begin(catalog, by, max),
        Step::FinishBatch {
            by,
            batch,
            outcomes,
        } => play_finish(catalog, by, batch, outcomes),
        Step::BatchDied { by, batch, charged } => {
            play_death(catalog, by, batch, charged);
            Ok(())
        }
        Step::ReturnBatch { by, batch } => {
            play_return(catalog, by, batch);
            Ok(())
        }
        Step::OpenQuery { by } => play_open(catalog, by),
        Step::Answer { by, id, at, paths } => play_answer(catalog, by, id, at, paths),
        Step::Say { by, id, reply } => play_say(catalog, by, id, reply),
    }
}

fn play_ask<K: Sink + Drop>(
    catalog: &mut Catalog<K>,
    by: u32,
    request: Request,
) -> Result<(), CoreFault>
    ensures ok { OnOk result (Plays catalog.old catalog.new (Step.Ask by request)) }
    ensures refused { IfErr result (Stops catalog.old catalog.new (Step.Ask by request)) }
    ensures unrefused { OnOk result (catalog.new.refusal ≡ catalog.old.refusal) }
    ensures fixed { KeepsFixed catalog.old catalog.new }
{
    if by == 0 {
        catalog.ask(by, request)?;
    }
    Ok(())
}

fn play_note<K: Sink + Drop>(
    catalog: &mut Catalog<K>,
    by: u32,
    path: PathText,
    what: What,
) -> Result<(), CoreFault>
    ensures ok { OnOk result (Plays catalog.old catalog.new (Step.Note by path what)) }
    ensures refused { IfErr result (Stops catalog.old catalog.new (Step.Note by path what)) }
    ensures unrefused { OnOk result (catalog.new.refusal ≡ catalog.old.refusal) }
    ensures fixed { KeepsFixed catalog.old catalog.new }
{
    if by == 0 {
        catalog.note(by, &path, what)?;
    }
    Ok(())
}

fn play_put<K: Sink + Drop>(
    catalog: &mut Catalog<K>,
    by: u32,
    path: PathText,
    seq: Seq,
    transcript: Transcript,
) -> Result<(), CoreFault>
    ensures ok { OnOk result (Plays catalog.old catalog.new (Step.Put by path seq transcript)) }
    ensures refused { IfErr result
        (Stops catalog.old catalog.new (Step.Put by path seq transcript)) }
    ensures unrefused { OnOk result (catalog.new.refusal ≡ catalog.old.refusal) }
    ensures fixed { KeepsFixed catalog.old catalog.new }
{
    if can_put(catalog.journal().events(), by, &path, seq) {
        return catalog.put(by, &path, seq, transcript);
    }
    Ok(())
}

fn play_erase<K: Sink + Drop>(
    catalog: &mut Catalog<K>,
    by: u32,
    path: PathText,
) -> Result<(), CoreFault>
    ensures ok { OnOk result (Plays catalog.old catalog.new (Step.Erase by path)) }
    ensures refused { IfErr result (Stops catalog.old catalog.new (Step.Erase by path)) }
    ensures unrefused { OnOk result (catalog.new.refusal ≡ catalog.old.refusal) }
    ensures fixed { KeepsFixed catalog.old catalog.new }
{
    catalog.erase(by, &path)?;
    Ok(())
}

fn play_failed<K: Sink + Drop>(catalog: &mut Catalog<K>, by: u32) -> Result<(), CoreFault>
    ensures ok { OnOk result (Plays catalog.old catalog.new (Step.StartFailed by)) }
    ensures refused { IfErr result (Stops catalog.old catalog.new (Step.StartFailed by)) }
    ensures unrefused { OnOk result (catalog.new.refusal ≡ catalog.old.refusal) }
    ensures fixed { KeepsFixed catalog.old catalog.new }
{
    catalog.start_failed(by)?;
    Ok(())
}

fn play_begin<K: Sink + Drop>(
    catalog: &mut Catalog<K>,
    by: u32,
    max: usize,
) -> Result<(), CoreFault>
    ensures ok { OnOk result (Plays catalog.old catalog.new (Step.BeginBatch by max)) }
    ensures refused { IfErr result (Stops catalog.old catalog.new (Step.BeginBatch by max)) }
    ensures unrefused { OnOk result (catalog.new.refusal ≡ catalog.old.refusal) }
    ensures fixed { KeepsFixed catalog.old catalog.new }
{
    if 1 <= max {
        catalog.begin_batch(by, max)?;
    }
    Ok(())
}

fn play_finish<K: Sink + Drop>(
    catalog: &mut Catalog<K>,
    by: u32,
    batch: Batch,
    outcomes: Outcomes,
) -> Result<(), CoreFault>
    ensures ok { OnOk result
        (Plays catalog.old catalog.new (Step.FinishBatch by batch outcomes)) }
    ensures refused { IfErr result
        (Stops catalog.old catalog.new (Step.FinishBatch by batch outcomes)) }
    ensures unrefused { OnOk result (catalog.new.refusal ≡ catalog.old.refusal) }
    ensures fixed { KeepsFixed catalog.old catalog.new }
{
    if can_finish(catalog.journal().events(), by, &batch, &outcomes) {
        return catalog.finish_batch(by, &batch, outcomes);
    }
    Ok(())
}

fn play_death<K: Sink + Drop>(catalog: &mut Catalog<K>, by: u32, batch: Batch, charged: u32)
    ensures plays { Plays catalog.old catalog.new (Step.BatchDied by batch charged) }
    ensures refusal { catalog.new.refusal ≡ catalog.old.refusal }
    ensures fixed { KeepsFixed catalog.old catalog.new }
{
    if can_die(catalog.journal().events(), by, &batch, charged) {
        catalog.batch_died(by, &batch, charged);
    }
}

fn play_return<K: Sink + Drop>(catalog: &mut Catalog<K>, by: u32, batch: Batch)
    ensures plays { Plays catalog.old catalog.new (Step.ReturnBatch by batch) }
    ensures refusal { catalog.new.refusal ≡ catalog.old.refusal }
    ensures fixed { KeepsFixed catalog.old catalog.new }
{
    if can_return(catalog.journal().events(), by, &batch) {
        catalog.return_batch(by, &batch);
    }
}

fn play_open<K: Sink + Drop>(catalog: &mut Catalog<K>, by: u32) -> Result<(), CoreFault>
    ensures ok { OnOk result (Plays catalog.old catalog.new (Step.OpenQuery by)) }
    ensures refused { IfErr result (Stops catalog.old catalog.new (Step.OpenQuery by)) }
    ensures unrefused { OnOk result (catalog.new.refusal ≡ catalog.old.refusal) }
    ensures fixed { KeepsFixed catalog.old catalog.new }
{
    catalog.open_query(by)?;
    Ok(())
}

fn play_answer<K: Sink + Drop>(
    catalog: &mut Catalog<K>,
    by: u32,
    id: u64,
    at: u64,
    paths: Paths,
) -> Result<(), CoreFault>
    ensures ok { OnOk result (Plays catalog.old catalog.new (Step.Answer by id at paths)) }
    ensures refused { IfErr result
        (Stops catalog.old catalog.new (Step.Answer by id at paths)) }
    ensures unrefused { OnOk result (catalog.new.refusal ≡ catalog.old.refusal) }
    ensures fixed { KeepsFixed catalog.old catalog.new }
{
    if catalog.can_answer(id, at, &paths)? {
        catalog.answer(by, id, at, paths)?;
    }
    Ok(())
}

fn play_say<K: Sink + Drop>(
    catalog: &mut Catalog<K>,
    by: u32,
    id: u64,
    reply: Reply,
) -> Result<(), CoreFault>
    ensures ok { OnOk result (Plays catalog.old catalog.new (Step.Say by id reply)) }
    ensures refused { IfErr result (Stops catalog.old catalog.new (Step.Say by id reply)) }
    ensures unrefused { OnOk result (catalog.new.refusal ≡ catalog.old.refusal) }
    ensures fixed { KeepsFixed catalog.old catalog.new }
{
    if catalog.can_say(id) {
        catalog.say(by, id, reply)?;
    }
    Ok(())
}

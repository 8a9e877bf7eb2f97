ghost use Rattle.std.specs.Prelude.{◌≡◌, ◌≤◌, length, IfOk, OnOk, IfErr};
ghost use Rattle.ci_chunk.specs.Plain.{plain};
ghost use Rattle.ci_io.specs.declared.line.TheConstants.{LINE_BYTES};
ghost use Rattle.ci_server.specs.Served.{IsJustAsked, ServesSteps, StopsSteps};

use crate::{FOREGROUND, note_here, say_reply};
use ci_base::{OutOfMemory, PathText, Text};
use ci_chunk::{Transcript, TranscriptFault};
use ci_core::{Catalog, CoreFault};
use ci_io::Sink;
use ci_journal::{Reply, Request, What};
use std::alloc::Global;

/// Notes the change of the document.
pub fn serve_changed<K: Sink + Drop>(
    catalog: &mut Catalog<K>,
    id: u64,
    path: &PathText,
) -> Result<(), CoreFault>
    requires { IsJustAsked catalog.old id (Request.Changed path.now) }
    ensures ok { OnOk result (ServesSteps catalog.old catalog.new id (Request.Changed path.now)) }
    ensures err { IfErr result (StopsSteps catalog.old catalog.new id (Request.Changed path.now)) }
{
    let _seq = note_here(catalog, path, What::Changed)?;
    say_reply(catalog, id, Reply::Ok)
}

/// Notes the deletion of the document, and takes it away.
pub fn serve_deleted<K: Sink + Drop>(
    catalog: &mut Catalog<K>,
    id: u64,
    path: &PathText,
) -> Result<(), CoreFault>
    requires { IsJustAsked catalog.old id (Request.Deleted path.now) }
    ensures ok { OnOk result (ServesSteps catalog.old catalog.new id (Request.Deleted path.now)) }
    ensures err { IfErr result (StopsSteps catalog.old catalog.new id (Request.Deleted path.now)) }
{
    let _seq = note_here(catalog, path, What::Deleted)?;
    let erased = catalog.erase(FOREGROUND, path)?;
    // The deletion was just noted, so it is pending.
    prove!(erased);
    say_reply(catalog, id, Reply::Ok)
}

/// Notes the change of the document, and takes the text as its filtering.
pub fn serve_put<K: Sink + Drop>(
    alloc: Global,
    catalog: &mut Catalog<K>,
    id: u64,
    path: &PathText,
    text: &Text,
) -> Result<(), CoreFault>
    requires short { length text.now ≤ LINE_BYTES }
    requires asked { IsJustAsked catalog.old id (Request.Put path.now text.now) }
    ensures ok { OnOk result
        (ServesSteps catalog.old catalog.new id (Request.Put path.now text.now)) }
    ensures err { IfErr result
        (StopsSteps catalog.old catalog.new id (Request.Put path.now text.now)) }
{
    let seq = note_here(catalog, path, What::Changed)?;
    let transcript = transcript_of(alloc, path, text)?;
    catalog.put(FOREGROUND, path, seq, transcript)?;
    say_reply(catalog, id, Reply::Ok)
}

// What a filter says of the text. A line's text is never too long for a transcript.
fn transcript_of(alloc: Global, path: &PathText, text: &Text) -> Result<Transcript, OutOfMemory>
    requires { length text.now ≤ LINE_BYTES }
    ensures { IfOk result (λ t. t ≡ plain path.now text.now) }
{
    match Transcript::plain(alloc, path, text.as_str()) {
        Ok(transcript) => Ok(transcript),
        Err(TranscriptFault::OutOfMemory) => Err(OutOfMemory),
        Err(TranscriptFault::TooLong) => unreachable!(),
    }
}

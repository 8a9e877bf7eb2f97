ghost use Rattle.std.specs.Prelude.{◌≡◌, ◌≢◌, ◌↔◌, [], false, bytes_eq};
ghost use Rattle.ci_holdings.specs.Core.{terms_of};
ghost use Rattle.ci_words.specs.Noise.{standard_noise};
ghost use Rattle.ci_server.specs.Course.{IsTold};
ghost use Rattle.ci_server.specs.Words.{are_words};

use crate::{Session, Status, run_steps};
use ci_base::Text;
use ci_core::Settings;
use ci_io::{Sink, Source};
use ci_link::Spawner;
use std::alloc::Global;

/// Runs the session that the command line asks for: the program's name, `steps`, and the one scope `/`.
pub fn run<S: Source + Drop, K: Sink + Drop, P: Spawner + Drop>(
    alloc: Global,
    words: &[Text],
    source: S,
    sink: K,
    spawner: P,
) -> Session<S, K, P>
    // Other words are refused, and then nothing is read or written.
    ensures usage { (result.status ≡ Status.Usage) ↔ (are_words words.now ≡ false) }
    ensures idle { result.status ≡ Status.Usage → result.journal.list ≡ [] }
    ensures unread { result.status ≡ Status.Usage → result.source ≡ source }
    ensures unwritten { result.status ≡ Status.Usage → result.sink ≡ sink }
    ensures unstarted { result.status ≡ Status.Usage → result.spawner ≡ spawner }

    // Otherwise what `run_steps` promises holds under the standard settings: the most that settings
    // allow, four attempts at a document, and the standard noise words.
    ensures told { result.status ≢ Status.Usage → IsTold (record {
      terms = terms_of standard_noise 4;
      limit = 268435456;
      most = 262144;
      bytes = S.left source;
      left = S.left result.source;
      read_faults = S.faults source;
      read_faults_after = S.faults result.source;
      written = K.written sink;
      written_after = K.written result.sink;
      write_faults = K.faults sink;
      write_faults_after = K.faults result.sink;
      records = P.records spawner;
      records_after = P.records result.spawner;
      spawn_faults = P.faults spawner;
      spawn_faults_after = P.faults result.spawner;
      status = result.status;
      journal = result.journal.list;
    }) }
{
    if !are_words(words) {
        return Session::idle(alloc, Status::Usage, source, sink, spawner);
    }
    match Settings::standard(alloc) {
        Ok(settings) => run_steps(alloc, &settings, source, sink, spawner),
        Err(_) => Session::idle(alloc, Status::OutOfMemory, source, sink, spawner),
    }
}

fn are_words(words: &[Text]) -> bool
    ensures { result ≡ are_words words.now }
{
    match words {
        [_, command, scope] => is_word(command, "steps") && is_word(scope, "/"),
        _ => false,
    }
}

fn is_word(word: &Text, wanted: &str) -> bool
    ensures { result ≡ bytes_eq word.now wanted.now }
{
    word.as_str() == wanted
}

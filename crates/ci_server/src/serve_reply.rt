ghost use Rattle.std.specs.Prelude.{◌≡◌, IfOk, OnOk, IfErr};
ghost use Rattle.ci_journal.specs.Step.{MaySay};
ghost use Rattle.ci_server.specs.Served.{IsNotedHere, Replies, StopsNoting, StopsReplying};
ghost use Rattle.ci_worker.specs.Filtering.{GoesBeside};
ghost use Rattle.ci_worker.specs.Stops.{IsSound};

use crate::FOREGROUND;
use ci_base::{PathText, Seq};
use ci_core::{Catalog, CoreFault};
use ci_io::Sink;
use ci_journal::{Reply, What};

/// Notes the path, as the first step of a request.
pub fn note_here<K: Sink + Drop>(
    catalog: &mut Catalog<K>,
    path: &PathText,
    what: What,
) -> Result<Seq, CoreFault>
    requires { IsSound catalog.old }
    ensures ok { IfOk result (λ seq. IsNotedHere catalog.old catalog.new path.now seq what) }
    ensures err { IfErr result (StopsNoting catalog.old catalog.new path.now what) }
{
    catalog.note(FOREGROUND, path, what)
}

/// Makes the reply that ends the steps of a request.
pub fn say_reply<K: Sink + Drop>(
    catalog: &mut Catalog<K>,
    id: u64,
    reply: Reply,
) -> Result<(), CoreFault>
    requires { MaySay catalog.old.sheet.events id }
    ensures ok { OnOk result (Replies catalog.old catalog.new id reply) }
    ensures err { IfErr result (StopsReplying catalog.old catalog.new id reply) }
    ensures beside { GoesBeside catalog.old.sheet.events catalog.new.sheet.events }
{
    catalog.say(FOREGROUND, id, reply)
}

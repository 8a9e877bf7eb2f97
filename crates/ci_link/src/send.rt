ghost use Rattle.std.specs.Prelude.{◌≡◌, OnErr, OnOk};
ghost use Rattle.std.specs.Io.KnownBytes.{Appends};
ghost use Rattle.ci_io.specs.Causes.{HasCause};
ghost use Rattle.ci_io.specs.Putting.{AppendsFront};

use crate::Link;
use ci_io::Failed;

/// Sends all the bytes, by as many sends as it takes.
pub(crate) fn send_all<L: Link>(link: &mut L, bytes: &[u8]) -> Result<(), Failed>
    ensures ok { OnOk result (Appends (L.sent link.old) (L.sent link.new) bytes.now) }
    ensures err { OnErr result (AppendsFront (L.sent link.old) (L.sent link.new) bytes.now) }
    ensures given { L.given link.new ≡ L.given link.old }
    ensures more { L.more link.new ≡ L.more link.old }
    ensures cause { HasCause (L.faults link.old) (L.faults link.new) result }
{
    let mut done = 0;
    while done < bytes.len() {
        done += link.send(&bytes[done..])?;
    }
    Ok(())
}

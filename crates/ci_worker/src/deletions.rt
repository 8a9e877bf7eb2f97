ghost use Rattle.std.specs.Prelude.{◌≡◌, IfErr, OnOk};
ghost use Rattle.ci_worker.specs.Filtering.{GoesBeside, GoesIdle, StopsFiltering};
ghost use Rattle.ci_worker.specs.Stops.{IsSound};
ghost use Rattle.ci_worker.specs.Way.{IsIdle};

use ci_change::What;
use ci_core::{Catalog, CoreFault};
use ci_io::Sink;

/// Takes each document away whose deletion is pending, in byte order.
pub fn erase_deletions<K: Sink + Drop>(catalog: &mut Catalog<K>, by: u32) -> Result<(), CoreFault>
    requires sound { IsSound catalog.old }
    requires idle { IsIdle catalog.old.sheet.events }
    ensures ok { OnOk result (GoesIdle by catalog.old catalog.new) }
    ensures err { IfErr result (StopsFiltering by catalog.old catalog.new) }
    ensures beside { GoesBeside catalog.old.sheet.events catalog.new.sheet.events }
{
    let pending = catalog.pending()?;
    for notice in pending.items() {
        match notice.what {
            What::Deleted => {
                catalog.erase(by, &notice.path)?;
            }
            What::Changed => {}
        }
    }
    Ok(())
}

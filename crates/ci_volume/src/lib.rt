//! A volume of pages with two slots, whose root is the old one or the new one whenever the disk stops.
#![tactic(auto)]

mod accounts;
mod chains;
mod commits;
mod committing;
mod creating;
mod current;
mod fault;
mod first_steps;
mod found;
mod founding;
mod fresh;
mod gates;
mod gathering;
mod header;
mod no_volume;
mod opening;
mod passing;
mod reading;
mod runs;
mod slot;
mod slot_bytes;
mod stable;
mod told;
mod volume;
mod writing;

pub use fault::VolumeFault;
pub use fresh::is_fresh;
pub use header::Header;
pub use no_volume::NoVolume;
pub use slot::Slot;
pub use volume::Volume;

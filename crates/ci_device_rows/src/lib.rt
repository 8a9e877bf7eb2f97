//! Tests of disks and volumes: scripts of calls and what they say, images and what they open to.
#![tactic(auto)]

#[cfg(test)]
mod cut_images;
#[cfg(test)]
mod files;
#[cfg(test)]
mod images;
#[cfg(test)]
mod memory;
#[cfg(test)]
mod new_volumes;
#[cfg(test)]
mod openings;
#[cfg(test)]
mod patches;
#[cfg(test)]
mod runs;
#[cfg(test)]
mod script;
#[cfg(test)]
mod stops;
#[cfg(test)]
mod table;
#[cfg(test)]
mod volume_files;
#[cfg(test)]
mod volumes;
#[cfg(test)]
mod worked_image;

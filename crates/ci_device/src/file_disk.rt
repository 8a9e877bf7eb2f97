ghost use Rattle.std.specs.Prelude.{◌≡◌, [], None, false};
ghost use Rattle.std.proofs.Common.{refl};
ghost use Rattle.ci_io.specs.Causes.{HasCause};

use crate::{Disk, Failed};
use ci_base::Text;
use std::fs::{File, Files, OpenOptions};
use std::io::{Seek, SeekFrom};
use std::os::unix::fs::FileExt;

/// A file as a disk. It is opened at the first call, and made where it isn't there. Of what a file
/// holds it tells nothing.
#[derive(Drop)]
pub struct FileDisk<R: Files<File = File> + Drop> {
    rt: R,
    path: Text,
    file: Option<File>,
    faults: u64,
}

impl<R: Files<File = File> + Drop> FileDisk<R> {
    /// The file at this path.
    pub fn new(rt: R, path: Text) -> FileDisk<R>
        ensures path { result.path ≡ path }
        ensures closed { result.file ≡ None }
        ensures faults { result.faults ≡ 0 }
    {
        FileDisk {
            rt,
            path,
            file: None,
            faults: 0,
        }
    }
}

// The open file, where it could be opened.
fn opened<'a, R: Files<File = File>>(
    rt: &R,
    path: &str,
    file: &'a mut Option<File>,
) -> Option<&'a File> {
    if file.is_none() {
        *file = OpenOptions::new()
            .read(true)
            .write(true)
            .create(true)
            .open(rt, path)
            .ok();
    }
    file.as_ref()
}

// It is asked by a seek. A stat would make the next write change the file's times, which the sync
// behind that write would bring to the disk too.
fn length_of(file: Option<&File>) -> Option<u64> {
    let mut file = file?;
    file.seek(SeekFrom::End(0)).ok()
}

fn read_from(file: Option<&File>, at: u64, out: &mut [u8]) -> Option<()> {
    file?.read_exact_at(out, at).ok()
}

fn write_to(file: Option<&File>, at: u64, bytes: &[u8]) -> Option<()> {
    file?.write_all_at(bytes, at).ok()
}

fn sync_of(file: Option<&File>) -> Option<()> {
    file?.sync_all().ok()
}

// The answer, where there is one. None is a fault.
fn counted<T>(answer: Option<T>, faults: &mut u64) -> Result<T, Failed>
    ensures { HasCause faults.old faults.new result }
{
    match answer {
        Some(value) => Ok(value),
        None => {
            *faults = faults.saturating_add(1);
            Err(Failed)
        }
    }
}

impl<R: Files<File = File> + Drop> Disk for FileDisk<R> {
    ghost seen = { λ _. [] };

    ghost may_leave = { λ _ image. image ≡ [] };

    ghost moment = { λ _. 0 };

    ghost left_since = { λ _ _ image. image ≡ [] };

    ghost faults = { λ d. d.faults };

    ghost honest = { λ _. false };

    ghost seen_may_stay = { λ _. refl };

    ghost counts_now = { λ _ _ _ _ now. now };

    ghost only_now = { λ _ _ since. since };

    fn length(&mut self) -> Result<u64, Failed> {
        let answer = length_of(opened(&self.rt, self.path.as_str(), &mut self.file));
        counted(answer, &mut self.faults)
    }

    fn read_at(&mut self, at: u64, out: &mut [u8]) -> Result<(), Failed> {
        let answer = read_from(
            opened(&self.rt, self.path.as_str(), &mut self.file),
            at,
            out,
        );
        counted(answer, &mut self.faults)
    }

    fn write_at(&mut self, at: u64, bytes: &[u8]) -> Result<(), Failed> {
        let answer = write_to(
            opened(&self.rt, self.path.as_str(), &mut self.file),
            at,
            bytes,
        );
        counted(answer, &mut self.faults)
    }

    fn sync(&mut self) -> Result<(), Failed> {
        let answer = sync_of(opened(&self.rt, self.path.as_str(), &mut self.file));
        counted(answer, &mut self.faults)
    }
}

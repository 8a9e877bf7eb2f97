ghost use Rattle.std.specs.Prelude.{◌≡◌, ◌≤◌, None, IfOk, codes, ◌++◌, length, vec_len};
ghost use Rattle.ci_io.specs.Causes.{Rose};
ghost use Rattle.ci_files.specs.Files.{under_folder};

use crate::{FileFault, Files};
use ci_base::{OutOfMemory, Text, Text8};
use std::alloc::Global;
use std::fs;
use std::io::Read;
use std::marker::Model;

/// The most bytes that are asked of a file at once.
const ROOM: usize = 4096;

/// The files under the folder in which the program was started: the path `/d/a.txt` names the file
/// `./d/a.txt`. It tells no contents, and contracts see its count of faults.
#[derive(Drop)]
pub struct RealFiles<R: fs::Files + Drop> {
    rt: R,
    faults: u64,
}

impl<R: fs::Files + Drop> Model for RealFiles<R> {
    ghost use Rattle.std.specs.Prelude.{ℕ};

    ghost Value = { ℕ };

    ghost view = { λ f. f.faults };
}

impl<R: fs::Files + Drop> RealFiles<R> {
    pub fn new(rt: R) -> RealFiles<R>
        ensures { result ≡ 0 }
    {
        RealFiles { rt, faults: 0 }
    }
}

impl<R: fs::Files + Drop> Files for RealFiles<R> {
    ghost holds = { λ _. None };

    ghost faults = { λ f. f };

    fn read(&mut self, alloc: Global, path: &str, max: usize) -> Result<Text8, FileFault> {
        let Ok(name) = under_folder(alloc, path) else {
            return Err(FileFault::OutOfMemory);
        };
        match read_front(alloc, &self.rt, name.as_str(), max) {
            Ok(bytes) => Ok(Text8::from(bytes)),
            Err(FileFault::OutOfMemory) => Err(FileFault::OutOfMemory),
            Err(FileFault::Failed) => {
                self.faults = self.faults.saturating_add(1);
                Err(FileFault::Failed)
            }
        }
    }
}

fn under_folder(alloc: Global, path: &str) -> Result<Text, OutOfMemory>
    ensures { IfOk result (λ name. name ≡ under_folder path.now) }
{
    let mut name = Text::of(alloc, ".")?.into_string();
    name.push_str(path)?;
    Ok(Text::from(name))
}

fn read_front<R: fs::Files>(
    alloc: Global,
    rt: &R,
    name: &str,
    max: usize,
) -> Result<Vec<u8>, FileFault>
    ensures { IfOk result (λ bytes. vec_len bytes ≤ max) }
{
    match fs::OpenOptions::new().read(true).open(rt, name) {
        Ok(mut file) => read_at_most(alloc, &mut file, max),
        Err(_) => Err(FileFault::Failed),
    }
}

fn read_at_most<F: Read>(alloc: Global, file: &mut F, max: usize) -> Result<Vec<u8>, FileFault>
    ensures { IfOk result (λ bytes. vec_len bytes ≤ max) }
{
    let mut bytes = Vec::new(alloc);
    let mut part = [0u8; ROOM];
    'reading: while bytes.len() < max {
        let room = ROOM.min(max - bytes.len());
        match file.read(&mut part[..room]) {
            Err(_) => return Err(FileFault::Failed),
            Ok(0) => return Ok(bytes),
            Ok(count) => {
                if bytes.extend_from_slice(&part[..count]).is_err() {
                    return Err(FileFault::OutOfMemory);
                }
            }
        }
    }
    Ok(bytes)
}

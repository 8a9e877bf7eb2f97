ghost use Rattle.std.specs.Prelude.{◌≡◌, ◌==◌, None, IfOk};
ghost use Rattle.std.specs.List.{list_any};
ghost use Rattle.ci_link.specs.Program.{file_named};

use crate::{ChildLink, SpawnFault, Spawner};
use ci_base::{OutOfMemory, Text};
use std::alloc::Global;
use std::marker::Model;
use std::process::{Command, Processes, Stdio};

/// Starts daemons as processes. A name without a slash is that of a file in the current folder, and
/// isn't looked up anywhere else. It tells no records, and contracts see its count of faults.
#[derive(Drop)]
pub struct ChildSpawner<R: Processes + Drop> {
    rt: R,
    faults: u64,
}

impl<R: Processes + Drop> Model for ChildSpawner<R> {
    ghost use Rattle.std.specs.Prelude.{ℕ};

    ghost Value = { ℕ };

    ghost view = { λ s. s.faults };
}

impl<R: Processes + Drop> ChildSpawner<R> {
    pub fn new(rt: R) -> ChildSpawner<R>
        ensures { result ≡ 0 }
    {
        ChildSpawner { rt, faults: 0 }
    }
}

impl<R: Processes + Drop> Spawner for ChildSpawner<R> {
    type Link = ChildLink<R::Started>;

    ghost records = { λ _. None };

    ghost faults = { λ s. s };

    fn start(&mut self, alloc: Global, program: &str) -> Result<ChildLink<R::Started>, SpawnFault> {
        let Ok(file) = file_named(alloc, program) else {
            return Err(SpawnFault::OutOfMemory);
        };
        let Ok(mut command) = Command::new(alloc, file.as_str()) else {
            return Err(SpawnFault::OutOfMemory);
        };
        command.stdin(Stdio::piped());
        command.stdout(Stdio::piped());
        match command.spawn(&self.rt) {
            Ok(child) => Ok(ChildLink::new(child)),
            Err(_) => {
                self.faults = self.faults.saturating_add(1);
                Err(SpawnFault::Failed)
            }
        }
    }

    fn stop(&mut self, link: ChildLink<R::Started>) {
        link.end();
    }
}

// The file that a daemon's name stands for, in a form that isn't looked up in PATH.
fn file_named(alloc: Global, name: &str) -> Result<Text, OutOfMemory>
    ensures { IfOk result (λ file. file ≡ file_named name.now) }
{
    if has_slash(name) {
        return Text::of(alloc, name);
    }
    let mut file = Text::of(alloc, "./")?.into_string();
    file.push_str(name)?;
    Ok(Text::from(file))
}

fn has_slash(name: &str) -> bool
    ensures { result ≡ list_any (λ b. b == 47) name.now }
{
    name.bytes().any(|byte| byte == b'/')
}

//! Children of this process. Starting one doesn't wait for it; waiting does, as long as it runs. They tell their counts alone.

ghost use Rattle.std.specs.Prelude.{◌≡◌, ◌≤◌, None, OnErr};
ghost use Rattle.lnbd_link.specs.Count.{Rises};
ghost use Rattle.lnbd_spawn.specs.Deeds.{WaitFailed};

use lnbd_link::raised;
use lnbd_model::{Text, Texts};
use lnbd_spawn::{SpawnFailed, Spawner, Waited};
use std::alloc::Global;
use std::io;
use std::io::ErrorKind;
use std::os::unix::process::ExitStatusExt;
use std::process::{Child, Command, ExitStatus, Processes};

/// Programs of the system. A child's number is that of its place, and no place is used twice. A child has this process's standard streams, and is neither
/// waited for nor killed where nobody asks for it.
#[derive(Drop)]
pub struct Programs<'a, R: Processes> {
    alloc: Global,
    processes: &'a R,
    children: Vec<Child<R::Started>>,
    faults: u64,
}

impl<'a, R: Processes> Programs<'a, R> {
    /// No child yet. It takes no memory.
    pub fn new(alloc: Global, processes: &'a R) -> Programs<'a, R> {
        Programs {
            alloc,
            processes,
            children: Vec::new(alloc),
            faults: 0,
        }
    }

    // Starts a program. All memory is taken before, so that no child runs without a number.
    fn spawn(&mut self, program: &Text, words: &Texts) -> io::Result<u32>
        ensures { self.new.faults ≡ self.old.faults }
    {
        let Ok(number) = u32::try_from(self.children.len()) else {
            return Err(io::Error::from(ErrorKind::OutOfMemory));
        };
        self.children.reserve(1)?;
        let mut command = Command::new(self.alloc, program.as_str())?;
        for word in words.as_slice() {
            command.arg(word.as_str())?;
        }
        let child = command.spawn(self.processes)?;
        self.children.push(child)?;
        Ok(number)
    }
}

impl<'a, R: Processes> Spawner for Programs<'a, R> {
    ghost told = { λ _. None };

    ghost faults = { λ p. p.faults };

    fn start(&mut self, program: &Text, words: &Texts) -> Result<u32, SpawnFailed> {
        match self.spawn(program, words) {
            Ok(child) => Ok(child),
            Err(_) => {
                self.faults = raised(self.faults, 1);
                Err(SpawnFailed)
            }
        }
    }

    fn wait(&mut self, child: u32) -> Waited {
        let waited = match self.children.get_mut(child as usize) {
            Some(child) => match child.wait() {
                Ok(ended) => waited_of(ended),
                Err(_) => Waited::Failed,
            },
            None => Waited::Failed,
        };
        if matches!(waited, Waited::Failed) {
            self.faults = raised(self.faults, 1);
        }
        waited
    }

    fn faults(&self) -> u64 {
        self.faults
    }
}

// How a child ended, by what the system says of it.
fn waited_of(ended: ExitStatus) -> Waited {
    if let Some(code) = ended.code() {
        return Waited::Status(code.cast_unsigned());
    }
    match ended.signal() {
        Some(_) => Waited::Signal,
        None => Waited::Failed,
    }
}

//! A spawner in memory, which answers by a list and keeps its calls. They are told while memory lasts.

ghost use Rattle.std.specs.Prelude.{◌≡◌, ◌≤◌, [], true, Some, None, IfOk, OnOk, OnErr, if◌then◌else◌, slice_index_or};
ghost use Rattle.lnbd_link.specs.Count.{Rises, raised_by};
ghost use Rattle.lnbd_link.specs.Part.{Adds};
ghost use Rattle.lnbd_spawn.specs.declared.deed.Deed.TheVariants.{Start, Wait};
ghost use Rattle.lnbd_spawn.specs.Deeds.{WaitFailed, child_told};
ghost use Rattle.lnbd_spawn.specs.Spawned.{told_by, after, lost, no_program, next_child, answer_wait};

use crate::deed::Deed;
use crate::spawner::{SpawnFailed, Spawner, Waited};
use lnbd_link::raised;
use lnbd_model::{NoMemory, Text, Texts};
use std::alloc::Global;
use std::marker::Model;

/// How one program behaves: whether it starts, and what waiting for it answers.
#[derive(Clone, Copy, Debug, PartialEq, Eq)]
pub struct Ran {
    pub starts: bool,
    pub waited: Waited,
}

/// A spawner in memory. The nth start, from 0, takes the nth program, whose number is n; one past the last fails. A wait on a
/// number that no start answered fails. Contracts see the programs, the calls, whether these are told, and the count of faults.
#[derive(Debug, Drop)]
pub struct ListSpawner {
    alloc: Global,
    programs: Vec<Ran>,
    calls: Vec<Deed>,
    started: usize,
    telling: bool,
    faults: u64,
}

impl Model for ListSpawner {
    ghost use Rattle.std.specs.Prelude.{◌≡◌};
    ghost use Rattle.lnbd_spawn.specs.Deeds.{starts};
    ghost use Rattle.lnbd_spawn.specs.Spawned.{Spawned};

    ghost Value = { Spawned };

    ghost view = { λ a. record { programs = a.programs.items; calls = a.calls.items; telling = a.telling; faults = a.faults } };

    ghost invariant = { λ a. a.started ≡ starts a.calls.items };
}

impl ListSpawner {
    /// A spawner of these programs. It takes no memory.
    pub fn new(alloc: Global, programs: Vec<Ran>) -> ListSpawner
        ensures told { ⟦<ListSpawner as Spawner>⟧.told result ≡ Some [] }
        ensures state { result ≡ record { programs = programs.items; calls = []; telling = true; faults = 0 } }
    {
        ListSpawner {
            alloc,
            programs,
            calls: Vec::new(alloc),
            started: 0,
            telling: true,
            faults: 0,
        }
    }

    /// The calls of `start` and `wait` that were kept, the oldest first: all of them while they are told.
    pub fn calls(&self) -> &[Deed]
        ensures { result.now ≡ self.now.calls }
    {
        &self.calls
    }

    // The number that the next start answers, unless memory runs out.
    fn next_child(&self) -> Option<u32>
        ensures { result ≡ next_child self.now }
    {
        if program_at(&self.programs, self.started).starts {
            return u32::try_from(self.started).ok();
        }
        None
    }

    // What a wait answers, unless memory runs out.
    fn answer_wait(&self, child: u32) -> Waited
        ensures { result ≡ answer_wait self.now child }
    {
        let index = child as usize;
        let program = program_at(&self.programs, index);
        if index < self.started && program.starts {
            return program.waited;
        }
        Waited::Failed
    }

    // Keeps a start. Where there is no memory for it, now or at an earlier call, nothing changes.
    fn keep_start(
        &mut self,
        program: &Text,
        words: &Texts,
        child: Option<u32>,
    ) -> Result<(), NoMemory>
        ensures ok { OnOk result (self.new ≡ after self.old (Start program.now words.now child)) }
        ensures telling { OnOk result (self.old.telling ≡ true) }
        ensures faults { self.old.faults ≤ self.new.faults }
        ensures err { OnErr result (self.new ≡ self.old) }
    {
        if !self.telling {
            return Err(NoMemory);
        }
        let call = start_of(self.alloc, program, words, child)?;
        self.calls.push(call)?;
        self.started += 1;
        if child.is_none() {
            self.faults = raised(self.faults, 1);
        }
        Ok(())
    }

    // Keeps a wait. Where there is no memory for it, now or at an earlier call, nothing changes.
    fn keep_wait(&mut self, child: u32, answer: Waited) -> Result<(), NoMemory>
        ensures ok { OnOk result (self.new ≡ after self.old (Wait child answer)) }
        ensures telling { OnOk result (self.old.telling ≡ true) }
        ensures faults { self.old.faults ≤ self.new.faults }
        ensures err { OnErr result (self.new ≡ self.old) }
    {
        if !self.telling {
            return Err(NoMemory);
        }
        self.calls.push(Deed::Wait { child, answer })?;
        if matches!(answer, Waited::Failed) {
            self.faults = raised(self.faults, 1);
        }
        Ok(())
    }

    // A call that can't be kept fails, and nothing is told from then on.
    fn lose(&mut self)
        ensures state { self.new ≡ lost self.old }
        ensures faults { self.old.faults ≤ self.new.faults }
    {
        self.telling = false;
        self.faults = raised(self.faults, 1);
    }
}

impl Spawner for ListSpawner {
    ghost told = { told_by };

    ghost faults = { λ s. s.faults };

    fn start(&mut self, program: &Text, words: &Texts) -> Result<u32, SpawnFailed>
        ensures told { Adds (told_by self.old) (told_by self.new) (Start program.now words.now (child_told result)) }
        ensures faults { self.old.faults ≤ self.new.faults }
        ensures cause { OnErr result (Rises 1 self.old.faults self.new.faults) }
        ensures answer { child_told result ≡ (if self.new.telling then next_child self.old else None) }
        ensures state { self.new ≡ (if self.new.telling then after self.old (Start program.now words.now (next_child self.old)) else lost self.old) }
    {
        let child = self.next_child();
        match self.keep_start(program, words, child) {
            Ok(()) => match child {
                Some(child) => Ok(child),
                None => Err(SpawnFailed),
            },
            Err(_) => {
                self.lose();
                Err(SpawnFailed)
            }
        }
    }

    fn wait(&mut self, child: u32) -> Waited
        ensures told { Adds (told_by self.old) (told_by self.new) (Wait child result) }
        ensures faults { self.old.faults ≤ self.new.faults }
        ensures cause { WaitFailed result → Rises 1 self.old.faults self.new.faults }
        ensures answer { result ≡ (if self.new.telling then answer_wait self.old child else Waited.Failed) }
        ensures state { self.new ≡ (if self.new.telling then after self.old (Wait child (answer_wait self.old child)) else lost self.old) }
    {
        let answer = self.answer_wait(child);
        match self.keep_wait(child, answer) {
            Ok(()) => answer,
            Err(_) => {
                self.lose();
                Waited::Failed
            }
        }
    }

    fn faults(&self) -> u64 {
        self.faults
    }
}

// The program of this number. Past the last one, none starts.
fn program_at(programs: &Vec<Ran>, index: usize) -> Ran
    ensures { result ≡ slice_index_or programs.now.items index no_program }
{
    if index < programs.len() {
        return programs[index];
    }
    Ran {
        starts: false,
        waited: Waited::Failed,
    }
}

// A start as it is kept.
fn start_of(
    alloc: Global,
    program: &Text,
    words: &Texts,
    child: Option<u32>,
) -> Result<Deed, NoMemory>
    ensures { IfOk result (λ call. call ≡ Start program.now words.now child) }
{
    Ok(Deed::Start {
        program: program.try_clone(alloc)?,
        words: copied(alloc, words)?,
        child,
    })
}

// The same texts again.
fn copied(alloc: Global, texts: &Texts) -> Result<Texts, NoMemory>
    ensures { IfOk result (λ copy. copy ≡ texts.now) }
{
    let mut copy = Texts::new(alloc);
    'texts: for text in texts.as_slice() {
        copy.push(text.try_clone(alloc)?)?;
    }
    Ok(copy)
}

//! Programs that are started and waited for: the trait and its answers. What a program is told to do is no matter here.

ghost use Rattle.std.specs.Prelude.{◌≡◌, ◌≤◌, ℕ, List, Option, OnErr};
ghost use Rattle.lnbd_link.specs.Count.{Rises};
ghost use Rattle.lnbd_link.specs.Part.{Adds};
ghost use Rattle.lnbd_spawn.specs.declared.deed.Deed.{Deed};
ghost use Rattle.lnbd_spawn.specs.declared.deed.Deed.TheVariants.{Start, Wait};
ghost use Rattle.lnbd_spawn.specs.Deeds.{WaitFailed, child_told};

use lnbd_model::{Text, Texts};

/// No program was started.
#[derive(Clone, Copy, Debug, PartialEq, Eq)]
pub struct SpawnFailed;

/// How a program ended.
#[derive(Clone, Copy, Debug, PartialEq, Eq)]
pub enum Waited {
    /// It ended by itself, with this status.
    Status(u32),
    /// A signal ended it.
    Signal,
    /// How it ended can't be had.
    Failed,
}

/// What starts programs and waits for them. It may tell its transcript, the list of all calls of `start` and `wait` with their
/// arguments and answers.
pub trait Spawner {
    /// The calls so far with their answers, the oldest first, where they are told.
    ghost told: { Self → Option (List Deed) };

    /// How often a call failed.
    ghost faults: { Self → ℕ };

    /// Starts this program with these words, and answers the number of the child. The child goes on beside the caller.
    fn start(&mut self, program: &Text, words: &Texts) -> Result<u32, SpawnFailed>
        ensures told { Adds (told self.old) (told self.new) (Start program.now words.now (child_told result)) }
        ensures faults { faults self.old ≤ faults self.new }
        ensures cause { OnErr result (Rises 1 (faults self.old) (faults self.new)) };

    /// Waits until the child of this number has ended, and answers how.
    fn wait(&mut self, child: u32) -> Waited
        ensures told { Adds (told self.old) (told self.new) (Wait child result) }
        ensures faults { faults self.old ≤ faults self.new }
        ensures cause { WaitFailed result → Rises 1 (faults self.old) (faults self.new) };

    /// The count of failed calls.
    fn faults(&self) -> u64
        ensures { result ≡ faults self.now };
}

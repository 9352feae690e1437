//! Results of commands that are completed.

ghost use Rattle.std.specs.Prelude.{◌≡◌, false};
ghost use Rattle.lnbd_history.specs.Answers.{completed_after, failure_after};
ghost use Rattle.lnbd_history.specs.History.{is_gone, reading};
ghost use Rattle.lnbd_machine.specs.Now.{completed_now, failure_now};
ghost use Rattle.lnbd_handle.specs.Completing.{completing};
ghost use Rattle.lnbd_handle.specs.Histories.{AddsResult, ForEach};

use crate::handle::Handle;
use lnbd_history::Completed;
use lnbd_model::Failure;

impl<K> Handle<K> {
    /// The first error of a command that is completed, and where it came from. None for one that did not fail or is not
    /// completed, and for a cookie that has no command.
    pub fn failure(&self, cookie: u64) -> Option<Failure>
        ensures value { result ≡ failure_now self.now.machine.known cookie }

        // A command that is retired has none any more.
        ensures told { ForEach self.now.machine (λ history. is_gone history (reading history).known.entries cookie ≡ false → result ≡ failure_after history cookie) }
    {
        self.connection.commands.failure(cookie)
    }

    /// Takes the result of a command that is completed, which retires it (libnbd, nbd_aio_command_completed).
    pub fn command_completed(&mut self, cookie: u64) -> Completed
        ensures completed { result ≡ completed_now self.old.machine.known cookie }
        ensures taken { self.new.machine ≡ completing result cookie self.old.machine }
        ensures told { ForEach self.old.machine (λ history. result ≡ completed_after history cookie) }
        ensures stands { ForEach self.old.machine (AddsResult result cookie self.new.machine) }
    {
        self.connection.commands.take_completed(cookie)
    }
}

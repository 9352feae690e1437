//! Results of commands that are completed.

ghost use Rattle.std.specs.Prelude.{◌≡◌};
ghost use Rattle.lnbd_keyed.specs.Keyed.{value_at};
ghost use Rattle.lnbd_machine.specs.Now.{completed_row, failure_row};
ghost use Rattle.lnbd_commands.specs.Asks.{taking};
ghost use Rattle.lnbd_commands.specs.Sound.{IsSound};

use crate::commands::Commands;
use lnbd_history::Completed;
use lnbd_model::Failure;

impl<K> Commands<K> {
    /// The first error of a command that is completed and not retired, and where it came from. None for one that did not
    /// fail or is in flight, and for a cookie that has no command.
    pub fn failure(&self, cookie: u64) -> Option<Failure>
        ensures { result ≡ failure_row (value_at cookie self.now.rows) }
    {
        match self.table.get(cookie) {
            Some(row) => row.failure(),
            None => None,
        }
    }

    /// Takes the result of a command that is completed, which retires it (libnbd, nbd_aio_command_completed).
    pub fn take_completed(&mut self, cookie: u64) -> Completed
        ensures completed { result ≡ completed_row (value_at cookie self.old.rows) }
        ensures taken { self.new ≡ taking result cookie self.old }

        // What holds of the commands of every handle.
        ensures sound { IsSound self.old }
    {
        match self.table.get(cookie) {
            None => return Completed::NoSuchCookie,
            Some(row) => {
                if !row.is_kept() {
                    return Completed::NotYet;
                }
            }
        }
        let Some(row) = self.table.remove(cookie) else {
            unreachable!()
        };
        row.into_completed()
    }
}

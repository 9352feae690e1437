//! The bytes that go out and those that came.

ghost use Rattle.std.specs.Prelude.{◌≡◌, ◌≢◌, ◌≤◌, [], length, take};
ghost use Rattle.lnbd_callbacks.specs.Steps.{OneByOne};
ghost use Rattle.lnbd_history.specs.Events.{Arrived, End, LinkFailed, Wrote};
ghost use Rattle.lnbd_machine.specs.Machine.{step};
ghost use Rattle.lnbd_machine.specs.Now.{out_now};
ghost use Rattle.lnbd_handle.specs.Runs.{Answered};
ghost use Rattle.lnbd_session.specs.Keeps.{Keeps};
ghost use Rattle.lnbd_session.specs.When.{TakesBytes, Within};

use crate::code::Code;
use crate::session::Session;

impl Session {
    /// So many of the bytes that are offered have gone out.
    pub fn wrote(&mut self, n: usize) -> Code
        ensures when { Within n (length (out_now self.old.handle.machine.known)) result }
        ensures ok { result ≡ Code.Ok → self.new.handle.machine ≡ step self.old.handle.machine (Wrote n) }
        ensures refused { result ≢ Code.Ok → self.new.handle.machine ≡ self.old.handle.machine }
        ensures told { self.new.told ≡ self.old.told }
        ensures taken { self.new.taken ≡ self.old.taken }
    {
        if n > self.handle.out().len() {
            return Code::TooMany;
        }
        self.handle.wrote(n);
        Code::Ok
    }

    /// Takes bytes that came. Where it answers Ok all of them arrived. Where memory ran out so many of them did as `taken` says, and the others are to be
    /// handed in again.
    pub fn arrive(&mut self, bytes: &[u8], taken: &mut usize) -> Code
        ensures when { TakesBytes self.old.handle.machine.known result }
        ensures all { result ≡ Code.Ok → taken.new ≡ length bytes.now }
        ensures within { taken.new ≤ length bytes.now }
        ensures arrived { result ≢ Code.BadState → Answered (OneByOne Keeps) (Arrived (take taken.new bytes.now)) self.old.handle.machine self.new.handle.machine self.old.told self.new.told }
        ensures refused { result ≡ Code.BadState → self.new ≡ self.old }
        ensures taken { self.new.taken ≡ self.old.taken }
    {
        *taken = 0;
        if !self.handle.is_reading() {
            return Code::BadState;
        }
        match self.handle.arrive(bytes, &mut self.told) {
            Ok(()) => {
                *taken = bytes.len();
                Code::Ok
            }
            Err(short) => {
                *taken = short.taken;
                Code::NoMemory
            }
        }
    }

    /// So many bytes of the place, as they now stand, have arrived.
    pub fn placed(&mut self, n: usize) -> Code
        ensures when { Within n (length self.old.handle.place) result }
        ensures ok { result ≡ Code.Ok → self.new.handle.machine ≡ step self.old.handle.machine (Arrived (take n self.old.handle.place) []) }
        ensures refused { result ≢ Code.Ok → self.new.handle.machine ≡ self.old.handle.machine }
        ensures told { self.new.told ≡ self.old.told }
        ensures taken { self.new.taken ≡ self.old.taken }
    {
        if n > self.handle.place().len() {
            return Code::TooMany;
        }
        self.handle.placed(n);
        Code::Ok
    }

    /// The peer ended the connection.
    pub fn ended(&mut self)
        ensures answered { Answered (OneByOne Keeps) End self.old.handle.machine self.new.handle.machine self.old.told self.new.told }
        ensures taken { self.new.taken ≡ self.old.taken }
    {
        self.handle.ended(&mut self.told);
    }

    /// Reading or writing failed.
    pub fn link_failed(&mut self)
        ensures answered { Answered (OneByOne Keeps) LinkFailed self.old.handle.machine self.new.handle.machine self.old.told self.new.told }
        ensures taken { self.new.taken ≡ self.old.taken }
    {
        self.handle.link_failed(&mut self.told);
    }
}

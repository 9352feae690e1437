//! Opt mode, in which the caller decides which option comes next. An option that is not answered Ok changes nothing.

ghost use Rattle.std.specs.Prelude.{◌≡◌, ◌≢◌, None};
ghost use Rattle.lnbd_records.specs.Options.{opt_go, opt_info, opt_list, opt_set_meta_context};
ghost use Rattle.lnbd_history.specs.Events.{Abort, Disconnect, Opt};
ghost use Rattle.lnbd_history.specs.Refusals.{by_state};
ghost use Rattle.lnbd_machine.specs.Machine.{step};
ghost use Rattle.lnbd_machine.specs.Now.{state_now};
ghost use Rattle.lnbd_session.specs.Codes.{code_of_refusal};
ghost use Rattle.lnbd_session.specs.When.{TakesAbort, TakesOption};

use crate::code::Code;
use crate::session::Session;
use lnbd_handle::OptFault;

impl Session {
    /// Asks which exports the server has, which `listed` then tells (libnbd, nbd_opt_list).
    pub fn opt_list(&mut self) -> Code
        ensures when { TakesOption opt_list self.old.handle.machine.known result }
        ensures ok { result ≡ Code.Ok → self.new.handle.machine ≡ step self.old.handle.machine (Opt opt_list) }
        ensures refused { result ≢ Code.Ok → self.new.handle.machine ≡ self.old.handle.machine }
        ensures told { self.new.told ≡ self.old.told }
        ensures taken { self.new.taken ≡ self.old.taken }
    {
        match self.handle.opt_list() {
            Ok(()) => Code::Ok,
            Err(OptFault::NoMemory) => Code::NoMemory,
            Err(OptFault::State(_)) => Code::BadState,
            Err(OptFault::NotStructured) => Code::Unsupported,
        }
    }

    /// Asks what the export of this name is (libnbd, nbd_opt_info).
    pub fn opt_info(&mut self) -> Code
        ensures when { TakesOption opt_info self.old.handle.machine.known result }
        ensures ok { result ≡ Code.Ok → self.new.handle.machine ≡ step self.old.handle.machine (Opt opt_info) }
        ensures refused { result ≢ Code.Ok → self.new.handle.machine ≡ self.old.handle.machine }
        ensures told { self.new.told ≡ self.old.told }
        ensures taken { self.new.taken ≡ self.old.taken }
    {
        match self.handle.opt_info() {
            Ok(()) => Code::Ok,
            Err(OptFault::NoMemory) => Code::NoMemory,
            Err(OptFault::State(_)) => Code::BadState,
            Err(OptFault::NotStructured) => Code::Unsupported,
        }
    }

    /// Asks for the meta contexts that were added (libnbd, nbd_opt_set_meta_context).
    pub fn opt_set_meta_context(&mut self) -> Code
        ensures when { TakesOption opt_set_meta_context self.old.handle.machine.known result }
        ensures ok { result ≡ Code.Ok → self.new.handle.machine ≡ step self.old.handle.machine (Opt opt_set_meta_context) }
        ensures refused { result ≢ Code.Ok → self.new.handle.machine ≡ self.old.handle.machine }
        ensures told { self.new.told ≡ self.old.told }
        ensures taken { self.new.taken ≡ self.old.taken }
    {
        match self.handle.opt_set_meta_context() {
            Ok(()) => Code::Ok,
            Err(OptFault::NoMemory) => Code::NoMemory,
            Err(OptFault::State(_)) => Code::BadState,
            Err(OptFault::NotStructured) => Code::Unsupported,
        }
    }

    /// Asks for the export of this name (libnbd, nbd_opt_go).
    pub fn opt_go(&mut self) -> Code
        ensures when { TakesOption opt_go self.old.handle.machine.known result }
        ensures ok { result ≡ Code.Ok → self.new.handle.machine ≡ step self.old.handle.machine (Opt opt_go) }
        ensures refused { result ≢ Code.Ok → self.new.handle.machine ≡ self.old.handle.machine }
        ensures told { self.new.told ≡ self.old.told }
        ensures taken { self.new.taken ≡ self.old.taken }
    {
        match self.handle.opt_go() {
            Ok(()) => Code::Ok,
            Err(OptFault::NoMemory) => Code::NoMemory,
            Err(OptFault::State(_)) => Code::BadState,
            Err(OptFault::NotStructured) => Code::Unsupported,
        }
    }

    /// Gives negotiation up (libnbd, nbd_opt_abort).
    pub fn opt_abort(&mut self) -> Code
        ensures when { TakesAbort self.old.handle.machine.known result }
        ensures ok { result ≡ Code.Ok → self.new.handle.machine ≡ step self.old.handle.machine Abort }
        ensures refused { result ≢ Code.Ok → self.new.handle.machine ≡ self.old.handle.machine }
        ensures told { self.new.told ≡ self.old.told }
        ensures taken { self.new.taken ≡ self.old.taken }
    {
        match self.handle.opt_abort() {
            Ok(()) => Code::Ok,
            Err(_) => Code::BadState,
        }
    }

    /// Asks for the end, in the state Ready; replies to commands in flight still count (libnbd, nbd_aio_disconnect).
    pub fn aio_disconnect(&mut self) -> Code
        ensures when { result ≡ code_of_refusal (by_state (state_now self.old.handle.machine.known) None) }
        ensures ok { result ≡ Code.Ok → self.new.handle.machine ≡ step self.old.handle.machine Disconnect }
        ensures refused { result ≢ Code.Ok → self.new.handle.machine ≡ self.old.handle.machine }
        ensures told { self.new.told ≡ self.old.told }
        ensures taken { self.new.taken ≡ self.old.taken }
    {
        match self.handle.aio_disconnect() {
            Ok(()) => Code::Ok,
            Err(why) => Code::of_why(why),
        }
    }
}

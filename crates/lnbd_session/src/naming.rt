//! What is set before the start: names, contexts, what is asked for, and strict mode. A setting that is not answered Ok changes nothing.

ghost use Rattle.std.specs.Prelude.{◌≡◌, ◌≢◌, IfNone, IfOk, IfSome};
ghost use Rattle.lnbd_model.specs.Text.{IsText};
ghost use Rattle.lnbd_history.specs.Events.{Context, Extended, Name, OptMode, Set, Start, StrictMode, Structured};
ghost use Rattle.lnbd_machine.specs.Machine.{step};
ghost use Rattle.lnbd_session.specs.When.{BeforeStart, TakesBits, TakesContext, TakesName};

use crate::code::Code;
use crate::session::Session;
use lnbd_handle::SetFault;
use lnbd_model::{NoMemory, Text, TextFault};
use std::alloc::Global;

/// The text that these bytes spell, or None where they are no text.
fn text_of(alloc: Global, bytes: &[u8]) -> Result<Option<Text>, NoMemory>
    ensures text { IfOk result (λ found. IfSome found (λ text. (text ≡ bytes.now) × IsText bytes.now)) }
    ensures none { IfOk result (λ found. IfNone found (¬ IsText bytes.now)) }
{
    match Text::from_bytes(alloc, bytes) {
        Ok(text) => Ok(Some(text)),
        Err(TextFault::NoMemory) => Err(NoMemory),
        Err(TextFault::NotUtf8) => Ok(None),
        Err(TextFault::TooLong(_)) => Ok(None),
    }
}

impl Session {
    /// Sets the export's name (libnbd, nbd_set_export_name).
    pub fn set_export_name(&mut self, alloc: Global, name: &[u8]) -> Code
        ensures when { TakesName name.now self.old.handle.machine.known result }
        ensures ok { result ≡ Code.Ok → self.new.handle.machine ≡ step self.old.handle.machine (Set (Name name.now)) }
        ensures refused { result ≢ Code.Ok → self.new.handle.machine ≡ self.old.handle.machine }
        ensures told { self.new.told ≡ self.old.told }
        ensures taken { self.new.taken ≡ self.old.taken }
    {
        let Ok(found) = text_of(alloc, name) else {
            return Code::NoMemory;
        };
        let Some(text) = found else {
            return Code::BadRequest;
        };
        match self.handle.set_export_name(text) {
            Ok(()) => Code::Ok,
            Err(_) => Code::BadState,
        }
    }

    /// Adds a meta context to those that are asked for (libnbd, nbd_add_meta_context).
    pub fn add_meta_context(&mut self, alloc: Global, name: &[u8]) -> Code
        ensures when { TakesContext name.now self.old.handle.machine.known result }
        ensures ok { result ≡ Code.Ok → self.new.handle.machine ≡ step self.old.handle.machine (Set (Context name.now)) }
        ensures refused { result ≢ Code.Ok → self.new.handle.machine ≡ self.old.handle.machine }
        ensures told { self.new.told ≡ self.old.told }
        ensures taken { self.new.taken ≡ self.old.taken }
    {
        let Ok(found) = text_of(alloc, name) else {
            return Code::NoMemory;
        };
        let Some(text) = found else {
            return Code::BadRequest;
        };
        match self.handle.add_meta_context(text) {
            Ok(()) => Code::Ok,
            Err(SetFault::NoMemory) => Code::NoMemory,
            Err(SetFault::State(_)) => Code::BadState,
            Err(SetFault::TooMany(_)) => Code::Full,
        }
    }

    /// Sets whether structured replies are asked for (libnbd, nbd_set_request_structured_replies).
    pub fn set_request_structured_replies(&mut self, on: bool) -> Code
        ensures when { BeforeStart self.old.handle.machine.known result }
        ensures ok { result ≡ Code.Ok → self.new.handle.machine ≡ step self.old.handle.machine (Set (Structured on)) }
        ensures refused { result ≢ Code.Ok → self.new.handle.machine ≡ self.old.handle.machine }
        ensures told { self.new.told ≡ self.old.told }
        ensures taken { self.new.taken ≡ self.old.taken }
    {
        match self.handle.set_request_structured_replies(on) {
            Ok(()) => Code::Ok,
            Err(_) => Code::BadState,
        }
    }

    /// Sets whether extended headers are asked for (NBD protocol, "NBD_OPT_EXTENDED_HEADERS").
    pub fn set_request_extended_headers(&mut self, on: bool) -> Code
        ensures when { BeforeStart self.old.handle.machine.known result }
        ensures ok { result ≡ Code.Ok → self.new.handle.machine ≡ step self.old.handle.machine (Set (Extended on)) }
        ensures refused { result ≢ Code.Ok → self.new.handle.machine ≡ self.old.handle.machine }
        ensures told { self.new.told ≡ self.old.told }
        ensures taken { self.new.taken ≡ self.old.taken }
    {
        match self.handle.set_request_extended_headers(on) {
            Ok(()) => Code::Ok,
            Err(_) => Code::BadState,
        }
    }

    /// Sets whether the caller decides which option comes next (libnbd, nbd_set_opt_mode).
    pub fn set_opt_mode(&mut self, on: bool) -> Code
        ensures when { BeforeStart self.old.handle.machine.known result }
        ensures ok { result ≡ Code.Ok → self.new.handle.machine ≡ step self.old.handle.machine (Set (OptMode on)) }
        ensures refused { result ≢ Code.Ok → self.new.handle.machine ≡ self.old.handle.machine }
        ensures told { self.new.told ≡ self.old.told }
        ensures taken { self.new.taken ≡ self.old.taken }
    {
        match self.handle.set_opt_mode(on) {
            Ok(()) => Code::Ok,
            Err(_) => Code::BadState,
        }
    }

    /// Begins: the server's hello is awaited.
    pub fn start(&mut self) -> Code
        ensures when { BeforeStart self.old.handle.machine.known result }
        ensures ok { result ≡ Code.Ok → self.new.handle.machine ≡ step self.old.handle.machine Start }
        ensures refused { result ≢ Code.Ok → self.new.handle.machine ≡ self.old.handle.machine }
        ensures told { self.new.told ≡ self.old.told }
        ensures taken { self.new.taken ≡ self.old.taken }
    {
        match self.handle.start() {
            Ok(()) => Code::Ok,
            Err(_) => Code::BadState,
        }
    }

    /// Sets which rules refuse a command, in any state (libnbd, nbd_set_strict_mode).
    pub fn set_strict_mode(&mut self, bits: u32) -> Code
        ensures when { TakesBits bits result }
        ensures ok { result ≡ Code.Ok → self.new.handle.machine ≡ step self.old.handle.machine (StrictMode bits) }
        ensures refused { result ≢ Code.Ok → self.new.handle.machine ≡ self.old.handle.machine }
        ensures told { self.new.told ≡ self.old.told }
        ensures taken { self.new.taken ≡ self.old.taken }
    {
        match self.handle.set_strict_mode(bits) {
            Ok(()) => Code::Ok,
            Err(_) => Code::BadRequest,
        }
    }
}

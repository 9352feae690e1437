//! Opt mode, in which the caller decides which option comes next. An option that is refused changes nothing.

ghost use Rattle.std.specs.Prelude.{◌≡◌, ◌≢◌, false, true, IfErr, OnOk, OnErr};
ghost use Rattle.lnbd_model.specs.declared.state.State.TheVariants as state;
ghost use Rattle.lnbd_records.specs.Options.{opt_go, opt_info, opt_list, opt_set_meta_context};
ghost use Rattle.lnbd_history.specs.declared.kinds.Phase.TheVariants as phase;
ghost use Rattle.lnbd_history.specs.declared.kinds.Stage.TheVariants.{Open};
ghost use Rattle.lnbd_history.specs.Agreement.{Opted, settles_replies};
ghost use Rattle.lnbd_history.specs.Answers.{listed_after, opt_answer_after};
ghost use Rattle.lnbd_history.specs.Events.{Abort, Opt};
ghost use Rattle.lnbd_history.specs.Laws.{is_call};
ghost use Rattle.lnbd_machine.specs.Machine.{step, turned};
ghost use Rattle.lnbd_machine.specs.Now.{state_now};
ghost use Rattle.lnbd_handle.specs.declared.kinds.OptFault.TheVariants.{NoMemory as OutOfMemory};
ghost use Rattle.lnbd_handle.specs.Histories.{AddsOnOk, ForEach};
ghost use Rattle.lnbd_handle.specs.Seen.{IsSound, state_of};
ghost use Rattle.lnbd_handle.specs.Settings.{MayAsk, RefusesOption};

use crate::aborting::abort;
use crate::connection::Connection;
use crate::greet::push_request;
use crate::handle::Handle;
use crate::kinds::OptFault;
use lnbd_model::{Listing, NoMemory, State};
use lnbd_negotiate::OptAnswer;
use lnbd_records::names::{OPT_GO, OPT_INFO, OPT_LIST, OPT_SET_META_CONTEXT};

/// Asks an option, whose request goes out behind what waits.
fn ask<K>(connection: &mut Connection<K>, option: u32) -> Result<(), NoMemory>
    requires sound { IsSound connection.old }
    requires open { connection.old.stage ≡ Open }
    requires opt_mode { connection.old.talk.phase ≡ phase.OptMode }
    ensures ok { OnOk result (state_of connection.new ≡ turned (Opted option) (state_of connection.old)) }
    ensures err { OnErr result (state_of connection.new ≡ state_of connection.old) }
    ensures sound { IsSound connection.new }
{
    connection.queue.reserve(1)?;
    let mut request = Vec::new(connection.alloc);
    connection.talk.ask(option, &mut request)?;
    push_request(&mut connection.queue, request);
    Ok(())
}

impl<K> Handle<K> {
    /// Whether this option may be asked, or why not.
    fn may_ask(&self, option: u32) -> Result<(), OptFault>
        ensures ok { OnOk result (MayAsk option self.now.machine.known) }
        ensures refused { IfErr result (λ fault. (fault ≢ OutOfMemory) × RefusesOption option self.now.machine.known fault) }
    {
        match self.state() {
            State::OptMode => {
                if option == OPT_SET_META_CONTEXT && !self.connection.talk.structured() {
                    Err(OptFault::NotStructured)
                } else {
                    Ok(())
                }
            }
            state => Err(OptFault::State(state)),
        }
    }

    /// Asks this option.
    fn opt(&mut self, option: u32) -> Result<(), OptFault>
        requires { is_call option ≡ true }
        ensures ok { OnOk result (self.new.machine ≡ step self.old.machine (Opt option)) }
        ensures allowed { OnOk result (MayAsk option self.old.machine.known) }
        ensures refused { IfErr result (λ fault. RefusesOption option self.old.machine.known fault) }
        ensures err { OnErr result (self.new.machine ≡ self.old.machine) }
        ensures stands { ForEach self.old.machine (AddsOnOk result (Opt option) self.new.machine) }
    {
        self.may_ask(option)?;
        ask(&mut self.connection, option)?;
        Ok(())
    }

    /// Asks which exports the server has, which `listed` then tells (libnbd, nbd_opt_list).
    pub fn opt_list(&mut self) -> Result<(), OptFault>
        ensures ok { OnOk result (self.new.machine ≡ step self.old.machine (Opt opt_list)) }
        ensures allowed { OnOk result (MayAsk opt_list self.old.machine.known) }
        ensures refused { IfErr result (λ fault. RefusesOption opt_list self.old.machine.known fault) }
        ensures err { OnErr result (self.new.machine ≡ self.old.machine) }
        ensures stands { ForEach self.old.machine (AddsOnOk result (Opt opt_list) self.new.machine) }
    {
        self.opt(OPT_LIST)
    }

    /// Asks what the export of this name is, which `info` then tells (libnbd, nbd_opt_info).
    pub fn opt_info(&mut self) -> Result<(), OptFault>
        ensures ok { OnOk result (self.new.machine ≡ step self.old.machine (Opt opt_info)) }
        ensures allowed { OnOk result (MayAsk opt_info self.old.machine.known) }
        ensures refused { IfErr result (λ fault. RefusesOption opt_info self.old.machine.known fault) }
        ensures err { OnErr result (self.new.machine ≡ self.old.machine) }
        ensures stands { ForEach self.old.machine (AddsOnOk result (Opt opt_info) self.new.machine) }
    {
        self.opt(OPT_INFO)
    }

    /// Asks for the meta contexts that were added. The answer replaces those that are agreed (libnbd, nbd_opt_set_meta_context).
    pub fn opt_set_meta_context(&mut self) -> Result<(), OptFault>
        ensures ok { OnOk result (self.new.machine ≡ step self.old.machine (Opt opt_set_meta_context)) }
        ensures allowed { OnOk result (MayAsk opt_set_meta_context self.old.machine.known) }
        ensures refused { IfErr result (λ fault. RefusesOption opt_set_meta_context self.old.machine.known fault) }
        ensures err { OnErr result (self.new.machine ≡ self.old.machine) }
        ensures stands { ForEach self.old.machine (AddsOnOk result (Opt opt_set_meta_context) self.new.machine) }
    {
        self.opt(OPT_SET_META_CONTEXT)
    }

    /// Asks for the export of this name: where the server acknowledges, commands may be issued (libnbd, nbd_opt_go).
    pub fn opt_go(&mut self) -> Result<(), OptFault>
        ensures ok { OnOk result (self.new.machine ≡ step self.old.machine (Opt opt_go)) }
        ensures allowed { OnOk result (MayAsk opt_go self.old.machine.known) }
        ensures refused { IfErr result (λ fault. RefusesOption opt_go self.old.machine.known fault) }
        ensures err { OnErr result (self.new.machine ≡ self.old.machine) }
        ensures stands { ForEach self.old.machine (AddsOnOk result (Opt opt_go) self.new.machine) }
    {
        self.opt(OPT_GO)
    }

    /// Gives negotiation up: ABORT is queued, and of what arrives from then on 65,536 bytes are passed over (libnbd,
    /// nbd_opt_abort). It takes no memory.
    pub fn opt_abort(&mut self) -> Result<(), OptFault>
        ensures ok { OnOk result (self.new.machine ≡ step self.old.machine Abort) }
        ensures allowed { OnOk result (state_now self.old.machine.known ≡ state.OptMode) }

        // It is refused exactly in the other states, and then nothing has changed.
        ensures refused { IfErr result (λ fault. (state_now self.old.machine.known ≢ state.OptMode) × (fault ≡ OptFault.State (state_now self.old.machine.known))) }
        ensures err { OnErr result (self.new.machine ≡ self.old.machine) }
        ensures stands { ForEach self.old.machine (AddsOnOk result Abort self.new.machine) }
    {
        match self.state() {
            State::OptMode => {
                abort(&mut self.connection);
                self.pending.clear();
                Ok(())
            }
            state => Err(OptFault::State(state)),
        }
    }

    /// The last answer to an option that the caller asked. None where none is answered yet.
    pub fn opt_answer(&self) -> Option<OptAnswer>
        ensures value { result ≡ self.now.machine.known.talk.answer }
        ensures told { ForEach self.now.machine (λ history. result ≡ opt_answer_after history) }
    {
        self.connection.talk.answer()
    }

    /// The exports that the last acknowledged LIST told.
    pub fn listed(&self) -> &Listing
        ensures value { result.now ≡ self.now.machine.known.talk.listing }
        ensures told { ForEach self.now.machine (λ history. result.now ≡ listed_after history) }
    {
        self.connection.talk.listed()
    }
}

//! What a caller sets, beside the export's name. A setting that is refused changes nothing.

ghost use Rattle.std.specs.Prelude.{◌≡◌, IfErr, OnOk, OnErr};
ghost use Rattle.lnbd_history.specs.declared.kinds.Stage.TheVariants.{Created};
ghost use Rattle.lnbd_history.specs.Events.{Set, Context, Extended, OptMode, Structured};
ghost use Rattle.lnbd_machine.specs.Machine.{step};
ghost use Rattle.lnbd_handle.specs.Histories.{AddsOnOk, ForEach};
ghost use Rattle.lnbd_handle.specs.Settings.{MayAdd, RefusesContext, RefusesStarted};

use crate::handle::Handle;
use crate::kinds::SetFault;
use crate::standing::may_name;
use lnbd_history::Stage;
use lnbd_model::Text;
use lnbd_records::names::MAX_CONTEXTS;

impl<K> Handle<K> {
    /// Adds a meta context to those that SET_META_CONTEXT asks for, before the start or in opt mode (libnbd,
    /// nbd_add_meta_context).
    pub fn add_meta_context(&mut self, name: Text) -> Result<(), SetFault>
        ensures ok { OnOk result (self.new.machine ≡ step self.old.machine (Set (Context name))) }
        ensures allowed { OnOk result (MayAdd self.old.machine.known) }
        ensures refused { IfErr result (λ fault. RefusesContext self.old.machine.known fault) }
        ensures err { OnErr result (self.new.machine ≡ self.old.machine) }
        ensures stands { ForEach self.old.machine (AddsOnOk result (Set (Context name)) self.new.machine) }
    {
        let state = self.state();
        if !may_name(state) {
            return Err(SetFault::State(state));
        }
        if self.connection.talk.wanted() >= MAX_CONTEXTS as usize {
            return Err(SetFault::TooMany(MAX_CONTEXTS));
        }
        self.connection.talk.add_context(name)?;
        Ok(())
    }

    /// Sets whether the caller decides which option comes next, before the start (libnbd, nbd_set_opt_mode).
    pub fn set_opt_mode(&mut self, on: bool) -> Result<(), SetFault>
        ensures ok { OnOk result (self.new.machine ≡ step self.old.machine (Set (OptMode on))) }
        ensures allowed { OnOk result (self.old.machine.known.stage ≡ Created) }
        ensures refused { IfErr result (λ fault. RefusesStarted self.old.machine.known fault) }
        ensures err { OnErr result (self.new.machine ≡ self.old.machine) }
        ensures stands { ForEach self.old.machine (AddsOnOk result (Set (OptMode on)) self.new.machine) }
    {
        let state = self.state();
        match self.connection.stage {
            Stage::Created => {
                self.connection.talk.set_opt_mode(on);
                Ok(())
            }
            _ => Err(SetFault::State(state)),
        }
    }

    /// Sets whether structured replies are asked for, before the start (libnbd, nbd_set_request_structured_replies).
    pub fn set_request_structured_replies(&mut self, on: bool) -> Result<(), SetFault>
        ensures ok { OnOk result (self.new.machine ≡ step self.old.machine (Set (Structured on))) }
        ensures allowed { OnOk result (self.old.machine.known.stage ≡ Created) }
        ensures refused { IfErr result (λ fault. RefusesStarted self.old.machine.known fault) }
        ensures err { OnErr result (self.new.machine ≡ self.old.machine) }
        ensures stands { ForEach self.old.machine (AddsOnOk result (Set (Structured on)) self.new.machine) }
    {
        let state = self.state();
        match self.connection.stage {
            Stage::Created => {
                self.connection.talk.set_structured(on);
                Ok(())
            }
            _ => Err(SetFault::State(state)),
        }
    }

    /// Sets whether extended headers are asked for, and with them structured replies, before the start (NBD protocol,
    /// "NBD_OPT_EXTENDED_HEADERS").
    pub fn set_request_extended_headers(&mut self, on: bool) -> Result<(), SetFault>
        ensures ok { OnOk result (self.new.machine ≡ step self.old.machine (Set (Extended on))) }
        ensures allowed { OnOk result (self.old.machine.known.stage ≡ Created) }
        ensures refused { IfErr result (λ fault. RefusesStarted self.old.machine.known fault) }
        ensures err { OnErr result (self.new.machine ≡ self.old.machine) }
        ensures stands { ForEach self.old.machine (AddsOnOk result (Set (Extended on)) self.new.machine) }
    {
        let state = self.state();
        match self.connection.stage {
            Stage::Created => {
                self.connection.talk.set_extended(on);
                Ok(())
            }
            _ => Err(SetFault::State(state)),
        }
    }
}

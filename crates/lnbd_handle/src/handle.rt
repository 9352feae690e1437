//! The calls of a handle.

ghost use Rattle.std.specs.Prelude.{◌≡◌, ◌==◌, [], ◌≤◌, ◌≢◌, not, true, false, Some, None, length, take, IfOk, IsOk, OnOk, OnErr, IfErr};
ghost use Rattle.std.specs.Option.{option_copied};
ghost use Rattle.lnbd_model.specs.declared.state.State.TheVariants as state;
ghost use Rattle.lnbd_history.specs.declared.kinds.Stage.TheVariants.{Created};
ghost use Rattle.lnbd_history.specs.Answers.{direction_after, in_flight_after, info_after, is_living, log_after, out_after, peeked_after, state_after};
ghost use Rattle.lnbd_history.specs.Events.{Arrived, ClearLog, Close, Disconnect, End, LinkFailed, Set, Name, Start, Wrote};
ghost use Rattle.lnbd_history.specs.Laws.{may_name};
ghost use Rattle.lnbd_history.specs.Refusals.{by_state};
ghost use Rattle.lnbd_machine.specs.Machine.{calls, created, step};
ghost use Rattle.lnbd_machine.specs.Now.{state_now, in_flight_now, info_now, out_now, direction_now, peeked_now};
ghost use Rattle.lnbd_standing.specs.Standing.{StandsFor};
ghost use Rattle.lnbd_handle.specs.Histories.{Adds, AddsAnswered, AddsOnOk, Closes, ForEach, max_unretired};
ghost use Rattle.lnbd_handle.specs.Room.{IsPlain};
ghost use Rattle.lnbd_handle.specs.Runs.{Answered};

use crate::connection::Connection;
use crate::deaths::{die, end_closing};
use crate::drain::take_fresh;
use crate::kinds::{SetFault, Short};
use crate::pending::Pending;
use crate::pieces::take_behind;
use crate::sending::{count_written, is_offering, offered, say_goodbye};
use crate::standing::{by_state, direction_of, may_name, state_at};
use crate::strict;
use lnbd_callbacks::Caller;
use lnbd_commands::{Closed, Commands};
use lnbd_history::{Peeked, Stage};
use lnbd_model::{Cause, ExportInfo, NoMemory, Note, State, Text, Texts, Why};
use lnbd_negotiate::{Config, Talk};
use lnbd_outgoing::Queue;
use std::alloc::Global;
use std::marker::Model;

/// One connection. It must be spent, in the end by `close`.
pub struct Handle<K> {
    pub(crate) connection: Connection<K>,
    // the bytes that are no whole record yet
    pub(crate) pending: Pending,
}

impl<K> Model for Handle<K> {
    ghost use Rattle.lnbd_machine.specs.Laws.{IsPartial};
    ghost use Rattle.lnbd_handle.specs.Held.{held_in};
    ghost use Rattle.lnbd_handle.specs.Placing.{Handled, handled_of};
    ghost use Rattle.lnbd_handle.specs.Room.{HasPlacesAt};
    ghost use Rattle.lnbd_handle.specs.Seen.{machine_of, state_of, IsSound};

    ghost Value = { Handled K };

    ghost view = { λ h. handled_of h.connection h.pending };

    ghost invariant = { λ h. IsSound h.connection × IsPartial (machine_of h.connection (held_in h.pending)) × HasPlacesAt (state_of h.connection) h.pending };
}

impl<K> Handle<K> {
    /// A handle in the state Created (libnbd, nbd_create).
    pub fn create(alloc: Global) -> Result<Handle<K>, NoMemory>
        ensures created { IfOk result (λ handle. handle.machine ≡ created) }
        ensures stands { IfOk result (λ handle. StandsFor max_unretired [] handle.machine) }
    {
        let queue = Queue::new(alloc)?;
        let pending = Pending::new(alloc)?;
        let talk = Talk::new(
            alloc,
            Config {
                name: Text::empty(alloc),
                contexts: Texts::new(alloc),
                structured: false,
                extended: false,
                opt_mode: false,
            },
        );
        Ok(Handle {
            connection: Connection {
                alloc,
                stage: Stage::Created,
                strict: strict::ALL,
                flags: 0,
                talk,
                passed: 0,
                queue,
                written: 0,
                commands: Commands::new(alloc),
            },
            pending,
        })
    }

    /// Sets the export's name, before the start or in opt mode (libnbd, nbd_set_export_name). No context
    /// is agreed any more.
    pub fn set_export_name(&mut self, name: Text) -> Result<(), SetFault>
        ensures ok { OnOk result (self.new.machine ≡ step self.old.machine (Set (Name name))) }
        ensures allowed { OnOk result (may_name (state_now self.old.machine.known) ≡ true) }

        // It is refused exactly in the other states, and then nothing has changed.
        ensures refused { IfErr result (λ fault. (may_name (state_now self.old.machine.known) ≡ false) × (fault ≡ SetFault.State (state_now self.old.machine.known))) }
        ensures err { OnErr result (self.new.machine ≡ self.old.machine) }
        ensures stands { ForEach self.old.machine (AddsOnOk result (Set (Name name)) self.new.machine) }
    {
        let state = self.state();
        if !may_name(state) {
            return Err(SetFault::State(state));
        }
        self.connection.talk.set_name(name);
        Ok(())
    }

    /// Begins: the server's hello is awaited.
    pub fn start(&mut self) -> Result<(), SetFault>
        ensures ok { OnOk result (self.new.machine ≡ step self.old.machine Start) }
        ensures allowed { OnOk result (self.old.machine.known.stage ≡ Created) }

        // It is refused exactly in the other states, and then nothing has changed.
        ensures refused { IfErr result (λ fault. (self.old.machine.known.stage ≢ Created) × (fault ≡ SetFault.State (state_now self.old.machine.known))) }
        ensures err { OnErr result (self.new.machine ≡ self.old.machine) }
        ensures stands { ForEach self.old.machine (AddsOnOk result Start self.new.machine) }
    {
        let state = self.state();
        match self.connection.stage {
            Stage::Created => {
                self.connection.stage = Stage::Open;
                Ok(())
            }
            _ => Err(SetFault::State(state)),
        }
    }

    /// Asks for the end: DISC is queued, and replies to commands in flight still count (libnbd,
    /// nbd_aio_disconnect).
    pub fn aio_disconnect(&mut self) -> Result<(), Why>
        ensures ok { OnOk result (self.new.machine ≡ step self.old.machine Disconnect) }
        ensures allowed { OnOk result (state_now self.old.machine.known ≡ state.Ready) }

        // It is refused exactly in the other states, and then nothing has changed.
        ensures refused { IfErr result (λ why. by_state (state_now self.old.machine.known) None ≡ Some why) }
        ensures err { OnErr result (self.new.machine ≡ self.old.machine) }
        ensures stands { ForEach self.old.machine (AddsOnOk result Disconnect self.new.machine) }
    {
        if let Some(why) = by_state(self.state()) {
            return Err(why);
        }
        say_goodbye(&mut self.connection);
        Ok(())
    }

    /// Where the handle stands.
    pub fn state(&self) -> State
        ensures value { result ≡ state_now self.now.machine.known }
        ensures told { ForEach self.now.machine (λ history. result ≡ state_after history) }
    {
        state_at(self.connection.stage, self.connection.talk.phase())
    }

    /// 0 where nothing may be read or written, else 1 for reading, and 3 where bytes wait (libnbd,
    /// nbd_aio_get_direction).
    pub fn direction(&self) -> u32
        ensures value { result ≡ direction_now self.now.machine.known }
        ensures told { ForEach self.now.machine (λ history. result ≡ direction_after history) }
    {
        direction_of(self.connection.stage, is_offering(&self.connection))
    }

    /// Whether bytes may be read: the connection is open.
    pub fn is_reading(&self) -> bool
        ensures value { result ≡ not (direction_now self.now.machine.known == 0) }
        ensures told { ForEach self.now.machine (λ history. result ≡ not (direction_after history == 0)) }
    {
        self.direction() != 0
    }

    /// Whether bytes wait to be written.
    pub fn is_waiting(&self) -> bool
        ensures value { result ≡ (direction_now self.now.machine.known == 3) }
        ensures told { ForEach self.now.machine (λ history. result ≡ (direction_after history == 3)) }
    {
        self.direction() == 3
    }

    /// What was told of the export, with what is agreed now.
    pub fn info(&self) -> Option<&ExportInfo>
        ensures value { option_copied result ≡ info_now self.now.machine.known }
        ensures told { ForEach self.now.machine (λ history. option_copied result ≡ info_after history) }
    {
        self.connection.talk.info()
    }

    /// The bytes that are offered: the rest of the first part that waits.
    pub fn out(&self) -> &[u8]
        ensures value { result.now ≡ out_now self.now.machine.known }
        ensures told { ForEach self.now.machine (λ history. result.now ≡ out_after history) }
    {
        offered(&self.connection)
    }

    /// So many of the bytes that are offered have gone out.
    pub fn wrote(&mut self, n: usize)
        requires { n ≤ length (out_now self.old.machine.known) }
        ensures step { self.new.machine ≡ step self.old.machine (Wrote n) }
        ensures stands { ForEach self.old.machine (Adds (Wrote n) self.new.machine) }
    {
        count_written(&mut self.connection, n);
    }

    /// How many commands are not completed.
    pub fn in_flight(&self) -> usize
        ensures value { result ≡ in_flight_now self.now.machine.known }
        ensures told { ForEach self.now.machine (λ history. result ≡ in_flight_after history) }
    {
        self.connection.commands.in_flight()
    }

    /// Which completed command comes next (libnbd, nbd_aio_peek_command_completed).
    pub fn peek(&self) -> Peeked
        ensures value { result ≡ peeked_now self.now.machine.known }
        ensures told { ForEach self.now.machine (λ history. result ≡ peeked_after history) }
    {
        self.connection.commands.peek()
    }

    /// The notes since the log was last cleared, the earliest first.
    pub fn log(&self) -> &[Note]
        ensures value { result.now ≡ self.now.machine.known.notes }
        ensures told { ForEach self.now.machine (λ history. result.now ≡ log_after history) }
    {
        self.connection.commands.notes()
    }

    /// Drops the notes.
    pub fn clear_log(&mut self)
        ensures step { self.new.machine ≡ step self.old.machine ClearLog }
        ensures stands { ForEach self.old.machine (Adds ClearLog self.new.machine) }
    {
        self.connection.commands.clear_log();
    }
}

impl<K: Caller> Handle<K> {
    /// Takes bytes that came (libnbd, nbd_aio_notify_read). `Ok`: all of them arrived. `Short`: memory ran out, and the first
    /// of them arrived; the others are to be handed in again.
    pub fn arrive(&mut self, bytes: &[u8], world: &mut K::World) -> Result<(), Short>
        requires { is_living self.old.machine.known.stage ≡ true }
        ensures ok { OnOk result (Answered K.steps (Arrived bytes.now) self.old.machine self.new.machine world.old world.new) }

        // It takes no memory where simple replies alone come and no chunk callback makes a note.
        ensures memory { IsPlain self.old.machine.known → IsOk result }
        ensures within { IfErr result (λ short. short.taken ≤ length bytes.now) }
        ensures short { IfErr result (λ short. Answered K.steps (Arrived (take short.taken bytes.now)) self.old.machine self.new.machine world.old world.new) }
        ensures stands { OnOk result (ForEach self.old.machine (AddsAnswered K.steps (Arrived bytes.now) self.new.machine world.old world.new)) }
        ensures short_stands { IfErr result (λ short. ForEach self.old.machine (AddsAnswered K.steps (Arrived (take short.taken bytes.now)) self.new.machine world.old world.new)) }
    {
        if self.pending.is_empty() {
            take_fresh(&mut self.connection, &mut self.pending, world, bytes)
        } else {
            take_behind(&mut self.connection, &mut self.pending, world, bytes)
        }
    }

    /// The peer ended the connection. Where the end was asked for and no command is in flight, the handle
    /// is Closed; from the other living states it dies. It takes no memory.
    pub fn ended(&mut self, world: &mut K::World)
        ensures answered { Answered K.steps End self.old.machine self.new.machine world.old world.new }
        ensures stands { ForEach self.old.machine (AddsAnswered K.steps End self.new.machine world.old world.new) }
    {
        match self.connection.stage {
            Stage::Open => {
                die(&mut self.connection, world, Cause::Ended);
                self.pending.clear();
            }
            Stage::Disconnecting => {
                end_closing(&mut self.connection, world);
                self.pending.clear();
            }
            Stage::Aborting => {
                end_closing(&mut self.connection, world);
                self.pending.clear();
            }
            Stage::Created => {}
            Stage::Closed => {}
            Stage::Dead(_) => {}
        }
    }

    /// Reading or writing failed: a living handle dies. It takes no memory.
    pub fn link_failed(&mut self, world: &mut K::World)
        ensures answered { Answered K.steps LinkFailed self.old.machine self.new.machine world.old world.new }
        ensures stands { ForEach self.old.machine (AddsAnswered K.steps LinkFailed self.new.machine world.old world.new) }
    {
        match self.connection.stage {
            Stage::Open => {
                die(&mut self.connection, world, Cause::LinkFailed);
                self.pending.clear();
            }
            Stage::Disconnecting => {
                die(&mut self.connection, world, Cause::LinkFailed);
                self.pending.clear();
            }
            Stage::Aborting => {
                die(&mut self.connection, world, Cause::LinkFailed);
                self.pending.clear();
            }
            Stage::Created => {}
            Stage::Closed => {}
            Stage::Dead(_) => {}
        }
    }

    /// Ends the handle: the callbacks of the commands in flight are freed, and none completes. It takes no
    /// memory.
    pub fn close(self, world: &mut K::World) -> Closed
        ensures world { K.steps world.old (calls self.machine Close) world.new }
        ensures notes { result.notes ≡ (step self.machine Close).known.notes }
        ensures opened { result.opened ≡ (step self.machine Close).known.admitted }
        ensures freed { result.freed ≡ (step self.machine Close).known.freed }
        ensures equal { result.opened ≡ result.freed }
        ensures stands { ForEach self.machine (Closes K.steps result.notes result.opened result.freed world.old world.new) }
    {
        let Handle {
            connection,
            pending: _,
        } = self;
        let Connection {
            alloc: _,
            stage: _,
            strict: _,
            flags: _,
            talk: _,
            passed: _,
            queue: _,
            written: _,
            commands,
        } = connection;
        commands.close(world)
    }
}

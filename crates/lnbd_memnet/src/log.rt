//! The calls so far, each with its bytes. Which calls may be made is not known here.

ghost use Rattle.std.specs.Prelude.{◌≡◌, ◌<◌, ◌≤◌, ◌^◌, ◌∷◌, ◌++◌, [], None, length, OnOk, OnErr};
ghost use Rattle.lnbd_link.specs.Call.{read_told, write_told};
ghost use Rattle.lnbd_link.specs.Call.{Connect, Listen, Accept, Read, Write, Pause, Shut};
ghost use Rattle.lnbd_link.specs.declared.wires.Accepted.TheVariants.{Failed};
ghost use Rattle.lnbd_link.specs.Room.{got_len, took_len};
ghost use Rattle.lnbd_memnet.specs.Log.{call_of};

use crate::hosted::copied;
use lnbd_link::{Got, Took, Want};
use lnbd_model::{NoMemory, Target};
use std::alloc::Global;
use std::marker::Model;

/// One call. Listens and accepts fail, so they have no number.
#[derive(Debug, Drop)]
pub(crate) enum Kept {
    Connect {
        to: Target,
        link: Option<u32>,
    },
    Listen {
        at: Target,
    },
    Accept {
        listener: u32,
    },
    Read {
        link: u32,
        room: usize,
        got: Got,
        bytes: Vec<u8>,
    },
    Write {
        link: u32,
        offered: usize,
        took: Took,
        bytes: Vec<u8>,
    },
    Pause {
        wants: Vec<Want>,
    },
    Shut {
        link: u32,
    },
}

/// Contracts see the calls, the oldest first. A call that finds no memory changes nothing.
#[derive(Debug, Drop)]
pub(crate) struct Log {
    alloc: Global,
    kept: Vec<Kept>,
}

impl Model for Log {
    ghost use Rattle.std.specs.Prelude.{List, map};
    ghost use Rattle.lnbd_link.specs.Call.{Call};
    ghost use Rattle.lnbd_memnet.specs.Log.{call_of};

    ghost Value = { List Call };

    ghost view = { λ a. map call_of a.kept.items };
}

impl Log {
    pub fn new(alloc: Global) -> Log
        ensures { result ≡ [] }
    {
        Log {
            alloc,
            kept: Vec::new(alloc),
        }
    }

    /// The calls stand in memory.
    pub fn few(&self)
        ensures { length self.now < 2 ^ 63 }
    {
        let _ = &self.kept;
    }

    pub fn connect(&mut self, to: &Target, link: Option<u32>) -> Result<(), NoMemory>
        ensures ok { OnOk result (self.new ≡ self.old ++ Connect to.now link ∷ []) }
        ensures err { OnErr result (self.new ≡ self.old) }
    {
        let to = copied(self.alloc, to)?;
        self.keep(Kept::Connect { to, link })
    }

    /// A listen that fails.
    pub fn listen(&mut self, at: &Target) -> Result<(), NoMemory>
        ensures ok { OnOk result (self.new ≡ self.old ++ Listen at.now None ∷ []) }
        ensures err { OnErr result (self.new ≡ self.old) }
    {
        let at = copied(self.alloc, at)?;
        self.keep(Kept::Listen { at })
    }

    /// An accept that fails.
    pub fn accept(&mut self, listener: u32) -> Result<(), NoMemory>
        ensures ok { OnOk result (self.new ≡ self.old ++ Accept listener Failed ∷ []) }
        ensures err { OnErr result (self.new ≡ self.old) }
    {
        self.keep(Kept::Accept { listener })
    }

    pub fn read(&mut self, link: u32, into: &[u8], got: Got) -> Result<(), NoMemory>
        requires { got_len got ≤ length into.now }
        ensures ok { OnOk result (self.new ≡ self.old ++ Read link (length into.now) (read_told got into.now) ∷ []) }
        ensures err { OnErr result (self.new ≡ self.old) }
    {
        let (moved, _) = into.split_at(got.moved());
        let bytes = moved.to_vec(self.alloc)?;
        self.keep(Kept::Read {
            link,
            room: into.len(),
            got,
            bytes,
        })
    }

    pub fn write(&mut self, link: u32, from: &[u8], took: Took) -> Result<(), NoMemory>
        requires { took_len took ≤ length from.now }
        ensures ok { OnOk result (self.new ≡ self.old ++ Write link (length from.now) (write_told took from.now) ∷ []) }
        ensures err { OnErr result (self.new ≡ self.old) }
    {
        let (sent, _) = from.split_at(took.moved());
        let bytes = sent.to_vec(self.alloc)?;
        self.keep(Kept::Write {
            link,
            offered: from.len(),
            took,
            bytes,
        })
    }

    pub fn pause(&mut self, wants: &[Want]) -> Result<(), NoMemory>
        ensures ok { OnOk result (self.new ≡ self.old ++ Pause wants.now ∷ []) }
        ensures err { OnErr result (self.new ≡ self.old) }
    {
        let wants = wants.to_vec(self.alloc)?;
        self.keep(Kept::Pause { wants })
    }

    pub fn shut(&mut self, link: u32) -> Result<(), NoMemory>
        ensures ok { OnOk result (self.new ≡ self.old ++ Shut link ∷ []) }
        ensures err { OnErr result (self.new ≡ self.old) }
    {
        self.keep(Kept::Shut { link })
    }

    fn keep(&mut self, call: Kept) -> Result<(), NoMemory>
        ensures ok { OnOk result (self.new ≡ self.old ++ call_of call ∷ []) }
        ensures err { OnErr result (self.new ≡ self.old) }
    {
        self.kept.push(call)?;
        Ok(())
    }
}

//! A session of a server with one client: a dialogue, and how many bytes of the client came. No links,
//! no other sessions.

ghost use Rattle.std.specs.Prelude.{◌≡◌, ◌↔◌, ◌+◌, ◌<◌, ◌≤◌, length, take, drop, true, false, IfOk, OnOk, OnErr, IsErrOf};
ghost use Rattle.lnbd_server.specs.Client.{max_client};
ghost use Rattle.lnbd_server.specs.Session.{Takes, Answers, fresh, is_closed, is_strayed, TookAs};

use crate::dialogue::Dialogue;
use crate::stage::Offers;
use lnbd_export::Export;
use lnbd_model::NoMemory;
use std::alloc::Global;
use std::marker::Model;
use thiserror::Error;

/// The most bytes of one client.
const MAX_CLIENT: u64 = 4_611_686_018_427_387_904;

/// Why bytes were not all taken, or were the last.
#[derive(Clone, Copy, Debug, PartialEq, Eq, Error)]
pub enum TakeFault {
    /// Memory ran out after so many bytes; the others are to be handed in again.
    #[error("no memory")]
    NoMemory { taken: usize },
    /// DISC or ABORT was read, or the bytes are no client's.
    #[error("the session is over")]
    Closed,
}

/// What a server keeps of one client.
#[derive(Debug, Drop)]
pub struct Session {
    offers: Offers,
    came: u64,
    dialogue: Dialogue,
}

impl Model for Session {
    ghost use Rattle.std.specs.Prelude.{◌≤◌};
    ghost use Rattle.lnbd_server.specs.Client.{max_client};
    ghost use Rattle.lnbd_server.specs.Session.{Session as Kept};

    ghost Value = { Kept };

    ghost view = { λ s. record { offers = s.offers; came = s.came; dialogue = s.dialogue } };

    ghost invariant = { λ s. s.came ≤ max_client };
}

impl Session {
    /// A session in which the hello waits to go out.
    pub fn new(alloc: Global, structured: bool, extended: bool) -> Result<Session, NoMemory>
        ensures { IfOk result (λ session. session ≡ fresh (record { structured = structured; extended = extended })) }
    {
        Ok(Session {
            offers: Offers {
                structured,
                extended,
            },
            came: 0,
            dialogue: Dialogue::new(alloc)?,
        })
    }

    /// How many replies are pending.
    pub fn pending(&self) -> usize
        ensures { result ≡ length self.now.dialogue.waiting }
    {
        self.dialogue.pending()
    }

    /// The bytes that wait to go out.
    pub fn out(&self) -> &[u8]
        ensures { result.now ≡ self.now.dialogue.out }
    {
        self.dialogue.out()
    }

    /// So many of these bytes have gone out.
    pub fn gave(&mut self, n: usize)
        requires { n ≤ length self.old.dialogue.out }
        ensures { self.new ≡ record self.old { dialogue = record self.old.dialogue { out = drop n self.old.dialogue.out } } }
    {
        self.dialogue.gave(n);
    }

    /// Makes the pending reply at this place, which then waits to go out. On `NoMemory` nothing changes.
    pub fn answer(&mut self, pick: usize, export: &Export) -> Result<(), NoMemory>
        requires { pick < length self.old.dialogue.waiting }
        ensures ok { OnOk result (Answers self.old pick export.now self.new) }
        ensures err { OnErr result (self.new ≡ self.old) }
    {
        self.dialogue.answer(pick, export)
    }

    /// Whether the bytes were no client's.
    pub fn broken(&self) -> bool
        ensures { result ≡ is_strayed self.now.dialogue.stage }
    {
        self.dialogue.is_strayed()
    }

    /// Whether the session is at its end: DISC or ABORT was read, or the bytes were no client's.
    pub fn is_closed(&self) -> bool
        ensures { result ≡ is_closed self.now.dialogue.stage }
    {
        self.dialogue.is_closed()
    }

    /// Takes bytes of the client. Each request that becomes whole has its effect on the export, and its
    /// reply is then pending; each option is answered at once.
    pub fn take(&mut self, bytes: &[u8], export: &mut Export) -> Result<(), TakeFault>
        ensures { TookAs self.old export.old bytes.now result self.new export.new }
    {
        let left = MAX_CLIENT - self.came;
        if bytes.len() as u64 <= left {
            return self.take_all(bytes, export);
        }
        let (within, _) = bytes.split_at(left as usize);
        match self.take_all(within, export) {
            Ok(()) => {
                self.dialogue.stray();
                Err(TakeFault::Closed)
            }
            Err(fault) => Err(fault),
        }
    }

    /// The same within the limit.
    fn take_all(&mut self, bytes: &[u8], export: &mut Export) -> Result<(), TakeFault>
        requires { self.old.came + length bytes.now ≤ max_client }
        ensures { TookAs self.old export.old bytes.now result self.new export.new }
    {
        let mut taken = 0;
        while taken < bytes.len() && !self.dialogue.is_closed() {
            let (_, rest) = bytes.split_at(taken);
            match self.dialogue.step(self.offers, rest, export) {
                Ok(n) => {
                    taken += n;
                }
                Err(_) => {
                    self.came += taken as u64;
                    return Err(TakeFault::NoMemory { taken });
                }
            }
        }
        if self.dialogue.is_closed() {
            return Err(TakeFault::Closed);
        }
        self.came += taken as u64;
        Ok(())
    }
}

//! The commands of one handle, and a peer that answers them from memory.

ghost use Rattle.std.specs.Prelude.{◌≡◌, true, vec_len};
ghost use Rattle.lnbd_model.specs.Kind.{is_read};
ghost use Rattle.lnbd_chunks.specs.Chunk.{lies_within};
ghost use Rattle.lnbd_structured.specs.Told.{IsInside, content_in};
ghost use Rattle.lnbd_structured.specs.Waiting.{seen_waiting};

use lnbd_callbacks::{Caller, Heard, Verdict};
use lnbd_commands::{Asked, Commands, Told, Waiting};
use lnbd_model::{Bytes, Context, Contexts, Extent, Kind, Text};
use lnbd_structured::descriptors_in;
use std::alloc::Global;

/// The number of the meta context.
const ALLOCATION: u32 = 1;

/// How a read is answered.
#[derive(Clone, Copy, Debug, PartialEq, Eq)]
pub enum Answer {
    OneChunk,
    Simple,
}

/// Retires each command.
#[derive(Clone, Copy)]
struct Retiring;

impl Caller for Retiring {
    type World = u64;

    ghost steps = { λ before calls after. Unit {0} };

    fn chunk(&self, _: &mut u64, _: &[u8], _: u64, _: u32, _: u32) -> Heard {
        Heard::Going
    }

    fn extents(&self, _: &mut u64, _: &[u8], _: u64, _: &[Extent], _: u32) -> Heard {
        Heard::Going
    }

    // Counts the commands that succeed.
    fn complete(&self, world: &mut u64, error: u32, _: Bytes) -> Verdict {
        if error == 0 {
            *world = world.wrapping_add(1);
        }
        Verdict::Retire
    }

    fn free(self, _: &mut u64) {}

    ghost empty = { λ world. tt };

    ghost append = { λ a b c first second one two. tt };
}

/// One connection, and how many commands succeeded.
pub struct Session {
    commands: Commands<Retiring>,
    contexts: Contexts,
    alloc: Global,
    done: u64,
}

/// Whether so many bytes from this place on lie in what a read asked for.
fn lies_within(known: &Waiting, offset: u64, size: u64) -> bool
    ensures { result ≡ true → lies_within (seen_waiting known.now) offset size ≡ true }
{
    if offset < known.offset {
        return false;
    }
    let skipped = offset - known.offset;
    skipped <= known.length && size <= known.length - skipped
}

/// Whether data or extents lie in what a command asked for.
fn is_inside(known: &Waiting, told: Told<'_>) -> bool
    ensures { result ≡ true → IsInside (seen_waiting known.now) (content_in told.entry) }
{
    match told {
        Told::Data { offset, bytes } => match known.kind {
            Kind::Read => lies_within(known, offset, bytes.len() as u64),
            _ => false,
        },
        Told::Hole { .. } => false,
        Told::Status { .. } | Told::Error { .. } | Told::Nothing => true,
    }
}

impl Session {
    /// A connection where one meta context is agreed.
    pub fn begin(alloc: Global) -> anyhow::Result<Session> {
        let mut contexts = Contexts::new(alloc);
        let name = Text::from_bytes(alloc, b"base:allocation")?;
        contexts.push(Context {
            id: ALLOCATION,
            name,
        })?;
        Ok(Session {
            commands: Commands::new(alloc),
            contexts,
            alloc,
            done: 0,
        })
    }

    /// Issues a command for so many bytes at 0, and tells its cookie, 0 for none.
    fn issue(&mut self, kind: Kind, length: u64, buf: Vec<u8>, heard: bool) -> u64
        requires { is_read kind ≡ true → vec_len buf ≡ length }
    {
        let asked = Asked {
            kind,
            flags: 0,
            offset: 0,
            length,
            buf,
            first: if heard { Some(Retiring) } else { None },
            done: Retiring,
        };
        match self.commands.issue(asked) {
            Ok(cookie) => cookie,
            Err(_) => 0,
        }
    }

    /// Issues a read of so many bytes at 0, and tells its cookie, 0 for none.
    fn issue_read(&mut self, size: usize, heard: bool) -> u64 {
        let Ok(buf) = vec![in self.alloc; 0u8; size] else {
            return 0;
        };
        self.issue(Kind::Read, buf.len() as u64, buf, heard)
    }

    /// Files a chunk, where it may come.
    fn file(&mut self, cookie: u64, told: Told<'_>, last: bool) -> bool {
        let Some(known) = self.commands.waiting(cookie) else {
            return false;
        };
        if !is_inside(&known, told) || (!last && known.faults >= 1024) {
            return false;
        }
        self.commands
            .chunk(&mut self.done, cookie, told, last, &self.contexts)
            .is_ok()
    }

    /// Files a simple reply without an error, where it has as many bytes as were asked for.
    fn reply(&mut self, cookie: u64, bytes: &[u8]) -> bool {
        let Some(known) = self.commands.waiting(cookie) else {
            return false;
        };
        let Kind::Read = known.kind else {
            return false;
        };
        if known.length != bytes.len() as u64 {
            return false;
        }
        self.commands
            .reply(&mut self.done, cookie, 0, bytes)
            .is_ok()
    }

    /// One read whose data come in so many chunks of so many bytes, in rising order.
    pub fn chunks(&mut self, count: u32, size: u32, heard: bool) {
        let Ok(piece) = vec![in self.alloc; 0x5au8; size as usize] else {
            return;
        };
        let cookie = self.issue_read((count as usize).saturating_mul(piece.len()), heard);
        for place in 0..count {
            let data = Told::Data {
                offset: u64::from(place).saturating_mul(u64::from(size)),
                bytes: &piece,
            };
            self.file(cookie, data, place == count - 1);
        }
        self.commands.clear_log();
    }

    /// One block status that is answered by one chunk of so many descriptors, of a byte each.
    pub fn extents(&mut self, count: u32) {
        let Ok(payload) = vec![in self.alloc; 1u8; (count as usize).saturating_mul(8)] else {
            return;
        };
        let Ok(entries) = descriptors_in(self.alloc, &payload) else {
            return;
        };
        let none = Vec::new(self.alloc);
        let cookie = self.issue(Kind::BlockStatus, u64::from(count), none, true);
        let status = Told::Status {
            context: ALLOCATION,
            entries: &entries,
        };
        self.file(cookie, status, true);
        self.commands.clear_log();
    }

    /// So many reads of so many bytes, one behind the other.
    pub fn reads(&mut self, rounds: u32, size: u32, answer: Answer) {
        let Ok(bytes) = vec![in self.alloc; 0x5au8; size as usize] else {
            return;
        };
        for _ in 0..rounds {
            let cookie = self.issue_read(bytes.len(), false);
            match answer {
                Answer::OneChunk => {
                    let data = Told::Data {
                        offset: 0,
                        bytes: &bytes,
                    };
                    self.file(cookie, data, true)
                }
                Answer::Simple => self.reply(cookie, &bytes),
            };
        }
        self.commands.clear_log();
    }

    /// Ends the connection. Tells how many commands succeeded and how many callbacks were freed.
    pub fn end(self) -> (u64, u64) {
        let Session {
            commands,
            contexts: _,
            alloc: _,
            done,
        } = self;
        let mut done = done;
        let closed = commands.close(&mut done);
        (done, closed.freed)
    }
}

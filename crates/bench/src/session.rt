//! A handle in the state Ready, and the peer's answers.

use crate::copies::{BLOCK, BLOCKS};
use lnbd_callbacks::{Caller, Heard, Verdict};
use lnbd_handle::Handle;
use lnbd_history::Completed;
use lnbd_model::{Bytes, Extent, NoMemory};
use std::alloc::Global;

/// The server's hello, GO's reply for an export of 64 MiB with the flags 1, and its ACK.
const HELLO: [u8; 18] = *b"NBDMAGICIHAVEOPT\0\x03";

const GO: [u8; 52] =
    *b"\0\x03\xe8\x89\x04\x55\x65\xa9\0\0\0\x07\0\0\0\x03\0\0\0\x0c\0\0\0\0\0\0\x04\0\0\0\0\x01\
\0\x03\xe8\x89\x04\x55\x65\xa9\0\0\0\x07\0\0\0\x01\0\0\0\0";

/// How many bytes the head of a reply has.
const HEAD: usize = 16;

/// How many bytes each read of a round has.
const SMALL: usize = 512;

/// What becomes of a command that completes.
#[derive(Clone, Copy)]
enum Ending {
    Retire,
    Keep,
}

impl Caller for Ending {
    type World = u64;

    ghost steps = { λ before calls after. Unit {0} };

    fn chunk(&self, _: &mut u64, _: &[u8], _: u64, _: u32, _: u32) -> Heard {
        Heard::Going
    }

    fn extents(&self, _: &mut u64, _: &[u8], _: u64, _: &[Extent], _: u32) -> Heard {
        Heard::Going
    }

    fn complete(&self, world: &mut u64, error: u32, buf: Bytes) -> Verdict {
        *world = world.wrapping_add(1);
        match self {
            Ending::Retire => Verdict::Retire,
            Ending::Keep => Verdict::Keep { error, buf },
        }
    }

    fn free(self, _: &mut u64) {}

    ghost empty = { λ world. tt };

    ghost append = { λ a b c first second one two. tt };
}

/// One connection, and how many of its commands completed.
pub struct Session {
    handle: Handle<Ending>,
    alloc: Global,
    completed: u64,
}

/// The head of a reply without an error.
fn head(cookie: u64) -> [u8; 16] {
    let mut head = [0; 16];
    head[..4].copy_from_slice(&[0x67, 0x44, 0x66, 0x98]);
    head[8..].copy_from_slice(&cookie.to_be_bytes());
    head
}

/// Puts the head of a reply in front of its data.
fn begin(reply: &mut [u8], cookie: u64) {
    if reply.len() >= HEAD {
        reply[..HEAD].copy_from_slice(&head(cookie));
    }
}

impl Session {
    /// A handle in the state Ready.
    pub fn begin(alloc: Global) -> Result<Session, NoMemory> {
        let mut session = Session {
            handle: Handle::create(alloc)?,
            alloc,
            completed: 0,
        };
        if session.handle.start().is_ok() {
            session.feed(&HELLO);
            session.feed(&GO);
            session.write_all();
        }
        Ok(session)
    }

    /// Hands in bytes, where the handle reads.
    fn feed(&mut self, bytes: &[u8]) -> bool {
        self.handle.is_reading() && self.handle.arrive(bytes, &mut self.completed).is_ok()
    }

    /// Takes all that waits.
    fn write_all(&mut self) {
        for _ in 0..u64::MAX {
            let count = self.handle.out().len();
            if count == 0 {
                return;
            }
            self.handle.wrote(count);
        }
    }

    /// Issues a read at 0 of as many bytes as the buffer has, and tells its cookie, 0 for none.
    fn issue_into(&mut self, buf: Vec<u8>, ending: Ending) -> u64 {
        self.handle
            .aio_pread(buf, 0, ending, 0, &mut self.completed)
            .unwrap_or(0)
    }

    /// The same with a buffer of its own.
    fn issue(&mut self, size: usize) -> u64 {
        match vec![in self.alloc; 0u8; size] {
            Ok(buf) => self.issue_into(buf, Ending::Retire),
            Err(_) => 0,
        }
    }

    /// Hands in data, in pieces of so many bytes.
    fn feed_in(&mut self, data: &[u8], piece: usize) {
        for part in data.chunks(piece.max(1)) {
            self.feed(part);
        }
    }

    /// One read of so many times 64 KiB, whose reply comes in pieces of so many bytes.
    pub fn read(&mut self, blocks: u32, piece: u32) {
        let cookie = self.issue(blocks as usize * BLOCK);
        self.write_all();
        self.feed(&head(cookie));
        let Ok(block) = vec![in self.alloc; 0x5au8; BLOCK] else {
            return;
        };
        for _ in 0..blocks {
            self.feed_in(&block, piece as usize);
        }
        self.handle.clear_log();
    }

    /// Reads of 256 KiB, one after another, each into the buffer of the one before, whose replies come in pieces of so many bytes.
    pub fn stream(&mut self, reads: u32, piece: u32) {
        let (Ok(mut reply), Ok(mut buffer)) = (
            vec![in self.alloc; 0x5au8; HEAD + BLOCK * BLOCKS],
            vec![in self.alloc; 0u8; BLOCK * BLOCKS],
        ) else {
            return;
        };
        for _ in 0..reads {
            let cookie = self.issue_into(buffer, Ending::Keep);
            self.write_all();
            begin(&mut reply, cookie);
            self.feed_in(&reply, piece as usize);
            self.handle.clear_log();
            buffer = match self.handle.command_completed(cookie) {
                Completed::Done(bytes) => bytes.into_vec(),
                _ => return,
            };
        }
    }

    /// So many reads of 512 bytes in flight at once, answered in order, or backwards.
    pub fn round(&mut self, commands: u32, backwards: bool) {
        let mut last = 0;
        for _ in 0..commands {
            last = self.issue(SMALL);
        }
        self.write_all();
        let data = [0x5a; SMALL];
        for place in 0..commands {
            let behind = if backwards {
                place
            } else {
                commands - 1 - place
            };
            self.feed(&head(last.saturating_sub(behind as u64)));
            self.feed(&data);
        }
        self.handle.clear_log();
    }

    /// So many reads in flight, and then the peer ends the connection.
    pub fn die(&mut self, commands: u32) {
        for _ in 0..commands {
            self.issue(SMALL);
        }
        self.handle.ended(&mut self.completed);
    }

    /// Ends the handle, and tells how many commands completed.
    pub fn end(self) -> u64 {
        let Session {
            handle,
            alloc: _,
            completed,
        } = self;
        let mut completed = completed;
        handle.close(&mut completed);
        completed
    }
}

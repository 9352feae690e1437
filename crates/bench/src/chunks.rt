//! Chunks that are filed under the commands of a handle. The words, one kind of work a run:
//! `chunks COUNT SIZE`, one read whose data come in so many chunks of so many bytes, in rising order;
//! `heard COUNT SIZE`, the same with a chunk callback;
//! `extents COUNT 1`, one chunk of so many descriptors of a byte each;
//! `whole ROUNDS SIZE`, so many reads of so many bytes, each answered by one chunk;
//! `simple ROUNDS SIZE`, the same, each answered by a simple reply.
//! Tells how many commands succeeded, and how many callbacks were freed.

use crate::commands::{Answer, Session};
use crate::played::Played;
use anyhow::{Result, bail};

/// What is done.
#[derive(Clone, Copy)]
enum Work {
    /// One read, and whether it has a chunk callback.
    Chunks { heard: bool },
    Extents,
    Reads(Answer),
}

/// The work that the next word names.
fn work_taken_from(played: &mut Played) -> Result<Work> {
    match played.word()?.as_str() {
        "chunks" => Ok(Work::Chunks { heard: false }),
        "heard" => Ok(Work::Chunks { heard: true }),
        "extents" => Ok(Work::Extents),
        "whole" => Ok(Work::Reads(Answer::OneChunk)),
        "simple" => Ok(Work::Reads(Answer::Simple)),
        _ => bail!("there is no such work on chunks"),
    }
}

pub fn play(played: &mut Played) -> Result<()> {
    let work = work_taken_from(played)?;
    let count = played.number()?;
    let size = played.number()?;
    let mut session = Session::begin(played.alloc())?;
    match work {
        Work::Chunks { heard } => session.chunks(count, size, heard),
        Work::Extents => session.extents(count),
        Work::Reads(answer) => session.reads(count, size, answer),
    }
    let (done, freed) = session.end();
    played.tell(done)?;
    played.tell(freed)
}

//! Each call of desk and slots once, by callbacks of two kinds. The notes that are wanted are written out by hand.

ghost use Rattle.std.specs.Prelude.{◌≡◌, ◌≢◌, false};
ghost use Rattle.lnbd_callbacks.specs.Slot.{IsLiveOn};

use crate::support::{Scribe, allocation};
use lnbd_callbacks::{Desk, Heard, Slot};
use lnbd_model::{Bytes, Extent, Note};
use std::test::Fail;

/// Lets all go on, and keeps its result.
const KEEPER: Scribe = Scribe {
    heard: Heard::Going,
    keeps: true,
};

/// Fails all that it is told by the number 0, and retires its command.
const REFUSER: Scribe = Scribe {
    heard: Heard::Fail(0),
    keeps: false,
};

/// Ends a command that told all: frees its first callback, completes the other and frees it.
fn end(
    desk: &mut Desk,
    world: &mut String,
    first: Slot<Scribe>,
    mut done: Slot<Scribe>,
    error: u32,
    buf: Bytes,
) -> bool
    requires first { IsLiveOn first desk.old.log }
    requires done { IsLiveOn done desk.old.log }
    requires apart { done.number ≢ first.number }
    requires fresh { done.completed ≡ false }
{
    first.free(desk, world);
    let kept = done.complete(desk, world, error, buf).is_keep();
    let completed = done.is_completed();
    done.free(desk, world);
    kept && completed
}

/// What the notes of two callbacks have to be that are told, and of which the second completes with the error 5.
const TOLD: [Note; 5] = [
    Note::Chunk {
        slot: 1,
        offset: 512,
        length: 3,
        status: 1,
        error: 0,
        heard: 0,
    },
    Note::Extents {
        slot: 1,
        context: 7,
        offset: 1024,
        count: 1,
        error: 5,
        heard: 0,
    },
    Note::Freed { slot: 1 },
    Note::Completed {
        slot: 2,
        error: 5,
        kept: true,
    },
    Note::Freed { slot: 2 },
];

/// The same of one that fails all by 0, which counts as 71, and retires its command.
const REFUSED: [Note; 3] = [
    Note::Chunk {
        slot: 3,
        offset: 0,
        length: 0,
        status: 0,
        error: 22,
        heard: 71,
    },
    Note::Completed {
        slot: 3,
        error: 71,
        kept: false,
    },
    Note::Freed { slot: 3 },
];

#[test]
fn calls_are_told_and_noted_in_order(rt: HostRuntime) -> Result<(), Fail> {
    let alloc = rt.alloc();
    let context = allocation(alloc)?;
    let extents = [Extent {
        length: 512,
        flags: 3,
    }];
    let mut world = String::new(alloc);
    let mut desk = Desk::new(alloc);
    let Ok((told, done)) = desk.admit_two(KEEPER, KEEPER) else {
        return Err(Fail::new("no memory"));
    };
    let numbers = told.number() == 1 && done.number() == 2;
    let reserved = desk.reserve().is_ok();
    let chunk = told.chunk(&mut desk, &mut world, b"abc", 512, 1, 0);
    let heard = told.extents(&mut desk, &mut world, &context, 1024, &extents, 5);
    let going = reserved && chunk == Ok(Heard::Going) && heard == Ok(Heard::Going);
    let live = numbers && desk.live() == 2;
    let buf = Bytes::from_vec(Vec::new(alloc));
    let kept = end(&mut desk, &mut world, told, done, 5, buf);
    let noted = desk.notes() == TOLD.as_slice();
    desk.clear();
    let Ok(mut slot) = desk.admit(REFUSER) else {
        return Err(Fail::new("no memory"));
    };
    let heard = slot.chunk(&mut desk, &mut world, b"", 0, 0, 22);
    let buf = Bytes::from_vec(Vec::new(alloc));
    let verdict = slot.complete(&mut desk, &mut world, 71, buf);
    slot.free(&mut desk, &mut world);
    let refused = heard == Ok(Heard::Fail(71)) && !verdict.is_keep();
    let ended = desk.admitted() == 3 && desk.live() == 0;
    let last = desk.into_notes();

    assert!(rt; going && live && kept && noted && refused && ended);
    assert!(rt; last.as_slice() == REFUSED.as_slice());
    assert_eq!(rt;
        world.as_str(),
        "status 1 at 512: [97, 98, 99], error 0\n\
base:allocation at 1024: 512 3, error 5\n\
freed\ncompleted, error 5\nfreed\n\
status 0 at 0: [], error 22\n\
completed, error 71\nfreed\n"
    );
    Ok(())
}

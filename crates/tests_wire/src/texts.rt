//! Each kind of text, once as it is written down for people.

use crate::told::{same, text};
use lnbd_history::{Completed, OptAnswer, Peeked};
use lnbd_model::{
    Blocks, Breach, Bytes, Cause, Context, Contexts, ExportInfo, Lack, Listed, NoMemory, Note,
    State, Text, Why,
};
use lnbd_texts::{
    push_completed, push_info, push_listing, push_log, push_opt_answer, push_peeked, push_quoted,
    push_refusal, push_refused_state, push_state,
};
use std::alloc::Global;

static STATES: [State; 10] = [
    State::Created,
    State::Negotiating,
    State::OptMode,
    State::Ready,
    State::Closing,
    State::Closed,
    State::Dead(Cause::Broke(Breach::OldStyle)),
    State::Dead(Cause::Refused { option: 7, code: 6 }),
    State::Dead(Cause::Ended),
    State::Dead(Cause::LinkFailed),
];

static REFUSALS: [Why; 15] = [
    Why::NotReady(State::Created),
    Why::Dead(Cause::Ended),
    Why::Closing,
    Why::TooMany(1024),
    Why::Unsupported(Lack::ReadOnly),
    Why::Unsupported(Lack::Flush),
    Why::Unsupported(Lack::Trim),
    Why::Unsupported(Lack::Zero),
    Why::Unsupported(Lack::Cache),
    Why::Unsupported(Lack::Context),
    Why::BadFlags(16),
    Why::ZeroSize,
    Why::TooBig(33554432),
    Why::Bounds(9223372036854775807),
    Why::Align(512),
];

#[test]
fn states_have_their_words(rt: HostRuntime) -> Result<(), NoMemory> {
    let mut told = String::new(rt.alloc());
    for state in &STATES {
        push_state(&mut told, *state)?;
        told.push_str("; ")?;
    }
    push_refused_state(&mut told, State::Ready)?;
    same(
        &rt,
        told.as_str(),
        "created; negotiating; opt-mode; ready; closing; closed; dead broke OldStyle; dead refused 7 6; dead ended; dead link-failed; refused state ready",
    );
    Ok(())
}

#[test]
fn refusals_have_their_words(rt: HostRuntime) -> Result<(), NoMemory> {
    let mut told = String::new(rt.alloc());
    for why in &REFUSALS {
        push_refusal(&mut told, *why)?;
        told.push('\n')?;
    }
    same(
        &rt,
        told.as_str(),
        "refused not-ready created
refused dead ended
refused closing
refused too-many 1024
refused unsupported read-only
refused unsupported flush
refused unsupported trim
refused unsupported zero
refused unsupported cache
refused unsupported context
refused bad-flags 16
refused zero-size
refused too-big 33554432
refused bounds 9223372036854775807
refused align 512
",
    );
    Ok(())
}

fn push_result(told: &mut String, completed: Completed) -> Result<(), NoMemory> {
    push_completed(told, &completed)?;
    told.push_str("; ")?;
    Ok(())
}

#[test]
fn results_tell_their_runs(rt: HostRuntime) -> Result<(), NoMemory> {
    let ab = Bytes::from_vec(vec![in rt.alloc(); 0xab; 512]?);
    let buf = Bytes::from_vec(vec![in rt.alloc(); 0; 512]?);
    let two = Vec::from_slice(rt.alloc(), b"\x11\x11\x11\x11\x33\x33\x33\x33")?;
    let mut told = String::new(rt.alloc());
    push_result(&mut told, Completed::Done(ab))?;
    push_result(&mut told, Completed::Failed { error: 107, buf })?;
    push_result(&mut told, Completed::Done(Bytes::from_vec(two)))?;
    push_result(
        &mut told,
        Completed::Done(Bytes::from_vec(Vec::new(rt.alloc()))),
    )?;
    push_result(&mut told, Completed::NotYet)?;
    push_result(&mut told, Completed::NoSuchCookie)?;
    same(
        &rt,
        told.as_str(),
        "done 512 ab*512; failed 107 512 00*512; done 8 11*4 33*4; done 0 -; not-yet; no-such-cookie; ",
    );
    Ok(())
}

static NOTES: [Note; 4] = [
    Note::Chunk {
        slot: 3,
        offset: 8,
        length: 16,
        status: 1,
        error: 0,
        heard: 5,
    },
    Note::Extents {
        slot: 4,
        context: 2,
        offset: 0,
        count: 1,
        error: 71,
        heard: 0,
    },
    Note::Completed {
        slot: 5,
        error: 107,
        kept: true,
    },
    Note::Freed { slot: 6 },
];

fn push_words(told: &mut String) -> Result<(), NoMemory> {
    for peeked in [Peeked::Cookie(3), Peeked::NoneDone, Peeked::NoneLeft] {
        push_peeked(told, peeked)?;
        told.push_str("; ")?;
    }
    push_opt_answer(told, None)?;
    told.push_str("; ")?;
    push_opt_answer(told, Some(OptAnswer::Ok))?;
    told.push_str("; ")?;
    push_opt_answer(told, Some(OptAnswer::Refused { option: 6, code: 6 }))?;
    told.push_str("; ")?;
    Ok(())
}

// The next cookie, answers to options, and a line for each note.
#[test]
fn answers_and_notes_have_their_words(rt: HostRuntime) -> Result<(), NoMemory> {
    let mut told = String::new(rt.alloc());
    push_words(&mut told)?;
    push_log(&mut told, &NOTES)?;
    same(
        &rt,
        told.as_str(),
        "cookie 3; none-done; none-left; none; ok; refused 6 6; chunk 3 8 16 1 0\nextents 4 2 0 1 71\ncompleted 5 107\nfreed 6\nend",
    );
    Ok(())
}

fn info(alloc: Global) -> ExportInfo {
    ExportInfo {
        size: 1048576,
        flags: 3,
        blocks: None,
        name: None,
        description: None,
        contexts: Contexts::new(alloc),
        structured: false,
        extended: false,
    }
}

#[test]
fn information_has_its_lines(rt: HostRuntime) -> Result<(), NoMemory> {
    let mut told = String::new(rt.alloc());
    push_info(&mut told, None)?;
    told.push_str("; ")?;
    let mut info = info(rt.alloc());
    push_info(&mut told, Some(&info))?;
    told.push_str("; ")?;
    info.blocks = Some(Blocks {
        minimum: 1,
        preferred: 4096,
        maximum: 4294967295,
    });
    info.structured = true;
    info.contexts.push(Context {
        id: 7,
        name: text(rt.alloc(), "base:allocation")?,
    })?;
    push_info(&mut told, Some(&info))?;
    same(
        &rt,
        told.as_str(),
        "info none; info 1048576 3 - - - false\nend; info 1048576 3 1 4096 4294967295 true\ncontext 7 base:allocation\nend",
    );
    Ok(())
}

// A text in quotes stands on one line, and a listing has a line for each export.
#[test]
fn exports_are_quoted(rt: HostRuntime) -> Result<(), NoMemory> {
    let mut told = String::new(rt.alloc());
    for quoted in ["", "été 2", "a\nb\x1f \x7f~", "\"c:\\\""] {
        push_quoted(&mut told, quoted)?;
        told.push('\n')?;
    }
    let listing = [
        Listed {
            name: text(rt.alloc(), "a")?,
            description: text(rt.alloc(), "x")?,
        },
        Listed {
            name: Text::empty(rt.alloc()),
            description: text(rt.alloc(), "root disk")?,
        },
    ];
    push_listing(&mut told, &listing)?;
    same(
        &rt,
        told.as_str(),
        "\"\"\n\"été 2\"\n\"a\\x0ab\\x1f \\x7f~\"\n\"\\x22c:\\x5c\\x22\"\nexport \"a\" \"x\"\nexport \"\" \"root disk\"\nend",
    );
    Ok(())
}

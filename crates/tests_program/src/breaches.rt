//! Scripts over hostile peers: each breach of the protocol in a session of its own, whole and cut at each byte, with the state asked between two reads; faulty content,
//! which fails its command alone; and a session whose peer ends it behind each of its bytes.

use crate::outside::{Ended, Fault, Finished, Outside, Peers, STREAMS, finish, report_end};
use crate::report::{Case, Report};
use crate::session::{Session, Texts, all_of, count, hold, play_texts};
use lnbd_link::{ListLink, ListWires, ReadAnswer};
use lnbd_model::Bytes;
use std::alloc::Global;
use std::test::Fail;

/// The names of bytes.
const NAMES: &str = "# STRUCTURED_REPLY is acknowledged.
STRUCTURED 0003e889045565a9 00000008 00000001 00000000
# The client's flags and STRUCTURED_REPLY.
ASK_STRUCTURED 00000003 49484156454f5054 00000008 00000000
READ_16 25609513 0000 0000 0000000000000001 0000000000000000 00000010
# EXTENDED_HEADERS is acknowledged.
EXTENDED 0003e889045565a9 0000000b 00000001 00000000
# GO's reply where SEND_DF is told.
GO_DF 0003e889045565a9 00000007 00000003 0000000c 0000 0000000000100000 0081
GO_DF 0003e889045565a9 00000007 00000001 00000000
# Structured replies are acknowledged, and base:allocation is agreed under the number 1.
ALLOCATION 0003e889045565a9 00000008 00000001 00000000
ALLOCATION 0003e889045565a9 0000000a 00000004 00000013 00000001 626173653a616c6c6f636174696f6e
ALLOCATION 0003e889045565a9 0000000a 00000001 00000000";

/// What comes before the bytes that break the protocol, as lines of a session, and the state that it leaves.
const NOTHING: &str = "connect tcp localhost 10809→connected
.state negotiating
.last opened 0 freed 0";

const OPTIONS: &str = "<1 HELLO
connect tcp localhost 10809→connected
read→moved 18
write→moved 4
write→moved 28
.state negotiating
.last opened 0 freed 0
> HANDSHAKE";

const SIMPLE: &str = "<1 HELLO
<1 GO
connect tcp localhost 10809→connected
settle→settled
pread 16 0→cookie 1
write→moved 28
.state ready
.last opened 1 freed 1
> HANDSHAKE
> READ_16";

const CHUNKS: &str = "<1 HELLO
<1 STRUCTURED
<1 GO
structured on→ok
connect tcp localhost 10809→connected
settle→settled
pread 16 0→cookie 1
write→moved 28
.state ready
.last opened 1 freed 1
> ASK_STRUCTURED
> ASK_GO
> READ_16";

const EXTENDED: &str = "<1 HELLO
<1 EXTENDED
<1 GO
extended on→ok
connect tcp localhost 10809→connected
settle→settled
pread 16 0→cookie 1
write→moved 32
.state ready
.last opened 1 freed 1
> 00000003 49484156454f5054 0000000b 00000000
> ASK_GO
> 21e41c71 0000 0000 0000000000000001 0000000000000000 0000000000000010";

/// A breach in each line: what comes before, its name, which of its bytes shows it, counted from 1, behind how many bytes at least cuts are played, and its bytes.
const BREACHES: &str = "NOTHING BadHello 8 1 4e42444d41474944
NOTHING OldStyle 16 1 4e42444d41474943 0000420281861253
NOTHING NotFixed 18 1 4e42444d41474943 49484156454f5054 0000
OPTIONS BadOptionMagic 8 1 0003e889045565a8
OPTIONS WrongOption 20 1 0003e889045565a9 00000006 00000001 00000000
OPTIONS BadOptionLength 20 1 0003e889045565a9 00000007 00000003 00010001
OPTIONS UnexpectedReply 20 1 0003e889045565a9 00000007 00000002 00000004 00000000
OPTIONS TooManyReplies 22550 22450 0003e889045565a90000000700000003000000020009*1025
OPTIONS BadText 23 1 0003e889045565a9 00000007 00000003 00000003 0001 ff
OPTIONS NoExportInfo 20 1 0003e889045565a9 00000007 00000001 00000000
OPTIONS SizeTooBig 32 1 0003e889045565a9 00000007 00000003 0000000c 0000 8000000000000000 0001
SIMPLE BadReplyMagic 4 1 668e33ef
SIMPLE UnknownCookie 16 1 67446698 00000000 0000000000000063
CHUNKS SimpleForRead 16 1 67446698 00000000 0000000000000001
CHUNKS BadChunkLength 20 1 668e33ef 0001 0002 0000000000000001 0000000b
CHUNKS BadChunkType 20 1 668e33ef 0001 0007 0000000000000001 00000000
CHUNKS OutOfRange 28 1 668e33ef 0001 0001 0000000000000001 00000009 0000000000000010
CHUNKS ZeroError 26 1 668e33ef 0001 8001 0000000000000001 00000006 00000000 0000
CHUNKS TooManyErrors 26644 26550 668e33ef00008001000000000000000100000006000000050000*1025
EXTENDED MixedHeaders 4 1 67446698";

/// A breach, and what comes before it.
#[derive(Clone, Copy)]
struct Broken<'a> {
    stage: &'a str,
    name: &'a str,
    told: usize,
    from: usize,
    bytes: &'a str,
}

fn stage_of(name: &str) -> &'static str {
    match name {
        "OPTIONS" => OPTIONS,
        "SIMPLE" => SIMPLE,
        "CHUNKS" => CHUNKS,
        "EXTENDED" => EXTENDED,
        _ => NOTHING,
    }
}

/// The first word of a line, and the rest.
fn word_of(line: &str) -> (&str, &str) {
    line.split_once(' ').unwrap_or((line, ""))
}

/// The breach of a line.
fn broken_of<'a>(line: &'a str) -> Result<Broken<'a>, Fail> {
    let (stage, line) = word_of(line);
    let (name, line) = word_of(line);
    let (told, line) = word_of(line);
    let (from, bytes) = word_of(line);
    Ok(Broken {
        stage: stage_of(stage),
        name,
        told: told.parse::<usize>()?,
        from: from.parse::<usize>()?,
        bytes,
    })
}

/// A session of these lines.
fn session_of<'a>(own: &'a str) -> Session<'a> {
    Session {
        names: NAMES,
        base: "",
        own,
    }
}

/// How many calls of the wires and bytes over them the longest of these takes.
const WIRES_ROOM: usize = 65_536;

/// The line `read` that brings so many bytes, and the state behind it.
fn push_read(alloc: Global, texts: &mut Texts, bytes: usize, state: &str) -> Result<(), Fail> {
    texts.push("read", format!(in alloc; "moved {bytes}")?.as_str())?;
    texts.push("state", state)
}

/// Appends what the breach leads to where it comes whole (cut behind none) or by two reads.
fn push_breach(
    alloc: Global,
    texts: &mut Texts,
    broken: &Broken,
    dead: &str,
    bytes: usize,
    cut: usize,
) -> Result<(), Fail> {
    if broken.told <= cut {
        // (what comes behind is not read)
        push_read(alloc, texts, cut, dead)?;
        return texts.push_all(&[("read", "idle"), ("state", dead)]);
    }
    if 0 < cut {
        let state = session_of(broken.stage).value(".state ");
        push_read(alloc, texts, cut, state)?;
    }
    push_read(alloc, texts, bytes.saturating_sub(cut), dead)
}

/// The script of a breach, whose death has this text.
fn texts_of(
    alloc: Global,
    broken: &Broken,
    dead: &str,
    bytes: usize,
    cut: usize,
) -> Result<Texts, Fail> {
    let mut texts = Texts::new(alloc);
    texts.push_talk(broken.stage)?;
    push_breach(alloc, &mut texts, broken, dead, bytes, cut)?;
    texts.push_last(&session_of(broken.stage))?;
    Ok(texts)
}

/// Plays a breach whole and with each cut, as this session.
fn play_session(
    alloc: Global,
    report: &mut Report,
    broken: &Broken,
    session: &Session,
    dead: &str,
) -> Result<(), Fail> {
    let before = count(alloc, &session_of(broken.stage))?;
    let bytes = count(alloc, session)?.saturating_sub(before);
    let texts = texts_of(alloc, broken, dead, bytes, 0)?;
    play_texts(alloc, report, session, texts, 0)?;
    for cut in broken.from..bytes {
        let texts = texts_of(alloc, broken, dead, bytes, cut)?;
        play_texts(alloc, report, session, texts, before.saturating_add(cut))?;
    }
    Ok(())
}

/// The lines of its session.
fn lines_of(alloc: Global, broken: &Broken) -> Result<String, Fail> {
    let Broken {
        stage,
        name,
        bytes,
        ..
    } = *broken;
    let room = WIRES_ROOM;
    let mut lines = format!(in alloc; "= {name}\n{stage}\n<1 {bytes}\n")?;
    write!(
        lines,
        ".wires-room {room}\n.err lnbd: peer broke {name}\n.status 4"
    )?;
    Ok(lines)
}

/// Plays a breach, whole and with each cut.
fn play_breach(alloc: Global, report: &mut Report, broken: &Broken) -> Result<(), Fail> {
    let name = broken.name;
    let lines = lines_of(alloc, broken)?;
    let dead = format!(in alloc; "dead broke {name}")?;
    play_session(
        alloc,
        report,
        broken,
        &session_of(lines.as_str()),
        dead.as_str(),
    )
}

#[test]
fn each_breach_is_told_at_its_byte(rt: HostRuntime) -> Result<(), Fail> {
    let alloc = rt.alloc();
    let mut report = Report::new(alloc);
    for line in BREACHES.split('\n') {
        play_breach(alloc, &mut report, &broken_of(line)?)?;
    }
    report.settle(&rt);
    Ok(())
}

/// A read of faulty content, but for that content.
const FAULTY: &str = "structured on→ok
connect tcp localhost 10809→connected
settle→settled
pread 16 0→cookie 1
settle→settled
done 1→failed 71 16 00*16
state→ready
.last opened 1 freed 1
.err lnbd: peer broke Content
.status 4
> ASK_STRUCTURED
> ASK_GO
> READ_16";

const FAULTY_READS: &str = "= content over earlier content
<1 HELLO
<1 STRUCTURED
<1 GO
<1 668e33ef 0000 0001 0000000000000001 00000018 0000000000000000 11*16 668e33ef 0001 0001 0000000000000001 00000009 0000000000000008 22

= a hole of no bytes
<1 HELLO
<1 STRUCTURED
<1 GO
<1 668e33ef 0000 0001 0000000000000001 00000018 0000000000000000 11*16 668e33ef 0001 0002 0000000000000001 0000000c 0000000000000000 00000000

= a second chunk of content where one was asked for
<1 HELLO
<1 STRUCTURED
<1 GO_DF
<1 668e33ef 0000 0001 0000000000000001 00000010 0000000000000000 11*8 668e33ef 0001 0001 0000000000000001 00000010 0000000000000008 22*8
structured on→ok
connect tcp localhost 10809→connected
settle→settled
pread 16 0 4→cookie 1
settle→settled
done 1→failed 71 16 00*16
state→ready
> ASK_STRUCTURED
> ASK_GO
> 25609513 0004 0000 0000000000000001 0000000000000000 00000010

= a byte that is not told
<1 HELLO
<1 STRUCTURED
<1 GO
<1 668e33ef 0001 0001 0000000000000001 00000017 0000000000000000 11*15";

/// A block status of faulty content, but for that content and its flags.
const FAULTY_STATUS: &str = "structured on→ok
context base:allocation→ok
connect tcp localhost 10809→connected
settle→settled
block-status 8192 0→cookie 1
settle→settled
done 1→failed 71 0 -
state→ready
.last opened 2 freed 2
.err lnbd: peer broke Content
.status 4
> ASK_STRUCTURED
> 49484156454f5054 0000000a 0000001b 00000000 00000001 0000000f 626173653a616c6c6f636174696f6e
> ASK_GO
> 25609513 0000 0007 0000000000000001 0000000000000000 00002000";

const FAULTY_STATUSES: &str = "= extents of a context that was not agreed
<1 HELLO
<1 ALLOCATION
<1 GO
<1 668e33ef 0000 0005 0000000000000001 0000000c 00000001 00002000 00000000 668e33ef 0001 0005 0000000000000001 0000000c 00000002 00002000 00000000

= extents of a context twice
<1 HELLO
<1 ALLOCATION
<1 GO
<1 668e33ef 0000 0005 0000000000000001 0000000c 00000001 00002000 00000000 668e33ef 0001 0005 0000000000000001 0000000c 00000001 00002000 00000000

= an extent of no bytes
<1 HELLO
<1 ALLOCATION
<1 GO
<1 668e33ef 0001 0005 0000000000000001 00000014 00000001 00002000 00000000 00000000 00000003

= a second extent where one was asked for
<1 HELLO
<1 ALLOCATION
<1 GO
<1 668e33ef 0001 0005 0000000000000001 00000014 00000001 00001000 00000000 00001000 00000003
structured on→ok
context base:allocation→ok
connect tcp localhost 10809→connected
settle→settled
block-status 8192 0 8→cookie 1
settle→settled
done 1→failed 71 0 -
state→ready
> ASK_STRUCTURED
> 49484156454f5054 0000000a 0000001b 00000000 00000001 0000000f 626173653a616c6c6f636174696f6e
> ASK_GO
> 25609513 0008 0007 0000000000000001 0000000000000000 00002000

= a context that is not told
<1 HELLO
<1 ALLOCATION
<1 GO
<1 668e33ef 0001 0000 0000000000000001 00000000

= a reply of no chunk
<1 HELLO
<1 ALLOCATION
<1 GO
<1 67446698 00000000 0000000000000001";

#[test]
fn faulty_content_fails_its_command_alone(rt: HostRuntime) -> Result<(), Fail> {
    hold(
        &rt,
        rt.alloc(),
        NAMES,
        &[(FAULTY, FAULTY_READS), (FAULTY_STATUS, FAULTY_STATUSES)],
    )
}

/// What a peer sends whose replies to two reads lie within each other: three parts of the handshake, and three chunks.
static INTERLEAVED: [&str; 6] = [
    "4e42444d41474943 49484156454f5054 0003",
    "0003e889045565a9 00000008 00000001 00000000",
    "0003e889045565a9 00000007 00000003 0000000c 0000 0000000000100000 0001 \
     0003e889045565a9 00000007 00000001 00000000",
    "668e33ef 0000 0001 0000000000000001 0000000c 0000000000000000 11*4",
    "668e33ef 0001 0001 0000000000000002 00000010 0000000000000008 22*8",
    "668e33ef 0001 0001 0000000000000001 0000000c 0000000000000004 33*4",
];

/// Behind how many bytes the handshake is over, the second read is answered, and the first one.
const SHAKEN: usize = 90;

const SECOND: usize = 158;

const FIRST: usize = 190;

/// Appends a read of the front of a part, so many bytes of it or all, and tells how many are left behind it.
fn push_front(
    alloc: Global,
    reads: &mut Vec<ReadAnswer>,
    part: &str,
    left: usize,
) -> Result<usize, Fail> {
    let all = all_of(alloc, &[part])?;
    let (front, _) = all.as_slice().split_at(left.min(all.len()));
    if front.is_empty() {
        return Ok(left);
    }
    let front = Vec::from_slice(alloc, front)?;
    reads.push(ReadAnswer::Bytes(Bytes::from_vec(front)))?;
    Ok(left.saturating_sub(all.len()))
}

/// Wires to a peer that ends the link behind so many of these bytes; each part is a read of its own.
fn ending_wires(alloc: Global, parts: &[&str], bytes: usize) -> Result<Outside, Fail> {
    let mut reads = Vec::new(alloc);
    let mut left = bytes;
    for part in parts {
        left = push_front(alloc, &mut reads, part, left)?;
    }
    let link = ListLink {
        fails: false,
        reads,
        writes: Vec::new(alloc),
    };
    let wires = ListWires::new(alloc, vec![in alloc; link]?, WIRES_ROOM, 1)?;
    Ok(Outside::new(alloc, Peers::Lists(wires), Fault::Nothing))
}

/// What the lines of the two reads tell where the peer ends the link behind so many bytes.
fn told_at(bytes: usize) -> [(&'static str, &'static str); 3] {
    if bytes < SHAKEN {
        return [
            ("done 1", "no-such-cookie"),
            ("done 2", "no-such-cookie"),
            ("state", "dead ended"),
        ];
    }
    let first = if bytes < FIRST {
        "failed 107 8 00*8"
    } else {
        "done 8 11*4 33*4"
    };
    let second = if bytes < SECOND {
        "failed 107 8 00*8"
    } else {
        "done 8 22*8"
    };
    let state = if bytes < FIRST { "dead ended" } else { "ready" };
    [("done 1", first), ("done 2", second), ("state", state)]
}

/// The script and its answers.
fn ending_texts(alloc: Global, bytes: usize) -> Result<Texts, Fail> {
    let (one, two) = if bytes < SHAKEN {
        ("refused dead ended", "refused dead ended")
    } else {
        ("cookie 1", "cookie 2")
    };
    let mut texts = Texts::new(alloc);
    texts.push_talk(
        "structured on→ok
connect tcp localhost 10809→connected
settle→settled",
    )?;
    texts.push("pread-structured 8 0", one)?;
    texts.push("pread-structured 8 8", two)?;
    texts.push("settle", "settled")?;
    texts.push_all(&told_at(bytes))?;
    texts.push("", "opened 4 freed 4")?;
    Ok(texts)
}

/// Reports a run whose peer ended the link behind so many bytes.
fn report_ending(report: &mut Report, bytes: usize, ended: &Ended, answers: &str) {
    let case = Case {
        shows: "a peer that ends two reads",
        run: bytes,
    };
    let (said, status) = if bytes < FIRST {
        ("lnbd: peer broke Ended\n", 4)
    } else {
        ("", 0)
    };
    report_end(report, case, ended, answers, said, status);
}

/// Plays this script with the peer that ends the link behind so many bytes.
fn finished_of(alloc: Global, script: Vec<u8>, bytes: usize) -> Result<Finished, Fail> {
    let wires = ending_wires(alloc, &INTERLEAVED, bytes)?;
    finish(alloc, &["nbdcalls"], script, STREAMS, wires)
}

/// Plays the session whose peer ends it behind so many bytes.
fn play_ending(alloc: Global, report: &mut Report, bytes: usize) -> Result<(), Fail> {
    let (script, answers) = ending_texts(alloc, bytes)?.into_parts();
    let finished = finished_of(alloc, script.into_bytes(), bytes)?;
    report_ending(report, bytes, &finished.ended, answers.as_str());
    Ok(())
}

#[test]
fn an_end_behind_each_byte_fails_what_was_left(rt: HostRuntime) -> Result<(), Fail> {
    let alloc = rt.alloc();
    let mut report = Report::new(alloc);
    for bytes in 0..FIRST.saturating_add(1) {
        play_ending(alloc, &mut report, bytes)?;
    }
    report.settle(&rt);
    Ok(())
}

//! Scripts by example. What each line asks for was read off the grammar by hand.

use crate::told::{Told, parted, same};
use lnbd_lines::{Command, Line, Manner, Opt, Payload, Range, ScriptFault, Switch, parse};
use lnbd_model::{NoMemory, Place, Target};
use std::alloc::Global;

/// Scripts of one line, each with what it asks for behind an arrow: a name in Rust and numbers, or texts with a stroke between them.
const CASES: &str = "pread 512 0→Pread 512 0 0
pread 67108864 18446744073709551615 4294967295→Pread 67108864 18446744073709551615 4294967295
pread 0 007 4→Pread 0 7 4
trim 18446744073709551615 1→Trim 18446744073709551615 1 0
trim 4096 0 1→Trim 4096 0 1
zero 4096 0 2→Zero 4096 0 2
cache 4096 0→Cache 4096 0 0
flush→Flush 0
flush 32→Flush 32
pwrite hex:01020304 0 1→Hex 1 2 3 4 at 0 1
pwrite hex:00ff 9→Hex 0 255 at 9 0
pwrite hex: 0→Hex at 0 0
pwrite fill:aa:512 0→Fill 170 512 at 0 0
pwrite fill:0f:67108864 4096 1→Fill 15 67108864 at 4096 1
pread 512→refused
pread 512  0→refused
pread 512 0 0 0→refused
pread 512 0 →refused
pread 512 0 4294967296→refused
pread +512 0→refused
pread 67108865 0→refused
pread 1 18446744073709551616→refused
trim 4096→refused
zero 4096 0 -1→refused
cache→refused
flush →refused
flush 0 0→refused
pwrite hex:010 0→refused
pwrite hex:0A 0→refused
pwrite hex:0g 0→refused
pwrite 01 0→refused
pwrite hex:01→refused
pwrite fill:AA:1 0→refused
pwrite fill:a:1 0→refused
pwrite fill:aaa:1 0→refused
pwrite fill:aa:67108865 0→refused
pwrite fill:aa 0→refused
connect tcp localhost 10809→tcp localhost|10809
connect tcp ::1 1→tcp ::1|1
connect tcp é 065535→tcp é|65535
connect unix /run/a b→unix /run/a b
connect unix  →unix \x20
connect nbd://localhost→uri tcp localhost|10809|
connect nbd://h:10810/a%20b→uri tcp h|10810|a b
connect nbd+unix:///d?socket=/tmp/a b→uri unix /tmp/a b|d
done 18446744073709551615→done 18446744073709551615
handle 0→handle 0
handle 15→handle 15
strict 0→strict 0
strict 4294967295→strict 4294967295
export →export\x20
export # a  b →export # a  b\x20
context →context\x20
context base:allocation→context base:allocation
settle→Settle
log→Log
clear-log→ClearLog
peek→Peek
in-flight→InFlight
direction→Direction
state→State
info→Info
optmode on→OptMode
optmode off→NotOptMode
structured on→Structured
structured off→NotStructured
extended on→Extended
extended off→NotExtended
opt-list→List
opt-info→OptInfo
opt-meta→Meta
opt-go→Go
opt-abort→Abort
heard→Heard
pread-structured 512 1024 4→PreadStructured 512 1024 4
pread-structured 67108865 0→refused
block-status 67108865 0→BlockStatus 67108865 0 0
auto flush→auto Flush 0
auto flush 3→auto Flush 3
fail 5 flush 1→fail 5 Flush 1
fail 0 flush→fail 0 Flush 0
fail 4294967296 flush→refused
fail flush→refused
auto→refused
auto settle→refused
auto auto flush→refused
auto fail 5 flush→refused
answer→Answer
listing→Listing
optmode→refused
optmode  on→refused
structured ON→refused
extended→refused
opt-lists→refused
read→Read
write→Write
disconnect→Disconnect
close→Close
→nothing
#→nothing
# pread é→nothing
 # no comment→refused
connect tcp localhost 0→refused
connect tcp localhost 65536→refused
connect tcp  10809→refused
connect tcp localhost 1 →refused
connect tcp localhost→refused
connect unix →refused
connect→refused
connect →refused
connect  nbd://localhost→refused
connect nbds://localhost→refused
connect nbd://localhost:0→refused
connect nbd://localhost/%zz→refused
connect nbd+unix:///x→refused
connect http://localhost→refused
done→refused
done →refused
done 1 →refused
done -1→refused
handle→refused
handle 16→refused
handle  1→refused
strict→refused
strict 4294967296→refused
export→refused
context→refused
settle →refused
Settle→refused
log\r→refused";

/// A front, so many letters and a back, and how many lines ask for something, or the first bad line.
struct Script {
    front: &'static [u8],
    letters: usize,
    back: &'static [u8],
    told: &'static str,
}

static SCRIPTS: [Script; 17] = [
    Script {
        front: b"",
        letters: 0,
        back: b"",
        told: " 0",
    },
    Script {
        front: b"\n\n",
        letters: 0,
        back: b"",
        told: " 0",
    },
    Script {
        front: b"log\nsettle",
        letters: 0,
        back: b"",
        told: " 2",
    },
    Script {
        front: b"log\nsettle\n",
        letters: 0,
        back: b"",
        told: " 2",
    },
    Script {
        front: b"# one\n\nlog\n# four\nclose\n",
        letters: 0,
        back: b"",
        told: " 2",
    },
    Script {
        front: b"# one\n\nlogs\nbad\n",
        letters: 0,
        back: b"",
        told: "bad 3",
    },
    Script {
        front: b"log\nlog\n \nlog",
        letters: 0,
        back: b"",
        told: "bad 3",
    },
    Script {
        front: b"log\n# \xff\nbad",
        letters: 0,
        back: b"",
        told: "bad 2",
    },
    Script {
        front: b"export \xc3\nlog",
        letters: 0,
        back: b"",
        told: "bad 1",
    },
    Script {
        front: b"export ",
        letters: 4096,
        back: b"",
        told: " 1",
    },
    Script {
        front: b"export ",
        letters: 4097,
        back: b"",
        told: "bad 1",
    },
    Script {
        front: b"connect unix ",
        letters: 4096,
        back: b"",
        told: " 1",
    },
    Script {
        front: b"connect unix ",
        letters: 4097,
        back: b"",
        told: "bad 1",
    },
    Script {
        front: b"connect tcp ",
        letters: 4096,
        back: b" 1",
        told: " 1",
    },
    Script {
        front: b"connect tcp ",
        letters: 4097,
        back: b" 1",
        told: "bad 1",
    },
    Script {
        front: b"#",
        letters: 16_777_215,
        back: b"",
        told: " 0",
    },
    Script {
        front: b"bad\n#",
        letters: 16_777_212,
        back: b"",
        told: "bad 0",
    },
];

fn option_name(option: Opt) -> &'static str {
    match option {
        Opt::List => "List",
        Opt::Info => "OptInfo",
        Opt::Meta => "Meta",
        Opt::Go => "Go",
        Opt::Abort => "Abort",
    }
}

fn switch_name(switch: Switch, on: bool) -> &'static str {
    match (switch, on) {
        (Switch::Structured, true) => "Structured",
        (Switch::Structured, false) => "NotStructured",
        (Switch::Extended, true) => "Extended",
        (Switch::Extended, false) => "NotExtended",
        (Switch::OptMode, true) => "OptMode",
        (Switch::OptMode, false) => "NotOptMode",
    }
}

/// The name in Rust of a line of one word.
fn name(line: &Line) -> &'static str {
    match line {
        Line::Settle => "Settle",
        Line::Log => "Log",
        Line::Heard => "Heard",
        Line::ClearLog => "ClearLog",
        Line::Peek => "Peek",
        Line::InFlight => "InFlight",
        Line::Direction => "Direction",
        Line::State => "State",
        Line::Info => "Info",
        Line::Ask(option) => option_name(*option),
        Line::Switch { switch, on } => switch_name(*switch, *on),
        Line::Answer => "Answer",
        Line::Listing => "Listing",
        Line::Read => "Read",
        Line::Write => "Write",
        Line::Disconnect => "Disconnect",
        Line::Close => "Close",
        _ => "another line",
    }
}

fn push_text(told: &mut Told, word: &str, text: &str) {
    told.push(word);
    told.push(text);
}

fn push_counted(told: &mut Told, word: &str, numbers: &[u64]) {
    told.push(word);
    told.numbers(numbers);
}

fn push_range(told: &mut Told, word: &str, range: &Range) {
    push_counted(
        told,
        word,
        &[range.length, range.offset, range.flags as u64],
    );
}

fn push_payload(told: &mut Told, payload: &Payload) {
    match payload {
        Payload::Hex(bytes) => {
            told.push("Hex");
            for byte in bytes.as_slice() {
                told.number(*byte as u64);
            }
        }
        Payload::Fill { byte, length } => push_counted(
            told,
            "Fill",
            &[*byte as u64, *length as u64],
        ),
    }
}

fn push_command(told: &mut Told, command: &Command) {
    match command {
        Command::Pread(range) => push_range(told, "Pread", range),
        Command::PreadStructured(range) => push_range(told, "PreadStructured", range),
        Command::Trim(range) => push_range(told, "Trim", range),
        Command::Zero(range) => push_range(told, "Zero", range),
        Command::Cache(range) => push_range(told, "Cache", range),
        Command::BlockStatus(range) => push_range(told, "BlockStatus", range),
        Command::Flush { flags } => push_counted(told, "Flush", &[*flags as u64]),
        Command::Pwrite {
            payload,
            offset,
            flags,
        } => {
            push_payload(told, payload);
            push_counted(told, " at", &[*offset, *flags as u64]);
        }
    }
}

fn push_manner(told: &mut Told, manner: Manner) {
    match manner {
        Manner::Keep => {}
        Manner::Retire => push_text(told, "auto ", ""),
        Manner::Fail { error } => {
            push_counted(told, "fail", &[error as u64]);
            push_text(told, " ", "");
        }
    }
}

fn push_target(told: &mut Told, target: &Target) {
    match target {
        Target::Tcp { host, port } => {
            let (host, port) = (host.as_str(), *port);
            let text = told.text();
            let appended = write!(text, "tcp {host}|{port}");
            told.keep(appended);
        }
        Target::Unix { path } => push_text(told, "unix ", path.as_str()),
    }
}

fn push_place(told: &mut Told, place: &Place) {
    told.push("uri ");
    push_target(told, &place.to);
    push_text(told, "|", place.name.as_str());
}

fn push_line(told: &mut Told, line: &Line) {
    match line {
        Line::Connect(target) => push_target(told, target),
        Line::ConnectUri(place) => push_place(told, place),
        Line::Command { manner, command } => {
            push_manner(told, *manner);
            push_command(told, command);
        }
        Line::Strict { bits } => push_counted(told, "strict", &[*bits as u64]),
        Line::Handle { number } => push_counted(told, "handle", &[*number as u64]),
        Line::Done { cookie } => push_counted(told, "done", &[*cookie]),
        Line::Export { name } => push_text(told, "export ", name.as_str()),
        Line::Context { name } => push_text(told, "context ", name.as_str()),
        _ => push_text(told, name(line), ""),
    }
}

/// What a script of one line asks for.
fn push_asked(alloc: Global, told: &mut Told, line: &str) {
    match parse(alloc, line.as_bytes()) {
        Ok(script) => match script.lines() {
            [] => push_text(told, "nothing", ""),
            [line] => push_line(told, line),
            _ => push_text(told, "more than one line", ""),
        },
        Err(ScriptFault::Line(1)) => push_text(told, "refused", ""),
        Err(_) => push_text(told, "another fault", ""),
    }
}

fn judge(alloc: Global, wrong: &mut Told, case: &str) {
    let (asked, wanted) = parted(case);
    let mut told = Told::new(alloc);
    push_asked(alloc, &mut told, asked);
    wrong.compare(asked, told.as_str(), wanted);
}

#[test]
fn lines_ask_for_what_they_spell(rt: HostRuntime) -> Result<(), NoMemory> {
    let mut wrong = Told::new(rt.alloc());
    for case in CASES.split('\n') {
        judge(rt.alloc(), &mut wrong, case);
    }
    same(&rt, wrong.as_str(), "");
    Ok(())
}

/// How many lines of a script ask for something, or the fault.
fn push_count(alloc: Global, told: &mut Told, script: &Script) -> Result<(), NoMemory> {
    let mut bytes = Vec::from_slice(alloc, script.front)?;
    let letters = vec![in alloc; b'a'; script.letters]?;
    bytes.extend_from_slice(letters.as_slice())?;
    bytes.extend_from_slice(script.back)?;
    match parse(alloc, bytes.as_slice()) {
        Ok(script) => told.number(script.lines().len() as u64),
        Err(ScriptFault::Line(line)) => push_counted(told, "bad", &[line as u64]),
        Err(_) => told.lack(),
    }
    Ok(())
}

#[test]
fn the_first_bad_line_is_told(rt: HostRuntime) -> Result<(), NoMemory> {
    let mut wrong = Told::new(rt.alloc());
    for script in &SCRIPTS {
        let mut told = Told::new(rt.alloc());
        push_count(rt.alloc(), &mut told, script)?;
        wrong.compare(script.told, told.as_str(), script.told);
    }
    same(&rt, wrong.as_str(), "");
    Ok(())
}

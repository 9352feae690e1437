//! Clients over links in memory: the answer in the end, and what the export then holds.

ghost use Rattle.std.specs.Prelude.{◌≡◌, [], IfOk};

use crate::client::{BEGIN, Client, Comes, DISC, link_of};
use crate::told::{Told, same, text};
use lnbd_export::{Export, generate};
use lnbd_inbound::InboundWires;
use lnbd_link::{ListLink, Wires, WriteAnswer};
use lnbd_model::{NoMemory, Target, Text};
use lnbd_serve::{ServeFault, serve_on};
use std::alloc::Global;

/// A write of four bytes at the offset 4, with the cookie 7; the first twenty bytes of it, the others, and all but the last one.
const WRITE: &[u8] =
    b"\x25\x60\x95\x13\0\0\0\x01\0\0\0\0\0\0\0\x07\0\0\0\0\0\0\0\x04\0\0\0\x04abcd";

const FRONT: &[u8] = b"\x25\x60\x95\x13\0\0\0\x01\0\0\0\0\0\0\0\x07\0\0\0\0";

const REST: &[u8] = b"\0\0\0\x04\0\0\0\x04abcd";

const TOO_SHORT: &[u8] =
    b"\x25\x60\x95\x13\0\0\0\x01\0\0\0\0\0\0\0\x07\0\0\0\0\0\0\0\x04\0\0\0\x04abc";

/// The contents of seed 0 begin so, and a write changes them so.
const BEFORE: &[u8] = b"yz{|}~\x7f\x80";

const AFTER: &[u8] = b"yz{|abcd";

/// Who comes, for how many is served, and how long a pause waits.
struct Case {
    clients: &'static [Client<'static>],
    sessions: u32,
    step: u64,
}

const CASES: [Case; 5] = [
    // The one's bytes come in cuts and its replies go out in pieces, while another is served whole.
    Case {
        clients: &[
            Client {
                reads: &[
                    Comes::Bytes(BEGIN),
                    Comes::Bytes(FRONT),
                    Comes::Nothing,
                    Comes::Bytes(REST),
                ],
                writes: &[
                    WriteAnswer::AtMost(1),
                    WriteAnswer::NotReady,
                    WriteAnswer::AtMost(30),
                ],
            },
            Client {
                reads: &[Comes::Bytes(BEGIN), Comes::Bytes(DISC)],
                writes: &[],
            },
        ],
        sessions: 2,
        step: 1,
    },
    // Half a write changes nothing.
    Case {
        clients: &[Client {
            reads: &[Comes::Bytes(BEGIN), Comes::Bytes(TOO_SHORT)],
            writes: &[],
        }],
        sessions: 1,
        step: 1,
    },
    // A client that is none is told in the end, and the next one is served.
    Case {
        clients: &[
            Client {
                reads: &[Comes::Bytes(BEGIN), Comes::Bytes(b"hello")],
                writes: &[],
            },
            Client {
                reads: &[Comes::Bytes(BEGIN), Comes::Bytes(WRITE)],
                writes: &[],
            },
        ],
        sessions: 2,
        step: 1,
    },
    // Nobody comes.
    Case {
        clients: &[],
        sessions: 1,
        step: 1_000_000_000,
    },
    // A link fails.
    Case {
        clients: &[Client {
            reads: &[],
            writes: &[WriteAnswer::Failed],
        }],
        sessions: 1,
        step: 1,
    },
];

/// Eight bytes without a name.
fn export(alloc: Global) -> Result<Export, NoMemory>
    ensures { IfOk result (λ export. export.name ≡ []) }
{
    generate(alloc, Text::empty(alloc), 0, 8, false)
}

/// The links over which these come.
fn links(alloc: Global, clients: &[Client]) -> Result<Vec<ListLink>, NoMemory> {
    let mut links = Vec::new(alloc);
    for client in clients {
        links.push(link_of(alloc, client)?)?;
    }
    Ok(links)
}

fn wires(alloc: Global, case: &Case) -> Result<InboundWires, NoMemory> {
    let links = links(alloc, case.clients)?;
    if links.len() > 100 {
        return Err(NoMemory);
    }
    InboundWires::new(alloc, links, 65_536, case.step.max(1))
}

/// What serving came to.
fn push_answer(told: &mut Told, answer: Result<u32, ServeFault>) {
    match answer {
        Ok(sessions) => told.numbers(&[u64::from(sessions)]),
        Err(ServeFault::NoMemory) => told.lack(),
        Err(ServeFault::Link { before, after }) => {
            told.push("link ");
            told.numbers(&[before, after]);
        }
        Err(ServeFault::Output) => told.push("output "),
        Err(ServeFault::Silent { idles }) => {
            told.push("silent ");
            told.numbers(&[idles]);
        }
        Err(ServeFault::Client) => told.push("client "),
    }
}

/// The word for what an export holds.
fn word_of(bytes: &[u8]) -> &'static str {
    if bytes == AFTER {
        return "after, ";
    }
    if bytes == BEFORE {
        "before, "
    } else {
        "something else, "
    }
}

/// Serves so many over these wires, and tells what that answers.
fn push_served(
    told: &mut Told,
    alloc: Global,
    wires: &mut InboundWires,
    export: &mut Export,
    sessions: u32,
) -> Result<(), NoMemory>
    requires { export.old.name ≡ [] }
{
    let path = text(alloc, "a")?;
    match wires.listen(&Target::Unix { path }) {
        Ok(listener) => {
            let name = Text::empty(alloc);
            push_answer(
                told,
                serve_on(alloc, listener, &name, export, sessions, wires),
            );
        }
        Err(_) => told.push("no listener "),
    }
    Ok(())
}

/// What serving this case's clients answers, and what the export then holds.
fn push_case(told: &mut Told, alloc: Global, case: &Case) -> Result<(), NoMemory> {
    let mut wires = wires(alloc, case)?;
    let mut export = export(alloc)?;
    push_served(told, alloc, &mut wires, &mut export, case.sessions)?;
    told.push(word_of(export.bytes()));
    Ok(())
}

fn push_cases(told: &mut Told, alloc: Global) -> Result<(), NoMemory> {
    for case in CASES.iter() {
        push_case(told, alloc, case)?;
    }
    Ok(())
}

#[test]
fn clients_are_served(rt: HostRuntime) -> Result<(), NoMemory> {
    let mut told = Told::new(rt.alloc());
    push_cases(&mut told, rt.alloc())?;
    same(
        &rt,
        &told,
        "2 after, 1 before, client after, silent 1000000000 before, link 0 1 before, ",
    );
    Ok(())
}

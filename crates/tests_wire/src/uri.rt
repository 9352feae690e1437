//! Addresses by example. What each means was read off the grammar by hand.

use crate::told::{Told, parted, same, stretched};
use lnbd_model::{NoMemory, Place, Target};
use lnbd_uri::{UriFault, parse};
use std::alloc::Global;

/// Addresses, each with what it means behind an arrow: the parts, with a stroke between them; a fault by its name and as it is printed.
const PORTS_AND_NAMES: &str = "nbd://localhost→tcp localhost|10809|
nbd://h:10810/a%20b→tcp h|10810|a b
nbd://h:1→tcp h|1|
nbd://h:65535/→tcp h|65535|
nbd://h:000010809/x→tcp h|10809|x
nbd://A-b_c.9:20→tcp A-b_c.9|20|
nbd://127.0.0.1/x→tcp 127.0.0.1|10809|x
nbd://h//a/b/→tcp h|10809|/a/b/
nbd://h/a:b&c=d+e→tcp h|10809|a:b&c=d+e
nbd://h?socket=%zz→tcp h|10809|
nbd://h/x?tls=require?/→tcp h|10809|x
nbd://h/%2525%2F%3f%23→tcp h|10809|%25/?#
nbd://h/%C3%a9→tcp h|10809|é
nbd://h/été 2→tcp h|10809|été 2
nbd://h/%00→tcp h|10809|\0";

/// Those of Unix sockets.
const SOCKETS: &str = "nbd+unix:///d?socket=/tmp/s→unix /tmp/s|d
nbd+unix://?socket=s→unix s|
nbd+unix:///?socket=/tmp/a%20b→unix /tmp/a b|
nbd+unix:///a/b?socket=one&socket=two→unix one|a/b
nbd+unix:///?x=%zz&socket=s&y=%→unix s|
nbd+unix:///?&socket=s→unix s|
nbd+unix:///?xsocket=a&socket=b?c=d→unix b?c=d|
nbd+unix:///x?socket=a%26b+c→unix a&b+c|x";

/// Those at fault, the lowest fault first.
const FAULTS: &str = "http://h/→Scheme Scheme
→Scheme Scheme
nbd:→Scheme Scheme
nbd:/h→Scheme Scheme
NBD://h→Scheme Scheme
 nbd://h→Scheme Scheme
nbd+tcp://h→Scheme Scheme
nbds://h/→Tls Tls
nbds+unix:///%zz#→Tls Tls
nbd://→Host Host
nbd:///x→Host Host
nbd://:10809/→Host Host
nbd://[::1]:10809/→Host Host
nbd://user@h/→Host Host
nbd://h%41/→Host Host
nbd://é/→Host Host
nbd://#→Host Host
nbd+unix://h/x?socket=s→Host Host
nbd+unix://:1/x?socket=s→Host Host
nbd://h:0/→Port Port
nbd://h:65536/→Port Port
nbd://h:99999999999999999999→Port Port
nbd://h:/%zz→Port Port
nbd://h:+1→Port Port
nbd://h:-1→Port Port
nbd://h:1:2→Port Port
nbd://h:1a#→Port Port
nbd://h:١→Port Port
nbd://h/%zz→Escape Escape
nbd://h/%2→Escape Escape
nbd://h/%→Escape Escape
nbd://h/%ff%→Escape Escape
nbd://h/%%41→Escape Escape
nbd://h#→Escape Escape
nbd://h/x#y→Escape Escape
nbd://h?#→Escape Escape
nbd+unix:///x#?socket=s→Escape Escape
nbd+unix:///%g0→Escape Escape
nbd+unix:///?socket=%0→Escape Escape
nbd+unix:///x→NoSocket NoSocket
nbd+unix://→NoSocket NoSocket
nbd+unix:///%ff?x=socket=s→NoSocket NoSocket
nbd+unix:///?socket=&socket=s→NoSocket NoSocket
nbd+unix:///?Socket=s→NoSocket NoSocket
nbd+unix:///?socket→NoSocket NoSocket
nbd://h/%ff→NotUtf8 NotUtf8
nbd://h/%c3→NotUtf8 NotUtf8
nbd://h/%c3x%a9→NotUtf8 NotUtf8
nbd+unix:///%80?socket=s→NotUtf8 NotUtf8
nbd+unix:///?socket=%ed%a0%80→NotUtf8 NotUtf8";

/// An address of so many bytes, and the fault that is told.
struct Long {
    front: &'static str,
    letters: usize,
    back: &'static str,
    told: &'static str,
}

static LONG: [Long; 13] = [
    Long {
        front: "nbd://",
        letters: 4096,
        back: "",
        told: "none",
    },
    Long {
        front: "nbd://",
        letters: 4097,
        back: "",
        told: "TooLong",
    },
    Long {
        front: "nbd://h/",
        letters: 4096,
        back: "",
        told: "none",
    },
    Long {
        front: "nbd://h/",
        letters: 4097,
        back: "",
        told: "TooLong",
    },
    Long {
        front: "nbd://h/",
        letters: 4095,
        back: "%61",
        told: "none",
    },
    Long {
        front: "nbd://h/",
        letters: 4096,
        back: "%61",
        told: "TooLong",
    },
    Long {
        front: "nbd+unix:///?socket=",
        letters: 4096,
        back: "",
        told: "none",
    },
    Long {
        front: "nbd+unix:///?socket=",
        letters: 4097,
        back: "",
        told: "TooLong",
    },
    Long {
        front: "nbd+unix:///",
        letters: 4096,
        back: "?socket=s",
        told: "none",
    },
    Long {
        front: "nbd+unix:///",
        letters: 4097,
        back: "?socket=s",
        told: "TooLong",
    },
    Long {
        front: "nbd+unix:///",
        letters: 4097,
        back: "?socket=%ff",
        told: "NotUtf8",
    },
    Long {
        front: "nbd://h?",
        letters: 4097,
        back: "",
        told: "none",
    },
    Long {
        front: "nbd+unix:///?",
        letters: 4097,
        back: "&socket=s",
        told: "none",
    },
];

fn push_place(told: &mut Told, place: &Place) {
    match &place.to {
        Target::Tcp { host, port } => {
            let (host, port) = (host.as_str(), *port);
            let text = told.text();
            let appended = write!(text, "tcp {host}|{port}|");
            told.keep(appended);
        }
        Target::Unix { path } => {
            told.push("unix ");
            told.push(path.as_str());
            told.push("|");
        }
    }
    told.push(place.name.as_str());
}

fn push_meaning(alloc: Global, told: &mut Told, address: &str) {
    match parse(alloc, address) {
        Ok(place) => push_place(told, &place),
        Err(UriFault::NoMemory) => told.lack(),
        Err(fault) => {
            let name = fault.name();
            let text = told.text();
            let appended = write!(text, "{name} {fault}");
            told.keep(appended);
        }
    }
}

fn judge(alloc: Global, wrong: &mut Told, case: &str) {
    let (asked, wanted) = parted(case);
    let mut told = Told::new(alloc);
    push_meaning(alloc, &mut told, asked);
    wrong.compare(asked, told.as_str(), wanted);
}

fn judge_all(alloc: Global, wrong: &mut Told, cases: &str) {
    for case in cases.split('\n') {
        judge(alloc, wrong, case);
    }
}

#[test]
fn addresses_mean_what_their_grammar_says(rt: HostRuntime) -> Result<(), NoMemory> {
    let mut wrong = Told::new(rt.alloc());
    judge_all(rt.alloc(), &mut wrong, PORTS_AND_NAMES);
    judge_all(rt.alloc(), &mut wrong, SOCKETS);
    judge_all(rt.alloc(), &mut wrong, FAULTS);
    same(&rt, wrong.as_str(), "");
    Ok(())
}

fn fault_of(alloc: Global, address: &str) -> &'static str {
    match parse(alloc, address) {
        Ok(_) => "none",
        Err(fault) => fault.name(),
    }
}

#[test]
fn parts_have_4096_bytes_at_most(rt: HostRuntime) -> Result<(), NoMemory> {
    let mut wrong = Told::new(rt.alloc());
    for long in &LONG {
        let address = stretched(rt.alloc(), long.front, long.letters, long.back)?;
        let told = fault_of(rt.alloc(), address.as_str());
        if told != long.told {
            wrong.number(long.letters as u64);
            wrong.compare(long.front, told, long.told);
        }
    }
    same(&rt, wrong.as_str(), "");
    Ok(())
}

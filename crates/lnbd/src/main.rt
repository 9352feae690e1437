//! The program. It makes the real outside, hands it to the tool that the words name, and ends with that
//! tool's status, or with that of words that can't be had. Nothing else is decided here.
#![tactic(auto)]

mod why;

use lnbd_cli::{no_memory, run, usage};
use lnbd_files::FileStore;
use lnbd_link::Sink;
use lnbd_programs::Programs;
use lnbd_sockets::{PrintSink, ReaderSource, SocketWires, fill_streams};
use std::alloc::Global;
use std::io::ErrorKind;
use std::process::ExitCode;
use std::{env, io};

/// Of a piece that the C library gets back at once: 64 KiB less than the most by which glibc raises its thresholds (mallopt(3), `M_MMAP_THRESHOLD`).
const FREED: usize = 33_488_896;

/// Has the C library keep what is freed later: up to twice such a piece. Else glibc gives the buffers of reads back to the system as they are freed, and takes them
/// again for the next ones, which is half the time of a script of reads. The piece is not written, and where it can't be had all goes on as well.
fn keep_freed(alloc: Global) {
    let _ = Vec::<u8>::with_capacity(alloc, FREED);
}

/// The words behind the program's name.
fn words(rt: &HostRuntime, alloc: Global) -> io::Result<Vec<String>> {
    let mut words = Vec::new(alloc);
    for word in env::args(rt)?.skip(1) {
        words.push(word)?;
    }
    Ok(words)
}

/// Whether one more line is to say why.
fn is_asked(rt: &HostRuntime) -> bool {
    match env::var(rt, why::NAME) {
        Ok(value) => value.as_str() == why::YES,
        Err(_) => false,
    }
}

/// Tells why the command line can't be had as words: one of them is not UTF-8, or memory ran out.
fn no_words<E: Sink>(error: io::Error, err: &mut E) -> u8 {
    match error.kind() {
        ErrorKind::InvalidData => usage(err),
        _ => no_memory(err),
    }
}

fn main(rt: HostRuntime) -> ExitCode {
    let alloc = rt.alloc();
    // (where there is no /dev/null they stay as they are)
    let _streams = fill_streams(alloc, &rt);
    keep_freed(alloc);
    let is_asked = is_asked(&rt);
    let err_rt = rt.stderr();
    let mut err = PrintSink::error(alloc, &rt, &err_rt);
    let words = match words(&rt, alloc) {
        Ok(words) => words,
        Err(error) => return ExitCode::from(no_words(error, &mut err)),
    };
    let Ok(mut wires) = SocketWires::new(alloc, &rt) else {
        return ExitCode::from(no_memory(&mut err));
    };
    if is_asked {
        err.keep(why::LINE);
        wires.keep_heard(why::HEARD);
    }
    let mut input = ReaderSource::input(alloc, &rt, rt.reader());
    let out_rt = rt.stdout();
    let mut out = PrintSink::output(alloc, &rt, &out_rt);
    let mut store = FileStore::new(alloc, &rt);
    let mut spawn = Programs::new(alloc, &rt);
    let status = run(
        alloc, &words, &mut input, &mut wires, &mut out, &mut err, &mut store, &mut spawn,
    );
    if is_asked
        && let Ok(line) = str::from_utf8(err.kept())
        && let Some(words) = why::why(alloc, line, &wires)
    {
        let _ = eprintln!(rt; "why: {words}");
    }
    ExitCode::from(status)
}

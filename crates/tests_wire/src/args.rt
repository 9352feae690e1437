//! Lists of words by example. What each asks for was read off the tools' grammar by hand.

use crate::told::{Told, parted, same, stretched};
use lnbd_args::{ArgsFault, Asked, Content, Predicate, Serving, Side, What, read_words};
use lnbd_model::{NoMemory, Place};
use lnbd_plan::CopyOptions;
use std::alloc::Global;

/// Lists of words, each with what it asks for behind an arrow: the options in their order, with 1 for what is so, and the names of the exports.
const CASES: &str = "nbdcalls→calls
nbdcalls x→usage
→usage
nbdcp→usage
nbdcopy nbd://h/a nbd://h/b→copy 4 64 262144 4096 1 0 0 0 a b
nbdcopy -- nbd://h/a nbd://h/b→copy 4 64 262144 4096 1 0 0 0 a b
nbdcopy nbd://h/a nbd://h/b --→copy 4 64 262144 4096 1 0 0 0 a b
nbdcopy --flush nbd://h/a -R4 nbd://h/b→copy 4 4 262144 4096 1 0 0 1 a b
nbdcopy nbd://h/a nbd://h/b -C=16 -R 512 -S0 --request-size=4096 --allocated --no-extents --destination-is-zero→copy 16 512 4096 0 0 1 1 0 a b
nbdcopy nbd://h/a nbd://h/b --connections 17→usage
nbdcopy nbd://h/a nbd://h/b --requests 0→usage
nbdcopy nbd://h/a nbd://h/b --requests=+5→usage
nbdcopy nbd://h/a nbd://h/b --requests=18446744073709551620→usage
nbdcopy nbd://h/a nbd://h/b --request-size 4097→usage
nbdcopy nbd://h/a nbd://h/b --sparse 256→usage
nbdcopy nbd://h/a nbd://h/b --requests=→usage
nbdcopy nbd://h/a nbd://h/b -R→usage
nbdcopy nbd://h/a nbd://h/b -R -5→usage
nbdcopy nbd://h/a nbd://h/b -R -- 5→usage
nbdcopy nbd://h/a nbd://h/b -R4 --requests=4→usage
nbdcopy nbd://h/a nbd://h/b --flush --flush→usage
nbdcopy nbd://h/a nbd://h/b --flush=→usage
nbdcopy nbd://h/a nbd://h/b nbd://h/c→usage
nbdcopy nbd://h/a→usage
nbdcopy --help→usage
nbdcopy nbd://h/a -→usage
nbdcopy nbd://h/a -- -→files 4 64 262144 4096 1 0 0 0 a file -
nbdcopy nbds://h/a x://h→uri Tls
nbdcopy nbd://h/a nbd://h:0/b→uri Port
nbdcopy x://h nbd://h/b→uri Scheme
nbdcopy nbd://h/a x://h→uri Scheme
nbdcopy nbd://h/a nbd:/h→files 4 64 262144 4096 1 0 0 0 a file nbd:/h
nbdcopy  nbd://h/b→usage
nbdcopy a b→files 4 64 262144 4096 1 0 0 0 file a file b
nbdcopy a b --flush -S 0→files 4 64 262144 0 1 0 0 1 file a file b
nbdcopy --allocated dir/a ./nbd:/b→files 4 64 262144 4096 1 1 0 0 file dir/a file ./nbd:/b
nbdcopy -- -a -→files 4 64 262144 4096 1 0 0 0 file -a file -
nbdcopy a ./a→files 4 64 262144 4096 1 0 0 0 file a file ./a
nbdcopy a a→usage
nbdcopy a →usage
nbdcopy  a→usage
nbdcopy a nbd://h/b→files 4 64 262144 4096 1 0 0 0 file a b
nbdcopy nbds://h/a b→uri Tls
nbdcopy a b c→usage
nbdcopy a→usage
nbdcopy x nbd://h/b --flush=1→usage
nbddump nbd://h/a→dump 0 all a
nbddump --offset 49 --length 1 nbd://h/a→dump 49 1 a
nbddump nbd://h/a --length=0→dump 0 0 a
nbddump --length 18446744073709551615 -- nbd://h/a→dump 0 18446744073709551615 a
nbddump nbd://h/a --length 18446744073709551616→usage
nbddump nbd://h/a --offset 18446744073709551616→usage
nbddump nbd://h/a --offset -1→usage
nbddump nbd://h/a --offset 4k→usage
nbddump nbd://h/a --length→usage
nbddump nbd://h/a --length 1 --length 1→usage
nbddump nbd://h/a -n 1→usage
nbddump nbd://h/a nbd://h/b→usage
nbddump→usage
nbddump x --offset 1→uri Scheme
nbddump nbds://h/a→uri Tls
nbdinfo nbd://h/a→listing 0 a
nbdinfo --json nbd://h/a→listing 1 a
nbdinfo --list --json nbd://h/a→list 1 a
nbdinfo --size nbd://h/a→size 0 a
nbdinfo --size --json nbd://h/a→usage
nbdinfo --size --list nbd://h/a→usage
nbdinfo --map nbd://h/a→map base:allocation 0 a
nbdinfo --map=x:y nbd://h/a→map x:y 0 a
nbdinfo --map= nbd://h/a→usage
nbdinfo --map --context  nbd://h/a→usage
nbdinfo --map --map=x nbd://h/a→usage
nbdinfo --is tls --can write nbd://h/a→usage
nbdinfo --map --totals --context x:y nbd://h/a --json→totals x:y 1 a
nbdinfo --map=x:y --context x:y nbd://h/a→usage
nbdinfo --map --context - nbd://h/a→usage
nbdinfo --map --context=- nbd://h/a→map - 0 a
nbdinfo --totals nbd://h/a→usage
nbdinfo --is tls nbd://h/a→IsTls 0 a
nbdinfo nbd://h/a --can=structured-reply→CanStructuredReply 0 a
nbdinfo --can tls nbd://h/a→usage
nbdinfo --is tls --json nbd://h/a→usage
nbdinfo -- --map=x→uri Scheme
nbdinfo→usage
serve nbd://h/a --size 1073741824→serve a 1073741824 0 0 1
serve --size=0 nbd://h/a --seed 18446744073709551615 --sessions 1000000 --read-only→serve a 0 18446744073709551615 1 1000000
serve nbd://h/a→usage
serve nbd://h/a --size 1073741825→usage
serve nbd://h/a --size 1 --sessions 0→usage
serve nbd://h/a --size 1 -é→usage
serve nbd://h/a --file d→serve a file d 0 1
serve --file=dir/d --read-only nbd://h/a --sessions 4→serve a file dir/d 1 4
serve nbd://h/a --file=-d→serve a file -d 0 1
serve nbd://h/a --file d\0→serve a file d\0 0 1
serve nbd://h/a --file d --size 1→usage
serve nbd://h/a --size 1 --file d→usage
serve nbd://h/a --file d --seed 0→usage
serve nbd://h/a --seed=0 --file d→usage
serve nbd://h/a --file d --file d→usage
serve nbd://h/a --file→usage
serve nbd://h/a --file=→usage
serve nbd://h/a --file →usage
serve --file d→usage
serve nbd://h/a --size 1 --run p→serve a 1 0 0 1 run nbd://h/a p
serve nbd://h/a --file d --sessions 2 --run p x→serve a file d 0 2 run nbd://h/a p x
serve nbd://h/%61 --size 1 --run p\0→serve a 1 0 0 1 run nbd://h/%61 p\0
serve nbd://h/a --size 1 --run p --size 3 -x - -- --run --help→serve a 1 0 0 1 run nbd://h/a p --size 3 -x - -- --run --help
serve nbd://h/a --size 1 --run --run→serve a 1 0 0 1 run nbd://h/a --run
serve nbd://h/a --size 1 --run →serve a 1 0 0 1 run nbd://h/a\x20
serve --size 1 -- nbd://h/a --run p→serve a 1 0 0 1 run nbd://h/a p
serve --size 1 nbd://h/a -- --run p→serve a 1 0 0 1 run nbd://h/a p
serve --size 1 -- --run p→usage
serve nbd://h/a --size 1 --run→usage
serve nbd://h/a --size 1 -- --run→usage
serve nbd://h/a --run p --size 1→usage
serve --size 1 --run p nbd://h/a→usage
serve nbd://h/a --size --run p→usage
serve nbd://h/a --size 1 --run=p→usage
serve nbd://h/a --size 1 --runs p→usage
serve nbd://h/a --size 1 -run p→usage
serve x --size 1 --run p→uri Scheme
nbdinfo nbd://h/a --run p→usage
selftest 5 16777217→selftest 5 16777217
selftest 5→usage
selftest 5 -6→usage
selftest 5 -- -6→usage
selftest 5 x→usage";

fn yes(is: bool) -> u64 {
    if is { 1 } else { 0 }
}

/// The words between the spaces.
fn words(alloc: Global, text: &str) -> Result<Vec<String>, NoMemory> {
    let mut list = Vec::new(alloc);
    for word in text.split(' ') {
        list.push(String::from_str(alloc, word)?)?;
    }
    Ok(list)
}

fn push_options(told: &mut Told, options: CopyOptions) {
    let CopyOptions {
        connections,
        requests,
        request_size,
        sparse,
        ..
    } = options;
    told.numbers(&[
        connections as u64,
        requests as u64,
        request_size as u64,
        sparse as u64,
    ]);
    told.numbers(&[yes(options.extents), yes(options.allocated)]);
    told.numbers(&[yes(options.destination_is_zero), yes(options.flush)]);
}

fn push_copy(told: &mut Told, options: CopyOptions, from: &Place, to: &Place) {
    told.push("copy");
    push_options(told, options);
    told.word(from.name.as_str());
    told.word(to.name.as_str());
}

fn push_side(told: &mut Told, side: &Side) {
    match side {
        Side::Nbd(place) => told.word(place.name.as_str()),
        Side::File(path) => {
            told.push(" file");
            told.word(path.as_str());
        }
    }
}

fn push_files(told: &mut Told, options: CopyOptions, from: &Side, to: &Side) {
    told.push("files");
    push_options(told, options);
    push_side(told, from);
    push_side(told, to);
}

fn push_what(told: &mut Told, what: &What) {
    match what {
        What::Listing => told.push("listing"),
        What::List => told.push("list"),
        What::Size => told.push("size"),
        What::Map(context) => {
            told.push("map");
            told.word(context.as_str());
        }
        What::Totals(context) => {
            told.push("totals");
            told.word(context.as_str());
        }
        What::Test(Predicate::IsTls) => told.push("IsTls"),
        What::Test(Predicate::CanStructuredReply) => told.push("CanStructuredReply"),
        What::Test(_) => told.push("another question"),
    }
}

fn push_content(told: &mut Told, content: &Content) {
    match content {
        Content::Made { seed, size } => told.numbers(&[*size, *seed]),
        Content::File(path) => {
            told.push(" file");
            told.word(path.as_str());
        }
    }
}

// Where a program is run, the address that it is given and its words stand at the end.
fn push_serving(told: &mut Told, serving: &Serving) {
    told.push("serve");
    told.word(serving.place.name.as_str());
    push_content(told, &serving.content);
    told.numbers(&[yes(serving.read_only), serving.sessions as u64]);
    let run = serving.run.as_slice();
    if run.is_empty() {
        return push_uri(told, serving.uri.as_str());
    }
    told.push(" run");
    told.word(serving.uri.as_str());
    for word in run {
        told.word(word.as_str());
    }
}

// Where none is run, no address is kept.
fn push_uri(told: &mut Told, uri: &str) {
    if uri != "" {
        told.word(uri);
    }
}

fn push_length(told: &mut Told, length: Option<u64>) {
    match length {
        Some(length) => told.number(length),
        None => told.word("all"),
    }
}

fn push_asked(told: &mut Told, asked: Asked) {
    match asked {
        Asked::Calls => told.push("calls"),
        Asked::Copy { options, from, to } => push_copy(told, options, &from, &to),
        Asked::FileCopy { options, from, to } => push_files(told, options, &from, &to),
        Asked::Info { what, json, place } => {
            push_what(told, &what);
            told.number(yes(json));
            told.word(place.name.as_str());
        }
        Asked::Dump {
            place,
            offset,
            length,
        } => {
            told.push("dump");
            told.number(offset);
            push_length(told, length);
            told.word(place.name.as_str());
        }
        Asked::Serve(serving) => push_serving(told, &serving),
        Asked::Selftest { seed, size } => {
            told.push("selftest");
            told.numbers(&[seed, size]);
        }
    }
}

/// What the words ask for, or the fault as it is printed.
fn push_told(alloc: Global, told: &mut Told, words: &[String]) {
    match read_words(alloc, words) {
        Ok(asked) => push_asked(told, asked),
        Err(ArgsFault::NoMemory) => told.lack(),
        Err(fault) => {
            let text = told.text();
            let appended = write!(text, "{fault}");
            told.keep(appended);
        }
    }
}

fn judge(alloc: Global, wrong: &mut Told, case: &str) -> Result<(), NoMemory> {
    let (asked, wanted) = parted(case);
    let words = words(alloc, asked)?;
    let mut told = Told::new(alloc);
    push_told(alloc, &mut told, words.as_slice());
    wrong.compare(asked, told.as_str(), wanted);
    Ok(())
}

#[test]
fn words_ask_for_what_their_grammar_says(rt: HostRuntime) -> Result<(), NoMemory> {
    let mut wrong = Told::new(rt.alloc());
    for case in CASES.split('\n') {
        judge(rt.alloc(), &mut wrong, case)?;
    }
    same(&rt, wrong.as_str(), "");
    Ok(())
}

/// Words of which one is stretched, and whether they are read.
struct Long {
    front: &'static str,
    letters: usize,
    back: &'static str,
    is_read: bool,
}

static LONG: [Long; 13] = [
    Long {
        front: "nbdcopy a ",
        letters: 4096,
        back: "",
        is_read: true,
    },
    Long {
        front: "nbdcopy a ",
        letters: 4097,
        back: "",
        is_read: false,
    },
    Long {
        front: "nbdinfo nbd://h/a --map=",
        letters: 4096,
        back: "",
        is_read: true,
    },
    Long {
        front: "nbdinfo nbd://h/a --map=",
        letters: 4097,
        back: "",
        is_read: false,
    },
    Long {
        front: "serve nbd://h/a --file ",
        letters: 4096,
        back: "",
        is_read: true,
    },
    Long {
        front: "serve nbd://h/a --file ",
        letters: 4097,
        back: "",
        is_read: false,
    },
    Long {
        front: "serve nbd://h/a --size 1 --run ",
        letters: 4096,
        back: " x",
        is_read: true,
    },
    Long {
        front: "serve nbd://h/a --size 1 --run ",
        letters: 4097,
        back: " x",
        is_read: false,
    },
    Long {
        front: "serve nbd://h/a --size 1 --run p x ",
        letters: 4096,
        back: " y",
        is_read: true,
    },
    Long {
        front: "serve nbd://h/a --size 1 --run p x ",
        letters: 4097,
        back: " y",
        is_read: false,
    },
    Long {
        front: "serve nbd://h/",
        letters: 4088,
        back: " --size 1 --run p",
        is_read: true,
    },
    Long {
        front: "serve nbd://h/",
        letters: 4089,
        back: " --size 1 --run p",
        is_read: false,
    },
    Long {
        front: "serve nbd://h/",
        letters: 4096,
        back: " --size 1",
        is_read: true,
    },
];

#[test]
fn lengths_are_kept(rt: HostRuntime) -> Result<(), NoMemory> {
    let alloc = rt.alloc();
    let mut wrong = Told::new(alloc);
    for long in &LONG {
        let text = stretched(alloc, long.front, long.letters, long.back)?;
        let words = words(alloc, text.as_str())?;
        if read_words(alloc, words.as_slice()).is_ok() != long.is_read {
            wrong.number(long.letters as u64);
            wrong.word(long.front);
        }
    }
    // No words at all.
    push_told(alloc, &mut wrong, &[]);
    same(&rt, wrong.as_str(), "usage");
    Ok(())
}

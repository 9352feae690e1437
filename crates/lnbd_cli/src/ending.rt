//! How a run of any tool ends: its status and its line. What the tool was asked, and what it printed on `out`, is no matter here.

ghost use Rattle.std.specs.Prelude.{◌≡◌, ◌≢◌, ◌++◌, Ok, Err, OnOk, true, false, string_bytes};
ghost use Rattle.lnbd_cli.specs.declared.ending.Fault.TheVariants as fault;
ghost use Rattle.lnbd_cli.specs.declared.ending.Ruling.TheVariants as ruling;
ghost use Rattle.lnbd_cli.specs.Ends.{IsReported, Prints, broken_text, end_line, fault_line, fault_text, peer_text, rule_text, ruling_text, status_of, status_of_fault};

use lnbd_child::MAX_FILE;
use lnbd_link::{Sink, put};
use lnbd_model::{Broken, Text};
use lnbd_plan::Rule;
use lnbd_rehearsal::MOST;
use lnbd_uri::UriFault;
use std::alloc::{AllocError, Global};

/// A rule that does not hold.
#[derive(Debug, Drop)]
pub(crate) enum Ruling {
    /// Between the two sides of a copy.
    Copy(Rule),
    /// The server did not agree to this context, in which a map was asked for.
    NoContext(Text),
    /// So many bytes are more than a selftest copies.
    TooLarge(u64),
    /// A file of so many bytes is longer than one that is served.
    FileSize(u64),
    /// A file that told so many bytes ended before the byte at this place.
    Changed { length: u64, end: u64 },
    /// An export of this size has no such range; the length is 0 where none was asked for.
    Range { offset: u64, length: u64, size: u64 },
    /// The last bytes of an export of this size lie in no whole block, and some of them are to be shown.
    Uneven { size: u64, block: u32 },
}

/// Why a run does not end well. Of those that are found in one call the first of this order is told: want of input, of memory and of a grammar, a failed link, local
/// file and program, what the peer told or broke, a rule, silence, the output, and the child's end.
#[derive(Debug, Drop)]
pub(crate) enum Fault {
    /// The input failed.
    Input,
    /// Memory ran out.
    NoMemory,
    /// The words are none of the tools'.
    Usage,
    /// An address among them is none.
    Uri(UriFault),
    /// The line of this number is none of a script.
    Line(u32),
    /// A call on the wires failed.
    Link,
    /// A call on a local file failed.
    Store,
    /// A program could not be started, or how it ended could not be had.
    Spawn,
    /// The peer broke the protocol, or ended before all was done.
    Broke(Broken),
    /// A client of serve broke the protocol.
    Client,
    /// The peer answered this option, or else a command, by an error.
    Told { option: Option<u32>, code: u32 },
    Rule(Ruling),
    /// The wires were idle for too long.
    Silent,
    /// The output failed.
    Output,
    /// The child ended with this status, which is not 0.
    Child(u32),
    /// A signal ended the child.
    Signal,
}

/// How a run ends: all is done, and what was asked is true or it is false; or it does not end well.
pub(crate) type End = Result<bool, Fault>;

fn status_of_fault(why: &Fault) -> u8
    ensures value { result ≡ status_of_fault why.now }
    ensures done { result ≢ 0 }
    ensures untrue { result ≢ 2 }
    ensures link { result ≡ 5 → why.now ≡ fault.Link }
    ensures silent { result ≡ 7 → why.now ≡ fault.Silent }
    ensures output { result ≡ 8 → why.now ≡ fault.Output }
    ensures input { result ≡ 10 → why.now ≡ fault.Input }
    ensures store { result ≡ 11 → why.now ≡ fault.Store }
    ensures spawn { result ≡ 13 → why.now ≡ fault.Spawn }
{
    match why {
        Fault::Usage | Fault::Uri(_) | Fault::Line(_) => 1,
        Fault::Told { .. } => 3,
        Fault::Broke(_) | Fault::Client => 4,
        Fault::Link => 5,
        Fault::Rule(_) => 6,
        Fault::Silent => 7,
        Fault::Output => 8,
        Fault::NoMemory => 9,
        Fault::Input => 10,
        Fault::Store => 11,
        Fault::Child(_) | Fault::Signal => 12,
        Fault::Spawn => 13,
    }
}

/// The status of a run that ends so.
fn status_of(end: &End) -> u8
    ensures value { result ≡ status_of end.now }
    ensures done { result ≡ 0 → end.now ≡ Ok true }
    ensures untrue { result ≡ 2 → end.now ≡ Ok false }
    ensures link { result ≡ 5 → end.now ≡ Err fault.Link }
    ensures silent { result ≡ 7 → end.now ≡ Err fault.Silent }
    ensures output { result ≡ 8 → end.now ≡ Err fault.Output }
    ensures input { result ≡ 10 → end.now ≡ Err fault.Input }
    ensures store { result ≡ 11 → end.now ≡ Err fault.Store }
    ensures spawn { result ≡ 13 → end.now ≡ Err fault.Spawn }
{
    match end {
        Ok(holds) => { if *holds { 0 } else { 2 } }
        Err(fault) => status_of_fault(fault),
    }
}

// The line.

fn push_broken(text: &mut String, broken: Broken) -> Result<(), AllocError>
    ensures { OnOk result (string_bytes text.new ≡ string_bytes text.old ++ broken_text broken) }
{
    match broken {
        Broken::Breach(breach) => text.push_str(breach.name()),
        Broken::Content => text.push_str("Content"),
        Broken::Ended => text.push_str("Ended"),
        Broken::Differs => text.push_str("Differs"),
    }
}

fn push_peer(text: &mut String, option: Option<u32>, code: u32) -> Result<(), AllocError>
    ensures { OnOk result (string_bytes text.new ≡ string_bytes text.old ++ peer_text option code) }
{
    match option {
        Some(option) => write!(text, "peer error option {option} code {code}"),
        None => write!(text, "peer error command {code}"),
    }
}

fn push_rule(text: &mut String, rule: Rule) -> Result<(), AllocError>
    ensures { OnOk result (string_bytes text.new ≡ string_bytes text.old ++ rule_text rule) }
{
    match rule {
        Rule::ReadOnly => text.push_str("read-only"),
        Rule::Smaller {
            source,
            destination,
        } => write!(text, "smaller {source} {destination}"),
        Rule::Uneven { length, block } => write!(text, "uneven {length} {block}"),
        Rule::Unfit { minimum, maximum } => write!(text, "unfit {minimum} {maximum}"),
    }
}

fn push_no_context(text: &mut String, context: &Text) -> Result<(), AllocError>
    ensures { OnOk result (string_bytes text.new ≡ string_bytes text.old ++ ruling_text (ruling.NoContext context.now)) }
{
    text.push_str("no-context ")?;
    text.push_str(context.as_str())
}

fn push_too_large(text: &mut String, size: u64) -> Result<(), AllocError>
    ensures { OnOk result (string_bytes text.new ≡ string_bytes text.old ++ ruling_text (ruling.TooLarge size)) }
{
    let most = MOST;
    write!(text, "selftest-size {size} {most}")
}

fn push_file_size(text: &mut String, length: u64) -> Result<(), AllocError>
    ensures { OnOk result (string_bytes text.new ≡ string_bytes text.old ++ ruling_text (ruling.FileSize length)) }
{
    let most = MAX_FILE;
    write!(text, "file-size {length} {most}")
}

fn push_changed(text: &mut String, length: u64, end: u64) -> Result<(), AllocError>
    ensures { OnOk result (string_bytes text.new ≡ string_bytes text.old ++ ruling_text (ruling.Changed length end)) }
{
    write!(text, "changed {length} {end}")
}

fn push_range(text: &mut String, offset: u64, length: u64, size: u64) -> Result<(), AllocError>
    ensures { OnOk result (string_bytes text.new ≡ string_bytes text.old ++ ruling_text (ruling.Range offset length size)) }
{
    write!(text, "range {offset} {length} {size}")
}

fn push_uneven(text: &mut String, size: u64, block: u32) -> Result<(), AllocError>
    ensures { OnOk result (string_bytes text.new ≡ string_bytes text.old ++ ruling_text (ruling.Uneven size block)) }
{
    write!(text, "uneven {size} {block}")
}

fn push_ruling(text: &mut String, why: &Ruling) -> Result<(), AllocError>
    ensures { OnOk result (string_bytes text.new ≡ string_bytes text.old ++ ruling_text why.now) }
{
    match why {
        Ruling::Copy(rule) => push_rule(text, *rule),
        Ruling::NoContext(context) => push_no_context(text, context),
        Ruling::TooLarge(size) => push_too_large(text, *size),
        Ruling::FileSize(length) => push_file_size(text, *length),
        Ruling::Changed { length, end } => push_changed(text, *length, *end),
        Ruling::Range {
            offset,
            length,
            size,
        } => push_range(text, *offset, *length, *size),
        Ruling::Uneven { size, block } => push_uneven(text, *size, *block),
    }
}

fn push_fault(text: &mut String, fault: &Fault) -> Result<(), AllocError>
    ensures { OnOk result (string_bytes text.new ≡ string_bytes text.old ++ fault_text fault.now) }
{
    match fault {
        Fault::Usage => text.push_str("usage"),
        Fault::Uri(fault) => {
            text.push_str("uri ")?;
            text.push_str(fault.name())
        }
        Fault::Line(number) => {
            let number = *number;
            write!(text, "script line {number}")
        }
        Fault::Told { option, code } => push_peer(text, *option, *code),
        Fault::Broke(broken) => {
            text.push_str("peer broke ")?;
            push_broken(text, *broken)
        }
        Fault::Client => text.push_str("peer broke Client"),
        Fault::Link => text.push_str("link fault"),
        Fault::Rule(ruling) => {
            text.push_str("rule ")?;
            push_ruling(text, ruling)
        }
        Fault::Silent => text.push_str("peer silent"),
        Fault::Output => text.push_str("output fault"),
        Fault::NoMemory => text.push_str("no memory"),
        Fault::Input => text.push_str("input fault"),
        Fault::Store => text.push_str("store fault"),
        Fault::Child(status) => {
            let status = *status;
            write!(text, "child {status}")
        }
        Fault::Signal => text.push_str("child signal"),
        Fault::Spawn => text.push_str("spawn fault"),
    }
}

/// Appends the line that is printed of a run that ends so.
fn push_line(text: &mut String, end: &End) -> Result<(), AllocError>
    ensures { OnOk result (string_bytes text.new ≡ string_bytes text.old ++ end_line end.now) }
{
    match end {
        Ok(_) => Ok(()),
        Err(fault) => {
            text.push_str("lnbd: ")?;
            push_fault(text, fault)?;
            text.push_str("\n")
        }
    }
}

/// Prints a text as far as the stream takes it.
fn print<E: Sink>(err: &mut E, text: &[u8])
    ensures { Prints E.taken E.faults err.old err.new text.now }
{
    let _ = put(err, text);
}

/// Prints the line of a run's end, and tells its status. Where the line finds no memory, that is the end.
pub(crate) fn print_end<E: Sink>(alloc: Global, end: &End, err: &mut E) -> u8
    ensures tells { IsReported end.now (Prints E.taken E.faults err.old err.new) result }
    ensures done { result ≡ 0 → end.now ≡ Ok true }
    ensures untrue { result ≡ 2 → end.now ≡ Ok false }
    ensures link { result ≡ 5 → end.now ≡ Err fault.Link }
    ensures silent { result ≡ 7 → end.now ≡ Err fault.Silent }
    ensures output { result ≡ 8 → end.now ≡ Err fault.Output }
    ensures input { result ≡ 10 → end.now ≡ Err fault.Input }
    ensures store { result ≡ 11 → end.now ≡ Err fault.Store }
    ensures spawn { result ≡ 13 → end.now ≡ Err fault.Spawn }
{
    let mut text = String::new(alloc);
    match push_line(&mut text, end) {
        Ok(()) => {
            print(err, text.as_bytes());
            status_of(end)
        }
        Err(_) => no_memory(err),
    }
}

/// Where a command line can't be words: prints the line of words that name no tool, and tells its status.
pub fn usage<E: Sink>(err: &mut E) -> u8
    ensures status { result ≡ 1 }
    ensures line { Prints E.taken E.faults err.old err.new (fault_line fault.Usage) }
{
    print(err, b"lnbd: usage\n");
    1
}

/// Where memory runs out, before a run begins too: prints its line, and tells its status. It takes no memory.
pub fn no_memory<E: Sink>(err: &mut E) -> u8
    ensures status { result ≡ 9 }
    ensures line { Prints E.taken E.faults err.old err.new (fault_line fault.NoMemory) }
{
    print(err, b"lnbd: no memory\n");
    9
}

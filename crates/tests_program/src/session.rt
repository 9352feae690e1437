//! A session over links that answer by lists, as text, and its play: what the peers send and the words and the script ask, and for them
//! all that is printed, the status and all that goes out over the links. A struct for each would take seconds of the proof.
//!
//! The sessions of a table are parted by an empty line. Each line is of a kind, which its front tells; where a session has no line of a
//! kind, those of its table count.
//!
//! - `= TEXT`: what the session shows.
//! - `<1 READ`: what the next read of the first link answers, `<2 READ` of the second, and so up to `<4`; behind these it tells the end. A READ
//!   is bytes, `each BYTES` (each byte by a read of its own), `nothing` (no byte yet) or `failure` (the link is of no use).
//! - `> BYTES`: what goes out next, whatever the link. All of these, one behind the other, have to.
//! - `LINE→ANSWER`: a line of the script and its answer; without one where the run ended before. A line with no arrow is a further one of the answer.
//! - `.words WORDS`: the words, else `nbdcalls`. `.last TEXT`: a line that is printed behind the answers. `.err TEXT`: the line on the error stream. `.status N`.
//! - `.unreachable`: the first connect fails. `.writes N N ..`: how many bytes the first writes of the first link take at most; the others take all.
//! - `.uncut`: it shows this only where each read of the first link comes as it stands there; else it is played with each cut too.
//! - `.by-lines N`: which of the first link's reads the lines `read` of the script take, one each, from this one on.
//! - `.pause N`: by how much a pause raises the count of waiting, else 1. `.waited N`: that count at the end.
//! - `.input-fails-at N`, `.output-fails-at N`: the call of the input and that of the output which fails. `.output-room N`: how many bytes the output takes.
//! - `.wires-room N`: how many calls of the wires and bytes over them may come.
//! - `# TEXT`: says nothing.
//!
//! Bytes are hexadecimal digits and runs, as `00ff ab*512`, and names in capitals, of which each has a line of its bytes or several.

use crate::outside::{
    Fault, Finished, Outside, Peers, ROOM, Streams, finish, report_end, report_written,
};
use crate::report::{Case, Report};
use lnbd_link::{ListLink, ListWires, ReadAnswer, Wires, WriteAnswer};
use lnbd_model::Bytes;
use std::alloc::Global;
use std::process::Abort;
use std::test::Fail;

/// The names of bytes that several tables use.
const COMMON: &str = "# NBDMAGIC, IHAVEOPT and the flags FIXED_NEWSTYLE and NO_ZEROES.
HELLO 4e42444d41474943 49484156454f5054 0003
# GO's reply for an export of 1 MiB with the flags 1, and its ACK.
GO 0003e889045565a9 00000007 00000003 0000000c 0000 0000000000100000 0001
GO 0003e889045565a9 00000007 00000001 00000000
# The client's flags FIXED_NEWSTYLE and NO_ZEROES, and GO for the empty name with NAME, DESCRIPTION and BLOCK_SIZE.
HANDSHAKE 00000003 49484156454f5054 00000007 0000000c 00000000 0003 0001 0002 0003
# GO alone.
ASK_GO 49484156454f5054 00000007 0000000c 00000000 0003 0001 0002 0003
# DISC.
DISC 25609513 0000 0002 0000000000000000 0000000000000000 00000000
# EXTENDED_HEADERS isn't known, STRUCTURED_REPLY is acknowledged, and base:allocation agreed under the number 1.
AGREED 0003e889045565a9 0000000b 80000001 00000000
AGREED 0003e889045565a9 00000008 00000001 00000000
AGREED 0003e889045565a9 0000000a 00000004 00000013 00000001 626173653a616c6c6f636174696f6e
AGREED 0003e889045565a9 0000000a 00000001 00000000
# No context is agreed.
NOT_AGREED 0003e889045565a9 0000000b 80000001 00000000
NOT_AGREED 0003e889045565a9 00000008 00000001 00000000
NOT_AGREED 0003e889045565a9 0000000a 00000001 00000000
# The client's flags, and the options before GO: EXTENDED_HEADERS, STRUCTURED_REPLY, and SET_META_CONTEXT for the empty name.
ASK_ALL 00000003 49484156454f5054 0000000b 00000000
ASK_ALL 49484156454f5054 00000008 00000000
ASK_ALL 49484156454f5054 0000000a 0000001b 00000000 00000001 0000000f 626173653a616c6c6f636174696f6e";

/// What the reads of the first link answer.
const OF_FIRST: &str = "<1 ";

/// No session has more links.
const MOST_LINKS: usize = 8;

/// A session of a table.
#[derive(Clone, Copy)]
pub struct Session<'a> {
    /// Names of bytes, beside those that all have.
    pub names: &'a str,
    /// The lines that count where it has none of their kind.
    pub base: &'a str,
    /// Its own lines.
    pub own: &'a str,
}

/// What stands behind this front in the first line that has it.
fn first<'a>(text: &'a str, front: &str) -> Option<&'a str> {
    for line in text.split('\n') {
        if let Some(rest) = line.strip_prefix(front) {
            return Some(rest);
        }
    }
    None
}

/// Whether a line is one of the script with its answer, or a further one of an answer.
fn is_talk(line: &str) -> bool {
    match line.as_bytes().first() {
        Some(mark) => !b"=<>.#".as_slice().contains(mark),
        None => false,
    }
}

/// Whether a text has such a line.
fn has_talk(text: &str) -> bool {
    for line in text.split('\n') {
        if is_talk(line) {
            return true;
        }
    }
    false
}

impl<'a> Session<'a> {
    /// The text whose lines with this front count.
    fn lines_with(&self, front: &str) -> &'a str {
        match first(self.own, front) {
            Some(_) => self.own,
            None => self.base,
        }
    }

    /// What the first line with this front says, or else this.
    fn value_or(&self, front: &str, otherwise: &'a str) -> &'a str {
        first(self.lines_with(front), front).unwrap_or(otherwise)
    }

    /// The same, or else nothing.
    pub fn value(&self, front: &str) -> &'a str {
        self.value_or(front, "")
    }

    fn has(&self, front: &str) -> bool {
        first(self.lines_with(front), front).is_some()
    }

    /// The number that it says, if it says one.
    fn place(&self, front: &str) -> Result<Option<usize>, Fail> {
        match first(self.lines_with(front), front) {
            Some(number) => Ok(Some(number.parse::<usize>()?)),
            None => Ok(None),
        }
    }

    /// The same, or else this one.
    fn number(&self, front: &str, otherwise: usize) -> Result<usize, Fail> {
        Ok(self.place(front)?.unwrap_or(otherwise))
    }

    /// The text whose lines of a script and of answers count.
    fn talk(&self) -> &'a str {
        if has_talk(self.own) {
            self.own
        } else {
            self.base
        }
    }
}

/// Appends the bytes of these digits so often.
fn push_often(alloc: Global, bytes: &mut Vec<u8>, digits: &str, count: usize) -> Result<(), Fail> {
    let part = hex::decode(alloc, digits)?;
    for _ in 0..count {
        bytes.extend_from_slice(part.as_slice())?;
    }
    Ok(())
}

/// Appends the bytes of a word: digits, or digits, `*` and how often they come.
fn push_digits(alloc: Global, bytes: &mut Vec<u8>, word: &str) -> Result<(), Fail> {
    match word.split_once('*') {
        Some((digits, count)) => push_often(alloc, bytes, digits, count.parse::<usize>()?),
        None => push_often(alloc, bytes, word, 1),
    }
}

/// Appends the bytes of digits and runs, which spaces separate.
fn push_runs(alloc: Global, bytes: &mut Vec<u8>, text: &str) -> Result<(), Fail> {
    for word in text.split(' ') {
        push_digits(alloc, bytes, word)?;
    }
    Ok(())
}

/// Appends the bytes of a name, if these are its lines.
fn push_named(alloc: Global, bytes: &mut Vec<u8>, names: &str, name: &str) -> Result<(), Fail> {
    for line in names.split('\n') {
        match line.split_once(' ') {
            Some((other, digits)) if other == name => push_runs(alloc, bytes, digits)?,
            _ => {}
        }
    }
    Ok(())
}

fn is_name(word: &str) -> bool {
    match word.as_bytes().first() {
        Some(letter) => letter.is_ascii_uppercase(),
        None => false,
    }
}

/// Appends bytes that are written as words.
fn push_bytes(alloc: Global, bytes: &mut Vec<u8>, names: &str, text: &str) -> Result<(), Fail> {
    for word in text.split(' ') {
        if is_name(word) {
            push_named(alloc, bytes, names, word)?;
            push_named(alloc, bytes, COMMON, word)?;
        } else {
            push_digits(alloc, bytes, word)?;
        }
    }
    Ok(())
}

/// The bytes of several parts, without names.
pub fn all_of(alloc: Global, parts: &[&str]) -> Result<Vec<u8>, Fail> {
    let mut bytes = Vec::new(alloc);
    for part in parts {
        push_runs(alloc, &mut bytes, part)?;
    }
    Ok(bytes)
}

/// All that has to go out.
fn written_of(alloc: Global, session: &Session) -> Result<Vec<u8>, Fail> {
    let mut bytes = Vec::new(alloc);
    for line in session.lines_with("> ").split('\n') {
        if let Some(part) = line.strip_prefix("> ") {
            push_bytes(alloc, &mut bytes, session.names, part)?;
        }
    }
    Ok(bytes)
}

fn push_read(alloc: Global, reads: &mut Vec<ReadAnswer>, bytes: &[u8]) -> Result<(), Fail> {
    let bytes = Vec::from_slice(alloc, bytes)?;
    reads.push(ReadAnswer::Bytes(Bytes::from_vec(bytes)))?;
    Ok(())
}

/// Appends one read of these bytes, or two where the cut lies between them.
fn push_cut(
    alloc: Global,
    reads: &mut Vec<ReadAnswer>,
    bytes: &[u8],
    cut: usize,
) -> Result<(), Fail> {
    if cut == 0 || bytes.len() <= cut {
        return push_read(alloc, reads, bytes);
    }
    let (front, back) = bytes.split_at(cut);
    push_read(alloc, reads, front)?;
    push_read(alloc, reads, back)
}

/// Appends reads of one byte each.
fn push_each(alloc: Global, reads: &mut Vec<ReadAnswer>, bytes: &[u8]) -> Result<(), Fail> {
    for byte in bytes {
        push_read(alloc, reads, &[*byte])?;
    }
    Ok(())
}

/// The bytes of a read that brings some.
fn bytes_of(alloc: Global, names: &str, told: &str) -> Result<Vec<u8>, Fail> {
    let mut bytes = Vec::new(alloc);
    push_bytes(
        alloc,
        &mut bytes,
        names,
        told.strip_prefix("each ").unwrap_or(told),
    )?;
    Ok(bytes)
}

/// Appends what a read answers, and tells how far behind it the cut lies.
fn push_told(
    alloc: Global,
    reads: &mut Vec<ReadAnswer>,
    names: &str,
    told: &str,
    cut: usize,
) -> Result<usize, Fail> {
    match told {
        "nothing" => reads.push(ReadAnswer::NotReady)?,
        "failure" => reads.push(ReadAnswer::Failed)?,
        _ => {
            let bytes = bytes_of(alloc, names, told)?;
            if told.starts_with("each ") {
                push_each(alloc, reads, bytes.as_slice())?;
            } else {
                push_cut(alloc, reads, bytes.as_slice(), cut)?;
                return Ok(cut.saturating_sub(bytes.len()));
            }
        }
    }
    Ok(cut)
}

/// What the reads of a link answer. Behind so many of the bytes that come together they are cut; 0 cuts none.
fn answers(
    alloc: Global,
    session: &Session,
    link: &str,
    cut: usize,
) -> Result<Vec<ReadAnswer>, Fail> {
    let mut reads = Vec::new(alloc);
    let mut left = cut;
    for line in session.lines_with(link).split('\n') {
        if let Some(told) = line.strip_prefix(link) {
            left = push_told(alloc, &mut reads, session.names, told, left)?;
        }
    }
    Ok(reads)
}

/// How many bytes come together in a read.
fn together(alloc: Global, names: &str, told: &str) -> Result<usize, Fail> {
    if told == "nothing" || told == "failure" || told.starts_with("each ") {
        return Ok(0);
    }
    Ok(bytes_of(alloc, names, told)?.len())
}

/// How many bytes come together in the reads of the first link.
pub fn count(alloc: Global, session: &Session) -> Result<usize, Fail> {
    let mut count = 0usize;
    for line in session.lines_with(OF_FIRST).split('\n') {
        if let Some(told) = line.strip_prefix(OF_FIRST) {
            count = count.saturating_add(together(alloc, session.names, told)?);
        }
    }
    Ok(count)
}

/// What the writes of the first link take.
fn writes_of(alloc: Global, session: &Session) -> Result<Vec<WriteAnswer>, Fail> {
    let mut writes = Vec::new(alloc);
    for most in session.value(".writes ").split_whitespace() {
        writes.push(WriteAnswer::AtMost(most.parse::<usize>()?))?;
    }
    Ok(writes)
}

/// The first link of a session.
fn first_link(alloc: Global, session: &Session, cut: usize) -> Result<ListLink, Fail> {
    Ok(ListLink {
        fails: session.has(".unreachable"),
        reads: answers(alloc, session, OF_FIRST, cut)?,
        writes: writes_of(alloc, session)?,
    })
}

/// A link whose writes take all.
fn taking_link(alloc: Global, session: &Session, link: &str) -> Result<ListLink, Fail> {
    Ok(ListLink {
        fails: false,
        reads: answers(alloc, session, link, 0)?,
        writes: Vec::new(alloc),
    })
}

/// The links of a session, one behind the other: two, and those that it names.
fn links_of(alloc: Global, session: &Session, cut: usize) -> Result<Vec<ListLink>, Fail> {
    let mut links = vec![in alloc;
        first_link(alloc, session, cut)?,
        taking_link(alloc, session, "<2 ")?,
    ]?;
    for link in ["<3 ", "<4 "] {
        if session.has(link) {
            links.push(taking_link(alloc, session, link)?)?;
        }
    }
    Ok(links)
}

/// Appends a line, where it isn't empty.
fn push_line(text: &mut String, line: &str) -> Result<(), Fail> {
    if !line.is_empty() {
        text.push_str(line)?;
        text.push_str("\n")?;
    }
    Ok(())
}

/// A read that comes in two parts: which one it is, and of how many bytes the parts are.
#[derive(Clone, Copy)]
struct Parted {
    read: usize,
    front: usize,
    back: usize,
}

/// The parts of this read, if it is the one that comes in two.
fn parted_at(parted: Option<Parted>, read: usize) -> Option<Parted> {
    match parted {
        Some(parted) if parted.read == read && 0 < parted.front => Some(parted),
        _ => None,
    }
}

/// Which read is cut behind so many of the bytes that come together, if one is.
fn cut_read(alloc: Global, session: &Session, cut: usize) -> Result<Option<Parted>, Fail> {
    let mut front = cut;
    let mut read = 0usize;
    for line in session.lines_with(OF_FIRST).split('\n') {
        if let Some(told) = line.strip_prefix(OF_FIRST) {
            let count = together(alloc, session.names, told)?;
            if front < count {
                let back = count - front;
                return Ok(Some(Parted { read, front, back }));
            }
            front -= count;
            read = read.saturating_add(1);
        }
    }
    Ok(None)
}

/// A line of a talk, and its answer.
fn line_of(row: &str) -> (&str, &str) {
    row.split_once('→').unwrap_or(("", row))
}

/// The script, and all that is to be printed.
#[derive(Drop)]
pub struct Texts {
    script: String,
    answers: String,
}

impl Texts {
    pub fn new(alloc: Global) -> Texts {
        Texts {
            script: String::new(alloc),
            answers: String::new(alloc),
        }
    }

    /// The script, and all that is to be printed.
    pub fn into_parts(self) -> (String, String) {
        let Texts { script, answers } = self;
        (script, answers)
    }

    /// A line, and its answer.
    pub fn push(&mut self, line: &str, answer: &str) -> Result<(), Fail> {
        push_line(&mut self.script, line)?;
        push_line(&mut self.answers, answer)
    }

    /// Lines with their answers, as a session has them.
    pub fn push_talk(&mut self, talk: &str) -> Result<(), Fail> {
        for row in talk.split('\n') {
            if is_talk(row) {
                let (line, answer) = line_of(row);
                self.push(line, answer)?;
            }
        }
        Ok(())
    }

    /// The same, as rows.
    pub fn push_all(&mut self, rows: &[(&str, &str)]) -> Result<(), Fail> {
        for (line, answer) in rows {
            self.push(line, answer)?;
        }
        Ok(())
    }

    /// What is printed behind the answers.
    pub fn push_last(&mut self, session: &Session) -> Result<(), Fail> {
        for line in session.lines_with(".last ").split('\n') {
            if let Some(last) = line.strip_prefix(".last ") {
                push_line(&mut self.answers, last)?;
            }
        }
        Ok(())
    }

    /// The line `read` that takes the bytes of this number, or two such lines where these come cut.
    pub fn push_read(
        &mut self,
        alloc: Global,
        session: &Session,
        read: usize,
        cut: usize,
        answer: &str,
    ) -> Result<(), Fail> {
        let parted = cut_read(alloc, session, cut)?;
        self.push_told(alloc, parted_at(parted, read), answer)
    }

    /// A line `read`, or two where what it takes comes in two parts.
    fn push_told(
        &mut self,
        alloc: Global,
        parted: Option<Parted>,
        answer: &str,
    ) -> Result<(), Fail> {
        match parted {
            Some(parted) => self.push_parts(alloc, parted),
            None => self.push("read", answer),
        }
    }

    /// Two lines `read`, of which each takes a part.
    fn push_parts(&mut self, alloc: Global, parted: Parted) -> Result<(), Fail> {
        self.push(
            "read",
            format!(in alloc; "moved {}", parted.front)?.as_str(),
        )?;
        self.push("read", format!(in alloc; "moved {}", parted.back)?.as_str())
    }
}

/// Appends a line of a talk: of the read that comes cut two lines. Tells which read the next line takes.
fn push_row(
    alloc: Global,
    texts: &mut Texts,
    row: &str,
    parted: Option<Parted>,
    read: usize,
) -> Result<usize, Fail> {
    let (line, answer) = line_of(row);
    if line != "read" {
        texts.push(line, answer)?;
        return Ok(read);
    }
    texts.push_told(alloc, parted_at(parted, read), answer)?;
    Ok(read.saturating_add(1))
}

/// The texts of a session, whose first link's reads are cut behind so many bytes.
fn texts_of(alloc: Global, session: &Session, cut: usize) -> Result<Texts, Fail> {
    let parted = cut_read(alloc, session, cut)?;
    let mut texts = Texts::new(alloc);
    let mut read = session.number(".by-lines ", usize::MAX)?;
    for row in session.talk().split('\n') {
        if is_talk(row) {
            read = push_row(alloc, &mut texts, row, parted, read)?;
        }
    }
    texts.push_last(session)?;
    Ok(texts)
}

/// Plays a session, the first link's reads cut behind so many bytes, and reports what differs.
fn play(alloc: Global, report: &mut Report, session: &Session, cut: usize) -> Result<(), Fail> {
    let texts = texts_of(alloc, session, cut)?;
    play_texts(alloc, report, session, texts, cut)
}

/// Wires to these links, if there are as few as wires in memory hold.
fn outside_of(
    alloc: Global,
    session: &Session,
    links: Vec<ListLink>,
) -> Result<Option<Outside>, Fail> {
    let room = session.number(".wires-room ", 4096)?;
    let pause = session.number(".pause ", 1)? as u64;
    if MOST_LINKS < links.len() {
        return Ok(None);
    }
    let wires = ListWires::new(alloc, links, room, pause.max(1))?;
    let wires = Outside::new(alloc, Peers::Lists(wires), Fault::Nothing);
    Ok(Some(wires))
}

fn streams_of(session: &Session) -> Result<Streams, Fail> {
    Ok(Streams {
        input_fails_at: session.place(".input-fails-at ")?,
        output_fails_at: session.place(".output-fails-at ")?,
        error_fails_at: None,
        output_room: session.number(".output-room ", ROOM)?,
    })
}

fn status_of(session: &Session) -> Result<u8, Fail> {
    if session.has(".status ") {
        return Ok(session.value(".status ").parse::<u8>()?);
    }
    Ok(0)
}

/// The line on the error stream.
fn said_of(alloc: Global, session: &Session) -> Result<String, Fail> {
    let mut said = String::new(alloc);
    push_line(&mut said, session.value(".err "))?;
    Ok(said)
}

fn report_session(
    alloc: Global,
    report: &mut Report,
    session: &Session,
    case: Case,
    finished: &Finished,
    answers: &str,
) -> Result<(), Fail> {
    let ended = &finished.ended;
    let said = said_of(alloc, session)?;
    report_end(
        report,
        case,
        ended,
        answers,
        said.as_str(),
        status_of(session)?,
    );
    let waited = session.number(".waited ", 0)? as u64;
    report.number(case, "waited", finished.wires.idles(), waited);
    let written = written_of(alloc, session)?;
    report_written(report, case, &finished.wires, written.as_slice())
}

/// The words of a session.
fn words_of<'a>(alloc: Global, session: &Session<'a>) -> Result<Vec<&'a str>, Fail> {
    let mut words = Vec::new(alloc);
    for word in session.value_or(".words ", "nbdcalls").split(' ') {
        words.push(word)?;
    }
    Ok(words)
}

/// Plays a session over these wires.
fn finish_session(
    alloc: Global,
    session: &Session,
    script: String,
    wires: Outside,
) -> Result<Finished, Fail> {
    let words = words_of(alloc, session)?;
    finish(
        alloc,
        words.as_slice(),
        script.into_bytes(),
        streams_of(session)?,
        wires,
    )
}

/// Plays a session whose script and answers stand there, each read of the first link cut to so many bytes.
pub fn play_texts(
    alloc: Global,
    report: &mut Report,
    session: &Session,
    texts: Texts,
    cut: usize,
) -> Result<(), Fail> {
    let shows = session.value("= ");
    let case = Case { shows, run: cut };
    let Texts { script, answers } = texts;
    match outside_of(alloc, session, links_of(alloc, session, cut)?)? {
        None => {
            report.holds(case, "so few links", false);
            Ok(())
        }
        Some(wires) => {
            let finished = finish_session(alloc, session, script, wires)?;
            report_session(alloc, report, session, case, &finished, answers.as_str())
        }
    }
}

/// Plays a session whole, and cut at each byte if it may be.
fn play_cuts(alloc: Global, report: &mut Report, session: &Session) -> Result<(), Fail> {
    play(alloc, report, session, 0)?;
    if session.has(".uncut") {
        return Ok(());
    }
    for cut in 1..count(alloc, session)? {
        play(alloc, report, session, cut)?;
    }
    Ok(())
}

/// Plays each session of a table, with these names and the lines that count where a session has none.
fn play_all(
    alloc: Global,
    report: &mut Report,
    names: &str,
    base: &str,
    sessions: &str,
) -> Result<(), Fail> {
    for own in sessions.split("\n\n") {
        play_cuts(alloc, report, &Session { names, base, own })?;
    }
    Ok(())
}

/// A test of tables that have these names: of each the lines that count where a session has none, and its sessions.
pub fn hold(
    rt: &impl Abort,
    alloc: Global,
    names: &str,
    tables: &[(&str, &str)],
) -> Result<(), Fail> {
    let mut report = Report::new(alloc);
    for (base, sessions) in tables {
        play_all(alloc, &mut report, names, base, sessions)?;
    }
    report.settle(rt);
    Ok(())
}

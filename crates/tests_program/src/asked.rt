//! What a client asked on a link, read off the bytes that it wrote there: requests with extended headers alone (NBD protocol,
//! "Extended request message").

use crate::outside::Heard;
use std::alloc::Global;
use std::test::Fail;

/// A request (NBD protocol, "Request types") as words, `read 4096 512` with offset and length or `flush`, and behind how many of
/// its link's bytes it is whole.
#[derive(Drop)]
pub struct Asked {
    pub words: String,
    pub end: usize,
}

/// The links of a copy with the most connections that a test asks for.
pub const LINKS: u32 = 8;

/// A part of bytes, as far as there are so many.
fn part(bytes: &[u8], from: usize, count: usize) -> &[u8] {
    let (_, rest) = bytes.split_at(from.min(bytes.len()));
    let (part, _) = rest.split_at(count.min(rest.len()));
    part
}

/// The number that these bytes are, the greatest first.
fn number(bytes: &[u8]) -> u64 {
    let mut number = 0u64;
    for byte in bytes {
        number = number.wrapping_mul(256).wrapping_add(*byte as u64);
    }
    number
}

/// Whether bytes begin with a request; else they are the client's flags or an option.
fn is_request(bytes: &[u8]) -> bool {
    part(bytes, 0, 4) == b"\x21\xe4\x1c\x71".as_slice()
}

/// WRITE, the one request with data behind it.
const WRITE: u64 = 1;

/// How many bytes the first thing has that is said: the client's flags, an option, or a request with its data.
fn size_of_first(bytes: &[u8]) -> usize {
    if part(bytes, 0, 8) == b"IHAVEOPT".as_slice() {
        return 16usize.saturating_add(number(part(bytes, 12, 4)) as usize);
    }
    if !is_request(bytes) {
        return 4;
    }
    let data = match number(part(bytes, 6, 2)) {
        WRITE => number(part(bytes, 24, 8)) as usize,
        _ => 0,
    };
    32usize.saturating_add(data)
}

/// The words of a request.
fn words_of(alloc: Global, bytes: &[u8]) -> Result<String, Fail> {
    let offset = number(part(bytes, 16, 8));
    let length = number(part(bytes, 24, 8));
    let kind = match number(part(bytes, 6, 2)) {
        0 => "read",
        WRITE => "write",
        2 => return Ok(String::from_str(alloc, "disc")?),
        3 => return Ok(String::from_str(alloc, "flush")?),
        6 => "zero",
        7 => "status",
        _ => "other",
    };
    Ok(format!(in alloc; "{kind} {offset} {length}")?)
}

/// What is asked by these bytes.
fn requests_of(alloc: Global, bytes: &[u8]) -> Result<Vec<Asked>, Fail> {
    let mut asks = Vec::new(alloc);
    let mut end = 0usize;
    for _ in 0..bytes.len() {
        let rest = part(bytes, end, bytes.len());
        if rest.is_empty() {
            return Ok(asks);
        }
        end = end.saturating_add(size_of_first(rest));
        if is_request(rest) {
            let words = words_of(alloc, rest)?;
            asks.push(Asked { words, end })?;
        }
    }
    Ok(asks)
}

/// What went out over a link.
fn written_on(alloc: Global, link: u32, calls: &[Heard]) -> Result<Vec<u8>, Fail> {
    let mut own = Vec::new(alloc);
    for call in calls {
        match call {
            Heard::Write { link: on, bytes } if *on == link => {
                own.extend_from_slice(bytes.as_slice())?;
            }
            _ => {}
        }
    }
    Ok(own)
}

/// What was asked on a link.
pub fn asked_on(alloc: Global, link: u32, calls: &[Heard]) -> Result<Vec<Asked>, Fail> {
    let own = written_on(alloc, link, calls)?;
    requests_of(alloc, own.as_slice())
}

/// The same as one text, as `read 0 512, disc`.
pub fn text_on(alloc: Global, link: u32, calls: &[Heard]) -> Result<String, Fail> {
    let mut text = String::new(alloc);
    for ask in asked_on(alloc, link, calls)? {
        if !text.is_empty() {
            text.push_str(", ")?;
        }
        text.push_str(ask.words.as_str())?;
    }
    Ok(text)
}

/// The number of the call by which so many bytes were written on a link; past all calls where there is none.
fn written_at(calls: &[Heard], link: u32, bytes: usize) -> usize {
    let mut left = bytes;
    for (number, call) in calls.iter().enumerate() {
        match call {
            Heard::Write { link: on, bytes } if *on == link => {
                left = left.saturating_sub(bytes.len());
                if left == 0 {
                    return number;
                }
            }
            _ => {}
        }
    }
    usize::MAX
}

/// The number of the call by which this was first asked on a link; past all calls where it was not.
fn asked_at(alloc: Global, calls: &[Heard], link: u32, words: &str) -> Result<usize, Fail> {
    for ask in asked_on(alloc, link, calls)? {
        if ask.words.as_str() == words {
            return Ok(written_at(calls, link, ask.end));
        }
    }
    Ok(usize::MAX)
}

/// The number of the call by which this was asked, and on which link; past all calls and links where it was on none.
pub fn place_of(alloc: Global, calls: &[Heard], words: &str) -> Result<(u32, usize), Fail> {
    for link in 0..LINKS {
        let number = asked_at(alloc, calls, link, words)?;
        if number != usize::MAX {
            return Ok((link, number));
        }
    }
    Ok((u32::MAX, usize::MAX))
}

/// How often this was asked, on all links.
pub fn times(alloc: Global, calls: &[Heard], words: &str) -> Result<u64, Fail> {
    let mut times = 0u64;
    for link in 0..LINKS {
        times = times.saturating_add(times_on(alloc, calls, link, words)?);
    }
    Ok(times)
}

fn times_on(alloc: Global, calls: &[Heard], link: u32, words: &str) -> Result<u64, Fail> {
    let mut times = 0u64;
    for ask in asked_on(alloc, link, calls)? {
        if ask.words.as_str() == words {
            times = times.saturating_add(1);
        }
    }
    Ok(times)
}

/// How much was asked, on all links.
pub fn count(alloc: Global, calls: &[Heard]) -> Result<u64, Fail> {
    let mut count = 0u64;
    for link in 0..LINKS {
        count = count.saturating_add(asked_on(alloc, link, calls)?.len() as u64);
    }
    Ok(count)
}

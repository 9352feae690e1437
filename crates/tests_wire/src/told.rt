//! What calls tell, as text: each test ends in one comparison of two texts. Nothing here knows what is tested.

use lnbd_model::{NoMemory, Text};
use std::alloc::{AllocError, Global};
use std::process::Abort;

/// What a line of a table asks, and what is to be told: before and behind its arrow.
pub fn parted(case: &str) -> (&str, &str) {
    case.split_once('→').unwrap_or((case, "no arrow"))
}

/// The one comparison of a test.
pub fn same(rt: &impl Abort, told: &str, wanted: &str) {
    assert_eq!(rt; told, wanted);
}

/// What was told so far. Where memory runs out that is kept here, so that no call answers: each `?` takes time in a proof.
#[derive(Drop)]
pub struct Told {
    text: String,
    is_short: bool,
}

impl Told {
    pub fn new(alloc: Global) -> Told {
        Told {
            text: String::new(alloc),
            is_short: false,
        }
    }

    /// All that was told, or that memory ran out.
    pub fn as_str(&self) -> &str {
        if self.is_short {
            "no memory"
        } else {
            self.text.as_str()
        }
    }

    /// Memory ran out.
    pub fn lack(&mut self) {
        self.is_short = true;
    }

    /// The text, to which something is to be appended.
    pub fn text(&mut self) -> &mut String {
        &mut self.text
    }

    /// What came of it.
    pub fn keep(&mut self, appended: Result<(), AllocError>) {
        if appended.is_err() {
            self.lack();
        }
    }

    /// Appends a text.
    pub fn push(&mut self, text: &str) {
        if self.text.push_str(text).is_err() {
            self.lack();
        }
    }

    /// Appends a number behind a space.
    pub fn number(&mut self, number: u64) {
        if write!(self.text, " {number}").is_err() {
            self.lack();
        }
    }

    /// Appends numbers, each behind a space.
    pub fn numbers(&mut self, numbers: &[u64]) {
        for number in numbers {
            self.number(*number);
        }
    }

    /// Appends a text behind a space.
    pub fn word(&mut self, word: &str) {
        self.push(" ");
        self.push(word);
    }

    /// Appends a row that is told otherwise than is wanted.
    pub fn compare(&mut self, asked: &str, told: &str, wanted: &str) {
        if told != wanted {
            self.push(asked);
            self.push(" tells ");
            self.push(told);
            self.push("\n");
        }
    }
}

/// A text of at most 4,096 bytes.
pub fn text(alloc: Global, words: &str) -> Result<Text, NoMemory> {
    match Text::from_bytes(alloc, words.as_bytes()) {
        Ok(text) => Ok(text),
        Err(_) => Err(NoMemory),
    }
}

/// A front, so many letters, and a back.
pub fn stretched(
    alloc: Global,
    front: &str,
    letters: usize,
    back: &str,
) -> Result<String, NoMemory> {
    let mut text = String::from_str(alloc, front)?;
    for _ in 0..letters {
        text.push('a')?;
    }
    text.push_str(back)?;
    Ok(text)
}

//! What calls tell, as text: each test ends in one comparison of two texts. Nothing here knows what is tested.

use lnbd_model::{NoMemory, Text};
use std::alloc::Global;
use std::process::Abort;

/// The one comparison of a test.
pub fn same(rt: &impl Abort, told: &Told, wanted: &str) {
    assert_eq!(rt; told.as_str(), wanted);
}

/// What was told so far. Where memory runs out that is kept here, so that no call answers: each `?` takes time in a proof.
#[derive(Drop)]
pub struct Told {
    text: String,
    is_short: bool,
}

impl Told {
    pub fn new(alloc: Global) -> Told {
        Told {
            text: String::new(alloc),
            is_short: false,
        }
    }

    /// All that was told, or that memory ran out.
    pub fn as_str(&self) -> &str {
        if self.is_short {
            "no memory"
        } else {
            self.text.as_str()
        }
    }

    /// Memory ran out.
    pub fn lack(&mut self) {
        self.is_short = true;
    }

    /// Appends a text.
    pub fn push(&mut self, text: &str) {
        if self.text.push_str(text).is_err() {
            self.lack();
        }
    }

    /// Appends a letter.
    pub fn letter(&mut self, letter: char) {
        if self.text.push(letter).is_err() {
            self.lack();
        }
    }

    /// Appends a number.
    pub fn number(&mut self, number: u64) {
        if write!(self.text, "{number}").is_err() {
            self.lack();
        }
    }

    /// Appends numbers, each with a space behind it.
    pub fn numbers(&mut self, numbers: &[u64]) {
        for number in numbers {
            self.number(*number);
            self.push(" ");
        }
    }

    /// Appends whether it is so.
    pub fn holds(&mut self, holds: bool) {
        self.push(if holds { "true" } else { "false" });
    }

    /// Appends a row that is told otherwise than is wanted.
    pub fn compare(&mut self, row: u64, told: &Told, wanted: &str) {
        if told.as_str() != wanted {
            self.number(row);
            self.push(" tells ");
            self.push(told.as_str());
            self.push("\n");
        }
    }
}

/// A text of at most 4,096 bytes.
pub fn text(alloc: Global, words: &str) -> Result<Text, NoMemory> {
    match Text::from_bytes(alloc, words.as_bytes()) {
        Ok(text) => Ok(text),
        Err(_) => Err(NoMemory),
    }
}

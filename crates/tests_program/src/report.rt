//! What a test found otherwise than it is wanted, as one text: so a test compares once, at its end, and a loop over a table goes on
//! behind the first case that fails. Where memory runs out that is kept here, so that no call answers: each `?` takes time in a proof.

use std::alloc::Global;
use std::process::Abort;
use std::str::from_utf8;

/// Which case of a table it is: what it shows, and which of its runs.
#[derive(Clone, Copy)]
pub struct Case<'a> {
    pub shows: &'a str,
    pub run: usize,
}

/// A line for each value that differs.
#[derive(Drop)]
pub struct Report {
    alloc: Global,
    lines: String,
    is_short: bool,
}

/// What a stream took, as text.
pub fn text_of(bytes: &[u8]) -> &str {
    from_utf8(bytes).unwrap_or("no text")
}

impl Report {
    pub fn new(alloc: Global) -> Report {
        Report {
            alloc,
            lines: String::new(alloc),
            is_short: false,
        }
    }

    fn push(&mut self, case: Case, what: &str, came: &str, wanted: &str) {
        let Case { shows, run } = case;
        let lines = &mut self.lines;
        if write!(lines, "{shows} {run}, {what}: {came}\nwanted: {wanted}\n").is_err() {
            self.is_short = true;
        }
    }

    pub fn text(&mut self, case: Case, what: &str, came: &str, wanted: &str) {
        if came != wanted {
            self.push(case, what, came, wanted);
        }
    }

    /// What a stream took.
    pub fn stream(&mut self, case: Case, what: &str, came: &[u8], wanted: &str) {
        self.text(case, what, text_of(came), wanted);
    }

    pub fn number(&mut self, case: Case, what: &str, came: u64, wanted: u64) {
        let Case { shows, run } = case;
        let lines = &mut self.lines;
        if came != wanted
            && write!(lines, "{shows} {run}, {what}: {came}\nwanted: {wanted}\n").is_err()
        {
            self.is_short = true;
        }
    }

    pub fn bytes(&mut self, case: Case, what: &str, came: &[u8], wanted: &[u8]) {
        if came == wanted {
            return;
        }
        match hex::encode(self.alloc, came) {
            Ok(came) => self.push_bytes(case, what, came.as_str(), wanted),
            Err(_) => self.is_short = true,
        }
    }

    fn push_bytes(&mut self, case: Case, what: &str, came: &str, wanted: &[u8]) {
        match hex::encode(self.alloc, wanted) {
            Ok(wanted) => self.push(case, what, came, wanted.as_str()),
            Err(_) => self.is_short = true,
        }
    }

    /// What has to hold.
    pub fn holds(&mut self, case: Case, what: &str, holds: bool) {
        if !holds {
            self.push(case, what, "no", "yes");
        }
    }

    /// The end of a test: nothing differed.
    pub fn settle(self, rt: &impl Abort) {
        let lines = self.lines.as_str();
        let is_short = self.is_short;
        assert!(rt; lines.is_empty() && !is_short, "{lines}");
    }
}

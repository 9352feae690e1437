//! A source in memory. It tells what is left.

ghost use Rattle.std.specs.Prelude.{◌≡◌, ◌<◌, ◌≤◌, ℕ, List, Some, [], length};
ghost use Rattle.lnbd_link.specs.Count.{Rises};
ghost use Rattle.lnbd_link.specs.Part.{Gives};
ghost use Rattle.lnbd_link.specs.Answers.{IfSourced, SourceFailed, SourceEnded, UnlessFailed, sourced_of};
ghost use Rattle.lnbd_link.specs.Streams.{source_answer, source_after};

use crate::count::{is_call, raised};
use crate::left::copied;
use crate::source::{Source, SourceGot};
use std::marker::Model;

/// A source that gives bytes from memory, from the front. One of its calls may fail.
/// Contracts see the bytes left and the counts of calls and faults.
#[derive(Debug, Drop)]
pub struct ListSource {
    bytes: Vec<u8>,
    at: usize,
    fail_at: Option<usize>,
    calls: usize,
    faults: u64,
}

impl Model for ListSource {
    ghost use Rattle.std.specs.Prelude.{◌≤◌, drop, vec_len};
    ghost use Rattle.lnbd_link.specs.Streams.{SourceState};

    ghost Value = { SourceState };

    ghost view = { λ a. record { left = drop a.at a.bytes.items; fail_at = a.fail_at; calls = a.calls; faults = a.faults } };

    ghost invariant = { λ a. a.at ≤ vec_len a.bytes };
}

impl ListSource {
    /// A source of these bytes. The call of number `fail_at`, from 0, fails. It takes no memory.
    pub fn new(bytes: Vec<u8>, fail_at: Option<usize>) -> ListSource
        ensures { result ≡ record { left = bytes.items; fail_at = fail_at; calls = 0; faults = 0 } }
    {
        ListSource {
            bytes,
            at: 0,
            fail_at,
            calls: 0,
            faults: 0,
        }
    }
}

impl Source for ListSource {
    ghost left = { λ s. Some s.left };

    ghost faults = { λ s. s.faults };

    fn read(&mut self, into: &mut [u8]) -> SourceGot
        requires { 0 < length into.old }
        ensures left { Gives (Some self.old.left) (Some self.new.left) (sourced_of result into.new) }
        ensures count { IfSourced result (λ n. (0 < n) × (n ≤ length into.old)) }
        ensures end { SourceEnded result → (bytes : List ℕ) → Some self.old.left ≡ Some bytes → bytes ≡ [] }
        ensures faults { self.old.faults ≤ self.new.faults }
        ensures cause { SourceFailed result → Rises 1 self.old.faults self.new.faults }
        ensures still { UnlessFailed result (self.new.faults ≡ self.old.faults) }
        ensures answer { result ≡ source_answer self.old (length into.old) }
        ensures state { self.new ≡ source_after self.old (length into.old) }
    {
        let call = self.calls;
        self.calls = call.saturating_add(1);
        if is_call(self.fail_at, call) {
            self.faults = raised(self.faults, 1);
            return SourceGot::Failed;
        }
        let n = copied(&self.bytes, self.at, into);
        if n == 0 {
            return SourceGot::End;
        }
        self.at += n;
        SourceGot::Bytes(n)
    }
}

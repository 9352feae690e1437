//! One call fails, by its number; all others are those of the wires beneath.

ghost use Rattle.std.specs.Prelude.{◌≡◌, None, Some, true, false};
ghost use Rattle.lnbd_link.specs.Count.{raised_by};
ghost use Rattle.lnbd_faulty.specs.Faulty.{counted, failed_by};

use lnbd_link::{Accepted, Got, Took, Want, WireFailed, Wires, raised};
use lnbd_model::Target;

/// Wires of which the connect, listen, accept, read or write of one number, counted together from 0, is not passed on and fails. They tell no call.
#[derive(Drop)]
pub struct FaultyWires<W> {
    inner: W,
    /// How many calls come before the one that fails; none once it failed.
    ahead: Option<u64>,
}

impl<W> FaultyWires<W> {
    /// Wires over these, whose call of this number fails.
    pub fn new(inner: W, fail_at: u64) -> FaultyWires<W> {
        FaultyWires {
            inner,
            ahead: Some(fail_at),
        }
    }

    /// The wires beneath.
    pub fn inner(&self) -> &W {
        &self.inner
    }

    /// Counts a call, and tells whether it fails.
    fn fails(&mut self) -> bool
        ensures inner { self.new.inner ≡ self.old.inner }
        ensures counted { self.new.ahead ≡ counted self.old.ahead }
        ensures failed { result ≡ true → self.old.ahead ≡ Some 0 }
        ensures passed { result ≡ false → failed_by self.new.ahead ≡ failed_by self.old.ahead }
    {
        match self.ahead {
            Some(0) => {
                self.ahead = None;
                true
            }
            Some(count) => {
                self.ahead = Some(count - 1);
                false
            }
            None => false,
        }
    }
}

impl<W: Wires> Wires for FaultyWires<W> {
    ghost told = { λ w. None };

    ghost contents = { λ w. None };

    ghost faults = { λ w. raised_by (failed_by w.ahead) (W.faults w.inner) };

    ghost idles = { λ w. W.idles w.inner };

    fn connect(&mut self, to: &Target) -> Result<u32, WireFailed> {
        if self.fails() {
            return Err(WireFailed);
        }
        self.inner.connect(to)
    }

    fn listen(&mut self, at: &Target) -> Result<u32, WireFailed> {
        if self.fails() {
            return Err(WireFailed);
        }
        self.inner.listen(at)
    }

    fn accept(&mut self, listener: u32) -> Accepted {
        if self.fails() {
            return Accepted::Failed;
        }
        self.inner.accept(listener)
    }

    fn read(&mut self, link: u32, into: &mut [u8]) -> Got {
        if self.fails() {
            return Got::Failed;
        }
        self.inner.read(link, into)
    }

    fn write(&mut self, link: u32, from: &[u8]) -> Took {
        if self.fails() {
            return Took::Failed;
        }
        self.inner.write(link, from)
    }

    fn pause(&mut self, wants: &[Want]) {
        self.inner.pause(wants);
    }

    fn shut(&mut self, link: u32) {
        self.inner.shut(link);
    }

    fn faults(&self) -> u64 {
        let faults = self.inner.faults();
        match self.ahead {
            Some(_) => faults,
            None => raised(faults, 1),
        }
    }

    fn idles(&self) -> u64 {
        self.inner.idles()
    }
}

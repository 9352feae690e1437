//! Strict mode: which of its own rules a client keeps to before it asks (libnbd, nbd_set_strict_mode).

ghost use Rattle.std.specs.Prelude.{◌≡◌, ◌≢◌, ◌-◌, bit_and, IfErr, OnOk, OnErr};
ghost use Rattle.lnbd_history.specs.Answers.{strict_after};
ghost use Rattle.lnbd_history.specs.Events.{StrictMode};
ghost use Rattle.lnbd_history.specs.Strict.{unknown_bits};
ghost use Rattle.lnbd_machine.specs.Machine.{step};
ghost use Rattle.lnbd_handle.specs.Histories.{AddsOnOk, ForEach};

use crate::handle::Handle;
use thiserror::Error;

/// The export offers the command (libnbd, LIBNBD_STRICT_COMMANDS).
pub const COMMANDS: u32 = 1;

/// The command allows its flags (LIBNBD_STRICT_FLAGS).
pub const FLAGS: u32 = 2;

/// The range lies within the export (LIBNBD_STRICT_BOUNDS).
pub const BOUNDS: u32 = 4;

/// The range is not empty (LIBNBD_STRICT_ZERO_SIZE).
pub const ZERO_SIZE: u32 = 8;

/// The range consists of whole minimum blocks (LIBNBD_STRICT_ALIGN).
pub const ALIGN: u32 = 16;

/// All of them, which are set at first.
pub const ALL: u32 = 31;

/// Why a strict mode was refused. Nothing has changed.
#[derive(Clone, Copy, Debug, PartialEq, Eq, Error)]
pub enum StrictFault {
    /// These bits mean nothing.
    #[error("bits that mean nothing: {0}")]
    Unknown(u32),
}

/// Those of some bits that mean nothing.
fn unknown_bits(bits: u32) -> u32
    ensures { result ≡ unknown_bits bits }
{
    bits - (bits & ALL)
}

impl<K> Handle<K> {
    /// Sets which rules refuse a command, in any state (libnbd, nbd_set_strict_mode).
    pub fn set_strict_mode(&mut self, bits: u32) -> Result<(), StrictFault>
        ensures ok { OnOk result (self.new.machine ≡ step self.old.machine (StrictMode bits)) }
        ensures allowed { OnOk result (unknown_bits bits ≡ 0) }

        // It is refused exactly where bits are set that mean nothing, and then nothing has changed.
        ensures refused { IfErr result (λ fault. (unknown_bits bits ≢ 0) × (fault ≡ StrictFault.Unknown (unknown_bits bits))) }
        ensures err { OnErr result (self.new.machine ≡ self.old.machine) }
        ensures stands { ForEach self.old.machine (AddsOnOk result (StrictMode bits) self.new.machine) }
    {
        let unknown = unknown_bits(bits);
        if unknown != 0 {
            return Err(StrictFault::Unknown(unknown));
        }
        self.connection.strict = bits;
        Ok(())
    }

    /// Which rules refuse a command (libnbd, nbd_get_strict_mode).
    pub fn strict_mode(&self) -> u32
        ensures value { result ≡ self.now.machine.known.strict }
        ensures told { ForEach self.now.machine (λ history. result ≡ strict_after history) }
    {
        self.connection.strict
    }
}

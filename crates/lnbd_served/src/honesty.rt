//! What wires that serve tell of an export.

ghost use Rattle.std.specs.Prelude.{◌≡◌, ◌<◌, ℕ, length};
ghost use Rattle.lnbd_asked.specs.Honest.{IsHonest};
ghost use Rattle.lnbd_memnet.specs.Network.{export_in};
ghost use Rattle.lnbd_spoken.specs.Driven.{IsDriven};
ghost use Rattle.lnbd_spoken.specs.Speaking.{SpeaksWell};
ghost use Rattle.lnbd_served.specs.Served.{IsServable, place_of};

use lnbd_memnet::ServedWires;

/// While memory lasts, and where each client so far spoke as one handle does, the server of the export at
/// this place is honest: over what it held when the wires were made, the calls since then, and what
/// `ServedWires::bytes` tells now.
pub fn tell_honestly(wires: &ServedWires, index: usize)
    requires { index < length wires.now.network.exports }
    ensures { wires.now.shorts ≡ 0 → IsServable (export_in wires.now.network.exports index).export → ((link : ℕ) → SpeaksWell link wires.now.calls) →
        IsHonest (place_of (export_in wires.now.network.exports index)) (export_in wires.now.network.exports index).start wires.now.calls (export_in wires.now.network.exports index).export.bytes }
{
    wires.came();
    let _ = index;
}

/// So it is while memory lasts and one handle drives each link, or drove it until it was closed or given up.
pub fn tell_honestly_driven<K>(wires: &ServedWires, index: usize)
    requires { index < length wires.now.network.exports }
    ensures { wires.now.shorts ≡ 0 → IsServable (export_in wires.now.network.exports index).export → ((link : ℕ) → IsDriven K link wires.now.calls) →
        IsHonest (place_of (export_in wires.now.network.exports index)) (export_in wires.now.network.exports index).start wires.now.calls (export_in wires.now.network.exports index).export.bytes }
{
    wires.came();
    let _ = index;
}

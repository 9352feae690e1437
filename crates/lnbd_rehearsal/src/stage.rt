//! The wires of a rehearsal, which keep what they began with. How they serve stands in `lnbd_memnet`, and what is copied over them is
//! not known here.

ghost use Rattle.std.specs.Prelude.{◌≡◌, ◌∷◌, [], Some, IfOk, false, map, true};
ghost use Rattle.lnbd_export.specs.Generated.{IsGenerated};
ghost use Rattle.lnbd_memnet.specs.Network.{hosted_of, stored_of};
ghost use Rattle.lnbd_memnet.specs.Wires.{contents_of, told_by};
ghost use Rattle.lnbd_model.specs.declared.target.Target.TheVariants.{Unix};
ghost use Rattle.lnbd_rehearsal.specs.Rehearsed.{CameFrom, IsNoise, destination_name, source_name};

use lnbd_link::{Accepted, Got, Took, Want, WireFailed, Wires};
use lnbd_memnet::{Schedule, Served, ServedWires};
use lnbd_model::{NoMemory, Target};
use std::alloc::Global;
use std::marker::Model;

/// Wires that serve a source and a destination, with the numbers from which both were made. While memory lasts, they came from these two by
/// their calls.
#[derive(Drop)]
pub(crate) struct Stage {
    wires: ServedWires,
    seed: u64,
    size: u64,
}

impl Model for Stage {
    ghost use Rattle.std.specs.Prelude.{◌≡◌};
    ghost use Rattle.lnbd_rehearsal.specs.Rehearsed.{CameFrom, Staged};

    ghost Value = { Staged };

    ghost view = { λ a. record { wires = a.wires; seed = a.seed; size = a.size } };

    ghost invariant = { λ a. a.wires.shorts ≡ 0 → CameFrom a.seed a.size a.wires.calls a.wires.network };
}

impl Stage {
    /// Wires to these two exports, over which the seed says what moves.
    pub(crate) fn new(
        alloc: Global,
        source: Served,
        destination: Served,
        seed: u64,
        size: u64,
    ) -> Result<Stage, NoMemory>
        requires from { source.at ≡ Unix source_name }
        requires generated { IsGenerated source_name seed size false source.export }
        requires to { destination.at ≡ Unix destination_name }
        requires noise { IsNoise size destination.export }
        ensures told { IfOk result (λ stage. told_by stage.wires ≡ Some []) }
        ensures contents { IfOk result (λ stage. contents_of stage.wires ≡ Some (map stored_of (map hosted_of (source ∷ destination ∷ [])))) }
    {
        let exports = vec![in alloc; source, destination]?;
        let wires = ServedWires::new(alloc, exports, Schedule::Seeded(seed))?;
        wires.came();
        Ok(Stage { wires, seed, size })
    }

    /// Whether both exports were made from these numbers.
    pub(crate) fn is_for(&self, seed: u64, size: u64) -> bool
        ensures seed { result ≡ true → self.now.seed ≡ seed }
        ensures size { result ≡ true → self.now.size ≡ size }
    {
        self.seed == seed && self.size == size
    }

    /// By their calls they came from these two, while memory lasted.
    pub(crate) fn came(&self)
        ensures { self.now.wires.shorts ≡ 0 → CameFrom self.now.seed self.now.size self.now.wires.calls self.now.wires.network }
    {
        let _ = &self.wires;
    }

    pub(crate) fn into_wires(self) -> ServedWires
        ensures { result ≡ self.wires }
    {
        self.wires
    }
}

impl Wires for Stage {
    ghost told = { λ a. told_by a.wires };

    ghost contents = { λ a. contents_of a.wires };

    ghost faults = { λ a. a.wires.faults };

    ghost idles = { λ a. a.wires.idles };

    #[tactic(auto, using(crate::proofs::StageLemmas::staged_on))]
    fn connect(&mut self, to: &Target) -> Result<u32, WireFailed> {
        self.wires.connect(to)
    }

    #[tactic(auto, using(crate::proofs::StageLemmas::staged_on))]
    fn listen(&mut self, at: &Target) -> Result<u32, WireFailed> {
        self.wires.listen(at)
    }

    #[tactic(auto, using(crate::proofs::StageLemmas::staged_on))]
    fn accept(&mut self, listener: u32) -> Accepted {
        self.wires.accept(listener)
    }

    #[tactic(auto, using(crate::proofs::StageLemmas::staged_on))]
    fn read(&mut self, link: u32, into: &mut [u8]) -> Got {
        self.wires.read(link, into)
    }

    #[tactic(auto, using(crate::proofs::StageLemmas::staged_on))]
    fn write(&mut self, link: u32, from: &[u8]) -> Took {
        self.wires.write(link, from)
    }

    #[tactic(auto, using(crate::proofs::StageLemmas::staged_on))]
    fn pause(&mut self, wants: &[Want]) {
        self.wires.pause(wants);
    }

    #[tactic(auto, using(crate::proofs::StageLemmas::staged_on))]
    fn shut(&mut self, link: u32) {
        self.wires.shut(link);
    }

    fn faults(&self) -> u64 {
        self.wires.faults()
    }

    fn idles(&self) -> u64 {
        self.wires.idles()
    }
}

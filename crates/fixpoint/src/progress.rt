//! How far a netlist is solved.

ghost use Rattle.std.specs.Prelude.{◌≡◌, ◌++◌, None, map, replicate, All, IfOk};
ghost use Rattle.fixpoint.specs.Kept.{rails_under, AreKept};
ghost use Rattle.fixpoint.specs.Sweeping.{rails_in};

use crate::keeping::empty_places;
use crate::kept::KeptRails;
use crate::wires::Wires;
use bdd_ops::Diagrams;
use std::alloc::{AllocError, Global};

/// What a netlist that is solved block by block has come to.
#[derive(Drop)]
pub struct Progress {
    /// The rails of its signals.
    pub(crate) wires: Wires,
    /// The gates that are solved, kept, each in its place.
    pub(crate) places: Vec<Option<KeptRails>>,
    /// How many nodes the store had after its last sweep.
    pub(crate) left: u32,
}

impl Progress {
    /// Before the first block: inputs and latches have the given rails, so many gates are X, and none is kept.
    pub(crate) fn start(
        alloc: Global,
        d: &Diagrams,
        given: &[KeptRails],
        gates: usize,
    ) -> Result<Progress, AllocError>
        requires { All (AreKept d.now) given.now }
        ensures before { IfOk result (λ progress. progress.wires.before.items ≡ map (rails_in d.now) progress.places.items) }
        ensures rails { IfOk result (λ progress. progress.wires.rails.items ≡ map (rails_under d.now) given.now ++ progress.wires.before.items) }
        ensures places { IfOk result (λ progress. progress.places.items ≡ replicate gates None) }
    {
        let places = empty_places(alloc, gates)?;
        let wires = Wires::of(alloc, d, given, &places)?;
        Ok(Progress {
            wires,
            places,
            left: 0,
        })
    }
}

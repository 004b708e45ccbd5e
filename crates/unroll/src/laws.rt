//! The laws of unrolling, each the contract of a function that does nothing.

ghost use Rattle.unroll.specs.Laws.{UnrolledHasItsSize, GatesStandAtTheirSignals, UnrolledIsNetlist, UnrolledIsLoopFree, EnoughByBlocks, UnrolledIsAbove, UnrolledTellsAsMuch, UnrolledKeepsInterface};

/// The unrolled netlist is a netlist of its size, with the interface of the netlist that it stands for.
pub fn unrolling_makes_a_netlist()
    ensures size { UnrolledHasItsSize }
    ensures places { GatesStandAtTheirSignals }
    ensures netlist { UnrolledIsNetlist }
    ensures interface { UnrolledKeepsInterface }
{}

/// It has no loop: along a walk within one loop the numbers of copies never fall, and they rise at each cut wire.
pub fn unrolling_opens_loops()
    ensures loop_free { UnrolledIsLoopFree }
{}

/// Where sweeps bring the cut wires to the fixpoint, it determines what the netlist does (Malik 1994).
pub fn unrolling_determines()
    ensures enough { EnoughByBlocks }
    ensures above { UnrolledIsAbove }
    ensures tells { UnrolledTellsAsMuch }
{}

//! The laws of loops, cut wires and sweeps, each the contract of a function that does nothing.

ghost use Rattle.loops.specs.Laws.{CutsLeaveNoLoop, EachCutIsNeeded, LoopsAreUnique, LoopsExist, BlocksTellLoops, BlocksHaveLoops, SweepIsTheOne, SweepsStayBelowFix, SweepsRise, StillIsFix, FixedCutsGiveFix, FewSweepsAreEnough, CountIsSmall, CountIsOfLoops, SweepOfOneLoop, OrderedSweepIsSweep, SearchIsComplete, BlocksByNumbers, LoopFreeByNumbers, LoopFreeByBlocks, OtherBlocksAreSingle, LoopFreeIsDetermined};

/// Without the cut wires no loop is left, and none of them can be left out. Each netlist has one choice
/// of loops and cut wires, and its blocks and its cut tell them.
pub fn cuts_open_loops()
    ensures no_loop { CutsLeaveNoLoop }
    ensures needed { EachCutIsNeeded }
    ensures exist { LoopsExist }
    ensures unique { LoopsAreUnique }
    ensures told { BlocksTellLoops }
    ensures gates { BlocksHaveLoops }
    ensures single { OtherBlocksAreSingle }
{}

/// Sweeps rise, stay below the fixpoint, and reach it after as many as a loop has cut wires
/// (Malik 1994).
pub fn sweeps_approach()
    ensures below { SweepsStayBelowFix }
    ensures rise { SweepsRise }
    ensures still { StillIsFix }
    ensures fixed { FixedCutsGiveFix }
    ensures few { FewSweepsAreEnough }
    ensures count { CountIsSmall }
    ensures of_loops { CountIsOfLoops }
{}

/// A sweep is the one assignment in which each gate has the value of its cover. It may set the gates of
/// a loop one after another.
pub fn orders_sweep()
    ensures one { SweepIsTheOne }
    ensures one_loop { SweepOfOneLoop }
    ensures ordered { OrderedSweepIsSweep }
{}

/// What a search over gates, numbers of blocks and an order show.
pub fn searches_decide()
    ensures complete { SearchIsComplete }
    ensures blocks { BlocksByNumbers }
    ensures loop_free { LoopFreeByNumbers }
{}

/// A netlist without loops is one without a block that is a loop. Each of its gates is determined at
/// each Boolean vector.
pub fn loop_free_is_determined()
    ensures no_block { LoopFreeByBlocks }
    ensures determined { LoopFreeIsDetermined }
{}

//! The laws of rewriting, each the contract of a function that does nothing.

ghost use Rattle.rewriting.specs.Laws.{GraphsShowTheSame, RewrittenIsLoopFree, RewrittenHasItsSize, RewrittenShowsTheSame};

/// The rewritten netlist has no loop and its size, and of an accepted netlist it shows the same in all runs.
pub fn rewriting_keeps_behaviour()
    ensures loop_free { RewrittenIsLoopFree }
    ensures size { RewrittenHasItsSize }
    ensures same { RewrittenShowsTheSame }
{}

/// Each run of an accepted netlist within care does what the machine of a graph does that has the rewritten netlist's
/// values.
pub fn graphs_keep_behaviour()
    ensures { GraphsShowTheSame }
{}

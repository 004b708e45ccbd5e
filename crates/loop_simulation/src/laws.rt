//! What the numbers of sweeps mean, as the contract of a function that does nothing.
ghost use Rattle.loop_simulation.specs.Sweeping.{NeededIsLeast};

/// The sweeps that are counted for a netlist are those that its loops need.
pub fn needed_sweeps_are_least()
    ensures { NeededIsLeast }
{}

//! The laws of schedules and runs, each the contract of a function that does nothing.

ghost use Rattle.schedules.specs.Accepted.{CareIsKept, ObservedSettle, RunsFollowFix, RunsAreMachines, SameByFixpoints};
ghost use Rattle.schedules.specs.Harmless.{AcceptedIsHarmless};
ghost use Rattle.schedules.specs.Laws.{RunsExist, WindowsWiden, WindowLaw, GatesReachFix, NetlistsSettle};

/// A netlist has runs over all inputs, with each window and from each past, so no law of runs holds for want of them. A
/// schedule that is fair with a window is so with each wider one.
pub fn runs_exist()
    ensures exist { RunsExist }
    ensures wider { WindowsWiden }
{}

/// In each schedule that is fair with a window, from any past, each wire that `k` steps determine has settled from
/// the end of round `(window + 1) * k` on. So each signal that the fixpoint determines settles, in each tick of each
/// run.
pub fn fair_schedules_settle()
    ensures window { WindowLaw }
    ensures gates { GatesReachFix }
    ensures runs { NetlistsSettle }
{}

/// In each run within care of an accepted netlist each tick has a care vector, and all observed signals settle at
/// the fixpoint. What a tick shows and loads is then what the fixpoint says, so a run does what a machine does that steps by
/// the fixpoint.
pub fn accepted_netlists_settle()
    ensures care { CareIsKept }
    ensures observed { ObservedSettle }
    ensures ticks { RunsFollowFix }
    ensures machines { RunsAreMachines }
{}

/// A netlist whose fixpoint tells at least as much of outputs and of what latches load, at each care vector of an
/// accepted one, shows the same in all runs.
pub fn same_fixpoints_show_the_same()
    ensures { SameByFixpoints }
{}

/// What a user has of an accepted netlist, in one statement.
pub fn accepted_netlists_are_harmless()
    ensures { AcceptedIsHarmless }
{}

//! The laws of storms, each the contract of a function that does nothing.

ghost use Rattle.storm.specs.Laws.{StormsNeverRest, UnknownGatesHavePlans, FirstIsLeast};

use delay_core::laws::faults_are_unfairness;

/// The storm of a vector is played without a fault, for any number of rounds: it is fair with the window 1, each gate
/// that the fixpoint leaves unknown changes to 0 and then to 1 in each round, and every other signal has its value of
/// the fixpoint at every moment.
pub fn storms_never_rest()
    ensures { StormsNeverRest }
{
    faults_are_unfairness();
}

/// A vector whose fixpoint leaves a gate unknown, as that of a refusal for an undetermined wire, has a plan.
pub fn unknown_gates_have_plans()
    ensures { UnknownGatesHavePlans }
{}

/// The first completion at which a function has a value, in the order in which they are listed, is the
/// lexicographically least one.
pub fn first_completion_is_least()
    ensures { FirstIsLeast }
{}

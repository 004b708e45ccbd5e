//! The moments with which a play and its ticks open.

ghost use Rattle.std.specs.Prelude.{◌≡◌, ◌<◌, ◌+◌, ◌^◌, ◌++◌, ◌∷◌, List, Bool, length, reverse, All, IfOk, OnOk};
ghost use Rattle.netlist.specs.Netlists.{count};
ghost use Rattle.netlist.specs.Fixpoint.{wires};
ghost use Rattle.schedules.specs.Moments.{newest};
ghost use Rattle.schedules.specs.Runs.{loaded_at as loaded_of};

use crate::timeline::Timeline;
use cyc_base::Bits;
use netlist::Netlist;
use std::alloc::{AllocError, Global};

/// The values of the inputs, then of the latches, then of the gates.
fn moment_of(
    alloc: Global,
    inputs: &[bool],
    latches: &[bool],
    gates: &[bool],
) -> Result<Vec<bool>, AllocError>
    ensures { IfOk result (λ moment. moment.items ≡ wires (inputs.now ++ latches.now) gates.now) }
{
    let mut moment = vector_of(alloc, inputs, latches)?;
    moment.extend_from_slice(gates)?;
    Ok(moment)
}

/// The values of the inputs, and of the latches behind them.
fn vector_of(alloc: Global, inputs: &[bool], latches: &[bool]) -> Result<Vec<bool>, AllocError>
    ensures { IfOk result (λ vector. vector.items ≡ inputs.now ++ latches.now) }
{
    let mut vector = inputs.to_vec(alloc)?;
    vector.extend_from_slice(latches)?;
    Ok(vector)
}

/// What the latches load at the newest moment.
fn loaded_latches(
    alloc: Global,
    net: &Netlist,
    timeline: &Timeline,
) -> Result<Vec<bool>, AllocError>
    requires { length (newest timeline.now.history) ≡ count net.now }
    ensures { IfOk result (λ bits. bits.items ≡ loaded_of net.now (newest timeline.now.history)) }
{
    let mut bits = Vec::with_capacity(alloc, net.latches() as usize)?;
    for number in 0..net.latches() {
        bits.push_reserved(timeline.value(net.latch(number).from.0 as usize, 0));
    }
    Ok(bits)
}

/// The inputs of the tick behind the newest moment, and what its latches load.
pub(crate) fn next_vector(
    alloc: Global,
    net: &Netlist,
    timeline: &Timeline,
    inputs: &[bool],
) -> Result<Vec<bool>, AllocError>
    requires { length (newest timeline.now.history) ≡ count net.now }
    ensures { IfOk result (λ vector. vector.items ≡ inputs.now ++ loaded_of net.now (newest timeline.now.history)) }
{
    let latches = loaded_latches(alloc, net, timeline)?;
    vector_of(alloc, inputs, &latches)
}

/// Adds moments, the oldest first.
fn push_all(timeline: &mut Timeline, moments: &[Bits]) -> Result<(), AllocError>
    requires { All (λ (moment : List Bool). length moment ≡ length (newest timeline.old.history)) moments.now }
    ensures history { OnOk result (timeline.new.history ≡ reverse moments.now ++ timeline.old.history) }
    ensures width { OnOk result (length (newest timeline.new.history) ≡ length (newest timeline.old.history)) }
{
    for moment in moments {
        push_whole(timeline, moment.items())?;
    }
    Ok(())
}

/// Adds the moment with these values, one for each signal.
fn push_whole(timeline: &mut Timeline, moment: &[bool]) -> Result<(), AllocError>
    requires width { length moment.now ≡ length (newest timeline.old.history) }
    ensures { OnOk result (timeline.new.history ≡ moment.now ∷ timeline.old.history) }
{
    timeline.push(moment)
}

/// The timeline of a past, the oldest moment first, and of an opening moment.
fn timeline_of(alloc: Global, past: &[Bits], opening: &[bool]) -> Result<Timeline, AllocError>
    requires past { All (λ (moment : List Bool). length moment ≡ length opening.now) past.now }
    requires signals { length opening.now < 2 ^ 32 }
    ensures { IfOk result (λ timeline. timeline.history ≡ opening.now ∷ reverse past.now) }
{
    let Some((first, rest)) = past.split_first() else {
        return Timeline::of(alloc, opening);
    };
    let mut timeline = Timeline::of(alloc, first.items())?;
    push_all(&mut timeline, rest)?;
    push_whole(&mut timeline, opening)?;
    Ok(timeline)
}

/// The timeline of a past, the oldest moment first, and of the moment in which a first tick opens.
pub(crate) fn opening_timeline(
    alloc: Global,
    past: &[Bits],
    inputs: &[bool],
    latches: &[bool],
    gates: &[bool],
) -> Result<Timeline, AllocError>
    requires past { All (λ (moment : List Bool). length moment ≡ length inputs.now + length latches.now + length gates.now) past.now }
    requires signals { length inputs.now + length latches.now + length gates.now < 2 ^ 32 }
    ensures { IfOk result (λ timeline. timeline.history ≡ wires (inputs.now ++ latches.now) gates.now ∷ reverse past.now) }
{
    let moment = moment_of(alloc, inputs, latches, gates)?;
    timeline_of(alloc, past, &moment)
}

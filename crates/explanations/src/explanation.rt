ghost use Rattle.std.specs.Prelude.{◌≡◌, ◌≢◌, ◌<◌, ◌+◌, ◌++◌, length, All, IfOk, IfSome, IfNone};
ghost use Rattle.cyc_base.specs.declared.trit.Trit.TheVariants.{X};
ghost use Rattle.cyc_base.specs.Values.{bits};
ghost use Rattle.netlist.specs.Fixpoint.{fix, wire};
ghost use Rattle.netlist.specs.Netlists.{count, gate_sig};
ghost use Rattle.explanations.specs.Explained.{AreReasons, Explains, IsUnknown};

use crate::graph::open_graph;
use crate::needs::{further, needs};
use crate::pins::Pin;
use crate::shortest::{ShortCycle, shortest_cycle};
use crate::sides::sides;
use cyc_base::{Items, Trit, Trits};
use netlist::Netlist;
use std::alloc::{AllocError, Global};
use ternary_run::settle_at;

/// Why a wire is undetermined at a vector.
pub struct Explanation {
    /// Unknown gates, of which a flip of each may flip the next, and of the last the first.
    pub cycle: Items<u32>,
    /// What the signals beside the cycle are, where this is needed to hold the cycle open: one entry for each signal.
    pub sides: Items<Pin>,
    /// The values of the columns that hold the cycle open, and X where a column's isn't needed.
    pub needs: Trits,
    /// From behind the cycle to the wire: unknown gates, of which a flip of each may flip the next, and of a gate of the
    /// cycle the first. There is none where the wire is on the cycle.
    pub way: Items<u32>,
    /// The further values of columns that hold the way open.
    pub also: Trits,
}

impl Drop for Explanation {
    fn drop(self) {
        let Explanation {
            cycle: _,
            sides: _,
            needs: _,
            way: _,
            also: _,
        } = self;
    }
}

fn cycle_and_way(alloc: Global, cycle: &[u32], way: &[u32]) -> Result<Vec<u32>, AllocError>
    ensures { IfOk result (λ gates. gates.items ≡ cycle.now ++ way.now) }
{
    let mut gates = cycle.to_vec(alloc)?;
    gates.extend_from_slice(way)?;
    Ok(gates)
}

/// Why this cycle with this way from it is open.
fn explanation_of_cycle(
    alloc: Global,
    net: &Netlist,
    vector: &[bool],
    known: &[Trit],
    preferred: &[bool],
    found: ShortCycle,
) -> Result<Explanation, AllocError>
    requires width { length vector.now ≡ length net.now.inputs + length net.now.latches }
    requires known { known.now ≡ fix net.now (bits vector.now) }
    requires size { length known.now ≡ count net.now }
    requires gates { All (IsUnknown net.now (fix net.now (bits vector.now))) (found.cycle ++ found.way) }
    ensures { IfOk result (λ why. AreReasons net.now vector.now found why) }
{
    let (cycle, way) = found.into_parts();
    let gates = cycle_and_way(alloc, cycle.items(), way.items())?;
    let sides = sides(alloc, net, known, cycle.items(), preferred)?;
    let needs = needs(alloc, net, vector, cycle.items())?;
    let also = further(alloc, net, vector, &gates, &needs)?;
    Ok(Explanation {
        cycle,
        sides: Items::of(sides),
        needs: Trits::of(needs.into_given()),
        way,
        also: Trits::of(also),
    })
}

/// Why a gate is unknown in the fixpoint at a vector: `None` exactly where it is determined.
///
/// The cycle has the fewest gates of those that lead to the gate along pins that matter. The way from it to the gate is
/// the shortest along such pins. Signals beside the cycle, and columns, are left out in their order, each where the rest
/// still holds the gates open. `preferred` has a mark for each signal: a side without one, or beyond its end, is left out
/// before any that has one.
pub fn explain(
    alloc: Global,
    net: &Netlist,
    vector: &[bool],
    preferred: &[bool],
    gate: u32,
) -> Result<Option<Explanation>, AllocError>
    requires width { length vector.now ≡ length net.now.inputs + length net.now.latches }
    requires gate { gate < length net.now.gates }
    ensures found { IfOk result (λ why. IfSome why (Explains net.now vector.now gate)) }
    ensures none { IfOk result (λ why. IfNone why (wire (fix net.now (bits vector.now)) (gate_sig net.now gate) ≢ X)) }
{
    let known = settle_at(alloc, net, vector)?;
    let graph = open_graph(alloc, net, &known)?;
    match shortest_cycle(alloc, &graph, gate)? {
        Some(found) => Ok(Some(explanation_of_cycle(
            alloc, net, vector, &known, preferred, found,
        )?)),
        None => Ok(None),
    }
}

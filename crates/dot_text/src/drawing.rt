//! What is drawn of an explanation.

ghost use Rattle.std.specs.Prelude.{◌≡◌, ◌≤◌, ◌<◌, ◌+◌, ◌||◌, ℕ, false, All, IfOk, filter, length};
ghost use Rattle.cyc_base.specs.Values.{bits};
ghost use Rattle.loops.specs.Found.{loops_of};
ghost use Rattle.loops.specs.Listed.{gate_numbers};
ghost use Rattle.netlist.specs.Fixpoint.{fix};
ghost use Rattle.netlist.specs.Netlists.{count, IsNetlist, is_marked};
ghost use Rattle.dot_text.specs.ExplanationGraphs.{IsExplanationOf};
ghost use Rattle.dot_text.specs.ExplanationGraphs.{picture_of};
ghost use Rattle.dot_text.specs.Marks.{AreMarksOf};

use cyc_base::Trit;
use explanations::{Explanation, Pin};
use loops::{LoopedNetlist, mark_all};
use netlist::Netlist;
use std::alloc::{AllocError, Global};
use ternary_run::settle_at;

/// What is drawn of an explanation.
pub(crate) struct Drawing<'a> {
    pub(crate) looped: &'a LoopedNetlist<'a>,
    /// The values of the signals.
    pub(crate) values: Vec<Trit>,
    /// A gate of the loop that is drawn.
    pub(crate) first: u32,
    /// The gates of the way, which are drawn too, by a mark for each gate.
    pub(crate) way: Vec<bool>,
    /// Those of the cycle.
    pub(crate) cycle: Vec<bool>,
    /// All gates that are drawn.
    pub(crate) gates: Vec<u32>,
    /// The values of wires beside the cycle, those of columns that are needed for it, and further ones for the way.
    pub(crate) sides: &'a [Pin],
    pub(crate) needs: &'a [Trit],
    pub(crate) also: &'a [Trit],
    ghost narrow: { count looped.now.net ≤ 4294967295 },
    ghost valued: { length values.items ≡ count looped.now.net },
    ghost begun: { first < length looped.now.net.gates },
    ghost way_marked: { length way.items ≡ length looped.now.net.gates },
    ghost cycle_marked: { length cycle.items ≡ length looped.now.net.gates },
    ghost drawn: { gates.items ≡ filter (λ n. (loops_of looped.now.net).same first n || is_marked way.items n) (gate_numbers looped.now.net) },
    ghost inside: { All (λ n. n < length looped.now.net.gates) gates.items },
}

impl<'a> Drop for Drawing<'a> {
    fn drop(self) {
        let Drawing {
            looped: _,
            values: _,
            first: _,
            way: _,
            cycle: _,
            gates: _,
            sides: _,
            needs: _,
            also: _,
        } = self;
    }
}

// Marks these gates, where nothing is marked.
fn mark_alone(net: &Netlist, gates: &[u32], marks: &mut [bool])
    requires gates { All (λ gate. gate < length net.now.gates) gates.now }
    requires width { length marks.old ≡ length net.now.gates }
    requires none { (n : ℕ) → is_marked marks.old n ≡ false }
    ensures { AreMarksOf net.now gates.now marks.new }
{
    mark_all(gates, marks);
}

// A mark for each gate, which says whether it is one of these.
#[tactic(auto, using(loops::proofs::MarkLemmas::unmarked))]
fn marks_of(alloc: Global, net: &Netlist, gates: &[u32]) -> Result<Vec<bool>, AllocError>
    requires { All (λ gate. gate < length net.now.gates) gates.now }
    ensures { IfOk result (λ marks. AreMarksOf net.now gates.now marks.items) }
{
    let mut marks = vec![in alloc; false; net.gates() as usize]?;
    mark_alone(net, gates, &mut marks);
    Ok(marks)
}

// The gates of the loop of this gate, and those that are marked.
fn drawn_gates(
    alloc: Global,
    looped: &LoopedNetlist<'_>,
    first: u32,
    way: &[bool],
) -> Result<Vec<u32>, AllocError>
    requires first { first < length looped.now.net.gates }
    requires way { length way.now ≡ length looped.now.net.gates }
    ensures { IfOk result (λ gates. gates.items ≡ filter (λ n. (loops_of looped.now.net).same first n || is_marked way.now n) (gate_numbers looped.now.net)) }
{
    (0..looped.net().gates())
        .filter(|gate| looped.are_in_one_loop(first, *gate) || way[*gate as usize])
        .collect(alloc)
}

impl<'a> Drawing<'a> {
    ghost use Rattle.dot_text.specs.Seen.{picture_seen};

    /// What is drawn of an explanation of a gate that is undetermined at a vector.
    ///
    /// The condition is that the explanation speaks of the netlist's gates and columns, and that there is a cycle.
    pub(crate) fn of(
        alloc: Global,
        looped: &'a LoopedNetlist<'a>,
        vector: &[bool],
        why: &'a Explanation,
    ) -> Result<Drawing<'a>, AllocError>
        requires valid { IsNetlist looped.now.net }
        requires width { length vector.now ≡ length looped.now.net.inputs + length looped.now.net.latches }
        requires why { IsExplanationOf looped.now.net why.now }
        requires some { 0 < length why.now.cycle }
        ensures { IfOk result (λ drawing. picture_seen drawing ≡ picture_of looped.now.net (fix looped.now.net (bits vector.now)) why.now) }
    {
        let net = looped.net();
        let values = settle_at(alloc, net, vector)?;
        let first = why.cycle.items()[0];
        let way = marks_of(alloc, net, why.way.items())?;
        let cycle = marks_of(alloc, net, why.cycle.items())?;
        let gates = drawn_gates(alloc, looped, first, &way)?;
        Ok(Drawing {
            looped,
            values,
            first,
            way,
            cycle,
            gates,
            sides: why.sides.items(),
            needs: why.needs.items(),
            also: why.also.items(),
        })
    }

    /// Whether a gate is drawn.
    pub(crate) fn shows(&self, gate: u32) -> bool
        requires { gate < length self.now.looped.now.net.gates }
        ensures { result ≡ (picture_seen self.now).drawn gate }
    {
        self.looped.are_in_one_loop(self.first, gate) || self.way[gate as usize]
    }
}

//! The loops one by one, each by its first gate in flat order.

ghost use Rattle.std.specs.Prelude.{◌≡◌, ◌<◌, true, false, length, MatchOption};
ghost use Rattle.loops.specs.Listed.{loop_of, begins_with as begins, first_gates};

use crate::looped_netlist::LoopedNetlist;
use crate::structure::Block;

fn begins_with(gates: &[u32], gate: u32) -> bool
    ensures { result ≡ begins gates.now gate }
{
    match gates {
        [first, ..] => *first == gate,
        [] => false,
    }
}

impl<'a> LoopedNetlist<'a> {
    // Whether it is the first gate of a loop.
    fn begins_loop(&self, gate: u32) -> bool
        requires { gate < length self.now.net.gates }
        ensures { result ≡ begins (loop_of self.now.net gate) gate }
    {
        let block = self.grouped().block_of(gate);
        block.looped && begins_with(block.gates.items(), gate)
    }

    /// The loop whose first gate in flat order this is, with its gates in flat order; nothing where it is
    /// the first gate of no loop.
    ///
    /// The condition is that the gate is in range.
    #[tactic(auto, using(crate::proofs::ListedLemmas::loop_begun))]
    pub fn loop_from(&self, gate: u32) -> Option<&'a Block>
        requires { gate < length self.now.net.gates }
        ensures { MatchOption result (begins (loop_of self.now.net gate) gate ≡ false)
            (λ block. (begins (loop_of self.now.net gate) gate ≡ true) × (block.now.gates ≡ loop_of self.now.net gate)) }
    {
        if self.begins_loop(gate) {
            Some(self.grouped().block_of(gate))
        } else {
            None
        }
    }

    /// How many loops the netlist has.
    pub fn count(&self) -> u32
        ensures { result ≡ length (first_gates self.now.net) }
    {
        (0..self.net().gates())
            .filter(|gate| self.begins_loop(*gate))
            .count() as u32
    }
}

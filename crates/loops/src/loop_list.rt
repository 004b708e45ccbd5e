//! The loops of a netlist, one after another.

ghost use Rattle.std.specs.Iterator.{YieldsFirstBy, item_count};
ghost use Rattle.std.specs.Prelude.{◌≡◌, ◌≤◌, [], MatchOption};
ghost use Rattle.loops.specs.Numbered.{first_gates_from, IsNextLoop};

use crate::looped_netlist::LoopedNetlist;

/// A loop of a netlist.
#[derive(Clone, Copy, Drop)]
pub struct ListedLoop<'a> {
    /// Its number, counted from 1.
    pub number: u32,
    /// Its first gate in flat order.
    pub first: u32,
    /// Its gates in flat order.
    pub gates: &'a [u32],
}

/// The loops of a netlist in the order of their first gates, those that are left.
#[derive(Drop)]
pub struct LoopList<'a> {
    looped: &'a LoopedNetlist<'a>,
    // How many came.
    number: u32,
    // The first gate behind those with which they begin.
    gate: u32,
    ghost few: { number ≤ gate },
}

impl<'a> LoopedNetlist<'a> {
    ghost use Rattle.loops.specs.Left.{loops_left};
    ghost use Rattle.loops.specs.Numbered.{listed_loops};

    /// Its loops in the order of their first gates.
    pub fn in_order(&'a self) -> LoopList<'a>
        ensures { loops_left result ≡ listed_loops self.now.net }
    {
        LoopList {
            looped: self,
            number: 0,
            gate: 0,
        }
    }

    // The first gate from this one on at which a loop begins, with the gates of the loop.
    fn loop_after(&self, from: u32) -> Option<(u32, &'a [u32])>
        ensures { MatchOption result (first_gates_from self.now.net from ≡ []) (λ found. IsNextLoop self.now.net from found.0 found.1.now) }
    {
        for gate in from..self.net().gates() {
            if let Some(block) = self.loop_from(gate) {
                return Some((gate, block.gates.items()));
            }
        }
        None
    }
}

impl<'a> Iterator for LoopList<'a> {
    ghost use Rattle.loops.specs.Left.{loop_seen, loops_left};

    type Item = ListedLoop<'a>;

    ghost next_gives = { YieldsFirstBy loop_seen loops_left };

    ghost remaining = { item_count loops_left };

    #[tactic(auto, using(crate::proofs::ListLemmas::none_left, crate::proofs::ListLemmas::next_left))]
    fn next(&mut self) -> Option<ListedLoop<'a>> {
        let (first, gates) = self.looped.loop_after(self.gate)?;
        self.number += 1;
        self.gate = first + 1;
        Some(ListedLoop {
            number: self.number,
            first,
            gates,
        })
    }
}

//! Settling block by block: a gate outside loops by its cover, and a loop from all unknown.

ghost use Rattle.std.specs.Prelude.{◌≡◌, ◌+◌, ◌++◌, ◌<◌, ◌==◌, ◌∷◌, true, false, length, filter, slice_index_or, All, IfOk, OnOk};
ghost use Rattle.netlist.specs.Netlists.{count};
ghost use Rattle.netlist.specs.Fixpoint.{fix};
ghost use Rattle.ternary_run.specs.Settling.{IsNewValue};
ghost use Rattle.loops.specs.Blocks.{block_at, home_of, gates_at};
ghost use Rattle.simulation.specs.Plans.{IsPlanOf};
ghost use Rattle.simulation.specs.Stability.{AreKept, AreSettled, is_due, vector_of};
ghost use Rattle.simulation.specs.Rising.{IsRising, work_left};

use crate::plan::Plan;
use crate::wires::Wires;
use cyc_base::Trit;
use netlist::Netlist;
use std::alloc::{AllocError, Global};
use std::collections::VecDeque;

/// The gates of a loop that wait to be computed.
#[derive(Drop)]
struct LoopWorklist {
    /// The place of the loop among the blocks.
    place: usize,
    gates: VecDeque<u32>,
}

impl LoopWorklist {
    /// The loop at this place, all of whose gates wait.
    fn of(alloc: Global, place: usize, gates: &[u32]) -> Result<LoopWorklist, AllocError>
        ensures { IfOk result (λ worklist. (worklist.place ≡ place) × (worklist.gates.items ≡ gates.now)) }
    {
        let numbers = gates.to_vec(alloc)?;
        Ok(LoopWorklist {
            place,
            gates: VecDeque::from_vec(numbers),
        })
    }

    /// Puts those of these gates that are in the loop behind those that wait.
    fn push_inside(&mut self, gates: &[u32], home: &[u32]) -> Result<(), AllocError>
        requires { All (λ gate. gate < length home.now) gates.now }
        ensures place { self.new.place ≡ self.old.place }
        ensures gates { OnOk result (self.new.gates.items ≡ self.old.gates.items ++ filter (λ gate. slice_index_or home.now gate 0 == self.old.place) gates.now) }
    {
        for gate in gates {
            if home[*gate as usize] as usize == self.place {
                self.gates.push_back(*gate)?;
            }
        }
        Ok(())
    }
}

impl Wires {
    /// Settles the block of this gate alone, which is no loop.
    fn settle_gate(
        &mut self,
        alloc: Global,
        net: &Netlist,
        plan: &Plan,
        place: usize,
        gate: u32,
    ) -> Result<(), AllocError>
        requires plan { IsPlanOf net.now plan.now }
        requires kept { AreKept net.now plan.now.blocks self.old.values.items self.old.due.items }
        requires due { is_due self.old.due.items place ≡ true }
        requires settled { AreSettled net.now plan.now.blocks self.old.values.items place }
        requires gate { gate < length net.now.gates }
        requires home { home_of plan.now.blocks gate ≡ place }
        requires single { (block_at plan.now.blocks place).looped ≡ false }
        ensures kept { AreKept net.now plan.now.blocks self.new.values.items self.new.due.items }
        ensures vector { vector_of net.now self.new.values.items ≡ vector_of net.now self.old.values.items }
        ensures settled { OnOk result (AreSettled net.now plan.now.blocks self.new.values.items (place + 1)) }
    {
        let value = self.value_of(alloc, net, gate)?;
        self.change(net, plan, net.gate_sig(gate), value);
        self.due[place] = false;
        Ok(())
    }

    /// The value of a gate, where it was unknown until now and no longer is.
    fn new_value(
        &mut self,
        alloc: Global,
        net: &Netlist,
        gate: u32,
    ) -> Result<Option<Trit>, AllocError>
        requires gate { gate < length net.now.gates }
        requires width { length self.old.values.items ≡ count net.now }
        ensures value { IfOk result (IsNewValue net.now self.old.values.items gate) }
        ensures values { self.new.values ≡ self.old.values }
        ensures due { self.new.due ≡ self.old.due }
    {
        let signal = net.gate_sig(gate);
        if self.values[signal.0 as usize] != Trit::X {
            return Ok(None);
        }
        match self.value_of(alloc, net, gate)? {
            Trit::X => Ok(None),
            value => Ok(Some(value)),
        }
    }

    /// Makes all gates of a block unknown.
    fn forget(&mut self, net: &Netlist, plan: &Plan, place: usize, gates: &[u32])
        requires plan { IsPlanOf net.now plan.now }
        requires kept { AreKept net.now plan.now.blocks self.old.values.items self.old.due.items }
        requires due { is_due self.old.due.items place ≡ true }
        requires settled { AreSettled net.now plan.now.blocks self.old.values.items place }
        requires gates { gates.now ≡ gates_at plan.now.blocks place }
        ensures vector { vector_of net.now self.new.values.items ≡ vector_of net.now self.old.values.items }
        ensures rising { IsRising net.now plan.now place self.new.values.items self.new.due.items gates.now }
    {
        for gate in gates {
            self.change(net, plan, net.gate_sig(*gate), Trit::X);
        }
    }

    /// Computes a gate that waits. Where it becomes known, those of its loop that read it wait once more.
    fn rise(
        &mut self,
        alloc: Global,
        net: &Netlist,
        plan: &Plan,
        gate: u32,
        worklist: &mut LoopWorklist,
    ) -> Result<(), AllocError>
        requires plan { IsPlanOf net.now plan.now }
        requires rising { IsRising net.now plan.now worklist.old.place self.old.values.items self.old.due.items (gate ∷ worklist.old.gates.items) }
        ensures kept { AreKept net.now plan.now.blocks self.new.values.items self.new.due.items }
        ensures vector { vector_of net.now self.new.values.items ≡ vector_of net.now self.old.values.items }
        ensures place { worklist.new.place ≡ worklist.old.place }
        ensures rising { OnOk result (IsRising net.now plan.now worklist.old.place self.new.values.items self.new.due.items worklist.new.gates.items) }
        ensures less { OnOk result (work_left plan.now self.new.values.items worklist.new.gates.items < work_left plan.now self.old.values.items (gate ∷ worklist.old.gates.items)) }
    {
        if let Some(value) = self.new_value(alloc, net, gate)? {
            let signal = net.gate_sig(gate);
            self.change(net, plan, signal, value);
            let readers = plan.readers.successors(signal.0);
            worklist.push_inside(readers, plan.blocks.home.items())?;
        }
        Ok(())
    }

    /// Settles a loop: all its gates begin unknown and wait.
    fn settle_loop(
        &mut self,
        alloc: Global,
        net: &Netlist,
        plan: &Plan,
        place: usize,
        gates: &[u32],
    ) -> Result<(), AllocError>
        requires plan { IsPlanOf net.now plan.now }
        requires kept { AreKept net.now plan.now.blocks self.old.values.items self.old.due.items }
        requires due { is_due self.old.due.items place ≡ true }
        requires settled { AreSettled net.now plan.now.blocks self.old.values.items place }
        requires within { place < length plan.now.blocks.list }
        requires gates { gates.now ≡ gates_at plan.now.blocks place }
        ensures kept { AreKept net.now plan.now.blocks self.new.values.items self.new.due.items }
        ensures vector { vector_of net.now self.new.values.items ≡ vector_of net.now self.old.values.items }
        ensures settled { OnOk result (AreSettled net.now plan.now.blocks self.new.values.items (place + 1)) }
    {
        self.forget(net, plan, place, gates);
        let mut worklist = LoopWorklist::of(alloc, place, gates)?;
        while let Some(gate) = worklist.gates.pop_front() {
            self.rise(alloc, net, plan, gate, &mut worklist)?;
        }
        self.due[place] = false;
        Ok(())
    }

    /// Settles the block at this place, where those before it are settled.
    fn settle_block(
        &mut self,
        alloc: Global,
        net: &Netlist,
        plan: &Plan,
        place: usize,
    ) -> Result<(), AllocError>
        requires plan { IsPlanOf net.now plan.now }
        requires kept { AreKept net.now plan.now.blocks self.old.values.items self.old.due.items }
        requires due { is_due self.old.due.items place ≡ true }
        requires settled { AreSettled net.now plan.now.blocks self.old.values.items place }
        requires within { place < length plan.now.blocks.list }
        ensures kept { AreKept net.now plan.now.blocks self.new.values.items self.new.due.items }
        ensures vector { vector_of net.now self.new.values.items ≡ vector_of net.now self.old.values.items }
        ensures settled { OnOk result (AreSettled net.now plan.now.blocks self.new.values.items (place + 1)) }
    {
        let block = &plan.blocks.list.items()[place];
        let gates = block.gates.items();
        if block.looped {
            self.settle_loop(alloc, net, plan, place, gates)
        } else {
            self.settle_gate(alloc, net, plan, place, gates[0])
        }
    }

    /// The same, where nothing is done for a block that is stable.
    fn settle_place(
        &mut self,
        alloc: Global,
        net: &Netlist,
        plan: &Plan,
        place: usize,
    ) -> Result<(), AllocError>
        requires plan { IsPlanOf net.now plan.now }
        requires kept { AreKept net.now plan.now.blocks self.old.values.items self.old.due.items }
        requires settled { AreSettled net.now plan.now.blocks self.old.values.items place }
        requires within { place < length plan.now.blocks.list }
        ensures kept { AreKept net.now plan.now.blocks self.new.values.items self.new.due.items }
        ensures vector { vector_of net.now self.new.values.items ≡ vector_of net.now self.old.values.items }
        ensures settled { OnOk result (AreSettled net.now plan.now.blocks self.new.values.items (place + 1)) }
    {
        if self.due[place] {
            self.settle_block(alloc, net, plan, place)
        } else {
            Ok(())
        }
    }

    /// Settles all blocks in their order, and leaves those as they are that are stable.
    pub fn settle(&mut self, alloc: Global, net: &Netlist, plan: &Plan) -> Result<(), AllocError>
        requires plan { IsPlanOf net.now plan.now }
        requires kept { AreKept net.now plan.now.blocks self.old.values.items self.old.due.items }
        ensures kept { AreKept net.now plan.now.blocks self.new.values.items self.new.due.items }
        ensures settled { OnOk result (self.new.values.items ≡ fix net.now (vector_of net.now self.old.values.items)) }
    {
        for place in 0..plan.blocks.list.items().len() {
            self.settle_place(alloc, net, plan, place)?;
        }
        Ok(())
    }
}

//! A sweep of a loop from its cut wires, as clauses.
ghost use Rattle.std.specs.Prelude.{◌≡◌, ℕ, ◌<◌, true, List, Bool, length, All, IfOk, IfErr, OnOk, IfSome, IfNone, ◌⊎◌, Contains, slice_index};
ghost use Rattle.std.specs.List.{AllZip};
ghost use Rattle.cyc_base.specs.declared.trit.Trit.TheVariants.{X};
ghost use Rattle.netlist.specs.Netlists.{count, IsNetlist, IsSignal};
ghost use Rattle.loops.specs.Blocks.{block_at};
ghost use Rattle.loops.specs.Cuts.{loops_by};
ghost use Rattle.loops.specs.Placing.{Rise};
ghost use Rattle.clause_formulas.specs.declared.formula.Formula.{Formula as TheFormula};
ghost use Rattle.ternary_clauses.specs.Faults.{IsFull, HasLargeIn};
ghost use Rattle.clause_formulas.specs.Formulas.{IsFormula, IsModel};
ghost use Rattle.ternary_clauses.specs.declared.fault.ClausesFault.TheVariants.{TooMany};
ghost use Rattle.ternary_clauses.specs.Rails.{Reads, AreWithin, unknown_rails as unknown_rails_of};
ghost use Rattle.ternary_clauses.specs.Sweeps.{SaysSweep, AreCopies, IsSeen, IsCopyWithin, IsCopyOf, BindsCopy, AreCopied};

use crate::binding::bind_cover;
use crate::fault::ClausesFault;
use crate::rails::{Rails, new_wire};
use clause_formulas::Formula;
use cyc_base::Sig;
use loops::LoopedNetlist;
use netlist::{Gate, Netlist};
use std::alloc::{AllocError, Global};
use std::marker::Model;

/// Rails that are unknown in each model, as cut wires are before the first sweep.
pub fn unknown_rails() -> Rails
    ensures rails { result ≡ unknown_rails_of }
    ensures reads { (f : TheFormula) (m : List Bool) → IsFormula f → IsModel m f → Reads m result X }
    ensures within { (f : TheFormula) → IsFormula f → AreWithin f.variables result }
{
    Rails {
        one: 1,
        zero: 1,
        known: 1,
    }
}

// New rails, which stand for any values.
fn add_copies(
    alloc: Global,
    formula: &mut Formula,
    count: usize,
) -> Result<Vec<Rails>, ClausesFault>
    requires { IsFormula formula.old }
    ensures copies { IfOk result (λ copies. AreCopies formula.old formula.new copies.items count) }
    ensures many { IfErr result (λ fault. fault ≡ TooMany → IsFull formula.new) }
{
    let mut copies = Vec::new(alloc);
    for _ in 0..count {
        let wire = new_wire(formula)?;
        copies.push(wire)?;
    }
    Ok(copies)
}

// The place of a gate among these, which are in flat order.
fn place_of(gates: &[u32], gate: u32) -> Option<usize>
    requires { Rise gates.now }
    ensures some { IfSome result (λ place. (place < length gates.now) × (slice_index gates.now place ≡ gate)) }
    ensures none { IfNone result (¬ Contains gates.now gate) }
{
    match gates.binary_search(&gate) {
        Ok(place) => Some(place),
        Err(_) => None,
    }
}

/// A copy of a loop's gates in clauses: their rails before a sweep and after it.
#[derive(Drop)]
struct LoopCopy<'a> {
    net: &'a Netlist,
    // The gates of the loop, in flat order.
    gates: &'a [u32],
    // Marks of the cut wires among all gates.
    cut: &'a [bool],
    // The rails of all signals.
    rails: &'a [Rails],
    before: &'a [Rails],
    after: &'a [Rails],
}

impl<'a> Model for LoopCopy<'a> {
    ghost use Rattle.ternary_clauses.specs.Sweeps.{CopiedLoop, IsCopiedLoop};

    ghost Value = { CopiedLoop };

    ghost view = { λ c. record { net = c.net.now; gates = c.gates.now; cut = c.cut.now; rails = c.rails.now; before = c.before.now; after = c.after.now } };

    ghost invariant = { λ c. IsCopiedLoop (record { net = c.net.now; gates = c.gates.now; cut = c.cut.now; rails = c.rails.now; before = c.before.now; after = c.after.now }) };
}

impl<'a> LoopCopy<'a> {
    // The rails of what a gate of the loop sees of a signal.
    fn seen(&self, pin: Sig) -> Rails
        requires { IsSignal self.now.net pin }
        ensures seen { IsSeen self.now pin result }
        ensures within { (v : ℕ) → IsCopyWithin v self.now → AreWithin v result }
    {
        let outside = self.rails[pin.0 as usize];
        let Some(gate) = self.net.driver(pin) else {
            return outside;
        };
        match place_of(self.gates, gate) {
            None => outside,
            Some(place) => {
                if self.cut[gate as usize] {
                    self.before[place]
                } else {
                    self.after[place]
                }
            }
        }
    }

    // The rails of what a gate of the loop sees on its pins.
    fn seen_pins(&self, alloc: Global, gate: &Gate) -> Result<Vec<Rails>, AllocError>
        requires { All (IsSignal self.now.net) gate.now.pins }
        ensures seen { IfOk result (λ pins. AllZip (IsSeen self.now) gate.now.pins pins.items) }
        ensures within { IfOk result (λ pins. (v : ℕ) → IsCopyWithin v self.now → All (AreWithin v) pins.items) }
    {
        let signals = gate.pins.items();
        let mut pins = Vec::new(alloc);
        for pin in signals {
            pins.push(self.seen(*pin))?;
        }
        Ok(pins)
    }

    // Binds the rails of the gate at this place.
    fn bind(&self, alloc: Global, formula: &mut Formula, place: usize) -> Result<(), ClausesFault>
        requires copy { IsCopyOf formula.old self.now }
        requires place { place < length self.now.gates }
        ensures copy { OnOk result (BindsCopy self.now place formula.old formula.new) }
        ensures valid { IsNetlist self.now.net }
        ensures many { IfErr result (λ fault. fault ≡ TooMany → IsFull formula.new ⊎ HasLargeIn self.now.net self.now.gates) }
    {
        let read = self.net.gate(self.gates[place]);
        let pins = self.seen_pins(alloc, read)?;
        bind_cover(alloc, formula, &read.cover, &pins, self.after[place])
    }

    // Binds the rails of each gate.
    fn bind_all(&self, alloc: Global, formula: &mut Formula) -> Result<(), ClausesFault>
        requires { IsCopyOf formula.old self.now }
        ensures copied { OnOk result (AreCopied self.now formula.old formula.new (length self.now.gates)) }
        ensures many { IfErr result (λ fault. fault ≡ TooMany → IsFull formula.new ⊎ HasLargeIn self.now.net self.now.gates) }
    {
        for place in 0..self.gates.len() {
            self.bind(alloc, formula, place)?;
        }
        Ok(())
    }
}

/// Says what one sweep makes of a loop, in the order of its gates: each has the value of its cover, where cut wires are
/// read from before the sweep, and what is outside the loop from the fixpoint (Malik 1994; Shiple, Berry and Touati
/// 1996). The loop is the block at this place. `TooMany` comes only where the formula has no room for three more of
/// 2,147,483,647 variables, or the size of a cover of the loop is over 262,144.
pub fn add_sweep(
    alloc: Global,
    formula: &mut Formula,
    looped: &LoopedNetlist<'_>,
    block: u32,
    rails: &[Rails],
    before: &[Rails],
) -> Result<Vec<Rails>, ClausesFault>
    requires formula { IsFormula formula.old }
    requires block { block < length looped.now.blocks.list }
    requires looped { (block_at looped.now.blocks block).looped ≡ true }
    requires rails { length rails.now ≡ count looped.now.net }
    requires rails_in { All (AreWithin formula.old.variables) rails.now }
    requires before { length before.now ≡ length (block_at looped.now.blocks block).gates }
    requires before_in { All (AreWithin formula.old.variables) before.now }

    ensures says { IfOk result (λ after. SaysSweep looped.now.net (loops_by looped.now.blocks looped.now.cut) (block_at looped.now.blocks block).gates rails.now before.now formula.old formula.new after.items) }
    ensures many { IfErr result (λ fault. fault ≡ TooMany → IsFull formula.new ⊎ HasLargeIn looped.now.net (block_at looped.now.blocks block).gates) }
{
    let gates = looped.blocks().list.items()[block as usize].gates.items();
    let after = add_copies(alloc, formula, gates.len())?;
    let copy = LoopCopy {
        net: looped.net(),
        gates,
        cut: looped.cut().wires.items(),
        rails,
        before,
        after: &after,
    };
    copy.bind_all(alloc, formula)?;
    Ok(after)
}

//! What stands for each signal in a case, and the copies of gates.

ghost use Rattle.std.specs.Prelude.{◌≡◌, ◌+◌, ◌<◌, ◌≤◌, length, map, All, IfOk, OnOk};
ghost use Rattle.netlist.specs.Fixpoint.{fix};
ghost use Rattle.netlist.specs.Netlists.{count, gate_at};
ghost use Rattle.loops.specs.Sweeps.{first_gate};
ghost use Rattle.ternary_run.specs.Reading.{IsFanoutOf};
ghost use Rattle.case_split.specs.Added.{AreNew, IsAdded};
ghost use Rattle.case_split.specs.Operands.{IsWithin};
ghost use Rattle.case_split.specs.Tables.{operand_at, plain_of, ArePlain, IsCopyStep, AreCopySteps};

use crate::added::{Added, Base};
use crate::operands::Operand;
use cyc_base::{Sig, Trit};
use netlist::Netlist;
use std::alloc::{AllocError, Global};
use ternary_run::Fanout;

/// What stands for a signal of this value: a constant where it is known, else itself.
fn plain(value: Trit, signal: Sig) -> Operand
    ensures { result ≡ plain_of value signal }
{
    match value {
        Trit::Zero => Operand::Constant(false),
        Trit::One => Operand::Constant(true),
        Trit::X => Operand::Wire(signal),
    }
}

/// What stands for each signal of these values before any gate is copied.
fn plain_table(alloc: Global, values: &[Trit]) -> Result<Vec<Operand>, AllocError>
    requires { length values.now ≤ 4294967295 }
    ensures { IfOk result (λ table. ArePlain values.now table.items) }
{
    let mut table = Vec::with_capacity(alloc, values.len())?;
    for (number, value) in values.iter().enumerate() {
        table.push(plain(*value, Sig(number as u32)))?;
    }
    Ok(table)
}

/// What stands for each signal at a vector before any gate is copied.
pub(crate) fn settled_table(
    alloc: Global,
    net: &Netlist,
    fanout: &Fanout,
    given: &[Trit],
) -> Result<Vec<Operand>, AllocError>
    requires fanout { IsFanoutOf net.now fanout.now }
    requires width { length given.now ≡ first_gate net.now }
    ensures plain { IfOk result (λ table. ArePlain (fix net.now given.now) table.items) }
    ensures width { IfOk result (λ table. length table.items ≡ count net.now) }
{
    net.laws();
    let values = fanout.settle(alloc, net, given)?;
    plain_table(alloc, &values)
}

pub(crate) fn operand_of(table: &[Operand], signal: Sig) -> Operand
    requires { signal.0 < length table.now }
    ensures { result ≡ operand_at table.now signal }
{
    table[signal.0 as usize]
}

pub(crate) fn operands_of(
    alloc: Global,
    table: &[Operand],
    signals: &[Sig],
) -> Result<Vec<Operand>, AllocError>
    requires { All (λ signal. signal.0 < length table.now) signals.now }
    ensures { IfOk result (λ operands. operands.items ≡ map (operand_at table.now) signals.now) }
{
    signals
        .iter()
        .map(|signal| operand_of(table, *signal))
        .collect(alloc)
}

/// What stands for a gate of which a copy is added, where these operands stand for what it reads.
fn copy_of(
    alloc: Global,
    base: &Base<'_>,
    added: &mut Added,
    table: &[Operand],
    gate: u32,
) -> Result<Operand, AllocError>
    requires gate { gate < length base.now.net.now.gates }
    requires room { count base.now.net.now + length added.old.gates.items < 4294967295 }
    requires new { AreNew base.now.net.now added.old.gates.items }
    requires width { length table.now ≡ count base.now.net.now }
    requires within { All (IsWithin (count base.now.net.now + length added.old.gates.items)) table.now }
    ensures { IfOk result (IsAdded base.now.net.now (gate_at base.now.net.now gate).cover (map (operand_at table.now) (gate_at base.now.net.now gate).pins) added.old.gates.items added.new.gates.items) }
{
    let own = base.net.gate(gate);
    let operands = operands_of(alloc, table, own.pins.items())?;
    added.add(alloc, base, &own.name, &own.cover, &operands)
}

/// Copies a gate, unless something stands for it already.
fn copy_gate(
    alloc: Global,
    base: &Base<'_>,
    added: &mut Added,
    table: &mut Vec<Operand>,
    gate: u32,
) -> Result<(), AllocError>
    requires gate { gate < length base.now.net.now.gates }
    requires room { count base.now.net.now + length added.old.gates.items < 4294967295 }
    requires new { AreNew base.now.net.now added.old.gates.items }
    requires width { length table.old.items ≡ count base.now.net.now }
    requires within { All (IsWithin (count base.now.net.now + length added.old.gates.items)) table.old.items }
    ensures { OnOk result (IsCopyStep base.now.net.now gate added.old.gates.items added.new.gates.items table.old.items table.new.items) }
{
    let signal = base.net.gate_sig(gate);
    if operand_of(table, signal) != Operand::Wire(signal) {
        return Ok(());
    }
    let operand = copy_of(alloc, base, added, table, gate)?;
    table[signal.0 as usize] = operand;
    Ok(())
}

/// Copies these gates, one after another. A pin whose gate isn't copied yet reads the netlist's own gate.
pub(crate) fn copy_gates(
    alloc: Global,
    base: &Base<'_>,
    added: &mut Added,
    table: &mut Vec<Operand>,
    gates: &[u32],
) -> Result<(), AllocError>
    requires gates { All (λ n. n < length base.now.net.now.gates) gates.now }
    requires room { count base.now.net.now + length added.old.gates.items + length gates.now ≤ 4294967295 }
    requires new { AreNew base.now.net.now added.old.gates.items }
    requires width { length table.old.items ≡ count base.now.net.now }
    requires within { All (IsWithin (count base.now.net.now + length added.old.gates.items)) table.old.items }
    ensures { OnOk result (AreCopySteps base.now.net.now gates.now added.old.gates.items added.new.gates.items table.old.items table.new.items) }
{
    for gate in gates {
        copy_gate(alloc, base, added, table, *gate)?;
    }
    Ok(())
}

//! The columns from which most ways lead into loops.

ghost use Rattle.std.specs.Prelude.{◌≡◌, ◌<◌, ℕ, length, All, IfOk, OnOk};
ghost use Rattle.netlist.specs.Netlists.{count, IsSignal};
ghost use Rattle.loops.specs.Sweeps.{first_gate};
ghost use Rattle.case_split.specs.Ways.{IsWay};

use cyc_base::Sig;
use netlist::Netlist;
use std::alloc::{AllocError, Global};

/// The most columns that are tried.
const MOST_COLUMNS: usize = 64;

/// What was met on the way upstream.
struct Way {
    seen: Vec<bool>,
    /// How many ways were met from each signal.
    weights: Vec<u64>,
    /// Gates whose pins are still to be read, behind those whose pins were.
    gates: Vec<u32>,
    columns: Vec<u32>,
}

impl Drop for Way {
    fn drop(self) {
        let Way {
            seen: _,
            weights: _,
            gates: _,
            columns: _,
        } = self;
    }
}

/// Meets a signal by so many ways.
fn meet(net: &Netlist, way: &mut Way, signal: Sig, weight: u64) -> Result<(), AllocError>
    requires signal { IsSignal net.now signal }
    requires way { IsWay net.now way.old.seen.items way.old.weights.items way.old.gates.items way.old.columns.items }
    ensures { OnOk result (IsWay net.now way.new.seen.items way.new.weights.items way.new.gates.items way.new.columns.items) }
{
    let number = signal.0 as usize;
    way.weights[number] = way.weights[number].saturating_add(weight);
    if way.seen[number] {
        return Ok(());
    }
    way.seen[number] = true;
    match net.driver(signal) {
        Some(gate) => way.gates.push(gate)?,
        None => way.columns.push(signal.0)?,
    }
    Ok(())
}

/// Meets what a gate reads.
fn read(net: &Netlist, way: &mut Way, gate: u32) -> Result<(), AllocError>
    requires gate { gate < length net.now.gates }
    requires way { IsWay net.now way.old.seen.items way.old.weights.items way.old.gates.items way.old.columns.items }
    ensures { OnOk result (IsWay net.now way.new.seen.items way.new.weights.items way.new.gates.items way.new.columns.items) }
{
    let weight = way.weights[net.gate_sig(gate).0 as usize];
    for pin in net.gate(gate).pins.items() {
        meet(net, way, *pin, weight)?;
    }
    Ok(())
}

/// One way begins at each of these gates.
fn begin(net: &Netlist, way: &mut Way, gates: &[u32]) -> Result<(), AllocError>
    requires gates { All (λ n. n < length net.now.gates) gates.now }
    requires way { IsWay net.now way.old.seen.items way.old.weights.items way.old.gates.items way.old.columns.items }
    ensures { OnOk result (IsWay net.now way.new.seen.items way.new.weights.items way.new.gates.items way.new.columns.items) }
{
    for gate in gates {
        meet(net, way, net.gate_sig(*gate), 1)?;
    }
    Ok(())
}

/// Goes all the way upstream.
fn follow(net: &Netlist, way: &mut Way) -> Result<(), AllocError>
    requires { IsWay net.now way.old.seen.items way.old.weights.items way.old.gates.items way.old.columns.items }
    ensures { OnOk result (IsWay net.now way.new.seen.items way.new.weights.items way.new.gates.items way.new.columns.items) }
{
    for place in 0..net.gates() as usize {
        if place >= way.gates.len() {
            break;
        }
        let gate = way.gates[place];
        read(net, way, gate)?;
    }
    Ok(())
}

fn weight_of(weights: &[u64], column: u32) -> u64 {
    weights.get(column as usize).copied().unwrap_or(0)
}

/// Those of the greatest weight, at most 64.
fn heaviest(alloc: Global, weights: &[u64], columns: &[u32]) -> Result<Vec<u32>, AllocError>
    ensures { IfOk result (λ heavy. (bound : ℕ) → All (λ column. column < bound) columns.now → All (λ column. column < bound) heavy.items) }
{
    let mut heavy = columns.to_vec(alloc)?;
    heavy.sort_by_key(|column| u64::MAX - weight_of(weights, *column))?;
    heavy.truncate(MOST_COLUMNS);
    Ok(heavy)
}

fn new_way(alloc: Global, net: &Netlist) -> Result<Way, AllocError>
    ensures { IfOk result (λ way. IsWay net.now way.seen.items way.weights.items way.gates.items way.columns.items) }
{
    let count = net.count() as usize;
    Ok(Way {
        seen: vec![in alloc; false; count]?,
        weights: vec![in alloc; 0_u64; count]?,
        gates: Vec::new(alloc),
        columns: Vec::new(alloc),
    })
}

/// The columns from which most ways lead to these gates upstream, at most 64, those with the most ways first.
///
/// Each gate that is met is gone through once, with the ways by which it was met until then.
///
/// The condition is that the gates are the netlist's.
pub fn near_columns(alloc: Global, net: &Netlist, gates: &[u32]) -> Result<Vec<u32>, AllocError>
    requires { All (λ n. n < length net.now.gates) gates.now }
    ensures { IfOk result (λ columns. All (λ column. column < first_gate net.now) columns.items) }
{
    let mut way = new_way(alloc, net)?;
    begin(net, &mut way, gates)?;
    follow(net, &mut way)?;
    let columns = heaviest(alloc, &way.weights, &way.columns)?;
    Ok(columns)
}

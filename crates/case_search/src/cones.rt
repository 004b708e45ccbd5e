//! A region with all that lies upstream of it, as a netlist of its own: what values of columns leave of the region's loops is
//! found there, in time that doesn't depend on the rest of the netlist.

ghost use Rattle.std.specs.Prelude.{◌<◌, ◌≤◌, length, All, IfOk, IfSome};
ghost use Rattle.case_search.specs.Searches.{IsCone};

use crate::cases_shown::has_columns;
use case_split::{ColumnValue, LeftOver, left_in_loops, near_columns};
use cyc_base::{Items, Name, Sig};
use indexmap::IndexSet;
use netlist::{Gate, Netlist, Parts, PartsFault, copy_gate};
use std::alloc::{AllocError, Global};
use ternary_run::Fanout;

/// What is left where there are no loops and no gates.
pub(crate) const NOTHING: LeftOver = LeftOver {
    gates: 0,
    pins: 0,
    depth: 0,
};

/// A region with all that lies upstream of it. Its inputs are the columns there, latches too.
pub(crate) struct RegionCone {
    net: Netlist,
    fanout: Fanout,
    /// The region's gates, by their numbers in the cone.
    gates: Vec<u32>,
    /// The signals of the whole netlist that are the cone's, in their order.
    signals: Vec<u32>,
}

impl Drop for RegionCone {
    fn drop(self) {
        let RegionCone {
            net: _,
            fanout: _,
            gates: _,
            signals: _,
        } = self;
    }
}

/// What a signal's gate reads. A column reads nothing.
fn pins_of(net: &Netlist, signal: u32) -> &[Sig] {
    match signal.checked_sub(net.columns()) {
        Some(gate) if gate < net.gates() => net.gate(gate).pins.items(),
        _ => &[],
    }
}

/// Meets what the gate reads whose signal was met at a place. False where no signal was.
fn meet_pins(net: &Netlist, met: &mut IndexSet<u32>, place: usize) -> Result<bool, AllocError> {
    let Some(signal) = met.get_index(place) else {
        return Ok(false);
    };
    for pin in pins_of(net, *signal) {
        met.insert(pin.0)?;
    }
    Ok(true)
}

/// Meets the signals of these gates.
fn meet_gates(net: &Netlist, met: &mut IndexSet<u32>, gates: &[u32]) -> Result<(), AllocError>
    requires { All (λ n. n < length net.now.gates) gates.now }
{
    for gate in gates {
        met.insert(net.gate_sig(*gate).0)?;
    }
    Ok(())
}

/// Meets all signals upstream of those that were met.
fn meet_upstream(net: &Netlist, met: &mut IndexSet<u32>) -> Result<(), AllocError> {
    for place in 0..net.count() as usize {
        if !meet_pins(net, met, place)? {
            break;
        }
    }
    Ok(())
}

/// Meets these gates and all upstream of them, and answers all that was met, in the order of the numbers.
fn meet_cone(
    alloc: Global,
    net: &Netlist,
    met: &mut IndexSet<u32>,
    gates: &[u32],
) -> Result<Vec<u32>, AllocError>
    requires { All (λ n. n < length net.now.gates) gates.now }
{
    meet_gates(net, met, gates)?;
    meet_upstream(net, met)?;
    let mut signals = met.as_slice().to_vec(alloc)?;
    signals.sort_unstable();
    Ok(signals)
}

/// The signals of these gates and all upstream of them, in the order of their numbers.
fn signals_of(alloc: Global, net: &Netlist, gates: &[u32]) -> Result<Vec<u32>, AllocError>
    requires { All (λ n. n < length net.now.gates) gates.now }
{
    let mut met = IndexSet::new(alloc);
    meet_cone(alloc, net, &mut met, gates)
}

/// The number in the cone of a signal of the whole netlist.
fn place_of(signals: &[u32], signal: u32) -> Option<u32> {
    match signals.binary_search(&signal) {
        Ok(place) => u32::try_from(place).ok(),
        Err(_) => None,
    }
}

/// The pins of a gate, by their numbers in the cone, which has all of them.
fn moved_pins(alloc: Global, signals: &[u32], pins: &[Sig]) -> Result<Vec<Sig>, AllocError> {
    let mut moved = Vec::with_capacity(alloc, pins.len())?;
    for pin in pins {
        if let Some(place) = place_of(signals, pin.0) {
            moved.push(Sig(place))?;
        }
    }
    Ok(moved)
}

fn moved_gate(
    alloc: Global,
    net: &Netlist,
    signals: &[u32],
    number: u32,
) -> Result<Gate, AllocError>
    requires { number < length net.now.gates }
{
    let own = net.gate(number);
    let pins = moved_pins(alloc, signals, own.pins.items())?;
    let mut gate = copy_gate(alloc, own)?;
    gate.pins = Items::of(pins);
    Ok(gate)
}

/// The names of the columns among these signals.
fn names_of(alloc: Global, net: &Netlist, signals: &[u32]) -> Result<Vec<Name>, AllocError> {
    let mut names = Vec::new(alloc);
    for signal in signals {
        if *signal < net.columns() {
            names.push(net.name_of(Sig(*signal)).copy()?)?;
        }
    }
    Ok(names)
}

/// The gates among these signals.
fn gates_of(alloc: Global, net: &Netlist, signals: &[u32]) -> Result<Vec<Gate>, AllocError> {
    let mut gates = Vec::new(alloc);
    for signal in signals {
        if let Some(number) = signal.checked_sub(net.columns()) {
            if number < net.gates() {
                gates.push(moved_gate(alloc, net, signals, number)?)?;
            }
        }
    }
    Ok(gates)
}

fn parts_of(alloc: Global, net: &Netlist, signals: &[u32]) -> Result<Parts, AllocError> {
    let name = net.name().copy()?;
    let inputs = Items::of(names_of(alloc, net, signals)?);
    let gates = Items::of(gates_of(alloc, net, signals)?);
    Ok(Parts {
        name,
        inputs,
        clock: None,
        latches: Items::of(Vec::new(alloc)),
        gates,
        outputs: Items::of(Vec::new(alloc)),
    })
}

/// The netlist of these signals, or none were they not to make one.
fn netlist_of(
    alloc: Global,
    net: &Netlist,
    signals: &[u32],
) -> Result<Option<Netlist>, AllocError> {
    match Netlist::new(alloc, parts_of(alloc, net, signals)?) {
        Ok(own) => Ok(Some(own)),
        Err(PartsFault::Memory) => Err(AllocError),
        Err(_) => Ok(None),
    }
}

/// The number in the cone of a gate of the whole netlist.
fn number_of(net: &Netlist, own: &Netlist, signals: &[u32], gate: u32) -> Option<u32>
    requires { gate < length net.now.gates }
    ensures { IfSome result (λ number. number < length own.now.gates) }
{
    let place = place_of(signals, net.gate_sig(gate).0)?;
    let number = place.checked_sub(own.columns())?;
    if number < own.gates() {
        Some(number)
    } else {
        None
    }
}

/// These gates by their numbers in the cone.
fn numbers_of(
    alloc: Global,
    net: &Netlist,
    own: &Netlist,
    signals: &[u32],
    gates: &[u32],
) -> Result<Vec<u32>, AllocError>
    requires { All (λ n. n < length net.now.gates) gates.now }
    ensures within { IfOk result (λ numbers. All (λ n. n < length own.now.gates) numbers.items) }
    ensures few { IfOk result (λ numbers. length numbers.items ≤ length gates.now) }
{
    let mut numbers = Vec::new(alloc);
    for gate in gates {
        if let Some(number) = number_of(net, own, signals, *gate) {
            numbers.push(number)?;
        }
    }
    Ok(numbers)
}

impl RegionCone {
    /// The cone of these gates.
    pub(crate) fn of(
        alloc: Global,
        net: &Netlist,
        gates: &[u32],
    ) -> Result<Option<RegionCone>, AllocError>
        requires gates { All (λ n. n < length net.now.gates) gates.now }
        requires few { length gates.now < 4294967295 }
        ensures { IfOk result (λ found. IfSome found IsCone) }
    {
        let signals = signals_of(alloc, net, gates)?;
        let Some(own) = netlist_of(alloc, net, &signals)? else {
            return Ok(None);
        };
        let gates = numbers_of(alloc, net, &own, &signals, gates)?;
        let fanout = Fanout::of(alloc, &own)?;
        Ok(Some(RegionCone {
            net: own,
            fanout,
            gates,
            signals,
        }))
    }

    /// How many gates it has.
    pub(crate) fn len(&self) -> usize {
        self.net.gates() as usize
    }

    /// The columns of the whole netlist from which most ways lead into the region.
    pub(crate) fn near_columns(&self, alloc: Global) -> Result<Vec<u32>, AllocError>
        requires { IsCone self.now }
    {
        let near = near_columns(alloc, &self.net, &self.gates)?;
        near.iter()
            .filter_map(|column| self.signals.get(*column as usize).copied())
            .collect(alloc)
    }

    /// These values, of those columns that lie in the cone.
    fn own_values(
        &self,
        alloc: Global,
        values: &[ColumnValue],
    ) -> Result<Vec<ColumnValue>, AllocError> {
        let mut own = Vec::new(alloc);
        for value in values {
            if let Some(column) = place_of(&self.signals, value.column) {
                own.push(ColumnValue {
                    column,
                    value: value.value,
                })?;
            }
        }
        Ok(own)
    }

    /// What is left of the region's loops where columns of the whole netlist have these values. All places are the cone's:
    /// were one not, nothing would be said.
    pub(crate) fn left_by(
        &self,
        alloc: Global,
        values: &[ColumnValue],
    ) -> Result<LeftOver, AllocError>
        requires { IsCone self.now }
    {
        let own = self.own_values(alloc, values)?;
        if !has_columns(&self.net, &own) {
            return Ok(NOTHING);
        }
        left_in_loops(alloc, &self.net, &self.fanout, &self.gates, &own)
    }
}

//! What is kept of the netlist.

ghost use Rattle.std.specs.Prelude.{◌≡◌, ◌<◌, ◌≤◌, ◌++◌, ℕ, true, length, map, All, IfOk, OnOk};
ghost use Rattle.std.specs.List.{range_with_len};
ghost use Rattle.netlist.specs.Netlists.{IsNetlist, count, gate_at, is_marked, columns as column_count};
ghost use Rattle.netlist.specs.Orders.{numbers_from};
ghost use Rattle.care_rows.specs.Rows.{AreSteadyRows};
ghost use Rattle.care_rows.specs.Restricted.{gates_of_rows as gates_of};
ghost use Rattle.care_rows.specs.Models.{kept_signal as kept_signal_of, kept_gate as kept_gate_of, all_marked, column_name, if_marked};

use crate::rows::Row;
use cyc_base::{Items, Name, Sig};
use netlist::{Gate, Netlist};
use std::alloc::{AllocError, Global};

/// Adds the gates that drive the wires of a row.
fn add_drivers(columns: u32, row: &Row, gates: &mut Vec<u32>) -> Result<(), AllocError>
    ensures { OnOk result (gates.new.items ≡ gates.old.items ++ numbers_from columns (map (λ e. e.wire) row.now.values)) }
{
    for asked in row.values.items() {
        if asked.wire.0 >= columns {
            gates.push(asked.wire.0 - columns)?;
        }
    }
    Ok(())
}

/// The gates that drive the wires of the rows.
pub(crate) fn gates_of_rows(
    alloc: Global,
    net: &Netlist,
    rows: &[Row],
) -> Result<Vec<u32>, AllocError>
    ensures { IfOk result (λ gates. gates.items ≡ gates_of net.now rows.now) }
{
    let mut gates = Vec::new(alloc);
    for row in rows {
        add_drivers(net.columns(), row, &mut gates)?;
    }
    Ok(gates)
}

/// Where a signal stands.
pub(crate) fn kept_signal(places: &[u32], signal: Sig) -> Sig
    requires { signal.0 < length places.now }
    ensures { result ≡ kept_signal_of places.now signal }
{
    Sig(places[signal.0 as usize])
}

/// A gate with its pins where they stand.
fn kept_gate(alloc: Global, net: &Netlist, places: &[u32], number: u32) -> Result<Gate, AllocError>
    requires number { number < length net.now.gates }
    requires places { length places.now ≡ count net.now }
    ensures { IfOk result (λ gate. gate ≡ kept_gate_of net.now places.now number) }
{
    let own = net.gate(number);
    let name = own.name.copy()?;
    let pins = moved_pins(alloc, places, own.pins.items())?;
    let cover = own.cover.copy()?;
    Ok(Gate {
        name,
        pins: Items::of(pins),
        cover,
    })
}

/// The pins of a gate where they stand.
fn moved_pins(alloc: Global, places: &[u32], pins: &[Sig]) -> Result<Vec<Sig>, AllocError>
    requires { All (λ pin. pin.0 < length places.now) pins.now }
    ensures { IfOk result (λ moved. moved.items ≡ map (kept_signal_of places.now) pins.now) }
{
    pins.iter()
        .map(|pin| kept_signal(places, *pin))
        .collect(alloc)
}

/// Adds a gate, if it is marked.
fn add_kept(
    alloc: Global,
    net: &Netlist,
    places: &[u32],
    cone: &[bool],
    number: u32,
    gates: &mut Vec<Gate>,
) -> Result<(), AllocError>
    requires number { number < length net.now.gates }
    requires cone { length cone.now ≡ length net.now.gates }
    requires places { length places.now ≡ count net.now }
    ensures { OnOk result (gates.new.items ≡ gates.old.items ++ map (kept_gate_of net.now places.now) (if_marked cone.now number)) }
{
    if cone[number as usize] {
        gates.push(kept_gate(alloc, net, places, number)?)?;
    }
    Ok(())
}

/// The marked gates.
pub(crate) fn kept_gates(
    alloc: Global,
    net: &Netlist,
    places: &[u32],
    cone: &[bool],
) -> Result<Vec<Gate>, AllocError>
    requires cone { length cone.now ≡ length net.now.gates }
    requires places { length places.now ≡ count net.now }
    ensures { IfOk result (λ gates. gates.items ≡ map (kept_gate_of net.now places.now) (all_marked cone.now)) }
{
    let mut gates = Vec::new(alloc);
    for number in 0..net.gates() {
        add_kept(alloc, net, places, cone, number, &mut gates)?;
    }
    Ok(gates)
}

/// Adds the name of a column, if it is marked.
fn add_input(
    net: &Netlist,
    used: &[bool],
    column: u32,
    names: &mut Vec<Name>,
) -> Result<(), AllocError>
    requires column { column < column_count net.now }
    requires used { length used.now ≡ column_count net.now }
    ensures { OnOk result (names.new.items ≡ names.old.items ++ map (column_name net.now) (if_marked used.now column)) }
{
    if used[column as usize] {
        names.push(net.name_of(Sig(column)).copy()?)?;
    }
    Ok(())
}

/// The names of the marked columns.
pub(crate) fn kept_inputs(
    alloc: Global,
    net: &Netlist,
    used: &[bool],
) -> Result<Vec<Name>, AllocError>
    requires { length used.now ≡ column_count net.now }
    ensures { IfOk result (λ names. names.items ≡ map (column_name net.now) (all_marked used.now)) }
{
    let mut names = Vec::new(alloc);
    for column in 0..net.columns() {
        add_input(net, used, column, &mut names)?;
    }
    Ok(names)
}

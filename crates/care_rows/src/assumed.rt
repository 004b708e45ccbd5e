//! What is kept of the old assumption: all its gates.

ghost use Rattle.std.specs.Prelude.{◌≡◌, ◌<◌, ◌≤◌, ◌+◌, ◌-◌, ◌++◌, length, map, All, IfOk, OnOk};
ghost use Rattle.std.specs.List.{range_with_len};
ghost use Rattle.care_rows.specs.Models.{assumed_gate as assumed_gate_of, assumed_signal as assumed_signal_of, marked_name as marked_name_of, places_of as places_of_columns};

use cyc_base::{Items, Name, Sig};
use netlist::{Gate, Netlist};
use std::alloc::{AllocError, Global};

/// A name that is added: a text, the mark, and maybe a name.
pub(crate) fn marked_name(
    alloc: Global,
    text: &[u8],
    mark: &Name,
    own: &[u8],
) -> Result<Name, AllocError>
    ensures { IfOk result (λ name. name ≡ marked_name_of text.now mark.now own.now) }
{
    let mut bytes = text.to_vec(alloc)?;
    bytes.extend_from_slice(mark.bytes())?;
    bytes.extend_from_slice(own)?;
    Ok(Name::new(bytes))
}

/// Where these columns stand.
pub(crate) fn places_of(
    alloc: Global,
    places: &[u32],
    columns: &[u32],
) -> Result<Vec<u32>, AllocError>
    requires { All (λ column. column < length places.now) columns.now }
    ensures { IfOk result (λ inputs. inputs.items ≡ places_of_columns places.now columns.now) }
{
    columns
        .iter()
        .map(|column| places[*column as usize])
        .collect(alloc)
}

/// Where a signal of the assumption stands, by the places of its inputs and that of its first gate.
pub(crate) fn assumed_signal(inputs: &[u32], first: u32, signal: Sig) -> Sig
    requires { first + (signal.0 - length inputs.now) ≤ 4294967295 }
    ensures { result ≡ assumed_signal_of inputs.now first signal }
{
    let number = signal.0 as usize;
    if number < inputs.len() {
        Sig(inputs[number])
    } else {
        Sig(first + (number - inputs.len()) as u32)
    }
}

fn assumed_pins(
    alloc: Global,
    inputs: &[u32],
    first: u32,
    pins: &[Sig],
) -> Result<Vec<Sig>, AllocError>
    requires { All (λ pin. first + (pin.0 - length inputs.now) ≤ 4294967295) pins.now }
    ensures { IfOk result (λ signals. signals.items ≡ map (assumed_signal_of inputs.now first) pins.now) }
{
    pins.iter()
        .map(|pin| assumed_signal(inputs, first, *pin))
        .collect(alloc)
}

/// A gate of the assumption.
fn assumed_gate(
    alloc: Global,
    inputs: &[u32],
    first: u32,
    mark: &Name,
    old: &Netlist,
    number: u32,
) -> Result<Gate, AllocError>
    requires number { number < length old.now.gates }
    requires inputs { length inputs.now ≡ length old.now.inputs }
    requires latches { length old.now.latches ≡ 0 }
    requires fits { first + length old.now.gates ≤ 4294967295 }
    ensures { IfOk result (λ gate. gate ≡ assumed_gate_of inputs.now first mark.now old.now number) }
{
    let own = old.gate(number);
    let name = marked_name(alloc, b"assume", mark, own.name.bytes())?;
    let pins = assumed_pins(alloc, inputs, first, own.pins.items())?;
    let cover = own.cover.copy()?;
    Ok(Gate {
        name,
        pins: Items::of(pins),
        cover,
    })
}

/// Adds the gates of the assumption.
pub(crate) fn add_assumed(
    alloc: Global,
    inputs: &[u32],
    first: u32,
    mark: &Name,
    old: &Netlist,
    gates: &mut Vec<Gate>,
) -> Result<(), AllocError>
    requires inputs { length inputs.now ≡ length old.now.inputs }
    requires latches { length old.now.latches ≡ 0 }
    requires fits { first + length old.now.gates ≤ 4294967295 }
    ensures { OnOk result (gates.new.items ≡ gates.old.items ++ map (assumed_gate_of inputs.now first mark.now old.now) (range_with_len 0 (length old.now.gates))) }
{
    for number in 0..old.gates() {
        gates.push(assumed_gate(alloc, inputs, first, mark, old, number)?)?;
    }
    Ok(())
}

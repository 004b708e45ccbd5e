//! The columns that steer the loops of a netlist: those that most pins of gates in loops read, through gates outside.

ghost use Rattle.std.specs.Prelude.{◌≡◌, ◌<◌, ◌≤◌, length, All, IfOk, IfSome};
ghost use Rattle.netlist.specs.Netlists.{columns};

use cyc_base::Sig;
use loops::{LoopedNetlist, gates_at};
use netlist::Netlist;
use std::alloc::{AllocError, Global};

/// How many columns are looked at together, a bit of a number for each.
const TOGETHER: u32 = 64;

/// Which of the columns that are looked at together a signal reads.
fn columns_at(read: &[u64], signal: Sig) -> u64 {
    match read.get(signal.0 as usize) {
        Some(columns) => *columns,
        None => 0,
    }
}

/// Those that a gate's pins read.
fn columns_of_pins(net: &Netlist, gate: u32, read: &[u64]) -> u64
    requires { gate < length net.now.gates }
{
    let mut columns = 0;
    for pin in net.gate(gate).pins.items() {
        columns |= columns_at(read, *pin);
    }
    columns
}

/// Notes what these gates read.
fn note_gates(net: &Netlist, gates: &[u32], read: &mut [u64])
    requires { All (λ gate. gate < length net.now.gates) gates.now }
{
    for gate in gates {
        let columns = columns_of_pins(net, *gate, read);
        if let Some(noted) = read.get_mut(net.gate_sig(*gate).0 as usize) {
            *noted = columns;
        }
    }
}

/// Adds one for each of these columns, the first of which has this place.
fn count_columns(columns: u64, first: usize, counts: &mut [u32])
    ensures { length counts.new ≡ length counts.old }
{
    for (offset, count) in counts
        .iter_mut()
        .skip(first)
        .take(TOGETHER as usize)
        .enumerate()
    {
        if columns >> offset & 1 == 1 {
            *count = count.saturating_add(1);
        }
    }
}

/// Counts the pins of these gates that read columns.
fn count_pins(net: &Netlist, gates: &[u32], read: &[u64], first: usize, counts: &mut [u32])
    requires { All (λ gate. gate < length net.now.gates) gates.now }
    ensures { length counts.new ≡ length counts.old }
{
    for gate in gates {
        for pin in net.gate(*gate).pins.items() {
            count_columns(columns_at(read, *pin), first, counts);
        }
    }
}

/// Which columns each signal reads before a gate is looked at: each column itself.
fn read_by_columns(alloc: Global, net: &Netlist, first: usize) -> Result<Vec<u64>, AllocError> {
    let mut read = vec![in alloc; 0; net.count() as usize]?;
    for (offset, columns) in read
        .iter_mut()
        .take(net.columns() as usize)
        .skip(first)
        .take(TOGETHER as usize)
        .enumerate()
    {
        *columns = 1 << offset;
    }
    Ok(read)
}

/// Counts at how many pins of loops columns arrive, from the one at this place on. What a loop reads isn't passed on.
fn count_from(
    alloc: Global,
    looped: &LoopedNetlist<'_>,
    first: usize,
    counts: &mut [u32],
) -> Result<(), AllocError>
    ensures { length counts.new ≡ length counts.old }
{
    let net = looped.net();
    let mut read = read_by_columns(alloc, net, first)?;
    let list = looped.blocks().list.items();
    for place in 0..list.len() {
        let gates = gates_at(looped, place);
        if list[place].looped {
            count_pins(net, gates, &read, first, counts);
        } else {
            note_gates(net, gates, &mut read);
        }
    }
    Ok(())
}

/// For each column at how many pins of loops it arrives.
fn pins_of_columns(alloc: Global, looped: &LoopedNetlist<'_>) -> Result<Vec<u32>, AllocError>
    ensures width { IfOk result (λ counts. length counts.items ≡ columns looped.now.net) }
    ensures few { IfOk result (λ counts. length counts.items ≤ 4294967295) }
{
    let columns = looped.net().columns();
    let mut counts = vec![in alloc; 0; columns as usize]?;
    for group in 0..columns.div_ceil(TOGETHER) {
        count_from(
            alloc,
            looped,
            group as usize * TOGETHER as usize,
            &mut counts,
        )?;
    }
    Ok(counts)
}

/// The place of the greatest of these counts, if one is more than 0.
fn place_of_greatest(counts: &[u32]) -> Option<usize>
    ensures { IfSome result (λ place. place < length counts.now) }
{
    let mut greatest = 0;
    let mut found = None;
    for place in 0..counts.len() {
        if counts[place] > greatest {
            greatest = counts[place];
            found = Some(place);
        }
    }
    found
}

/// At most so many columns that steer loops, the one first that arrives at most pins.
pub fn steering_columns(
    alloc: Global,
    looped: &LoopedNetlist<'_>,
    most: u32,
) -> Result<Vec<u32>, AllocError>
    ensures { IfOk result (λ steering. All (λ column. column < columns looped.now.net) steering.items) }
{
    let mut counts = pins_of_columns(alloc, looped)?;
    let mut steering = Vec::new(alloc);
    for _ in 0..most {
        let Some(place) = place_of_greatest(&counts) else {
            return Ok(steering);
        };
        counts[place] = 0;
        steering.push(place as u32)?;
    }
    Ok(steering)
}

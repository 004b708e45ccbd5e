//! Wires of the same name.

ghost use Rattle.std.specs.Prelude.{◌≡◌, ◌++◌, IfOk};
ghost use Rattle.netlist.specs.Netlists.{IsSignal, signal_name};
ghost use Rattle.miters.specs.Differences.{column_named, columns_by_name, pair_of, signal_named, source_named, output_pairs as output_pairs_of, latch_pairs as latch_pairs_of};

use crate::matching::latch_of;
use cyc_base::{Name, Sig};
use netlist::{Netlist, Pair};
use std::alloc::{AllocError, Global};

/// The column of this name.
#[tactic(auto, using(crate::proofs::NameLemmas::column_found, crate::proofs::NameLemmas::column_behind, crate::proofs::NameLemmas::column_absent))]
fn column_in(net: &Netlist, name: &Name) -> u32
    ensures { result ≡ column_named net.now name.now }
{
    match net.find(name) {
        Some(signal) => {
            if signal.0 < net.columns() {
                signal.0
            } else {
                0
            }
        }
        None => 0,
    }
}

/// For each column of the second netlist the column of the first that has its name, 0 where there is none.
pub fn find_columns(alloc: Global, a: &Netlist, b: &Netlist) -> Result<Vec<u32>, AllocError>
    ensures { IfOk result (λ columns. columns.items ≡ columns_by_name a.now b.now) }
{
    let mut columns = Vec::new(alloc);
    for number in 0..b.columns() {
        columns.push(column_in(a, b.name_of(Sig(number))))?;
    }
    Ok(columns)
}

/// The signal of this name.
#[tactic(auto, using(crate::proofs::NameLemmas::signal_found, crate::proofs::NameLemmas::signal_absent))]
fn signal_in(net: &Netlist, name: &Name) -> Sig
    ensures { result ≡ signal_named net.now name.now }
{
    match net.find(name) {
        Some(signal) => signal,
        None => Sig(0),
    }
}

/// What the latch of this name loads.
fn source_in(net: &Netlist, name: &Name) -> Sig
    ensures { result ≡ source_named net.now name.now }
{
    match latch_of(net, name) {
        Some(latch) => latch.from,
        None => Sig(0),
    }
}

/// An output of the first netlist, and the signal of the second of the same name.
fn output_pair(a: &Netlist, b: &Netlist, output: Sig) -> Pair
    requires { IsSignal a.now output }
    ensures { result ≡ pair_of output (signal_named b.now (signal_name a.now output)) }
{
    Pair {
        here: output,
        there: signal_in(b, a.name_of(output)),
    }
}

/// The outputs of the first netlist, and the signals of the second of the same names.
pub(crate) fn output_pairs(alloc: Global, a: &Netlist, b: &Netlist) -> Result<Vec<Pair>, AllocError>
    ensures { IfOk result (λ pairs. pairs.items ≡ output_pairs_of a.now b.now) }
{
    a.outputs()
        .iter()
        .map(|output| output_pair(a, b, *output))
        .collect(alloc)
}

/// What the latches of the first netlist load, and what those of the second of the same names do.
pub(crate) fn latch_pairs(alloc: Global, a: &Netlist, b: &Netlist) -> Result<Vec<Pair>, AllocError>
    ensures { IfOk result (λ pairs. pairs.items ≡ latch_pairs_of a.now b.now) }
{
    let mut pairs = Vec::new(alloc);
    for number in 0..a.latches() {
        let latch = a.latch(number);
        let there = source_in(b, &latch.name);
        pairs.push(Pair {
            here: latch.from,
            there,
        })?;
    }
    Ok(pairs)
}

/// The outputs of one name, and what the latches of one name load.
pub(crate) fn own_pairs(alloc: Global, a: &Netlist, b: &Netlist) -> Result<Vec<Pair>, AllocError>
    ensures { IfOk result (λ pairs. pairs.items ≡ output_pairs_of a.now b.now ++ latch_pairs_of a.now b.now) }
{
    let mut pairs = output_pairs(alloc, a, b)?;
    let latches = latch_pairs(alloc, a, b)?;
    pairs.extend_from_slice(&latches)?;
    Ok(pairs)
}

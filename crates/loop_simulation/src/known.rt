//! Cut wires that are known at care vectors: a few vectors are simulated, each for all loops at once.

ghost use Rattle.std.specs.Prelude.{◌≡◌, ◌≢◌, ◌⊎◌, ◌<◌, ℕ, true, length, IfOk, OnOk};
ghost use Rattle.cyc_base.specs.declared.trit.Trit.TheVariants.{X};
ghost use Rattle.netlist.specs.Fixpoint.{wire};
ghost use Rattle.netlist.specs.Netlists.{count, columns, gate_sig as gate_sig_of, is_marked};
ghost use Rattle.care_sets.specs.Binding.{IsCareOf};
ghost use Rattle.loop_simulation.specs.Known.{AreKnownSomewhere};

use care_sets::Care;
use cyc_base::Trit;
use loops::LoopedNetlist;
use netlist::Netlist;
use refusals::is_care_vector;
use std::alloc::{AllocError, Global};
use ternary_run::settle_at;

/// How many vectors are tried at most: all ones, all zeros, and for each bit of a column's number two, so that each two
/// columns have all four pairs of values at some of them.
const MOST_VECTORS: u32 = 64;

/// So many vectors are tried, even if some of them show nothing.
const LEAST_VECTORS: u32 = 4;

/// The value of a column in the vector of this number.
fn value_in(number: u32, column: u32) -> bool {
    let flips = number % 2 == 0;
    let shifted = match number / 2 {
        0 => 0,
        place => column >> ((place - 1) % 32),
    };
    (shifted % 2 == 1) != flips
}

/// The vector of this number.
fn vector_of(alloc: Global, net: &Netlist, number: u32) -> Result<Vec<bool>, AllocError>
    ensures { IfOk result (λ vector. length vector.items ≡ columns net.now) }
{
    (0..net.columns())
        .map(|column| value_in(number, column))
        .collect(alloc)
}

/// Marks those of these wires that aren't X among the values of all signals, and answers whether one wasn't marked before.
fn mark_known(net: &Netlist, wires: &[bool], values: &[Trit], known: &mut [bool]) -> bool
    requires values { length values.now ≡ count net.now }
    requires wires { length wires.now ≡ length net.now.gates }
    requires known { length known.old ≡ length net.now.gates }
    ensures width { length known.new ≡ length known.old }
    ensures marked { (n : ℕ) → is_marked known.new n ≡ true → (is_marked known.old n ≡ true) ⊎ (wire values.now (gate_sig_of net.now n) ≢ X) }
{
    let mut any = false;
    for gate in 0..net.gates() {
        let place = gate as usize;
        let signal = net.gate_sig(gate);
        if wires[place] && !known[place] && values[signal.0 as usize] != Trit::X {
            known[place] = true;
            any = true;
        }
    }
    any
}

/// The same, of the values at a vector, if it is one of care.
fn mark_known_at(
    alloc: Global,
    net: &Netlist,
    care: &Care,
    wires: &[bool],
    vector: &[bool],
    known: &mut [bool],
) -> Result<bool, AllocError>
    requires care { IsCareOf net.now care.now }
    requires vector { length vector.now ≡ columns net.now }
    requires wires { length wires.now ≡ length net.now.gates }
    requires known { AreKnownSomewhere net.now care.now known.old }
    ensures { OnOk result (AreKnownSomewhere net.now care.now known.new) }
{
    if !is_care_vector(alloc, net, care, vector)? {
        return Ok(false);
    }
    let values = settle_at(alloc, net, vector)?;
    Ok(mark_known(net, wires, &values, known))
}

/// Marks of cut wires that are known at some care vector. A wire without a mark may be, too: few vectors are tried, and no
/// more where they show nothing new.
///
/// The condition is that the care set is the netlist's.
pub fn known_cut_wires(
    alloc: Global,
    looped: &LoopedNetlist<'_>,
    care: &Care,
) -> Result<Vec<bool>, AllocError>
    requires care { IsCareOf looped.now.net care.now }
    ensures { IfOk result (λ known. AreKnownSomewhere looped.now.net care.now known.items) }
{
    let net = looped.net();
    let wires = looped.cut().wires.items();
    let mut known = vec![in alloc; false; net.gates() as usize]?;
    for number in 0..MOST_VECTORS {
        let vector = vector_of(alloc, net, number)?;
        let any = mark_known_at(alloc, net, care, wires, &vector, &mut known)?;
        if !any && number >= LEAST_VECTORS {
            return Ok(known);
        }
    }
    Ok(known)
}

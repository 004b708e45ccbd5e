//! The model that keeps an assumption and excludes rows.

ghost use Rattle.std.specs.Prelude.{◌≡◌, ◌≤◌, ◌+◌, ◌-◌, ◌++◌, [], ◌∷◌, length, IfOk, IfErr, OnOk, IfSome, option_copied, option_map};
ghost use Rattle.netlist.specs.Netlists.{IsNetlist, count, signal};
ghost use Rattle.care_sets.specs.Binding.{IsCareOf};
ghost use Rattle.unroll.specs.Marks.{mark as mark_of};
ghost use Rattle.care_rows.specs.Rows.{AreSteadyRows};
ghost use Rattle.care_rows.specs.Restricted.{IsRestricted, IsModelSize, IsRestrictFault};
ghost use Rattle.care_rows.specs.Models.{IsKept, assumed_columns, assumed_gates, assumed_output, assumed_size as assumed_size_of, base_of as base_by, model_gates as model_gates_of, model_of, places_of as places_of_columns, plan_of, total_of};

use crate::assumed::{add_assumed, assumed_signal, places_of};
use crate::fault::RestrictFault;
use crate::keeping::{Kept, keep};
use crate::kept::{kept_gates, kept_inputs};
use crate::rows::{Row, WireValue};
use crate::sizes::{assumed_size, checked_total};
use crate::telling::Tellers;
use care_sets::Care;
use cyc_base::{Items, MAX_FLAT_ITEMS, Name, Sig};
use loops::LoopedNetlist;
use netlist::{Gate, Netlist, Parts, PartsFault};
use std::alloc::{AllocError, Global};
use unroll::mark;

/// What holds of the old assumption, if there is one.
fn assumption_laws(old: Option<&Netlist>)
    ensures { IfSome (option_copied old.entry) IsNetlist }
{
    if let Some(old) = old {
        old.laws();
    }
}

/// Adds the gates of the old assumption, if there is one, and answers what its output should be.
fn add_assumption(
    alloc: Global,
    net: &Netlist,
    care: &Care,
    kept: &Kept,
    mark: &Name,
    gates: &mut Vec<Gate>,
) -> Result<Vec<WireValue>, AllocError>
    requires care { IsCareOf net.now care.now }
    requires places { length kept.now.places.items ≡ count net.now }
    requires fits { kept.now.signals + assumed_size_of (option_map (λ model. model.net) care.now.assume) ≤ 4294967295 }
    ensures gates { OnOk result (gates.new.items ≡ gates.old.items ++ assumed_gates (places_of_columns kept.now.places.items (assumed_columns care.now)) kept.now.signals mark.now (option_map (λ model. model.net) care.now.assume)) }
    ensures output { IfOk result (λ output. output.items ≡ assumed_output (places_of_columns kept.now.places.items (assumed_columns care.now)) kept.now.signals (option_map (λ model. model.net) care.now.assume)) }
{
    net.laws();
    let inputs = places_of(alloc, &kept.places, care.assume_columns())?;
    let Some(old) = care.assume() else {
        return Ok(Vec::new(alloc));
    };
    add_assumed(alloc, &inputs, kept.signals, mark, old, gates)?;
    let output = WireValue {
        wire: assumed_signal(&inputs, kept.signals, old.outputs()[0]),
        value: true,
    };
    Ok(vec![in alloc; output]?)
}

/// The signal of the first gate that tells.
fn base_of(kept: &Kept, old: Option<&Netlist>) -> u32
    requires { kept.now.signals + assumed_size_of (option_copied old) ≤ 4294967295 }
    ensures { result ≡ kept.now.signals + assumed_size_of (option_copied old.entry) }
{
    kept.signals + assumed_size(old)
}

/// The gates of the model.
fn model_gates(
    alloc: Global,
    net: &Netlist,
    care: &Care,
    rows: &[Row],
    kept: &Kept,
    total: u32,
) -> Result<Vec<Gate>, AllocError>
    requires care { IsCareOf net.now care.now }
    requires steady { AreSteadyRows net.now rows.now }
    requires kept { IsKept net.now (assumed_columns care.now) rows.now kept.now }
    requires total { total ≡ total_of (plan_of net.now care.now rows.now kept.now) }
    requires fits { base_by (plan_of net.now care.now rows.now kept.now) + total ≤ 4294967295 }
    ensures { IfOk result (λ gates. gates.items ≡ model_gates_of (plan_of net.now care.now rows.now kept.now) (mark_of net.now)) }
{
    net.laws();
    let mark = mark(alloc, net)?;
    let mut gates = kept_gates(alloc, net, &kept.places, &kept.gates)?;
    let conditions = add_assumption(alloc, net, care, kept, &mark, &mut gates)?;
    let tellers = Tellers {
        mark: &mark,
        total,
        base: base_of(kept, care.assume()),
    };
    tellers.add_all(alloc, &kept.places, rows, conditions, &mut gates)?;
    Ok(gates)
}

/// The outputs of the model: the last gate.
fn model_outputs(alloc: Global, base: u32, total: u32) -> Result<Items<Sig>, AllocError>
    requires some { 1 ≤ total }
    requires fits { base + total ≤ 4294967295 }
    ensures { IfOk result (λ outputs. outputs ≡ signal (base + total - 1) ∷ []) }
{
    Ok(Items::of(vec![in alloc; Sig(base + total - 1)]?))
}

/// The parts of the model.
fn model_parts(
    alloc: Global,
    net: &Netlist,
    care: &Care,
    rows: &[Row],
    kept: &Kept,
    total: u32,
) -> Result<Parts, AllocError>
    requires care { IsCareOf net.now care.now }
    requires steady { AreSteadyRows net.now rows.now }
    requires kept { IsKept net.now (assumed_columns care.now) rows.now kept.now }
    requires total { total ≡ total_of (plan_of net.now care.now rows.now kept.now) }
    requires fits { base_by (plan_of net.now care.now rows.now kept.now) + total ≤ 4294967295 }
    ensures { IfOk result (λ parts. parts ≡ model_of (plan_of net.now care.now rows.now kept.now) (mark_of net.now)) }
{
    let name = Name::copied_from(alloc, b"assume")?;
    let inputs = Items::of(kept_inputs(alloc, net, &kept.columns)?);
    let gates = Items::of(model_gates(alloc, net, care, rows, kept, total)?);
    let outputs = model_outputs(alloc, base_of(kept, care.assume()), total)?;
    Ok(Parts {
        name,
        inputs,
        clock: None,
        latches: Items::of(Vec::new(alloc)),
        gates,
        outputs,
    })
}

/// The parts of the model are refused for want of memory alone.
fn want_of_memory(_fault: PartsFault) -> RestrictFault
    requires { _fault ≡ PartsFault.Memory }
    ensures { result ≡ RestrictFault.Memory }
{
    RestrictFault::Memory
}

/// The netlist of parts that make one.
fn netlist_by(alloc: Global, parts: Parts) -> Result<Netlist, RestrictFault>
    requires { IsNetlist parts }
    ensures is { IfOk result (λ net. net ≡ parts) }
    ensures fault { IfErr result (λ fault. fault ≡ RestrictFault.Memory) }
{
    match Netlist::new(alloc, parts) {
        Ok(net) => Ok(net),
        Err(fault) => Err(want_of_memory(fault)),
    }
}

/// The care model `assume` which lets a vector through just where the old assumption does and the vector is in none of the
/// rows. A vector is in a row where each wire of the row has its value.
///
/// Its inputs are the columns that it reads, in the netlist's order. Its gates are those that drive wires of the rows and
/// all upstream of them, in flat order and under their own names; then those of the old assumption, if there is one; one
/// for each row, which is 1 where the vector is in it; and the output, which is 1 where the old output is and all rows are
/// 0. A gate reads at most 1,024 signals, so several tell of a row with more wires, and of more rows. The names of what is
/// added have a run of `~` that is longer than each in a name of the netlist.
///
/// The condition is that the care set is the netlist's, and that the wires of the rows are its signals that no loop takes
/// part in. The time is linear in the netlist and in what is made.
///
/// # Errors
///
/// `TooLarge` exactly where the model would have over 4,000,000 gates, with their number; else `Memory` where memory runs
/// out, or the model would have over 4,294,967,295 signals.
pub fn restricted_model(
    alloc: Global,
    looped: &LoopedNetlist<'_>,
    care: &Care,
    rows: &[Row],
) -> Result<Netlist, RestrictFault>
    requires care { IsCareOf looped.now.net care.now }
    requires steady { AreSteadyRows looped.now.net rows.now }
    ensures restricted { IfOk result (IsRestricted looped.now.net care.now rows.now) }
    ensures size { IfOk result (λ model. IsModelSize looped.now.net care.now rows.now (length model.gates)) }
    ensures small { IfOk result (λ model. length model.gates ≤ MAX_FLAT_ITEMS) }
    ensures fault { IfErr result (IsRestrictFault looped.now.net care.now rows.now) }
{
    looped.net().laws();
    care.laws();
    assumption_laws(care.assume());
    let kept = keep(alloc, looped, care.assume_columns(), rows)?;
    let total = checked_total(&kept, care.assume(), rows)?;
    let parts = model_parts(alloc, looped.net(), care, rows, &kept, total)?;
    netlist_by(alloc, parts)
}

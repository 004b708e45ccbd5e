//! Rows out of explanations.

ghost use Rattle.std.specs.Prelude.{◌≡◌, ◌≢◌, ◌≤◌, ◌++◌, ◌↔◌, true, length, map, Contains, IfOk, IfSome, IfNone, OnOk};
ghost use Rattle.cyc_base.specs.declared.trit.Trit.TheVariants.{X};
ghost use Rattle.cyc_base.specs.Values.{bits};
ghost use Rattle.netlist.specs.Fixpoint.{fix, wire as wire_of};
ghost use Rattle.netlist.specs.Netlists.{gate_sig};
ghost use Rattle.explanations.specs.Explained.{Explains, both, or_else as or_else_of};
ghost use Rattle.refusals.specs.Acceptance.{observed as observed_by};
ghost use Rattle.refusals.specs.Refusals.{IsAt};
ghost use Rattle.care_rows.specs.Rows.{AreSteadyMarks, IsIn};
ghost use Rattle.assumptions.specs.Assumptions.{IsOpenRow};
ghost use Rattle.assumptions.specs.Making.{AreSteadySides, HasPushed, IsCycleRow, IsRowBy, IsRowOf, IsSteadySide, driver_of, pin_of as pin_of_trit};

use care_rows::{Row, WireValue};
use cyc_base::{Items, Sig, Trit};
use explanations::{Explanation, Pin, explain};
use netlist::Netlist;
use refusals::Observe;
use std::alloc::{AllocError, Global};

/// Adds the value of a signal, where its pin is known.
fn push_known(values: &mut Vec<WireValue>, signal: u32, pin: Pin) -> Result<(), AllocError>
    ensures { OnOk result (HasPushed signal pin values.old.items values.new.items) }
{
    match pin {
        Pin::Known(value) => {
            let wire = Sig(signal);
            values.push(WireValue { wire, value })?;
        }
        Pin::Open => {}
        Pin::Free => {}
    }
    Ok(())
}

/// The row of the known ones among these pins, each as the value of the signal of its number.
fn row_of(alloc: Global, pins: &[Pin]) -> Result<Row, AllocError>
    requires { length pins.now ≤ 4294967295 }
    ensures { IfOk result (IsRowOf pins.now) }
{
    let mut values = Vec::new(alloc);
    for signal in 0..pins.len() {
        push_known(&mut values, signal as u32, pins[signal])?;
    }
    Ok(Row {
        values: Items::of(values),
    })
}

/// Whether a side is free, or known and of a signal that no loop takes part in.
fn is_steady_side(steady: &[bool], signal: usize, side: Pin) -> bool
    ensures { (result ≡ true) ↔ IsSteadySide steady.now signal side }
{
    match side {
        Pin::Known(_) => steady.get(signal).copied().unwrap_or(false),
        Pin::Open => false,
        Pin::Free => true,
    }
}

fn are_steady_sides(steady: &[bool], sides: &[Pin]) -> bool
    ensures { (result ≡ true) ↔ AreSteadySides steady.now sides.now }
{
    for signal in 0..sides.len() {
        if !is_steady_side(steady, signal, sides[signal]) {
            return false;
        }
    }
    true
}

/// The value of a column as a pin.
fn pin_of(value: Trit) -> Pin
    ensures { result ≡ pin_of_trit value }
{
    match value {
        Trit::Zero => Pin::Known(false),
        Trit::One => Pin::Known(true),
        Trit::X => Pin::Free,
    }
}

/// The row of the known ones among these columns.
fn row_of_columns(alloc: Global, columns: &[Trit]) -> Result<Row, AllocError>
    requires { length columns.now ≤ 4294967295 }
    ensures { IfOk result (IsRowOf (map pin_of_trit columns.now)) }
{
    let pins: Vec<Pin> = columns.iter().map(|value| pin_of(*value)).collect(alloc)?;
    row_of(alloc, &pins)
}

fn or_else(needed: Trit, further: Trit) -> Trit
    ensures { result ≡ or_else_of needed further }
{
    match needed {
        Trit::Zero => Trit::Zero,
        Trit::One => Trit::One,
        Trit::X => further,
    }
}

/// The columns that hold both the cycle and the way from it open.
fn all_needed(alloc: Global, needs: &[Trit], also: &[Trit]) -> Result<Vec<Trit>, AllocError>
    ensures { IfOk result (λ columns. columns.items ≡ both needs.now also.now) }
{
    needs
        .iter()
        .zip(also)
        .map(|(needed, further)| or_else(*needed, *further))
        .collect(alloc)
}

/// The row at which the cycle is unknown: the values of wires beside it, or those of columns where a wire beside it is unknown
/// or a loop takes part in one.
fn row_of_cycle(alloc: Global, why: &Explanation, steady: &[bool]) -> Result<Row, AllocError>
    requires sides { length why.now.sides ≤ 4294967295 }
    requires needs { length why.now.needs ≤ 4294967295 }
    ensures { IfOk result (IsCycleRow steady.now why.now) }
{
    if are_steady_sides(steady, why.sides.items()) {
        row_of(alloc, why.sides.items())
    } else {
        row_of_columns(alloc, why.needs.items())
    }
}

/// The row at which the wire is unknown too.
fn row_of_way(alloc: Global, why: &Explanation) -> Result<Row, AllocError>
    requires { length (both why.now.needs why.now.also) ≤ 4294967295 }
    ensures { IfOk result (IsRowOf (map pin_of_trit (both why.now.needs why.now.also))) }
{
    let columns = all_needed(alloc, why.needs.items(), why.also.items())?;
    row_of_columns(alloc, &columns)
}

/// The row of an explanation: where all gates are observed it is enough that the cycle is unknown.
fn row_by(
    alloc: Global,
    why: &Explanation,
    steady: &[bool],
    observe: Observe,
) -> Result<Row, AllocError>
    requires sides { length why.now.sides ≤ 4294967295 }
    requires needs { length why.now.needs ≤ 4294967295 }
    requires both { length (both why.now.needs why.now.also) ≤ 4294967295 }
    ensures { IfOk result (IsRowBy observe steady.now why.now) }
{
    match observe {
        Observe::All => row_of_cycle(alloc, why, steady),
        Observe::Outputs => row_of_way(alloc, why),
    }
}

/// Why the gate that drives a wire is unknown at a vector, by sides in which no loop takes part where there are such.
fn explanation_of(
    alloc: Global,
    net: &Netlist,
    steady: &[bool],
    vector: &[bool],
    wire: Sig,
) -> Result<Option<Explanation>, AllocError>
    requires { IsAt net.now vector.now wire }
    ensures found { IfOk result (λ found. IfSome found (Explains net.now vector.now (driver_of net.now wire))) }
    ensures none { IfOk result (λ found. IfNone found (wire_of (fix net.now (bits vector.now)) (gate_sig net.now (driver_of net.now wire)) ≢ X)) }
{
    let gate = wire.0 - net.columns();
    explain(alloc, net, vector, steady, gate)
}

/// A row that has this vector, at which an observed gate is unknown.
pub(crate) fn row_at(
    alloc: Global,
    net: &Netlist,
    steady: &[bool],
    observe: Observe,
    vector: &[bool],
    wire: Sig,
) -> Result<Row, AllocError>
    requires steady { AreSteadyMarks net.now steady.now }
    requires at { IsAt net.now vector.now wire }
    requires unknown { wire_of (fix net.now (bits vector.now)) wire ≡ X }
    requires observed { Contains (observed_by net.now observe) wire }
    ensures opens { IfOk result (IsOpenRow net.now observe) }
    ensures inside { IfOk result (IsIn net.now vector.now) }
{
    net.laws();
    let found = explanation_of(alloc, net, steady, vector, wire)?;
    match &found {
        Some(why) => row_by(alloc, why, steady, observe),
        None => unreachable!(),
    }
}

//! The values of a vector without which some gates aren't held open.

ghost use Rattle.std.specs.Prelude.{◌≡◌, ◌<◌, ◌≤◌, ◌+◌, ◌^◌, ◌↔◌, true, length, map, replicate, zip, All, IfOk, OnOk};
ghost use Rattle.cyc_base.specs.declared.trit.Trit.TheVariants.{X};
ghost use Rattle.cyc_base.specs.Values.{bits, EachBelow};
ghost use Rattle.netlist.specs.Fixpoint.{fix};
ghost use Rattle.netlist.specs.Netlists.{count as signal_count, IsNetlist};
ghost use Rattle.ternary_run.specs.Reading.{IsFanoutOf};
ghost use Rattle.simulation.specs.Simulators.{IsSimulatorOf};
ghost use Rattle.explanations.specs.Held.{AreUnknownGates, IsHeldOpen, IsGreatestWithin};
ghost use Rattle.explanations.specs.Explained.{IsUnknown, AreNeeded, AreFurther, AreAllUnknown, HasTriedWithout, IsHolding, IsSettled, IsNeeding, IsNextRun, IsWithoutRun, beyond as beyond_need};

use crate::held::{are_marked, shrink};
use cyc_base::Trit;
use netlist::Netlist;
use simulation::Simulator;
use std::alloc::{AllocError, Global};
use ternary_run::{Fanout, trits_of};

/// Values of some columns, and the greatest set of gates that they hold open.
pub(crate) struct Holding {
    /// One for each column, X where it has none.
    pub given: Vec<Trit>,
    /// What they determine: one for each signal.
    pub known: Vec<Trit>,
    /// One for each signal: whether it is in the set.
    pub marks: Vec<bool>,
}

impl Holding {
    pub(crate) fn into_given(self) -> Vec<Trit>
        ensures { result.items ≡ self.given.items }
    {
        let Holding {
            given,
            known: _,
            marks: _,
        } = self;
        given
    }
}

impl Drop for Holding {
    fn drop(self) {
        let Holding {
            given: _,
            known: _,
            marks: _,
        } = self;
    }
}

pub(crate) fn is_x(value: Trit) -> bool
    ensures { (result ≡ true) ↔ (value ≡ X) }
{
    match value {
        Trit::X => true,
        _ => false,
    }
}

/// The gates that are unknown.
fn unknown_gates(alloc: Global, net: &Netlist, known: &[Trit]) -> Result<Vec<bool>, AllocError>
    requires { length known.now ≡ signal_count net.now }
    ensures all { IfOk result (λ marks. AreAllUnknown net.now known.now (signal_count net.now) marks.items) }
    ensures valid { IsNetlist net.now }
{
    let first = net.columns();
    let mut marks = Vec::new(alloc);
    for signal in 0..net.count() {
        marks.push(first <= signal && is_x(known[signal as usize]))?;
    }
    Ok(marks)
}

/// What these values of the columns determine.
fn values_determined_by(
    alloc: Global,
    net: &Netlist,
    simulator: &mut Simulator,
    given: &[Trit],
) -> Result<Vec<Trit>, AllocError>
    requires width { length given.now ≡ length net.now.inputs + length net.now.latches }
    requires simulator { IsSimulatorOf net.now simulator.old }
    ensures simulator { IsSimulatorOf net.now simulator.new }
    ensures known { IfOk result (λ known. known.items ≡ fix net.now given.now) }
{
    let (inputs, latches) = given.split_at(net.inputs() as usize);
    let tick = simulator.tick(alloc, net, inputs, latches)?;
    tick.wires.items().to_vec(alloc)
}

/// All values of the vector, which hold each gate open that is unknown at it.
fn at_vector(
    alloc: Global,
    net: &Netlist,
    simulator: &mut Simulator,
    vector: &[bool],
) -> Result<Holding, AllocError>
    requires width { length vector.now ≡ length net.now.inputs + length net.now.latches }
    requires simulator { IsSimulatorOf net.now simulator.old }
    ensures simulator { IsSimulatorOf net.now simulator.new }
    ensures holding { IfOk result (λ holding. IsHolding net.now holding.given.items holding.marks.items) }
    ensures known { IfOk result (IsSettled net.now) }
    ensures given { IfOk result (λ holding. holding.given.items ≡ bits vector.now) }
    ensures all { IfOk result (λ holding. AreAllUnknown net.now (fix net.now (bits vector.now)) (signal_count net.now) holding.marks.items) }
{
    let given = trits_of(alloc, vector)?;
    let known = values_determined_by(alloc, net, simulator, &given)?;
    let marks = unknown_gates(alloc, net, &known)?;
    Ok(Holding {
        given,
        known,
        marks,
    })
}

/// The values without those of a run of columns, but for those that are kept.
fn left_out(
    alloc: Global,
    given: &[Trit],
    kept: &[Trit],
    first: usize,
    last: usize,
) -> Result<Vec<Trit>, AllocError>
    requires kept { EachBelow kept.now given.now }
    requires run { first ≤ last }
    requires within { last ≤ length given.now }
    ensures { IfOk result (λ fewer. IsWithoutRun kept.now first last given.now fewer.items) }
{
    let mut fewer = given.to_vec(alloc)?;
    for column in first..last {
        fewer[column] = kept[column];
    }
    Ok(fewer)
}

fn copy_of(alloc: Global, marks: &[bool]) -> Result<Vec<bool>, AllocError>
    ensures { IfOk result (λ copied. copied.items ≡ marks.now) }
{
    marks.to_vec(alloc)
}

/// The greatest part that is held open of a set that was, before some signals became unknown.
fn greatest_part(
    alloc: Global,
    net: &Netlist,
    fanout: &Fanout,
    before: &[Trit],
    known: &[Trit],
    marks: &[bool],
) -> Result<Vec<bool>, AllocError>
    requires readers { IsFanoutOf net.now fanout.now }
    requires before { length before.now ≡ signal_count net.now }
    requires known { length known.now ≡ signal_count net.now }
    requires marks { length marks.now ≡ signal_count net.now }
    requires held { IsHeldOpen net.now before.now marks.now }
    requires unknown { AreUnknownGates net.now known.now marks.now }
    ensures { IfOk result (λ part. IsGreatestWithin net.now known.now marks.now part.items) }
{
    let mut part = copy_of(alloc, marks)?;
    shrink(alloc, net, fanout, before, known, &mut part)?;
    Ok(part)
}

/// What these values hold open, which are some of those that hold the others.
fn with_fewer(
    alloc: Global,
    net: &Netlist,
    fanout: &Fanout,
    simulator: &mut Simulator,
    holding: &Holding,
    given: Vec<Trit>,
) -> Result<Holding, AllocError>
    requires readers { IsFanoutOf net.now fanout.now }
    requires simulator { IsSimulatorOf net.now simulator.old }
    requires holding { IsHolding net.now holding.now.given.items holding.now.marks.items }
    requires known { IsSettled net.now holding.now }
    requires fewer { EachBelow given.items holding.now.given.items }
    ensures simulator { IsSimulatorOf net.now simulator.new }
    ensures holding { IfOk result (λ less. IsHolding net.now less.given.items less.marks.items) }
    ensures known { IfOk result (IsSettled net.now) }
    ensures given { IfOk result (λ less. less.given.items ≡ given.items) }
{
    let known = values_determined_by(alloc, net, simulator, &given)?;
    let marks = greatest_part(alloc, net, fanout, &holding.known, &known, &holding.marks)?;
    Ok(Holding {
        given,
        known,
        marks,
    })
}

/// Leaves out the values of a run of columns, but for those that are kept, where the rest holds these gates open, and
/// answers whether it did.
fn leave_out(
    alloc: Global,
    net: &Netlist,
    fanout: &Fanout,
    simulator: &mut Simulator,
    gates: &[u32],
    kept: &[Trit],
    holding: &mut Holding,
    run: Run,
) -> Result<bool, AllocError>
    requires readers { IsFanoutOf net.now fanout.now }
    requires simulator { IsSimulatorOf net.now simulator.old }
    requires gates { All (λ gate. gate < length net.now.gates) gates.now }
    requires holding { IsHolding net.now holding.old.given.items holding.old.marks.items }
    requires known { IsSettled net.now holding.old }
    requires kept { EachBelow kept.now holding.old.given.items }
    requires run { run.first + run.count ≤ length holding.old.given.items }
    ensures simulator { IsSimulatorOf net.now simulator.new }
    ensures known { OnOk result (IsSettled net.now holding.new) }
    ensures tried { IfOk result (HasTriedWithout net.now gates.now kept.now run holding.old holding.new) }
{
    let given = left_out(
        alloc,
        &holding.given,
        kept,
        run.first,
        run.first + run.count,
    )?;
    let less = with_fewer(alloc, net, fanout, simulator, holding, given)?;
    let out = are_marked(net, &less.marks, gates);
    if out {
        *holding = less;
    }
    Ok(out)
}

/// Some columns in a row, which are tried together.
#[derive(Clone, Copy)]
pub(crate) struct Run {
    pub first: usize,
    pub count: usize,
}

impl Run {
    /// What is tried next: behind a run that was left out one of twice as many columns, else the first half of the run,
    /// and behind a single column that stays the next one.
    fn next(self, out: bool, columns: usize) -> Run
        requires some { 0 < self.count }
        requires within { self.first + self.count ≤ columns }
        requires fits { columns < 2 ^ 63 }
        ensures { IsNextRun columns self out result }
    {
        if !out && self.count > 1 {
            return Run {
                first: self.first,
                count: self.count / 2,
            };
        }
        let first = self.first + self.count;
        let count = if out { 2 * self.count } else { 1 };
        Run {
            first,
            count: count.min(columns - first),
        }
    }
}

/// Values of the vector that hold these gates open whatever the other columns are: those that are kept, and others of
/// which none can be left out alone.
///
/// The columns are left out in their order, each where the gates stay open without it. Runs of columns that can all be
/// left out are found by galloping (Bentley and Yao 1976): each time as many again, and where that is too many half.
fn hold(
    alloc: Global,
    net: &Netlist,
    vector: &[bool],
    gates: &[u32],
    kept: &[Trit],
) -> Result<Holding, AllocError>
    requires width { length vector.now ≡ length net.now.inputs + length net.now.latches }
    requires gates { All (IsUnknown net.now (fix net.now (bits vector.now))) gates.now }
    requires kept { EachBelow kept.now (bits vector.now) }
    ensures { IfOk result (λ holding. IsNeeding net.now vector.now gates.now kept.now (length vector.now) holding.given.items holding.marks.items) }
{
    let columns = vector.len();
    let fanout = Fanout::of(alloc, net)?;
    let mut simulator = Simulator::of(alloc, net)?;
    let mut holding = at_vector(alloc, net, &mut simulator, vector)?;
    let mut run = Run {
        first: 0,
        count: columns.min(1),
    };
    while run.count > 0 {
        let out = leave_out(
            alloc,
            net,
            &fanout,
            &mut simulator,
            gates,
            kept,
            &mut holding,
            run,
        )?;
        run = run.next(out, columns);
    }
    Ok(holding)
}

fn unknown(alloc: Global, columns: usize) -> Result<Vec<Trit>, AllocError>
    ensures { IfOk result (λ none. none.items ≡ replicate columns X) }
{
    vec![in alloc; Trit::X; columns]
}

/// Values of the vector that hold these gates open whatever the other columns are, of which none can be left
/// out alone. X stands where none is needed.
pub(crate) fn needs(
    alloc: Global,
    net: &Netlist,
    vector: &[bool],
    gates: &[u32],
) -> Result<Holding, AllocError>
    requires width { length vector.now ≡ length net.now.inputs + length net.now.latches }
    requires gates { All (IsUnknown net.now (fix net.now (bits vector.now))) gates.now }
    ensures needed { IfOk result (λ needs. AreNeeded net.now vector.now gates.now needs.given.items) }
    ensures holding { IfOk result (λ needs. IsHolding net.now needs.given.items needs.marks.items) }
{
    let none = unknown(alloc, vector.len())?;
    hold(alloc, net, vector, gates, &none)
}

/// A value that isn't needed already.
fn beyond(need: Trit, value: Trit) -> Trit
    ensures { result ≡ beyond_need need value }
{
    match need {
        Trit::X => value,
        _ => Trit::X,
    }
}

fn all_beyond(alloc: Global, needs: &[Trit], given: &[Trit]) -> Result<Vec<Trit>, AllocError>
    ensures { IfOk result (λ rest. rest.items ≡ map (λ p. beyond_need p.0 p.1) (zip needs.now given.now)) }
{
    needs
        .iter()
        .zip(given)
        .map(|(need, value)| beyond(*need, *value))
        .collect(alloc)
}

/// The further values without which these don't hold the gates open.
fn further_needs(
    alloc: Global,
    net: &Netlist,
    vector: &[bool],
    gates: &[u32],
    needs: &[Trit],
) -> Result<Vec<Trit>, AllocError>
    requires width { length vector.now ≡ length net.now.inputs + length net.now.latches }
    requires gates { All (IsUnknown net.now (fix net.now (bits vector.now))) gates.now }
    requires needs { EachBelow needs.now (bits vector.now) }
    ensures { IfOk result (λ also. AreFurther net.now vector.now needs.now gates.now also.items) }
{
    let holding = hold(alloc, net, vector, gates, needs)?;
    all_beyond(alloc, needs, &holding.given)
}

/// The values of the vector that hold these gates open together with those that are needed already, of which none can be
/// left out alone. X stands where there is none.
pub(crate) fn further(
    alloc: Global,
    net: &Netlist,
    vector: &[bool],
    gates: &[u32],
    needs: &Holding,
) -> Result<Vec<Trit>, AllocError>
    requires width { length vector.now ≡ length net.now.inputs + length net.now.latches }
    requires gates { All (IsUnknown net.now (fix net.now (bits vector.now))) gates.now }
    requires needs { EachBelow needs.now.given.items (bits vector.now) }
    requires holding { IsHolding net.now needs.now.given.items needs.now.marks.items }
    ensures { IfOk result (λ also. AreFurther net.now vector.now needs.now.given.items gates.now also.items) }
{
    if are_marked(net, &needs.marks, gates) {
        return unknown(alloc, vector.len());
    }
    further_needs(alloc, net, vector, gates, &needs.given)
}

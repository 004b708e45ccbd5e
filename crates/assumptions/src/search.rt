//! Rows, found one after another.

ghost use Rattle.std.specs.Prelude.{◌≡◌, ◌⊎◌, ◌≤◌, ◌↔◌, [], true, length, is_some, IfOk, IfErr};
ghost use Rattle.cyc_base.specs.declared.limits.TheConstants.{MAX_NODES as most_nodes};
ghost use Rattle.care_sets.specs.Binding.{IsCareOf};
ghost use Rattle.care_rows.specs.Rows.{AreSteadyMarks};
ghost use Rattle.diagram_decision.specs.Causes.{IsOutOfNodes};
ghost use Rattle.diagram_decision.specs.Enough.{IsBelowEnough};
ghost use Rattle.verdict.specs.Witnessed.{IsSomeJudgement};
ghost use Rattle.assumptions.specs.Assumptions.{AreFound, IsAssumption, IsUndetermined as IsForUndetermined};
ghost use Rattle.assumptions.specs.Limits.{RunsOutOfNodes};
ghost use Rattle.assumptions.specs.Making.{AreSettled, Excludes, IsNextRow, IsRound, IsShownBeside};

use crate::assumption::Assumption;
use crate::implied::without_implied_values;
use crate::rows::row_at;
use crate::strengthening::stronger_care;
use bdd_ops::Diagrams;
use care_rows::{RestrictFault, Row, steady_signals};
use care_sets::Care;
use cyc_base::MAX_NODES;
use loops::LoopedNetlist;
use refusals::{Observe, Refusal};
use std::alloc::{AllocError, Global};
use verdict::{DecideFault, Judgement, LOOP_NODES, judge, judge_with_witness, settled_loops};

/// How many rows are excluded at most.
pub const MAX_ROWS: usize = 4_096;

/// How many rows a person may read.
const READ_ROWS: usize = 64;

/// How many rows come from least vectors.
const LEAST_ROWS: usize = 4;

/// What is to be made harmless.
#[derive(Drop)]
struct Weakening<'a> {
    looped: &'a LoopedNetlist<'a>,
    care: &'a Care,
    /// Marks of the signals that no loop takes part in.
    steady: &'a [bool],
    /// Marks of the loops that are settled by themselves, whatever the care set.
    settled: &'a [bool],
    limit: u32,
    observe: Observe,
    ghost steady_marks: { AreSteadyMarks looped.now.net steady.now },
    ghost most: { limit ≤ most_nodes },
}

fn is_undetermined(refusal: &Refusal) -> bool
    ensures { (result ≡ true) ↔ IsForUndetermined refusal.now }
{
    match refusal {
        Refusal::Undetermined { .. } => true,
        _ => false,
    }
}

fn has_model(care: &Care) -> bool
    ensures { (result ≡ true) ↔ ((is_some care.now.assume ≡ true) ⊎ (is_some care.now.invariant ≡ true)) }
{
    care.assume().is_some() || care.invariant().is_some()
}

/// One more row, by a refusal for an undetermined wire.
fn next_row(
    alloc: Global,
    task: &Weakening<'_>,
    rows: &[Row],
    refusal: &Refusal,
) -> Result<Row, AllocError>
    requires refused { IsShownBeside task.now.looped.now.net task.now.care.now task.now.observe rows.now refusal.now }
    requires undetermined { IsForUndetermined refusal.now }
    ensures { IfOk result (IsNextRow task.now.looped.now.net task.now.care.now task.now.observe rows.now) }
{
    let net = task.looped.net();
    match refusal {
        Refusal::Undetermined { vector, wire } => row_at(
            alloc,
            net,
            task.steady,
            task.observe,
            vector.items(),
            *wire,
        ),
        _ => unreachable!(),
    }
}

/// The same row, without values that its others imply. That is done for the first rows alone, which a person may read.
fn short_row(
    alloc: Global,
    task: &Weakening<'_>,
    rows: &[Row],
    refusal: &Refusal,
) -> Result<Row, AllocError>
    requires refused { IsShownBeside task.now.looped.now.net task.now.care.now task.now.observe rows.now refusal.now }
    requires undetermined { IsForUndetermined refusal.now }
    ensures { IfOk result (IsNextRow task.now.looped.now.net task.now.care.now task.now.observe rows.now) }
{
    let row = next_row(alloc, task, rows, refusal)?;
    if rows.len() < READ_ROWS {
        without_implied_values(alloc, task.looped, &row)
    } else {
        Ok(row)
    }
}

/// What follows from a refusal with these rows excluded: one more row, where an observed wire is undetermined.
#[tactic(auto, using(crate::proofs::FoundLemmas::refused_rest, crate::proofs::FoundLemmas::many_rows_by))]
fn go_on(
    alloc: Global,
    task: &Weakening<'_>,
    rows: &mut Vec<Row>,
    refusal: Refusal,
) -> Result<Option<Assumption>, AllocError>
    requires rows { AreFound task.now.looped.now.net task.now.care.now task.now.observe rows.old.items }
    requires few { length rows.old.items ≤ MAX_ROWS }
    requires refused { IsShownBeside task.now.looped.now.net task.now.care.now task.now.observe rows.old.items refusal }
    ensures { IfOk result (IsRound task.now.looped.now.net task.now.care.now task.now.observe rows.old.items rows.new.items) }
{
    if !is_undetermined(&refusal) {
        return Ok(Some(Assumption::Refused(refusal)));
    }
    if rows.len() >= MAX_ROWS {
        return Ok(Some(Assumption::TooManyRows));
    }
    let row = short_row(alloc, task, rows, &refusal)?;
    rows.push(row)?;
    Ok(None)
}

/// The same, where memory runs out as it does for a judgement.
fn go_on_from(
    alloc: Global,
    task: &Weakening<'_>,
    rows: &mut Vec<Row>,
    refusal: Refusal,
) -> Result<Option<Assumption>, DecideFault>
    requires rows { AreFound task.now.looped.now.net task.now.care.now task.now.observe rows.old.items }
    requires few { length rows.old.items ≤ MAX_ROWS }
    requires refused { IsShownBeside task.now.looped.now.net task.now.care.now task.now.observe rows.old.items refusal }
    ensures round { IfOk result (IsRound task.now.looped.now.net task.now.care.now task.now.observe rows.old.items rows.new.items) }
    ensures fault { IfErr result (λ fault. fault ≡ DecideFault.Memory) }
{
    match go_on(alloc, task, rows, refusal) {
        Ok(found) => Ok(found),
        Err(_) => Err(DecideFault::Memory),
    }
}

/// The judgement on a care set that has so many rows excluded. The first rows, which a person reads most, come from least vectors,
/// and each further one from any.
#[tactic(auto, using(verdict::proofs::WitnessLemmas::exact_judgement))]
fn judgement_on(
    alloc: Global,
    d: &mut Diagrams,
    task: &Weakening<'_>,
    care: &Care,
    rows: usize,
) -> Result<Judgement, DecideFault>
    requires settled { AreSettled task.now.looped.now task.now.settled.now }
    requires care { IsCareOf task.now.looped.now.net care.now }
    ensures judgement { IfOk result (IsSomeJudgement task.now.looped.now.net care.now task.now.observe) }
    ensures fault { IfErr result (λ fault. (fault ≡ DecideFault.Memory) ⊎ (fault ≡ DecideFault.NodeLimit task.now.limit)) }
    ensures cause { result ≡ Err (DecideFault.NodeLimit task.now.limit) → IsOutOfNodes d.new task.now.looped.now.net care.now task.now.limit }
    ensures enough { result ≡ Err (DecideFault.NodeLimit task.now.limit) → IsBelowEnough task.now.looped.now.net care.now task.now.limit }
{
    let looped = task.looped;
    looped.net().laws();
    if rows < LEAST_ROWS {
        let (net, blocks, cut) = (looped.net(), looped.blocks(), looped.cut());
        judge(alloc, d, net, blocks, cut, care, task.limit, task.observe)
    } else {
        judge_with_witness(
            alloc,
            d,
            looped,
            care,
            task.settled,
            task.limit,
            task.observe,
        )
    }
}

/// The judgement on the care set as it is.
#[tactic(auto, using(crate::proofs::FoundLemmas::stands_by, crate::proofs::FoundLemmas::shown_without, crate::proofs::FoundLemmas::found_at_first, crate::proofs::LimitLemmas::runs_out_without))]
fn round_without_rows(
    alloc: Global,
    d: &mut Diagrams,
    task: &Weakening<'_>,
    rows: &mut Vec<Row>,
) -> Result<Option<Assumption>, DecideFault>
    requires settled { AreSettled task.now.looped.now task.now.settled.now }
    requires care { IsCareOf task.now.looped.now.net task.now.care.now }
    requires none { rows.old.items ≡ [] }
    requires some { (is_some task.now.care.now.assume ≡ true) ⊎ (is_some task.now.care.now.invariant ≡ true) }
    ensures round { IfOk result (IsRound task.now.looped.now.net task.now.care.now task.now.observe rows.old.items rows.new.items) }
    ensures fault { IfErr result (λ fault. (fault ≡ DecideFault.Memory) ⊎ (fault ≡ DecideFault.NodeLimit task.now.limit)) }
    ensures cause { result ≡ Err (DecideFault.NodeLimit task.now.limit) → RunsOutOfNodes d.new task.now.looped.now.net task.now.care.now task.now.observe task.now.limit }
{
    match judgement_on(alloc, d, task, task.care, 0)? {
        Judgement::Accepted { .. } => Ok(Some(Assumption::Stands)),
        Judgement::Refused(refusal) => go_on_from(alloc, task, rows, refusal),
    }
}

/// The judgement on this care set, which has these rows excluded.
#[tactic(auto, using(crate::proofs::FoundLemmas::weakest_by, crate::proofs::FoundLemmas::shown_by, crate::proofs::LimitLemmas::runs_out_by))]
fn round_on(
    alloc: Global,
    d: &mut Diagrams,
    task: &Weakening<'_>,
    rows: &mut Vec<Row>,
    stronger: Care,
) -> Result<Option<Assumption>, DecideFault>
    requires settled { AreSettled task.now.looped.now task.now.settled.now }
    requires rows { AreFound task.now.looped.now.net task.now.care.now task.now.observe rows.old.items }
    requires few { length rows.old.items ≤ MAX_ROWS }
    requires excludes { Excludes task.now.looped.now.net task.now.care.now rows.old.items stronger }
    ensures round { IfOk result (IsRound task.now.looped.now.net task.now.care.now task.now.observe rows.old.items rows.new.items) }
    ensures fault { IfErr result (λ fault. (fault ≡ DecideFault.Memory) ⊎ (fault ≡ DecideFault.NodeLimit task.now.limit)) }
    ensures cause { result ≡ Err (DecideFault.NodeLimit task.now.limit) → RunsOutOfNodes d.new task.now.looped.now.net task.now.care.now task.now.observe task.now.limit }
{
    match judgement_on(alloc, d, task, &stronger, rows.len())? {
        Judgement::Accepted { .. } => Ok(Some(Assumption::Weakest(stronger))),
        Judgement::Refused(refusal) => go_on_from(alloc, task, rows, refusal),
    }
}

/// The judgement with these rows excluded.
#[tactic(auto, using(crate::proofs::FoundLemmas::too_large_by))]
fn round_with_rows(
    alloc: Global,
    d: &mut Diagrams,
    task: &Weakening<'_>,
    rows: &mut Vec<Row>,
) -> Result<Option<Assumption>, DecideFault>
    requires settled { AreSettled task.now.looped.now task.now.settled.now }
    requires care { IsCareOf task.now.looped.now.net task.now.care.now }
    requires rows { AreFound task.now.looped.now.net task.now.care.now task.now.observe rows.old.items }
    requires few { length rows.old.items ≤ MAX_ROWS }
    ensures round { IfOk result (IsRound task.now.looped.now.net task.now.care.now task.now.observe rows.old.items rows.new.items) }
    ensures fault { IfErr result (λ fault. (fault ≡ DecideFault.Memory) ⊎ (fault ≡ DecideFault.NodeLimit task.now.limit)) }
    ensures cause { result ≡ Err (DecideFault.NodeLimit task.now.limit) → RunsOutOfNodes d.new task.now.looped.now.net task.now.care.now task.now.observe task.now.limit }
{
    match stronger_care(alloc, task.looped, task.care, rows) {
        Ok(stronger) => round_on(alloc, d, task, rows, stronger),
        Err(RestrictFault::TooLarge { gates }) => Ok(Some(Assumption::TooLarge { gates })),
        Err(RestrictFault::Memory) => Err(DecideFault::Memory),
    }
}

/// One judgement: what is found, or one more row.
fn round(
    alloc: Global,
    d: &mut Diagrams,
    task: &Weakening<'_>,
    rows: &mut Vec<Row>,
) -> Result<Option<Assumption>, DecideFault>
    requires settled { AreSettled task.now.looped.now task.now.settled.now }
    requires care { IsCareOf task.now.looped.now.net task.now.care.now }
    requires rows { AreFound task.now.looped.now.net task.now.care.now task.now.observe rows.old.items }
    requires few { length rows.old.items ≤ MAX_ROWS }
    ensures round { IfOk result (IsRound task.now.looped.now.net task.now.care.now task.now.observe rows.old.items rows.new.items) }
    ensures fault { IfErr result (λ fault. (fault ≡ DecideFault.Memory) ⊎ (fault ≡ DecideFault.NodeLimit task.now.limit)) }
    ensures cause { result ≡ Err (DecideFault.NodeLimit task.now.limit) → RunsOutOfNodes d.new task.now.looped.now.net task.now.care.now task.now.observe task.now.limit }
{
    if rows.is_empty() && has_model(task.care) {
        round_without_rows(alloc, d, task, rows)
    } else {
        round_with_rows(alloc, d, task, rows)
    }
}

/// What is found by a task.
fn search(alloc: Global, d: &mut Diagrams, task: &Weakening<'_>) -> Result<Assumption, DecideFault>
    requires settled { AreSettled task.now.looped.now task.now.settled.now }
    requires care { IsCareOf task.now.looped.now.net task.now.care.now }
    ensures found { IfOk result (IsAssumption task.now.looped.now.net task.now.care.now task.now.observe) }
    ensures fault { IfErr result (λ fault. (fault ≡ DecideFault.Memory) ⊎ (fault ≡ DecideFault.NodeLimit task.now.limit)) }
    ensures cause { result ≡ Err (DecideFault.NodeLimit task.now.limit) → RunsOutOfNodes d.new task.now.looped.now.net task.now.care.now task.now.observe task.now.limit }
{
    let mut rows = Vec::new(alloc);
    loop {
        if let Some(found) = round(alloc, d, task, &mut rows)? {
            return Ok(found);
        }
    }
}

/// The weakest assumption under which a netlist is accepted within the invariant of a care set: the care set's own
/// assumption, with vectors excluded, row by row.
///
/// A row is some wires with values, in which no loop takes part, and each vector at which these have the values leaves an
/// observed wire undetermined. While a vector of the care set is in no row and leaves one undetermined, its explanation gives
/// the next row: the sides of its cycle where all gates are observed and these wires are known and no loop takes part in
/// them, or else the columns that the cycle needs; and where less is observed the columns that the wire needs. Of the first
/// rows values are left out that their others imply at each vector.
///
/// So `Weakest` lets a vector through, within the invariant, just where the care set does and each observed wire is
/// determined at it (`laws`). `Stands` is answered where the care set has a model and the netlist is accepted on it. `Refused`
/// comes where no assumption helps: a permitted initial state is outside the invariant, a next state is, or the rows exclude
/// all vectors; `TooManyRows` with 4,096 rows that leave an observed wire undetermined somewhere. How few rows may do isn't said.
///
/// The faults are those of the judgement (`verdict::judge_with_witness`), on the care set with some rows excluded.
///
/// The condition is that the care set is the netlist's, and that the limit is at most 50,000,000.
pub fn weakest_assumption(
    alloc: Global,
    d: &mut Diagrams,
    looped: &LoopedNetlist<'_>,
    care: &Care,
    limit: u32,
    observe: Observe,
) -> Result<Assumption, DecideFault>
    requires care { IsCareOf looped.now.net care.now }
    requires limit { limit ≤ MAX_NODES }
    ensures found { IfOk result (IsAssumption looped.now.net care.now observe) }
    ensures fault { IfErr result (λ fault. (fault ≡ DecideFault.Memory) ⊎ (fault ≡ DecideFault.NodeLimit limit)) }
    ensures cause { result ≡ Err (DecideFault.NodeLimit limit) → RunsOutOfNodes d.new looped.now.net care.now observe limit }
{
    let Ok(steady) = steady_signals(alloc, looped) else {
        return Err(DecideFault::Memory);
    };
    let Ok(settled) = settled_loops(alloc, looped, LOOP_NODES) else {
        return Err(DecideFault::Memory);
    };
    let task = Weakening {
        looped,
        care,
        steady: &steady,
        settled: &settled,
        limit,
        observe,
    };
    search(alloc, d, &task)
}

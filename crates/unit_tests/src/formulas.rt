//! What the solver for satisfiability answers, step by step. A literal is twice its variable, and one more where it negates
//! it.

ghost use Rattle.std.specs.Prelude.{◌<◌};

use sat::{Answer, Lit, Solver};
use std::alloc::{AllocError, Global};

const MANY: u64 = 1_000_000;

const VARIABLES: u32 = 100;

#[derive(Clone, Copy)]
enum Step {
    /// Six pigeons are in six holes. No two are in one, nor with a seventh one.
    Pigeons,
    /// Each variable has the next one.
    Chain,
    Clause(&'static [u32]),
    /// There is a model under these assumptions.
    Model(&'static [u32]),
    /// There is none, as so many of the assumptions show.
    NoModel(&'static [u32], usize),
    /// The search gives up after so many conflicts.
    GivesUp(u64),
    /// The last model has this literal.
    Has(u32),
}

/// The seventh pigeon is in a hole, if the variable 99 is true.
const SEVENTH: Step = Step::Clause(&[199, 72, 74, 76, 78, 80, 82]);

pub const CASES: u32 = 6;

fn steps_of(case: u32) -> &'static [Step] {
    match case {
        0 => &[
            Step::Pigeons,
            SEVENTH,
            Step::Clause(&[198]),
            Step::GivesUp(2),
            Step::NoModel(&[], 0),
        ],
        1 => &[
            Step::Chain,
            Step::Model(&[0]),
            Step::Has(0),
            Step::Has(198),
            Step::NoModel(&[100, 0, 199], 2),
        ],
        // clauses are added between calls
        2 => &[
            Step::Chain,
            Step::Model(&[]),
            Step::Clause(&[199]),
            Step::Model(&[]),
            Step::Has(1),
            Step::Clause(&[0]),
            Step::NoModel(&[], 0),
            Step::NoModel(&[], 0),
        ],
        // the first call eliminates variables, and the next ones ask about one of them
        3 => &[
            Step::Pigeons,
            SEVENTH,
            Step::NoModel(&[198], 1),
            Step::Model(&[0]),
            Step::Has(0),
            Step::Has(13),
            Step::Has(199),
            Step::NoModel(&[198], 1),
        ],
        // a clause of such a variable is added
        4 => &[
            Step::Pigeons,
            SEVENTH,
            Step::NoModel(&[198], 1),
            Step::Clause(&[0]),
            Step::Model(&[]),
            Step::Has(0),
            Step::Has(13),
            Step::NoModel(&[0, 198], 1),
        ],
        // an assumption of another variable
        _ => &[
            Step::Clause(&[1, 2]),
            Step::Model(&[0, 300]),
            Step::Has(2),
            Step::Has(300),
        ],
    }
}

fn lit_of(literal: u32) -> Lit {
    Lit::of(literal / 2, literal % 2 == 1)
}

fn lits_of(alloc: Global, literals: &[u32]) -> Result<Vec<Lit>, AllocError> {
    literals
        .iter()
        .map(|literal| lit_of(*literal))
        .collect(alloc)
}

fn add(solver: &mut Solver, clause: &[Lit]) -> Result<(), AllocError> {
    if solver.accepts(clause) {
        solver.add_clause(clause)?;
    }
    Ok(())
}

/// That one of seven pigeons is, or isn't, in one of six holes.
fn in_hole(pigeon: u32, hole: u32, is_not: bool) -> Lit
    requires pigeon { pigeon < 7 }
    requires hole { hole < 6 }
{
    Lit::of(6 * pigeon + hole, is_not)
}

fn add_pigeon(solver: &mut Solver, pigeon: u32) -> Result<(), AllocError>
    requires { pigeon < 7 }
{
    let holes = [
        in_hole(pigeon, 0, false),
        in_hole(pigeon, 1, false),
        in_hole(pigeon, 2, false),
        in_hole(pigeon, 3, false),
        in_hole(pigeon, 4, false),
        in_hole(pigeon, 5, false),
    ];
    add(solver, holes.as_slice())
}

/// No two pigeons are in a hole.
fn add_hole(solver: &mut Solver, hole: u32) -> Result<(), AllocError>
    requires { hole < 6 }
{
    for one in 0..7 {
        for other in 0..one {
            let pair = [in_hole(one, hole, true), in_hole(other, hole, true)];
            add(solver, pair.as_slice())?;
        }
    }
    Ok(())
}

fn add_pigeons(solver: &mut Solver) -> Result<(), AllocError> {
    for pigeon in 0..6 {
        add_pigeon(solver, pigeon)?;
    }
    for hole in 0..6 {
        add_hole(solver, hole)?;
    }
    Ok(())
}

fn variable(number: u32, is_negated: bool) -> Lit
    requires { number < VARIABLES }
{
    Lit::of(number, is_negated)
}

fn add_chain(solver: &mut Solver) -> Result<(), AllocError> {
    for number in 0..VARIABLES - 1 {
        let next = [variable(number, true), variable(number + 1, false)];
        add(solver, next.as_slice())?;
    }
    Ok(())
}

fn add_clause(alloc: Global, solver: &mut Solver, literals: &[u32]) -> Result<(), AllocError> {
    let clause = lits_of(alloc, literals)?;
    add(solver, &clause)
}

fn answer_under(
    alloc: Global,
    solver: &mut Solver,
    assumptions: &[u32],
) -> Result<Answer, AllocError> {
    let assumptions = lits_of(alloc, assumptions)?;
    solver.solve(alloc, &assumptions, MANY)
}

fn gives_up(alloc: Global, solver: &mut Solver, conflicts: u64) -> Result<bool, AllocError> {
    let answer = solver.solve(alloc, &[], conflicts)?;
    Ok(matches!(answer, Answer::Unknown) && solver.conflicts() == conflicts)
}

/// Adds the clauses of a step.
fn take(alloc: Global, solver: &mut Solver, step: Step) -> Result<(), AllocError> {
    match step {
        Step::Pigeons => add_pigeons(solver),
        Step::Chain => add_chain(solver),
        Step::Clause(literals) => add_clause(alloc, solver, literals),
        _ => Ok(()),
    }
}

/// Whether what a step says is so.
fn is_so(alloc: Global, solver: &mut Solver, step: Step) -> Result<bool, AllocError> {
    match step {
        Step::Model(assumptions) => {
            let answer = answer_under(alloc, solver, assumptions)?;
            Ok(matches!(answer, Answer::Sat))
        }
        Step::NoModel(assumptions, size) => {
            let answer = answer_under(alloc, solver, assumptions)?;
            Ok(matches!(answer, Answer::Unsat) && solver.core().len() == size)
        }
        Step::GivesUp(conflicts) => gives_up(alloc, solver, conflicts),
        Step::Has(literal) => Ok(solver.value(literal / 2) == (literal % 2 == 0)),
        _ => Ok(true),
    }
}

fn are_so(alloc: Global, solver: &mut Solver, steps: &[Step]) -> Result<bool, AllocError> {
    for step in steps {
        take(alloc, solver, *step)?;
        if !is_so(alloc, solver, *step)? {
            return Ok(false);
        }
    }
    Ok(true)
}

pub fn is_right(alloc: Global, case: u32) -> Result<bool, AllocError> {
    let mut solver = Solver::new(alloc, VARIABLES)?;
    are_so(alloc, &mut solver, steps_of(case))
}

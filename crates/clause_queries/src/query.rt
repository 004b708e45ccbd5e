//! A solver that holds the clauses of a formula.

ghost use Rattle.std.specs.Prelude.{◌≡◌, ◌≤◌, ◌<◌, ◌*◌, ◌++◌, ◌∷◌, [], ◌↔◌, IsTrue, List, length, map, take, drop, All, IfOk, IfErr, OnOk};
ghost use Rattle.std.specs.List.{range_with_len};
ghost use Rattle.clause_formulas.specs.declared.formula.Formula.{Formula};
ghost use Rattle.clause_queries.specs.Clauses.{AreTaken, Fits, IsWithin};
ghost use Rattle.clause_queries.specs.Loaded.{AreLoaded};
ghost use Rattle.clause_queries.specs.Names.{own, value_by, AreNames, AreNumbered, HasNumber};
ghost use Rattle.clause_queries.specs.Queries.{problem, IsReply};
ghost use Rattle.clause_queries.specs.declared.query.QueryFault.TheVariants.{TooMany, Memory};

use crate::names::Names;
use clause_formulas::{Formula, MAX_VARIABLES};
use sat::{Answer, Lit, Solver};
use std::alloc::{AllocError, Global};
use std::marker::Model;
use thiserror::Error;

/// The most clauses that a solver takes.
const MAX_CLAUSES: u32 = u32::MAX;

/// Why there is no query.
#[derive(Clone, Copy, Debug, Error)]
pub enum QueryFault {
    /// There are over 2,147,483,647 variables, over 4,294,967,295 clauses, or a clause with a variable that is none of
    /// the formula's.
    #[error("too many variables or clauses")]
    TooMany,
    #[error("out of memory")]
    Memory,
}

impl From<AllocError> for QueryFault {
    ghost from_gives = { λ _ fault. fault ≡ Memory };

    fn from(_e: AllocError) -> QueryFault {
        QueryFault::Memory
    }
}

/// What comes of a question.
pub enum Reply {
    /// The values of the formula's variables.
    Model(Vec<bool>),
    NoModel,
    /// The solver gave up.
    Unknown,
}

/// A formula, and a solver that holds its clauses.
pub struct Query {
    variables: u32,
    // The variables that the solver has.
    names: Names,
    solver: Solver,
}

impl Drop for Query {
    fn drop(self) {
        let Query {
            variables: _,
            names: _,
            solver: _,
        } = self;
    }
}

impl Model for Query {
    ghost use Rattle.clause_queries.specs.Loaded.{IsLoaded, loaded};
    ghost use Rattle.clause_queries.specs.Queries.{Problem};

    ghost Value = { Problem };

    ghost view = { λ q. loaded q.variables q.names q.solver.formula };

    ghost invariant = { λ q. IsLoaded q.variables q.names q.solver.formula };
}

// The solver's literals for these of the formula's.
fn lits_of(alloc: Global, names: &Names, literals: &[u32]) -> Result<Vec<Lit>, AllocError>
    requires names { AreNames names.now }
    requires numbered { All (HasNumber names.now) literals.now }
    ensures { IfOk result (λ lits. lits.items ≡ map (own names.now) literals.now) }
{
    literals.iter().map(|l| names.lit(*l)).collect(alloc)
}

// Whether each literal is of one of so many variables.
fn is_within(clause: &[u32], variables: u32) -> bool
    ensures { IsTrue result ↔ IsWithin variables clause.now }
{
    clause.iter().all(|l| *l / 2 < variables)
}

// The literals of a clause of this size, and what follows. A clause ends with the list at the latest.
fn split_clause(size: u32, after: &[u32]) -> (&[u32], &[u32])
    ensures clause { result.0.now ≡ take size after.now }
    ensures rest { result.1.now ≡ drop size after.now }
{
    let size = size as usize;
    if size < after.len() {
        after.split_at(size)
    } else {
        after.split_at(after.len())
    }
}

// Adds one clause.
fn add_clause(
    alloc: Global,
    solver: &mut Solver,
    names: &Names,
    clause: &[u32],
) -> Result<(), AllocError>
    requires room { length solver.old.formula < 4294967295 }
    requires names { AreNames names.now }
    requires variables { solver.old.variables ≡ length names.now.names.items }
    requires numbered { All (HasNumber names.now) clause.now }
    ensures formula { OnOk result (solver.new.formula ≡ solver.old.formula ++ map (own names.now) clause.now ∷ []) }
    ensures variables { solver.new.variables ≡ solver.old.variables }
{
    let lits = lits_of(alloc, names, clause)?;
    solver.add_clause(&lits)
}

// Adds each clause of a list.
fn add_clauses(
    alloc: Global,
    solver: &mut Solver,
    names: &Names,
    literals: &[u32],
    variables: u32,
) -> Result<(), QueryFault>
    requires formula { solver.old.formula ≡ [] }
    requires variables { solver.old.variables ≡ length names.now.names.items }
    requires names { AreNames names.now }
    requires width { length names.now.numbers.items ≡ variables }
    requires numbered { AreNumbered names.now literals.now }
    ensures formula { OnOk result (AreLoaded variables names.now literals.now solver.new.formula) }
    ensures many { IfErr result (λ fault. fault ≡ TooMany → ¬ AreTaken variables literals.now) }
{
    let mut rest = literals;
    let mut added: u32 = 0;
    while let Some((size, after)) = rest.split_first() {
        let (clause, others) = split_clause(*size, after);
        if added == MAX_CLAUSES || !is_within(clause, variables) {
            return Err(QueryFault::TooMany);
        }
        add_clause(alloc, solver, names, clause)?;
        added += 1;
        rest = others;
    }
    Ok(())
}

// The values of the first so many variables in the solver's model.
fn values_of(
    alloc: Global,
    solver: &Solver,
    names: &Names,
    variables: u32,
) -> Result<Vec<bool>, AllocError>
    requires { length names.now.numbers.items ≡ variables }
    ensures { IfOk result (λ values. values.items ≡ map (value_by names.now solver.now.model) (range_with_len 0 variables)) }
{
    (0..variables)
        .map(|v| names.value(solver, v))
        .collect(alloc)
}

impl Query {
    /// A query of the formula, of which it keeps the clauses.
    pub fn of(alloc: Global, formula: &Formula) -> Result<Query, QueryFault>
        ensures query { IfOk result (λ query. query ≡ problem formula.now) }
        ensures fits { OnOk result (Fits formula.now) }
        ensures many { IfErr result (λ fault. fault ≡ TooMany → ¬ Fits formula.now) }
    {
        if formula.variables > MAX_VARIABLES {
            return Err(QueryFault::TooMany);
        }
        let variables = formula.variables;
        // The sizes of clauses count as literals here: that gives a variable or two more a number.
        let names = Names::of(alloc, &formula.literals, variables)?;
        let mut solver = Solver::new(alloc, names.count())?;
        add_clauses(alloc, &mut solver, &names, &formula.literals, variables)?;
        Ok(Query {
            variables,
            names,
            solver,
        })
    }

    /// Asks for a model in which each assumption, a literal of the formula, is true. The solver gives up after so many
    /// conflicts. An error leaves the clauses as they are.
    pub fn ask(
        &mut self,
        alloc: Global,
        assumptions: &[u32],
        conflicts: u64,
    ) -> Result<Reply, AllocError>
        requires { IsWithin self.old.variables assumptions.now }
        ensures unchanged { self.new ≡ self.old }
        ensures reply { IfOk result (IsReply self.old assumptions.now) }
    {
        self.names.add_all(assumptions)?;
        let assumed = lits_of(alloc, &self.names, assumptions)?;
        match self.solver.solve(alloc, &assumed, conflicts)? {
            Answer::Sat => Ok(Reply::Model(values_of(
                alloc,
                &self.solver,
                &self.names,
                self.variables,
            )?)),
            Answer::Unsat => Ok(Reply::NoModel),
            Answer::Unknown => Ok(Reply::Unknown),
        }
    }

    // Literals that are tried first from now on: the solver decides them in their order, and true.
    pub(crate) fn prefer(&mut self, alloc: Global, literals: &[u32]) -> Result<(), AllocError>
        requires { IsWithin self.old.variables literals.now }
        ensures { self.new ≡ self.old }
    {
        self.names.add_all(literals)?;
        let lits = lits_of(alloc, &self.names, literals)?;
        self.solver.prefer(&lits)
    }
}

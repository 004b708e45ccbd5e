ghost use Rattle.std.specs.Prelude.{◌≡◌, IfOk, IfSome};
ghost use Rattle.std.specs.List.{All};
ghost use Rattle.sat.specs.Cnf.{Entails, Extends};
ghost use Rattle.sat.specs.Answers.{IsVerdict};

use crate::clauses::Clauses;
use crate::eliminating::eliminate;
use crate::elimination::{forget, has_gone, is_empty};
use crate::engine::Engine;
use crate::learning::fix_assumed;
use crate::lit::Lit;
use crate::merits::{GIVEN, give_up_given};
use crate::reduction::{forget_below, reduce};
use crate::search::{back_to, load_clause, reload};
use crate::steps::Verdict;
use crate::trail::{NONE, first_level};
use std::alloc::{AllocError, Global};
use std::mem;

/// When the search begins again: by Knuth's reluctant doubling, after 1, 1, 2, 1, 1, 2, 4, .. units.
#[derive(Clone, Copy)]
struct Pace {
    u: u64,
    v: u64,
    left: u64,
    /// How many clauses are kept that may be forgotten.
    limit: usize,
    /// After how many conflicts more that rises, and after how many it did so last.
    rise: u64,
    period: u64,
    /// After how many conflicts more variables are eliminated.
    elimination: u64,
}

const UNIT: u64 = 100;

/// So many learned clauses are kept, and one for three clauses of the formula.
const FEWEST: usize = 1000;

fn is_due(pace: &mut Pace) -> bool {
    if pace.left > 0 {
        pace.left -= 1;
        return false;
    }
    let low = pace.u & pace.u.wrapping_neg();
    if low == pace.v {
        pace.u = pace.u.wrapping_add(1);
        pace.v = 1;
    } else {
        pace.v = pace.v.wrapping_mul(2);
    }
    pace.left = pace.v.wrapping_mul(UNIT);
    true
}

impl Pace {
    /// For so many clauses.
    fn new(clauses: usize) -> Pace {
        Pace {
            u: 1,
            v: 1,
            left: UNIT,
            limit: FEWEST.saturating_add(clauses / 3),
            rise: UNIT,
            period: UNIT,
            elimination: UNIT.saturating_add(clauses as u64 / 10),
        }
    }
}

/// The number of learned clauses that are kept rises by a tenth, each time after half as many conflicts again.
fn raise(pace: &mut Pace) {
    if pace.rise > 0 {
        pace.rise -= 1;
        return;
    }
    pace.period = pace.period.saturating_add(pace.period / 2);
    pace.rise = pace.period;
    pace.limit = pace.limit.saturating_add(pace.limit / 10);
}

/// What a call found, and after how many conflicts. Without a verdict it gave up.
#[derive(Clone, Copy)]
pub(crate) struct Outcome {
    pub(crate) verdict: Option<Verdict>,
    pub(crate) conflicts: u64,
}

/// How many variables there are up to the last one of these literals.
fn variables_of(lits: &[Lit]) -> usize {
    lits.iter()
        .fold(0, |most, lit| most.max(lit.variable() as usize + 1))
}

impl Engine {
    /// Goes on without variables that can be eliminated.
    #[tactic(auto, using(crate::proofs::CnfLemmas::extends_trans, crate::proofs::CnfLemmas::extends_same))]
    fn eliminate(&mut self, alloc: Global, assumptions: &[Lit]) -> Result<(), AllocError>
        ensures { Extends self.old.database self.new.database }
    {
        back_to(&mut self.search, 0);
        self.search.may_eliminate = false;
        eliminate(
            alloc,
            &mut self.database,
            &mut self.search,
            &mut self.working,
            assumptions,
        )?;
        forget_below(alloc, &mut self.database, &mut self.search, 0.0)
    }

    /// Begins again where that is due: with fewer learned clauses at level 0, and else where the assumptions are true.
    fn restart(
        &mut self,
        alloc: Global,
        pace: &mut Pace,
        assumptions: &[Lit],
    ) -> Result<(), AllocError>
        ensures { Extends self.old.database self.new.database }
    {
        raise(pace);
        let is_due = is_due(pace);
        if pace.elimination == 0 && self.search.may_eliminate {
            return self.eliminate(alloc, assumptions);
        }
        pace.elimination = pace.elimination.saturating_sub(1);
        if self.search.merits.passing > pace.limit {
            back_to(&mut self.search, 0);
            return reduce(alloc, &mut self.database, &mut self.search);
        }
        if is_due {
            let level = first_level(&self.search.trail);
            back_to(&mut self.search, level);
            fix_assumed(&mut self.database, &mut self.search, &mut self.working)?;
        }
        Ok(())
    }

    /// Goes on from conflict to conflict, up to a verdict or to so many conflicts.
    fn run(
        &mut self,
        alloc: Global,
        formula: &Clauses,
        assumptions: &[Lit],
        conflicts: u64,
    ) -> Result<Outcome, AllocError>
        requires follows { All (Entails formula.now) self.old.database }
        ensures follows { All (Entails formula.now) self.new.database }
        ensures found { IfOk result (λ found. IfSome found.verdict (IsVerdict formula.now assumptions.now self.new)) }
    {
        let mut pace = Pace::new(formula.len() as usize);
        let mut met = 0;
        while met < conflicts {
            let verdict = self.to_conflict(formula, assumptions)?;
            if verdict.is_some() {
                return Ok(Outcome {
                    verdict,
                    conflicts: met,
                });
            }
            met += 1;
            self.restart(alloc, &mut pace, assumptions)?;
        }
        Ok(Outcome {
            verdict: None,
            conflicts: met,
        })
    }

    /// Brings eliminated variables back, where a call asks about some: all clauses of the formula are loaded again, in place
    /// of those that followed from them.
    fn bring_back(
        &mut self,
        alloc: Global,
        formula: &Clauses,
        assumptions: &[Lit],
    ) -> Result<(), AllocError>
        requires { All (Entails formula.now) self.old.database }
        ensures { All (Entails formula.now) self.new.database }
    {
        if is_empty(&self.search.elimination) || !self.needs_gone(formula, assumptions) {
            return Ok(());
        }
        forget(alloc, &mut self.search.elimination);
        self.search.loaded = 0;
        give_up_given(&mut self.search.merits);
        forget_below(alloc, &mut self.database, &mut self.search, 0.0)
    }

    /// Whether the assumptions, the literals that are decided first, or clauses that are new have eliminated variables.
    fn needs_gone(&self, formula: &Clauses, assumptions: &[Lit]) -> bool {
        if has_gone(&self.search.elimination, assumptions)
            || has_gone(&self.search.elimination, &self.search.queue.preferred)
        {
            return true;
        }
        for number in self.search.loaded..formula.len() {
            if has_gone(&self.search.elimination, formula.clause(number)) {
                return true;
            }
        }
        false
    }

    /// Puts the clauses of the formula that the search doesn't know yet into the database.
    fn load(&mut self, formula: &Clauses) -> Result<(), AllocError>
        requires { All (Entails formula.now) self.old.database }
        ensures { All (Entails formula.now) self.new.database }
    {
        for number in self.search.loaded..formula.len() {
            if self.database.len() == NONE {
                return Err(AllocError);
            }
            let clause = formula.clause(number);
            self.database.push(clause)?;
            self.search.loaded = number + 1;
            load_clause(&mut self.search, clause, self.database.len() - 1, GIVEN)?;
        }
        Ok(())
    }

    /// Adds the variables of which only the assumptions speak.
    fn add_variables(&mut self, alloc: Global, assumptions: &[Lit]) -> Result<(), AllocError>
        ensures { self.new.database ≡ self.old.database }
    {
        let variables = variables_of(assumptions);
        if variables > self.search.trail.values.as_slice().len() {
            self.widen(alloc, variables)?;
        }
        Ok(())
    }

    /// Makes the search ready for a call. What one that ran out of memory has left is made anew.
    fn begin(&mut self, alloc: Global) -> Result<(), AllocError>
        ensures { self.new.database ≡ self.old.database }
    {
        if self.search.is_underway {
            let merits = mem::replace(&mut self.search.merits.merits, Vec::new(alloc));
            return reload(&self.database, &mut self.search, &merits);
        }
        self.search.is_underway = true;
        back_to(&mut self.search, 0);
        Ok(())
    }

    /// Looks for a model of the formula in which the assumptions hold.
    pub(crate) fn look(
        &mut self,
        alloc: Global,
        formula: &Clauses,
        assumptions: &[Lit],
        conflicts: u64,
    ) -> Result<Outcome, AllocError>
        requires follows { All (Entails formula.now) self.old.database }
        ensures follows { All (Entails formula.now) self.new.database }
        ensures found { IfOk result (λ found. IfSome found.verdict (IsVerdict formula.now assumptions.now self.new)) }
    {
        self.begin(alloc)?;
        self.add_variables(alloc, assumptions)?;
        self.bring_back(alloc, formula, assumptions)?;
        self.load(formula)?;
        let found = self.run(alloc, formula, assumptions, conflicts)?;
        self.search.is_underway = false;
        Ok(found)
    }
}

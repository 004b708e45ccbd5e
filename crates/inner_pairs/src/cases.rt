//! Whether wires of the joined netlist are ever apart, by cases. Where units share a loop no wire of one netlist may always
//! equal one of the other, but many do where the columns are fixed that steer the loop.

ghost use Rattle.std.specs.Prelude.{◌≡◌, ◌<◌, ◌++◌, ◌∷◌, [], All, IfOk, IfSome};
ghost use Rattle.netlist.specs.Netlists.{columns as columns_of};
ghost use Rattle.netlist.specs.Pairs.{IsPairOf};
ghost use Rattle.clause_pairs.specs.Apart.{IsCubeOf};
ghost use Rattle.inner_pairs.specs.Cases.{told_by, ArePaired, TellsIn};

use crate::hints::find_hints;
use care_sets::Care;
use clause_decision::Scope;
use clause_pairs::{Budget, Fixed, Hint, PairSearch, are_never_apart_in};
use loops::LoopedNetlist;
use netlist::{Netlist, Pair};
use std::alloc::{AllocError, Global};

/// How many conflicts each inner pair may meet, and how many each pair of outputs, or of what latches load.
pub const BUDGET: Budget = Budget {
    few: 100,
    many: 2_000,
};

/// What is told of pairs of wires on some vectors.
#[derive(Clone, Copy, PartialEq, Eq)]
pub enum PairsTold {
    /// None is apart on any.
    Never,
    /// Simulation has some apart on one of them.
    Apart,
    /// It isn't known.
    Open,
}

impl PairsTold {
    pub fn of(never: bool) -> PairsTold
        ensures { result ≡ told_by never }
    {
        if never {
            PairsTold::Never
        } else {
            PairsTold::Open
        }
    }
}

/// Pairs of wires of the joined netlist of two.
#[derive(Drop)]
pub struct JoinedPairs<'a> {
    pub a: &'a Netlist,
    pub b: &'a Netlist,
    pub looped: &'a LoopedNetlist<'a>,
    /// All gates.
    pub scope: &'a Scope,
    pub care: &'a Care,
    pub pairs: &'a [Pair],
}

/// These columns fixed, and one more.
fn with_fixed(alloc: Global, cube: &[Fixed], fixed: Fixed) -> Result<Vec<Fixed>, AllocError>
    ensures { IfOk result (λ more. more.items ≡ cube.now ++ fixed ∷ []) }
{
    let mut more = cube.to_vec(alloc)?;
    more.push(fixed)?;
    Ok(more)
}

impl<'a> JoinedPairs<'a> {
    /// Pairs of inner wires that may help on the vectors of a cube, if simulation has none of the pairs apart on it.
    pub fn hints(&self, alloc: Global, cube: &[Fixed]) -> Result<Option<Vec<Hint>>, AllocError>
        requires { ArePaired self.now }
        ensures { IfOk result (λ found. IfSome found (λ hints. All (λ hint. IsPairOf self.now.looped.now.net hint.pair) hints.items)) }
    {
        find_hints(
            alloc,
            self.a,
            self.b,
            self.looped,
            self.care,
            cube,
            self.pairs,
        )
    }

    /// What is told of them on the care vectors of a cube. Simulation may tell of one that has some apart. Where it tells of none,
    /// inner wires that it doesn't tell apart are asked for first, one by one, and what the solver learns of them is there for
    /// the pairs.
    pub(crate) fn tell_in(&self, alloc: Global, cube: &[Fixed]) -> Result<PairsTold, AllocError>
        requires paired { ArePaired self.now }
        requires cube { IsCubeOf self.now.looped.now.net cube.now }
        ensures { IfOk result (TellsIn self.now.looped.now.net self.now.care.now cube.now self.now.pairs.now) }
    {
        let Some(hints) = self.hints(alloc, cube)? else {
            return Ok(PairsTold::Apart);
        };
        let search = PairSearch {
            hints: &hints,
            pairs: self.pairs,
            budget: BUDGET,
        };
        let net = self.looped.net();
        let never = are_never_apart_in(alloc, net, self.care, self.scope, cube, &search)?;
        Ok(PairsTold::of(never))
    }

    /// What is told of them where one more column is fixed, at once or by the cases of others.
    #[cycle(tell_by_cases)]
    fn tell_case(
        &self,
        alloc: Global,
        cube: &[Fixed],
        fixed: Fixed,
        columns: &[u32],
    ) -> Result<PairsTold, AllocError>
        requires paired { ArePaired self.now }
        requires cube { IsCubeOf self.now.looped.now.net cube.now }
        requires fixed { fixed.column < columns_of self.now.looped.now.net }
        requires columns { All (λ column. column < columns_of self.now.looped.now.net) columns.now }
        ensures { IfOk result (TellsIn self.now.looped.now.net self.now.care.now (cube.now ++ fixed ∷ []) self.now.pairs.now) }
    {
        let more = with_fixed(alloc, cube, fixed)?;
        match self.tell_in(alloc, &more)? {
            PairsTold::Open => self.tell_by_cases(alloc, &more, columns),
            told => Ok(told),
        }
    }

    /// What is told of them by the cases of the first of the columns, at 0 and then at 1.
    #[cycle(tell_by_cases)]
    pub fn tell_by_cases(
        &self,
        alloc: Global,
        cube: &[Fixed],
        columns: &[u32],
    ) -> Result<PairsTold, AllocError>
        requires paired { ArePaired self.now }
        requires cube { IsCubeOf self.now.looped.now.net cube.now }
        requires columns { All (λ column. column < columns_of self.now.looped.now.net) columns.now }
        ensures { IfOk result (TellsIn self.now.looped.now.net self.now.care.now cube.now self.now.pairs.now) }
    {
        let Some((column, others)) = columns.split_first() else {
            return Ok(PairsTold::Open);
        };
        let low = Fixed {
            column: *column,
            value: false,
        };
        let high = Fixed {
            column: *column,
            value: true,
        };
        match self.tell_case(alloc, cube, low, others)? {
            PairsTold::Never => self.tell_case(alloc, cube, high, others),
            told => Ok(told),
        }
    }
}

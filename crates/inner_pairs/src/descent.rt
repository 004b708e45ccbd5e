//! The least care vector on which the wires of some pair are apart, column by column: at each column the vectors that go on
//! with 0 are asked whether they have some pair apart. Where columns are fixed that steer a loop, many inner wires of two
//! netlists are equal that aren't elsewhere, so that this is soon told of each.

ghost use Rattle.std.specs.Prelude.{◌≡◌, ◌<◌, ◌≤◌, ◌++◌, ◌∷◌, [], ℕ, Some, true, false, length, All, IfOk, IfSome};
ghost use Rattle.std.specs.List.{list_any};
ghost use Rattle.netlist.specs.Netlists.{columns as columns_of};
ghost use Rattle.netlist.specs.Fixpoint.{wire};
ghost use Rattle.netlist.specs.Pairs.{are_apart as are_apart_of};
ghost use Rattle.inner_pairs.specs.Beginnings.{cube_of as cube_of_values, IsNextValue, IsLeastBeginning, IsApartAt};
ghost use Rattle.inner_pairs.specs.Cases.{ArePaired, TellsIn};
ghost use Rattle.miters.specs.Pairs.{least_apart as least_apart_of};

use crate::cases::{JoinedPairs, PairsTold};
use clause_pairs::Fixed;
use cyc_base::Trit;
use miters::value_of;
use netlist::Pair;
use refusals::is_care_vector;
use std::alloc::{AllocError, Global};
use ternary_run::settle_at;

/// The first columns fixed at these values.
fn cube_of(alloc: Global, values: &[bool]) -> Result<Vec<Fixed>, AllocError>
    requires { length values.now ≤ 4294967295 }
    ensures { IfOk result (λ cube. cube.items ≡ cube_of_values values.now) }
{
    let mut cube = Vec::new(alloc);
    for column in 0..values.len() {
        cube.push(Fixed {
            column: column as u32,
            value: values[column],
        })?;
    }
    Ok(cube)
}

/// Those of these columns that stand behind the first so many.
fn columns_behind(alloc: Global, columns: &[u32], first: usize) -> Result<Vec<u32>, AllocError>
    ensures { IfOk result (λ behind. (most : ℕ) → All (λ column. column < most) columns.now → All (λ column. column < most) behind.items) }
{
    let mut behind = Vec::new(alloc);
    for column in columns {
        if *column as usize >= first {
            behind.push(*column)?;
        }
    }
    Ok(behind)
}

/// These values, and 0 behind them.
fn with_zero(alloc: Global, values: &[bool]) -> Result<Vec<bool>, AllocError>
    ensures { IfOk result (λ more. more.items ≡ values.now ++ false ∷ []) }
{
    let mut more = values.to_vec(alloc)?;
    more.push(false)?;
    Ok(more)
}

/// Whether one value is 1 and the other 0.
fn are_apart(here: Trit, there: Trit) -> bool
    ensures { result ≡ are_apart_of here there }
{
    match (here, there) {
        (Trit::Zero, Trit::One) => true,
        (Trit::One, Trit::Zero) => true,
        _ => false,
    }
}

/// Whether the wires of some pair are apart, where these are the values of all signals.
fn is_some_apart(values: &[Trit], pairs: &[Pair]) -> bool
    ensures { result ≡ list_any (λ pair. are_apart_of (wire values.now pair.here) (wire values.now pair.there)) pairs.now }
{
    pairs.iter().any(|pair| are_apart(value_of(values, pair.here), value_of(values, pair.there)))
}

impl<'a> JoinedPairs<'a> {
    /// What is told of them on the care vectors that begin with these values, at once or by the cases of columns behind them.
    #[tactic(auto, using(crate::proofs::BeginningLemmas::cube_within, crate::proofs::BeginningLemmas::columns_fit))]
    fn tell_behind(
        &self,
        alloc: Global,
        values: &[bool],
        columns: &[u32],
    ) -> Result<PairsTold, AllocError>
        requires paired { ArePaired self.now }
        requires values { length values.now ≤ columns_of self.now.looped.now.net }
        requires columns { All (λ column. column < columns_of self.now.looped.now.net) columns.now }
        ensures { IfOk result (TellsIn self.now.looped.now.net self.now.care.now (cube_of_values values.now) self.now.pairs.now) }
    {
        let cube = cube_of(alloc, values)?;
        match self.tell_in(alloc, &cube)? {
            PairsTold::Open => {
                let behind = columns_behind(alloc, columns, values.len())?;
                self.tell_by_cases(alloc, &cube, &behind)
            }
            told => Ok(told),
        }
    }

    /// The value that the least vector goes on with behind these, if it is told.
    #[tactic(auto, using(crate::proofs::BeginningLemmas::next_low))]
    fn next_value(
        &self,
        alloc: Global,
        values: &[bool],
        columns: &[u32],
    ) -> Result<Option<bool>, AllocError>
        requires paired { ArePaired self.now }
        requires values { length values.now < columns_of self.now.looped.now.net }
        requires columns { All (λ column. column < columns_of self.now.looped.now.net) columns.now }
        ensures { IfOk result (λ found. IfSome found (IsNextValue self.now.looped.now.net self.now.care.now self.now.pairs.now values.now)) }
    {
        let low = with_zero(alloc, values)?;
        match self.tell_behind(alloc, &low, columns)? {
            PairsTold::Apart => Ok(Some(false)),
            PairsTold::Never => Ok(Some(true)),
            PairsTold::Open => Ok(None),
        }
    }

    /// A vector that is at most each care vector on which some pair is apart, if it is told.
    fn least_values(&self, alloc: Global, columns: &[u32]) -> Result<Option<Vec<bool>>, AllocError>
        requires paired { ArePaired self.now }
        requires columns { All (λ column. column < columns_of self.now.looped.now.net) columns.now }
        ensures width { IfOk result (λ found. IfSome found (λ values. length values.items ≡ columns_of self.now.looped.now.net)) }
        ensures least { IfOk result (λ found. IfSome found (λ values. IsLeastBeginning self.now.looped.now.net self.now.care.now self.now.pairs.now values.items)) }
    {
        let mut values = Vec::new(alloc);
        for _ in 0..self.looped.net().columns() {
            match self.next_value(alloc, &values, columns)? {
                Some(value) => values.push(value)?,
                None => return Ok(None),
            }
        }
        Ok(Some(values))
    }

    /// Whether this is a care vector on which some pair is apart.
    fn is_apart_at(&self, alloc: Global, vector: &[bool]) -> Result<bool, AllocError>
        requires paired { ArePaired self.now }
        requires width { length vector.now ≡ columns_of self.now.looped.now.net }
        ensures { IfOk result (λ apart. apart ≡ true → IsApartAt self.now.looped.now.net self.now.care.now self.now.pairs.now vector.now) }
    {
        let net = self.looped.net();
        if !is_care_vector(alloc, net, self.care, vector)? {
            return Ok(false);
        }
        let values = settle_at(alloc, net, vector)?;
        Ok(is_some_apart(&values, self.pairs))
    }

    /// The least care vector on which the wires of some pair are apart, if it is told. Columns that steer loops are the cases
    /// by which a question is asked that stays open.
    #[tactic(auto, using(crate::proofs::BeginningLemmas::least_is))]
    pub fn least_apart(
        &self,
        alloc: Global,
        columns: &[u32],
    ) -> Result<Option<Vec<bool>>, AllocError>
        requires paired { ArePaired self.now }
        requires columns { All (λ column. column < columns_of self.now.looped.now.net) columns.now }
        ensures { IfOk result (λ found. IfSome found (λ vector. least_apart_of self.now.looped.now.net self.now.care.now self.now.pairs.now ≡ Some vector.items)) }
    {
        let Some(vector) = self.least_values(alloc, columns)? else {
            return Ok(None);
        };
        if self.is_apart_at(alloc, &vector)? {
            Ok(Some(vector))
        } else {
            Ok(None)
        }
    }
}

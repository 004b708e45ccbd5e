//! Whether two netlists that are accepted agree, or on which vector they first differ, found with the help of their inner
//! wires (Kuehlmann and Krohm 1997).

ghost use Rattle.std.specs.Prelude.{◌≡◌, [], IfOk};
ghost use Rattle.inner_pairs.specs.Cases.{ArePaired, TellsIn};
ghost use Rattle.miters.specs.Differences.{difference};
ghost use Rattle.miters.specs.Joined.{joined};
ghost use Rattle.miters.specs.Pairs.{least_apart as least_apart_of};
ghost use Rattle.equal.specs.Early.{IsFound};

use crate::accepted::AcceptedNetlists;
use crate::least::{Early, FEW_CONFLICTS};
use crate::whole::are_never_apart;
use clause_pairs::{Budget, PairSearch};
use cyc_base::Bits;
use feedback_cuts::NetlistLoops;
use inner_pairs::{BUDGET, JoinedPairs, PairsTold, whole_scope};
use miters::{joined_netlist, steering_columns};
use netlist::Netlist;
use std::alloc::{AllocError, Global};

/// How many columns are fixed at most.
const MOST_FIXED: u32 = 6;

/// How many times as many conflicts are allowed where the cases have no answer.
const MORE: u64 = 20;

/// What is told of these pairs on all care vectors. Simulation may tell of one that has some apart. Where it tells of none,
/// inner wires that it doesn't tell apart are asked for first, one by one, and what the solver learns of them is there for the
/// pairs.
fn tell(alloc: Global, joined: &JoinedPairs<'_>, budget: Budget) -> Result<PairsTold, AllocError>
    requires { ArePaired joined.now }
    ensures { IfOk result (TellsIn joined.now.looped.now.net joined.now.care.now [] joined.now.pairs.now) }
{
    let Some(hints) = joined.hints(alloc, &[])? else {
        return Ok(PairsTold::Apart);
    };
    let search = PairSearch {
        hints: &hints,
        pairs: joined.pairs,
        budget,
    };
    let never = are_never_apart(alloc, joined.looped, joined.care, &search)?;
    Ok(PairsTold::of(never))
}

/// What is told of these pairs on all care vectors: at once, or by cases, or else with more conflicts.
fn tell_pairs(alloc: Global, joined: &JoinedPairs<'_>) -> Result<PairsTold, AllocError>
    requires { ArePaired joined.now }
    ensures { IfOk result (TellsIn joined.now.looped.now.net joined.now.care.now [] joined.now.pairs.now) }
{
    match tell(alloc, joined, BUDGET)? {
        PairsTold::Open => {}
        told => return Ok(told),
    }
    let columns = steering_columns(alloc, joined.looped, MOST_FIXED)?;
    match joined.tell_by_cases(alloc, &[], &columns)? {
        PairsTold::Open => tell(alloc, joined, BUDGET.times(MORE)),
        told => Ok(told),
    }
}

impl<'a> AcceptedNetlists<'a> {
    /// The least vector of a difference, where columns steer a loop: from the miter if few conflicts are enough, since its
    /// solver learns from one column to the next, and else column by column.
    fn least_where_loops(
        &self,
        alloc: Global,
        joined: &JoinedPairs<'_>,
    ) -> Result<Early, AllocError>
        requires paired { ArePaired joined.now }
        requires least { least_apart_of joined.now.looped.now.net joined.now.care.now joined.now.pairs.now ≡ difference self.now.a self.now.b self.now.care }
        ensures { IfOk result (IsFound (difference self.now.a self.now.b self.now.care)) }
    {
        let columns = steering_columns(alloc, joined.looped, MOST_FIXED)?;
        if columns.is_empty() {
            return Ok(Early::Nothing);
        }
        if let Early::Found(found) = self.unknown_in_miter(alloc, FEW_CONFLICTS)? {
            return Ok(Early::Found(found));
        }
        match joined.least_apart(alloc, &columns)? {
            Some(vector) => Ok(Early::Found(Some(Bits::of(vector)))),
            None => Ok(Early::Nothing),
        }
    }

    /// The least vector on which they differ, as far as it is found by these pairs of their joined netlist.
    #[tactic(auto, using(inner_pairs::proofs::AlikeLemmas::never_least))]
    fn least_by_pairs(&self, alloc: Global, joined: &JoinedPairs<'_>) -> Result<Early, AllocError>
        requires paired { ArePaired joined.now }
        requires least { least_apart_of joined.now.looped.now.net joined.now.care.now joined.now.pairs.now ≡ difference self.now.a self.now.b self.now.care }
        ensures { IfOk result (IsFound (difference self.now.a self.now.b self.now.care)) }
    {
        match tell_pairs(alloc, joined)? {
            PairsTold::Never => Ok(Early::Found(None)),
            PairsTold::Apart => self.least_where_loops(alloc, joined),
            PairsTold::Open => Ok(Early::Nothing),
        }
    }

    /// The least vector on which they differ, as far as it is found by pairs of wires of this netlist that joins them.
    fn difference_in(&self, alloc: Global, net: &Netlist) -> Result<Early, AllocError>
        requires { net.now ≡ joined self.now.a self.now.b [] }
        ensures { IfOk result (IsFound (difference self.now.a self.now.b self.now.care)) }
    {
        let loops = NetlistLoops::find(alloc, net)?;
        let looped = loops.looped();
        let scope = whole_scope(alloc, net)?;
        let joined = JoinedPairs {
            a: self.a,
            b: self.b,
            looped: &looped,
            scope: &scope,
            care: self.care,
            pairs: self.pairs,
        };
        self.least_by_pairs(alloc, &joined)
    }

    /// The least vector on which they differ, as far as it is found by pairs of their wires.
    pub(crate) fn difference_by_pairs(&self, alloc: Global) -> Result<Early, AllocError>
        ensures { IfOk result (IsFound (difference self.now.a self.now.b self.now.care)) }
    {
        let net = joined_netlist(alloc, self.a, self.b, self.columns)?;
        self.difference_in(alloc, &net)
    }
}

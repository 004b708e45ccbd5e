//! The parts of a decision by clauses, on netlists whose answers are seen at a glance.

ghost use Rattle.std.specs.Prelude.{◌≡◌, ◌<◌, ℕ, true, length, IfOk};
ghost use Rattle.care_sets.specs.Binding.{IsCareOf};
ghost use Rattle.clause_decision.specs.Scopes.{IsScopeOf};
ghost use Rattle.loops.specs.Blocks.{block_at, AreBlocksOf};
ghost use Rattle.loops.specs.Cuts.{IsCutOf};
ghost use Rattle.netlist.specs.Netlists.{IsNetlist, is_marked};
ghost use Rattle.refusals.specs.Acceptance.{Accepts};

use crate::asked::{ANY, Asked, is_right_of};
use bdd_ops::Diagrams;
use care_sets::Care;
use clause_decision::{
    First, Found, Scope, each_unknown, first_unknown, is_possible, least_leaving, least_outside,
    least_unknown, sweeps_fed_known, sweeps_needed,
};
use clause_pairs::{Budget, PairSearch};
use cyc_base::{Items, Sig};
use loop_simulation::sweeps_at;
use loops::{Blocks, Cut, LoopedNetlist};
use netlist::{Netlist, Pair};
use std::alloc::{AllocError, Global};
use std::test::Fail;
use verdict::{Judgement, Observe, judge};

/// More conflicts than a search here has.
const MANY: u64 = 1_000;

/// A gate, and one that is 1 where x is, and unknown where it isn't.
const KEEPS: &[u8] =
    b".model m\n.inputs x\n.outputs b a\n.names x b\n0 1\n.names x a a\n1- 1\n-1 1\n.end\n";

/// Two gates of one function.
const TWINS: &[u8] = b".model m\n.inputs x\n.outputs b c\n.names x b\n0 1\n.names x c\n0 1\n.end\n";

/// A latch that goes to 0 where x is 0.
const FALLS: &[u8] = b".model m\n.inputs x\n.outputs d\n.latch d q 1\n.names x q d\n11 1\n.end\n";

/// The same with any start.
const FALLS_FROM_ANY: &[u8] =
    b".model m\n.inputs x\n.outputs d\n.latch d q 3\n.names x q d\n11 1\n.end\n";

/// A latch that stays.
const STAYS: &[u8] = b".model m\n.inputs x\n.outputs d\n.latch d q 1\n.names q d\n1 1\n.end\n";

/// Two units that share a loop: c says which of them comes first.
const UNITS: &[u8] =
    b".model m\n.inputs c x\n.outputs f g\n.names c x g f\n11- 1\n0-1 1\n.names c f x g\n11- 1\n0-1 1\n.end\n";

/// A chain of four that x goes through up or down. Its cut wires are the second and the last; each way the second of them
/// that x comes to is known after the second sweep.
const CHAIN: &[u8] =
    b".model m\n.inputs u x\n.outputs a\n.names u x b a\n11- 1\n0-1 1\n.names u a c b\n11- 1\n0-1 1\n.names u b d c\n11- 1\n0-1 1\n.names u c x d\n11- 1\n0-1 1\n.end\n";

/// The vectors count where x is 1, none, and those where q is 1.
const X_IS_ONE: &[u8] = b".model assume\n.inputs x\n.outputs ok\n.names x ok\n1 1\n.end\n";

const NEVER: &[u8] = b".model assume\n.outputs ok\n.names ok\n.end\n";

const Q_IS_ONE: &[u8] = b".model invariant\n.inputs q\n.outputs ok\n.names q ok\n1 1\n.end\n";

/// What is asked of a part of a decision, with the right answer.
#[derive(Clone, Copy)]
pub enum Question {
    /// Whether there is a care vector.
    Possible(bool),
    /// The least initial state outside the invariant, if there is one.
    Outside(Option<&'static [bool]>),
    /// The least care vector at which the second gate is unknown.
    Unknown(Option<&'static [bool]>),
    /// The least care vector whose next state leaves the invariant.
    Leaving(Option<&'static [bool]>),
    /// Whether the second of two gates is unknown at some care vector, where the first is known at each.
    SecondUnknown(bool),
}

pub const CASES: u32 = 15;

/// A netlist, its care file, and what is asked of them.
fn row(number: u32) -> (&'static [u8], &'static [u8], Asked) {
    match number {
        0 => (KEEPS, X_IS_ONE, Asked::Clauses(Question::Possible(true))),
        1 => (KEEPS, NEVER, Asked::Clauses(Question::Possible(false))),
        2 => (
            FALLS_FROM_ANY,
            Q_IS_ONE,
            Asked::Clauses(Question::Outside(Some(&[false]))),
        ),
        3 => (FALLS, Q_IS_ONE, Asked::Clauses(Question::Outside(None))),
        4 => (
            KEEPS,
            ANY,
            Asked::Clauses(Question::Unknown(Some(&[false]))),
        ),
        5 => (KEEPS, X_IS_ONE, Asked::Clauses(Question::Unknown(None))),
        6 => (
            FALLS,
            Q_IS_ONE,
            Asked::Clauses(Question::Leaving(Some(&[false, true]))),
        ),
        7 => (STAYS, Q_IS_ONE, Asked::Clauses(Question::Leaving(None))),
        8 => (KEEPS, ANY, Asked::Clauses(Question::SecondUnknown(true))),
        9 => (
            KEEPS,
            X_IS_ONE,
            Asked::Clauses(Question::SecondUnknown(false)),
        ),
        10 => (UNITS, ANY, Asked::Sweeps(1)),
        11 => (CHAIN, ANY, Asked::Sweeps(2)),
        // both gates are the complement of x
        12 => (TWINS, ANY, Asked::NeverApart(1, 2, true)),
        // a gate is the complement of x
        13 => (TWINS, ANY, Asked::NeverApart(0, 1, false)),
        // b is 0 where a is 1
        _ => (KEEPS, ANY, Asked::NeverApart(1, 2, false)),
    }
}

/// The scope of all gates.
#[tactic(auto, using(crate::proofs::ByClausesLemmas::all_closed, crate::proofs::ByClausesLemmas::none_known))]
fn whole_scope(alloc: Global, net: &Netlist) -> Result<Scope, AllocError>
    requires { IsNetlist net.now }
    ensures scope { IfOk result (IsScopeOf net.now) }
    ensures all { IfOk result (λ scope. (n : ℕ) → n < length net.now.gates → is_marked scope.gates n ≡ true) }
{
    let gates = vec![in alloc; true; net.gates() as usize]?;
    let known = vec![in alloc; false; net.gates() as usize]?;
    Ok(Scope {
        gates: Items::of(gates),
        known: Items::of(known),
    })
}

/// Whether the vector that was found is this one, if there is one.
fn is_least(found: Found, vector: Option<&[bool]>) -> bool {
    match found {
        Found::Least(least) => vector == Some(least.as_slice()),
        Found::NoVector => vector.is_none(),
        Found::Unknown => false,
    }
}

/// Whether the second gate is unknown first at this vector.
fn unknown(alloc: Global, net: &Netlist, care: &Care, scope: &Scope) -> Result<Found, Fail>
    requires care { IsCareOf net.now care.now }
    requires scope { IsScopeOf net.now scope.now }
    requires all { (n : ℕ) → n < length net.now.gates → is_marked scope.now.gates n ≡ true }
{
    if net.gates() < 2 {
        return Err(Fail::from("a gate is missing"));
    }
    Ok(least_unknown(alloc, net, care, scope, 1, MANY)?)
}

/// Whether all gates are known at each vector that counts.
fn accepted(
    alloc: Global,
    net: &Netlist,
    blocks: &Blocks,
    cut: &Cut,
    care: &Care,
) -> Result<bool, Fail>
    requires blocks { AreBlocksOf net.now blocks.now }
    requires cut { IsCutOf net.now cut.now }
    requires care { IsCareOf net.now care.now }
    ensures { IfOk result (λ known. known ≡ true → Accepts net.now care.now Observe.All) }
{
    let mut d = Diagrams::new(alloc, 0, 1)?;
    match judge(alloc, &mut d, net, blocks, cut, care, 1_000, Observe::All)? {
        Judgement::Accepted { .. } => Ok(true),
        Judgement::Refused(_) => Ok(false),
    }
}

/// The least care vector whose next state leaves the invariant, of a netlist whose wires are known at each vector.
fn leaving(
    alloc: Global,
    net: &Netlist,
    blocks: &Blocks,
    cut: &Cut,
    care: &Care,
    scope: &Scope,
) -> Result<Found, Fail>
    requires blocks { AreBlocksOf net.now blocks.now }
    requires cut { IsCutOf net.now cut.now }
    requires care { IsCareOf net.now care.now }
    requires scope { IsScopeOf net.now scope.now }
    requires all { (n : ℕ) → n < length net.now.gates → is_marked scope.now.gates n ≡ true }
{
    if !accepted(alloc, net, blocks, cut, &Care::none())? {
        return Err(Fail::from("a wire is unknown"));
    }
    Ok(least_leaving(alloc, net, care, scope, MANY)?)
}

/// Whether the first gate is known, and this says whether the second one is unknown at some vector that counts.
fn tells_unknown(
    alloc: Global,
    net: &Netlist,
    care: &Care,
    scope: &Scope,
    second: bool,
) -> Result<bool, Fail>
    requires care { IsCareOf net.now care.now }
    requires scope { IsScopeOf net.now scope.now }
    requires all { (n : ℕ) → n < length net.now.gates → is_marked scope.now.gates n ≡ true }
{
    if net.gates() < 2 {
        return Err(Fail::from("a gate is missing"));
    }
    let first = first_unknown(alloc, net, care, scope, &[0, 1], MANY)?;
    let each = each_unknown(alloc, net, care, scope, &[0, 1], MANY)?;
    let is_first = if second {
        matches!(first, First::At(1))
    } else {
        matches!(first, First::Nowhere)
    };
    match &each {
        Some(each) => Ok(is_first && each.as_slice() == [false, second].as_slice()),
        None => Ok(false),
    }
}

fn by_scope(
    alloc: Global,
    net: &Netlist,
    blocks: &Blocks,
    cut: &Cut,
    care: &Care,
    scope: &Scope,
    question: Question,
) -> Result<bool, Fail>
    requires blocks { AreBlocksOf net.now blocks.now }
    requires cut { IsCutOf net.now cut.now }
    requires care { IsCareOf net.now care.now }
    requires scope { IsScopeOf net.now scope.now }
    requires all { (n : ℕ) → n < length net.now.gates → is_marked scope.now.gates n ≡ true }
{
    match question {
        Question::Possible(possible) => Ok(is_possible(alloc, net, care, MANY)? == Some(possible)),
        Question::Outside(vector) => Ok(is_least(least_outside(alloc, net, care, MANY)?, vector)),
        Question::Unknown(vector) => Ok(is_least(unknown(alloc, net, care, scope)?, vector)),
        Question::Leaving(vector) => Ok(is_least(
            leaving(alloc, net, blocks, cut, care, scope)?,
            vector,
        )),
        Question::SecondUnknown(second) => tells_unknown(alloc, net, care, scope, second),
    }
}

/// Whether the question has its right answer.
pub fn is_answered(
    alloc: Global,
    net: &Netlist,
    blocks: &Blocks,
    cut: &Cut,
    care: &Care,
    question: Question,
) -> Result<bool, Fail>
    requires valid { IsNetlist net.now }
    requires blocks { AreBlocksOf net.now blocks.now }
    requires cut { IsCutOf net.now cut.now }
    requires care { IsCareOf net.now care.now }
{
    let scope = whole_scope(alloc, net)?;
    by_scope(alloc, net, blocks, cut, care, &scope, question)
}

/// Whether the first block is a loop that needs so many sweeps: at the vector of zeros, on all vectors whose gates are known,
/// and on those where only what feeds it is known to be.
fn needs(alloc: Global, looped: &LoopedNetlist<'_>, care: &Care, sweeps: u32) -> Result<bool, Fail>
    requires valid { IsNetlist looped.now.net }
    requires care { IsCareOf looped.now.net care.now }
    requires block { 0 < length looped.now.blocks.list }
    requires looped { (block_at looped.now.blocks 0).looped ≡ true }
    requires accepts { Accepts looped.now.net care.now Observe.All }
{
    let net = looped.net();
    let scope = whole_scope(alloc, net)?;
    let zeros = vec![in alloc; false; net.columns() as usize]?;
    let at_zeros = sweeps_at(alloc, looped, 0, &zeros)?;
    let needed = sweeps_needed(alloc, looped, care, &scope, 0, MANY)?;
    let fed = sweeps_fed_known(alloc, looped, care, &scope, 0, MANY)?;
    Ok(at_zeros == sweeps && needed == Some(sweeps) && fed == Some(sweeps))
}

/// Whether it is one, on all vectors.
pub fn has_sweeps(alloc: Global, looped: &LoopedNetlist<'_>, sweeps: u32) -> Result<bool, Fail>
    requires { IsNetlist looped.now.net }
{
    let blocks = looped.blocks();
    let list = blocks.list.items();
    if list.is_empty() || !list[0].looped {
        return Err(Fail::from("no loop comes first"));
    }
    let care = Care::none();
    if !accepted(alloc, looped.net(), blocks, looped.cut(), &care)? {
        return Err(Fail::from("a wire is unknown"));
    }
    needs(alloc, looped, &care, sweeps)
}

/// Whether wires of a netlist are told never apart as they should be: by clauses of all gates, and where loops are tried by
/// themselves before.
pub fn told_apart(
    alloc: Global,
    looped: &LoopedNetlist<'_>,
    here: u32,
    there: u32,
    never: bool,
) -> Result<bool, Fail>
    requires { IsNetlist looped.now.net }
{
    let net = looped.net();
    if here >= net.count() || there >= net.count() {
        return Err(Fail::from("a wire is missing"));
    }
    let pairs = [Pair {
        here: Sig(here),
        there: Sig(there),
    }];
    let search = PairSearch {
        hints: &[],
        pairs: &pairs,
        budget: Budget {
            few: MANY,
            many: MANY,
        },
    };
    let care = Care::none();
    let scope = whole_scope(alloc, net)?;
    let by_all = clause_pairs::are_never_apart(alloc, net, &care, &scope, &search)?;
    let by_loops = equal::are_never_apart(alloc, looped, &care, &search)?;
    Ok(by_all == never && by_loops == never)
}

pub fn is_right(alloc: Global, case: u32) -> Result<bool, Fail> {
    let (text, care, asked) = row(case);
    is_right_of(alloc, text, care, asked)
}

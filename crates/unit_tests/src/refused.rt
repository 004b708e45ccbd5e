//! Refusals against what they show.

ghost use Rattle.care_sets.specs.Binding.{IsCareOf};
ghost use Rattle.netlist.specs.Netlists.{IsNetlist};

use crate::asked::{Asked, is_right_of};
use bdd_ops::Diagrams;
use care_sets::Care;
use loops::LoopedNetlist;
use refusals::shows;
use std::alloc::Global;
use std::test::Fail;
use verdict::{Observe, Verdict, decide};

/// A netlist that is refused, and its care file.
fn refused(number: u32) -> (&'static [u8], &'static [u8]) {
    match number {
        // a wire that is unknown
        0 => (
            b".model m\n.inputs x\n.outputs a\n.names x a a\n1- 1\n-1 1\n",
            b".model assume\n.outputs ok\n.names ok\n1\n",
        ),
        // a state that leaves the invariant
        1 => (
            b".model m\n.inputs x\n.outputs d\n.latch d q 1\n.names x q d\n11 1\n",
            b".model invariant\n.inputs q\n.outputs ok\n.names q ok\n1 1\n",
        ),
        // an initial state outside of it
        _ => (
            b".model m\n.inputs x\n.outputs d\n.latch d q 3\n.names x q d\n11 1\n",
            b".model invariant\n.inputs q\n.outputs ok\n.names q ok\n1 1\n",
        ),
    }
}

/// Whether a netlist is refused over these diagrams, and its refusal shows what it says.
#[tactic(auto, using(crate::proofs::RefusedLemmas::refusal_fits))]
fn is_shown_by(
    alloc: Global,
    d: &mut Diagrams,
    looped: &LoopedNetlist<'_>,
    care: &Care,
) -> Result<bool, Fail>
    requires valid { IsNetlist looped.now.net }
    requires care { IsCareOf looped.now.net care.now }
{
    let net = looped.net();
    let blocks = looped.blocks();
    let cut = looped.cut();
    match decide(alloc, d, net, blocks, cut, care, 1_000, Observe::All)? {
        Verdict::Accepted { .. } => Ok(false),
        Verdict::Refused(refusal) => Ok(shows(alloc, net, care, &refusal)?),
    }
}

/// Whether it is over diagrams of its own.
pub fn is_shown(alloc: Global, looped: &LoopedNetlist<'_>, care: &Care) -> Result<bool, Fail>
    requires valid { IsNetlist looped.now.net }
    requires care { IsCareOf looped.now.net care.now }
{
    let mut d = Diagrams::new(alloc, 0, 1)?;
    is_shown_by(alloc, &mut d, looped, care)
}

pub const CASES: u32 = 3;

pub fn is_right(alloc: Global, case: u32) -> Result<bool, Fail> {
    let (text, care) = refused(case);
    is_right_of(alloc, text, care, Asked::Refused)
}

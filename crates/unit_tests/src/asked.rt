//! What is asked of a netlist with its loops on a care set, both by their texts.

ghost use Rattle.care_sets.specs.Binding.{IsCareOf};
ghost use Rattle.netlist.specs.Netlists.{IsNetlist};

use crate::by_clauses::{Question, has_sweeps, is_answered, told_apart};
use crate::fixpoints::rails_are_right;
use crate::refused::is_shown;
use crate::settling::is_settled_alone;
use crate::texts::{care_by, net_of};
use crate::unrolling::is_too_large;
use care_sets::Care;
use feedback_cuts::NetlistLoops;
use loops::LoopedNetlist;
use netlist::Netlist;
use std::alloc::Global;
use std::test::Fail;

/// All vectors count.
pub const ANY: &[u8] = b".model assume\n.outputs ok\n.names ok\n1\n.end\n";

/// A question, with its right answer where that isn't yes.
#[derive(Clone, Copy)]
pub enum Asked {
    /// What a part of a decision by clauses answers.
    Clauses(Question),
    /// How many sweeps the first loop needs.
    Sweeps(u32),
    /// Whether two wires, by number, are never apart.
    NeverApart(u32, u32, bool),
    /// Whether it is refused, and its refusal shows what it says.
    Refused,
    /// How many sweeps are enough for the one loop, within so many nodes.
    Alone(u32, Option<u32>),
    /// Whether the rails of its signals stand, at each vector, for what settles there.
    Rails,
    /// How large it is by 4,000,000 sweeps of each loop, which is too large.
    Unrolled(u64),
}

fn is_right(
    alloc: Global,
    looped: &LoopedNetlist<'_>,
    care: &Care,
    asked: Asked,
) -> Result<bool, Fail>
    requires valid { IsNetlist looped.now.net }
    requires care { IsCareOf looped.now.net care.now }
{
    match asked {
        Asked::Clauses(question) => {
            is_answered(
                alloc,
                looped.net(),
                looped.blocks(),
                looped.cut(),
                care,
                question,
            )
        }
        Asked::Sweeps(sweeps) => has_sweeps(alloc, looped, sweeps),
        Asked::NeverApart(here, there, never) => told_apart(alloc, looped, here, there, never),
        Asked::Refused => is_shown(alloc, looped, care),
        Asked::Alone(budget, sweeps) => is_settled_alone(alloc, looped, budget, sweeps),
        Asked::Rails => rails_are_right(alloc, looped),
        Asked::Unrolled(size) => is_too_large(alloc, looped, size),
    }
}

fn with_care(alloc: Global, net: &Netlist, care: &Care, asked: Asked) -> Result<bool, Fail>
    requires valid { IsNetlist net.now }
    requires care { IsCareOf net.now care.now }
{
    let loops = NetlistLoops::find(alloc, net)?;
    is_right(alloc, &loops.looped(), care, asked)
}

fn with_net(alloc: Global, net: &Netlist, care: &[u8], asked: Asked) -> Result<bool, Fail>
    requires { IsNetlist net.now }
{
    let care = care_by(alloc, net, care)?;
    with_care(alloc, net, &care, asked)
}

/// Whether the netlist and the care set of these texts have the right answer.
pub fn is_right_of(alloc: Global, text: &[u8], care: &[u8], asked: Asked) -> Result<bool, Fail> {
    let net = net_of(alloc, text)?;
    with_net(alloc, &net, care, asked)
}

//! What is decided.

ghost use Rattle.std.specs.Prelude.{◌≡◌, length};
ghost use Rattle.clause_decision.specs.Scopes.{AreNeverUnknown};
ghost use Rattle.fixpoint.specs.Orders.{order as order_of};
ghost use Rattle.verdict.specs.Questions.{IsAsked, IsGround};

use crate::ground::Ground;
use care_sets::Care;
use diagram_decision::Question as Asked;
use loops::{Blocks, LoopedNetlist};
use netlist::Netlist;
use refusals::Observe;
use std::marker::Model;

/// How many conflicts a search may meet in the first try by clauses, and in the second.
const FEW_CONFLICTS: u64 = 20_000;

const MANY_CONFLICTS: u64 = 2_000_000;

/// A question, with what was found of its netlist, and how long searches by clauses go on for it.
#[derive(Drop)]
pub(crate) struct Question<'a> {
    asked: &'a Asked<'a>,
    ground: &'a Ground,
    conflicts: u64,
}

impl<'a> Model for Question<'a> {
    ghost use Rattle.verdict.specs.Questions.{Asked as AskedWith, IsGrounded, asked_with};

    ghost Value = { AskedWith };

    ghost view = { λ q. asked_with q.asked.now q.ground.now.settled.items };

    ghost invariant = { λ q. IsGrounded (asked_with q.asked.now q.ground.now.settled.items) q.ground.now };
}

impl<'a> Question<'a> {
    ghost use Rattle.diagram_decision.specs.Questions.{looped_in as looped_in_asked};
    ghost use Rattle.verdict.specs.Questions.{asked_with, looped_in, on_diagrams};

    /// The question, for searches that give up soon.
    ///
    /// The condition is that the rest was found of its netlist.
    pub(crate) fn new(asked: &'a Asked<'a>, ground: &'a Ground) -> Question<'a>
        requires { IsGround (looped_in_asked asked.now) ground.now }
        ensures { result ≡ asked_with asked.now ground.now.settled.items }
    {
        asked.laws();
        Question {
            asked,
            ground,
            conflicts: FEW_CONFLICTS,
        }
    }

    /// The same, for searches that give up late.
    pub(crate) fn for_long(&self) -> Question<'a>
        ensures { result ≡ self.now }
    {
        Question {
            asked: self.asked,
            ground: self.ground,
            conflicts: MANY_CONFLICTS,
        }
    }

    /// The question alone, as diagrams answer it.
    pub(crate) fn by_diagrams(&self) -> &'a Asked<'a>
        ensures { result.now ≡ on_diagrams self.now }
    {
        self.asked
    }

    /// What holds of each question.
    pub(crate) fn laws(&self)
        ensures is { IsAsked self.now }
    {
        let _ = &self.asked;
    }

    /// The netlist with its loops.
    pub(crate) fn looped(&self) -> &'a LoopedNetlist<'a>
        ensures looped { result.now ≡ looped_in self.now }
        ensures is { IsAsked self.now }
    {
        self.asked.looped()
    }

    /// The netlist.
    pub(crate) fn net(&self) -> &'a Netlist
        ensures net { result.now ≡ self.now.net }
        ensures is { IsAsked self.now }
    {
        self.asked.net()
    }

    /// Its blocks.
    pub(crate) fn blocks(&self) -> &'a Blocks
        ensures blocks { result.now ≡ self.now.blocks }
        ensures is { IsAsked self.now }
    {
        self.asked.blocks()
    }

    /// The care set.
    pub(crate) fn care(&self) -> &'a Care
        ensures care { result.now ≡ self.now.care }
        ensures is { IsAsked self.now }
    {
        self.asked.care()
    }

    /// What is observed.
    pub(crate) fn observe(&self) -> Observe
        ensures { result ≡ self.now.what }
    {
        self.asked.observe()
    }

    /// The column of each variable of diagrams.
    pub(crate) fn order(&self) -> &'a [u32]
        ensures { result.now ≡ order_of self.now.net }
    {
        self.asked.order()
    }

    /// Marks of the blocks that are settled by themselves, or are no loops.
    pub(crate) fn settled(&self) -> &'a [bool]
        ensures settled { result.now ≡ self.now.settled }
        ensures is { IsAsked self.now }
    {
        &self.ground.settled
    }

    /// Marks of gates that no Boolean vector leaves unknown.
    pub(crate) fn known(&self) -> &'a [bool]
        ensures width { length result.now ≡ length self.now.net.gates }
        ensures known { AreNeverUnknown self.now.net result.now }
    {
        &self.ground.known
    }

    /// After how many conflicts a search by clauses gives up.
    pub(crate) fn conflicts(&self) -> u64 {
        self.conflicts
    }
}

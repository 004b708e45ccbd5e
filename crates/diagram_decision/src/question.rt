//! What is decided by diagrams.

ghost use Rattle.std.specs.Prelude.{◌≡◌};
ghost use Rattle.care_sets.specs.Binding.{IsCareOf};
ghost use Rattle.fixpoint.specs.Orders.{order as order_of};
ghost use Rattle.diagram_decision.specs.Questions.{IsAsked};

use care_sets::Care;
use loops::{Blocks, LoopedNetlist};
use netlist::Netlist;
use refusals::Observe;
use std::marker::Model;

/// Whether a netlist is accepted on a care set, where all of its gates are observed or what is seen from outside.
#[derive(Drop)]
pub struct Question<'a> {
    looped: &'a LoopedNetlist<'a>,
    care: &'a Care,
    observe: Observe,
    /// The column of each variable of diagrams.
    order: &'a [u32],
}

impl<'a> Model for Question<'a> {
    ghost use Rattle.diagram_decision.specs.Questions.{Asked, IsOrdered, asked};

    ghost Value = { Asked };

    ghost view = { λ q. asked q.looped.now q.care.now q.observe };

    ghost invariant = { λ q. IsOrdered (asked q.looped.now q.care.now q.observe) q.order.now };
}

impl<'a> Question<'a> {
    ghost use Rattle.diagram_decision.specs.Questions.{asked, looped_in};

    /// The question of this netlist, where diagrams have the columns as variables in this order.
    ///
    /// The condition is that the care set is the netlist's, and that the order is that of `fixpoint::order`.
    pub fn new(
        looped: &'a LoopedNetlist<'a>,
        care: &'a Care,
        observe: Observe,
        order: &'a [u32],
    ) -> Question<'a>
        requires care { IsCareOf looped.now.net care.now }
        requires order { order.now ≡ order_of looped.now.net }
        ensures { result ≡ asked looped.now care.now observe }
    {
        looped.net().laws();
        Question {
            looped,
            care,
            observe,
            order,
        }
    }

    /// What holds of each question.
    pub fn laws(&self)
        ensures is { IsAsked self.now }
    {
        let _ = &self.looped;
    }

    /// The netlist with its loops.
    pub fn looped(&self) -> &'a LoopedNetlist<'a>
        ensures looped { result.now ≡ looped_in self.now }
        ensures is { IsAsked self.now }
    {
        self.looped
    }

    /// The netlist.
    pub fn net(&self) -> &'a Netlist
        ensures net { result.now ≡ self.now.net }
        ensures is { IsAsked self.now }
    {
        self.looped.net()
    }

    /// Its blocks.
    pub fn blocks(&self) -> &'a Blocks
        ensures blocks { result.now ≡ self.now.blocks }
        ensures is { IsAsked self.now }
    {
        self.looped.blocks()
    }

    /// The care set.
    pub fn care(&self) -> &'a Care
        ensures care { result.now ≡ self.now.care }
        ensures is { IsAsked self.now }
    {
        self.care
    }

    /// What is observed.
    pub fn observe(&self) -> Observe
        ensures { result ≡ self.now.what }
    {
        self.observe
    }

    /// The column of each variable of diagrams.
    pub fn order(&self) -> &'a [u32]
        ensures { result.now ≡ order_of self.now.net }
    {
        self.order
    }
}

//! Two netlists that are accepted, with what joins them.

ghost use Rattle.std.specs.Prelude.{◌≡◌, ◌+◌, ◌≤◌, None, suc, true, length, IfSome};
ghost use Rattle.netlist.specs.Netlists.{count};
ghost use Rattle.care_sets.specs.Binding.{IsCareOf};
ghost use Rattle.equal.specs.Compared.{accepted_netlists};
ghost use Rattle.miters.specs.Differences.{columns_by_name, AreAccepted};
ghost use Rattle.miters.specs.Joined.{joined_pairs};
ghost use Rattle.miters.specs.Matching.{unmatched};

use care_sets::Care;
use netlist::{Netlist, Pair};
use std::marker::Model;

/// Two netlists that are accepted and whose names match, the second on the vectors of the first by name.
#[derive(Drop)]
pub(crate) struct AcceptedNetlists<'a> {
    pub(crate) a: &'a Netlist,
    pub(crate) b: &'a Netlist,
    /// The care set of the first.
    pub(crate) care: &'a Care,
    /// For each column of the second the column of the first that has its name.
    pub(crate) columns: &'a [u32],
    /// The outputs of one name, and what the latches of one name load, as wires of the joined netlist.
    pub(crate) pairs: &'a [Pair],
}

impl<'a> Model for AcceptedNetlists<'a> {
    ghost use Rattle.equal.specs.Compared.{Accepted, AreJoinedBy, accepted_netlists};

    ghost Value = { Accepted };

    ghost view = { λ m. accepted_netlists m.a.now m.b.now m.care.now };

    ghost invariant = { λ m. AreJoinedBy m.columns.now m.pairs.now (accepted_netlists m.a.now m.b.now m.care.now) };
}

/// Whether there are numbers for all signals of the miter of two netlists that has so many pairs.
pub(crate) fn fits(a: &Netlist, b: &Netlist, pairs: usize) -> bool
    ensures { result ≡ true → count a.now + suc (length b.now.gates + pairs) ≤ 4294967294 }
{
    if pairs >= 4_294_967_294 {
        return false;
    }
    let signals = u64::from(a.count()) + u64::from(b.gates());
    signals + (pairs as u64) < 4_294_967_294
}

impl<'a> AcceptedNetlists<'a> {
    /// These two netlists, or `None` where there are too few numbers for their signals.
    pub(crate) fn new(
        a: &'a Netlist,
        b: &'a Netlist,
        care: &'a Care,
        columns: &'a [u32],
        pairs: &'a [Pair],
    ) -> Option<AcceptedNetlists<'a>>
        requires matched { unmatched a.now b.now ≡ None }
        requires care { IsCareOf a.now care.now }
        requires accepted { AreAccepted a.now b.now care.now }
        requires columns { columns.now ≡ columns_by_name a.now b.now }
        requires pairs { pairs.now ≡ joined_pairs a.now b.now }
        ensures { IfSome result (λ accepted. accepted ≡ accepted_netlists a.now b.now care.now) }
    {
        if !fits(a, b, pairs.len()) {
            return None;
        }
        a.laws();
        b.laws();
        Some(AcceptedNetlists {
            a,
            b,
            care,
            columns,
            pairs,
        })
    }
}

//! What is found of two netlists, told as a line.

ghost use Rattle.std.specs.Prelude.{◌≡◌, ◌≤◌, ◌⊎◌, IfOk, IfErr, OnOk};
ghost use Rattle.care_sets.specs.Binding.{IsCareOf};
ghost use Rattle.miters.specs.Rebound.{found as found_of};
ghost use Rattle.miters.specs.Shown.{ShowsItself};
ghost use Rattle.miters.specs.Told.{IsToldOf};
ghost use Rattle.equal.specs.Bounds.{IsLimited};

use crate::comparing::compare_by_name;
use crate::fault::EqualFault;
use bdd_ops::Diagrams;
use care_sets::Care;
use cyc_base::MAX_NODES;
use miters::{Told, tell_answer};
use netlist::Netlist;
use std::alloc::Global;

/// Compares two netlists on a care set of the first, whose models count for the second one too, by name, and tells what is
/// found: the first name that isn't matched, or what refuses one of them, or the least care vector on which they differ and
/// the first output or else the first latch that does, or that they are equal.
///
/// Where they are told equal, each run of the first within care and each run of the second over the same inputs and from
/// equal latches have equal outputs and latches by name at each tick, whatever their windows of older reads, their pasts
/// and their fair schedules are.
///
/// `NodeLimit` carries the limit, and comes only where all names match, the limit is below what is enough, and the diagrams
/// are full as the call ends or a cover is larger than the limit.
pub fn tell_equality(
    alloc: Global,
    d: &mut Diagrams,
    a: &Netlist,
    b: &Netlist,
    care: &Care,
    limit: u32,
) -> Result<Told, EqualFault>
    requires care { IsCareOf a.now care.now }
    requires limit { limit ≤ MAX_NODES }
    ensures told { IfOk result (IsToldOf a.now b.now (found_of a.now b.now care.now)) }
    ensures shown { OnOk result (ShowsItself a.now b.now care.now) }
    ensures fault { IfErr result (λ fault. (fault ≡ EqualFault.Memory) ⊎ (fault ≡ EqualFault.NodeLimit limit)) }
    ensures limited { result ≡ Err (EqualFault.NodeLimit limit) → IsLimited d.new a.now b.now care.now limit }
{
    a.laws();
    b.laws();
    care.laws();
    let answer = compare_by_name(alloc, d, a, b, care, limit)?;
    Ok(tell_answer(alloc, a, b, &answer)?)
}

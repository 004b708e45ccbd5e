//! Covers that are too large for the diagrams.

ghost use Rattle.std.specs.Prelude.{◌≡◌, ◌≤◌, ◌<◌, Err};
ghost use Rattle.fixpoint.specs.Working.{HasLargeCover};
ghost use Rattle.diagram_decision.specs.Causes.{HasCoverOver, HasModelOver};

use bdd_ops::Diagrams;
use bdd_store::StoreFault;
use care_sets::Care;
use cyc_base::MAX_NODES;
use dual_rail::local;
use netlist::Netlist;
use std::alloc::Global;

/// How many nodes there may be.
pub fn limit_of(d: &Diagrams) -> u32
    ensures limit { result ≡ d.now.limit }
    ensures most { result ≤ MAX_NODES }
{
    d.store().limit()
}

/// How many nodes a diagram over fewer than 32 pins has at most: at each pin one for each value of the pins before it,
/// and one for each function of that pin and of those after it.
fn most_nodes(pins: u32) -> u64
    requires { pins < 32 }
{
    let mut most = 0_u64;
    for pin in 0..pins {
        let functions = 1_u32 << (pins - pin).min(5);
        most = most.saturating_add(1 << pin.min(functions));
    }
    most
}

/// Whether the diagram of a cover of so many pins may have more nodes than the limit.
fn may_exceed(pins: usize, limit: u32) -> bool {
    pins >= 32 || most_nodes(pins as u32) > u64::from(limit)
}

/// Full where a cover of a netlist has more nodes than the limit.
fn fit_covers(alloc: Global, net: &Netlist, limit: u32) -> Result<(), StoreFault>
    requires { limit ≤ MAX_NODES }
    ensures full { result ≡ Err StoreFault.Full → HasLargeCover net.now limit }
{
    for gate in 0..net.gates() {
        let cover = &net.gate(gate).cover;
        if may_exceed(cover.pins(), limit) {
            let _ = local(alloc, cover, limit)?;
        }
    }
    Ok(())
}

/// Full where a cover of a care model has more nodes than the limit.
fn fit_models(alloc: Global, care: &Care, limit: u32) -> Result<(), StoreFault>
    requires { limit ≤ MAX_NODES }
    ensures full { result ≡ Err StoreFault.Full → HasModelOver care.now limit }
{
    if let Some(model) = care.invariant() {
        fit_covers(alloc, model, limit)?;
    }
    if let Some(model) = care.assume() {
        fit_covers(alloc, model, limit)?;
    }
    Ok(())
}

/// The most nodes that are spent on looking at the size of one cover.
const MOST_LOOKED_AT: u32 = 1_000_000;

/// Full where a cover of the netlist or of a care model has more nodes than the limit, as it would be in the diagrams. A
/// limit that is too large for a look finds out where diagrams are made.
///
/// The condition is that the limit is at most 50,000,000.
pub fn fit_all(alloc: Global, net: &Netlist, care: &Care, limit: u32) -> Result<(), StoreFault>
    requires { limit ≤ MAX_NODES }
    ensures full { result ≡ Err StoreFault.Full → HasCoverOver net.now care.now limit }
{
    if limit > MOST_LOOKED_AT {
        return Ok(());
    }
    fit_covers(alloc, net, limit)?;
    fit_models(alloc, care, limit)
}

//! Diagrams of covers. Covers lifted to rails are tested with the fixpoints.

use crate::texts::net_of;
use dual_rail::local;
use netlist::Netlist;
use std::alloc::Global;
use std::test::Fail;

/// A cover without rows, a constant as an off-plane, a multiplexer, majority, NOR as an off-plane, and parity.
const COVERS: &[u8] =
    b".model m\n.inputs a b c\n.names a b none\n.names a never\n1 0\n0 0\n.names a b c mux\n11- 1\n0-1 1\n\
    .names a b c majority\n11- 1\n1-1 1\n-11 1\n.names a b c nor\n1-- 0\n-1- 0\n--1 0\n\
    .names a b c parity\n100 1\n010 1\n001 1\n111 1\n";

/// How many pins a cover has, and how many nodes its reduced diagram has.
fn sizes_at(gate: u32) -> (usize, u32) {
    match gate {
        0 => (2, 0),
        1 => (1, 0),
        2 => (3, 3),
        3 => (3, 4),
        4 => (3, 3),
        // It shares its entries with the complement.
        _ => (3, 3),
    }
}

/// Whether the diagram of a gate's cover has its pins and nodes.
fn is_reduced(alloc: Global, net: &Netlist, gate: u32) -> Result<bool, Fail> {
    let (pins, nodes) = sizes_at(gate);
    if gate >= net.gates() {
        return Ok(false);
    }
    let diagram = local(alloc, &net.gate(gate).cover, 100)?;
    Ok(diagram.store().count() == nodes && diagram.pins() == pins)
}

pub const CASES: u32 = 6;

pub fn is_right(alloc: Global, case: u32) -> Result<bool, Fail> {
    let net = net_of(alloc, COVERS)?;
    is_reduced(alloc, &net, case)
}

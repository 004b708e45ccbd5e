//! The gates that are worth copying.

ghost use Rattle.std.specs.Prelude.{◌≡◌, ◌<◌, length, All, IfOk};
ghost use Rattle.loops.specs.Looped.{IsLooped};

use loops::{LoopedNetlist, gates_at, upstream_of};
use netlist::Netlist;
use std::alloc::{AllocError, Global};

/// The gates of loops.
fn looped_gates(alloc: Global, looped: &LoopedNetlist<'_>) -> Result<Vec<u32>, AllocError>
    ensures { IfOk result (λ gates. All (λ n. n < length looped.now.net.gates) gates.items) }
{
    let mut gates = Vec::new(alloc);
    for gate in 0..looped.net().gates() {
        if looped.are_in_one_loop(gate, gate) {
            gates.push(gate)?;
        }
    }
    Ok(gates)
}

/// Whether a gate reads a marked one.
fn reads_marked(net: &Netlist, marks: &[bool], gate: u32) -> bool
    requires gate { gate < length net.now.gates }
    requires width { length marks.now ≡ length net.now.gates }
{
    for pin in net.gate(gate).pins.items() {
        if let Some(source) = net.driver(*pin) {
            if marks[source as usize] {
                return true;
            }
        }
    }
    false
}

/// Marks those of these gates that lie in a loop, or upstream of one and read a marked gate.
fn mark_between(looped: &LoopedNetlist<'_>, upstream: &[bool], gates: &[u32], marks: &mut [bool])
    requires gates { All (λ n. n < length looped.now.net.gates) gates.now }
    requires upstream { length upstream.now ≡ length looped.now.net.gates }
    requires width { length marks.old ≡ length looped.now.net.gates }
{
    for gate in gates {
        if upstream[*gate as usize]
            && (looped.are_in_one_loop(*gate, *gate) || reads_marked(looped.net(), marks, *gate))
        {
            marks[*gate as usize] = true;
        }
    }
}

/// Marks of the gates of loops, and of those downstream of a loop that lie upstream of one.
fn marks_between(
    alloc: Global,
    looped: &LoopedNetlist<'_>,
    upstream: &[bool],
) -> Result<Vec<bool>, AllocError>
    requires { length upstream.now ≡ length looped.now.net.gates }
    ensures { IfOk result (λ marks. length marks.items ≡ length looped.now.net.gates) }
{
    let mut marks = vec![in alloc; false; looped.net().gates() as usize]?;
    for place in 0..looped.blocks().list.items().len() {
        mark_between(looped, upstream, gates_at(looped, place), &mut marks);
    }
    Ok(marks)
}

/// Marks of the gates that are in loops, and of those between loops: a walk along pins leads to each from a loop, and from
/// it to one.
///
/// `split` takes any marks. Where a gate between two loops isn't copied with them, it reads what is selected from one of
/// them, and the path through the netlist is as long as that of all cases together.
pub fn copied_marks(alloc: Global, looped: &LoopedNetlist<'_>) -> Result<Vec<bool>, AllocError>
    ensures { IfOk result (λ marks. length marks.items ≡ length looped.now.net.gates) }
{
    let gates = looped_gates(alloc, looped)?;
    let upstream = upstream_of(alloc, looped, &gates)?;
    marks_between(alloc, looped, &upstream)
}

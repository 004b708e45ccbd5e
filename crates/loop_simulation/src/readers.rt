//! The gates of a loop that read each of its gates.

ghost use Rattle.std.specs.Prelude.{◌≡◌, ◌<◌, length, IfOk, OnOk};
ghost use Rattle.netlist.specs.Netlists.{gate_at};
ghost use Rattle.loop_simulation.specs.LoopsAt.{gates_in};
ghost use Rattle.loop_simulation.specs.Readers.{HasGainedReader, AreReaders};

use crate::looped_block::LoopedBlock;
use loops::{GateList, empty_lists};
use std::alloc::{AllocError, Global};

/// Enters a gate as a reader of those of the loop that it reads.
fn add_reader(
    block: &LoopedBlock<'_>,
    gate: u32,
    readers: &mut [GateList],
) -> Result<(), AllocError>
    requires gate { gate < length block.now.net.gates }
    requires size { length readers.old ≡ length block.now.net.gates }
    ensures { OnOk result (HasGainedReader block.now gate (gate_at block.now.net gate).pins readers.old readers.new) }
{
    for pin in block.net().gate(gate).pins.items() {
        if let Some(source) = block.source(*pin) {
            readers[source as usize].push(gate)?;
        }
    }
    Ok(())
}

/// For each gate of the netlist the gates of the loop that read it: none, where it isn't in the loop itself.
pub(crate) fn readers_in(
    alloc: Global,
    block: &LoopedBlock<'_>,
) -> Result<Vec<GateList>, AllocError>
    ensures { IfOk result (λ readers. AreReaders block.now (gates_in block.now) readers.items) }
{
    let mut readers = empty_lists(alloc, block.net().gates())?;
    for gate in block.gates() {
        add_reader(block, *gate, &mut readers)?;
    }
    Ok(readers)
}

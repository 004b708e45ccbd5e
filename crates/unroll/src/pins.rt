//! What pins read in the unrolled netlist.

ghost use Rattle.std.specs.Prelude.{◌≡◌, ◌<◌, ◌≤◌, ◌+◌, if◌then◌else◌, length, map, IfOk};
ghost use Rattle.netlist.specs.Netlists.{gate_at, IsSignal};
ghost use Rattle.unroll.specs.Plans.{loops_in, net_of};
ghost use Rattle.unroll.specs.Unrolled.{moved as moved_by};
ghost use Rattle.unroll.specs.Tables.{at_table, copy_pin_by as pin_by_tables};

use crate::plan::Plan;
use cyc_base::Sig;
use loops::source_in_loop;
use netlist::Netlist;
use std::alloc::{AllocError, Global};

/// The signals of copies, one for each gate. The gates themselves stand behind the last copies.
#[derive(Drop)]
pub(crate) struct Tables {
    /// Of the copies before those that are made, and of the last copies of gates that have no more.
    pub(crate) earlier: Vec<u32>,
    /// Of the copies that are made, where a gate has one, or at the end of the gates themselves.
    pub(crate) current: Vec<u32>,
}

/// A signal of the netlist, where gates are moved up by so many.
pub(crate) fn moved(net: &Netlist, by: u32, signal: Sig) -> Sig
    requires { signal.0 + by ≤ 4294967295 }
    ensures { result ≡ moved_by net.now by signal }
{
    if signal.0 < net.columns() {
        signal
    } else {
        Sig(signal.0 + by)
    }
}

/// What is read of a gate of the same loop: the copy before where it is a cut wire, else the one beside it.
fn table_read(tables: &Tables, source: u32, cut: bool) -> Sig
    requires earlier { source < length tables.now.earlier.items }
    requires current { source < length tables.now.current.items }
    ensures { result ≡ (if cut then at_table tables.now.earlier.items source else at_table tables.now.current.items source) }
{
    if cut {
        Sig(tables.earlier[source as usize])
    } else {
        Sig(tables.current[source as usize])
    }
}

/// What a pin of a gate's copy, or of the gate itself, reads.
fn pin_by(plan: &Plan<'_>, tables: &Tables, gate: u32, pin: Sig) -> Sig
    requires earlier { length tables.now.earlier.items ≡ length (net_of plan.now).gates }
    requires current { length tables.now.current.items ≡ length (net_of plan.now).gates }
    requires gate { gate < length (net_of plan.now).gates }
    requires pin { IsSignal (net_of plan.now) pin }
    ensures { result ≡ pin_by_tables (net_of plan.now) (loops_in plan.now) plan.now.by tables.now.earlier.items tables.now.current.items gate pin }
{
    let looped = plan.counted.looped();
    match source_in_loop(looped, gate, pin) {
        Some(source) => table_read(tables, source, looped.is_cut(source)),
        None => moved(looped.net(), plan.by, pin),
    }
}

/// What the pins of a gate's copy, or of the gate itself, read.
pub(crate) fn pins_by(
    alloc: Global,
    plan: &Plan<'_>,
    tables: &Tables,
    gate: u32,
) -> Result<Vec<Sig>, AllocError>
    requires earlier { length tables.now.earlier.items ≡ length (net_of plan.now).gates }
    requires current { length tables.now.current.items ≡ length (net_of plan.now).gates }
    requires gate { gate < length (net_of plan.now).gates }
    ensures { IfOk result (λ pins. pins.items ≡ map (pin_by_tables (net_of plan.now) (loops_in plan.now) plan.now.by tables.now.earlier.items tables.now.current.items gate) (gate_at (net_of plan.now) gate).pins) }
{
    let net = plan.counted.net();
    net.gate(gate)
        .pins
        .items()
        .iter()
        .map(|pin| pin_by(plan, tables, gate, *pin))
        .collect(alloc)
}

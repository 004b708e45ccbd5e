// Lines of events.
ghost use Rattle.std.specs.Prelude.{◌≡◌, ◌≤◌, length, drop, map, Some, None, if◌then◌else◌};
ghost use Rattle.std.specs.List.{list_all};
ghost use Rattle.sched_text.specs.declared.kind.ScheduleKind.TheVariants as kinds;
ghost use Rattle.sched_text.specs.Answers.{Reads};
ghost use Rattle.sched_text.specs.Numbers.{number_of};
ghost use Rattle.sched_text.specs.LineFaults.{arguments, is_age, gate_number, gate_fault, fault_of_words};
ghost use Rattle.sched_text.specs.Statements.{gate_of, statement_of};

use crate::fault::SchedFault;
use crate::number::number;
use crate::pieces::PieceLine;
use crate::statement::ScheduleStatement;
use cyc_base::{Items, Name};
use delay_core::{Event, PlannedEvent};
use netlist::Netlist;
use std::alloc::Global;

// The ages of a line, which stand behind the name.
fn read_ages(alloc: Global, line: &PieceLine<'_>) -> Result<Items<u32>, SchedFault>
    requires { 2 ≤ length line.now.words }
    ensures { Reads result (if list_all is_age (drop 2 line.now.words) then None else Some (SchedFault.BadLine line.now.number)) (map number_of (drop 2 line.now.words)) }
{
    let words = line.words();
    let mut ages = Vec::with_capacity(alloc, words - 2)?;
    for k in 2..words {
        match number(line.word(k)) {
            Some(age) => ages.push_reserved(age),
            None => {
                return Err(line.bad_line());
            }
        }
    }
    Ok(Items::of(ages))
}

// The gate of this name, by its place among the gates.
#[tactic(auto, using(crate::proofs::GateLemmas::gate_found, crate::proofs::GateLemmas::gate_before, crate::proofs::GateLemmas::gate_absent))]
fn find_gate(net: &Netlist, name: &Name) -> Option<u32>
    ensures { result ≡ gate_number net.now name.now }
{
    let signal = net.find(name)?;
    let first = net.columns();
    if signal.0 < first {
        None
    } else {
        Some(signal.0 - first)
    }
}

// The gate that a line names.
fn read_gate(alloc: Global, net: &Netlist, line: &PieceLine<'_>) -> Result<u32, SchedFault>
    requires { 2 ≤ length line.now.words }
    ensures { Reads result (gate_fault net.now line.now.number (arguments line.now.words)) (gate_of net.now (arguments line.now.words)) }
{
    let name = Name::copied_from(alloc, line.word(1))?;
    match find_gate(net, &name) {
        Some(gate) => Ok(gate),
        None => Err(SchedFault::UnknownGate {
            line: line.number(),
            name,
        }),
    }
}

pub fn read_event(
    alloc: Global,
    net: &Netlist,
    line: &PieceLine<'_>,
) -> Result<ScheduleStatement, SchedFault>
    ensures { Reads result (fault_of_words net.now 0 kinds.Event line.now.number 0 (arguments line.now.words)) (statement_of net.now kinds.Event line.now.number (arguments line.now.words)) }
{
    if line.words() < 2 {
        return Err(line.bad_line());
    }
    let ages = read_ages(alloc, line)?;
    let gate = read_gate(alloc, net, line)?;
    Ok(ScheduleStatement::Event(PlannedEvent {
        line: line.number(),
        event: Event { gate, ages },
    }))
}

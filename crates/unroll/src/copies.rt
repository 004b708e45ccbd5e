//! The copies of loops, number by number.

ghost use Rattle.std.specs.Prelude.{◌≡◌, ◌<◌, ◌≤◌, ◌+◌, ◌++◌, ℕ, suc, nat_lt, length, map, filter, replicate, All, IfOk, OnOk};
ghost use Rattle.std.specs.List.{range_with_len};
ghost use Rattle.loops.specs.Sweeps.{first_gate};
ghost use Rattle.unroll.specs.Plans.{loops_in, net_of, sweeps_in};
ghost use Rattle.unroll.specs.Unrolled.{copies_of, copies, constants, copy_gate as copy_gate_of};
ghost use Rattle.unroll.specs.Tables.{copy_gate_by, entered, AreLast, AreLastCopies};

use crate::gates::copy_gate;
use crate::pins::Tables;
use crate::plan::Plan;
use netlist::{Gate, Netlist};
use std::alloc::{AllocError, Global};

/// So many numbers, one after another.
fn numbers_from(alloc: Global, first: u32, count: u32) -> Result<Vec<u32>, AllocError>
    requires { first + count ≤ 4294967295 }
    ensures { IfOk result (λ numbers. numbers.items ≡ range_with_len first count) }
{
    let numbers: Vec<u32> = (first..first + count).collect(alloc)?;
    Ok(numbers)
}

/// Those of these gates that have more copies than this.
fn with_more_copies(
    alloc: Global,
    plan: &Plan<'_>,
    gates: &[u32],
    number: u32,
) -> Result<Vec<u32>, AllocError>
    requires { All (λ n. n < length (net_of plan.now).gates) gates.now }
    ensures { IfOk result (λ more. more.items ≡ filter (λ n. nat_lt number (copies_of (loops_in plan.now).same (sweeps_in plan.now) n)) gates.now) }
{
    gates
        .iter()
        .copied()
        .filter(|gate| plan.copies_of(*gate) > number)
        .collect(alloc)
}

/// Enters copies of these gates, whose signals stand one after another from `first` on.
#[tactic(auto, using(crate::proofs::TableLemmas::entered_more, crate::proofs::TableLemmas::length_entered))]
fn enter(table: &mut [u32], gates: &[u32], first: u32)
    requires gates { All (λ n. n < length table.old) gates.now }
    requires fits { first + length gates.now ≤ 4294967295 }
    ensures entered { table.new ≡ entered table.old gates.now first }
    ensures width { length table.new ≡ length table.old }
{
    let mut signal = first;
    for gate in gates {
        table[*gate as usize] = signal;
        signal += 1;
    }
}

/// Adds a copy of each of these gates.
fn add_gates(
    alloc: Global,
    plan: &Plan<'_>,
    tables: &Tables,
    number: u32,
    active: &[u32],
    gates: &mut Vec<Gate>,
) -> Result<(), AllocError>
    requires earlier { length tables.now.earlier.items ≡ length (net_of plan.now).gates }
    requires current { length tables.now.current.items ≡ length (net_of plan.now).gates }
    requires active { All (λ n. n < length (net_of plan.now).gates) active.now }
    ensures { OnOk result (gates.new.items ≡ gates.old.items ++ map (copy_gate_by (net_of plan.now) (loops_in plan.now) plan.now.mark plan.now.by tables.now.earlier.items tables.now.current.items number) active.now) }
{
    for gate in active {
        gates.push(copy_gate(alloc, plan, tables, number, *gate)?)?;
    }
    Ok(())
}

/// Adds the copies of this number, which are of these gates, and enters them.
fn add_round(
    alloc: Global,
    plan: &Plan<'_>,
    tables: &mut Tables,
    number: u32,
    active: &[u32],
    gates: &mut Vec<Gate>,
) -> Result<(), AllocError>
    requires earlier { length tables.old.earlier.items ≡ length (net_of plan.now).gates }
    requires current { length tables.old.current.items ≡ length (net_of plan.now).gates }
    requires active { All (λ n. n < length (net_of plan.now).gates) active.now }
    requires fits { first_gate (net_of plan.now) + length gates.old.items + length active.now ≤ 4294967295 }
    ensures earlier { OnOk result (tables.new.earlier.items ≡ entered tables.old.earlier.items active.now (first_gate (net_of plan.now) + length gates.old.items)) }
    ensures current { OnOk result (tables.new.current.items ≡ entered tables.old.current.items active.now (first_gate (net_of plan.now) + length gates.old.items)) }
    ensures gates { OnOk result (gates.new.items ≡ gates.old.items ++ map (copy_gate_by (net_of plan.now) (loops_in plan.now) plan.now.mark plan.now.by tables.old.earlier.items (entered tables.old.current.items active.now (first_gate (net_of plan.now) + length gates.old.items)) number) active.now) }
    ensures widths { OnOk result ((length tables.new.earlier.items ≡ length (net_of plan.now).gates) × (length tables.new.current.items ≡ length (net_of plan.now).gates)) }
{
    let first = plan.counted.net().columns() + gates.len() as u32;
    enter(&mut tables.current, active, first);
    add_gates(alloc, plan, tables, number, active, gates)?;
    enter(&mut tables.earlier, active, first);
    Ok(())
}

/// The gates that have a copy.
fn copied_gates(alloc: Global, plan: &Plan<'_>) -> Result<Vec<u32>, AllocError>
    ensures { IfOk result (λ gates. gates.items ≡ filter (λ n. nat_lt 0 (copies_of (loops_in plan.now).same (sweeps_in plan.now) n)) (range_with_len 0 (length (net_of plan.now).gates))) }
{
    let all = numbers_from(alloc, 0, plan.counted.net().gates())?;
    with_more_copies(alloc, plan, &all, 0)
}

/// Tables in which each gate has the signal of the constant.
fn first_tables(alloc: Global, net: &Netlist) -> Result<Tables, AllocError>
    ensures earlier { IfOk result (λ tables. tables.earlier.items ≡ replicate (length net.now.gates) (first_gate net.now)) }
    ensures current { IfOk result (λ tables. tables.current.items ≡ replicate (length net.now.gates) (first_gate net.now)) }
{
    let constant = net.columns();
    let width = net.gates() as usize;
    Ok(Tables {
        earlier: vec![in alloc; constant; width]?,
        current: vec![in alloc; constant; width]?,
    })
}

/// Adds all copies and enters them. It is linear in what it makes: each number goes over the gates that have a
/// copy of the number before.
fn add_rounds(
    alloc: Global,
    plan: &Plan<'_>,
    tables: &mut Tables,
    gates: &mut Vec<Gate>,
) -> Result<(), AllocError>
    requires gates { gates.old.items ≡ constants (net_of plan.now) (loops_in plan.now) }
    requires earlier { tables.old.earlier.items ≡ replicate (length (net_of plan.now).gates) (first_gate (net_of plan.now)) }
    requires current { tables.old.current.items ≡ replicate (length (net_of plan.now).gates) (first_gate (net_of plan.now)) }
    ensures gates { OnOk result (gates.new.items ≡ constants (net_of plan.now) (loops_in plan.now)
        ++ map (copy_gate_of (net_of plan.now) (loops_in plan.now) (sweeps_in plan.now)) (copies (net_of plan.now) (loops_in plan.now) (sweeps_in plan.now))) }
    ensures last { OnOk result (AreLastCopies (net_of plan.now) (loops_in plan.now) (sweeps_in plan.now) tables.new.earlier.items) }
{
    let mut active = copied_gates(alloc, plan)?;
    for number in 0..plan.most_copies() {
        add_round(alloc, plan, tables, number + 1, &active, gates)?;
        active = with_more_copies(alloc, plan, &active, number + 1)?;
    }
    Ok(())
}

/// Adds all copies behind the constant, and answers what the gates themselves read: for each gate the signal of its last
/// copy, or that of the constant where it has none, and its own.
pub(crate) fn add_copies(
    alloc: Global,
    plan: &Plan<'_>,
    gates: &mut Vec<Gate>,
) -> Result<Tables, AllocError>
    requires { gates.old.items ≡ constants (net_of plan.now) (loops_in plan.now) }
    ensures gates { OnOk result (gates.new.items ≡ constants (net_of plan.now) (loops_in plan.now)
        ++ map (copy_gate_of (net_of plan.now) (loops_in plan.now) (sweeps_in plan.now)) (copies (net_of plan.now) (loops_in plan.now) (sweeps_in plan.now))) }
    ensures last { IfOk result (λ tables. AreLast (net_of plan.now) (loops_in plan.now) (sweeps_in plan.now) tables.earlier.items tables.current.items) }
{
    let net = plan.counted.net();
    let mut tables = first_tables(alloc, net)?;
    add_rounds(alloc, plan, &mut tables, gates)?;
    tables.current = numbers_from(alloc, net.columns() + plan.by, net.gates())?;
    Ok(tables)
}

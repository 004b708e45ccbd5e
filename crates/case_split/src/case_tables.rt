//! What stands for signals in each case.

ghost use Rattle.std.specs.Prelude.{◌≡◌, ◌+◌, ◌*◌, ◌<◌, ◌≤◌, length, map, All, IfOk, OnOk};
ghost use Rattle.std.specs.Vec.{vec_items};
ghost use Rattle.netlist.specs.Netlists.{count};
ghost use Rattle.loops.specs.Sweeps.{first_gate};
ghost use Rattle.ternary_run.specs.Reading.{IsFanoutOf};
ghost use Rattle.case_split.specs.Added.{AreNew};
ghost use Rattle.case_split.specs.Cases.{IsUsable};
ghost use Rattle.case_split.specs.CaseTables.{IsTableStep, IsEntry, AreTables};
ghost use Rattle.case_split.specs.Operands.{IsWithin};
ghost use Rattle.case_split.specs.Sizes.{copied_gates};
ghost use Rattle.case_split.specs.Tables.{AreCopySteps};

use crate::added::{Added, Base};
use crate::cases::{Case, known_vector};
use crate::cubes::is_cube;
use crate::operands::Operand;
use crate::ordering::in_order;
use crate::tables::{copy_gates, settled_table};
use cyc_base::Trit;
use std::alloc::{AllocError, Global};
use ternary_run::Fanout;

/// Copies these gates, each after those that it reads.
fn copy_in_order(
    alloc: Global,
    base: &Base<'_>,
    added: &mut Added,
    table: &mut Vec<Operand>,
    gates: &[u32],
) -> Result<(), AllocError>
    requires gates { All (λ n. n < length base.now.net.now.gates) gates.now }
    requires room { count base.now.net.now + length added.old.gates.items + length gates.now ≤ 4294967295 }
    requires new { AreNew base.now.net.now added.old.gates.items }
    requires width { length table.old.items ≡ count base.now.net.now }
    requires within { All (IsWithin (count base.now.net.now + length added.old.gates.items)) table.old.items }
    ensures { OnOk result (AreCopySteps base.now.net.now gates.now added.old.gates.items added.new.gates.items table.old.items table.new.items) }
{
    let order = in_order(alloc, base.net, table, gates)?;
    copy_gates(alloc, base, added, table, &order)
}

/// What stands for signals at a vector, with copies of these gates.
fn table_at(
    alloc: Global,
    base: &Base<'_>,
    added: &mut Added,
    fanout: &Fanout,
    gates: &[u32],
    given: &[Trit],
) -> Result<Vec<Operand>, AllocError>
    requires gates { gates.now ≡ copied_gates base.now.net.now base.now.copied.now }
    requires room { count base.now.net.now + length added.old.gates.items + length gates.now ≤ 4294967295 }
    requires new { AreNew base.now.net.now added.old.gates.items }
    requires fanout { IsFanoutOf base.now.net.now fanout.now }
    requires width { length given.now ≡ first_gate base.now.net.now }
    ensures { IfOk result (λ table. IsTableStep base.now.net.now base.now.copied.now given.now added.old.gates.items added.new.gates.items table.items) }
{
    let mut table = settled_table(alloc, base.net, fanout, given)?;
    copy_in_order(alloc, base, added, &mut table, gates)?;
    Ok(table)
}

/// What stands for signals in a case. Where its cube asks both values of a column, no vector has it, and all is 0.
fn table_of(
    alloc: Global,
    base: &Base<'_>,
    added: &mut Added,
    fanout: &Fanout,
    gates: &[u32],
    case: &Case,
) -> Result<Vec<Operand>, AllocError>
    requires case { IsUsable (first_gate base.now.net.now) case.now }
    requires gates { gates.now ≡ copied_gates base.now.net.now base.now.copied.now }
    requires room { count base.now.net.now + length added.old.gates.items + length gates.now ≤ 4294967295 }
    requires new { AreNew base.now.net.now added.old.gates.items }
    requires fanout { IsFanoutOf base.now.net.now fanout.now }
    ensures { IfOk result (λ table. IsEntry base.now.net.now base.now.copied.now case.now added.old.gates.items added.new.gates.items table.items) }
{
    if !is_cube(&case.cube) {
        return vec![in alloc; Operand::Constant(false); base.net.count() as usize];
    }
    let given = known_vector(alloc, base.net, case)?;
    table_at(alloc, base, added, fanout, gates, &given)
}

/// What stands for signals in each case, by the netlist's fanout.
fn tables_by(
    alloc: Global,
    base: &Base<'_>,
    added: &mut Added,
    fanout: &Fanout,
    gates: &[u32],
    cases: &[Case],
) -> Result<Vec<Vec<Operand>>, AllocError>
    requires cases { All (IsUsable (first_gate base.now.net.now)) cases.now }
    requires gates { gates.now ≡ copied_gates base.now.net.now base.now.copied.now }
    requires room { count base.now.net.now + length added.old.gates.items + length cases.now * length gates.now ≤ 4294967295 }
    requires new { AreNew base.now.net.now added.old.gates.items }
    requires fanout { IsFanoutOf base.now.net.now fanout.now }
    ensures { IfOk result (λ tables. AreTables base.now.net.now base.now.copied.now cases.now (length cases.now) added.old.gates.items added.new.gates.items (map vec_items tables.items)) }
{
    let mut tables = Vec::new(alloc);
    for case in cases {
        tables.push(table_of(alloc, base, added, fanout, gates, case)?)?;
    }
    Ok(tables)
}

/// What stands for signals in each case.
pub(crate) fn tables_of(
    alloc: Global,
    base: &Base<'_>,
    added: &mut Added,
    gates: &[u32],
    cases: &[Case],
) -> Result<Vec<Vec<Operand>>, AllocError>
    requires cases { All (IsUsable (first_gate base.now.net.now)) cases.now }
    requires gates { gates.now ≡ copied_gates base.now.net.now base.now.copied.now }
    requires room { count base.now.net.now + length added.old.gates.items + length cases.now * length gates.now ≤ 4294967295 }
    requires new { AreNew base.now.net.now added.old.gates.items }
    ensures { IfOk result (λ tables. AreTables base.now.net.now base.now.copied.now cases.now (length cases.now) added.old.gates.items added.new.gates.items (map vec_items tables.items)) }
{
    let fanout = Fanout::of(alloc, base.net)?;
    tables_by(alloc, base, added, &fanout, gates, cases)
}

//! The gates at the places of the netlist's own: a gate of a loop shows what is chosen among the cases.

ghost use Rattle.std.specs.Prelude.{◌≡◌, ◌+◌, ◌*◌, ◌<◌, ◌≤◌, true, [], ◌∷◌, length, map, All, IfOk, None, slice_index_or};
ghost use Rattle.std.specs.Vec.{vec_items};
ghost use Rattle.cover_logic.specs.Covers.{cover_of};
ghost use Rattle.netlist.specs.Netlists.{count};
ghost use Rattle.loops.specs.Sweeps.{first_gate};
ghost use Rattle.case_split.specs.Operands.{IsWithin};
ghost use Rattle.case_split.specs.Added.{AreNew};
ghost use Rattle.case_split.specs.Cases.{IsUsable};
ghost use Rattle.case_split.specs.Heads.{leaves_of as leaves_in, constant_gate, same_gate, AreStandingIn, row, IsRootStep, AreRoots, IsShown, IsHead, AreHeads};

use crate::added::{Added, Base};
use crate::cases::Case;
use crate::choosing::choose;
use crate::cofactors::cover_by;
use crate::operands::Operand;
use crate::tables::operand_of;
use cover_logic::{Cover, Lit, Row};
use cyc_base::{Items, Name, Sig};
use netlist::{Gate, copy_gate};
use std::alloc::{AllocError, Global};

/// What stands for a signal in each case.
fn leaves_of(
    alloc: Global,
    tables: &[Vec<Operand>],
    signal: Sig,
) -> Result<Vec<Operand>, AllocError>
    requires { All (λ table. signal.0 < length table) (map vec_items tables.now) }
    ensures { IfOk result (λ leaves. leaves.items ≡ leaves_in (map vec_items tables.now) signal) }
{
    let mut leaves = Vec::with_capacity(alloc, tables.len())?;
    for table in tables {
        leaves.push(operand_of(table, signal))?;
    }
    Ok(leaves)
}

/// What is chosen for a gate.
fn root_of(
    alloc: Global,
    base: &Base<'_>,
    added: &mut Added,
    cases: &[Case],
    tables: &[Vec<Operand>],
    gate: u32,
) -> Result<Operand, AllocError>
    requires gate { gate < length base.now.net.now.gates }
    requires room { count base.now.net.now + length added.old.gates.items + length cases.now ≤ 4294967295 }
    requires new { AreNew base.now.net.now added.old.gates.items }
    requires cases { All (IsUsable (first_gate base.now.net.now)) cases.now }
    requires tables { AreStandingIn base.now.net.now cases.now (map vec_items tables.now) }
    requires within { All (All (IsWithin (count base.now.net.now + length added.old.gates.items))) (map vec_items tables.now) }
    ensures { IfOk result (IsRootStep base.now.net.now cases.now (map vec_items tables.now) gate added.old.gates.items added.new.gates.items) }
{
    let signal = base.net.gate_sig(gate);
    let leaves = leaves_of(alloc, tables, signal)?;
    let name = &base.net.gate(gate).name;
    let root = choose(alloc, base, added, name, cases, &leaves)?;
    Ok(root)
}

/// What is chosen for each of these gates, by the numbers of all gates.
pub(crate) fn roots_of(
    alloc: Global,
    base: &Base<'_>,
    added: &mut Added,
    gates: &[u32],
    cases: &[Case],
    tables: &[Vec<Operand>],
) -> Result<Vec<Option<Operand>>, AllocError>
    requires gates { All (λ n. n < length base.now.net.now.gates) gates.now }
    requires room { count base.now.net.now + length added.old.gates.items + length gates.now * length cases.now ≤ 4294967295 }
    requires new { AreNew base.now.net.now added.old.gates.items }
    requires cases { All (IsUsable (first_gate base.now.net.now)) cases.now }
    requires tables { AreStandingIn base.now.net.now cases.now (map vec_items tables.now) }
    requires within { All (All (IsWithin (count base.now.net.now + length added.old.gates.items))) (map vec_items tables.now) }
    ensures { IfOk result (λ roots. AreRoots base.now.net.now cases.now (map vec_items tables.now) gates.now added.old.gates.items added.new.gates.items roots.items) }
{
    let mut roots = vec![in alloc; None; base.net.gates() as usize]?;
    for gate in gates {
        let root = root_of(alloc, base, added, cases, tables, *gate)?;
        roots[*gate as usize] = Some(root);
    }
    Ok(roots)
}

fn never_cover(alloc: Global) -> Cover
    ensures { result ≡ cover_of 0 true [] }
{
    cover_by(0, true, Vec::new(alloc))
}

fn always_cover(alloc: Global) -> Result<Cover, AllocError>
    ensures { IfOk result (λ cover. cover ≡ cover_of 0 true (row [] ∷ [])) }
{
    let all = Row {
        lits: Items::of(Vec::new(alloc)),
    };
    Ok(cover_by(0, true, vec![in alloc; all]?))
}

fn same_cover(alloc: Global) -> Result<Cover, AllocError>
    ensures { IfOk result (λ cover. cover ≡ cover_of 1 true (row (Lit.One ∷ []) ∷ [])) }
{
    let one = Row {
        lits: Items::of(vec![in alloc; Lit::One]?),
    };
    Ok(cover_by(1, true, vec![in alloc; one]?))
}

/// A gate without pins.
fn constant(alloc: Global, name: Name, value: bool) -> Result<Gate, AllocError>
    ensures { IfOk result (λ gate. gate ≡ constant_gate name value) }
{
    let cover = if value {
        always_cover(alloc)?
    } else {
        never_cover(alloc)
    };
    Ok(Gate {
        name,
        pins: Items::of(Vec::new(alloc)),
        cover,
    })
}

/// A gate that is the same as a wire.
fn same(alloc: Global, name: Name, wire: Sig) -> Result<Gate, AllocError>
    ensures { IfOk result (λ gate. gate ≡ same_gate name wire) }
{
    let pins = Items::of(vec![in alloc; wire]?);
    let cover = same_cover(alloc)?;
    Ok(Gate { name, pins, cover })
}

/// A gate that shows what is chosen. Where nothing is, it is 0.
fn shown(alloc: Global, name: Name, root: Option<Operand>) -> Result<Gate, AllocError>
    ensures { IfOk result (IsShown name root) }
{
    match root {
        Some(Operand::Wire(wire)) => same(alloc, name, wire),
        Some(Operand::Constant(value)) => constant(alloc, name, value),
        None => constant(alloc, name, false),
    }
}

fn head_of(
    alloc: Global,
    base: &Base<'_>,
    roots: &[Option<Operand>],
    gate: u32,
) -> Result<Gate, AllocError>
    requires gate { gate < length base.now.net.now.gates }
    requires roots { length roots.now ≡ length base.now.net.now.gates }
    ensures { IfOk result (IsHead base.now.net.now base.now.copied.now (slice_index_or roots.now gate None) gate) }
{
    let own = base.net.gate(gate);
    if base.copied[gate as usize] {
        shown(alloc, own.name.copy()?, roots[gate as usize])
    } else {
        copy_gate(alloc, own)
    }
}

/// The heads of all gates.
pub(crate) fn heads_of(
    alloc: Global,
    base: &Base<'_>,
    roots: &[Option<Operand>],
) -> Result<Vec<Gate>, AllocError>
    requires { length roots.now ≡ length base.now.net.now.gates }
    ensures { IfOk result (λ heads. AreHeads base.now.net.now base.now.copied.now roots.now (length base.now.net.now.gates) heads.items) }
{
    let mut heads = Vec::new(alloc);
    for gate in 0..base.net.gates() {
        heads.push(head_of(alloc, base, roots, gate)?)?;
    }
    Ok(heads)
}

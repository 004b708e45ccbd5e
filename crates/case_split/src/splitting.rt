//! The netlist split by cases.

ghost use Rattle.std.specs.Prelude.{◌≡◌, ◌+◌, ◌*◌, ◌<◌, ◌≤◌, List, [], length, All, IfOk, IfErr, OnOk};
ghost use Rattle.cyc_base.specs.declared.trit.Trit.{Trit};
ghost use Rattle.netlist.specs.Netlists.{count, with_gates, IsNetlist};
ghost use Rattle.loops.specs.Sweeps.{first_gate};
ghost use Rattle.unroll.specs.Laws.{KeepsInterface, TellsAsMuchAt};
ghost use Rattle.case_split.specs.Cases.{IsInOneCase, IsUsable};
ghost use Rattle.case_split.specs.Sizes.{copied_gates, most_items, IsSplitFault};
ghost use Rattle.case_split.specs.Made.{AreSplitParts, IsSplit, IsSplitNetlist};

use crate::added::{Added, Base};
use crate::case_tables::tables_of;
use crate::cases::Case;
use crate::fault::SplitFault;
use crate::heads::{heads_of, roots_of};
use cyc_base::MAX_REWRITTEN_ITEMS;
use netlist::{Gate, Netlist, netlist_of, parts_with};
use std::alloc::{AllocError, Global};
use unroll::mark;

/// The gates that are marked.
///
/// The condition is that there is a mark for each gate.
pub fn marked_gates(alloc: Global, net: &Netlist, copied: &[bool]) -> Result<Vec<u32>, AllocError>
    requires { length copied.now ≡ length net.now.gates }
    ensures { IfOk result (λ gates. gates.items ≡ copied_gates net.now copied.now) }
{
    (0..net.gates())
        .filter(|gate| copied[*gate as usize])
        .collect(alloc)
}

/// How many gates are copied.
#[tactic(auto, using(crate::proofs::SplitLemmas::count_next))]
fn copied_count(net: &Netlist, copied: &[bool]) -> u32
    requires { length copied.now ≡ length net.now.gates }
    ensures count { result ≡ length (copied_gates net.now copied.now) }
    ensures valid { IsNetlist net.now }
{
    let mut count = 0;
    for gate in 0..net.gates() {
        if copied[gate as usize] {
            count += 1;
        }
    }
    count
}

/// How many gates and latches there may be in so many cases, where so many gates are copied.
fn size_of(net: &Netlist, count: u32, cases: usize) -> u64
    requires cases { cases ≤ 4096 }
    ensures size { result ≡ length net.now.gates + length net.now.latches + 2 * (cases * count) }
    ensures valid { IsNetlist net.now }
{
    let own = u64::from(net.gates()) + u64::from(net.latches());
    own + 2 * (cases as u64 * u64::from(count))
}

/// Refuses what may become too large.
fn check_size(net: &Netlist, copied: &[bool], cases: usize) -> Result<(), SplitFault>
    requires copied { length copied.now ≡ length net.now.gates }
    requires cases { cases ≤ 4096 }
    ensures fault { IfErr result (IsSplitFault (most_items net.now copied.now cases)) }
    ensures small { OnOk result (most_items net.now copied.now cases ≤ MAX_REWRITTEN_ITEMS) }
    ensures valid { IsNetlist net.now }
{
    let size = size_of(net, copied_count(net, copied), cases);
    if size > u64::from(MAX_REWRITTEN_ITEMS) {
        return Err(SplitFault::TooLarge { size });
    }
    Ok(())
}

/// The heads of all gates, and the copies behind them, where these are the gates that are copied.
fn split_marked(
    alloc: Global,
    base: &Base<'_>,
    gates: &[u32],
    cases: &[Case],
) -> Result<Vec<Gate>, AllocError>
    requires gates { gates.now ≡ copied_gates base.now.net.now base.now.copied.now }
    requires cases { All (IsUsable (first_gate base.now.net.now)) cases.now }
    requires fits { count base.now.net.now + 2 * (length cases.now * length gates.now) ≤ 4294967295 }
    ensures { IfOk result (λ all. IsSplit base.now.net.now base.now.copied.now cases.now all.items) }
{
    let mut added = Added::new(alloc);
    let mut all = split_heads(alloc, base, &mut added, gates, cases)?;
    all.append(&mut added.gates)?;
    Ok(all)
}

/// The heads of all gates, and the copies behind them.
fn split_gates(alloc: Global, base: &Base<'_>, cases: &[Case]) -> Result<Vec<Gate>, AllocError>
    requires cases { All (IsUsable (first_gate base.now.net.now)) cases.now }
    requires fits { count base.now.net.now + 2 * (length cases.now * length (copied_gates base.now.net.now base.now.copied.now)) ≤ 4294967295 }
    ensures { IfOk result (λ all. IsSplit base.now.net.now base.now.copied.now cases.now all.items) }
{
    let gates = marked_gates(alloc, base.net, base.copied)?;
    split_marked(alloc, base, &gates, cases)
}

/// Adds all copies and selections, and answers the heads.
fn split_heads(
    alloc: Global,
    base: &Base<'_>,
    added: &mut Added,
    gates: &[u32],
    cases: &[Case],
) -> Result<Vec<Gate>, AllocError>
    requires none { added.old.gates.items ≡ [] }
    requires gates { gates.now ≡ copied_gates base.now.net.now base.now.copied.now }
    requires cases { All (IsUsable (first_gate base.now.net.now)) cases.now }
    requires fits { count base.now.net.now + 2 * (length cases.now * length gates.now) ≤ 4294967295 }
    ensures { IfOk result (λ heads. AreSplitParts base.now.net.now base.now.copied.now cases.now heads.items added.new.gates.items) }
{
    let tables = tables_of(alloc, base, added, gates, cases)?;
    let roots = roots_of(alloc, base, added, gates, cases, &tables)?;
    let heads = heads_of(alloc, base, &roots)?;
    Ok(heads)
}

/// The netlist of these gates.
fn netlist_by(alloc: Global, net: &Netlist, gates: Vec<Gate>) -> Result<Netlist, AllocError>
    requires { IsNetlist (with_gates net.now gates.items net.now.outputs) }
    ensures { IfOk result (λ other. other ≡ with_gates net.now gates.items net.now.outputs) }
{
    let outputs = net.outputs().to_vec(alloc)?;
    let parts = parts_with(alloc, net, gates, outputs)?;
    netlist_of(alloc, parts)
}

/// The netlist split by cases, where it can't become too large.
fn split_small(
    alloc: Global,
    net: &Netlist,
    copied: &[bool],
    cases: &[Case],
) -> Result<Netlist, AllocError>
    requires copied { length copied.now ≡ length net.now.gates }
    requires cases { All (IsUsable (first_gate net.now)) cases.now }
    requires inputs { length net.now.inputs ≤ 4000000000 }
    requires small { most_items net.now copied.now (length cases.now) ≤ MAX_REWRITTEN_ITEMS }
    ensures { IfOk result (IsSplitNetlist net.now copied.now cases.now) }
{
    net.laws();
    let base = Base {
        net,
        copied,
        mark: mark(alloc, net)?,
    };
    let all = split_gates(alloc, &base, cases)?;
    netlist_by(alloc, net, all)
}

/// The netlist split by cases.
///
/// For each case the marked gates are copied, with what the case determines put in (ternary simulation of a vector that
/// knows the columns of the case alone), and equal copies are one. A marked gate becomes a selection among its copies: a
/// sum of products, with a row for each case, of what its cube asks of columns and of the copy. All signals keep their
/// numbers, and the copies come behind them. Any marks are right; those of `copied_marks` are the gates of loops and the
/// ones between them. A loop that a case leaves is left.
///
/// At a vector that is in one case, and that contradicts a literal of the cube of each other one, the new netlist tells
/// at least what the netlist does.
///
/// The condition is that there is a mark for each gate, that the cases are of columns of the netlist, that each cube has
/// at most 1,000 literals, and that there are at most 4,096 cases and 4,000,000,000 inputs.
///
/// # Errors
///
/// `TooLarge` exactly where the netlist's gates and latches and two gates for each marked one in each case
/// are over 4,000,000 together, with their number; else `Memory` where memory runs out.
pub fn split(
    alloc: Global,
    net: &Netlist,
    copied: &[bool],
    cases: &[Case],
) -> Result<Netlist, SplitFault>
    requires copied { length copied.now ≡ length net.now.gates }
    requires cases { All (IsUsable (first_gate net.now)) cases.now }
    requires few { length cases.now ≤ 4096 }
    requires inputs { length net.now.inputs ≤ 4000000000 }
    ensures fault { IfErr result (IsSplitFault (most_items net.now copied.now (length cases.now))) }
    ensures small { OnOk result (most_items net.now copied.now (length cases.now) ≤ MAX_REWRITTEN_ITEMS) }
    ensures size { IfOk result (λ other. length other.gates + length other.latches ≤ most_items net.now copied.now (length cases.now)) }
    ensures valid { IfOk result IsNetlist }
    ensures interface { IfOk result (KeepsInterface net.now) }
    ensures tells { IfOk result (λ other. (v : List Trit) → length v ≡ first_gate net.now → IsInOneCase cases.now v → TellsAsMuchAt net.now other v) }
{
    check_size(net, copied, cases.len())?;
    let other = split_small(alloc, net, copied, cases)?;
    Ok(other)
}

//! Gates that tell whether some pair of wires differs.

ghost use Rattle.std.specs.Prelude.{◌≡◌, ◌+◌, ◌++◌, ◌<◌, ◌≤◌, true, suc, length, map, IfOk, None, OnOk};
ghost use Rattle.std.specs.List.{range_with_len};
ghost use Rattle.cover_logic.specs.Covers.{cover_of as cover_by, first_fault};
ghost use Rattle.netlist.specs.Netlists.{count};
ghost use Rattle.unroll.specs.Marks.{mark as mark_of};
ghost use Rattle.miters.specs.Joined.{row as row_by, link_cover as link_cover_of, both_cover as both_cover_of, joined_pairs, miter, more_name, moved_gates, never_gate as never_gate_of, link_gate as link_gate_of, last_gate as last_gate_of, miter_gates};
ghost use Rattle.miters.specs.Differences.{columns_by_name};
ghost use Rattle.miters.specs.Matching.{unmatched};

use crate::joining::{joined_gates, netlist_with};
use cover_logic::{Cover, Lit, Row};
use cyc_base::{Items, Name, Sig};
use netlist::{Gate, Netlist, Pair};
use std::alloc::{AllocError, Global};
use unroll::{copy_name, mark};

/// A row of these literals.
fn row_of(lits: Vec<Lit>) -> Row
    ensures { result ≡ row_by lits.items }
{
    Row {
        lits: Items::of(lits),
    }
}

/// The cover of so many pins that is 1 where one of these rows matches.
fn cover_of(pins: usize, rows: Vec<Row>) -> Cover
    requires { first_fault pins rows.items ≡ None }
    ensures { result ≡ cover_by pins true rows.items }
{
    match Cover::new(pins, true, rows) {
        Ok(cover) => cover,
        Err(_) => unreachable!(),
    }
}

/// The cover of two pins that both are 1.
fn both_cover(alloc: Global) -> Result<Cover, AllocError>
    ensures { IfOk result (λ cover. cover ≡ both_cover_of) }
{
    let both = row_of(vec![in alloc; Lit::One, Lit::One]?);
    Ok(cover_of(2, vec![in alloc; both]?))
}

/// The cover of a link: 1 where its first pin is, or where the others differ.
fn link_cover(alloc: Global) -> Result<Cover, AllocError>
    ensures { IfOk result (λ cover. cover ≡ link_cover_of) }
{
    let before = row_of(vec![in alloc; Lit::One, Lit::Any, Lit::Any]?);
    let above = row_of(vec![in alloc; Lit::Any, Lit::One, Lit::Zero]?);
    let below = row_of(vec![in alloc; Lit::Any, Lit::Zero, Lit::One]?);
    Ok(cover_of(3, vec![in alloc; before, above, below]?))
}

/// A further gate, which has this number among those that are added.
fn more_gate(
    alloc: Global,
    a: &Netlist,
    mark: &Name,
    number: u32,
    pins: Vec<Sig>,
    cover: Cover,
) -> Result<Gate, AllocError>
    requires { mark.now ≡ mark_of a.now }
    ensures { IfOk result (λ gate. gate ≡ record { name = more_name a.now number; pins = pins.items; cover = cover }) }
{
    let name = copy_name(alloc, mark, number, a.name())?;
    let pins = Items::of(pins);
    Ok(Gate { name, pins, cover })
}

/// The first gate, which is 0.
fn never_gate(alloc: Global, a: &Netlist, mark: &Name, number: u32) -> Result<Gate, AllocError>
    requires { mark.now ≡ mark_of a.now }
    ensures { IfOk result (λ gate. gate ≡ never_gate_of a.now number) }
{
    let cover = cover_of(0, Vec::new(alloc));
    more_gate(alloc, a, mark, number, Vec::new(alloc), cover)
}

/// The gate of a pair.
fn link_gate(
    alloc: Global,
    a: &Netlist,
    mark: &Name,
    number: u32,
    pairs: &[Pair],
    place: u32,
) -> Result<Gate, AllocError>
    requires mark { mark.now ≡ mark_of a.now }
    requires place { place < length pairs.now }
    requires fits { count a.now + suc (number + length pairs.now) ≤ 4294967295 }
    ensures { IfOk result (λ gate. gate ≡ link_gate_of a.now number pairs.now place) }
{
    let before = number + place;
    let pair = pairs[place as usize];
    let pins = vec![in alloc; Sig(a.count() + before), pair.here, pair.there]?;
    more_gate(alloc, a, mark, before + 1, pins, link_cover(alloc)?)
}

/// The last gate, which reads the last link and itself.
fn last_gate(
    alloc: Global,
    a: &Netlist,
    mark: &Name,
    number: u32,
    links: u32,
) -> Result<Gate, AllocError>
    requires mark { mark.now ≡ mark_of a.now }
    requires fits { count a.now + suc (number + links) ≤ 4294967295 }
    ensures { IfOk result (λ gate. gate ≡ last_gate_of a.now number links) }
{
    let last = number + links;
    let link = a.count() + last;
    let pins = vec![in alloc; Sig(link), Sig(link + 1)]?;
    more_gate(alloc, a, mark, last + 1, pins, both_cover(alloc)?)
}

/// Adds the gates of all pairs.
fn add_links(
    alloc: Global,
    a: &Netlist,
    mark: &Name,
    number: u32,
    pairs: &[Pair],
    gates: &mut Vec<Gate>,
) -> Result<(), AllocError>
    requires mark { mark.now ≡ mark_of a.now }
    requires fits { count a.now + suc (number + length pairs.now) ≤ 4294967295 }
    ensures { OnOk result (gates.new.items ≡ gates.old.items ++ map (link_gate_of a.now number pairs.now) (range_with_len 0 (length pairs.now))) }
{
    for place in 0..pairs.len() as u32 {
        gates.push(link_gate(alloc, a, mark, number, pairs, place)?)?;
    }
    Ok(())
}

/// Adds the gates that tell whether some pair differs: the first, those of the pairs, and the last.
fn add_miter_gates(
    alloc: Global,
    a: &Netlist,
    mark: &Name,
    number: u32,
    pairs: &[Pair],
    gates: &mut Vec<Gate>,
) -> Result<(), AllocError>
    requires mark { mark.now ≡ mark_of a.now }
    requires fits { count a.now + suc (number + length pairs.now) ≤ 4294967295 }
    ensures { OnOk result (gates.new.items ≡ gates.old.items ++ miter_gates a.now number pairs.now) }
{
    gates.push(never_gate(alloc, a, mark, number)?)?;
    add_links(alloc, a, mark, number, pairs, gates)?;
    gates.push(last_gate(alloc, a, mark, number, pairs.len() as u32)?)?;
    Ok(())
}

/// The gates of both netlists, and those that tell whether they differ.
fn gates_of_miter(
    alloc: Global,
    a: &Netlist,
    b: &Netlist,
    columns: &[u32],
    pairs: &[Pair],
) -> Result<Vec<Gate>, AllocError>
    requires columns { columns.now ≡ columns_by_name a.now b.now }
    requires fits { count a.now + suc (length b.now.gates + length pairs.now) ≤ 4294967294 }
    ensures { IfOk result (λ gates. gates.items ≡ a.now.gates ++ (moved_gates a.now b.now ++ miter_gates a.now (length b.now.gates) pairs.now)) }
{
    let mark = mark(alloc, a)?;
    let mut gates = joined_gates(alloc, a, b, columns, &mark)?;
    add_miter_gates(alloc, a, &mark, b.gates(), pairs, &mut gates)?;
    Ok(gates)
}

/// The netlist that tells of a vector whether two netlists differ whose names match, their miter (Brand 1993): its last gate
/// is unknown where they do. `columns` are the first one's columns of the second one's names, and `pairs` what is compared.
pub fn miter_of(
    alloc: Global,
    a: &Netlist,
    b: &Netlist,
    columns: &[u32],
    pairs: &[Pair],
) -> Result<Netlist, AllocError>
    requires matched { unmatched a.now b.now ≡ None }
    requires columns { columns.now ≡ columns_by_name a.now b.now }
    requires pairs { pairs.now ≡ joined_pairs a.now b.now }
    requires fits { count a.now + suc (length b.now.gates + length pairs.now) ≤ 4294967294 }
    ensures { IfOk result (λ net. net ≡ miter a.now b.now) }
{
    a.laws();
    b.laws();
    let gates = gates_of_miter(alloc, a, b, columns, pairs)?;
    netlist_with(alloc, a, gates)
}

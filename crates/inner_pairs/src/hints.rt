//! Pairs of inner wires of two netlists that may well be equal, or each the other's complement.

ghost use Rattle.std.specs.Prelude.{◌≡◌, ◌+◌, ◌<◌, ◌≤◌, [], length, All, IfOk, IfSome, OnOk, ℕ};
ghost use Rattle.indexmap.specs.IndexMap.{values};
ghost use Rattle.netlist.specs.Netlists.{count};
ghost use Rattle.netlist.specs.Pairs.{IsPairOf};
ghost use Rattle.miters.specs.Joined.{joined};

use crate::prints::{Print, fingerprints};
use care_sets::Care;
use clause_pairs::{Fixed, Hint};
use cyc_base::Sig;
use indexmap::IndexMap;
use loops::{LoopedNetlist, find_blocks};
use netlist::{Netlist, Pair};
use std::alloc::{AllocError, Global};

/// For each fingerprint the first of these many wires that has it.
fn first_wires(
    alloc: Global,
    prints: &[Print],
    count: u32,
) -> Result<IndexMap<u64, u32>, AllocError>
    requires { count ≤ length prints.now }
    ensures { IfOk result (λ firsts. All (λ wire. wire < count) (values firsts)) }
{
    let mut firsts = IndexMap::new(alloc);
    for from_last in 0..count {
        let wire = count - 1 - from_last;
        firsts.insert(prints[wire as usize].own, wire)?;
    }
    Ok(firsts)
}

/// The first wire that has this fingerprint.
fn first_with(firsts: &IndexMap<u64, u32>, print: u64) -> Option<u32>
    ensures { (count : ℕ) → All (λ wire. wire < count) (values firsts.now) → IfSome result (λ wire. wire < count) }
{
    firsts.get(&print).copied()
}

/// A wire of the first netlist that a gate of the second may well equal, or else, where it is opposite, complement.
#[derive(Clone, Copy, PartialEq, Eq)]
struct Alike {
    wire: Sig,
    opposite: bool,
}

/// Whether wires with these fingerprints may be opposite, and not equal, if they may be one of both.
fn are_opposite(here: Print, there: Print) -> Option<bool> {
    if here.own == there.own {
        return Some(false);
    }
    if here.own == there.opposite {
        return Some(true);
    }
    None
}

/// The first netlist's wire of the name of a gate of the second, if their fingerprints fit.
#[tactic(auto, using(crate::proofs::AlikeLemmas::named_within))]
fn named_alike(a: &Netlist, b: &Netlist, number: u32, prints: &[Print]) -> Option<Alike>
    requires number { number < length b.now.gates }
    requires prints { length prints.now ≡ count a.now + length b.now.gates }
    requires fits { count a.now + length b.now.gates ≤ 4294967295 }
    ensures { IfSome result (λ alike. alike.wire.0 < count a.now) }
{
    let wire = a.find(&b.gate(number).name)?;
    let opposite = are_opposite(
        prints[wire.0 as usize],
        prints[(a.count() + number) as usize],
    )?;
    Some(Alike { wire, opposite })
}

/// The first wire whose fingerprints fit these.
fn first_alike(firsts: &IndexMap<u64, u32>, print: Print) -> Option<Alike>
    ensures { (count : ℕ) → All (λ wire. wire < count) (values firsts.now) → IfSome result (λ alike. alike.wire.0 < count) }
{
    match first_with(firsts, print.own) {
        Some(wire) => Some(Alike {
            wire: Sig(wire),
            opposite: false,
        }),
        None => Some(Alike {
            wire: Sig(first_with(firsts, print.opposite)?),
            opposite: true,
        }),
    }
}

/// A wire of the first netlist whose fingerprints fit those of a gate of the second. Where there are more, that of its name
/// is the easiest to prove.
fn find_alike(
    a: &Netlist,
    b: &Netlist,
    number: u32,
    prints: &[Print],
    firsts: &IndexMap<u64, u32>,
) -> Option<Alike>
    requires number { number < length b.now.gates }
    requires prints { length prints.now ≡ count a.now + length b.now.gates }
    requires fits { count a.now + length b.now.gates ≤ 4294967295 }
    requires firsts { All (λ wire. wire < count a.now) (values firsts.now) }
    ensures { IfSome result (λ alike. alike.wire.0 < count a.now) }
{
    match named_alike(a, b, number, prints) {
        Some(alike) => Some(alike),
        None => first_alike(firsts, prints[(a.count() + number) as usize]),
    }
}

/// Adds a gate of the second netlist beside such a wire, if there is one.
fn add_alike(
    a: &Netlist,
    b: &Netlist,
    number: u32,
    prints: &[Print],
    firsts: &IndexMap<u64, u32>,
    hints: &mut Vec<Hint>,
) -> Result<(), AllocError>
    requires number { number < length b.now.gates }
    requires prints { length prints.now ≡ count a.now + length b.now.gates }
    requires fits { count a.now + length b.now.gates ≤ 4294967295 }
    requires firsts { All (λ wire. wire < count a.now) (values firsts.now) }
    requires hints { All (λ hint. IsPairOf (joined a.now b.now []) hint.pair) hints.old.items }
    ensures { OnOk result (All (λ hint. IsPairOf (joined a.now b.now []) hint.pair) hints.new.items) }
{
    let there = Sig(a.count() + number);
    match find_alike(a, b, number, prints, firsts) {
        Some(alike) => {
            let pair = Pair {
                here: alike.wire,
                there,
            };
            hints.push(Hint {
                pair,
                opposite: alike.opposite,
            })?;
            Ok(())
        }
        None => Ok(()),
    }
}

/// Adds these gates of the second netlist, each beside such a wire.
fn add_all_alike(
    a: &Netlist,
    b: &Netlist,
    gates: &[u32],
    prints: &[Print],
    firsts: &IndexMap<u64, u32>,
    hints: &mut Vec<Hint>,
) -> Result<(), AllocError>
    requires gates { All (λ gate. gate < length b.now.gates) gates.now }
    requires prints { length prints.now ≡ count a.now + length b.now.gates }
    requires fits { count a.now + length b.now.gates ≤ 4294967295 }
    requires firsts { All (λ wire. wire < count a.now) (values firsts.now) }
    requires hints { All (λ hint. IsPairOf (joined a.now b.now []) hint.pair) hints.old.items }
    ensures { OnOk result (All (λ hint. IsPairOf (joined a.now b.now []) hint.pair) hints.new.items) }
{
    for gate in gates {
        add_alike(a, b, *gate, prints, firsts, hints)?;
    }
    Ok(())
}

/// The gates of the second netlist, each beside a wire of the first whose fingerprints fit: pairs of the joined netlist,
/// whose wires' fingerprints these are. A gate stands behind those that it reads, but for those of its own loop, since what
/// is known of them makes its own pair easy.
fn alike_hints(
    alloc: Global,
    a: &Netlist,
    b: &Netlist,
    prints: &[Print],
) -> Result<Vec<Hint>, AllocError>
    requires prints { length prints.now ≡ count a.now + length b.now.gates }
    requires fits { count a.now + length b.now.gates ≤ 4294967295 }
    ensures { IfOk result (λ hints. All (λ hint. IsPairOf (joined a.now b.now []) hint.pair) hints.items) }
{
    let firsts = first_wires(alloc, prints, a.count())?;
    let blocks = find_blocks(alloc, b)?;
    let list = blocks.list.items();
    let mut hints = Vec::new(alloc);
    for place in 0..list.len() {
        let gates = list[place].gates.items();
        add_all_alike(a, b, gates, prints, &firsts, &mut hints)?;
    }
    Ok(hints)
}

/// Pairs of inner wires of the joined netlist of two that may well be equal, or opposite, on the care vectors of a cube: no
/// vector of a simulation tells them apart. None where such a vector on care has the wires of one of `pairs` apart.
pub(crate) fn find_hints(
    alloc: Global,
    a: &Netlist,
    b: &Netlist,
    looped: &LoopedNetlist<'_>,
    care: &Care,
    cube: &[Fixed],
    pairs: &[Pair],
) -> Result<Option<Vec<Hint>>, AllocError>
    requires joined { looped.now.net ≡ joined a.now b.now [] }
    requires fits { count a.now + length b.now.gates ≤ 4294967295 }
    ensures { IfOk result (λ found. IfSome found (λ hints. All (λ hint. IsPairOf looped.now.net hint.pair) hints.items)) }
{
    match fingerprints(alloc, looped, care, cube, pairs)? {
        Some(prints) => Ok(Some(alike_hints(alloc, a, b, &prints)?)),
        None => Ok(None),
    }
}

//! The first fault of the parts of a netlist.

use cover_logic::Cover;
use cyc_base::{Items, Name, Sig};
use netlist::{Clock, Edge, Gate, Init, Latch, Netlist, Parts, PartsFault};
use std::alloc::{AllocError, Global};
use std::test::Fail;

fn name(alloc: Global, text: &[u8]) -> Result<Name, AllocError> {
    Ok(Name::new(text.to_vec(alloc)?))
}

/// An input, a latch and a gate, which are the signals 0, 1 and 2. The first four are accepted, and the others meet
/// each refusal that memory allows.
pub const CASES: u32 = 17;

fn fault_at(case: u32) -> Option<PartsFault> {
    match case {
        0 | 1 | 2 | 3 => None,
        4 | 5 | 6 => Some(PartsFault::BadSig),
        7 => Some(PartsFault::PinCount { gate: 0 }),
        8 | 9 => Some(PartsFault::BadName),
        10 => Some(PartsFault::NameTwice { sig: Sig(2) }),
        11 => Some(PartsFault::NameTwice { sig: Sig(1) }),
        12 => Some(PartsFault::OutputTwice { sig: Sig(1) }),
        _ => Some(PartsFault::BadClock),
    }
}

fn model(case: u32) -> &'static [u8] {
    if case == 8 { b"" } else { b"m" }
}

fn input(case: u32) -> &'static [u8] {
    match case {
        9 => b"x#",
        11 => b"q",
        _ => b"x",
    }
}

fn gate_name(case: u32) -> &'static [u8] {
    match case {
        3 => b"1~g",
        10 => b"x",
        _ => b"g",
    }
}

fn pins(case: u32) -> &'static [Sig] {
    match case {
        3 => &[],
        4 => &[Sig(3)],
        _ => &[Sig(1), Sig(2), Sig(0)],
    }
}

fn cover_pins(case: u32) -> usize {
    match case {
        3 => 0,
        7 => 2,
        _ => 3,
    }
}

fn outputs(case: u32) -> &'static [Sig] {
    match case {
        6 => &[Sig(3)],
        12 => &[Sig(1), Sig(1)],
        _ => &[Sig(2), Sig(0)],
    }
}

fn clock_name(case: u32) -> Option<&'static [u8]> {
    match case {
        1 | 13 => None,
        2 => Some(b"x"),
        15 => Some(b"NIL"),
        16 => Some(b"g"),
        _ => Some(b"clk"),
    }
}

fn clock(alloc: Global, case: u32) -> Result<Option<Clock>, AllocError> {
    match clock_name(case) {
        None => Ok(None),
        Some(text) => Ok(Some(Clock {
            edge: Edge::Rise,
            name: name(alloc, text)?,
        })),
    }
}

fn latch_from(case: u32) -> Sig {
    if case == 5 { Sig(3) } else { Sig(2) }
}

fn is_clocked(case: u32) -> bool {
    !matches!(case, 1 | 14)
}

fn latch(alloc: Global, case: u32) -> Result<Latch, AllocError> {
    Ok(Latch {
        name: name(alloc, b"q")?,
        from: latch_from(case),
        init: Init::Either,
        clocked: is_clocked(case),
    })
}

fn gate(alloc: Global, name: Name, pins: Vec<Sig>, width: usize) -> Result<Gate, Fail> {
    Ok(Gate {
        name,
        pins: Items::of(pins),
        cover: Cover::new(width, true, Vec::new(alloc))?,
    })
}

fn gate_at(alloc: Global, case: u32) -> Result<Gate, Fail> {
    let name = name(alloc, gate_name(case))?;
    let pins = pins(case).to_vec(alloc)?;
    gate(alloc, name, pins, cover_pins(case))
}

fn inputs(alloc: Global, case: u32) -> Result<Items<Name>, AllocError> {
    let name = name(alloc, input(case))?;
    Ok(Items::of(vec![in alloc; name]?))
}

fn latches(alloc: Global, case: u32) -> Result<Items<Latch>, AllocError> {
    let latch = latch(alloc, case)?;
    Ok(Items::of(vec![in alloc; latch]?))
}

fn gates(alloc: Global, case: u32) -> Result<Items<Gate>, Fail> {
    let gate = gate_at(alloc, case)?;
    Ok(Items::of(vec![in alloc; gate]?))
}

/// Parts of a netlist without gates, latches and a clock.
fn bare(alloc: Global, case: u32) -> Result<Parts, AllocError> {
    let inputs = inputs(alloc, case)?;
    Ok(Parts {
        name: name(alloc, model(case))?,
        inputs,
        clock: None,
        latches: Items::of(Vec::new(alloc)),
        gates: Items::of(Vec::new(alloc)),
        outputs: Items::of(Vec::new(alloc)),
    })
}

fn add_clock(alloc: Global, case: u32, parts: &mut Parts) -> Result<(), AllocError> {
    parts.clock = clock(alloc, case)?;
    Ok(())
}

fn add_latches(alloc: Global, case: u32, parts: &mut Parts) -> Result<(), AllocError> {
    parts.latches = latches(alloc, case)?;
    Ok(())
}

fn add_gates(alloc: Global, case: u32, parts: &mut Parts) -> Result<(), Fail> {
    parts.gates = gates(alloc, case)?;
    Ok(())
}

fn add_outputs(alloc: Global, case: u32, parts: &mut Parts) -> Result<(), AllocError> {
    parts.outputs = Items::of(outputs(case).to_vec(alloc)?);
    Ok(())
}

fn fill(alloc: Global, case: u32, parts: &mut Parts) -> Result<(), Fail> {
    add_clock(alloc, case, parts)?;
    add_latches(alloc, case, parts)?;
    add_gates(alloc, case, parts)?;
    Ok(add_outputs(alloc, case, parts)?)
}

fn parts(alloc: Global, case: u32) -> Result<Parts, Fail> {
    let mut parts = bare(alloc, case)?;
    fill(alloc, case, &mut parts)?;
    Ok(parts)
}

/// Whether the first fault of the parts of a case is what it should be.
pub fn is_right(alloc: Global, case: u32) -> Result<bool, Fail> {
    let parts = parts(alloc, case)?;
    Ok(Netlist::new(alloc, parts).err() == fault_at(case))
}

ghost use Rattle.std.specs.Prelude.{◌≡◌, ◌<◌, ◌≤◌, ◌+◌, ◌⊎◌, ◌++◌, [], ◌∷◌, length, map, None, Some, Ok, Err, IfOk, IfErr, OnOk, option_copied, option_map};
ghost use Rattle.std.specs.List.{find, flat_map};
ghost use Rattle.std.specs.Option.{option_or};
ghost use Rattle.flatten.specs.Linking.{reads, drivers, own_clocks, twice_after, first_twice, edge_eq, has_control, first_control as first_control_by, is_clock_of, has_bad_control, is_other_control, has_other_control, declared_twice, driven_twice, latch_with, gate_with, netlist_by, linked};
ghost use Rattle.flatten.specs.Drivers.{IsDriversOf, HasSignals, sig_of_place as sig_of_place_by, sig_or, undriven_among, bad_clock_among, AreRead};
ghost use Rattle.flatten.specs.Levels.{lines_of};

use crate::fault::FlatFault;
use crate::library::{add_all, add_copy};
use crate::remaining::Remaining;
use crate::walk::FlatBody;
use blif_read::{BlifModel, GateLine, LatchLine};
use cyc_base::{Items, MAX_FLAT_ITEMS, Name, Sig};
use indexmap::IndexSet;
use netlist::{Clock, Edge, Gate, Latch, Parts};
use std::alloc::{AllocError, Global};
use std::mem;

/// The drivers of a flat netlist, in their order: the top's inputs, its clocks that aren't inputs, the latches
/// and the gates. The clocks are no signals.
pub(crate) struct Drivers {
    pub(crate) names: IndexSet<Name>,
    pub(crate) inputs: usize,
    pub(crate) clocks: usize,
}

impl Drop for Drivers {
    fn drop(self) {
        let Drivers {
            names: _,
            inputs: _,
            clocks: _,
        } = self;
    }
}

/// Adds copies of the names that a line of the top declares, all of which are to differ.
fn declare(set: &mut IndexSet<Name>, names: &[Name]) -> Result<(), FlatFault>
    requires { set.old.keys ≡ [] }
    ensures all { OnOk result (set.new.keys ≡ names.now) }
    ensures once { OnOk result (first_twice names.now ≡ None) }
    ensures fault { IfErr result (λ fault. (fault ≡ FlatFault.Memory)
        ⊎ (option_map FlatFault.DeclaredTwice (first_twice names.now) ≡ Some fault)) }
{
    for name in names {
        if !add_copy(set, name)? {
            return Err(FlatFault::DeclaredTwice { name: name.copy()? });
        }
    }
    Ok(())
}

/// That no name stands twice among the outputs of the top.
fn check_outputs(alloc: Global, top: &BlifModel) -> Result<(), FlatFault>
    ensures once { OnOk result (first_twice top.now.outputs ≡ None) }
    ensures fault { IfErr result (λ fault. (fault ≡ FlatFault.Memory)
        ⊎ (option_map FlatFault.DeclaredTwice (first_twice top.now.outputs) ≡ Some fault)) }
{
    let mut outputs = IndexSet::new(alloc);
    declare(&mut outputs, top.outputs.items())
}

/// Adds the inputs of the top, where neither they nor its outputs have a name twice. There is then room for so many
/// more names, so that the table needn't grow with them.
fn add_inputs(
    alloc: Global,
    set: &mut IndexSet<Name>,
    top: &BlifModel,
    room: usize,
) -> Result<(), FlatFault>
    requires { set.old.keys ≡ [] }
    ensures all { OnOk result (set.new.keys ≡ top.now.inputs) }
    ensures inputs { OnOk result (first_twice top.now.inputs ≡ None) }
    ensures once { OnOk result (declared_twice top.now ≡ None) }
    ensures fault { IfErr result
        (λ fault. (fault ≡ FlatFault.Memory) ⊎ (declared_twice top.now ≡ Some fault)) }
{
    declare(set, top.inputs.items())?;
    check_outputs(alloc, top)?;
    set.reserve(room)?;
    Ok(())
}

/// Adds the clocks of the top that aren't inputs to the inputs, and answers how many they are.
fn add_clocks(set: &mut IndexSet<Name>, top: &BlifModel) -> Result<usize, AllocError>
    requires { set.old.keys ≡ top.now.inputs }
    ensures all { OnOk result (set.new.keys ≡ top.now.inputs ++ own_clocks top.now) }
    ensures count { IfOk result (λ count. count ≡ length (own_clocks top.now)) }
{
    let inputs = set.len();
    add_all(set, top.clocks.items())?;
    Ok(set.len() - inputs)
}

/// Adds copies of the latches' names, all of which are to be new.
fn add_latches(set: &mut IndexSet<Name>, latches: &[LatchLine]) -> Result<(), FlatFault>
    ensures all { OnOk result (set.new.keys ≡ set.old.keys ++ map (λ l. l.output) latches.now) }
    ensures once { OnOk result (twice_after set.old.keys (map (λ l. l.output) latches.now) ≡ None) }
    ensures fault { IfErr result (λ fault. (fault ≡ FlatFault.Memory)
        ⊎ (option_map FlatFault.DrivenTwice (twice_after set.old.keys (map (λ l. l.output) latches.now)) ≡ Some fault)) }
{
    for latch in latches {
        if !add_copy(set, &latch.output)? {
            return Err(FlatFault::DrivenTwice {
                name: latch.output.copy()?,
            });
        }
    }
    Ok(())
}

/// Adds copies of the gates' names, all of which are to be new.
fn add_gates(set: &mut IndexSet<Name>, gates: &[GateLine]) -> Result<(), FlatFault>
    ensures all { OnOk result (set.new.keys ≡ set.old.keys ++ map (λ g. g.output) gates.now) }
    ensures once { OnOk result (twice_after set.old.keys (map (λ g. g.output) gates.now) ≡ None) }
    ensures fault { IfErr result (λ fault. (fault ≡ FlatFault.Memory)
        ⊎ (option_map FlatFault.DrivenTwice (twice_after set.old.keys (map (λ g. g.output) gates.now)) ≡ Some fault)) }
{
    for gate in gates {
        if !add_copy(set, &gate.output)? {
            return Err(FlatFault::DrivenTwice {
                name: gate.output.copy()?,
            });
        }
    }
    Ok(())
}

fn first_controlled(latches: &[LatchLine]) -> Option<&LatchLine>
    ensures { option_copied result ≡ find has_control latches.now }
{
    latches.iter().find(|latch| latch.control.is_some())
}

/// The control of the first latch that has one.
fn first_control(latches: &[LatchLine]) -> Option<&Clock>
    ensures { option_copied result ≡ first_control_by latches.now }
{
    match first_controlled(latches) {
        Some(latch) => latch.control.as_ref(),
        None => None,
    }
}

/// Whether a control may have the name: an input or a `.clock` name of the top, but not `NIL`.
fn is_clock(top: &BlifModel, name: &Name) -> bool
    ensures { result ≡ is_clock_of top.now name.now }
{
    name.bytes() != b"NIL".as_slice()
        && (top.inputs.items().contains(name) || top.clocks.items().contains(name))
}

fn same_edge(a: Edge, b: Edge) -> bool
    ensures { result ≡ edge_eq a b }
{
    match (a, b) {
        (Edge::Rise, Edge::Rise) => true,
        (Edge::Fall, Edge::Fall) => true,
        _ => false,
    }
}

/// Whether a control isn't the first one, or that one doesn't fit.
fn is_other(control: &Clock, first: &Clock, fits: bool) -> bool
    ensures { result ≡ is_other_control fits first.now control.now }
{
    !(fits && same_edge(control.edge, first.edge) && control.name == first.name)
}

fn has_other(latch: &LatchLine, first: &Clock, fits: bool) -> bool
    ensures { result ≡ has_other_control fits first.now latch.now }
{
    match &latch.control {
        Some(control) => is_other(control, first, fits),
        None => false,
    }
}

/// The first latch whose control is no clock of the top, or isn't the first control.
#[tactic(auto, using(crate::proofs::Gathering::find_other, crate::proofs::Gathering::find_none))]
fn first_bad_clock<'a>(top: &BlifModel, latches: &'a [LatchLine]) -> Option<&'a LatchLine>
    ensures { option_copied result ≡ find (has_bad_control top.now (first_control_by latches.now)) latches.now }
{
    let first = first_control(latches)?;
    let fits = is_clock(top, &first.name);
    latches.iter().find(|latch| has_other(*latch, first, fits))
}

/// The signal of the driver at this place of the table, or `None` for a clock.
fn sig_of_place(drivers: &Drivers, place: usize) -> Option<Sig>
    requires signals { HasSignals drivers.now }
    requires place { place < length drivers.now.names.keys }
    ensures { result ≡ sig_of_place_by drivers.now.inputs drivers.now.clocks place }
{
    if place < drivers.inputs {
        Some(Sig(place as u32))
    } else if place - drivers.inputs < drivers.clocks {
        None
    } else {
        Some(Sig((place - drivers.clocks) as u32))
    }
}

/// Notes a clock that is read, unless one was noted before.
fn note(clock: &mut Option<Name>, name: &Name) -> Result<(), AllocError>
    ensures { OnOk result (clock.new ≡ option_or clock.old (Some name.now)) }
{
    if clock.is_none() {
        *clock = Some(name.copy()?);
    }
    Ok(())
}

/// The signal of a wire that is read. A clock is no signal: the first one is noted, since a bad control is told before
/// it, and the place of its signal is taken by 0.
fn read(drivers: &Drivers, name: &Name, clock: &mut Option<Name>) -> Result<Sig, FlatFault>
    requires { HasSignals drivers.now }
    ensures sig { IfOk result (λ sig. sig ≡ sig_or drivers.now name.now) }
    ensures read { OnOk result (AreRead drivers.now (name.now ∷ []) clock.old clock.new) }
    ensures fault { IfErr result (λ fault. (fault ≡ FlatFault.Memory)
        ⊎ (undriven_among drivers.now (name.now ∷ []) ≡ Some fault)) }
{
    let Some(place) = drivers.names.get_index_of(name) else {
        return Err(FlatFault::Undriven { name: name.copy()? });
    };
    match sig_of_place(drivers, place) {
        Some(sig) => Ok(sig),
        None => {
            note(clock, name)?;
            Ok(Sig(0))
        }
    }
}

/// The signals of wires that are read, where the first clock is noted.
fn read_all(
    alloc: Global,
    drivers: &Drivers,
    names: &[Name],
    clock: &mut Option<Name>,
) -> Result<Vec<Sig>, FlatFault>
    requires { HasSignals drivers.now }
    ensures sigs { IfOk result (λ sigs. sigs.items ≡ map (sig_or drivers.now) names.now) }
    ensures read { OnOk result (AreRead drivers.now names.now clock.old clock.new) }
    ensures fault { IfErr result (λ fault. (fault ≡ FlatFault.Memory)
        ⊎ (undriven_among drivers.now names.now ≡ Some fault)) }
{
    let mut sigs = Vec::with_capacity(alloc, names.len())?;
    for name in names {
        sigs.push_reserved(read(drivers, name, clock)?);
    }
    Ok(sigs)
}

/// The latch of a line.
fn flat_latch(
    drivers: &Drivers,
    latch: &LatchLine,
    clock: &mut Option<Name>,
) -> Result<Latch, FlatFault>
    requires { HasSignals drivers.now }
    ensures latch { IfOk result (λ flat. flat ≡ latch_with (sig_or drivers.now) latch.now) }
    ensures read { OnOk result (AreRead drivers.now (latch.now.from ∷ []) clock.old clock.new) }
    ensures fault { IfErr result (λ fault. (fault ≡ FlatFault.Memory)
        ⊎ (undriven_among drivers.now (latch.now.from ∷ []) ≡ Some fault)) }
{
    let from = read(drivers, &latch.from, clock)?;
    Ok(Latch {
        name: latch.output.copy()?,
        from,
        init: latch.init,
        clocked: latch.control.is_some(),
    })
}

fn flat_latches(
    alloc: Global,
    drivers: &Drivers,
    latches: &[LatchLine],
    clock: &mut Option<Name>,
) -> Result<Vec<Latch>, FlatFault>
    requires { HasSignals drivers.now }
    ensures latches { IfOk result (λ flat. flat.items ≡ map (latch_with (sig_or drivers.now)) latches.now) }
    ensures read { OnOk result (AreRead drivers.now (map (λ l. l.from) latches.now) clock.old clock.new) }
    ensures fault { IfErr result (λ fault. (fault ≡ FlatFault.Memory)
        ⊎ (undriven_among drivers.now (map (λ l. l.from) latches.now) ≡ Some fault)) }
{
    let mut flat = Vec::with_capacity(alloc, latches.len())?;
    for latch in latches {
        flat.push_reserved(flat_latch(drivers, latch, clock)?);
    }
    Ok(flat)
}

/// The gate of a line, which hands its name and its cover over.
fn flat_gate(
    alloc: Global,
    drivers: &Drivers,
    gate: GateLine,
    clock: &mut Option<Name>,
) -> Result<Gate, FlatFault>
    requires { HasSignals drivers.now }
    ensures gate { IfOk result (λ flat. flat ≡ gate_with (sig_or drivers.now) gate) }
    ensures read { OnOk result (AreRead drivers.now gate.pins clock.old clock.new) }
    ensures fault { IfErr result (λ fault. (fault ≡ FlatFault.Memory)
        ⊎ (undriven_among drivers.now gate.pins ≡ Some fault)) }
{
    let pins = Items::of(read_all(alloc, drivers, gate.pins.items(), clock)?);
    let (_, name, cover) = gate.into_parts();
    Ok(Gate { name, pins, cover })
}

fn flat_gates(
    alloc: Global,
    drivers: &Drivers,
    gates: Vec<GateLine>,
    clock: &mut Option<Name>,
) -> Result<Vec<Gate>, FlatFault>
    requires { HasSignals drivers.now }
    ensures gates { IfOk result (λ flat. flat.items ≡ map (gate_with (sig_or drivers.now)) gates.items) }
    ensures read { OnOk result (AreRead drivers.now (flat_map (λ g. g.pins) gates.items) clock.old clock.new) }
    ensures fault { IfErr result (λ fault. (fault ≡ FlatFault.Memory)
        ⊎ (undriven_among drivers.now (flat_map (λ g. g.pins) gates.items) ≡ Some fault)) }
{
    let mut flat = Vec::with_capacity(alloc, gates.len())?;
    for gate in Remaining::of(gates) {
        flat.push_reserved(flat_gate(alloc, drivers, gate, clock)?);
    }
    Ok(flat)
}

fn copy_names(alloc: Global, names: &[Name]) -> Result<Vec<Name>, AllocError>
    ensures { IfOk result (λ copied. copied.items ≡ names.now) }
{
    let mut copied = Vec::with_capacity(alloc, names.len())?;
    for name in names {
        copied.push_reserved(name.copy()?);
    }
    Ok(copied)
}

fn copy_control(latches: &[LatchLine]) -> Result<Option<Clock>, AllocError>
    ensures { IfOk result (λ control. control ≡ first_control_by latches.now) }
{
    match first_control(latches) {
        Some(clock) => Ok(Some(Clock {
            edge: clock.edge,
            name: clock.name.copy()?,
        })),
        None => Ok(None),
    }
}

/// Adds the drivers of these lines, and answers how many of them are clocks. All drivers are to differ.
fn add_drivers(
    alloc: Global,
    set: &mut IndexSet<Name>,
    top: &BlifModel,
    lines: &FlatBody,
) -> Result<usize, FlatFault>
    requires { set.old.keys ≡ [] }
    ensures all { OnOk result (set.new.keys ≡ drivers top.now (lines_of lines.now)) }
    ensures clocks { IfOk result (λ clocks. clocks ≡ length (own_clocks top.now)) }
    ensures once { OnOk result (option_or (declared_twice top.now) (driven_twice top.now (lines_of lines.now)) ≡ None) }
    ensures fault { IfErr result (λ fault. (fault ≡ FlatFault.Memory)
        ⊎ (option_or (declared_twice top.now) (driven_twice top.now (lines_of lines.now)) ≡ Some fault)) }
{
    add_inputs(alloc, set, top, lines.latches.len() + lines.gates.len())?;
    let clocks = add_clocks(set, top)?;
    add_latches(set, &lines.latches)?;
    add_gates(set, &lines.gates)?;
    Ok(clocks)
}

/// The drivers of these lines, all of them different.
fn drivers_of(alloc: Global, top: &BlifModel, lines: &FlatBody) -> Result<Drivers, FlatFault>
    ensures drivers { IfOk result (λ drivers. IsDriversOf top.now (lines_of lines.now) drivers) }
    ensures once { OnOk result (option_or (declared_twice top.now) (driven_twice top.now (lines_of lines.now)) ≡ None) }
    ensures fault { IfErr result (λ fault. (fault ≡ FlatFault.Memory)
        ⊎ (option_or (declared_twice top.now) (driven_twice top.now (lines_of lines.now)) ≡ Some fault)) }
{
    let mut names = IndexSet::new(alloc);
    let clocks = add_drivers(alloc, &mut names, top, lines)?;
    Ok(Drivers {
        names,
        inputs: top.inputs.items().len(),
        clocks,
    })
}

/// Parts with this name, and nothing else yet.
fn named_parts(alloc: Global, name: Name) -> Parts
    ensures { result.name ≡ name }
{
    Parts {
        name,
        inputs: Items::of(Vec::new(alloc)),
        clock: None,
        latches: Items::of(Vec::new(alloc)),
        gates: Items::of(Vec::new(alloc)),
        outputs: Items::of(Vec::new(alloc)),
    }
}

/// Gives parts the inputs of the top, and the clock of its latches.
fn fill_ports(
    alloc: Global,
    top: &BlifModel,
    latches: &[LatchLine],
    parts: &mut Parts,
) -> Result<(), AllocError>
    ensures name { OnOk result (parts.new.name ≡ parts.old.name) }
    ensures inputs { OnOk result (parts.new.inputs ≡ top.now.inputs) }
    ensures clock { OnOk result (parts.new.clock ≡ first_control_by latches.now) }
{
    parts.inputs = Items::of(copy_names(alloc, top.inputs.items())?);
    parts.clock = copy_control(latches)?;
    Ok(())
}

/// Gives parts that have the top's name, its inputs and the clock their outputs, latches and gates: the signals are the
/// inputs, the latches and the gates. Each wire that is read is looked up once, in the order of the reads, and the first
/// clock among them is noted. The gates are taken out of the lines.
fn fill_lines(
    alloc: Global,
    drivers: &Drivers,
    top: &BlifModel,
    lines: &mut FlatBody,
    parts: &mut Parts,
    clock: &mut Option<Name>,
) -> Result<(), FlatFault>
    requires signals { HasSignals drivers.now }
    requires name { parts.old.name ≡ top.now.name }
    requires inputs { parts.old.inputs ≡ top.now.inputs }
    requires clock { parts.old.clock ≡ first_control_by lines.old.latches.items }
    ensures parts { OnOk result (parts.new ≡ netlist_by (sig_or drivers.now) top.now (lines_of lines.old)) }
    ensures latches { lines.new.latches.items ≡ lines.old.latches.items }
    ensures read { OnOk result (AreRead drivers.now (reads top.now (lines_of lines.old)) clock.old clock.new) }
    ensures fault { IfErr result (λ fault. (fault ≡ FlatFault.Memory)
        ⊎ (undriven_among drivers.now (reads top.now (lines_of lines.old)) ≡ Some fault)) }
{
    parts.outputs = Items::of(read_all(alloc, drivers, top.outputs.items(), clock)?);
    parts.latches = Items::of(flat_latches(alloc, drivers, &lines.latches, clock)?);
    let gates = mem::replace(&mut lines.gates, Vec::new(alloc));
    parts.gates = Items::of(flat_gates(alloc, drivers, gates, clock)?);
    Ok(())
}

/// That the controls are one clock of the top, and that no clock was read.
fn check_clocks(top: &BlifModel, latches: &[LatchLine], read: Option<Name>) -> Result<(), FlatFault>
    ensures fits { OnOk result (option_or (bad_clock_among top.now latches.now) (option_map FlatFault.ClockRead read) ≡ None) }
    ensures fault { IfErr result (λ fault. (fault ≡ FlatFault.Memory)
        ⊎ (option_or (bad_clock_among top.now latches.now) (option_map FlatFault.ClockRead read) ≡ Some fault)) }
{
    if let Some(latch) = first_bad_clock(top, latches) {
        return Err(FlatFault::BadClock {
            name: latch.output.copy()?,
        });
    }
    match read {
        Some(name) => Err(FlatFault::ClockRead { name }),
        None => Ok(()),
    }
}

/// Gives parts that have the top's name all else. The controls are to be one clock of the top, and no clock is to be read.
fn fill_parts(
    alloc: Global,
    drivers: &Drivers,
    top: &BlifModel,
    lines: &mut FlatBody,
    parts: &mut Parts,
) -> Result<(), FlatFault>
    requires drivers { IsDriversOf top.now (lines_of lines.old) drivers.now }
    requires once { option_or (declared_twice top.now) (driven_twice top.now (lines_of lines.old)) ≡ None }
    requires signals { HasSignals drivers.now }
    requires name { parts.old.name ≡ top.now.name }
    ensures parts { OnOk result (linked top.now (lines_of lines.old) ≡ Ok parts.new) }
    ensures fault { IfErr result
        (λ fault. (fault ≡ FlatFault.Memory) ⊎ (linked top.now (lines_of lines.old) ≡ Err fault)) }
{
    fill_ports(alloc, top, &lines.latches, parts)?;
    let mut clock = None;
    fill_lines(alloc, drivers, top, lines, parts, &mut clock)?;
    check_clocks(top, &lines.latches, clock)
}

/// The parts of the netlist of these lines, which have these drivers, or their first fault behind that of the drivers.
fn parts_of(
    alloc: Global,
    drivers: &Drivers,
    top: &BlifModel,
    lines: &mut FlatBody,
) -> Result<Parts, FlatFault>
    requires drivers { IsDriversOf top.now (lines_of lines.old) drivers.now }
    requires once { option_or (declared_twice top.now) (driven_twice top.now (lines_of lines.old)) ≡ None }
    requires signals { HasSignals drivers.now }
    ensures parts { IfOk result (λ parts. linked top.now (lines_of lines.old) ≡ Ok parts) }
    ensures fault { IfErr result
        (λ fault. (fault ≡ FlatFault.Memory) ⊎ (linked top.now (lines_of lines.old) ≡ Err fault)) }
{
    let mut parts = named_parts(alloc, top.name.copy()?);
    fill_parts(alloc, drivers, top, lines, &mut parts)?;
    Ok(parts)
}

/// The parts of the netlist of these lines, or their first fault.
pub(crate) fn link(alloc: Global, top: &BlifModel, mut lines: FlatBody) -> Result<Parts, FlatFault>
    requires inputs { length top.now.inputs ≤ 4000000000 }
    requires lines { length lines.latches.items + length lines.gates.items ≤ MAX_FLAT_ITEMS }
    ensures parts { IfOk result (λ parts. linked top.now (lines_of lines) ≡ Ok parts) }
    ensures fault { IfErr result
        (λ fault. (fault ≡ FlatFault.Memory) ⊎ (linked top.now (lines_of lines) ≡ Err fault)) }
{
    let drivers = drivers_of(alloc, top, &lines)?;
    parts_of(alloc, &drivers, top, &mut lines)
}

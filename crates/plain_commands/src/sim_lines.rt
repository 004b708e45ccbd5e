// Ternary simulation, tick by tick.
ghost use Rattle.std.specs.Prelude.{◌≡◌, ◌+◌, ◌++◌, ◌<◌, IfOk, OnOk, All, List, length};
ghost use Rattle.cyc_base.specs.declared.trit.Trit.{Trit as TritValue};
ghost use Rattle.cyc_io.specs.Text.{text_bytes};
ghost use Rattle.report.specs.Ticks.{tick_text};
ghost use Rattle.simulation.specs.Simulators.{IsSimulatorOf};
ghost use Rattle.plain_commands.specs.Simulation.{sim_text, start_value, start_values, tick_lines};

use cyc_base::{Trit, Trits};
use cyc_io::TextSink;
use netlist::{Init, Netlist};
use report::put_tick;
use simulation::Simulator;
use std::alloc::{AllocError, Global};

fn start_of(init: Init) -> Trit
    ensures { result ≡ start_value init }
{
    match init {
        Init::Zero => Trit::Zero,
        Init::One => Trit::One,
        Init::Either => Trit::X,
    }
}

// What the latches start with.
fn start(alloc: Global, net: &Netlist) -> Result<Vec<Trit>, AllocError>
    ensures { IfOk result (λ values. values.items ≡ start_values net.now) }
{
    let mut values = Vec::with_capacity(alloc, net.latches() as usize)?;
    for number in 0..net.latches() {
        values.push(start_of(net.latch(number).init))?;
    }
    Ok(values)
}

fn put_line(tick: u64, outputs: &[Trit], sink: &mut TextSink) -> Result<(), AllocError>
    ensures { OnOk result (text_bytes sink.new ≡ text_bytes sink.old ++ tick_text tick outputs.now) }
{
    match put_tick(tick, outputs, sink) {
        Ok(()) => Ok(()),
        Err(_) => Err(AllocError),
    }
}

// Appends the lines of the ticks of these vectors, where the latches have these values at first.
fn put_all(
    alloc: Global,
    net: &Netlist,
    simulator: &mut Simulator,
    vectors: &[Trits],
    latches: &mut Vec<Trit>,
    sink: &mut TextSink,
) -> Result<(), AllocError>
    requires simulator { IsSimulatorOf net.now simulator.old }
    requires vectors { All (λ (vector : List TritValue). length vector ≡ length net.now.inputs) vectors.now }
    requires latches { length latches.old.items ≡ length net.now.latches }
    ensures { OnOk result (text_bytes sink.new ≡ text_bytes sink.old ++ tick_lines net.now 1 latches.old.items vectors.now) }
{
    let mut outputs = Vec::new(alloc);
    for i in 0..vectors.len() {
        simulator.tick_into(alloc, net, vectors[i].items(), latches, &mut outputs)?;
        put_line(i as u64 + 1, &outputs, sink)?;
    }
    Ok(())
}

// The same, where the latches have what they start with.
fn put_from_start(
    alloc: Global,
    net: &Netlist,
    simulator: &mut Simulator,
    vectors: &[Trits],
    sink: &mut TextSink,
) -> Result<(), AllocError>
    requires simulator { IsSimulatorOf net.now simulator.old }
    requires vectors { All (λ (vector : List TritValue). length vector ≡ length net.now.inputs) vectors.now }
    ensures { OnOk result (text_bytes sink.new ≡ text_bytes sink.old ++ sim_text net.now vectors.now) }
{
    let mut latches = start(alloc, net)?;
    put_all(alloc, net, simulator, vectors, &mut latches, sink)
}

fn put_ticks(
    alloc: Global,
    net: &Netlist,
    vectors: &[Trits],
    sink: &mut TextSink,
) -> Result<(), AllocError>
    requires { All (λ (vector : List TritValue). length vector ≡ length net.now.inputs) vectors.now }
    ensures { OnOk result (text_bytes sink.new ≡ text_bytes sink.old ++ sim_text net.now vectors.now) }
{
    let mut simulator = Simulator::of(alloc, net)?;
    put_from_start(alloc, net, &mut simulator, vectors, sink)
}

// The lines of a simulation.
pub(crate) fn simulate(
    alloc: Global,
    net: &Netlist,
    vectors: &[Trits],
) -> Result<Vec<u8>, AllocError>
    requires { All (λ (vector : List TritValue). length vector ≡ length net.now.inputs) vectors.now }
    ensures { IfOk result (λ text. text.items ≡ sim_text net.now vectors.now) }
{
    let mut sink = TextSink::new(alloc);
    put_ticks(alloc, net, vectors, &mut sink)?;
    Ok(sink.into_vec())
}

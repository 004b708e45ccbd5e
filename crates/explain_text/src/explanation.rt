// The text of why a gate is undetermined.
ghost use Rattle.std.specs.Prelude.{◌≡◌, ◌≤◌, ◌<◌, ◌++◌, All, length, slice_index_or};
ghost use Rattle.cyc_io.specs.Taken.{IsAppended, sink_call};
ghost use Rattle.cyc_base.specs.declared.trit.Trit.TheVariants.{X};
ghost use Rattle.explanations.specs.declared.pins.Pin.TheVariants.{Free};
ghost use Rattle.netlist.specs.Netlists.{count};
ghost use Rattle.refusals.specs.Refusals.{IsRefusalOf};
ghost use Rattle.report.specs.Verdicts.{refusal_text};
ghost use Rattle.explain_text.specs.Explanations.{gates_line, needed_text, needed_column, needed_columns, values_line, side_text, side_of, all_sides, sides_line, cycle_lines, way_lines, way_text, explanation_text};
ghost use Rattle.dot_text.specs.ExplanationGraphs.{IsExplanationOf};

use cyc_base::{Name, Sig, Trit};
use cyc_io::{Failed, Sink, put_three, write_whole};
use explanations::{Explanation, Pin};
use netlist::Netlist;
use refusals::Refusal;
use report::{put_column, put_gate_names, put_refusal};

fn put_gates<K: Sink>(sink: &mut K, word: &[u8], net: &Netlist, gates: &[u32]) -> Result<(), Failed>
    requires { All (λ gate. gate < length net.now.gates) gates.now }
    ensures { IsAppended (gates_line word.now net.now gates.now) (sink_call K.put K.faults sink.old sink.new) result }
{
    write_whole(sink, word)?;
    put_gate_names(sink, net, gates)?;
    write_whole(sink, b"\n")
}

// The value of a column, where it is needed.
#[tactic(auto, using(cyc_io::proofs::TakenLemmas::appended_none))]
fn put_needed<K: Sink>(sink: &mut K, name: &Name, value: Trit) -> Result<(), Failed>
    ensures { IsAppended (needed_text name.now value) (sink_call K.put K.faults sink.old sink.new) result }
{
    match value {
        Trit::Zero => put_column(sink, name, false),
        Trit::One => put_column(sink, name, true),
        Trit::X => Ok(()),
    }
}

fn value_at(needs: &[Trit], column: usize) -> Trit
    requires { column < length needs.now }
    ensures { result ≡ slice_index_or needs.now column X }
{
    needs[column]
}

fn put_needed_column<K: Sink>(
    sink: &mut K,
    net: &Netlist,
    needs: &[Trit],
    column: usize,
) -> Result<(), Failed>
    requires fits { length needs.now ≤ count net.now }
    requires column { column < length needs.now }
    ensures { IsAppended (needed_column net.now needs.now column) (sink_call K.put K.faults sink.old sink.new) result }
{
    net.laws();
    put_needed(
        sink,
        net.name_of(Sig(column as u32)),
        value_at(needs, column),
    )
}

fn put_needed_columns<K: Sink>(sink: &mut K, net: &Netlist, needs: &[Trit]) -> Result<(), Failed>
    requires fits { length needs.now ≤ count net.now }
    ensures { IsAppended (needed_columns net.now needs.now) (sink_call K.put K.faults sink.old sink.new) result }
{
    for column in 0..needs.len() {
        put_needed_column(sink, net, needs, column)?;
    }
    Ok(())
}

// Values of columns behind a word.
fn put_values<K: Sink>(
    sink: &mut K,
    word: &[u8],
    net: &Netlist,
    values: &[Trit],
) -> Result<(), Failed>
    requires fits { length values.now ≤ count net.now }
    ensures { IsAppended (values_line word.now net.now values.now) (sink_call K.put K.faults sink.old sink.new) result }
{
    write_whole(sink, word)?;
    put_needed_columns(sink, net, values)?;
    write_whole(sink, b"\n")
}

// What a signal beside the cycle is, where that is needed.
#[tactic(auto, using(cyc_io::proofs::TakenLemmas::appended_none))]
fn put_side<K: Sink>(sink: &mut K, name: &Name, side: Pin) -> Result<(), Failed>
    ensures { IsAppended (side_text name.now side) (sink_call K.put K.faults sink.old sink.new) result }
{
    match side {
        Pin::Known(bit) => put_column(sink, name, bit),
        Pin::Open => put_three(sink, b" ", name.bytes(), b"=x"),
        Pin::Free => Ok(()),
    }
}

fn side_at(sides: &[Pin], signal: usize) -> Pin
    requires { signal < length sides.now }
    ensures { result ≡ slice_index_or sides.now signal Free }
{
    sides[signal]
}

fn put_side_of<K: Sink>(
    sink: &mut K,
    net: &Netlist,
    sides: &[Pin],
    signal: usize,
) -> Result<(), Failed>
    requires fits { length sides.now ≤ count net.now }
    requires signal { signal < length sides.now }
    ensures { IsAppended (side_of net.now sides.now signal) (sink_call K.put K.faults sink.old sink.new) result }
{
    net.laws();
    put_side(
        sink,
        net.name_of(Sig(signal as u32)),
        side_at(sides, signal),
    )
}

fn put_sides<K: Sink>(sink: &mut K, net: &Netlist, sides: &[Pin]) -> Result<(), Failed>
    requires fits { length sides.now ≤ count net.now }
    ensures { IsAppended (all_sides net.now sides.now) (sink_call K.put K.faults sink.old sink.new) result }
{
    for signal in 0..sides.len() {
        put_side_of(sink, net, sides, signal)?;
    }
    Ok(())
}

fn put_sides_line<K: Sink>(sink: &mut K, net: &Netlist, sides: &[Pin]) -> Result<(), Failed>
    requires fits { length sides.now ≤ count net.now }
    ensures { IsAppended (sides_line net.now sides.now) (sink_call K.put K.faults sink.old sink.new) result }
{
    write_whole(sink, b"sides")?;
    put_sides(sink, net, sides)?;
    write_whole(sink, b"\n")
}

// The cycle, and what holds it open: the wires beside it, and the columns.
fn put_cycle<K: Sink>(sink: &mut K, net: &Netlist, why: &Explanation) -> Result<(), Failed>
    requires why { IsExplanationOf net.now why.now }
    ensures { IsAppended (cycle_lines net.now why.now) (sink_call K.put K.faults sink.old sink.new) result }
{
    put_gates(sink, b"cycle", net, why.cycle.items())?;
    put_sides_line(sink, net, why.sides.items())?;
    put_values(sink, b"needs", net, why.needs.items())
}

fn put_way_lines<K: Sink>(
    sink: &mut K,
    net: &Netlist,
    way: &[u32],
    also: &[Trit],
) -> Result<(), Failed>
    requires way { All (λ gate. gate < length net.now.gates) way.now }
    requires also { length also.now ≤ count net.now }
    ensures { IsAppended (way_lines net.now way.now also.now) (sink_call K.put K.faults sink.old sink.new) result }
{
    put_gates(sink, b"reaches", net, way)?;
    put_values(sink, b"also", net, also)
}

// The way from the cycle, where there is one, and the further columns that hold it open.
#[tactic(auto, using(cyc_io::proofs::TakenLemmas::appended_none))]
fn put_way<K: Sink>(sink: &mut K, net: &Netlist, way: &[u32], also: &[Trit]) -> Result<(), Failed>
    requires way { All (λ gate. gate < length net.now.gates) way.now }
    requires also { length also.now ≤ count net.now }
    ensures { IsAppended (way_text net.now way.now also.now) (sink_call K.put K.faults sink.old sink.new) result }
{
    match way {
        [] => Ok(()),
        _ => put_way_lines(sink, net, way, also),
    }
}

// The cycle and what holds it open, and the way from it to the gate where it isn't on it.
fn put_explanation<K: Sink>(net: &Netlist, why: &Explanation, sink: &mut K) -> Result<(), Failed>
    requires why { IsExplanationOf net.now why.now }
    ensures { IsAppended (explanation_text net.now why.now) (sink_call K.put K.faults sink.old sink.new) result }
{
    put_cycle(sink, net, why)?;
    put_way(sink, net, why.way.items(), why.also.items())
}

/// Appends the text of a refusal, and behind it the lines of why a gate is undetermined: a cycle of gates, with the wires
/// beside it and the columns that hold it open, and the way from it to the gate where this isn't on it, with the further
/// columns that hold this open. It takes no memory.
pub fn put_explained<K: Sink>(
    net: &Netlist,
    refusal: &Refusal,
    why: &Explanation,
    sink: &mut K,
) -> Result<(), Failed>
    requires refusal { IsRefusalOf net.now refusal.now }
    requires why { IsExplanationOf net.now why.now }
    ensures { IsAppended (refusal_text net.now refusal.now ++ explanation_text net.now why.now) (sink_call K.put K.faults sink.old sink.new) result }
{
    put_refusal(net, refusal, sink)?;
    put_explanation(net, why, sink)
}

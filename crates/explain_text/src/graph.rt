//! The graph of loops.

ghost use Rattle.std.specs.Prelude.{◌≡◌, ◌<◌, ◌++◌, All, IfOk, OnOk, codes, length};
ghost use Rattle.care_sets.specs.Care.{CareSet};
ghost use Rattle.cyc_io.specs.Text.{text_bytes};
ghost use Rattle.dot_text.specs.Dot.{graph_head};
ghost use Rattle.dot_text.specs.LoopGraphs.{cut_cluster, labelled_cluster};
ghost use Rattle.loops.specs.Found.{loops_of};
ghost use Rattle.loops.specs.Left.{loop_seen};
ghost use Rattle.loops.specs.Numbered.{IsLoopOf};
ghost use Rattle.loop_simulation.specs.Sweeping.{sweeps_needed, AreSweepsOnCare};
ghost use Rattle.unroll.specs.Counted.{counted_sweeps};
ghost use Rattle.explain_text.specs.Graphs.{short_cluster, told_cluster, told_clusters, told_graph, whole_cluster};
ghost use Rattle.explain_text.specs.Lines.{sweeps_line, told_lines};

use crate::lines::{put_sweeps_line, tell_loop};
use cyc_io::{TextSink, write_whole};
use dot_text::{open_graph, put_cut_cluster, put_labelled_cluster};
use loops::{ListedLoop, LoopedNetlist};
use std::alloc::{AllocError, Global};
use unroll::CountedLoops;

// The most gates of a loop that are drawn.
const MOST_DRAWN: usize = 32;

// The lines of a loop.
fn lines_of(
    alloc: Global,
    counted: &CountedLoops<'_>,
    listed: ListedLoop<'_>,
) -> Result<Vec<u8>, AllocError>
    requires { IsLoopOf counted.now.net (loop_seen listed) }
    ensures { IfOk result (λ text. text.items ≡ told_lines counted.now.net (counted_sweeps counted.now) listed.entry.number listed.entry.first) }
{
    let mut sink = TextSink::new(alloc);
    tell_loop(alloc, counted, listed, &mut sink)?;
    Ok(sink.into_vec())
}

// A cluster with this label.
fn tell_labelled(
    looped: &LoopedNetlist<'_>,
    number: u32,
    label: &[u8],
    gates: &[u32],
    sink: &mut TextSink,
) -> Result<(), AllocError>
    requires { All (λ gate. gate < length looped.now.net.gates) gates.now }
    ensures { OnOk result (text_bytes sink.new ≡ text_bytes sink.old ++ labelled_cluster looped.now.net (loops_of looped.now.net) number label.now gates.now) }
{
    if put_labelled_cluster(looped, number, label, gates, sink).is_err() {
        return Err(AllocError);
    }
    Ok(())
}

// The cluster of a loop, with its gates.
fn tell_whole(
    alloc: Global,
    counted: &CountedLoops<'_>,
    listed: ListedLoop<'_>,
    sink: &mut TextSink,
) -> Result<(), AllocError>
    requires { IsLoopOf counted.now.net (loop_seen listed) }
    ensures { OnOk result (text_bytes sink.new ≡ text_bytes sink.old ++ whole_cluster counted.now.net (counted_sweeps counted.now) listed.entry.number listed.entry.first) }
{
    let lines = lines_of(alloc, counted, listed)?;
    tell_labelled(counted.looped(), listed.number, &lines, listed.gates, sink)
}

// The line of the sweeps that a loop needs.
fn sweeps_text(
    alloc: Global,
    counted: &CountedLoops<'_>,
    listed: ListedLoop<'_>,
) -> Result<Vec<u8>, AllocError>
    requires { IsLoopOf counted.now.net (loop_seen listed) }
    ensures { IfOk result (λ text. text.items ≡ sweeps_line listed.entry.number (counted_sweeps counted.now listed.entry.first)) }
{
    let count = counted.sweeps_of(listed.first);
    let mut sink = TextSink::new(alloc);
    match put_sweeps_line(&mut sink, listed.number, count) {
        Ok(()) => Ok(sink.into_vec()),
        Err(_) => Err(AllocError),
    }
}

// A cluster of cut wires with this label.
fn tell_cuts(
    looped: &LoopedNetlist<'_>,
    number: u32,
    label: &[u8],
    gates: &[u32],
    sink: &mut TextSink,
) -> Result<(), AllocError>
    requires { All (λ gate. gate < length looped.now.net.gates) gates.now }
    ensures { OnOk result (text_bytes sink.new ≡ text_bytes sink.old ++ cut_cluster looped.now.net (loops_of looped.now.net) number label.now gates.now) }
{
    if put_cut_cluster(looped, number, label, gates, sink).is_err() {
        return Err(AllocError);
    }
    Ok(())
}

// The cluster of a loop, with its cut wires.
fn tell_short(
    alloc: Global,
    counted: &CountedLoops<'_>,
    listed: ListedLoop<'_>,
    sink: &mut TextSink,
) -> Result<(), AllocError>
    requires { IsLoopOf counted.now.net (loop_seen listed) }
    ensures { OnOk result (text_bytes sink.new ≡ text_bytes sink.old ++ short_cluster counted.now.net (counted_sweeps counted.now) listed.entry.number listed.entry.first) }
{
    let line = sweeps_text(alloc, counted, listed)?;
    tell_cuts(counted.looped(), listed.number, &line, listed.gates, sink)
}

// The cluster of a loop.
#[tactic(auto, using(crate::proofs::GraphLemmas::short_told, crate::proofs::GraphLemmas::whole_told))]
fn tell_cluster(
    alloc: Global,
    counted: &CountedLoops<'_>,
    listed: ListedLoop<'_>,
    sink: &mut TextSink,
) -> Result<(), AllocError>
    requires { IsLoopOf counted.now.net (loop_seen listed) }
    ensures { OnOk result (text_bytes sink.new ≡ text_bytes sink.old ++ told_cluster counted.now.net (counted_sweeps counted.now) listed.entry.number listed.entry.first) }
{
    if listed.gates.len() > MOST_DRAWN {
        tell_short(alloc, counted, listed, sink)
    } else {
        tell_whole(alloc, counted, listed, sink)
    }
}

// The clusters of all loops.
fn tell_clusters(
    alloc: Global,
    counted: &CountedLoops<'_>,
    sink: &mut TextSink,
) -> Result<(), AllocError>
    ensures told { OnOk result (text_bytes sink.new ≡ text_bytes sink.old ++ told_clusters counted.now.net (counted_sweeps counted.now)) }
    ensures on_care { OnOk result ((care : CareSet) → AreSweepsOnCare counted.now.net counted.now.blocks counted.now.cut care counted.now.sweeps → text_bytes sink.new ≡ text_bytes sink.old ++ told_clusters counted.now.net (sweeps_needed counted.now.net care)) }
{
    let looped = counted.looped();
    for listed in looped.in_order() {
        tell_cluster(alloc, counted, listed, sink)?;
    }
    Ok(())
}

// What stands before the clusters.
fn tell_head(label: &[u8], sink: &mut TextSink) -> Result<(), AllocError>
    ensures { OnOk result (text_bytes sink.new ≡ text_bytes sink.old ++ graph_head label.now) }
{
    if open_graph(sink, label).is_err() {
        return Err(AllocError);
    }
    Ok(())
}

// And behind them.
fn tell_end(sink: &mut TextSink) -> Result<(), AllocError>
    ensures { OnOk result (text_bytes sink.new ≡ text_bytes sink.old ++ codes "}\n") }
{
    if write_whole(sink, b"}\n").is_err() {
        return Err(AllocError);
    }
    Ok(())
}

/// Appends a graph with this text as its label, which has a cluster for each loop of a netlist, in the order of their first
/// gates. The label of a cluster has the lines that `tell_loops` tells of its loop. A loop of over 32 gates is drawn by its
/// cut wires and the number of the gates between, and its label has the line of its sweeps alone.
///
/// It takes time in proportion to the loops times the gates and pins.
///
/// # Errors
///
/// `AllocError` for want of memory alone.
pub fn tell_loops_graph(
    alloc: Global,
    counted: &CountedLoops<'_>,
    label: &[u8],
    sink: &mut TextSink,
) -> Result<(), AllocError>
    ensures told { OnOk result (text_bytes sink.new ≡ text_bytes sink.old ++ told_graph counted.now.net label.now (counted_sweeps counted.now)) }
    ensures on_care { OnOk result ((care : CareSet) → AreSweepsOnCare counted.now.net counted.now.blocks counted.now.cut care counted.now.sweeps → text_bytes sink.new ≡ text_bytes sink.old ++ told_graph counted.now.net label.now (sweeps_needed counted.now.net care)) }
{
    tell_head(label, sink)?;
    tell_clusters(alloc, counted, sink)?;
    tell_end(sink)
}

//! The lines of loops.

ghost use Rattle.std.specs.Prelude.{◌≡◌, ◌<◌, ◌++◌, OnOk, [], if◌then◌else◌, length};
ghost use Rattle.std.specs.List.{flat_map};
ghost use Rattle.care_sets.specs.Care.{CareSet};
ghost use Rattle.cyc_io.specs.Taken.{IsAppended, sink_call};
ghost use Rattle.cyc_io.specs.Text.{text_bytes};
ghost use Rattle.loops.specs.Sweeps.{first_gate};
ghost use Rattle.loops.specs.Left.{loop_seen};
ghost use Rattle.loops.specs.Numbered.{IsLoopOf};
ghost use Rattle.netlist.specs.Netlists.{signal, is_marked, signal_name};
ghost use Rattle.report.specs.LoopTexts.{loop_lines};
ghost use Rattle.loop_simulation.specs.Sweeping.{sweeps_needed, AreSweepsOnCare};
ghost use Rattle.unroll.specs.Counted.{counted_sweeps};
ghost use Rattle.explain_text.specs.Columns.{marked_columns, AreColumnsRead};
ghost use Rattle.explain_text.specs.Lines.{column_name as column_text, columns_line, sweeps_line, told_lines, told_loops};

use crate::columns::columns_read;
use cyc_base::{Name, Sig};
use cyc_io::{Failed, Sink, TextSink, put_numbered, put_two, write_whole};
use loops::{ListedLoop, LoopedNetlist};
use netlist::Netlist;
use report::put_loop;
use std::alloc::{AllocError, Global};
use unroll::CountedLoops;

fn column_name(net: &Netlist, column: u32) -> &Name
    requires { column < first_gate net.now }
    ensures { result.now ≡ signal_name net.now (signal column) }
{
    net.name_of(Sig(column))
}

fn put_name<K: Sink>(sink: &mut K, net: &Netlist, column: u32) -> Result<(), Failed>
    requires { column < first_gate net.now }
    ensures { IsAppended (column_text net.now column) (sink_call K.put K.faults sink.old sink.new) result }
{
    put_two(sink, b" ", column_name(net, column).bytes())
}

// The name of a column, where it is marked.
#[tactic(auto, using(cyc_io::proofs::TakenLemmas::appended_none))]
fn put_column<K: Sink>(
    sink: &mut K,
    net: &Netlist,
    read: &[bool],
    column: u32,
) -> Result<(), Failed>
    requires width { length read.now ≡ first_gate net.now }
    requires column { column < first_gate net.now }
    ensures { IsAppended (if is_marked read.now column then column_text net.now column else []) (sink_call K.put K.faults sink.old sink.new) result }
{
    if read[column as usize] {
        put_name(sink, net, column)
    } else {
        Ok(())
    }
}

// The names of the marked columns.
fn put_columns<K: Sink>(sink: &mut K, net: &Netlist, read: &[bool]) -> Result<(), Failed>
    requires { length read.now ≡ first_gate net.now }
    ensures { IsAppended (flat_map (column_text net.now) (marked_columns net.now read.now)) (sink_call K.put K.faults sink.old sink.new) result }
{
    for column in 0..net.columns() {
        put_column(sink, net, read, column)?;
    }
    Ok(())
}

fn put_columns_line<K: Sink>(
    sink: &mut K,
    net: &Netlist,
    number: u32,
    read: &[bool],
) -> Result<(), Failed>
    requires { length read.now ≡ first_gate net.now }
    ensures { IsAppended (columns_line net.now number (marked_columns net.now read.now)) (sink_call K.put K.faults sink.old sink.new) result }
{
    put_numbered(sink, b"loop ", number)?;
    write_whole(sink, b" columns")?;
    put_columns(sink, net, read)?;
    write_whole(sink, b"\n")
}

pub(crate) fn put_sweeps_line<K: Sink>(sink: &mut K, number: u32, sweeps: u32) -> Result<(), Failed>
    ensures { IsAppended (sweeps_line number sweeps) (sink_call K.put K.faults sink.old sink.new) result }
{
    put_numbered(sink, b"loop ", number)?;
    put_numbered(sink, b" sweeps ", sweeps)?;
    write_whole(sink, b"\n")
}

// The lines of a loop that needs so many sweeps and speaks of the marked columns.
fn put_told<K: Sink>(
    sink: &mut K,
    looped: &LoopedNetlist<'_>,
    listed: ListedLoop<'_>,
    sweeps: u32,
    read: &[bool],
) -> Result<(), Failed>
    requires listed { IsLoopOf looped.now.net (loop_seen listed) }
    requires read { length read.now ≡ first_gate looped.now.net }
    ensures { IsAppended (loop_lines looped.now.net listed.entry.number listed.entry.first
        ++ (sweeps_line listed.entry.number sweeps ++ columns_line looped.now.net listed.entry.number (marked_columns looped.now.net read.now))) (sink_call K.put K.faults sink.old sink.new) result }
{
    put_loop(sink, looped, listed)?;
    put_sweeps_line(sink, listed.number, sweeps)?;
    put_columns_line(sink, looped.net(), listed.number, read)
}

// The lines of a loop that speaks of the marked columns.
fn put_loop_told<K: Sink>(
    sink: &mut K,
    counted: &CountedLoops<'_>,
    listed: ListedLoop<'_>,
    read: &[bool],
) -> Result<(), Failed>
    requires listed { IsLoopOf counted.now.net (loop_seen listed) }
    requires read { AreColumnsRead counted.now.net listed.first read.now }
    ensures { IsAppended (told_lines counted.now.net (counted_sweeps counted.now) listed.entry.number listed.entry.first) (sink_call K.put K.faults sink.old sink.new) result }
{
    let sweeps = counted.sweeps_of(listed.first);
    put_told(sink, counted.looped(), listed, sweeps, read)
}

// The lines of a loop.
pub(crate) fn tell_loop(
    alloc: Global,
    counted: &CountedLoops<'_>,
    listed: ListedLoop<'_>,
    sink: &mut TextSink,
) -> Result<(), AllocError>
    requires { IsLoopOf counted.now.net (loop_seen listed) }
    ensures { OnOk result (text_bytes sink.new ≡ text_bytes sink.old ++ told_lines counted.now.net (counted_sweeps counted.now) listed.entry.number listed.entry.first) }
{
    let read = columns_read(alloc, counted.looped(), listed.first)?;
    if put_loop_told(sink, counted, listed, &read).is_err() {
        return Err(AllocError);
    }
    Ok(())
}

/// Appends the lines of all loops of a netlist, in the order of their first gates: for each those of `loops`, then how many
/// sweeps it needs, then the columns that are read by a gate of it or by what drives it.
///
/// It takes time in proportion to the loops times the gates and pins.
///
/// # Errors
///
/// `AllocError` for want of memory alone.
pub fn tell_loops(
    alloc: Global,
    counted: &CountedLoops<'_>,
    sink: &mut TextSink,
) -> Result<(), AllocError>
    ensures told { OnOk result (text_bytes sink.new ≡ text_bytes sink.old ++ told_loops counted.now.net (counted_sweeps counted.now)) }
    ensures on_care { OnOk result ((care : CareSet) → AreSweepsOnCare counted.now.net counted.now.blocks counted.now.cut care counted.now.sweeps → text_bytes sink.new ≡ text_bytes sink.old ++ told_loops counted.now.net (sweeps_needed counted.now.net care)) }
{
    let looped = counted.looped();
    for listed in looped.in_order() {
        tell_loop(alloc, counted, listed, sink)?;
    }
    Ok(())
}

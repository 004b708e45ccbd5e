ghost use Rattle.std.specs.Prelude.{map, All, OnOk};
ghost use Rattle.cyc_io.specs.Taken.{IsAppended, sink_call};
ghost use Rattle.netlist.specs.Netlists.{IsNetlist};
ghost use Rattle.blif_write.specs.Laws.{HasCovers, IsSmall, FitOneText, ReadsBack, EachReadsBack};
ghost use Rattle.blif_write.specs.Written.{written, models_written};

use crate::gates::put_gates;
use crate::latches::put_latches;
use crate::names::put_head;
use cyc_io::{Failed, Sink, write_whole};
use netlist::Netlist;

/// Appends the lines of a netlist.
fn put_netlist<K: Sink>(sink: &mut K, net: &Netlist) -> Result<(), Failed>
    ensures text { IsAppended (written net.now) (sink_call K.put K.faults sink.old sink.new) result }
    ensures covers { OnOk result (HasCovers net.now) }
    ensures valid { OnOk result (IsNetlist net.now) }
{
    put_head(sink, net)?;
    put_latches(sink, net)?;
    put_gates(sink, net)?;
    write_whole(sink, b".end\n")
}

/// Appends the BLIF text of a netlist: one model of its name, with its latches and then its gates in their order
/// (the Berkeley BLIF manual). A line whose last word ends in `\` has a blank behind it, so that it doesn't go on
/// in the next line. It takes no memory.
///
/// `Failed` comes only where the sink failed; the sink has then taken a prefix of the text. A text of at most
/// 4,000,000 latches and gates reads back as the netlist.
pub fn write<K: Sink>(net: &Netlist, sink: &mut K) -> Result<(), Failed>
    ensures text { IsAppended (written net.now) (sink_call K.put K.faults sink.old sink.new) result }

    // It is read without a fault, and flattening its model gives the netlist again.
    ensures reads_back { OnOk result (IsSmall net.now → ReadsBack net.now) }
{
    put_netlist(sink, net)
}

/// Appends the texts of these netlists, one after another: a text of as many models, as a care file is.
///
/// `Failed` comes only where the sink failed; the sink has then taken a prefix of the text. Where the names differ
/// and each netlist has at most 4,000,000 latches and gates, each of them reads back by its name.
pub fn write_models<K: Sink>(nets: &[&Netlist], sink: &mut K) -> Result<(), Failed>
    ensures text { IsAppended (models_written (map (λ net. net.now) nets.now)) (sink_call K.put K.faults sink.old sink.new) result }
    ensures reads_back { OnOk result (FitOneText (map (λ net. net.now) nets.now) → EachReadsBack (map (λ net. net.now) nets.now)) }
{
    for net in nets {
        put_netlist(sink, net)?;
    }
    Ok(())
}

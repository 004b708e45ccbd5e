//! Covers of netlists.

ghost use Rattle.netlist.specs.Netlists.{IsNetlist};
ghost use Rattle.blif_write.specs.Laws.{HasCovers};

use netlist::Netlist;

/// Each gate's cover has a literal for each pin in each row. It is read gate by gate.
pub(crate) fn have_covers(net: &Netlist)
    ensures covers { HasCovers net.now }
    ensures valid { IsNetlist net.now }
{
    for i in 0..net.gates() {
        net.gate(i).cover.pins();
    }
}

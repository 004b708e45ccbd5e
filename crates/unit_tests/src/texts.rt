//! Netlists and care sets by their BLIF texts.

ghost use Rattle.std.specs.Prelude.{IfOk};
ghost use Rattle.care_sets.specs.Binding.{IsCareOf};
ghost use Rattle.netlist.specs.Netlists.{IsNetlist};

use care_sets::Care;
use netlist::Netlist;
use parsed_files::{care_of, netlist_of};
use std::alloc::Global;
use std::test::Fail;

/// The netlist of a text.
pub fn net_of(alloc: Global, text: &[u8]) -> Result<Netlist, Fail>
    ensures { IfOk result IsNetlist }
{
    match netlist_of(alloc, text.to_vec(alloc)?) {
        Ok(net) => Ok(net),
        Err(_) => Err(Fail::from("a text is no netlist")),
    }
}

/// The care set of a text.
pub fn care_by(alloc: Global, net: &Netlist, text: &[u8]) -> Result<Care, Fail>
    ensures { IfOk result (IsCareOf net.now) }
{
    match care_of(alloc, net, text) {
        Ok(care) => Ok(care),
        Err(_) => Err(Fail::from("a text is no care set")),
    }
}

//! The laws of reading back, each the contract of a function that does nothing.

ghost use Rattle.std.specs.Prelude.{◌≡◌, Some};
ghost use Rattle.aig_core.specs.Answers.{FitsNetlist};
ghost use Rattle.aig_core.specs.Circuits.{circuit};
ghost use Rattle.aig_core.specs.Text.{aiger_text, binary_text};
ghost use Rattle.aig_core.specs.Reading.{read_ascii, read_binary};

use crate::building::Built;
use netlist::Netlist;

/// The texts of a netlist's graph in both forms say, by the rules of the format, the graph's circuit: its inputs, latches
/// with what they load and start with, outputs and ANDs, by their literals, and the names of inputs, latches and outputs.
pub fn texts_read_back(net: &Netlist, built: &Built)
    requires { FitsNetlist net.now built.now }
    ensures ascii { read_ascii (aiger_text net.now built.now) ≡ Some (circuit net.now built.now) }
    ensures binary { read_binary (binary_text net.now built.now) ≡ Some (circuit net.now built.now) }
{
    built.aig.laws();
    let _ = built.aig.inputs();
    let _ = built.aig.count();
    let _ = net.outputs();
}

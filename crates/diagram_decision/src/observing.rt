//! Which gates are observed.

ghost use Rattle.std.specs.Prelude.{◌≡◌, ◌++◌, ◌∷◌, [], List, length, IfOk};
ghost use Rattle.netlist.specs.Netlists.{IsNetlist, IsSignal};
ghost use Rattle.refusals.specs.Acceptance.{observed};
ghost use Rattle.diagram_decision.specs.Observed.{AreMarksOf};

use cyc_base::Sig;
use netlist::Netlist;
use refusals::Observe;
use std::alloc::{AllocError, Global};

/// Marks a signal, if it is a gate.
fn mark(net: &Netlist, marks: &mut [bool], signal: Sig)
    requires signal { IsSignal net.now signal }
    requires width { length marks.old ≡ length net.now.gates }
    ensures width { length marks.new ≡ length net.now.gates }
    ensures marks { (before : List Sig) → AreMarksOf net.now before marks.old → AreMarksOf net.now (before ++ signal ∷ []) marks.new }
{
    if let Some(gate) = net.driver(signal) {
        marks[gate as usize] = true;
    }
}

/// Marks what is seen from outside: the gates that outputs name, and those that latches load. Nothing is marked yet.
fn mark_outputs(net: &Netlist, marks: &mut [bool])
    requires { AreMarksOf net.now [] marks.old }
    ensures { AreMarksOf net.now (observed net.now Observe.Outputs) marks.new }
{
    for signal in net.outputs() {
        mark(net, marks, *signal);
    }
    for number in 0..net.latches() {
        mark(net, marks, net.latch(number).from);
    }
}

/// Which gates are observed, by number.
pub fn observed_gates(
    alloc: Global,
    net: &Netlist,
    observe: Observe,
) -> Result<Vec<bool>, AllocError>
    ensures marks { IfOk result (λ marks. AreMarksOf net.now (observed net.now observe) marks.items) }
    ensures valid { IsNetlist net.now }
{
    let gates = net.gates() as usize;
    match observe {
        Observe::All => Ok(vec![in alloc; true; gates]?),
        Observe::Outputs => {
            let mut marks = vec![in alloc; false; gates]?;
            mark_outputs(net, &mut marks);
            Ok(marks)
        }
    }
}

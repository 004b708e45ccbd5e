// The ring arbiter of so many cells, decided as a file is.
ghost use Rattle.std.specs.Prelude.{◌≡◌, ◌≤◌, Ok, IfOk, IfErr};
ghost use Rattle.care_sets.specs.Binding.{IsCareOf};
ghost use Rattle.commands.specs.Seen.{cells_seen};
ghost use Rattle.parsed_files.specs.CareFiles.{care_of as care_meant};
ghost use Rattle.parsed_files.specs.NetlistFiles.{netlist_of as netlist_meant};
ghost use Rattle.maker.specs.Faults.{AreTexts};
ghost use Rattle.maker.specs.Ring.{ring_text, care_text};
ghost use Rattle.netlist.specs.Netlists.{IsNetlist, columns};
ghost use Rattle.rewriting.specs.Graphs.{most_columns};
ghost use Rattle.cyc_tool.specs.Calls.{ComesOf};
ghost use Rattle.plain_commands.specs.Plans.{ring_care_file, ring_deciding, ring_deciding_on, ring_file};
ghost use Rattle.plain_commands.specs.Reading.{FollowsStill, IsStoppedBy};
ghost use Rattle.plain_commands.specs.Seen.{end_of, stop_outcome};

use crate::decision::{Task, tell_decision};
use bdd_ops::Diagrams;
use care_sets::Care;
use commands::{Cells, Making, Purpose};
use cyc_base::{DEFAULT_NODES, Name};
use maker::ring;
use netlist::Netlist;
use parsed_files::{care_of, netlist_of};
use plain_commands::{Outcome, Stop, or_stop, stop_at};
use refusals::Observe;
use std::alloc::{AllocError, Global};

// Both texts of the ring.
fn ring_texts(alloc: Global, cells: Cells) -> Result<(Vec<u8>, Vec<u8>), AllocError>
    ensures { IfOk result (λ texts. AreTexts (cells_seen cells) texts.0.items texts.1.items) }
{
    match ring(alloc, cells.number) {
        Ok(texts) => Ok(texts),
        Err(_) => Err(AllocError),
    }
}

fn ring_netlist(alloc: Global, text: Vec<u8>) -> Result<Netlist, Stop>
    ensures good { IfOk result (λ net. netlist_meant text.items ≡ Ok net) }
    ensures valid { IfOk result IsNetlist }
    ensures columns { IfOk result (λ net. columns net ≤ most_columns) }
    ensures bad { IfErr result (λ stop. IsStoppedBy ring_file (netlist_meant text.items) (stop_outcome stop)) }
{
    let file = Name::copied_from(alloc, b"ring.blif")?;
    match netlist_of(alloc, text) {
        Ok(net) => Ok(net),
        Err(error) => Err(stop_at(alloc, &file, error)),
    }
}

fn ring_care(alloc: Global, net: &Netlist, text: &[u8]) -> Result<Care, Stop>
    ensures good { IfOk result (λ care. care_meant net.now text.now ≡ Ok care) }
    ensures fits { IfOk result (IsCareOf net.now) }
    ensures bad { IfErr result (λ stop. IsStoppedBy ring_care_file (care_meant net.now text.now) (stop_outcome stop)) }
{
    let file = Name::copied_from(alloc, b"ring.care")?;
    match care_of(alloc, net, text) {
        Ok(care) => Ok(care),
        Err(error) => Err(stop_at(alloc, &file, error)),
    }
}

// Decides the ring arbiter's netlist on the care set of this text.
fn decide_ring_on(
    alloc: Global,
    cells: Cells,
    net: &Netlist,
    care: &[u8],
    d: &mut Diagrams,
) -> Result<Outcome, Stop>
    requires valid { IsNetlist net.now }
    requires columns { columns net.now ≤ most_columns }
    requires care { care.now ≡ care_text (cells_seen cells) }
    ensures { FollowsStill (ComesOf d.new) (ring_deciding_on (cells_seen cells) net.now) (end_of result) }
{
    let care = ring_care(alloc, net, care)?;
    let task = Task {
        limit: DEFAULT_NODES,
        observe: Observe::All,
        purpose: Purpose::Make(Making::Demonstrate(cells)),
    };
    or_stop(tell_decision(alloc, net, &care, task, d))
}

fn decide_ring(
    alloc: Global,
    cells: Cells,
    text: Vec<u8>,
    care: &[u8],
    d: &mut Diagrams,
) -> Result<Outcome, Stop>
    requires text { text.items ≡ ring_text (cells_seen cells) }
    requires care { care.now ≡ care_text (cells_seen cells) }
    ensures { FollowsStill (ComesOf d.new) (ring_deciding (cells_seen cells)) (end_of result) }
{
    let net = ring_netlist(alloc, text)?;
    decide_ring_on(alloc, cells, &net, care, d)
}

// Decides the ring arbiter of so many cells, and prints one line.
pub(crate) fn demo(alloc: Global, cells: Cells, d: &mut Diagrams) -> Result<Outcome, Stop>
    ensures { FollowsStill (ComesOf d.new) (ring_deciding (cells_seen cells)) (end_of result) }
{
    let (text, care) = ring_texts(alloc, cells)?;
    decide_ring(alloc, cells, text, &care, d)
}

// Commands that print what a netlist is, or how it settles.
ghost use Rattle.std.specs.Prelude.{◌≡◌};
ghost use Rattle.plain_commands.specs.Plans.{finding_loops, flattening, simulating};
ghost use Rattle.plain_commands.specs.Reading.{FollowsAlone};
ghost use Rattle.plain_commands.specs.Seen.{end_of};
ghost use Rattle.plain_commands.specs.Shelves.{shelf_call};

use crate::outcome::{Outcome, Stop, or_stop};
use crate::reading::{read_netlist, read_vector_file};
use crate::texts::{tell_loops, tell_netlist, tell_sim};
use commands::Form;
use cyc_base::Name;
use cyc_io::Shelf;
use std::alloc::Global;

/// Writes the flat netlist of a file.
///
/// An `Err` is the end of the call: the read failed (4), the file has a fault, of which the first is told (3), or want of memory (7).
/// The files of the shelf stay, and only the counts of faults of the files that are read change.
pub fn flatten_file<S: Shelf>(alloc: Global, shelf: &mut S, netlist: &Name) -> Result<Outcome, Stop>
    ensures comes { FollowsAlone (flattening netlist.now) (shelf_call S.files S.faults shelf.old shelf.new) (end_of result) }
    ensures same { S.files shelf.new ≡ S.files shelf.old }
{
    let net = read_netlist(alloc, shelf, netlist)?;
    or_stop(tell_netlist(alloc, &net))
}

/// Prints the loops of a file's netlist, as lines or as a graph.
///
/// An `Err` is the end of the call: the read failed (4), the file has a fault, of which the first is told (3), or want of memory (7).
/// The files of the shelf stay, and only the counts of faults of the files that are read change.
pub fn print_loops<S: Shelf>(
    alloc: Global,
    shelf: &mut S,
    netlist: &Name,
    form: Form,
) -> Result<Outcome, Stop>
    ensures comes { FollowsAlone (finding_loops form netlist.now) (shelf_call S.files S.faults shelf.old shelf.new) (end_of result) }
    ensures same { S.files shelf.new ≡ S.files shelf.old }
{
    let net = read_netlist(alloc, shelf, netlist)?;
    or_stop(tell_loops(alloc, &net, form))
}

/// Simulates the netlist of a file on the vectors of a second one, which may have unknown values.
///
/// An `Err` is the end of the call: the read failed (4), the file has a fault, of which the first is told (3), or want of memory (7).
/// The files of the shelf stay, and only the counts of faults of the files that are read change.
pub fn simulate_file<S: Shelf>(
    alloc: Global,
    shelf: &mut S,
    netlist: &Name,
    vectors: &Name,
) -> Result<Outcome, Stop>
    ensures comes { FollowsAlone (simulating netlist.now vectors.now) (shelf_call S.files S.faults shelf.old shelf.new) (end_of result) }
    ensures same { S.files shelf.new ≡ S.files shelf.old }
{
    let net = read_netlist(alloc, shelf, netlist)?;
    let found = read_vector_file(alloc, shelf, &net, true, vectors)?;
    or_stop(tell_sim(alloc, &net, &found))
}

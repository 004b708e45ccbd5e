// Reading the files of a command: what is in a file, or where the call ends.
ghost use Rattle.std.specs.Prelude.{◌≡◌, ◌≤◌, Some, IfOk, IfErr, length, option_copied};
ghost use Rattle.netlist.specs.Netlists.{IsNetlist, columns};
ghost use Rattle.care_sets.specs.Binding.{IsCareOf};
ghost use Rattle.parsed_files.specs.Seen.{error_seen};
ghost use Rattle.aig_core.specs.declared.aig.TheConstants.{MAX_COLUMNS as most_columns};
ghost use Rattle.cyc_io.specs.Faults.{ChangesCountOf};
ghost use Rattle.plain_commands.specs.Shelves.{shelf_call};
ghost use Rattle.plain_commands.specs.Plans.{with_care, with_netlist, with_schedule, with_vectors};
ghost use Rattle.plain_commands.specs.Reading.{GaveNone, GaveText, GoesOn, StopsAt, StopsIn};
ghost use Rattle.sched_text.specs.Fitting.{FitsNetlist};
ghost use Rattle.sched_text.specs.Vectors.{HaveWidth};
ghost use Rattle.plain_commands.specs.Seen.{stop_outcome};

use crate::outcome::Stop;
use crate::texts::{tell_fault, tell_read_failed};
use care_sets::Care;
use cyc_base::{Name, Trits};
use cyc_io::{ReadFault, Shelf, read_whole};
use delay_core::Schedule;
use netlist::Netlist;
use parsed_files::{FileError, care_of, netlist_of, schedule_of, too_long, vectors_of};
use std::alloc::Global;

/// Where a call ends at an error of this file: at its fault, or for want of memory.
pub fn stop_at(alloc: Global, file: &Name, error: FileError) -> Stop
    ensures { StopsAt file.now (error_seen error) (stop_outcome result) }
{
    match error {
        FileError::Has(fault) => match tell_fault(alloc, file, &fault) {
            Ok(told) => Stop::At(told),
            Err(_) => Stop::Memory,
        },
        FileError::Memory => Stop::Memory,
    }
}

// The text of a file, which isn't too long.
#[tactic(auto, using(crate::proofs::ReadingLemmas::gave_text, crate::proofs::ReadingLemmas::gave_unread, crate::proofs::ReadingLemmas::gave_too_long))]
fn read_text<S: Shelf>(alloc: Global, shelf: &mut S, file: &Name) -> Result<Vec<u8>, Stop>
    ensures good { IfOk result (λ bytes. GaveText (shelf_call S.files S.faults shelf.old shelf.new) file.now bytes.items) }
    ensures bad { IfErr result (λ stop. GaveNone (shelf_call S.files S.faults shelf.old shelf.new) file.now (stop_outcome stop)) }
    ensures same { S.files shelf.new ≡ S.files shelf.old }
    ensures counts { ChangesCountOf file.now (S.faults shelf.old) (S.faults shelf.new) }
{
    match read_whole(alloc, shelf, file) {
        Ok(bytes) => Ok(bytes),
        Err(ReadFault::Fault) => Err(Stop::At(tell_read_failed(alloc, file)?)),
        Err(ReadFault::TooLong) => Err(stop_at(alloc, file, too_long())),
        Err(ReadFault::Memory) => Err(Stop::Memory),
    }
}

/// The netlist of a file, which has at most 1,000,000,000 inputs and latches.
///
/// An `Err` is the end of the call: the read failed (4), the file has a fault, of which the first is told (3), or want of memory (7).
/// The files of the shelf stay, and only the counts of faults of the files that are read change.
pub fn read_netlist<S: Shelf>(alloc: Global, shelf: &mut S, file: &Name) -> Result<Netlist, Stop>
    ensures good { IfOk result (λ net. GoesOn (with_netlist file.now) net (shelf_call S.files S.faults shelf.old shelf.new)) }
    ensures valid { IfOk result IsNetlist }
    ensures columns { IfOk result (λ net. columns net ≤ most_columns) }
    ensures bad { IfErr result (λ stop. StopsIn (with_netlist file.now) (shelf_call S.files S.faults shelf.old shelf.new) (stop_outcome stop)) }
    ensures same { S.files shelf.new ≡ S.files shelf.old }
{
    let bytes = read_text(alloc, shelf, file)?;
    match netlist_of(alloc, bytes) {
        Ok(net) => Ok(net),
        Err(error) => Err(stop_at(alloc, file, error)),
    }
}

// The care set of a file for a netlist.
fn read_care_file<S: Shelf>(
    alloc: Global,
    shelf: &mut S,
    net: &Netlist,
    file: &Name,
) -> Result<Care, Stop>
    ensures good { IfOk result (λ care. GoesOn (with_care (Some file.now) net.now) care (shelf_call S.files S.faults shelf.old shelf.new)) }
    ensures fits { IfOk result (IsCareOf net.now) }
    ensures bad { IfErr result (λ stop. StopsIn (with_care (Some file.now) net.now) (shelf_call S.files S.faults shelf.old shelf.new) (stop_outcome stop)) }
    ensures same { S.files shelf.new ≡ S.files shelf.old }
{
    let bytes = read_text(alloc, shelf, file)?;
    match care_of(alloc, net, &bytes) {
        Ok(care) => Ok(care),
        Err(error) => Err(stop_at(alloc, file, error)),
    }
}

/// The care set of a netlist: that of its care file, where there is one, else one in which every vector counts.
///
/// An `Err` is the end of the call: the read failed (4), the file has a fault, of which the first is told (3), or want of memory (7).
/// The files of the shelf stay, and only the counts of faults of the files that are read change.
pub fn read_care<S: Shelf>(
    alloc: Global,
    shelf: &mut S,
    net: &Netlist,
    file: Option<&Name>,
) -> Result<Care, Stop>
    ensures good { IfOk result (λ care. GoesOn (with_care (option_copied file.entry) net.now) care (shelf_call S.files S.faults shelf.old shelf.new)) }
    ensures fits { IfOk result (IsCareOf net.now) }
    ensures bad { IfErr result (λ stop. StopsIn (with_care (option_copied file.entry) net.now) (shelf_call S.files S.faults shelf.old shelf.new) (stop_outcome stop)) }
    ensures same { S.files shelf.new ≡ S.files shelf.old }
{
    match file {
        Some(file) => Ok(read_care_file(alloc, shelf, net, file)?),
        None => Ok(Care::none()),
    }
}

// The vectors of a file for a netlist; unknown values are allowed or not.
pub(crate) fn read_vector_file<S: Shelf>(
    alloc: Global,
    shelf: &mut S,
    net: &Netlist,
    unknowns: bool,
    file: &Name,
) -> Result<Vec<Trits>, Stop>
    ensures good { IfOk result (λ found. GoesOn (with_vectors file.now net.now unknowns) found.items (shelf_call S.files S.faults shelf.old shelf.new)) }
    ensures width { IfOk result (λ found. HaveWidth (length net.now.inputs) found.items) }
    ensures bad { IfErr result (λ stop. StopsIn (with_vectors file.now net.now unknowns) (shelf_call S.files S.faults shelf.old shelf.new) (stop_outcome stop)) }
    ensures same { S.files shelf.new ≡ S.files shelf.old }
{
    let bytes = read_text(alloc, shelf, file)?;
    match vectors_of(alloc, net, unknowns, &bytes) {
        Ok(found) => Ok(found),
        Err(error) => Err(stop_at(alloc, file, error)),
    }
}

// The recorded schedule of a file for a netlist and so many ticks.
pub(crate) fn read_schedule_file<S: Shelf>(
    alloc: Global,
    shelf: &mut S,
    net: &Netlist,
    ticks: usize,
    file: &Name,
) -> Result<Schedule, Stop>
    ensures good { IfOk result (λ found. GoesOn (with_schedule file.now net.now ticks) found (shelf_call S.files S.faults shelf.old shelf.new)) }
    ensures fits { IfOk result (FitsNetlist net.now ticks) }
    ensures bad { IfErr result (λ stop. StopsIn (with_schedule file.now net.now ticks) (shelf_call S.files S.faults shelf.old shelf.new) (stop_outcome stop)) }
    ensures same { S.files shelf.new ≡ S.files shelf.old }
{
    let bytes = read_text(alloc, shelf, file)?;
    match schedule_of(alloc, net, ticks, &bytes) {
        Ok(found) => Ok(found),
        Err(error) => Err(stop_at(alloc, file, error)),
    }
}

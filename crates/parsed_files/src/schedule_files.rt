// The vectors and the schedule of files.
ghost use Rattle.std.specs.Prelude.{◌≡◌, Ok, IfOk, IfErr, length};
ghost use Rattle.parsed_files.specs.Faults.{IsErrorOf};
ghost use Rattle.parsed_files.specs.ScheduleFiles.{schedule_of as schedule_meant, vectors_of as vectors_meant};
ghost use Rattle.parsed_files.specs.Seen.{error_seen};
ghost use Rattle.sched_text.specs.Fitting.{FitsNetlist};
ghost use Rattle.sched_text.specs.Vectors.{HaveWidth};

use crate::errors::{check_length, sched_error};
use crate::fault::FileError;
use cyc_base::Trits;
use delay_core::Schedule;
use netlist::Netlist;
use sched_text::{read_schedule, read_vectors};
use std::alloc::Global;

/// The vectors of a vector file for a netlist, one value for each input, or the file's first fault. Unknown values are
/// allowed or not.
#[tactic(auto, using(crate::proofs::ScheduleLemmas::vectors_of_long))]
pub fn vectors_of(
    alloc: Global,
    net: &Netlist,
    unknowns: bool,
    bytes: &[u8],
) -> Result<Vec<Trits>, FileError>
    ensures good { IfOk result (λ found. vectors_meant net.now unknowns bytes.now ≡ Ok found.items) }
    ensures width { IfOk result (λ found. HaveWidth (length net.now.inputs) found.items) }
    ensures bad { IfErr result (λ error. IsErrorOf (vectors_meant net.now unknowns bytes.now) (error_seen error)) }
{
    check_length(bytes)?;
    match read_vectors(alloc, bytes, net.inputs() as usize, unknowns) {
        Ok(found) => Ok(found),
        Err(fault) => Err(sched_error(alloc, net, fault)),
    }
}

/// The schedule of a schedule file for a netlist and so many ticks, which fits both, or the file's first fault.
#[tactic(auto, using(crate::proofs::ScheduleLemmas::schedule_of_long))]
pub fn schedule_of(
    alloc: Global,
    net: &Netlist,
    ticks: usize,
    bytes: &[u8],
) -> Result<Schedule, FileError>
    ensures good { IfOk result (λ found. schedule_meant net.now ticks bytes.now ≡ Ok found) }
    ensures fits { IfOk result (FitsNetlist net.now ticks) }
    ensures bad { IfErr result (λ error. IsErrorOf (schedule_meant net.now ticks bytes.now) (error_seen error)) }
{
    check_length(bytes)?;
    match read_schedule(alloc, bytes, net, ticks) {
        Ok(found) => Ok(found),
        Err(fault) => Err(sched_error(alloc, net, fault)),
    }
}

// The weakest assumption under which a netlist is accepted.
ghost use Rattle.std.specs.Prelude.{◌≡◌, ◌≤◌, ◌++◌, IfOk, OnOk, option_copied};
ghost use Rattle.assumptions.specs.declared.search.TheConstants.{MAX_ROWS as most_rows};
ghost use Rattle.blif_write.specs.Laws.{EachReadsBack, FitOneText};
ghost use Rattle.blif_write.specs.Written.{models_written};
ghost use Rattle.care_sets.specs.Binding.{IsCare, IsCareOf};
ghost use Rattle.commands.specs.Seen.{options_seen};
ghost use Rattle.cyc_base.specs.declared.limits.TheConstants.{MAX_NODES as most_nodes};
ghost use Rattle.cyc_io.specs.Text.{text_bytes};
ghost use Rattle.netlist.specs.Netlists.{columns};
ghost use Rattle.netlist.specs.declared.parts.Parts.{Parts};
ghost use Rattle.parsed_files.specs.CareTexts.{listed, models_of};
ghost use Rattle.plain_commands.specs.Texts.{told as done};
ghost use Rattle.plain_commands.specs.Shelves.{shelf_call};
ghost use Rattle.rewriting.specs.Graphs.{most_columns};
ghost use Rattle.cyc_tool.specs.Problems.{decision_in};
ghost use Rattle.cyc_tool.specs.Calls.{Follows, IsCareFile, IsSought, IsWritten};
ghost use Rattle.cyc_tool.specs.Endings.{assumption_told, care_text};
ghost use Rattle.plain_commands.specs.Plans.{Prints, WantsRows, assuming};
ghost use Rattle.cyc_tool.specs.Seen.{IsTellableAssumption};
ghost use Rattle.plain_commands.specs.Seen.{end_of, outcome_of};

use crate::decision::tell_limited;
use crate::problem::Problem;
use assumptions::{Assumption, MAX_ROWS};
use bdd_ops::Diagrams;
use blif_write::write_models;
use care_sets::Care;
use commands::Options;
use cyc_base::{DEFAULT_NODES, Name};
use cyc_io::{Failed, Shelf, TextSink};
use feedback_cuts::NetlistLoops;
use netlist::Netlist;
use plain_commands::{
    Outcome, Stop, on_err, on_out, or_stop, read_care, read_netlist, status, tell_declined,
    tell_too_large,
};
use refusals::Observe;
use report::put_too_many_rows;
use std::alloc::{AllocError, Global};

// Appends care models, the assumption first.
fn put_models(
    assume: Option<&Netlist>,
    invariant: Option<&Netlist>,
    sink: &mut TextSink,
) -> Result<(), Failed>
    ensures text { OnOk result (text_bytes sink.new ≡ text_bytes sink.old ++ models_written (listed (option_copied assume.entry) ++ listed (option_copied invariant.entry))) }
    ensures reads_back { OnOk result (FitOneText (listed (option_copied assume.entry) ++ listed (option_copied invariant.entry))
        → EachReadsBack (listed (option_copied assume.entry) ++ listed (option_copied invariant.entry))) }
{
    match (assume, invariant) {
        (Some(assume), Some(invariant)) => write_models(&[assume, invariant], sink),
        (Some(assume), None) => write_models(&[assume], sink),
        (None, Some(invariant)) => write_models(&[invariant], sink),
        (None, None) => write_models(&[], sink),
    }
}

// Appends the models of a care set.
fn put_care(care: &Care, sink: &mut TextSink) -> Result<(), Failed>
    ensures text { OnOk result (text_bytes sink.new ≡ text_bytes sink.old ++ care_text care.now) }
    ensures reads_back { OnOk result (FitOneText (models_of care.now) → EachReadsBack (models_of care.now)) }
    ensures valid { IsCare care.now }
{
    put_models(care.assume(), care.invariant(), sink)
}

fn tell_care(alloc: Global, care: &Care) -> Result<Outcome, AllocError>
    ensures told { IfOk result (λ told. outcome_of told ≡ done (Prints (care_text care.now))) }
    ensures written { IfOk result (λ told. (net : Parts) → IsCareOf net care.now → IsCareFile net care.now) }
{
    let mut sink = TextSink::new(alloc);
    match put_care(care, &mut sink) {
        Ok(()) => Ok(on_out(alloc, status::DONE, sink.into_vec())),
        Err(_) => Err(AllocError),
    }
}

// That an assumption would have too many rows.
fn tell_too_many_rows(alloc: Global) -> Result<Outcome, AllocError>
    ensures { IfOk result (λ told. outcome_of told ≡ done (WantsRows most_rows)) }
{
    let mut sink = TextSink::new(alloc);
    match put_too_many_rows(MAX_ROWS as u32, &mut sink) {
        Ok(()) => Ok(on_err(alloc, status::TOO_LARGE, sink.into_vec())),
        Err(_) => Err(AllocError),
    }
}

// What is found where an assumption is looked for within a care set.
fn tell_assumption(
    alloc: Global,
    net: &Netlist,
    care: &Care,
    answer: &Assumption,
) -> Result<Outcome, AllocError>
    requires care { IsCareOf net.now care.now }
    requires fits { IsTellableAssumption net.now answer.now }
    ensures told { IfOk result (λ told. outcome_of told ≡ done (assumption_told net.now care.now answer.now)) }
    ensures written { IfOk result (λ told. IsWritten net.now care.now answer.now) }
{
    match answer {
        Assumption::Stands => tell_care(alloc, care),
        Assumption::Weakest(stronger) => tell_care(alloc, stronger),
        Assumption::Refused(refusal) => tell_declined(alloc, net, refusal),
        Assumption::TooManyRows => tell_too_many_rows(alloc),
        Assumption::TooLarge { gates } => tell_too_large(alloc, *gates),
    }
}

// Looks for the weakest assumption of a netlist within its care set, and tells what is found.
fn tell_sought_in(
    alloc: Global,
    problem: &Problem<'_>,
    d: &mut Diagrams,
) -> Result<Outcome, AllocError>
    ensures { IfOk result (λ told. IsSought (decision_in problem.now) d.new (outcome_of told)) }
{
    let looped = problem.looped();
    let care = problem.care();
    let found = problem.weakest_assumption(alloc, d);
    match &found {
        Ok(answer) => tell_assumption(alloc, looped.net(), care, answer),
        Err(fault) => tell_limited(alloc, fault),
    }
}

fn tell_sought(
    alloc: Global,
    net: &Netlist,
    care: &Care,
    limit: u32,
    observe: Observe,
    d: &mut Diagrams,
) -> Result<Outcome, AllocError>
    requires columns { columns net.now ≤ most_columns }
    requires care { IsCareOf net.now care.now }
    requires limit { limit ≤ most_nodes }
    ensures { IfOk result (λ told. IsSought record { net = net.now; care = care.now; limit = limit; observe = observe } d.new (outcome_of told)) }
{
    let loops = NetlistLoops::find(alloc, net)?;
    let looped = loops.looped();
    let problem = Problem::new(&looped, care, limit, observe);
    tell_sought_in(alloc, &problem, d)
}

// Writes the weakest care models under which the netlist of a file is accepted, within its care set.
pub(crate) fn assume_file<S: Shelf>(
    alloc: Global,
    shelf: &mut S,
    netlist: &Name,
    options: Options,
    d: &mut Diagrams,
) -> Result<Outcome, Stop>
    ensures comes { Follows (assuming netlist.now (options_seen options.entry))
        (shelf_call S.files S.faults shelf.old shelf.new) d.new (end_of result) }
    ensures same { S.files shelf.new ≡ S.files shelf.old }
{
    let net = read_netlist(alloc, shelf, netlist)?;
    let care = read_care(alloc, shelf, &net, options.care)?;
    let limit = options.nodes.unwrap_or(DEFAULT_NODES);
    let observe = options.observe.unwrap_or(Observe::All);
    or_stop(tell_sought(alloc, &net, &care, limit, observe, d))
}

// Comparisons of two netlists.
ghost use Rattle.std.specs.Prelude.{◌≡◌, ◌≤◌, IfOk};
ghost use Rattle.care_sets.specs.Binding.{IsCareOf};
ghost use Rattle.commands.specs.Seen.{options_seen};
ghost use Rattle.cyc_base.specs.declared.limits.TheConstants.{MAX_NODES as most_nodes};
ghost use Rattle.plain_commands.specs.Shelves.{shelf_call};
ghost use Rattle.cyc_tool.specs.Calls.{Follows, IsCompared};
ghost use Rattle.plain_commands.specs.Texts.{told as done};
ghost use Rattle.cyc_tool.specs.Endings.{found_told};
ghost use Rattle.plain_commands.specs.Plans.{comparing};
ghost use Rattle.cyc_tool.specs.Seen.{IsComparisonLimitOf};
ghost use Rattle.plain_commands.specs.Seen.{end_of, outcome_of};

use bdd_ops::Diagrams;
use care_sets::Care;
use commands::Options;
use cyc_base::{DEFAULT_NODES, Name};
use cyc_io::Shelf;
use equal::{EqualFault, tell_equality};
use miters::Told;
use netlist::Netlist;
use plain_commands::{Outcome, Stop, on_out, or_stop, read_care, read_netlist, status, tell_limit};
use std::alloc::{AllocError, Global};

// What was found of two netlists.
fn tell_found(alloc: Global, told: Told) -> Outcome
    ensures { outcome_of result ≡ done (found_told told.equal told.text.items) }
{
    let Told { equal, text } = told;
    if equal {
        on_out(alloc, status::DONE, text)
    } else {
        on_out(alloc, status::REFUSED, text)
    }
}

// That the limit of nodes was met.
fn tell_unfinished(alloc: Global, fault: EqualFault) -> Result<Outcome, AllocError>
    ensures { IfOk result (λ told. IsComparisonLimitOf fault told) }
{
    match fault {
        EqualFault::NodeLimit { nodes } => tell_limit(alloc, nodes),
        EqualFault::Memory => Err(AllocError),
    }
}

// Compares two netlists on a care set of the first within so many nodes, and tells what is found.
fn tell_comparison(
    alloc: Global,
    first: &Netlist,
    second: &Netlist,
    care: &Care,
    limit: u32,
    d: &mut Diagrams,
) -> Result<Outcome, AllocError>
    requires care { IsCareOf first.now care.now }
    requires limit { limit ≤ most_nodes }
    ensures { IfOk result (λ told. IsCompared record { first = first.now; second = second.now; care = care.now; limit = limit } d.new (outcome_of told)) }
{
    match tell_equality(alloc, d, first, second, care, limit) {
        Ok(told) => Ok(tell_found(alloc, told)),
        Err(fault) => tell_unfinished(alloc, fault),
    }
}

// Compares the netlists of two files on a care set of the first.
pub(crate) fn compare_files<S: Shelf>(
    alloc: Global,
    shelf: &mut S,
    netlist: &Name,
    second: &Name,
    options: Options,
    d: &mut Diagrams,
) -> Result<Outcome, Stop>
    ensures comes { Follows (comparing netlist.now second.now (options_seen options.entry))
        (shelf_call S.files S.faults shelf.old shelf.new) d.new (end_of result) }
    ensures same { S.files shelf.new ≡ S.files shelf.old }
{
    let first = read_netlist(alloc, shelf, netlist)?;
    let other = read_netlist(alloc, shelf, second)?;
    let care = read_care(alloc, shelf, &first, options.care)?;
    let limit = options.nodes.unwrap_or(DEFAULT_NODES);
    or_stop(tell_comparison(alloc, &first, &other, &care, limit, d))
}

// The netlist of a netlist file.
ghost use Rattle.std.specs.Prelude.{◌≡◌, ◌≢◌, ◌≤◌, ◌<◌, Ok, Err, IfOk, IfErr, MatchResult, length};
ghost use Rattle.blif_read.specs.Reads.{reads};
ghost use Rattle.blif_read.specs.Flattening.{CanBeFlattened};
ghost use Rattle.blif_read.specs.declared.fault.BlifFault.TheVariants.{Memory};
ghost use Rattle.netlist.specs.Netlists.{IsNetlist};
ghost use Rattle.parsed_files.specs.Faults.{IsErrorOf};
ghost use Rattle.parsed_files.specs.NetlistFiles.{netlist_of as netlist_meant, top_of};
ghost use Rattle.parsed_files.specs.Seen.{error_seen};

use crate::errors::check_length;
use crate::fault::FileError;
use blif_read::{BlifFault, BlifModel, Models, read};
use cyc_base::{MAX_FILE_BYTES, MAX_FLAT_ITEMS, Name};
use flatten::flatten_owned;
use netlist::Netlist;
use std::alloc::Global;

// The name of the first model, which is the top.
#[tactic(auto, using(crate::proofs::NetlistLemmas::top_at))]
fn top(models: &[BlifModel]) -> &Name
    requires { 0 < length models.now }
    ensures { result.now ≡ top_of models.now }
{
    &models[0].name
}

// The models of a text, which is dropped once its lines stand.
fn models_of(alloc: Global, bytes: Vec<u8>) -> Result<Models, BlifFault>
    ensures models { MatchResult result
        (λ models. reads bytes.items ≡ Ok models.list)
        (λ fault. fault ≢ Memory → reads bytes.items ≡ Err fault) }
    ensures flat { length bytes.items ≤ 4000000000 → IfOk result (λ models. CanBeFlattened models.list) }
{
    read(alloc, &bytes)
}

/// The netlist of a file at its first model, or the file's first fault: that it is over 67,108,864 bytes long, then
/// that of its text, then that of flattening. A netlist has at most as many inputs as a file has bytes, and at most
/// 4,000,000 latches. The bytes are dropped once the lines of the text stand.
#[tactic(auto, using(crate::proofs::NetlistLemmas::netlist_of_long))]
pub fn netlist_of(alloc: Global, bytes: Vec<u8>) -> Result<Netlist, FileError>
    ensures good { IfOk result (λ net. netlist_meant bytes.items ≡ Ok net) }
    ensures valid { IfOk result IsNetlist }
    ensures inputs { IfOk result (λ net. length net.inputs ≤ MAX_FILE_BYTES) }
    ensures latches { IfOk result (λ net. length net.latches ≤ MAX_FLAT_ITEMS) }
    ensures bad { IfErr result (λ error. IsErrorOf (netlist_meant bytes.items) (error_seen error)) }
{
    check_length(&bytes)?;
    let models = models_of(alloc, bytes)?;
    let top = top(models.list.items()).copy()?;
    Ok(flatten_owned(alloc, models, &top)?)
}

// The care set of a care file: its models `assume` and `invariant`, flattened and bound to the netlist.
ghost use Rattle.std.specs.Prelude.{◌≡◌, Ok, IfOk, IfErr};
ghost use Rattle.blif_read.specs.Flattening.{CanBeFlattened};
ghost use Rattle.care_sets.specs.Binding.{IsCareOf};
ghost use Rattle.parsed_files.specs.CareFiles.{care_models, care_of as care_meant, part_of};
ghost use Rattle.parsed_files.specs.Faults.{IsErrorOf};
ghost use Rattle.parsed_files.specs.Seen.{error_seen};

use crate::errors::check_length;
use crate::fault::FileError;
use blif_read::{Models, read};
use care_sets::{Care, bind};
use cyc_base::Name;
use flatten::flatten;
use netlist::Netlist;
use std::alloc::Global;

// The flat netlist of the model of this name, where the file has one.
fn flatten_part(alloc: Global, models: &Models, part: &[u8]) -> Result<Option<Netlist>, FileError>
    requires { CanBeFlattened models.now.list }
    ensures good { IfOk result (λ net. part_of models.now.list part.now ≡ Ok net) }
    ensures bad { IfErr result (λ error. IsErrorOf (part_of models.now.list part.now) (error_seen error)) }
{
    let name = Name::copied_from(alloc, part)?;
    if models.find(&name).is_none() {
        return Ok(None);
    }
    Ok(Some(flatten(alloc, models, &name)?))
}

// The care set of models. The assumption is flattened first.
fn care_of_models(alloc: Global, net: &Netlist, models: &Models) -> Result<Care, FileError>
    requires { CanBeFlattened models.now.list }
    ensures good { IfOk result (λ care. care_models net.now (Ok models.now.list) ≡ Ok care) }
    ensures fits { IfOk result (IsCareOf net.now) }
    ensures bad { IfErr result (λ error. IsErrorOf (care_models net.now (Ok models.now.list)) (error_seen error)) }
{
    let assume = flatten_part(alloc, models, b"assume")?;
    let invariant = flatten_part(alloc, models, b"invariant")?;
    Ok(bind(alloc, net, assume, invariant)?)
}

/// The care set of a care file for a netlist, or the file's first fault. The assumption is flattened before the
/// invariant, and then both are bound.
#[tactic(auto, using(crate::proofs::CareLemmas::care_of_long))]
pub fn care_of(alloc: Global, net: &Netlist, bytes: &[u8]) -> Result<Care, FileError>
    ensures good { IfOk result (λ care. care_meant net.now bytes.now ≡ Ok care) }
    ensures fits { IfOk result (IsCareOf net.now) }
    ensures bad { IfErr result (λ error. IsErrorOf (care_meant net.now bytes.now) (error_seen error)) }
{
    check_length(bytes)?;
    let models = read(alloc, bytes)?;
    care_of_models(alloc, net, &models)
}

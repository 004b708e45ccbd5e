ghost use Rattle.std.specs.Prelude.{◌≡◌, ◌<◌, ◌≤◌, ◌⊎◌, false, length, Some, Ok, Err, IfOk, IfErr, IfSome};
ghost use Rattle.std.specs.List.{list_any};
ghost use Rattle.netlist.specs.Netlists.{IsNetlist};
ghost use Rattle.blif_read.specs.Flattening.{CanBeFlattened};
ghost use Rattle.flatten.specs.Alone.{is_part};
ghost use Rattle.flatten.specs.Flat.{flat, flat_at, flat_within};
ghost use Rattle.flatten.specs.Instances.{find_model, model_at};

use crate::alone::{has_parts, parts_alone};
use crate::count::check_walk;
use crate::fault::FlatFault;
use crate::hierarchy::Hierarchy;
use crate::link::link;
use crate::walk::flat_lines;
use blif_read::{BlifModel, Models};
use cyc_base::{MAX_DEPTH, MAX_FLAT_ITEMS, Name};
use netlist::{Netlist, Parts, PartsFault};
use std::alloc::Global;

/// Parts of a netlist are refused for want of memory alone.
fn want_of_memory(_fault: PartsFault) -> FlatFault
    requires { _fault ≡ PartsFault.Memory }
    ensures { result ≡ FlatFault.Memory }
{
    FlatFault::Memory
}

/// The netlist of parts that have no fault.
fn netlist_of(alloc: Global, parts: Parts) -> Result<Netlist, FlatFault>
    requires { IsNetlist parts }
    ensures netlist { IfOk result (λ net. net ≡ parts) }
    ensures fault { IfErr result (λ fault. fault ≡ FlatFault.Memory) }
{
    match Netlist::new(alloc, parts) {
        Ok(net) => Ok(net),
        Err(fault) => Err(want_of_memory(fault)),
    }
}

/// The parts of the flat netlist of the model at this place.
fn flat_parts(
    alloc: Global,
    hierarchy: &Hierarchy<'_>,
    place: usize,
    limit: u32,
) -> Result<Parts, FlatFault>
    requires place { place < length hierarchy.now.models }
    requires limit { limit ≤ MAX_FLAT_ITEMS }
    ensures parts { IfOk result (λ parts. flat_at hierarchy.now.depth limit hierarchy.now.models place ≡ Ok parts) }
    ensures valid { IfOk result IsNetlist }
    ensures fault { IfErr result
        (λ fault. (fault ≡ FlatFault.Memory)
        ⊎ (flat_at hierarchy.now.depth limit hierarchy.now.models place ≡ Err fault)) }
{
    hierarchy.laws();
    check_walk(alloc, hierarchy, place, limit)?;
    let lines = flat_lines(alloc, hierarchy, place, limit)?;
    link(alloc, hierarchy.model(place), lines)
}

/// The parts of the flat netlist of the model of this name.
fn parts_of_model(
    alloc: Global,
    hierarchy: &Hierarchy<'_>,
    top: &Name,
    limit: u32,
) -> Result<Parts, FlatFault>
    requires { limit ≤ MAX_FLAT_ITEMS }
    ensures parts { IfOk result
        (λ parts. flat_within hierarchy.now.depth limit hierarchy.now.models top.now ≡ Ok parts) }
    ensures valid { IfOk result IsNetlist }
    ensures fault { IfErr result
        (λ fault. (fault ≡ FlatFault.Memory)
        ⊎ (flat_within hierarchy.now.depth limit hierarchy.now.models top.now ≡ Err fault)) }
{
    match hierarchy.find(top) {
        Some(place) => flat_parts(alloc, hierarchy, place, limit),
        None => Err(FlatFault::UnknownModel { name: top.copy()? }),
    }
}

/// The same of models without their hierarchy, where at most `depth` instances may lie in one another, and at most
/// `limit` gates, latches and instances may come.
fn parts_within(
    alloc: Global,
    models: &[BlifModel],
    top: &Name,
    depth: usize,
    limit: u32,
) -> Result<Parts, FlatFault>
    requires sound { CanBeFlattened models.now }
    requires limit { limit ≤ MAX_FLAT_ITEMS }
    ensures parts { IfOk result (λ parts. flat_within depth limit models.now top.now ≡ Ok parts) }
    ensures valid { IfOk result IsNetlist }
    ensures fault { IfErr result
        (λ fault. (fault ≡ FlatFault.Memory) ⊎ (flat_within depth limit models.now top.now ≡ Err fault)) }
{
    let hierarchy = Hierarchy::new(alloc, models, depth)?;
    parts_of_model(alloc, &hierarchy, top, limit)
}

/// The flat netlist of a model of the file, with all instances below it: its gates and latches in depth-first
/// order of the text. A wire of an instance has the numbers of the instances on the way to it before its name.
///
/// The first fault is answered, in the order of `FlatFault`, those of the walk before any line is made. It is
/// linear in the size of the flat netlist.
pub fn flatten(alloc: Global, models: &Models, top: &Name) -> Result<Netlist, FlatFault>
    requires { CanBeFlattened models.now.list }
    ensures netlist { IfOk result (λ net. flat models.now.list top.now ≡ Ok net) }
    ensures valid { IfOk result IsNetlist }
    ensures fault { IfErr result
        (λ fault. (fault ≡ FlatFault.Memory) ⊎ (flat models.now.list top.now ≡ Err fault)) }
{
    let depth = MAX_DEPTH as usize;
    let parts = parts_within(alloc, models.list.items(), top, depth, MAX_FLAT_ITEMS)?;
    netlist_of(alloc, parts)
}

/// The place of the model of this name, where no instance stands in it.
fn place_alone(models: &Models, top: &Name) -> Option<usize>
    ensures found { IfSome result (λ i. find_model models.now.list top.now ≡ Some i) }
    ensures alone { IfSome result (λ i. list_any is_part (model_at models.now.list i).body ≡ false) }
    ensures within { IfSome result (λ i. i < length models.now.list) }
{
    let place = models.find(top)?;
    if has_parts(models.list.items()[place].body.items()) {
        return None;
    }
    Some(place)
}

/// The model at this place, where the others are dropped.
fn take_model(models: Models, place: usize) -> BlifModel
    requires { place < length models.list }
    ensures { result ≡ model_at models.list place }
{
    models.list.into_vec().swap_remove(place)
}

/// The parts of the flat netlist of the model at this place, in which no instance stands.
fn take_parts(alloc: Global, models: Models, place: usize) -> Result<Parts, FlatFault>
    requires sound { CanBeFlattened models.list }
    requires place { place < length models.list }
    requires alone { list_any is_part (model_at models.list place).body ≡ false }
    ensures parts { IfOk result (λ parts. flat_at MAX_DEPTH MAX_FLAT_ITEMS models.list place ≡ Ok parts) }
    ensures valid { IfOk result IsNetlist }
    ensures fault { IfErr result
        (λ fault. (fault ≡ FlatFault.Memory) ⊎ (flat_at MAX_DEPTH MAX_FLAT_ITEMS models.list place ≡ Err fault)) }
{
    let model = take_model(models, place);
    parts_alone(alloc, model, MAX_FLAT_ITEMS)
}

/// As `flatten`, of models that nothing else needs. Where no instance stands in the top, its lines are handed over, and
/// not copied.
pub fn flatten_owned(alloc: Global, models: Models, top: &Name) -> Result<Netlist, FlatFault>
    requires { CanBeFlattened models.list }
    ensures netlist { IfOk result (λ net. flat models.list top.now ≡ Ok net) }
    ensures valid { IfOk result IsNetlist }
    ensures fault { IfErr result
        (λ fault. (fault ≡ FlatFault.Memory) ⊎ (flat models.list top.now ≡ Err fault)) }
{
    match place_alone(&models, top) {
        Some(place) => {
            let parts = take_parts(alloc, models, place)?;
            netlist_of(alloc, parts)
        }
        None => flatten(alloc, &models, top),
    }
}

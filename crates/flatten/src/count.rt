//! The walk without its lines: its first fault is found before any memory is taken for a line, so a flat netlist that
//! is too large is refused while it is only counted. A trail has the places of the models that are open, with the
//! top's first.

ghost use Rattle.std.specs.Prelude.{◌≡◌, ◌<◌, ◌-◌, ◌⊎◌, true, if◌then◌else◌, length, All, None, Some, Ok, Err, IfOk, IfErr, OnOk};
ghost use Rattle.std.specs.List.{list_any};
ghost use Rattle.std.specs.Str.{bytes_eq};
ghost use Rattle.blif_read.specs.declared.models.Item.TheVariants.{Part};
ghost use Rattle.flatten.specs.Instances.{model_at, pairs_fault};
ghost use Rattle.flatten.specs.Walk.{flat_lines as flat_lines_by};
ghost use Rattle.flatten.specs.Counting.{Fits, AllFit, entered_below, chosen, Leave, LeavesTo, FailsBy, HasLines};

use crate::bind::fill_table;
use crate::fault::FlatFault;
use crate::hierarchy::Hierarchy;
use crate::scope::top_scope;
use blif_read::{Item, PartLine};
use cyc_base::Name;
use indexmap::IndexMap;
use std::alloc::Global;

/// Whether the model of this name is open.
fn stands_among(hierarchy: &Hierarchy<'_>, trail: &[usize], name: &Name) -> bool
    requires { All (λ i. i < length hierarchy.now.models) trail.now }
    ensures { result ≡ list_any (λ i. bytes_eq (model_at hierarchy.now.models i).name name.now) trail.now }
{
    trail
        .iter()
        .any(|place| hierarchy.model(*place).name == *name)
}

/// That the pairs of an instance of this model have no fault.
fn check_pairs(
    alloc: Global,
    hierarchy: &Hierarchy<'_>,
    model: usize,
    pairs: &[(Name, Name)],
) -> Result<(), FlatFault>
    requires within { model < length hierarchy.now.models }
    ensures fits { OnOk result (pairs_fault (model_at hierarchy.now.models model) pairs.now ≡ None) }
    ensures fault { IfErr result (λ fault. (fault ≡ FlatFault.Memory)
        ⊎ (pairs_fault (model_at hierarchy.now.models model) pairs.now ≡ Some fault)) }
{
    let mut table = IndexMap::new(alloc);
    fill_table(
        alloc,
        hierarchy,
        &top_scope(alloc),
        model,
        pairs,
        &mut table,
    )
}

/// Whether the pairs of an instance of this model are found to have no fault.
fn pairs_fit(alloc: Global, hierarchy: &Hierarchy<'_>, model: usize, pairs: &[(Name, Name)]) -> bool
    requires { model < length hierarchy.now.models }
    ensures { result ≡ true → pairs_fault (model_at hierarchy.now.models model) pairs.now ≡ None }
{
    check_pairs(alloc, hierarchy, model, pairs).is_ok()
}

/// Whether the pairs of an instance are found to have no fault.
fn fits(alloc: Global, hierarchy: &Hierarchy<'_>, item: &Item) -> bool
    ensures { result ≡ true → Fits hierarchy.now.models item.now }
{
    match item {
        Item::Gate(_) | Item::Latch(_) => true,
        Item::Part(part) => match hierarchy.find(&part.model) {
            Some(model) => pairs_fit(alloc, hierarchy, model, part.pairs.items()),
            None => false,
        },
    }
}

/// Whether the pairs of each instance in the file are found to have no fault. Then they aren't looked at again.
fn all_fit(alloc: Global, hierarchy: &Hierarchy<'_>) -> bool
    ensures { result ≡ true → AllFit hierarchy.now.models }
{
    for model in hierarchy.models() {
        for item in model.body.items() {
            if !fits(alloc, hierarchy, item) {
                return false;
            }
        }
    }
    true
}

/// That the pairs of an instance of this model have no fault, which may be known.
fn check_unknown_pairs(
    alloc: Global,
    hierarchy: &Hierarchy<'_>,
    known: bool,
    model: usize,
    pairs: &[(Name, Name)],
) -> Result<(), FlatFault>
    requires within { model < length hierarchy.now.models }
    requires known { known ≡ true → pairs_fault (model_at hierarchy.now.models model) pairs.now ≡ None }
    ensures fits { OnOk result (pairs_fault (model_at hierarchy.now.models model) pairs.now ≡ None) }
    ensures fault { IfErr result (λ fault. (fault ≡ FlatFault.Memory)
        ⊎ (pairs_fault (model_at hierarchy.now.models model) pairs.now ≡ Some fault)) }
{
    if known {
        return Ok(());
    }
    check_pairs(alloc, hierarchy, model, pairs)
}

/// Why an instance of the model of this name can't be entered: the file doesn't have it, it is open, or else the instance
/// lies too deep.
fn refusal(found: bool, opened: bool, name: Name) -> FlatFault
    ensures { result ≡ (if found then (if opened then FlatFault.Recursive name else FlatFault.TooDeep name) else FlatFault.UnknownModel name) }
{
    match (found, opened) {
        (false, _) => FlatFault::UnknownModel { name },
        (true, true) => FlatFault::Recursive { name },
        (true, false) => FlatFault::TooDeep { name },
    }
}

/// The place of the model of this name, which is to be neither open nor too deep.
fn choose(
    hierarchy: &Hierarchy<'_>,
    name: &Name,
    opened: bool,
    deep: bool,
) -> Result<usize, FlatFault>
    ensures model { IfOk result (λ i. chosen hierarchy.now.models name.now opened deep ≡ Ok i) }
    ensures within { IfOk result (λ i. i < length hierarchy.now.models) }
    ensures fault { IfErr result (λ fault. (fault ≡ FlatFault.Memory)
        ⊎ (chosen hierarchy.now.models name.now opened deep ≡ Err fault)) }
{
    match hierarchy.find(name) {
        Some(model) if !opened && !deep => Ok(model),
        found => Err(refusal(found.is_some(), opened, name.copy()?)),
    }
}

/// The place of the model of an instance that can be entered. Its pairs are looked at unless all are known to fit.
fn enter_below(
    alloc: Global,
    hierarchy: &Hierarchy<'_>,
    fit: bool,
    trail: &[usize],
    part: &PartLine,
) -> Result<usize, FlatFault>
    requires fit { fit ≡ true → Fits hierarchy.now.models (Part part.now) }
    requires within { All (λ i. i < length hierarchy.now.models) trail.now }
    ensures model { IfOk result
        (λ i. entered_below hierarchy.now.depth hierarchy.now.models trail.now part.now ≡ Ok i) }
    ensures within { IfOk result (λ i. i < length hierarchy.now.models) }
    ensures fault { IfErr result (λ fault. (fault ≡ FlatFault.Memory)
        ⊎ (entered_below hierarchy.now.depth hierarchy.now.models trail.now part.now ≡ Err fault)) }
{
    let name = &part.model;
    let opened = stands_among(hierarchy, trail, name);
    let model = choose(hierarchy, name, opened, hierarchy.depth() < trail.len())?;
    check_unknown_pairs(alloc, hierarchy, fit, model, part.pairs.items())?;
    Ok(model)
}

/// The room behind a gate, a latch or the line of an instance.
fn one_less(room: u32) -> Result<u32, FlatFault>
    ensures less { OnOk result (0 < room) }
    ensures by_one { IfOk result (λ left. left ≡ room - 1) }
    ensures fault { IfErr result (λ fault. (room ≡ 0) × (fault ≡ FlatFault.TooLarge)) }
{
    if room == 0 {
        return Err(FlatFault::TooLarge);
    }
    Ok(room - 1)
}

/// The room behind an instance and all that comes below it.
#[cycle(room)]
fn room_behind_part(
    alloc: Global,
    hierarchy: &Hierarchy<'_>,
    fit: bool,
    trail: &mut Vec<usize>,
    part: &PartLine,
    room: u32,
) -> Result<u32, FlatFault>
    requires all { fit ≡ true → AllFit hierarchy.now.models }
    requires fit { fit ≡ true → Fits hierarchy.now.models (Part part.now) }
    requires within { All (λ i. i < length hierarchy.now.models) trail.old.items }
    ensures same { OnOk result (trail.new.items ≡ trail.old.items) }
    ensures left { IfOk result
        (λ left. LeavesTo hierarchy.now.depth hierarchy.now.models trail.old.items (Part part.now) room left) }
    ensures fault { IfErr result (λ fault. (fault ≡ FlatFault.Memory)
        ⊎ FailsBy hierarchy.now.depth hierarchy.now.models trail.old.items (Part part.now) room fault) }
{
    let model = enter_below(alloc, hierarchy, fit, trail, part)?;
    let inside = one_less(room)?;
    trail.push(model)?;
    let body = hierarchy.model(model).body.items();
    let left = room_behind(alloc, hierarchy, fit, trail, body, inside)?;
    trail.pop();
    Ok(left)
}

/// The room behind an item and what comes below it.
#[cycle(room)]
fn room_behind_item(
    alloc: Global,
    hierarchy: &Hierarchy<'_>,
    fit: bool,
    trail: &mut Vec<usize>,
    item: &Item,
    room: u32,
) -> Result<u32, FlatFault>
    requires all { fit ≡ true → AllFit hierarchy.now.models }
    requires fit { fit ≡ true → Fits hierarchy.now.models item.now }
    requires within { All (λ i. i < length hierarchy.now.models) trail.old.items }
    ensures same { OnOk result (trail.new.items ≡ trail.old.items) }
    ensures left { IfOk result
        (λ left. LeavesTo hierarchy.now.depth hierarchy.now.models trail.old.items item.now room left) }
    ensures fault { IfErr result (λ fault. (fault ≡ FlatFault.Memory)
        ⊎ FailsBy hierarchy.now.depth hierarchy.now.models trail.old.items item.now room fault) }
{
    match item {
        Item::Gate(_) | Item::Latch(_) => one_less(room),
        Item::Part(part) => room_behind_part(alloc, hierarchy, fit, trail, part, room),
    }
}

/// The room behind the items of a body and what comes below them. Its calls lie as deep as instances do.
#[cycle(room)]
fn room_behind(
    alloc: Global,
    hierarchy: &Hierarchy<'_>,
    fit: bool,
    trail: &mut Vec<usize>,
    body: &[Item],
    room: u32,
) -> Result<u32, FlatFault>
    requires all { fit ≡ true → AllFit hierarchy.now.models }
    requires fit { fit ≡ true → All (Fits hierarchy.now.models) body.now }
    requires within { All (λ i. i < length hierarchy.now.models) trail.old.items }
    ensures same { OnOk result (trail.new.items ≡ trail.old.items) }
    ensures left { IfOk result
        (λ left. Leave hierarchy.now.depth hierarchy.now.models trail.old.items body.now room (Ok left)) }
    ensures fault { IfErr result (λ fault. (fault ≡ FlatFault.Memory)
        ⊎ Leave hierarchy.now.depth hierarchy.now.models trail.old.items body.now room (Err fault)) }
{
    let mut left = room;
    for item in body {
        left = room_behind_item(alloc, hierarchy, fit, trail, item, left)?;
    }
    Ok(left)
}

/// That the walk below the model at this place has no fault. No line is made.
pub(crate) fn check_walk(
    alloc: Global,
    hierarchy: &Hierarchy<'_>,
    top: usize,
    limit: u32,
) -> Result<(), FlatFault>
    requires top { top < length hierarchy.now.models }
    ensures lines { OnOk result (HasLines hierarchy.now.depth limit hierarchy.now.models top) }
    ensures fault { IfErr result
        (λ fault. (fault ≡ FlatFault.Memory)
        ⊎ (flat_lines_by hierarchy.now.depth limit hierarchy.now.models top ≡ Err fault)) }
{
    let fit = all_fit(alloc, hierarchy);
    let mut trail = Vec::new(alloc);
    trail.push(top)?;
    let body = hierarchy.model(top).body.items();
    let _left = room_behind(alloc, hierarchy, fit, &mut trail, body, limit)?;
    Ok(())
}

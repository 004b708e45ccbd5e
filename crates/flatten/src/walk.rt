ghost use Rattle.std.specs.Prelude.{◌≡◌, ◌<◌, ◌≤◌, ◌^◌, ◌++◌, ◌+◌, [], ◌∷◌, suc, length, drop, None, Some, Ok, IfOk, IfErr, OnOk, MatchOption};
ghost use Rattle.std.specs.Fmt.{decimal};
ghost use Rattle.flatten.specs.Instances.{find_model, model_at, pairs_fault};
ghost use Rattle.flatten.specs.Laws.{bound};
ghost use Rattle.flatten.specs.Counting.{HasLines};
ghost use Rattle.flatten.specs.Wires.{mark_of};
ghost use Rattle.flatten.specs.Walk.{flat_lines as flat_lines_by};
ghost use Rattle.flatten.specs.Printable.{PrintsOn, ArePrintedLines};
ghost use Rattle.flatten.specs.Levels.{FitsSome, CanEnter, IsInner, AddsLine, PutsBack, Opens, PassesLine, PassesPart, Goes, StepsOn, IsBegun, lines_of};

use crate::bind::fill_table;
use crate::fault::FlatFault;
use crate::hierarchy::Hierarchy;
use crate::scope::{NameScope, flat_gate, flat_latch, inner_prefix, top_scope};
use blif_read::{GateLine, Item, LatchLine, PartLine};
use indexmap::IndexMap;
use std::alloc::{AllocError, Global};

/// The top or an open instance: its model, the next item of the body, how many instances of the body were
/// passed, and how its names are resolved.
pub(crate) struct Level {
    pub(crate) model: usize,
    pub(crate) next: usize,
    pub(crate) parts: usize,
    pub(crate) scope: NameScope,
}

impl Drop for Level {
    fn drop(self) {
        let Level {
            model: _,
            next: _,
            parts: _,
            scope: _,
        } = self;
    }
}

/// How far the walk is: the levels that are open with the top first, the lines so far, and how many gates,
/// latches and instances may still come.
pub(crate) struct Walk {
    pub(crate) levels: Vec<Level>,
    pub(crate) latches: Vec<LatchLine>,
    pub(crate) gates: Vec<GateLine>,
    pub(crate) room: u32,
}

impl Drop for Walk {
    fn drop(self) {
        let Walk {
            levels: _,
            latches: _,
            gates: _,
            room: _,
        } = self;
    }
}

fn item_at<'a>(hierarchy: &Hierarchy<'a>, model: usize, next: usize) -> Option<&'a Item>
    requires { model < length hierarchy.now.models }
    ensures { let body = (model_at hierarchy.now.models model).body in
        MatchOption result (drop next body ≡ [])
        (λ item. (drop next body ≡ item.now ∷ drop (suc next) body) × (suc next < 2 ^ 64)) }
{
    let body = hierarchy.model(model).body.items();
    if next < body.len() {
        Some(&body[next])
    } else {
        None
    }
}

/// Puts a level back, behind the line that was passed.
fn put_back(walk: &mut Walk, mut level: Level) -> Result<(), AllocError>
    requires { suc level.next < 2 ^ 64 }
    ensures { OnOk result (PutsBack walk.old level walk.new) }
{
    level.next += 1;
    walk.levels.push(level)?;
    Ok(())
}

/// Adds a gate or a latch to the lines, by its printed names.
fn add_line(
    alloc: Global,
    walk: &mut Walk,
    scope: &NameScope,
    line: &Item,
) -> Result<(), AllocError>
    requires { 0 < walk.old.room }
    ensures { OnOk result (AddsLine walk.old scope.now line.now walk.new) }
{
    walk.room -= 1;
    match line {
        Item::Gate(gate) => walk.gates.push(flat_gate(alloc, scope, gate)?)?,
        Item::Latch(latch) => walk.latches.push(flat_latch(alloc, scope, latch)?)?,
        Item::Part(_) => {}
    }
    Ok(())
}

fn pass_line(alloc: Global, walk: &mut Walk, level: Level, line: &Item) -> Result<(), FlatFault>
    requires fits { suc level.next < 2 ^ 64 }
    requires room { 0 < walk.old.room }
    ensures passed { OnOk result (PassesLine walk.old level line.now walk.new) }
    ensures fault { IfErr result (λ fault. fault ≡ FlatFault.Memory) }
{
    add_line(alloc, walk, &level.scope, line)?;
    Ok(put_back(walk, level)?)
}

/// How the names of an instance of the model at this place are resolved, which stands in `level`.
fn inner_scope(
    alloc: Global,
    hierarchy: &Hierarchy<'_>,
    level: &Level,
    model: usize,
    part: &PartLine,
) -> Result<NameScope, FlatFault>
    requires model { model < length hierarchy.now.models }
    requires number { suc level.now.parts < 2 ^ 64 }
    requires fits { pairs_fault (model_at hierarchy.now.models model) part.now.pairs ≡ None }
    ensures prefix { IfOk result
        (λ scope. scope.prefix ≡ level.now.scope.prefix ++ (decimal (level.now.parts + 1) ++ mark_of hierarchy.now.models)) }
    ensures table { IfOk result
        (λ scope. scope.table.entries ≡ bound level.now.scope.prefix level.now.scope.table.entries part.now.pairs) }
    ensures fault { IfErr result (λ fault. fault ≡ FlatFault.Memory) }
{
    let outer = &level.scope;
    let prefix = inner_prefix(alloc, &outer.prefix, level.parts + 1, hierarchy.mark())?;
    let mut scope = NameScope {
        prefix,
        table: IndexMap::new(alloc),
    };
    let pairs = part.pairs.items();
    fill_table(alloc, hierarchy, outer, model, pairs, &mut scope.table)?;
    Ok(scope)
}

/// The level of an instance that stands in `level`.
fn inner_level(
    alloc: Global,
    hierarchy: &Hierarchy<'_>,
    level: &Level,
    part: &PartLine,
) -> Result<Level, FlatFault>
    requires number { suc level.now.parts < 2 ^ 64 }
    requires fits { FitsSome hierarchy.now.models part.now }
    ensures model { IfOk result (λ inner. find_model hierarchy.now.models part.now.model ≡ Some inner.model) }
    ensures inside { IfOk result (IsInner (mark_of hierarchy.now.models) level.now part.now) }
    ensures fault { IfErr result (λ fault. fault ≡ FlatFault.Memory) }
{
    let model = match hierarchy.find(&part.model) {
        Some(model) => model,
        None => unreachable!(),
    };
    let scope = inner_scope(alloc, hierarchy, level, model, part)?;
    Ok(Level {
        model,
        next: 0,
        parts: 0,
        scope,
    })
}

/// Puts a level back, behind the instance that opens above it.
fn open(walk: &mut Walk, mut level: Level, inner: Level) -> Result<(), AllocError>
    requires next { suc level.next < 2 ^ 64 }
    requires parts { suc level.parts < 2 ^ 64 }
    requires room { 0 < walk.old.room }
    ensures { OnOk result (Opens walk.old level inner walk.new) }
{
    level.next += 1;
    level.parts += 1;
    walk.room -= 1;
    walk.levels.push(level)?;
    walk.levels.push(inner)?;
    Ok(())
}

fn pass_part(
    alloc: Global,
    hierarchy: &Hierarchy<'_>,
    walk: &mut Walk,
    level: Level,
    part: &PartLine,
) -> Result<(), FlatFault>
    requires counted { level.parts ≤ level.next }
    requires fits { suc level.next < 2 ^ 64 }
    requires room { 0 < walk.old.room }
    requires enters { CanEnter hierarchy.now.depth hierarchy.now.models walk.old.levels.items level part.now }
    ensures passed { OnOk result
        (PassesPart hierarchy.now.depth hierarchy.now.models (mark_of hierarchy.now.models) walk.old level part.now walk.new) }
    ensures fault { IfErr result (λ fault. fault ≡ FlatFault.Memory) }
{
    let inner = inner_level(alloc, hierarchy, &level, part)?;
    Ok(open(walk, level, inner)?)
}

/// One step: past the next item of the innermost level, or out of it where there is none.
fn step(
    alloc: Global,
    hierarchy: &Hierarchy<'_>,
    walk: &mut Walk,
    level: Level,
) -> Result<(), FlatFault>
    requires goes { Goes hierarchy.now walk.old level }
    ensures on { OnOk result (StepsOn hierarchy.now walk.old level walk.new) }
    ensures prints { OnOk result (PrintsOn hierarchy.now.models walk.old level walk.new) }
    ensures fault { IfErr result (λ fault. fault ≡ FlatFault.Memory) }
{
    match item_at(hierarchy, level.model, level.next) {
        None => Ok(()),
        Some(item) => match item {
            Item::Gate(_) | Item::Latch(_) => pass_line(alloc, walk, level, item),
            Item::Part(part) => pass_part(alloc, hierarchy, walk, level, part),
        },
    }
}

/// The latches and the gates of a flat netlist, by their printed names.
pub(crate) struct FlatBody {
    pub(crate) latches: Vec<LatchLine>,
    pub(crate) gates: Vec<GateLine>,
}

impl Drop for FlatBody {
    fn drop(self) {
        let FlatBody {
            latches: _,
            gates: _,
        } = self;
    }
}

impl Walk {
    /// The lines, where the walk is over.
    fn into_body(self) -> FlatBody
        ensures { lines_of result ≡ record { latches = self.latches.items; gates = self.gates.items } }
    {
        let Walk {
            levels: _,
            latches,
            gates,
            room: _,
        } = self;
        FlatBody { latches, gates }
    }
}

fn begin_walk(alloc: Global, model: usize, room: u32) -> Result<Walk, AllocError>
    ensures { IfOk result (λ walk. IsBegun model room walk) }
{
    let mut levels = Vec::new(alloc);
    levels.push(Level {
        model,
        next: 0,
        parts: 0,
        scope: top_scope(alloc),
    })?;
    Ok(Walk {
        levels,
        latches: Vec::new(alloc),
        gates: Vec::new(alloc),
        room,
    })
}

/// The lines below the model at this place, where the walk has no fault. At most `depth` instances lie in one another, and
/// at most `limit` gates, latches and instances come.
pub(crate) fn flat_lines(
    alloc: Global,
    hierarchy: &Hierarchy<'_>,
    top: usize,
    limit: u32,
) -> Result<FlatBody, FlatFault>
    requires top { top < length hierarchy.now.models }
    requires lines { HasLines hierarchy.now.depth limit hierarchy.now.models top }
    ensures lines { IfOk result
        (λ lines. flat_lines_by hierarchy.now.depth limit hierarchy.now.models top ≡ Ok (lines_of lines)) }
    ensures printed { IfOk result (λ lines. ArePrintedLines (lines_of lines)) }
    ensures fault { IfErr result (λ fault. fault ≡ FlatFault.Memory) }
{
    hierarchy.laws();
    let mut walk = begin_walk(alloc, top, limit)?;
    while let Some(level) = walk.levels.pop() {
        step(alloc, hierarchy, &mut walk, level)?;
    }
    Ok(walk.into_body())
}

ghost use Rattle.std.specs.Prelude.{◌≡◌, ◌++◌, [], IfOk, OnOk, map};
ghost use Rattle.std.specs.Fmt.{decimal};
ghost use Rattle.flatten.specs.Laws.{resolved};
ghost use Rattle.flatten.specs.Levels.{gate_by, latch_by, clock_by};

use blif_read::{GateLine, LatchLine};
use cyc_base::{Items, Name};
use indexmap::IndexMap;
use netlist::Clock;
use std::alloc::{AllocError, Global};

/// How the names of a body are resolved on one path: a formal to the printed name that it is bound to, and
/// any other name behind the prefix of the path.
pub(crate) struct NameScope {
    pub(crate) prefix: Name,
    pub(crate) table: IndexMap<Name, Name>,
}

impl Drop for NameScope {
    fn drop(self) {
        let NameScope {
            prefix: _,
            table: _,
        } = self;
    }
}

/// How the names of the top's body are resolved.
pub(crate) fn top_scope(alloc: Global) -> NameScope
    ensures prefix { result.prefix ≡ [] }
    ensures table { result.table.entries ≡ [] }
{
    NameScope {
        prefix: Name::new(Vec::new(alloc)),
        table: IndexMap::new(alloc),
    }
}

/// One name behind another.
fn joined_name(alloc: Global, first: &Name, second: &Name) -> Result<Name, AllocError>
    ensures { IfOk result (λ name. name ≡ first.now ++ second.now) }
{
    if first.bytes().is_empty() {
        return second.copy();
    }
    let mut bytes = first.bytes().to_vec(alloc)?;
    bytes.extend_from_slice(second.bytes())?;
    Ok(Name::new(bytes))
}

/// The printed name.
pub(crate) fn resolve(alloc: Global, scope: &NameScope, name: &Name) -> Result<Name, AllocError>
    ensures { IfOk result (λ printed. printed ≡ resolved scope.now.prefix scope.now.table.entries name.now) }
{
    match scope.table.get(name) {
        Some(printed) => printed.copy(),
        None => joined_name(alloc, &scope.prefix, name),
    }
}

fn resolve_all(alloc: Global, scope: &NameScope, names: &[Name]) -> Result<Vec<Name>, AllocError>
    ensures { IfOk result
        (λ printed. printed.items ≡ map (resolved scope.now.prefix scope.now.table.entries) names.now) }
{
    let mut printed = Vec::with_capacity(alloc, names.len())?;
    for name in names {
        printed.push_reserved(resolve(alloc, scope, name)?);
    }
    Ok(printed)
}

/// Appends the decimal digits of a number.
fn add_number(alloc: Global, bytes: &mut Vec<u8>, number: usize) -> Result<(), AllocError>
    ensures { OnOk result (bytes.new.items ≡ bytes.old.items ++ decimal number) }
{
    let digits = format!(in alloc; "{number}")?;
    bytes.extend_from_slice(digits.as_bytes())
}

/// The prefix of an instance, by the prefix of its parent and its number there.
pub(crate) fn inner_prefix(
    alloc: Global,
    prefix: &Name,
    number: usize,
    mark: &Name,
) -> Result<Name, AllocError>
    ensures { IfOk result (λ inner. inner ≡ prefix.now ++ (decimal number ++ mark.now)) }
{
    let mut bytes = prefix.bytes().to_vec(alloc)?;
    add_number(alloc, &mut bytes, number)?;
    bytes.extend_from_slice(mark.bytes())?;
    Ok(Name::new(bytes))
}

/// The gate with printed names.
pub(crate) fn flat_gate(
    alloc: Global,
    scope: &NameScope,
    gate: &GateLine,
) -> Result<GateLine, AllocError>
    ensures { IfOk result (λ flat. flat ≡ gate_by scope.now.prefix scope.now.table.entries gate.now) }
{
    let pins = Items::of(resolve_all(alloc, scope, gate.pins.items())?);
    let output = resolve(alloc, scope, &gate.output)?;
    let cover = gate.cover.copy()?;
    Ok(GateLine {
        pins,
        output,
        cover,
    })
}

fn flat_clock(alloc: Global, scope: &NameScope, clock: &Clock) -> Result<Clock, AllocError>
    ensures { IfOk result (λ flat. flat ≡ clock_by scope.now.prefix scope.now.table.entries clock.now) }
{
    let name = resolve(alloc, scope, &clock.name)?;
    Ok(Clock {
        edge: clock.edge,
        name,
    })
}

/// The latch with printed names.
pub(crate) fn flat_latch(
    alloc: Global,
    scope: &NameScope,
    latch: &LatchLine,
) -> Result<LatchLine, AllocError>
    ensures { IfOk result (λ flat. flat ≡ latch_by scope.now.prefix scope.now.table.entries latch.now) }
{
    let from = resolve(alloc, scope, &latch.from)?;
    let output = resolve(alloc, scope, &latch.output)?;
    let control = match &latch.control {
        Some(clock) => Some(flat_clock(alloc, scope, clock)?),
        None => None,
    };
    Ok(LatchLine {
        from,
        output,
        control,
        init: latch.init,
    })
}

ghost use Rattle.std.specs.Prelude.{◌≡◌, ◌<◌, ◌+◌, length, map, All, IfOk};
ghost use Rattle.std.specs.List.{list_any};
ghost use Rattle.netlist.specs.Netlists.{count};
ghost use Rattle.netlist.specs.Fixpoint.{wire};
ghost use Rattle.storm.specs.Building.{AreFixed};
ghost use Rattle.storm.specs.Plans.{is_shaking as shakes_at, rest_value as rest_at, pin_values, each_gate, plan_at, storm_plan};

use crate::least::least_completion;
use cyc_base::{Bits, Items, Sig, Trit};
use netlist::Netlist;
use std::alloc::{AllocError, Global};
use ternary_run::settle_at;

/// What a storm needs of a vector. Each list has an entry for each gate, in flat order.
pub struct StormPlan {
    /// The gates that the fixpoint of the vector leaves unknown.
    pub shaking: Bits,
    /// The value of each other gate in the fixpoint, and false for these.
    pub rest: Bits,
    /// The least values of a shaking gate's pins, above those of their signals in the fixpoint, at which its cover is
    /// 0; and none for the other gates.
    pub low: Items<Bits>,
    /// The least such values at which its cover is 1.
    pub high: Items<Bits>,
}

impl Drop for StormPlan {
    fn drop(self) {
        let StormPlan {
            shaking: _,
            rest: _,
            low: _,
            high: _,
        } = self;
    }
}

fn value_of(values: &[Trit], s: Sig) -> Trit
    requires { s.0 < length values.now }
    ensures { result ≡ wire values.now s }
{
    values[s.0 as usize]
}

fn values_of(alloc: Global, values: &[Trit], signals: &[Sig]) -> Result<Vec<Trit>, AllocError>
    requires { All (λ s. s.0 < length values.now) signals.now }
    ensures { IfOk result (λ list. list.items ≡ map (wire values.now) signals.now) }
{
    signals.iter().map(|s| value_of(values, *s)).collect(alloc)
}

fn is_shaking(net: &Netlist, values: &[Trit], number: u32) -> bool
    requires gate { number < length net.now.gates }
    requires width { length values.now ≡ count net.now }
    ensures { result ≡ shakes_at net.now values.now number }
{
    matches!(value_of(values, net.gate_sig(number)), Trit::X)
}

/// The value of a gate, or 0 where it is unknown.
fn rest_value(net: &Netlist, values: &[Trit], number: u32) -> bool
    requires gate { number < length net.now.gates }
    requires width { length values.now ≡ count net.now }
    ensures { result ≡ rest_at net.now values.now number }
{
    matches!(value_of(values, net.gate_sig(number)), Trit::One)
}

fn shaking_gates(alloc: Global, net: &Netlist, values: &[Trit]) -> Result<Vec<bool>, AllocError>
    requires { length values.now ≡ count net.now }
    ensures { IfOk result (λ list. list.items ≡ each_gate net.now (shakes_at net.now values.now)) }
{
    (0..net.gates())
        .map(|number| is_shaking(net, values, number))
        .collect(alloc)
}

fn rest_values(alloc: Global, net: &Netlist, values: &[Trit]) -> Result<Vec<bool>, AllocError>
    requires { length values.now ≡ count net.now }
    ensures { IfOk result (λ list. list.items ≡ each_gate net.now (rest_at net.now values.now)) }
{
    (0..net.gates())
        .map(|number| rest_value(net, values, number))
        .collect(alloc)
}

/// The least values of a gate's pins at which its cover is 0, or 1, where the gate is unknown.
fn pin_values_of(
    alloc: Global,
    net: &Netlist,
    values: &[Trit],
    wanted: bool,
    number: u32,
) -> Result<Bits, AllocError>
    requires gate { number < length net.now.gates }
    requires fixed { AreFixed net.now values.now }
    ensures { IfOk result (λ list. list ≡ pin_values net.now values.now wanted number) }
{
    if !is_shaking(net, values, number) {
        return Ok(Bits::of(Vec::new(alloc)));
    }
    let gate = net.gate(number);
    let pins = values_of(alloc, values, gate.pins.items())?;
    least_completion(alloc, &gate.cover, &pins, wanted)
}

fn all_pin_values(
    alloc: Global,
    net: &Netlist,
    values: &[Trit],
    wanted: bool,
) -> Result<Items<Bits>, AllocError>
    requires { AreFixed net.now values.now }
    ensures { IfOk result (λ list. list ≡ each_gate net.now (pin_values net.now values.now wanted)) }
{
    let mut list = Vec::with_capacity(alloc, net.gates() as usize)?;
    for number in 0..net.gates() {
        list.push_reserved(pin_values_of(alloc, net, values, wanted, number)?);
    }
    Ok(Items::of(list))
}

fn any_shakes(shaking: &[bool]) -> bool
    ensures { result ≡ list_any (λ shakes. shakes) shaking.now }
{
    shaking.iter().any(|shakes| *shakes)
}

/// The plan where these are the values of all signals in the fixpoint.
fn plan_of(alloc: Global, net: &Netlist, values: &[Trit]) -> Result<StormPlan, AllocError>
    requires { AreFixed net.now values.now }
    ensures { IfOk result (λ plan. plan ≡ plan_at net.now values.now) }
{
    let shaking = shaking_gates(alloc, net, values)?;
    let rest = rest_values(alloc, net, values)?;
    let low = all_pin_values(alloc, net, values, false)?;
    let high = all_pin_values(alloc, net, values, true)?;
    Ok(StormPlan {
        shaking: Bits::of(shaking),
        rest: Bits::of(rest),
        low,
        high,
    })
}

/// The plan of a storm for a vector, one value for each input and latch: `None` exactly where the fixpoint of the
/// vector leaves no gate unknown.
pub fn plan(alloc: Global, net: &Netlist, v: &[bool]) -> Result<Option<StormPlan>, AllocError>
    requires { length v.now ≡ length net.now.inputs + length net.now.latches }
    ensures { IfOk result (λ plan. plan ≡ storm_plan net.now v.now) }
{
    let values = settle_at(alloc, net, v)?;
    let plan = plan_of(alloc, net, &values)?;
    if any_shakes(plan.shaking.items()) {
        Ok(Some(plan))
    } else {
        Ok(None)
    }
}

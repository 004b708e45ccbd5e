//! A play, event by event. Whole schedules are lines of the crate `cases`.

use crate::texts::net_of;
use cyc_base::{Items, Sig};
use delay_core::{Change, Event, EventFault, Play, Unfair};
use netlist::Netlist;
use std::alloc::{AllocError, Global};
use std::test::Fail;

/// An inverter.
const INVERTER: &[u8] = b".model m\n.inputs x\n.outputs a\n.names x a\n0 1\n";

/// An event of a gate whose pins read moments of these ages.
fn event(alloc: Global, gate: u32, ages: &[u32]) -> Result<Event, AllocError> {
    Ok(Event {
        gate,
        ages: Items::of(ages.to_vec(alloc)?),
    })
}

/// Whether events are refused for each reason but want of memory.
fn refuses_events(alloc: Global, play: &mut Play) -> Result<bool, AllocError> {
    let no_gate = play.apply(&event(alloc, 1, &[0])?);
    let no_age = play.apply(&event(alloc, 0, &[])?);
    let too_old = play.apply(&event(alloc, 0, &[1])?);
    Ok(
        matches!(no_gate, Err(EventFault::NoGate))
            && matches!(no_age, Err(EventFault::AgeCount))
            && matches!(too_old, Err(EventFault::TooOld { pin: 0 })),
    )
}

/// Whether the first event turns the inverter to 0, and the second one changes nothing.
fn plays_events(alloc: Global, play: &mut Play) -> Result<bool, AllocError> {
    let event = event(alloc, 0, &[0])?;
    let first = play.apply(&event);
    let second = play.apply(&event);
    let falls = matches!(
        first,
        Ok(Some(Change {
            at: 1,
            tick: 1,
            round: 1,
            sig: Sig(1),
            value: false,
        }))
    );
    Ok(falls && matches!(second, Ok(None)) && play.events() == 2)
}

/// Whether the round ends, and the next one doesn't, which has no event.
fn ends_rounds(play: &mut Play) -> bool {
    let first = play.end_round();
    let second = play.end_round();
    first.is_ok() && matches!(second, Err(Unfair { gate: 0 })) && play.round() == 2
}

fn is_played(alloc: Global, net: &Netlist) -> Result<bool, AllocError> {
    if net.inputs() != 1 || net.latches() != 0 || net.gates() != 1 {
        return Ok(false);
    }
    let mut play = Play::start(alloc, net, &[true], &[], &[true])?;
    play.reserve(2)?;
    Ok(
        refuses_events(alloc, &mut play)?
            && plays_events(alloc, &mut play)?
            && ends_rounds(&mut play),
    )
}

/// Whether events are played or refused.
pub fn is_right(alloc: Global) -> Result<bool, Fail> {
    let net = net_of(alloc, INVERTER)?;
    Ok(is_played(alloc, &net)?)
}

//! In which round of each tick a gate changed last.

ghost use Rattle.std.specs.Prelude.{◌≡◌, ◌<◌, ◌≤◌, ◌+◌, ◌^◌, ◌++◌, ◌∷◌, [], All, IfOk, OnOk, OnErr, length, slice_index_or, max};
ghost use Rattle.netlist.specs.Netlists.{count};
ghost use Rattle.delay_core.specs.declared.change.Change.{Change as change_type};
ghost use Rattle.commands.specs.declared.kind.Kind.TheVariants as kinds;
ghost use Rattle.probes.specs.Texts.{is_gate, last_tick, round_in, last_round, last_line, last_text};
ghost use Rattle.probes.specs.Tables.{IsRoundsTable, NotesRound};

use crate::heard::Heard;
use crate::pieces::{put, put_number};
use crate::probe::Probe;
use commands::Kind;
use cyc_base::Sig;
use delay_core::Change;
use netlist::Netlist;
use std::alloc::{AllocError, Global};

/// A probe that shows for each tick the last round in which a gate changed: `last tick=K round=R`.
#[derive(Drop)]
pub struct LastRound {
    heard: Heard,
}

impl LastRound {
    /// A probe that was told nothing. It takes no memory.
    pub fn new(alloc: Global) -> LastRound
        ensures { result.heard ≡ [] }
    {
        LastRound {
            heard: Heard::new(alloc),
        }
    }
}

/// The greatest tick of changes; 0 where there is none.
pub(crate) fn find_last_tick(changes: &[Change]) -> u64
    ensures { result ≡ last_tick changes.now }
{
    changes.iter().map(|change| change.tick).max().unwrap_or(0)
}

/// Whether a gate drives the signal.
fn is_of_gate(net: &Netlist, s: Sig) -> bool
    ensures { result ≡ is_gate net.now s }
{
    s.0 >= net.columns()
}

/// Enters a change in a table of the last rounds of ticks, the first of which is tick 1.
fn note_round(rounds: &mut [u64], net: &Netlist, change: &Change)
    ensures { NotesRound net.now change.now rounds.old rounds.new }
{
    if !is_of_gate(net, change.sig) || change.tick == 0 {
        return;
    }
    let place = change.tick - 1;
    if place < rounds.len() as u64 {
        let i = place as usize;
        rounds[i] = rounds[i].max(change.round);
    }
}

/// The table of the last rounds of so many ticks.
fn rounds_of(
    alloc: Global,
    net: &Netlist,
    changes: &[Change],
    ticks: u64,
) -> Result<Vec<u64>, AllocError>
    ensures { IfOk result (λ rounds. IsRoundsTable net.now changes.now ticks rounds.items) }
{
    let mut rounds = vec![in alloc; 0; ticks as usize]?;
    for change in changes {
        note_round(&mut rounds, net, change);
    }
    Ok(rounds)
}

/// Appends the line of a tick.
fn put_last_line(text: &mut Vec<u8>, tick: u64, round: u64) -> Result<(), AllocError>
    ensures { OnOk result (text.new.items ≡ text.old.items ++ last_line tick round) }
{
    put_number(text, b"last tick=", tick)?;
    put_number(text, b" round=", round)?;
    put(text, b"\n")
}

/// The lines of all ticks.
fn show_last(alloc: Global, net: &Netlist, changes: &[Change]) -> Result<Vec<u8>, AllocError>
    ensures { IfOk result (λ text. text.items ≡ last_text changes.now net.now) }
{
    let rounds = rounds_of(alloc, net, changes, find_last_tick(changes))?;
    let mut text = Vec::new(alloc);
    for i in 0..rounds.len() {
        put_last_line(&mut text, i as u64 + 1, rounds[i])?;
    }
    Ok(text)
}

impl Probe for LastRound {
    ghost kind = { λ _. kinds.Last };

    ghost heard = { λ probe. probe.heard };

    ghost text = { λ _. last_text };

    fn kind(&self) -> Kind {
        Kind::Last
    }

    fn told(&mut self, change: &Change) -> Result<(), AllocError> {
        self.heard.push(change)
    }

    fn show(&self, alloc: Global, net: &Netlist) -> Result<Vec<u8>, AllocError> {
        show_last(alloc, net, self.heard.items())
    }
}

//! How often gates change without need.

ghost use Rattle.std.specs.Prelude.{◌≡◌, ◌≢◌, ◌<◌, ◌≤◌, ◌+◌, ◌-◌, ◌^◌, ◌==◌, ◌&&◌, ◌||◌, ◌++◌, ◌∷◌, [], ℕ, not, All, IfOk, OnOk, OnErr, length, take, slice_index_or, slice_set};
ghost use Rattle.cyc_base.specs.declared.sig.Sig.{Sig as sig_type};
ghost use Rattle.netlist.specs.Netlists.{count, gate_sig, signal_name};
ghost use Rattle.delay_core.specs.declared.change.Change.{Change as change_type};
ghost use Rattle.commands.specs.declared.kind.Kind.TheVariants as kinds;
ghost use Rattle.probes.specs.Texts.{last_tick, glitch_line, glitches_text};
ghost use Rattle.probes.specs.Tables.{has_turn, IsTally};

use crate::heard::Heard;
use crate::pieces::{put, put_name, put_number};
use crate::probe::Probe;
use commands::Kind;
use cyc_base::Sig;
use delay_core::Change;
use netlist::Netlist;
use std::alloc::{AllocError, Global};
use std::collections::HashSet;

/// A probe that shows how often gates change without need: `glitch NAME count=N` for each gate that does, and
/// `glitches=TOTAL`. In each tick the first change of a gate in a round is needed.
#[derive(Drop)]
pub struct Glitches {
    heard: Heard,
}

impl Glitches {
    /// A probe that was told nothing. It takes no memory.
    pub fn new(alloc: Global) -> Glitches
        ensures { result.heard ≡ [] }
    {
        Glitches {
            heard: Heard::new(alloc),
        }
    }
}

/// Signals and the ticks in whose rounds they changed.
type Turns = HashSet<(u32, u64)>;

/// Enters that a signal changed in a round of a tick, and answers whether it did so for the first time.
fn enter(turns: &mut Turns, s: Sig, tick: u64) -> Result<bool, AllocError>
    ensures first { IfOk result (λ first. first ≡ not (has_turn turns.old.keys s tick)) }
    ensures entered { OnOk result ((other : sig_type) (t : ℕ) → has_turn turns.new.keys other t ≡ ((s.0 == other.0 && tick == t) || has_turn turns.old.keys other t)) }
{
    let first = turns.insert((s.0, tick))?;
    Ok(first)
}

/// The glitches of each gate, and of all, among changes that were entered one after another.
struct Tally {
    turns: Turns,
    counts: Vec<u64>,
    total: u64,
}

impl Drop for Tally {
    fn drop(self) {
        let Tally {
            turns: _,
            counts: _,
            total: _,
        } = self;
    }
}

/// Counts a glitch of the signal, where a gate drives it.
fn count_glitch(tally: &mut Tally, net: &Netlist, s: Sig)
    requires signal { s.0 < count net.now }
    requires size { length tally.old.counts.items ≡ length net.now.gates }
    requires few { (gate : ℕ) → slice_index_or tally.old.counts.items gate 0 < 2 ^ 64 - 1 }
    requires few_all { tally.old.total < 2 ^ 64 - 1 }
    ensures turns { tally.new.turns ≡ tally.old.turns }
    ensures given { s.0 < length net.now.inputs + length net.now.latches → tally.new ≡ tally.old }
    ensures counted { (gate : ℕ) → s ≡ gate_sig net.now gate → (tally.new.counts.items ≡ slice_set tally.old.counts.items gate (slice_index_or tally.old.counts.items gate 0 + 1)) × (tally.new.total ≡ tally.old.total + 1) }
{
    let given = net.columns();
    let _signals = net.count();
    if s.0 < given {
        return;
    }
    let gate = (s.0 - given) as usize;
    tally.counts[gate] += 1;
    tally.total += 1;
}

/// Enters the change at this place, after those before it.
fn enter_change(
    tally: &mut Tally,
    net: &Netlist,
    changes: &[Change],
    i: usize,
) -> Result<(), AllocError>
    requires place { i < length changes.now }
    requires signals { All (λ (change : change_type). change.sig.0 < count net.now) changes.now }
    requires entered { IsTally net.now (take i changes.now) (last_tick changes.now + 1) tally.old.turns.keys tally.old.counts.items tally.old.total }
    ensures { OnOk result (IsTally net.now (take (i + 1) changes.now) (last_tick changes.now + 1) tally.new.turns.keys tally.new.counts.items tally.new.total) }
{
    let _len = changes.len();
    let change = changes[i];
    if change.round == 0 {
        return Ok(());
    }
    if enter(&mut tally.turns, change.sig, change.tick)? {
        return Ok(());
    }
    count_glitch(tally, net, change.sig);
    Ok(())
}

/// The tally of changes.
fn tally_of(alloc: Global, net: &Netlist, changes: &[Change]) -> Result<Tally, AllocError>
    requires { All (λ (change : change_type). change.sig.0 < count net.now) changes.now }
    ensures { IfOk result (λ tally. IsTally net.now changes.now (last_tick changes.now + 1) tally.turns.keys tally.counts.items tally.total) }
{
    let counts = vec![in alloc; 0; net.gates() as usize]?;
    let mut tally = Tally {
        turns: HashSet::new(alloc),
        counts,
        total: 0,
    };
    for i in 0..changes.len() {
        enter_change(&mut tally, net, changes, i)?;
    }
    Ok(tally)
}

/// Appends the line of a gate, where it has a glitch.
fn put_gate_line(
    text: &mut Vec<u8>,
    net: &Netlist,
    gate: u32,
    glitches: u64,
) -> Result<(), AllocError>
    requires { gate < length net.now.gates }
    ensures { OnOk result (text.new.items ≡ text.old.items ++ glitch_line (signal_name net.now (gate_sig net.now gate)) glitches) }
{
    if glitches == 0 {
        return Ok(());
    }
    put(text, b"glitch ")?;
    put_name(text, net, net.gate_sig(gate))?;
    put_number(text, b" count=", glitches)?;
    put(text, b"\n")
}

/// The lines of all gates, and the total.
fn show_glitches(alloc: Global, net: &Netlist, changes: &[Change]) -> Result<Vec<u8>, AllocError>
    requires { All (λ (change : change_type). change.sig.0 < count net.now) changes.now }
    ensures { IfOk result (λ text. text.items ≡ glitches_text changes.now net.now) }
{
    let tally = tally_of(alloc, net, changes)?;
    let mut text = Vec::new(alloc);
    for gate in 0..net.gates() {
        put_gate_line(&mut text, net, gate, tally.counts[gate as usize])?;
    }
    put_number(&mut text, b"glitches=", tally.total)?;
    put(&mut text, b"\n")?;
    Ok(text)
}

impl Probe for Glitches {
    ghost kind = { λ _. kinds.Glitches };

    ghost heard = { λ probe. probe.heard };

    ghost text = { λ _. glitches_text };

    fn kind(&self) -> Kind {
        Kind::Glitches
    }

    fn told(&mut self, change: &Change) -> Result<(), AllocError> {
        self.heard.push(change)
    }

    fn show(&self, alloc: Global, net: &Netlist) -> Result<Vec<u8>, AllocError> {
        show_glitches(alloc, net, self.heard.items())
    }
}

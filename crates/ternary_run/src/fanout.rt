//! The gates that read each signal.

ghost use Rattle.std.specs.Prelude.{◌≡◌, ◌++◌, filter, map, IfOk, OnOk};
ghost use Rattle.std.specs.List.Sorted.{IsNonDecreasingBy};
ghost use Rattle.ternary_run.specs.Reading.{reads_of_pins, reads, reads_signal, readers_of, IsFanoutOf};

use cyc_base::Sig;
use netlist::Netlist;
use std::alloc::{AllocError, Global};
use std::collections::VecDeque;
use std::marker::Model;

/// A pin of this gate reads this signal.
#[derive(Clone, Copy, PartialEq, Eq)]
pub struct Read {
    pub signal: Sig,
    pub gate: u32,
}

/// The pins of all gates of a netlist, in the order of the signals that they read.
#[derive(Drop)]
pub struct Fanout {
    reads: Vec<Read>,
}

impl Model for Fanout {
    ghost use Rattle.std.specs.Prelude.{List};
    ghost use Rattle.ternary_run.specs.declared.fanout.Read.{Read as Pin};

    ghost Value = { List Pin };

    ghost view = { λ fanout. fanout.reads.items };
}

fn add_reads(reads: &mut Vec<Read>, gate: u32, pins: &[Sig]) -> Result<(), AllocError>
    ensures { OnOk result (reads.new.items ≡ reads.old.items ++ reads_of_pins gate pins.now) }
{
    for pin in pins {
        reads.push(Read { signal: *pin, gate })?;
    }
    Ok(())
}

/// The pins of all gates, gate by gate.
fn all_reads(alloc: Global, net: &Netlist) -> Result<Vec<Read>, AllocError>
    ensures { IfOk result (λ list. list.items ≡ reads net.now) }
{
    let mut reads = Vec::new(alloc);
    for number in 0..net.gates() {
        add_reads(&mut reads, number, net.gate(number).pins.items())?;
    }
    Ok(reads)
}

/// The pins that read this signal, found by halving.
fn reads_of_signal(reads: &[Read], signal: Sig) -> &[Read]
    requires { IsNonDecreasingBy (λ read. read.signal.0) reads.now }
    ensures { result.now ≡ filter (reads_signal signal) reads.now }
{
    let start = reads.partition_point(|read| read.signal.0 < signal.0);
    let rest = &reads[start..];
    let count = rest.partition_point(|read| read.signal.0 <= signal.0);
    &rest[..count]
}

/// Puts the gates of these pins at the end of the queue.
fn queue_gates(reads: &[Read], queue: &mut VecDeque<u32>) -> Result<(), AllocError>
    ensures { OnOk result (queue.new.items ≡ queue.old.items ++ map (λ read. read.gate) reads.now) }
{
    for read in reads {
        queue.push_back(read.gate)?;
    }
    Ok(())
}

impl Fanout {
    /// The readers of a netlist's signals.
    pub fn of(alloc: Global, net: &Netlist) -> Result<Fanout, AllocError>
        ensures { IfOk result (λ fanout. IsFanoutOf net.now fanout) }
    {
        let mut reads = all_reads(alloc, net)?;
        reads.sort_unstable_by_key(|read| read.signal.0);
        Ok(Fanout { reads })
    }

    /// Puts the gates that read this signal at the end of the queue.
    pub fn queue_readers(&self, signal: Sig, queue: &mut VecDeque<u32>) -> Result<(), AllocError>
        requires { IsNonDecreasingBy (λ read. read.signal.0) self.now }
        ensures { OnOk result (queue.new.items ≡ queue.old.items ++ readers_of self.now signal) }
    {
        queue_gates(reads_of_signal(&self.reads, signal), queue)
    }
}

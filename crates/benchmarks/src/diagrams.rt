//! Times the operations of `bdd_ops` on functions that are made here: n-queens, parity, adders and the hidden weighted
//! bit, and the outputs of netlists without loops. Nodes and operations go to out, times to err.
//!
//! `bench/buddy.c` does the first four in BuDDy, by the same operations in the same order, and `bench/collapse.sh` has
//! abc build the others in CUDD.

use crate::functions::{adder, hidden_weighted_bit, parity};
use crate::netlists::{adder_by_turns, decoder, less, multiplier, priority};
use crate::queens::queens;
use crate::work::Work;
use std::alloc::{AllocError, Global};
use std::io;
use std::rt::Runtime;
use std::time::Instant;

// Makes the function of this name.
fn make(work: &mut Work, alloc: Global, name: &str, size: u32) -> io::Result<()> {
    match name {
        "queens" => queens(work, size),
        "parity" => parity(work, size),
        "adder" => adder(work, size),
        "hidden" => hidden_weighted_bit(work, alloc, size)?,
        "turns" => adder_by_turns(work, size),
        "less" => less(work, size),
        "multiplier" => multiplier(work, alloc, size)?,
        "priority" => priority(work, size),
        "decoder" => decoder(work, size),
        _ => return Err(io::Error::other("no function has this name")),
    }
    Ok(())
}

// Makes it, and answers how many microseconds that took.
fn micros_of<R: Runtime>(
    rt: &R,
    work: &mut Work,
    alloc: Global,
    name: &str,
    size: u32,
) -> io::Result<u128> {
    let start = Instant::now(rt)?;
    make(work, alloc, name, size)?;
    Ok(start.elapsed(rt)?.as_micros())
}

// Prints the time of a function.
fn tell_time<R: Runtime>(
    rt: &R,
    work: &Work,
    name: &str,
    size: u32,
    micros: u128,
) -> io::Result<()> {
    let rate = (work.nodes() as u128).wrapping_mul(1_000_000) / micros.max(1);
    eprintln!(rt; "{name} {size}: {micros} us, {rate} nodes per second")
}

// Prints how many nodes and operations it took, if it was made whole.
fn tell_work<R: Runtime>(rt: &R, work: &Work, name: &str, size: u32) -> io::Result<()> {
    if !work.is_whole() {
        return Err(io::Error::other("no room for all nodes"));
    }
    let nodes = work.nodes();
    let operations = work.operations();
    println!(rt; "{name} {size}: {nodes} nodes, {operations} operations")
}

// Makes one function, and prints what that took.
fn time_in<R: Runtime>(
    rt: &R,
    work: &mut Work,
    alloc: Global,
    name: &str,
    size: u32,
) -> io::Result<()> {
    let micros = micros_of(rt, work, alloc, name, size)?;
    tell_work(rt, work, name, size)?;
    tell_time(rt, work, name, size, micros)
}

fn time<R: Runtime>(rt: &R, alloc: Global, name: &str, size: u32) -> io::Result<()> {
    let mut work = Work::new(alloc)?;
    time_in(rt, &mut work, alloc, name, size)
}

/// Times the function of this name and size.
pub fn time_sized<R: Runtime>(rt: &R, alloc: Global, name: &str, size: &str) -> io::Result<()> {
    match size.parse() {
        Ok(size) => time(rt, alloc, name, size),
        Err(_) => Err(io::Error::other("the size is a number")),
    }
}

/// Times small ones of the first four.
pub fn time_small<R: Runtime>(rt: &R, alloc: Global) -> io::Result<()> {
    for (name, size) in [("queens", 4), ("parity", 8), ("adder", 4), ("hidden", 6)] {
        time(rt, alloc, name, size)?;
    }
    Ok(())
}

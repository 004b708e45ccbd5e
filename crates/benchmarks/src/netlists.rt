//! The outputs of netlists without loops, gate by gate. `bench/collapse.sh` writes the same netlists as BLIF.

use crate::work::Work;
use bdd_store::Node;
use std::alloc::{AllocError, Global};

// The sum of three bits, and its carry.
fn add(work: &mut Work, a: Node, b: Node, c: Node) -> (Node, Node) {
    let differ = work.xor(a, b);
    let sum = work.xor(differ, c);
    let both = work.and(a, b);
    let passed = work.and(differ, c);
    let carry = work.or(both, passed);
    (sum, carry)
}

/// The sum of two numbers of n / 2 bits, whose variables stand by turns, the lowest bits first.
pub fn adder_by_turns(work: &mut Work, n: u32) {
    work.start(n);
    let mut carry = Node::of(false);
    for v in 0..n / 2 {
        let a = work.var(2 * v);
        let b = work.var(2 * v + 1);
        (_, carry) = add(work, a, b, carry);
    }
}

/// Whether the first of two numbers of n / 2 bits is the lesser. Their variables stand one number after the other,
/// the lowest bits first.
pub fn less(work: &mut Work, n: u32) {
    work.start(n);
    let width = n / 2;
    let mut less = Node::of(false);
    for v in 0..width {
        let a = work.var(v);
        let absent = work.not(a);
        let b = work.var(v + width);
        let below = work.and(absent, b);
        let not_above = work.or(absent, b);
        let still = work.and(not_above, less);
        less = work.or(below, still);
    }
}

// Adds the first factor, where a bit of the second is 1. The lowest bit of the sum is done with, and is left out.
fn add_row(work: &mut Work, sum: &mut [Node], bit: Node) {
    let mut carry = Node::of(false);
    let mut number = 0_u32;
    for v in 0..sum.len() {
        let factor = work.var(number);
        let product = work.and(factor, bit);
        let (digit, passed) = add(work, sum[v], product, carry);
        if v > 0 {
            sum[v - 1] = digit;
        }
        carry = passed;
        number = number.wrapping_add(1);
    }
    if let Some(last) = sum.last_mut() {
        *last = carry;
    }
}

/// The product of two numbers of n / 2 bits, whose variables stand one number after the other, the lowest bits
/// first.
pub fn multiplier(work: &mut Work, alloc: Global, n: u32) -> Result<(), AllocError> {
    work.start(n);
    let width = n / 2;
    let mut sum = vec![in alloc; Node::of(false); width as usize]?;
    for v in 0..width {
        let bit = work.var(v + width);
        add_row(work, &mut sum, bit);
    }
    Ok(())
}

/// For each bit whether it is the first that is 1.
pub fn priority(work: &mut Work, n: u32) {
    work.start(n);
    let mut none = Node::of(true);
    for v in 0..n {
        let bit = work.var(v);
        work.and(bit, none);
        let absent = work.not(bit);
        none = work.and(none, absent);
    }
}

// Whether the bits are those of a number, the lowest first.
fn is_number(work: &mut Work, n: u32, number: u32) {
    let mut word = Node::of(true);
    let mut rest = number;
    for v in 0..n {
        let bit = work.var(v);
        let literal = if rest % 2 == 1 { bit } else { work.not(bit) };
        word = work.and(word, literal);
        rest /= 2;
    }
}

/// For each number of n bits whether it is the one that they are.
pub fn decoder(work: &mut Work, n: u32) {
    work.start(n);
    for number in 0..1_u32.checked_shl(n).unwrap_or(0) {
        is_number(work, n, number);
    }
}

use crate::work::Work;
use bdd_store::Node;
use std::alloc::{AllocError, Global};

/// Whether an odd number of n bits is 1.
pub fn parity(work: &mut Work, n: u32) {
    work.start(n);
    let mut odd = Node::of(false);
    for v in 0..n {
        let bit = work.var(v);
        odd = work.xor(odd, bit);
    }
}

/// The bits of the sum of two numbers of n / 2 bits, whose variables stand one number after the other, the
/// lowest bits first.
pub fn adder(work: &mut Work, n: u32) {
    work.start(n);
    let width = n / 2;
    let mut carry = Node::of(false);
    for v in 0..width {
        let a = work.var(v);
        let b = work.var(v.wrapping_add(width));
        let differ = work.xor(a, b);
        work.xor(differ, carry);
        let both = work.and(a, b);
        let passed = work.and(differ, carry);
        carry = work.or(both, passed);
    }
}

// One more bit: a count of k before it is a count of k + 1 where the bit is 1. Answers the highest count.
fn count_bit(work: &mut Work, counts: &mut [Node], bit: Node) -> Node {
    let mut below = Node::of(false);
    for count in counts {
        let before = *count;
        *count = work.ite(bit, below, before);
        below = before;
    }
    work.and(bit, below)
}

// For each k whether k of n bits are 1.
fn counts_of(work: &mut Work, alloc: Global, n: u32) -> Result<Vec<Node>, AllocError> {
    let mut counts = vec![in alloc; Node::of(true)]?;
    for v in 0..n {
        let bit = work.var(v);
        let all = count_bit(work, &mut counts, bit);
        counts.push(all)?;
    }
    Ok(counts)
}

/// The bit whose number is the number of 1s among n bits, counted from 1, and 0 where there is none
/// (Bryant 1991).
pub fn hidden_weighted_bit(work: &mut Work, alloc: Global, n: u32) -> Result<(), AllocError> {
    work.start(n);
    let counts = counts_of(work, alloc, n)?;
    let mut hidden = Node::of(false);
    for v in 0..n {
        let bit = work.var(v);
        if let Some(weight) = counts.get(v as usize + 1) {
            let here = work.and(*weight, bit);
            hidden = work.or(hidden, here);
        }
    }
    Ok(())
}

//! Reads and writes that fail.

use crate::calls::{Seen, call, call_by_bytes, is};
use std::alloc::{AllocError, Global};
use std::test::Fail;

const GOOD: &str = ".model m\n.end\n";

const ACCEPTED: &str = "accepted gates=0 loops=0 latches=0\n";

const FAULT: &str = "m.blif: E16 no model\n";

/// Whether a failed read is told.
fn is_read_told(alloc: Global, read: u64) -> Result<bool, AllocError> {
    let seen = call(alloc, "check m.blif", GOOD.as_bytes(), b"", &[read], &[])?;
    Ok(is(&seen, 4, "", "m.blif: read failed\n"))
}

#[test]
fn failed_reads_are_told(rt: HostRuntime) -> Result<(), Fail> {
    for number in 0..2 {
        assert!(rt; is_read_told(rt.alloc(), number)?, "at {number}");
    }
    Ok(())
}

const LOOP: &str = ".model m\n.inputs x\n.outputs a\n.names x a a\n1- 1\n-1 1\n.end\n";

const ALWAYS_ONE: &str = ".model assume\n.inputs x\n.outputs ok\n.names x ok\n1 1\n.end\n";

/// What is told where this read fails of a netlist file and then a care file, of which each takes two reads.
fn told_of_read(read: u64) -> &'static str {
    if read < 2 {
        "m.blif: read failed\n"
    } else {
        "c.blif: read failed\n"
    }
}

fn is_read_named(alloc: Global, read: u64) -> Result<bool, AllocError> {
    let (net, care) = (LOOP.as_bytes(), ALWAYS_ONE.as_bytes());
    let seen = call(alloc, "check m.blif --care c.blif", net, care, &[read], &[])?;
    Ok(is(&seen, 4, "", told_of_read(read)))
}

fn no_read_is_left(alloc: Global) -> Result<bool, AllocError> {
    let (net, care) = (LOOP.as_bytes(), ALWAYS_ONE.as_bytes());
    let seen = call(alloc, "check m.blif --care c.blif", net, care, &[4], &[])?;
    Ok(is(&seen, 0, "accepted gates=1 loops=1 latches=0\n", ""))
}

#[test]
fn a_failed_read_names_its_file(rt: HostRuntime) -> Result<(), Fail> {
    for number in 0..4 {
        assert!(rt; is_read_named(rt.alloc(), number)?, "at {number}");
    }
    assert!(rt; no_read_is_left(rt.alloc())?);
    Ok(())
}

/// Whether sinks have parts of these texts after a write that failed.
fn has_parts(seen: &Seen, out: &str, err: &str) -> bool {
    seen.status == 5
        && out.as_bytes().starts_with(seen.out.bytes())
        && err.as_bytes().starts_with(seen.err.bytes())
}

fn verdict_is_cut(alloc: Global, write: u64) -> Result<bool, AllocError> {
    let seen = call(alloc, "check m.blif", GOOD.as_bytes(), b"", &[], &[write])?;
    Ok(has_parts(&seen, ACCEPTED, ""))
}

fn fault_is_cut(alloc: Global, write: u64) -> Result<bool, AllocError> {
    let seen = call(alloc, "check m.blif", b"", b"", &[], &[write])?;
    Ok(has_parts(&seen, "", FAULT))
}

#[test]
fn failed_writes_leave_a_part(rt: HostRuntime) -> Result<(), Fail> {
    for number in 0..4 {
        assert!(rt; verdict_is_cut(rt.alloc(), number)?, "out at {number}");
        assert!(rt; fault_is_cut(rt.alloc(), number)?, "err at {number}");
    }
    Ok(())
}

/// A netlist whose verdict takes more than one write of four bytes.
const AND: &str = ".model n\n.inputs a b\n.outputs y\n.names a b y\n11 1\n.end\n";

/// Whether out has the four bytes of the write before the one that failed.
fn verdict_is_cut_behind_four_bytes(alloc: Global) -> Result<bool, AllocError> {
    let seen = call(
        alloc,
        "check m.blif --nodes 1296",
        AND.as_bytes(),
        b"",
        &[],
        &[1],
    )?;
    Ok(is(&seen, 5, "acce", ""))
}

#[test]
fn a_verdict_is_cut_behind_its_first_write(rt: HostRuntime) -> Result<(), Fail> {
    assert!(rt; verdict_is_cut_behind_four_bytes(rt.alloc())?);
    Ok(())
}

const REWRITTEN: &str =
    ".model m\n.inputs x\n.outputs a\n.names z~\n.names x z~ c1~a\n1- 1\n-1 1\n.names x c1~a a\n1- 1\n-1 1\n.end\n";

/// Whether out has just the bytes that were written before this write.
fn rewriting_is_cut(alloc: Global, write: u64) -> Result<bool, AllocError> {
    let (net, care) = (LOOP.as_bytes(), ALWAYS_ONE.as_bytes());
    let seen = call_by_bytes(alloc, "rewrite m.blif --care c.blif", net, care, &[write])?;
    Ok(has_parts(&seen, REWRITTEN, "") && seen.out.bytes().len() as u64 == write)
}

#[test]
fn a_text_is_cut_off_at_each_byte(rt: HostRuntime) -> Result<(), Fail> {
    for number in 0..REWRITTEN.len() as u64 {
        assert!(rt; rewriting_is_cut(rt.alloc(), number)?, "at {number}");
    }
    Ok(())
}

fn refusal_is_not_told(alloc: Global) -> Result<bool, AllocError> {
    let seen = call(alloc, "rewrite m.blif", LOOP.as_bytes(), b"", &[], &[0])?;
    Ok(is(&seen, 5, "", ""))
}

#[test]
fn a_refusal_that_cannot_be_told_leaves_both_sinks_empty(rt: HostRuntime) -> Result<(), Fail> {
    assert!(rt; refusal_is_not_told(rt.alloc())?);
    Ok(())
}

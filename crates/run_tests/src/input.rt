//! Standard input as a file.

use crate::calls::{call_on_input, is};
use std::alloc::{AllocError, Global};
use std::test::Fail;

/// A dash is the file `/dev/stdin`, wherever a file may stand.
fn dash_is_read(alloc: Global, line: &str) -> Result<bool, AllocError> {
    let seen = call_on_input(alloc, line, b".model m\n.end\n")?;
    Ok(is(&seen, 0, "accepted gates=0 loops=0 latches=0\n", ""))
}

/// Its faults bear that name.
fn fault_is_told(alloc: Global, line: &str) -> Result<bool, AllocError> {
    let seen = call_on_input(alloc, line, b".model m\n.end\n")?;
    Ok(is(&seen, 3, "", "/dev/stdin: E41 no care model\n"))
}

#[test]
fn a_dash_is_standard_input(rt: HostRuntime) -> Result<(), Fail> {
    assert!(rt; dash_is_read(rt.alloc(), "check -")?);
    assert!(rt; dash_is_read(rt.alloc(), "check /dev/stdin")?);
    assert!(rt; fault_is_told(rt.alloc(), "check - --care -")?);
    Ok(())
}

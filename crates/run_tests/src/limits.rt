//! Files of great length.

use crate::calls::{call, is};
use std::alloc::{AllocError, Global};
use std::test::Fail;

/// The text of a chain of so many gates, the last one first.
fn chain(alloc: Global, gates: u32) -> Result<Vec<u8>, AllocError> {
    let mut text = b".model chain\n.inputs g0\n".to_vec(alloc)?;
    for gate in (1..=gates).rev() {
        text.extend_from_slice(format!(in alloc;
            ".names g{} g{gate}\n1 1\n",
            gate - 1
        )?.as_bytes())?;
    }
    Ok(text)
}

fn length_is_told(alloc: Global) -> Result<bool, AllocError> {
    let text = vec![in alloc; b'#'; 67_108_865]?;
    let seen = call(alloc, "check m.blif", &text, b"", &[], &[])?;
    Ok(is(&seen, 3, "", "m.blif: E01 file too long\n"))
}

#[test]
fn a_long_file_is_refused(rt: HostRuntime) -> Result<(), Fail> {
    assert!(rt; length_is_told(rt.alloc())?);
    Ok(())
}

fn chain_is_read(alloc: Global) -> Result<bool, AllocError> {
    let text = chain(alloc, 100_000)?;
    let seen = call(alloc, "loops m.blif", &text, b"", &[], &[])?;
    Ok(is(&seen, 0, "loops=0\n", ""))
}

#[test]
fn a_long_chain_has_no_loop(rt: HostRuntime) -> Result<(), Fail> {
    assert!(rt; chain_is_read(rt.alloc())?);
    Ok(())
}

ghost use Rattle.std.specs.Prelude.{◌≡◌, IfOk, MatchResult, string_bytes};
ghost use Rattle.maker.specs.Faults.{AreTexts, Refuses};
ghost use Rattle.maker.specs.Ring.{ring_text as text_of_ring, care_text as text_of_care};

use crate::fault::RingFault;
use crate::lines::{put_all_gates, put_latches, put_rows, put_wires};
use cyc_base::{MAX_RING_CELLS, MIN_RING_CELLS};
use std::alloc::{AllocError, Global};

fn ring_text(alloc: Global, n: u32) -> Result<String, AllocError>
    ensures { IfOk result (λ text. string_bytes text ≡ text_of_ring n) }
{
    let mut text = String::new(alloc);
    text.push_str(".model ring\n.inputs")?;
    put_wires(&mut text, "r", n)?;
    text.push_str("\n.outputs")?;
    put_wires(&mut text, "g", n)?;
    text.push_str("\n")?;
    put_latches(&mut text, n)?;
    put_all_gates(&mut text, n)?;
    text.push_str(".end\n")?;
    Ok(text)
}

fn care_text(alloc: Global, n: u32) -> Result<String, AllocError>
    ensures { IfOk result (λ text. string_bytes text ≡ text_of_care n) }
{
    let mut text = String::new(alloc);
    text.push_str(".model invariant\n.inputs")?;
    put_wires(&mut text, "t", n)?;
    text.push_str("\n.outputs ok\n.names")?;
    put_wires(&mut text, "t", n)?;
    text.push_str(" ok\n")?;
    put_rows(&mut text, n)?;
    text.push_str(".end\n")?;
    Ok(text)
}

/// The BLIF text of the ring arbiter of `n` cells, and the text of its care set, in which just one cell holds
/// the token.
///
/// Cell i has the input r(i), which requests, the output g(i), which grants, and the latch t(i), which holds the
/// token. `TooSmall` comes exactly below 2 cells, `TooLarge` exactly over 64.
pub fn ring(alloc: Global, n: u32) -> Result<(Vec<u8>, Vec<u8>), RingFault>
    ensures { MatchResult result (λ texts. AreTexts n texts.0.items texts.1.items) (λ fault. Refuses fault n) }
{
    if n < MIN_RING_CELLS {
        Err(RingFault::TooSmall)
    } else if n > MAX_RING_CELLS {
        Err(RingFault::TooLarge)
    } else {
        Ok((
            ring_text(alloc, n)?.into_bytes(),
            care_text(alloc, n)?.into_bytes(),
        ))
    }
}

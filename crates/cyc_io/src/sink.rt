ghost use Rattle.std.specs.Prelude.{◌<◌, ◌≤◌, ℕ, List, Option, IfOk, OnErr, length, take};
ghost use Rattle.std.specs.Io.KnownBytes.{Appends, Keeps};
ghost use Rattle.cyc_io.specs.Faults.{Rose};
ghost use Rattle.cyc_io.specs.Taken.{IsAppended, sink_call};

use thiserror::Error;

/// A write failed: the sink's count rose.
#[derive(Clone, Copy, Debug, PartialEq, Eq, Error)]
#[error("the write failed")]
pub struct Failed;

/// Where bytes are written.
pub trait Sink {
    /// The bytes taken so far, where the sink tells them.
    ghost put: { Self → Option (List ℕ) };

    /// How often writes have failed.
    ghost faults: { Self → ℕ };

    /// Takes some bytes, at least one, from the front of a piece.
    fn write(&mut self, piece: &[u8]) -> Result<usize, Failed>
        requires { 0 < length piece.now }
        ensures bound { IfOk result (λ n. (0 < n) × (n ≤ length piece.now)) }
        ensures taken { IfOk result (λ n. Appends (put self.old) (put self.new) (take n piece.now)) }
        ensures kept { OnErr result (Keeps (put self.old) (put self.new)) }
        ensures later { faults self.old ≤ faults self.new }
        ensures cause { OnErr result (Rose (faults self.old) (faults self.new)) };
}

/// Writes all the bytes, or a prefix of them where a write fails. It takes no memory.
#[tactic(auto, using(crate::proofs::TakenLemmas::appends_more, crate::proofs::TakenLemmas::appended_upto, crate::proofs::TakenLemmas::appended_fault))]
pub fn write_whole<K: Sink>(sink: &mut K, bytes: &[u8]) -> Result<(), Failed>
    ensures { IsAppended bytes.now (sink_call K.put K.faults sink.old sink.new) result }
{
    let mut at = 0;
    while at < bytes.len() {
        at += sink.write(&bytes[at..])?;
    }
    Ok(())
}

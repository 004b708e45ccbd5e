// A sink that keeps a whole text in memory.
ghost use Rattle.std.specs.Prelude.{◌≡◌, ◌<◌, ◌≤◌, Some, [], IfOk, OnOk, OnErr, length, take};
ghost use Rattle.std.specs.Io.KnownBytes.{Appends, Keeps};
ghost use Rattle.cyc_io.specs.Faults.{Rose};

use crate::counts::count_after;
use crate::{Failed, Sink};
use std::alloc::Global;

/// Bytes in memory, as many as memory allows: a write takes the whole piece, or fails for want of memory.
#[derive(Drop)]
pub struct TextSink {
    bytes: Vec<u8>,
    faults: u64,
}

impl TextSink {
    ghost use Rattle.cyc_io.specs.Text.{text_bytes};

    /// An empty text. It takes no memory before its first write.
    pub fn new(alloc: Global) -> TextSink
        ensures empty { text_bytes result ≡ [] }
        ensures faults { result.faults ≡ 0 }
    {
        TextSink {
            bytes: Vec::new(alloc),
            faults: 0,
        }
    }

    /// What it took.
    pub fn into_vec(self) -> Vec<u8>
        ensures { result.items ≡ text_bytes self }
    {
        self.bytes
    }
}

impl Sink for TextSink {
    ghost use Rattle.cyc_io.specs.Text.{text_bytes};

    ghost put = { λ sink. Some (text_bytes sink) };

    ghost faults = { λ sink. sink.faults };

    #[tactic(auto, using(crate::proofs::FaultLemmas::next_later, crate::proofs::FaultLemmas::next_rose))]
    fn write(&mut self, piece: &[u8]) -> Result<usize, Failed>
        requires { 0 < length piece.now }
        ensures bound { IfOk result (λ n. (0 < n) × (n ≤ length piece.now)) }
        ensures taken { IfOk result (λ n. Appends (Some (text_bytes self.old)) (Some (text_bytes self.new)) (take n piece.now)) }
        ensures kept { OnErr result (Keeps (Some (text_bytes self.old)) (Some (text_bytes self.new))) }
        ensures later { self.old.faults ≤ self.new.faults }
        ensures cause { OnErr result (Rose self.old.faults self.new.faults) }
        ensures whole { IfOk result (λ n. n ≡ length piece.now) }
        ensures quiet { OnOk result (self.new.faults ≡ self.old.faults) }
    {
        if self.bytes.extend_from_slice(piece).is_err() {
            self.faults = count_after(self.faults);
            return Err(Failed);
        }
        Ok(piece.len())
    }
}

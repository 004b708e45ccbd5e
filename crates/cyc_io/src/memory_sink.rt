// Bytes in memory, which tell their content and fail on demand.
ghost use Rattle.std.specs.Prelude.{◌≡◌, ◌<◌, ◌≤◌, Some, IfOk, OnOk, OnErr, length, take};
ghost use Rattle.std.specs.Io.KnownBytes.{Appends, Keeps};
ghost use Rattle.cyc_io.specs.Faults.{Rose};
ghost use Rattle.cyc_io.specs.Memory.{WriteIsToFail, count_to_take, empty_sink, after_taking, after_fault};

use crate::counts::count_after;
use crate::{Failed, Sink};
use std::alloc::{AllocError, Global};
use std::marker::Model;

/// Bytes in memory. The writes whose numbers, from 0, are in a list fail, and so do those for which no room is left.
/// Clauses see the bytes, the room, how many bytes one write takes at most, the list, how many writes were made, and
/// how many of them failed.
pub struct MemorySink {
    bytes: Vec<u8>,
    room: usize,
    most: usize,
    fail: Vec<u64>,
    calls: u64,
    faults: u64,
}

impl Drop for MemorySink {
    fn drop(self) {
        let MemorySink {
            bytes: _,
            room: _,
            most: _,
            fail: _,
            calls: _,
            faults: _,
        } = self;
    }
}

impl Model for MemorySink {
    ghost use Rattle.std.specs.Prelude.{◌≤◌, vec_len, vec_capacity};
    ghost use Rattle.cyc_io.specs.Memory.{BytesInMemory};

    ghost Value = { BytesInMemory };

    ghost view = { λ sink. record {
      bytes = sink.bytes.items;
      room = sink.room;
      most = sink.most;
      fail = sink.fail.items;
      calls = sink.calls;
      faults = sink.faults;
    } };

    // The bytes are inside the room, which is held, and a write takes some.
    ghost invariant = { λ sink. (vec_len sink.bytes ≤ sink.room) × (sink.room ≤ vec_capacity sink.bytes) × (1 ≤ sink.most) };
}

impl MemorySink {
    /// A sink with room for so many bytes, of which one write takes at most some.
    pub fn new(
        alloc: Global,
        room: usize,
        fail: Vec<u64>,
        most: usize,
    ) -> Result<MemorySink, AllocError>
        requires { 1 ≤ most }
        ensures { IfOk result (λ sink. sink ≡ empty_sink room fail.items most) }
    {
        let bytes = Vec::with_capacity(alloc, room)?;
        Ok(MemorySink {
            bytes,
            room,
            most,
            fail,
            calls: 0,
            faults: 0,
        })
    }

    /// What it took.
    pub fn bytes(&self) -> &[u8]
        ensures { result.now ≡ self.now.bytes }
    {
        &self.bytes
    }
}

impl Sink for MemorySink {
    ghost put = { λ sink. Some sink.bytes };

    ghost faults = { λ sink. sink.faults };

    #[tactic(auto, using(crate::proofs::FaultLemmas::next_later, crate::proofs::FaultLemmas::next_rose))]
    fn write(&mut self, piece: &[u8]) -> Result<usize, Failed>
        requires { 0 < length piece.now }
        ensures bound { IfOk result (λ n. (0 < n) × (n ≤ length piece.now)) }
        ensures taken { IfOk result (λ n. Appends (Some self.old.bytes) (Some self.new.bytes) (take n piece.now)) }
        ensures kept { OnErr result (Keeps (Some self.old.bytes) (Some self.new.bytes)) }
        ensures later { self.old.faults ≤ self.new.faults }
        ensures cause { OnErr result (Rose self.old.faults self.new.faults) }

        // It fails exactly where it is to fail. It takes no memory.
        ensures fails { OnErr result (WriteIsToFail self.old) }
        ensures writes { OnOk result (¬ WriteIsToFail self.old) }
        ensures count { IfOk result (λ n. n ≡ count_to_take self.old (length piece.now)) }

        // The next write goes by the same room, most and list, at the next number.
        ensures took { IfOk result (λ n. self.new ≡ after_taking self.old (take n piece.now)) }
        ensures failed { OnErr result (self.new ≡ after_fault self.old) }
    {
        let call = self.calls;
        self.calls = count_after(call);
        let count = piece.len().min(self.most).min(self.room - self.bytes.len());
        if count == 0 || self.fail.contains(&call) {
            self.faults = count_after(self.faults);
            return Err(Failed);
        }
        self.bytes.extend_from_slice(&piece[..count]).unwrap();
        Ok(count)
    }
}

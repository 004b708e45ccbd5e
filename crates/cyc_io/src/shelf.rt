ghost use Rattle.std.specs.Prelude.{◌≡◌, ◌<◌, ◌≤◌, ℕ, List, Option, ◌+◌, IfOk, OnOk, IsErrOf, length, vec_len};
ghost use Rattle.std.specs.Io.{ReadsAtMost};
ghost use Rattle.cyc_io.specs.Faults.{Rose, Counts, ChangesCountOf};
ghost use Rattle.cyc_io.specs.Files.{Files, IsFile, IsFront, GivesPart};
ghost use Rattle.cyc_io.specs.ReadFaults.{fault_of, no_memory, shelf_failed, shelf_memory};

use cyc_base::{MAX_FILE_BYTES, Name};
use std::alloc::{AllocError, Global};
use std::io;
use thiserror::Error;

/// Why a shelf gave nothing.
#[derive(Clone, Copy, Debug, PartialEq, Eq, Error)]
pub enum ShelfFault {
    /// The file isn't there, or reading it failed: its count rose.
    #[error("the read failed")]
    Failed,
    #[error("out of memory")]
    Memory,
}

/// Files that are read by name.
pub trait Shelf {
    /// The files, where the shelf tells them. A read doesn't change them.
    ghost files: { Self → Option Files };

    /// How often reads of each name have failed.
    ghost faults: { Self → Counts };

    /// Bytes of a file, from the place `at` on, to the front of the buffer. Their number is 0 only at the end of
    /// the file or for an empty buffer. After a refusal the buffer may hold anything.
    fn read(&mut self, name: &Name, at: u64, buf: &mut [u8]) -> Result<usize, ShelfFault>
        requires { at ≤ MAX_FILE_BYTES + 1 }
        ensures same { files self.new ≡ files self.old }
        ensures bound { ReadsAtMost result buf.new }
        ensures part { IfOk result (λ n. GivesPart (files self.old) name.now at n buf.old buf.new) }
        ensures counts { ChangesCountOf name.now (faults self.old) (faults self.new) }
        ensures cause { IsErrOf result ShelfFault.Failed → Rose (faults self.old name.now) (faults self.new name.now) };
}

/// Why a file wasn't read.
#[derive(Clone, Copy, Debug, PartialEq, Eq, Error)]
pub enum ReadFault {
    /// A read failed: the count of the name rose.
    #[error("the read failed")]
    Fault,
    /// The shelf gave more bytes than a file may have.
    #[error("the file is too long")]
    TooLong,
    #[error("out of memory")]
    Memory,
}

impl From<AllocError> for ShelfFault {
    ghost from_gives = { λ _ e. e ≡ shelf_memory };

    fn from(_: AllocError) -> Self {
        ShelfFault::Memory
    }
}

impl From<io::Error> for ShelfFault {
    ghost from_gives = { λ _ e. e ≡ shelf_failed };

    fn from(_: io::Error) -> Self {
        ShelfFault::Failed
    }
}

impl From<ShelfFault> for ReadFault {
    ghost from_gives = { λ fault e. e ≡ fault_of fault };

    fn from(fault: ShelfFault) -> Self {
        match fault {
            ShelfFault::Failed => ReadFault::Fault,
            ShelfFault::Memory => ReadFault::Memory,
        }
    }
}

impl From<AllocError> for ReadFault {
    ghost from_gives = { λ _ e. e ≡ no_memory };

    fn from(_: AllocError) -> Self {
        ReadFault::Memory
    }
}

// How many bytes are asked for at once.
const PIECE: usize = 65_536;

fn empty_piece(alloc: Global) -> Result<Vec<u8>, AllocError>
    ensures { IfOk result (λ piece. length piece.items ≡ PIECE) }
{
    vec![in alloc; 0u8; PIECE]
}

// Reads a piece of the file and puts it behind the bytes so far.
#[tactic(auto, using(crate::proofs::FileLemmas::front_more, crate::proofs::FileLemmas::whole_ended))]
fn read_more<S: Shelf>(
    shelf: &mut S,
    name: &Name,
    room: &mut [u8],
    bytes: &mut Vec<u8>,
) -> Result<usize, ReadFault>
    requires place { vec_len bytes.old ≤ MAX_FILE_BYTES }
    requires room { 0 < length room.old }
    ensures same { S.files shelf.new ≡ S.files shelf.old }
    ensures counts { ChangesCountOf name.now (S.faults shelf.old) (S.faults shelf.new) }
    ensures len { IfOk result (λ n. (n ≤ length room.old) × (vec_len bytes.new ≡ vec_len bytes.old + n)) }
    ensures front { OnOk result (IsFront (S.files shelf.old) name.now bytes.old.items
        → IsFront (S.files shelf.old) name.now bytes.new.items) }
    ensures whole { IfOk result (λ n. n ≡ 0 → IsFront (S.files shelf.old) name.now bytes.old.items
        → IsFile (S.files shelf.old) name.now bytes.new.items) }
    ensures fault { IsErrOf result ReadFault.Fault → Rose (S.faults shelf.old name.now) (S.faults shelf.new name.now) }
    ensures no_limit { IsErrOf result ReadFault.TooLong → ⊥ }
{
    let count = shelf.read(name, bytes.len() as u64, room)?;
    bytes.extend_from_slice(&room[..count])?;
    Ok(count)
}

/// The bytes of a file, of which there are at most `MAX_FILE_BYTES`.
#[tactic(auto, using(crate::proofs::FileLemmas::IsFront_nil, crate::proofs::FileLemmas::IsFront_file, crate::proofs::FaultLemmas::ChangesCountOf_refl, crate::proofs::FaultLemmas::ChangesCountOf_trans, crate::proofs::FaultLemmas::Rose_second))]
pub fn read_whole<S: Shelf>(alloc: Global, shelf: &mut S, name: &Name) -> Result<Vec<u8>, ReadFault>
    ensures same { S.files shelf.new ≡ S.files shelf.old }
    ensures counts { ChangesCountOf name.now (S.faults shelf.old) (S.faults shelf.new) }
    ensures bytes { IfOk result (λ bytes. IsFile (S.files shelf.old) name.now bytes.items) }
    ensures limit { IfOk result (λ bytes. length bytes.items ≤ MAX_FILE_BYTES) }
    ensures fault { IsErrOf result ReadFault.Fault → Rose (S.faults shelf.old name.now) (S.faults shelf.new name.now) }

    // The file's bytes, where the files are told.
    ensures too_long { IsErrOf result ReadFault.TooLong
        → (bytes : List ℕ) × (MAX_FILE_BYTES < length bytes) × IsFile (S.files shelf.old) name.now bytes }
{
    let mut bytes = Vec::new(alloc);
    let mut piece = empty_piece(alloc)?;
    while bytes.len() <= MAX_FILE_BYTES {
        let room = PIECE.min(MAX_FILE_BYTES + 1 - bytes.len());
        if read_more(shelf, name, &mut piece[..room], &mut bytes)? == 0 {
            return Ok(bytes);
        }
    }
    Err(ReadFault::TooLong)
}

// Files in memory, which tell their content and fail on demand.
ghost use Rattle.std.specs.Prelude.{◌≡◌, ◌⊎◌, ◌≤◌, ℕ, List, Some, None, IfOk, OnOk, IsErrOf, MatchOption, length};
ghost use Rattle.std.specs.Io.{ReadsAtMost};
ghost use Rattle.cyc_io.specs.Faults.{Rose, ChangesCountOf, RaisesOnly, SameCounts, next_count};
ghost use Rattle.cyc_io.specs.Files.{IsPart, GivesPart};
ghost use Rattle.cyc_io.specs.Memory.{files_in, faults_of, ReadIsToFail};
ghost use Rattle.cyc_io.specs.MemoryFiles.{file_of, AreDistinct};

use crate::counts::{Counts, count_after, raise, reserve};
use crate::{Shelf, ShelfFault};
use cyc_base::Name;
use std::alloc::Global;
use std::marker::Model;

/// Files in memory. The reads whose numbers, from 0, are in a list fail, and so do those of names that aren't there.
/// Clauses see the files, the list, how many reads were made, and how many of each name failed.
pub struct MemoryShelf {
    files: Vec<(Name, Vec<u8>)>,
    fail: Vec<u64>,
    calls: u64,
    counts: Counts,
}

impl Drop for MemoryShelf {
    fn drop(self) {
        let MemoryShelf {
            files: _,
            fail: _,
            calls: _,
            counts: _,
        } = self;
    }
}

impl Model for MemoryShelf {
    ghost use Rattle.cyc_io.specs.Memory.{FilesInMemory};

    ghost Value = { FilesInMemory };

    ghost view = { λ shelf. record {
      files = shelf.files.items;
      fail = shelf.fail.items;
      calls = shelf.calls;
      faults = shelf.counts.entries;
    } };
}

impl MemoryShelf {
    /// The shelf of these files. It takes no memory before its first read.
    pub fn new(alloc: Global, files: Vec<(Name, Vec<u8>)>, fail: Vec<u64>) -> MemoryShelf
        requires { AreDistinct files.items }
        ensures files { result.files ≡ files.items }
        ensures plan { result.fail ≡ fail.items }
        ensures calls { result.calls ≡ 0 }
        ensures faults { (name : List ℕ) → faults_of result name ≡ 0 }
    {
        MemoryShelf {
            files,
            fail,
            calls: 0,
            counts: Counts::new(alloc),
        }
    }
}

fn find<'a>(files: &'a [(Name, Vec<u8>)], name: &Name) -> Option<&'a [u8]>
    ensures { MatchOption result (file_of files.now name.now ≡ None)
        (λ bytes. file_of files.now name.now ≡ Some bytes.now) }
{
    match files {
        [file, ..] if file.0 == *name => Some(&file.1),
        [_, rest @ ..] => find(rest, name),
        [] => None,
    }
}

// Copies bytes from a place on to the front of a buffer.
#[tactic(auto, using(crate::proofs::FileLemmas::part_copied, crate::proofs::FileLemmas::part_none))]
fn give(bytes: &[u8], at: u64, buf: &mut [u8]) -> usize
    ensures part { IsPart bytes.now at result buf.old buf.new }
    ensures bound { result ≤ length buf.new }
{
    let len = bytes.len() as u64;
    if at >= len {
        return 0;
    }
    let rest = &bytes[at as usize..];
    let count = rest.len().min(buf.len());
    buf[..count].copy_from_slice(&rest[..count]);
    count
}

impl Shelf for MemoryShelf {
    ghost files = { λ shelf. Some (files_in shelf) };

    ghost faults = { λ shelf. faults_of shelf };

    #[tactic(auto, using(crate::proofs::FaultLemmas::raised_only, crate::proofs::FaultLemmas::raised_rose, crate::proofs::FaultLemmas::raises_behind, crate::proofs::FaultLemmas::same_only))]
    fn read(&mut self, name: &Name, at: u64, buf: &mut [u8]) -> Result<usize, ShelfFault>
        ensures same { self.new.files ≡ self.old.files }
        ensures bound { ReadsAtMost result buf.new }
        ensures part { IfOk result (λ n. GivesPart (Some (files_in self.old)) name.now at n buf.old buf.new) }
        ensures counts { ChangesCountOf name.now (faults_of self.old) (faults_of self.new) }
        ensures cause { IsErrOf result ShelfFault.Failed → Rose (faults_of self.old name.now) (faults_of self.new name.now) }

        // It fails where it is to fail, or the file isn't there, and only there.
        ensures fails { IsErrOf result ShelfFault.Failed → ReadIsToFail self.old ⊎ (files_in self.old name.now ≡ None) }
        ensures reads { OnOk result (¬ ReadIsToFail self.old) }

        // The next read goes by the same list, at the next number.
        ensures plan { self.new.fail ≡ self.old.fail }
        ensures calls { self.new.calls ≡ next_count self.old.calls }
        ensures raised { IsErrOf result ShelfFault.Failed → RaisesOnly name.now (faults_of self.old) (faults_of self.new) }
        ensures quiet { OnOk result (SameCounts (faults_of self.old) (faults_of self.new)) }
        ensures no_memory { IsErrOf result ShelfFault.Memory → SameCounts (faults_of self.old) (faults_of self.new) }
    {
        let call = self.calls;
        self.calls = count_after(call);
        reserve(&mut self.counts, name)?;
        if !self.fail.contains(&call) {
            if let Some(bytes) = find(&self.files, name) {
                return Ok(give(bytes, at, buf));
            }
        }
        raise(&mut self.counts, name);
        Err(ShelfFault::Failed)
    }
}

// Real files, and standard output and standard error. Both tell no content.
ghost use Rattle.std.specs.Prelude.{◌≡◌, ◌≤◌, ◌+◌, ℕ, List, None};
ghost use Rattle.cyc_base.specs.declared.limits.TheConstants.{MAX_FILE_BYTES as most_bytes};
ghost use Rattle.std.specs.Io.{ReadsAtMost};
ghost use Rattle.cyc_io.specs.Counts.{count_of};

use crate::counts::{Counts, count_after, raise, reserve};
use crate::{Failed, Shelf, ShelfFault, Sink};
use cyc_base::Name;
use std::alloc::Global;
use std::fs::{File, Files};
use std::io::{Read, Seek, SeekFrom, Write};

// The file that was read last, which stays open, and where that read ended.
struct LastFile<F: Read + Seek + Drop> {
    name: Name,
    file: F,
    at: u64,
}

impl<F: Read + Seek + Drop> Drop for LastFile<F> {
    fn drop(self) {
        let LastFile {
            name: _,
            file: _,
            at: _,
        } = self;
    }
}

impl<F: Read + Seek + Drop> LastFile<F> {
    // A read that goes on where the last one ended doesn't seek, so that a pipe can be read.
    fn read_at(&mut self, at: u64, buf: &mut [u8]) -> Result<usize, ShelfFault>
        requires { at ≤ most_bytes + 1 }
        ensures { ReadsAtMost result buf.new }
    {
        if self.at != at {
            self.file.seek(SeekFrom::Start(at))?;
        }
        let count = self.file.read(buf)?;
        self.at = at + count as u64;
        Ok(count)
    }
}

/// The files of the system. The one that was read last stays open, and is read on where the next read begins at the
/// place where the last one ended: so pipes are read like files.
pub struct HostShelf<'a, R: Files> {
    files: &'a R,
    counts: Counts,
    last: Option<LastFile<R::File>>,
}

impl<R: Files> Drop for HostShelf<'_, R> {
    fn drop(self) {
        let HostShelf {
            files: _,
            counts: _,
            last: _,
        } = self;
    }
}

impl<'a, R: Files> HostShelf<'a, R> {
    /// The shelf of the files that the runtime opens.
    pub fn new(alloc: Global, files: &'a R) -> Self
        ensures { (name : List ℕ) → count_of result.counts name ≡ 0 }
    {
        HostShelf {
            files,
            counts: Counts::new(alloc),
            last: None,
        }
    }
}

// A name that is no text is that of no file.
fn open_file<R: Files>(files: &R, name: &Name) -> Result<LastFile<R::File>, ShelfFault> {
    let Ok(path) = str::from_utf8(name.bytes()) else {
        return Err(ShelfFault::Failed);
    };
    let name = name.copy()?;
    let file = File::open(files, path)?;
    Ok(LastFile { name, file, at: 0 })
}

// Reads a file, which is opened where it isn't the last one. It stays open unless its read failed.
fn read_on<R: Files>(
    files: &R,
    last: &mut Option<LastFile<R::File>>,
    name: &Name,
    at: u64,
    buf: &mut [u8],
) -> Result<usize, ShelfFault>
    requires { at ≤ most_bytes + 1 }
    ensures { ReadsAtMost result buf.new }
{
    let mut open = match last.take() {
        Some(open) if open.name == *name => open,
        _ => open_file(files, name)?,
    };
    let count = open.read_at(at, buf)?;
    *last = Some(open);
    Ok(count)
}

impl<R: Files> Shelf for HostShelf<'_, R> {
    ghost files = { λ _. None };

    ghost faults = { λ shelf. count_of shelf.counts };

    #[tactic(auto, using(crate::proofs::FaultLemmas::raised_only, crate::proofs::FaultLemmas::raised_rose, crate::proofs::FaultLemmas::same_only))]
    fn read(&mut self, name: &Name, at: u64, buf: &mut [u8]) -> Result<usize, ShelfFault> {
        reserve(&mut self.counts, name)?;
        match read_on(self.files, &mut self.last, name, at, buf) {
            Ok(count) => Ok(count),
            Err(ShelfFault::Failed) => {
                raise(&mut self.counts, name);
                Err(ShelfFault::Failed)
            }
            Err(ShelfFault::Memory) => Err(ShelfFault::Memory),
        }
    }
}

/// A stream of the system. A write of no bytes is a fault.
#[derive(Drop)]
pub struct HostSink<W: Write + Drop> {
    stream: W,
    faults: u64,
}

impl<W: Write + Drop> HostSink<W> {
    /// The sink that writes to this stream.
    pub fn new(stream: W) -> Self
        ensures { result.faults ≡ 0 }
    {
        HostSink { stream, faults: 0 }
    }
}

impl<W: Write + Drop> Sink for HostSink<W> {
    ghost put = { λ _. None };

    ghost faults = { λ sink. sink.faults };

    #[tactic(auto, using(crate::proofs::FaultLemmas::next_later, crate::proofs::FaultLemmas::next_rose))]
    fn write(&mut self, piece: &[u8]) -> Result<usize, Failed> {
        match self.stream.write(piece) {
            Ok(count) if count > 0 => Ok(count),
            _ => {
                self.faults = count_after(self.faults);
                Err(Failed)
            }
        }
    }
}

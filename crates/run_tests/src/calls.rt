//! A call of `run` over files in memory.
ghost use Rattle.std.specs.Prelude.{◌≡◌, ◌≤◌, [], All, OnOk};

use bdd_ops::Diagrams;
use cyc_base::Name;
use cyc_io::{MemoryShelf, MemorySink};
use cyc_tool::run;
use probes::Probe;
use std::alloc::{AllocError, Global};

/// What a call gave: its status, and the bytes on both sinks.
pub struct Seen {
    pub status: u8,
    pub out: MemorySink,
    pub err: MemorySink,
}

impl Drop for Seen {
    fn drop(self) {
        let Seen {
            status: _,
            out: _,
            err: _,
        } = self;
    }
}

/// Whether a call gave this status and these texts.
pub fn is(seen: &Seen, status: u8, out: &str, err: &str) -> bool {
    seen.status == status
        && seen.out.bytes() == out.as_bytes()
        && seen.err.bytes() == err.as_bytes()
}

fn name(alloc: Global, text: &str) -> Result<Name, AllocError> {
    Ok(Name::new(text.as_bytes().to_vec(alloc)?))
}

fn words_of(alloc: Global, line: &str) -> Result<Vec<Name>, AllocError> {
    let mut words = Vec::new(alloc);
    for word in line.split_ascii_whitespace() {
        words.push(name(alloc, word)?)?;
    }
    Ok(words)
}

/// The netlist file `m.blif` and the care file `c.blif`, where the reads of these numbers fail.
fn shelf(alloc: Global, text: &[u8], care: &[u8], fail: &[u64]) -> Result<MemoryShelf, AllocError> {
    let netlist = (Name::new(b"m.blif".to_vec(alloc)?), text.to_vec(alloc)?);
    let care = (Name::new(b"c.blif".to_vec(alloc)?), care.to_vec(alloc)?);
    let files = vec![in alloc; netlist, care]?;
    Ok(MemoryShelf::new(alloc, files, fail.to_vec(alloc)?))
}

/// The netlist file `m.blif`, the vector file `v.txt` and the schedule file `s.txt`.
fn play_shelf(
    alloc: Global,
    text: &[u8],
    vectors: &[u8],
    schedule: &[u8],
) -> Result<MemoryShelf, AllocError> {
    let netlist = (Name::new(b"m.blif".to_vec(alloc)?), text.to_vec(alloc)?);
    let vectors = (Name::new(b"v.txt".to_vec(alloc)?), vectors.to_vec(alloc)?);
    let schedule = (Name::new(b"s.txt".to_vec(alloc)?), schedule.to_vec(alloc)?);
    let files = vec![in alloc; netlist, vectors, schedule]?;
    Ok(MemoryShelf::new(alloc, files, Vec::new(alloc)))
}

/// Standard input alone.
fn input_shelf(alloc: Global, text: &[u8]) -> Result<MemoryShelf, AllocError> {
    let input = (Name::new(b"/dev/stdin".to_vec(alloc)?), text.to_vec(alloc)?);
    let files = vec![in alloc; input]?;
    Ok(MemoryShelf::new(alloc, files, Vec::new(alloc)))
}

/// A sink of which a write takes at most so many bytes, and where the writes of these numbers fail.
fn sink(alloc: Global, fail: &[u64], most: usize) -> Result<MemorySink, AllocError>
    requires { 1 ≤ most }
{
    let fail = fail.to_vec(alloc)?;
    MemorySink::new(alloc, 500, fail, most)
}

fn status_of(
    alloc: Global,
    line: &str,
    shelf: &mut MemoryShelf,
    out: &mut MemorySink,
    err: &mut MemorySink,
    probes: Vec<Box<dyn Probe>>,
) -> Result<u8, AllocError>
    requires { All (λ probe. heard probe ≡ []) probes.items }
{
    let words = words_of(alloc, line)?;
    let mut d = Diagrams::new(alloc, 0, 1)?;
    Ok(run(alloc, &words, shelf, out, err, &mut d, probes))
}

fn call_over(
    alloc: Global,
    line: &str,
    shelf: &mut MemoryShelf,
    fail: &[u64],
    most: usize,
    probes: Vec<Box<dyn Probe>>,
) -> Result<Seen, AllocError>
    requires most { 1 ≤ most }
    requires silent { All (λ probe. heard probe ≡ []) probes.items }
{
    let mut out = sink(alloc, fail, most)?;
    let mut err = sink(alloc, fail, most)?;
    let status = status_of(alloc, line, shelf, &mut out, &mut err, probes)?;
    Ok(Seen { status, out, err })
}

/// The words of a line over both files, where these reads fail, and these writes on either sink.
pub fn call(
    alloc: Global,
    line: &str,
    text: &[u8],
    care: &[u8],
    read: &[u64],
    write: &[u64],
) -> Result<Seen, AllocError> {
    let mut shelf = shelf(alloc, text, care, read)?;
    call_over(alloc, line, &mut shelf, write, 4, Vec::new(alloc))
}

/// The same where sinks take one byte a write.
pub fn call_by_bytes(
    alloc: Global,
    line: &str,
    text: &[u8],
    care: &[u8],
    write: &[u64],
) -> Result<Seen, AllocError> {
    let mut shelf = shelf(alloc, text, care, &[])?;
    call_over(alloc, line, &mut shelf, write, 1, Vec::new(alloc))
}

/// The words of a line where standard input has this text.
pub fn call_on_input(alloc: Global, line: &str, text: &[u8]) -> Result<Seen, AllocError> {
    let mut shelf = input_shelf(alloc, text)?;
    call_over(alloc, line, &mut shelf, &[], 4, Vec::new(alloc))
}

/// Adds a probe that has heard nothing.
pub fn add_probe(probes: &mut Vec<Box<dyn Probe>>, probe: Box<dyn Probe>) -> Result<(), AllocError>
    requires silent { All (λ probe. heard probe ≡ []) probes.old.items }
    requires new { heard probe ≡ [] }
    ensures { OnOk result (All (λ probe. heard probe ≡ []) probes.new.items) }
{
    probes.push(probe)?;
    Ok(())
}

/// The words of a line over a netlist file, a vector file and a schedule file, where these probes are handed in.
pub fn call_probed(
    alloc: Global,
    line: &str,
    text: &str,
    vectors: &str,
    schedule: &str,
    probes: Vec<Box<dyn Probe>>,
) -> Result<Seen, AllocError>
    requires { All (λ probe. heard probe ≡ []) probes.items }
{
    let mut shelf = play_shelf(
        alloc,
        text.as_bytes(),
        vectors.as_bytes(),
        schedule.as_bytes(),
    )?;
    call_over(alloc, line, &mut shelf, &[], 4, probes)
}

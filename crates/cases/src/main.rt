// Worked cases: each line of standard input has the words of one call of `cyc`, over the files of this folder, or `#` and
// what the next ones show. What each call tells on out, and then on err, and its status stand below its words.
#![tactic(auto)]

ghost use Rattle.std.specs.Prelude.{◌≡◌, [], All};

use bdd_ops::Diagrams;
use cyc_base::Name;
use cyc_io::{HostShelf, HostSink, TextSink};
use cyc_tool::run;
use probes::{Glitches, LastRound, Probe, Trace, VcdOut, one_of_each_kind};
use std::alloc::{AllocError, Global};
use std::io;
use std::io::Write;

// The words of a line.
fn words_of(alloc: Global, line: &str) -> Result<Vec<Name>, AllocError> {
    let mut words = Vec::new(alloc);
    for word in line.split_ascii_whitespace() {
        words.push(Name::new(word.as_bytes().to_vec(alloc)?))?;
    }
    Ok(words)
}

// The status of a call with these words and probes, and what it told on err.
fn status_with(
    rt: &HostRuntime,
    words: &[Name],
    err: &mut TextSink,
    probes: Vec<Box<dyn Probe>>,
) -> Result<u8, AllocError>
    requires { All (λ probe. heard probe ≡ []) probes.items }
{
    let mut d = Diagrams::new(rt.alloc(), 0, 1)?;
    let mut shelf = HostShelf::new(rt.alloc(), rt);
    let mut out = HostSink::new(rt.stdout());
    Ok(run(rt.alloc(), words, &mut shelf, &mut out, err, &mut d, probes))
}

// The same with a probe of each kind.
fn status_of(rt: &HostRuntime, words: &[Name], err: &mut TextSink) -> Result<u8, AllocError> {
    let alloc = rt.alloc();
    let trace = Box::new(alloc, Trace::new(alloc))?;
    let glitches = Box::new(alloc, Glitches::new(alloc))?;
    let last = Box::new(alloc, LastRound::new(alloc))?;
    let dump = Box::new(alloc, VcdOut::new(alloc))?;
    let probes = one_of_each_kind(alloc, trace, glitches, last, dump)?;
    status_with(rt, words, err, probes)
}

// What a call told on err.
fn show_err(rt: &HostRuntime, text: &[u8]) -> io::Result<()> {
    if text.is_empty() {
        return Ok(());
    }
    println!(rt; "on err:")?;
    rt.stdout().write_all(text)
}

// A call with these words.
fn show_call(rt: &HostRuntime, words: &[Name]) -> io::Result<()> {
    let mut err = TextSink::new(rt.alloc());
    let status = status_of(rt, words, &mut err)?;
    show_err(rt, &err.into_vec())?;
    println!(rt; "status {status}\n")
}

// The call of a line, or the heading of those behind it.
fn show(rt: &HostRuntime, line: &str) -> io::Result<()> {
    if line.starts_with("#") {
        return println!(rt; "{line}\n");
    }
    println!(rt; "$ cyc {line}")?;
    let words = words_of(rt.alloc(), line)?;
    show_call(rt, &words)
}

fn main(rt: HostRuntime) -> io::Result<()> {
    let text = io::read_to_string(rt.alloc(), rt.stdin())?;
    for line in text.lines() {
        show(&rt, line)?;
    }
    Ok(())
}

ghost use Rattle.std.specs.Prelude.{◌≡◌, ◌≢◌, ◌≤◌, true, MatchResult, IfOk, Ok, Err, length};
ghost use Rattle.blif_read.specs.Reads.{if_any, reads_lines, reads};
ghost use Rattle.blif_read.specs.Answers.{Answers};
ghost use Rattle.blif_read.specs.Flattening.{CanBeFlattened};
ghost use Rattle.blif_read.specs.declared.fault.BlifFault.TheVariants.{Memory};

use crate::fault::BlifFault;
use crate::models::{BlifModel, Models};
use crate::parts::read_parts;
use crate::reader::ModelReader;
use blif_text::Lines;
use cyc_base::Items;
use std::alloc::Global;

pub(crate) fn if_any(models: Vec<BlifModel>) -> Result<Items<BlifModel>, BlifFault>
    ensures { result ≡ if_any models.items }
{
    if models.is_empty() {
        return Err(BlifFault::NoModel);
    }
    Ok(Items::of(models))
}

#[tactic(auto, using(crate::proofs::ReadLemmas::at_start, crate::proofs::ReadLemmas::at_next, crate::proofs::ReadLemmas::at_fault, crate::proofs::ReadLemmas::at_end))]
fn read_lines(alloc: Global, lines: &Lines) -> Result<Items<BlifModel>, BlifFault>
    ensures { Answers result (reads_lines (Ok lines.now)) }
{
    let mut reader = ModelReader::new(alloc);
    for i in 0..lines.len() {
        reader.take_line(alloc, &lines.line(i))?;
    }
    let models = reader.finish()?;
    if_any(models)
}

// The models of a text whose lines all stand in memory, or its first fault.
fn read_whole(alloc: Global, bytes: &[u8]) -> Result<Items<BlifModel>, BlifFault>
    ensures { Answers result (reads bytes.now) }
{
    let lines = Lines::of(alloc, bytes, true)?;
    read_lines(alloc, &lines)
}

// The models of a text, or its first fault. A text with a fault is read again as a whole, since a bad byte behind
// the fault comes first.
fn models_of(alloc: Global, bytes: &[u8]) -> Result<Items<BlifModel>, BlifFault>
    ensures { Answers result (reads bytes.now) }
{
    match read_parts(alloc, bytes) {
        Ok(models) => Ok(models),
        Err(BlifFault::Memory) => Err(BlifFault::Memory),
        Err(_) => read_whole(alloc, bytes),
    }
}

/// The models of a BLIF text, in the order of the text (the Berkeley BLIF manual, in this project's
/// profile).
///
/// Each fault but `Memory` comes exactly where the text has it, and it is the text's first: a bad byte
/// anywhere comes before all others, and then the first line with a fault decides.
///
/// The models of a text of at most 4,000,000,000 bytes can be flattened: all names are BLIF names, the
/// models' names differ, each gate has as many pins as its cover, no control is named `NIL`, and no model
/// has over 4,000,000,000 inputs.
pub fn read(alloc: Global, bytes: &[u8]) -> Result<Models, BlifFault>
    ensures models { MatchResult result
        (λ models. reads bytes.now ≡ Ok models.list)
        (λ fault. fault ≢ Memory → reads bytes.now ≡ Err fault) }
    ensures flat { length bytes.now ≤ 4000000000 → IfOk result (λ models. CanBeFlattened models.list) }
{
    let list = models_of(alloc, bytes)?;
    Ok(Models { list })
}

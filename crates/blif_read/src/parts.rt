// A text whose lines are read part by part, so that few of them stand in memory at once.
ghost use Rattle.std.specs.Prelude.{◌≡◌, IfOk, OnOk, Ok};
ghost use Rattle.blif_read.specs.Reads.{reads};
ghost use Rattle.blif_read.specs.Parts.{LeadTo};
ghost use Rattle.blif_read.specs.Readers.{progress_of};

use crate::fault::BlifFault;
use crate::models::BlifModel;
use crate::reader::ModelReader;
use crate::text::if_any;
use blif_text::{LineParts, Lines};
use cyc_base::Items;
use std::alloc::Global;

fn take_part(alloc: Global, part: &Lines, reader: &mut ModelReader) -> Result<(), BlifFault>
    ensures { OnOk result (LeadTo (progress_of reader.old) part.now (progress_of reader.new)) }
{
    for i in 0..part.len() {
        reader.take_line(alloc, &part.line(i))?;
    }
    Ok(())
}

// The models of a text that has no fault. Of one that has, the fault needn't be its first, since a bad byte
// may follow.
pub fn read_parts(alloc: Global, bytes: &[u8]) -> Result<Items<BlifModel>, BlifFault>
    ensures { IfOk result (λ models. reads bytes.now ≡ Ok models) }
{
    let mut reader = ModelReader::new(alloc);
    let mut parts = LineParts::new(alloc);
    let mut i = 0;
    while i < bytes.len() {
        i = parts.take_from(true, bytes, i)?;
        // A part ends where a line does.
        if bytes[i - 1] != b'\n' {
            continue;
        }
        if let Some(part) = parts.part(alloc) {
            take_part(alloc, &part, &mut reader)?;
        }
    }
    let last = parts.finish(true)?;
    take_part(alloc, &last, &mut reader)?;
    let models = reader.finish()?;
    if_any(models)
}

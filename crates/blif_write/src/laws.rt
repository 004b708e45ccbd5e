//! The laws of reading back, each the contract of a function that does nothing.

ghost use Rattle.blif_write.specs.Laws.{WrittenReadsBack, WrittenModelsReadBack};

/// The text of a netlist with at most 4,000,000 gates and latches is read without a fault, and flattening its
/// model gives the netlist again.
pub fn written_text_reads_back()
    ensures { WrittenReadsBack }
{}

/// The same of the texts of some netlists, one after another, where their names differ: each is given again by its
/// name.
pub fn written_models_read_back()
    ensures { WrittenModelsReadBack }
{}

//! The law of reading back, the contract of a function that does nothing.

ghost use Rattle.sched_text.specs.ReadingBack.{WrittenReadsBack};

/// The text of a schedule that fits a netlist, with numbers of 32 bits, reads back as a schedule that is equal but for
/// the numbers of its lines.
pub fn written_schedule_reads_back()
    ensures { WrittenReadsBack }
{}

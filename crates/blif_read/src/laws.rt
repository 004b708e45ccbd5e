//! Laws of what a text means, each the contract of a function that does nothing.

ghost use Rattle.blif_read.specs.Laws.{ModelsLookBack, CoversLookBack};

/// A model has just the lines from which the nearest earlier `.model` or `.end` line is its own `.model`
/// line, and a cover just the rows whose nearest earlier directive is its own `.names` line.
pub fn lines_look_back_to_their_heads()
    ensures models { ModelsLookBack }
    ensures covers { CoversLookBack }
{}

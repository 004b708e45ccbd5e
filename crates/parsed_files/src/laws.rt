//! The law of care files that are written, the contract of a function that does nothing.

ghost use Rattle.parsed_files.specs.CareTexts.{CareTextsReadBack};

/// A text of a care set's models, which have the names of a care file's, has that care set again.
pub fn care_texts_read_back()
    ensures { CareTextsReadBack }
{}

//! The laws of the value and of the exact extension, each the contract of a function that does nothing.

ghost use Rattle.cover_logic.specs.Covers.{Cover};
ghost use Rattle.cover_logic.specs.Laws.{ExtIsExact, ExtAtBits, IsMostInformative, ValueIsMonotone};

/// The exact extension is b exactly where every completion gives b, and so at Boolean pins it is the value.
pub fn extension_is_exact()
    ensures exact { ExtIsExact }
    ensures at_bits { ExtAtBits }
{}

/// The exact extension is monotone, and of all functions that lie below the value at every completion it
/// tells the most. The value, which knows Boolean pins alone, is monotone too.
pub fn extension_is_most_informative()
    ensures most_informative { (cover : Cover) → IsMostInformative cover }
    ensures value { ValueIsMonotone }
{}

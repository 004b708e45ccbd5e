//! The laws of changes and of dumps, each the contract of a function that does nothing.

ghost use Rattle.probes.specs.Codes.{CodesDiffer};
ghost use Rattle.probes.specs.Reading.{DumpsShowValues};
ghost use Rattle.probes.specs.Values.{ChangesTellValues};

/// The changes of a run tell the value of each signal at each moment: it is the last one that it was given until then.
pub fn changes_tell_values()
    ensures { ChangesTellValues }
{}

/// Different signals have different codes.
pub fn codes_differ()
    ensures { CodesDiffer }
{}

/// The dump of a run shows the value of each signal at each moment: it is the last value line of the signal until then.
pub fn dumps_show_values()
    ensures { DumpsShowValues }
{}

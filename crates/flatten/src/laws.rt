//! The laws of names, each the contract of a function that does nothing.

ghost use Rattle.flatten.specs.Laws.{ResolvedIsClimbed, NamesTellWires, WalkNamesWires, SignalsNameWires};

/// Tables that are filled on the way down give the wires that climbing gives.
pub fn tables_give_wires()
    ensures { ResolvedIsClimbed }
{}

/// Names of a hierarchy print alike only where they mean one wire.
pub fn names_tell_wires()
    ensures { NamesTellWires }
{}

/// Each name of a flat netlist is that of one wire, so the names of two wires differ: the paths of the walk bind
/// names of the file.
pub fn flat_names_are_wires()
    ensures lines { WalkNamesWires }
    ensures signals { SignalsNameWires }
{}

//! Laws of solutions and of working lists, each the contract of a function that does nothing.

ghost use Rattle.fixpoint.specs.Laws.{SolutionsCount, SolutionsStay, WorkingListsHaveWidths, FixIsWorking, SweepsAreWorking, GatePartsAgree};

/// The loops of a solution are such as `sweeps` asks for, and a solution stays one while roots stay.
pub fn solutions()
    ensures count { SolutionsCount }
    ensures stay { SolutionsStay }
{}

/// Each working list has a width, so the bound of `solve` never speaks of nothing.
pub fn working_lists()
    ensures { WorkingListsHaveWidths }
{}

/// Each rail of a solved signal is a function of the working list, and so is each rail that a sweep sets. The
/// functions of gates go by the vectors of the store's width alone.
pub fn working_functions()
    ensures fix { FixIsWorking }
    ensures swept { SweepsAreWorking }
    ensures agree { GatePartsAgree }
{}

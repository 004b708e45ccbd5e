//! The order in which a netlist's columns are laid on the variables of diagrams.

ghost use Rattle.std.specs.Prelude.{◌≡◌, ◌<◌, ◌++◌, ◌∷◌, [], ℕ, List, length, IfOk, OnOk};
ghost use Rattle.bdd_ops.specs.Least.{IsLayout};
ghost use Rattle.netlist.specs.Netlists.{IsNetlist};
ghost use Rattle.loops.specs.Sweeps.{first_gate};
ghost use Rattle.fixpoint.specs.Orders.{first_signals, order as order_of, AreTaken};

use cyc_base::Sig;
use netlist::Netlist;
use std::alloc::{AllocError, Global};

/// Takes a column, unless it is taken already.
fn take_column(marks: &mut [bool], columns: &mut Vec<u32>, column: u32) -> Result<(), AllocError>
    requires { column < length marks.old }
    ensures width { length marks.new ≡ length marks.old }
    ensures taken { (from : List ℕ) → AreTaken from marks.old columns.old.items → OnOk result (AreTaken (from ++ column ∷ []) marks.new columns.new.items) }
{
    if !marks[column as usize] {
        marks[column as usize] = true;
        columns.push(column)?;
    }
    Ok(())
}

/// Takes the columns that these pins read.
fn take_read(marks: &mut [bool], columns: &mut Vec<u32>, pins: &[Sig]) -> Result<(), AllocError>
    ensures width { length marks.new ≡ length marks.old }
    ensures taken { (from : List ℕ) → AreTaken from marks.old columns.old.items →
        OnOk result (AreTaken (from ++ first_signals (length marks.old) pins.now) marks.new columns.new.items) }
{
    for pin in pins {
        if (pin.0 as usize) < marks.len() {
            take_column(marks, columns, pin.0)?;
        }
    }
    Ok(())
}

/// The columns by variable, where diagrams are to have a variable for each column: in the order in which they are
/// first read, when the gates are gone through in flat order and their pins in order. The columns that no gate reads
/// follow by number.
///
/// Inputs that are used together are so near one another, whatever the order in which a netlist lists them (the
/// order of a traversal of the netlist, Fujita, Fujisawa and Kawato 1988; Malik, Wang, Brayton and
/// Sangiovanni-Vincentelli 1988).
pub fn order(alloc: Global, net: &Netlist) -> Result<Vec<u32>, AllocError>
    ensures order { IfOk result (λ columns. columns.items ≡ order_of net.now) }
    ensures layout { IfOk result (λ columns. IsLayout (first_gate net.now) columns.items) }
    ensures valid { IsNetlist net.now }
{
    let number = net.columns();
    let mut marks = vec![in alloc; false; number as usize]?;
    let mut columns = Vec::with_capacity(alloc, number as usize)?;
    for gate in 0..net.gates() {
        take_read(&mut marks, &mut columns, net.gate(gate).pins.items())?;
    }
    for column in 0..number {
        take_column(&mut marks, &mut columns, column)?;
    }
    Ok(columns)
}

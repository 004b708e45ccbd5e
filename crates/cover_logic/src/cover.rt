ghost use Rattle.std.specs.Prelude.{◌≡◌, ◌↔◌, true, not, length, IfOk};
ghost use Rattle.std.specs.List.{position_from};
ghost use Rattle.std.specs.Result.{result_err};
ghost use Rattle.cover_logic.specs.Covers.{cover_of, first_fault, has_width, IsCover, value};
ghost use Rattle.cover_logic.specs.Extensions.{ext};

use crate::extend::extension_of_rows;
use crate::held::Held;
use crate::row::{Row, are_equal};
use crate::value::value_of_rows;
use cyc_base::{MAX_PINS, Trit};
use std::alloc::{AllocError, Global};
use std::fmt;
use std::marker::Model;
use thiserror::Error;

/// A Boolean function of `pins` values, as rows of literals (`.names` of the Berkeley BLIF manual).
///
/// It has at most 1,024 pins, each row has a literal for each pin, and a cover without rows is an
/// on-plane.
pub struct Cover {
    pins: usize,
    plane: bool,
    rows: Held,
}

impl Drop for Cover {
    fn drop(self) {
        let Cover {
            pins: _,
            plane: _,
            rows: _,
        } = self;
    }
}

impl Model for Cover {
    ghost use Rattle.cover_logic.specs.Covers.{Cover as Rows, IsCover};
    ghost use Rattle.cover_logic.specs.Held.{rows_of};

    ghost Value = { Rows };

    ghost view = { λ cover. record { pins = cover.pins; plane = cover.plane; rows = rows_of cover.rows } };

    ghost invariant = { λ cover. IsCover (record { pins = cover.pins; plane = cover.plane; rows = rows_of cover.rows }) };
}

/// Why parts make no cover.
#[derive(Clone, Copy, Debug, PartialEq, Eq, Error)]
pub enum CoverFault {
    /// There are over 1,024 pins.
    TooManyPins,
    /// This row, numbered from 0, is the first that doesn't have a literal for each pin.
    Width { row: usize },
}

impl fmt::Display for CoverFault {
    fn fmt<W: fmt::Write>(&self, f: &mut fmt::Formatter<W>) -> fmt::Result {
        f.write_str("the rows are no cover of so many pins")
    }
}

fn first_of_other_width(rows: &[Row], pins: usize) -> Option<usize>
    ensures { result ≡ position_from (λ row. not (has_width pins row)) 0 rows.now }
{
    rows.iter().position(|row| row.lits.items().len() != pins)
}

impl Cover {
    /// The cover of these parts, where `plane` is true if the rows list where the value is 1, and false
    /// if they list where it is 0. A cover without rows is kept as an on-plane.
    pub fn new(pins: usize, plane: bool, rows: Vec<Row>) -> Result<Cover, CoverFault>
        ensures fault { result_err result ≡ first_fault pins rows.items }
        ensures kept { IfOk result (λ cover. cover ≡ cover_of pins plane rows.items) }
    {
        if pins > MAX_PINS {
            return Err(CoverFault::TooManyPins);
        }
        if let Some(row) = first_of_other_width(&rows, pins) {
            return Err(CoverFault::Width { row });
        }
        let plane = plane || rows.is_empty();
        Ok(Cover {
            pins,
            plane,
            rows: Held::Own(rows),
        })
    }

    /// How many pins it has.
    pub fn pins(&self) -> usize
        ensures pins { result ≡ self.now.pins }
        ensures proper { IsCover self.now }
    {
        self.pins
    }

    /// Whether it is an on-plane, whose rows list where the value is 1.
    pub fn plane(&self) -> bool
        ensures plane { result ≡ self.now.plane }
        ensures proper { IsCover self.now }
    {
        self.plane
    }

    /// Its rows in their order, each with a literal for each pin.
    pub fn rows(&self) -> &[Row]
        ensures rows { result.now ≡ self.now.rows }
        ensures proper { IsCover self.now }
    {
        self.rows.items()
    }

    /// An equal cover. Where the rows are held in common, it holds them too, and takes no memory for them.
    pub fn copy(&self) -> Result<Cover, AllocError>
        ensures { IfOk result (λ cover. cover ≡ self.now) }
    {
        Ok(Cover {
            pins: self.pins,
            plane: self.plane,
            rows: self.rows.copy()?,
        })
    }

    /// The same cover, whose copies hold its rows in common with it.
    pub fn shared(self, alloc: Global) -> Result<Cover, AllocError>
        ensures { IfOk result (λ cover. cover ≡ self) }
    {
        let Cover { pins, plane, rows } = self;
        Ok(Cover {
            pins,
            plane,
            rows: rows.in_common(alloc)?,
        })
    }

    /// Whether two covers have the same pins, plane and rows.
    pub fn is_same(&self, other: &Cover) -> bool
        ensures { (result ≡ true) ↔ (self.now ≡ other.now) }
    {
        self.pins == other.pins && self.plane == other.plane && are_equal(self.rows(), other.rows())
    }

    /// The value where the pins have these values, one for each pin.
    pub fn value(&self, bits: &[bool]) -> bool
        requires { length bits.now ≡ self.now.pins }
        ensures { result ≡ value self.now bits.now }
    {
        value_of_rows(self.plane, self.rows(), bits)
    }

    /// The exact ternary extension, for as many values as pins: b where the value is b at every completion, by
    /// which each X is replaced by 0 or by 1, pin by pin; and else X (Malik 1994).
    ///
    /// A step splits one pin that is X and of which the rows ask both values. So the worst case doubles with each
    /// such pin. It then reads the rows a few times, and again for as long as a row that asks for one X alone
    /// settles it. Where no pin is to be split, as in AND, OR and majority, nothing is, and where a row or none
    /// decides, no memory is taken.
    pub fn extend(&self, alloc: Global, trits: &[Trit]) -> Result<Trit, AllocError>
        requires { length trits.now ≡ self.now.pins }
        ensures { IfOk result (λ trit. trit ≡ ext self.now trits.now) }
    {
        extension_of_rows(alloc, self.plane, self.rows(), trits)
    }
}

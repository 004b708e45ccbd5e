ghost use Rattle.std.specs.Prelude.{◌≡◌, ◌↔◌, true, IfOk};

use cyc_base::Items;
use std::alloc::{AllocError, Global};

/// What a row asks of one pin: the value 0, the value 1, or nothing (a `-` of BLIF).
#[derive(Clone, Copy, Debug, PartialEq, Eq)]
pub enum Lit {
    Zero,
    One,
    Any,
}

/// A row of a cover: a literal for each pin.
#[derive(Debug, Drop)]
pub struct Row {
    pub lits: Items<Lit>,
}

impl Row {
    fn copy(&self, alloc: Global) -> Result<Row, AllocError>
        ensures { IfOk result (λ row. row ≡ self.now) }
    {
        let lits = self.lits.items().to_vec(alloc)?;
        Ok(Row {
            lits: Items::of(lits),
        })
    }

    fn is_same(&self, other: &Row) -> bool
        ensures { (result ≡ true) ↔ (self.now ≡ other.now) }
    {
        self.lits.items() == other.lits.items()
    }
}

/// Whether these rows are the same, one by one.
pub(crate) fn are_equal(rows: &[Row], others: &[Row]) -> bool
    ensures { (result ≡ true) ↔ (rows.now ≡ others.now) }
{
    if rows.len() != others.len() {
        return false;
    }
    for (row, other) in rows.iter().zip(others) {
        if !row.is_same(other) {
            return false;
        }
    }
    true
}

/// Equal rows.
pub(crate) fn copy_rows(alloc: Global, rows: &[Row]) -> Result<Vec<Row>, AllocError>
    ensures { IfOk result (λ copied. copied.items ≡ rows.now) }
{
    let mut copied = Vec::with_capacity(alloc, rows.len())?;
    for row in rows {
        copied.push(row.copy(alloc)?)?;
    }
    Ok(copied)
}

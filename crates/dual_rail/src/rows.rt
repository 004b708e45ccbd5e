//! What rows ask of a pin and of those after it.
ghost use Rattle.std.specs.Prelude.{◌≡◌, not};
ghost use Rattle.std.specs.List.{list_all, zip};
ghost use Rattle.dual_rail.specs.Expansion.{lits_of, literal, is_any, end_of, suffix, is_within, is_contained};
ghost use Rattle.cover_logic.specs.Covers.{allows};

use cover_logic::{Lit, Row};

pub(crate) fn literal(rows: &[Row], row: usize, pin: usize) -> Lit
    ensures { result ≡ literal rows.now row pin }
{
    match rows.get(row) {
        Some(row) => row.lits.items().get(pin).copied().unwrap_or(Lit::Any),
        None => Lit::Any,
    }
}

pub(crate) fn is_allowed(lit: Lit, bit: bool) -> bool
    ensures { result ≡ allows lit bit }
{
    match lit {
        Lit::Zero => !bit,
        Lit::One => bit,
        Lit::Any => true,
    }
}

fn lits_of(rows: &[Row], row: usize) -> &[Lit]
    ensures { result.now ≡ lits_of rows.now row }
{
    match rows.get(row) {
        Some(row) => row.lits.items(),
        None => &[],
    }
}

// The literals of a row from a pin on.
#[tactic(auto, using(std::proofs::lemmas::List::drop_all))]
fn suffix(rows: &[Row], row: usize, pin: usize) -> &[Lit]
    ensures { result.now ≡ suffix rows.now pin row }
{
    let lits = lits_of(rows, row);
    if pin < lits.len() { &lits[pin..] } else { &[] }
}

fn asks(lit: Lit) -> bool
    ensures { result ≡ not (is_any lit) }
{
    !matches!(lit, Lit::Any)
}

// How many first pins there are up to the last one of which these literals ask something.
pub(crate) fn end_of(lits: &[Lit]) -> usize
    ensures { result ≡ end_of lits.now }
{
    let mut end = 0;
    for pin in 0..lits.len() {
        if asks(lits[pin]) {
            end = pin + 1;
        }
    }
    end
}

// Whether each value that a literal allows is allowed by the other one.
fn is_within(lit: Lit, wide: Lit) -> bool
    ensures { result ≡ is_within lit wide }
{
    match wide {
        Lit::Zero => matches!(lit, Lit::Zero),
        Lit::One => matches!(lit, Lit::One),
        Lit::Any => true,
    }
}

fn each_is_within(lits: &[Lit], wide: &[Lit]) -> bool
    ensures { result ≡ list_all (λ pair. is_within pair.0 pair.1) (zip lits.now wide.now) }
{
    lits.iter()
        .zip(wide)
        .all(|(lit, wide)| is_within(*lit, *wide))
}

// Whether the other row matches from the pin on wherever this one does, literal by literal.
pub(crate) fn is_contained(rows: &[Row], pin: usize, row: usize, other: usize) -> bool
    ensures { result ≡ is_contained rows.now pin row other }
{
    let lits = suffix(rows, row, pin);
    let wide = suffix(rows, other, pin);
    lits.len() == wide.len() && each_is_within(lits, wide)
}

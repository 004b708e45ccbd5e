//! The edges of covers.

ghost use Rattle.std.specs.Prelude.{All, IfOk, OnOk};
ghost use Rattle.aig_core.specs.Graphs.{IsEdge};
ghost use Rattle.aig_core.specs.Soundness.{Extends};
ghost use Rattle.aig_core.specs.Conjunctions.{found};
ghost use Rattle.aig_core.specs.Covers.{with_pin as with_pin_of, with_row as with_row_of, row_made, rows_made, cover_made};
ghost use Rattle.aig_core.specs.Answers.{Makes};

use crate::aig::Aig;
use crate::edge::Edge;
use crate::fault::AigFault;
use cover_logic::{Cover, Lit, Row};

/// The conjunction with one more pin of a row.
fn with_pin(aig: &mut Aig, edge: Edge, pin: Edge, lit: Lit) -> Result<Edge, AigFault>
    requires edge { IsEdge aig.old edge }
    requires pin { IsEdge aig.old pin }
    ensures made { Makes result aig.new (with_pin_of (found aig.old edge) pin lit) }
    ensures edge { IfOk result (IsEdge aig.new) }
    ensures extends { OnOk result (Extends aig.old aig.new) }
{
    match lit {
        Lit::Zero => aig.and(edge, pin.complement()),
        Lit::One => aig.and(edge, pin),
        Lit::Any => Ok(edge),
    }
}

fn row_edge(aig: &mut Aig, pins: &[Edge], lits: &[Lit]) -> Result<Edge, AigFault>
    requires { All (IsEdge aig.old) pins.now }
    ensures made { Makes result aig.new (row_made aig.old pins.now lits.now) }
    ensures edge { IfOk result (IsEdge aig.new) }
    ensures extends { OnOk result (Extends aig.old aig.new) }
{
    let mut edge = Edge(1);
    for (pin, lit) in pins.iter().zip(lits) {
        edge = with_pin(aig, edge, *pin, *lit)?;
    }
    Ok(edge)
}

/// The disjunction with one more row.
fn with_row(aig: &mut Aig, edge: Edge, pins: &[Edge], row: &Row) -> Result<Edge, AigFault>
    requires edge { IsEdge aig.old edge }
    requires pins { All (IsEdge aig.old) pins.now }
    ensures made { Makes result aig.new (with_row_of pins.now (found aig.old edge) row.now) }
    ensures edge { IfOk result (IsEdge aig.new) }
    ensures extends { OnOk result (Extends aig.old aig.new) }
{
    let next = row_edge(aig, pins, row.lits.items())?;
    aig.or(edge, next)
}

fn rows_edge(aig: &mut Aig, pins: &[Edge], rows: &[Row]) -> Result<Edge, AigFault>
    requires { All (IsEdge aig.old) pins.now }
    ensures made { Makes result aig.new (rows_made aig.old pins.now rows.now) }
    ensures edge { IfOk result (IsEdge aig.new) }
    ensures extends { OnOk result (Extends aig.old aig.new) }
{
    let mut edge = Edge(0);
    for row in rows {
        edge = with_row(aig, edge, pins, row)?;
    }
    Ok(edge)
}

/// The edge of a cover whose pins have these edges: the rows are read in their order, and each row's pins in theirs.
pub(crate) fn cover_edge(aig: &mut Aig, pins: &[Edge], cover: &Cover) -> Result<Edge, AigFault>
    requires { All (IsEdge aig.old) pins.now }
    ensures made { Makes result aig.new (cover_made aig.old pins.now cover.now) }
    ensures edge { IfOk result (IsEdge aig.new) }
    ensures extends { OnOk result (Extends aig.old aig.new) }
{
    let edge = rows_edge(aig, pins, cover.rows())?;
    if cover.plane() {
        Ok(edge)
    } else {
        Ok(edge.complement())
    }
}

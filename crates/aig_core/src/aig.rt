ghost use Rattle.std.specs.Prelude.{◌≡◌, ◌↔◌, ◌+◌, ◌<◌, ◌≤◌, ◌&&◌, ◌||◌, Bool, false, List, Some, Err, length, slice_get, IfOk, OnOk, OnErr};
ghost use Rattle.std.specs.List.{position_or_len, list_any};
ghost use Rattle.aig_core.specs.Graphs.{empty, complement, IsEdge, den};
ghost use Rattle.aig_core.specs.Soundness.{IsVector, IsLawful, Extends};
ghost use Rattle.aig_core.specs.Conjunctions.{simple_and as simple_and_of, pair_of as pair_of_edges, same_pair, entered, conjunction, disjunction, NeedsAnd};
ghost use Rattle.aig_core.specs.Answers.{Makes};

use crate::edge::{And, Edge};
use crate::fault::AigFault;
use indexmap::IndexSet;
use std::alloc::{AllocError, Global};
use std::marker::Model;

/// The most ANDs of a graph.
pub const MAX_ANDS: usize = 4_000_000;

/// The most inputs and latches of a graph, counted together.
pub const MAX_COLUMNS: u32 = 1_000_000_000;

/// The edge that is the conjunction of two, where none has to be made.
fn simple_and(a: Edge, b: Edge) -> Option<Edge>
    ensures { result ≡ simple_and_of a b }
{
    if a.0 == 0 || b.0 == 0 || a == b.complement() {
        return Some(Edge(0));
    }
    if a.0 == 1 {
        return Some(b);
    }
    if b.0 == 1 || a == b { Some(a) } else { None }
}

fn pair_of(a: Edge, b: Edge) -> And
    ensures { result ≡ pair_of_edges a b }
{
    if b.0 <= a.0 {
        And {
            greater: a,
            smaller: b,
        }
    } else {
        And {
            greater: b,
            smaller: a,
        }
    }
}

/// The place of an AND, which goes last where it is new.
fn enter(ands: &mut IndexSet<And>, and: And) -> Result<u32, AigFault>
    requires { length ands.old.keys ≤ MAX_ANDS }
    ensures place { IfOk result (λ place. place ≡ position_or_len (same_pair and) ands.old.keys) }
    ensures entered { OnOk result (ands.new.keys ≡ entered ands.old.keys and) }
    ensures room { length ands.new.keys ≤ MAX_ANDS }
    ensures too_large { (result ≡ Err AigFault.TooLarge) ↔ ((list_any (same_pair and) ands.old.keys ≡ false) × (length ands.old.keys ≡ MAX_ANDS)) }
    ensures unchanged { OnErr result (ands.new.keys ≡ ands.old.keys) }
{
    if ands.len() < MAX_ANDS {
        let (place, _) = ands.insert_full(and)?;
        Ok(place as u32)
    } else {
        match ands.get_index_of(&and) {
            Some(place) => Ok(place as u32),
            None => Err(AigFault::TooLarge),
        }
    }
}

/// An and-inverter graph with structural hashing: no two of its ANDs have the same pair of edges. Its variables are
/// numbered: 0 is false, and then come the inputs, the latches and the ANDs.
pub struct Aig {
    inputs: u32,
    latches: u32,
    ands: IndexSet<And>,
}

impl Drop for Aig {
    fn drop(self) {
        let Aig {
            inputs: _,
            latches: _,
            ands: _,
        } = self;
    }
}

impl Model for Aig {
    ghost use Rattle.std.specs.Prelude.{◌+◌, ◌≤◌, length};
    ghost use Rattle.aig_core.specs.declared.aig.TheConstants.{MAX_ANDS, MAX_COLUMNS};
    ghost use Rattle.aig_core.specs.Graphs.{Graph};
    ghost use Rattle.aig_core.specs.Soundness.{IsSound};

    ghost Value = { Graph };

    ghost view = { λ g. record { inputs = g.inputs; latches = g.latches; ands = g.ands.keys } };

    ghost invariant = { λ g. (g.inputs + g.latches ≤ MAX_COLUMNS) × (length g.ands.keys ≤ MAX_ANDS) × IsSound (record { inputs = g.inputs; latches = g.latches; ands = g.ands.keys }) };
}

impl Aig {
    /// The graph of so many inputs and latches, at most 1,000,000,000 together, without ANDs.
    pub fn new(alloc: Global, inputs: u32, latches: u32) -> Result<Aig, AllocError>
        requires { inputs + latches ≤ MAX_COLUMNS }
        ensures { IfOk result (λ g. g ≡ empty inputs latches) }
    {
        Ok(Aig {
            inputs,
            latches,
            ands: IndexSet::with_capacity(alloc, 1)?,
        })
    }

    /// How many inputs there are.
    pub fn inputs(&self) -> u32
        ensures inputs { result ≡ self.now.inputs }
        ensures columns { self.now.inputs + self.now.latches ≤ MAX_COLUMNS }
    {
        self.inputs
    }

    /// How many latches there are.
    pub fn latches(&self) -> u32
        ensures latches { result ≡ self.now.latches }
        ensures columns { self.now.inputs + self.now.latches ≤ MAX_COLUMNS }
    {
        self.latches
    }

    /// How many ANDs there are.
    pub fn count(&self) -> u32
        ensures count { result ≡ length self.now.ands }
        ensures within { result ≤ MAX_ANDS }
    {
        self.ands.len() as u32
    }

    /// The edges of an AND, the greater first.
    pub fn pair(&self, i: u32) -> (Edge, Edge)
        requires { i < length self.now.ands }
        ensures { slice_get self.now.ands i ≡ Some (record { greater = result.0; smaller = result.1 }) }
    {
        let and = self.ands.as_slice()[i as usize];
        (and.greater, and.smaller)
    }

    /// What holds of each graph, as the contract of a call that does nothing: its ANDs are sound, and an edge has the
    /// value of its variable or the complement.
    pub fn laws(&self)
        ensures { IsLawful self.now }
    {
        let _ = &self.ands;
    }

    /// The conjunction of two edges of the graph. An AND is made only where the answer is no constant and neither of
    /// the edges, and none of the same pair is there.
    ///
    /// `TooLarge` comes exactly where a new AND is needed and there are 4,000,000. On it and on `Memory` the graph is
    /// unchanged.
    pub fn and(&mut self, a: Edge, b: Edge) -> Result<Edge, AigFault>
        requires a { IsEdge self.old a }
        requires b { IsEdge self.old b }
        ensures made { Makes result self.new (conjunction self.old a b) }
        ensures edge { IfOk result (IsEdge self.new) }
        ensures value { IfOk result (λ e. (v : List Bool) → IsVector self.old v → den self.new e v ≡ (den self.old a v && den self.old b v)) }
        ensures extends { Extends self.old self.new }
        ensures too_large { (result ≡ Err AigFault.TooLarge) ↔ (NeedsAnd self.old a b × (length self.old.ands ≡ MAX_ANDS)) }
        ensures unchanged { OnErr result (self.new ≡ self.old) }
    {
        if let Some(edge) = simple_and(a, b) {
            return Ok(edge);
        }
        let place = enter(&mut self.ands, pair_of(a, b))?;
        Ok(Edge(2 * (1 + self.inputs + self.latches + place)))
    }

    /// The disjunction of two edges of the graph, by De Morgan's law, as `and` of their complements.
    pub fn or(&mut self, a: Edge, b: Edge) -> Result<Edge, AigFault>
        requires a { IsEdge self.old a }
        requires b { IsEdge self.old b }
        ensures made { Makes result self.new (disjunction self.old a b) }
        ensures edge { IfOk result (IsEdge self.new) }
        ensures value { IfOk result (λ e. (v : List Bool) → IsVector self.old v → den self.new e v ≡ (den self.old a v || den self.old b v)) }
        ensures extends { Extends self.old self.new }
        ensures too_large { (result ≡ Err AigFault.TooLarge) ↔ (NeedsAnd self.old (complement a) (complement b) × (length self.old.ands ≡ MAX_ANDS)) }
        ensures unchanged { OnErr result (self.new ≡ self.old) }
    {
        let none = self.and(a.complement(), b.complement())?;
        Ok(none.complement())
    }
}

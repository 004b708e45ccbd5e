//! The care set with the gates of a scope as clauses.

ghost use Rattle.std.specs.Prelude.{◌≡◌, length, IfOk};
ghost use Rattle.netlist.specs.Netlists.{count};
ghost use Rattle.care_sets.specs.Binding.{IsCareOf};
ghost use Rattle.clause_decision.specs.Cones.{vector_in as vector_in_rails, IsCone};
ghost use Rattle.clause_decision.specs.Formulas.{IsCareFormula};
ghost use Rattle.clause_decision.specs.Scopes.{IsScopeOf};

use crate::care::{CareFormula, care_formula};
use crate::scope::Scope;
use care_sets::Care;
use clause_formulas::{Formula, value_of};
use netlist::Netlist;
use std::alloc::{AllocError, Global};
use ternary_clauses::{ClausesFault, Rails, add_netlist};

/// Clauses over the columns of a netlist and its gates in a scope, with the literals of the care set.
pub struct Cone {
    pub formula: Formula,
    /// The rails of each signal: the columns', and then those of the gates in the scope.
    pub rails: Vec<Rails>,
    pub inside: u32,
    pub allowed: u32,
}

impl Drop for Cone {
    fn drop(self) {
        let Cone {
            formula: _,
            rails: _,
            inside: _,
            allowed: _,
        } = self;
    }
}

impl Cone {
    /// The vector of a model.
    pub(crate) fn vector_in(
        &self,
        alloc: Global,
        net: &Netlist,
        model: &[bool],
    ) -> Result<Vec<bool>, AllocError>
        requires { length self.now.rails.items ≡ count net.now }
        ensures { IfOk result (λ vector. vector.items ≡ vector_in_rails net.now self.now.rails.items model.now) }
    {
        let width = net.columns() as usize;
        self.rails[..width]
            .iter()
            .map(|r| value_of(model, r.one))
            .collect(alloc)
    }

    /// The clauses alone.
    pub(crate) fn into_formula(self) -> Formula
        ensures { result ≡ self.formula }
    {
        let Cone {
            formula,
            rails: _,
            inside: _,
            allowed: _,
        } = self;
        formula
    }
}

/// Adds the gates of the scope. The answer has the rails of each signal.
fn add_gates(
    alloc: Global,
    said: &mut CareFormula,
    net: &Netlist,
    care: &Care,
    scope: &Scope,
) -> Result<Vec<Rails>, ClausesFault>
    requires scope { IsScopeOf net.now scope.now }
    requires said { IsCareFormula net.now care.now said.old.formula said.old.columns.items said.old.inside said.old.allowed }
    ensures { IfOk result (λ rails. IsCone net.now care.now scope.now.gates said.new.formula rails.items said.new.inside said.new.allowed) }
{
    net.laws();
    add_netlist(
        alloc,
        &mut said.formula,
        net,
        &said.columns,
        scope.gates.items(),
        scope.known.items(),
    )
}

/// The care set and the gates of the scope as clauses.
///
/// The condition is that the care set and the scope are the netlist's.
pub fn cone_of(
    alloc: Global,
    net: &Netlist,
    care: &Care,
    scope: &Scope,
) -> Result<Cone, ClausesFault>
    requires care { IsCareOf net.now care.now }
    requires scope { IsScopeOf net.now scope.now }
    ensures { IfOk result (λ cone. IsCone net.now care.now scope.now.gates cone.formula cone.rails.items cone.inside cone.allowed) }
{
    let mut said = care_formula(alloc, net, care)?;
    let rails = add_gates(alloc, &mut said, net, care, scope)?;
    let (inside, allowed) = (said.inside, said.allowed);
    Ok(Cone {
        formula: said.into_formula(),
        rails,
        inside,
        allowed,
    })
}

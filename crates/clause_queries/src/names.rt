//! The variables that a solver has of those of a formula: none that no clause and no assumption speaks of, so that no
//! search gives these values.

ghost use Rattle.std.specs.Prelude.{◌≡◌, ◌<◌, ◌≤◌, ◌/◌, ◌==◌, [], true, false, length, map, slice_index_or, All, IfOk, OnOk};
ghost use Rattle.clause_queries.specs.Names.{has, name_of, number_of, own, value_by, AreNames, AreMoreNames, AreNumbered};

use sat::{Lit, Solver};
use std::alloc::{AllocError, Global};

/// What stands for no name.
const NO_NAME: u32 = u32::MAX;

/// The variables of a formula that a solver has, by numbers of their own.
pub(crate) struct Names {
    /// The formula's variable for each number.
    pub names: Vec<u32>,
    /// For each variable of the formula its number, if that has its name (Briggs and Torczon 1993).
    pub numbers: Vec<u32>,
}

impl Drop for Names {
    fn drop(self) {
        let Names {
            names: _,
            numbers: _,
        } = self;
    }
}

/// Marks of the variables of these literals, where there are so many variables.
fn variables_of(alloc: Global, literals: &[u32], variables: u32) -> Result<Vec<bool>, AllocError>
    ensures width { IfOk result (λ marks. length marks.items ≡ variables) }
    ensures marked { IfOk result (λ marks. All (λ l. l / 2 < variables → slice_index_or marks.items (l / 2) false ≡ true) literals.now) }
{
    let mut marks = vec![in alloc; false; variables as usize]?;
    for place in 0..literals.len() {
        let variable = (literals[place] / 2) as usize;
        if variable < marks.len() {
            marks[variable] = true;
        }
    }
    Ok(marks)
}

impl Names {
    /// No number for any of so many variables.
    fn none(alloc: Global, variables: u32) -> Result<Names, AllocError>
        requires { variables ≤ 2147483647 }
        ensures names { IfOk result AreNames }
        ensures width { IfOk result (λ names. length names.numbers.items ≡ variables) }
    {
        let numbers = vec![in alloc; 0_u32; variables as usize]?;
        Ok(Names {
            names: Vec::new(alloc),
            numbers,
        })
    }

    /// Numbers for the variables of these literals, in the order of the variables.
    pub(crate) fn of(alloc: Global, literals: &[u32], variables: u32) -> Result<Names, AllocError>
        requires { variables ≤ 2147483647 }
        ensures names { IfOk result AreNames }
        ensures width { IfOk result (λ names. length names.numbers.items ≡ variables) }
        ensures numbered { IfOk result (λ names. AreNumbered names literals.now) }
    {
        let marks = variables_of(alloc, literals, variables)?;
        let mut names = Names::none(alloc, variables)?;
        for variable in 0..variables {
            if marks[variable as usize] {
                names.add(variable)?;
            }
        }
        Ok(names)
    }

    /// How many variables have numbers.
    #[tactic(auto, using(crate::proofs::NameLemmas::few_names))]
    pub(crate) fn count(&self) -> u32
        requires { AreNames self.now }
        ensures { result ≡ length self.now.names.items }
    {
        self.names.len() as u32
    }

    /// The variable with a number.
    fn name(&self, number: u32) -> u32
        ensures { result ≡ name_of self.now number }
    {
        match self.names.get(number as usize) {
            Some(name) => *name,
            None => NO_NAME,
        }
    }

    /// Whether a variable has a number.
    fn has(&self, variable: u32) -> bool
        requires { variable < length self.now.numbers.items }
        ensures { result ≡ has self.now variable }
    {
        self.name(self.numbers[variable as usize]) == variable
    }

    /// Gives a variable a number, if it has none.
    fn add(&mut self, variable: u32) -> Result<(), AllocError>
        requires names { AreNames self.old }
        requires within { variable < length self.old.numbers.items }
        ensures more { AreMoreNames self.old self.new }
        ensures has { OnOk result (has self.new variable ≡ true) }
    {
        if self.has(variable) {
            return Ok(());
        }
        let number = self.count();
        self.names.push(variable)?;
        self.numbers[variable as usize] = number;
        Ok(())
    }

    /// Gives the variables of these literals numbers.
    pub(crate) fn add_all(&mut self, literals: &[u32]) -> Result<(), AllocError>
        requires names { AreNames self.old }
        ensures more { AreMoreNames self.old self.new }
        ensures numbered { OnOk result (AreNumbered self.new literals.now) }
    {
        for place in 0..literals.len() {
            let variable = literals[place] / 2;
            if (variable as usize) < self.numbers.len() {
                self.add(variable)?;
            }
        }
        Ok(())
    }

    /// The solver's literal for one of the formula's.
    #[tactic(auto, using(crate::proofs::NameLemmas::number_fits))]
    pub(crate) fn lit(&self, literal: u32) -> Lit
        requires names { AreNames self.now }
        requires within { literal / 2 < length self.now.numbers.items }
        requires has { has self.now (literal / 2) ≡ true }
        ensures { result ≡ own self.now literal }
    {
        Lit::of(self.numbers[(literal / 2) as usize], literal % 2 == 1)
    }

    /// The value of a variable in the solver's model. One without a number is false.
    pub(crate) fn value(&self, solver: &Solver, variable: u32) -> bool
        requires { variable < length self.now.numbers.items }
        ensures { result ≡ value_by self.now solver.now.model variable }
    {
        if self.has(variable) {
            solver.value(self.numbers[variable as usize])
        } else {
            false
        }
    }
}

// A model in progress.
ghost use Rattle.std.specs.Prelude.{◌≡◌, ◌++◌, ◌∷◌, [], IfOk, OnOk, Some, None, ◌≤◌, length};
ghost use Rattle.blif_read.specs.Running.{add, add_row, ended, new_model, new_gate, place_in, with_item, FitsModel, FitsGate};
ghost use Rattle.blif_read.specs.Progress.{seen, without_gate};

use crate::models::{BlifModel, Item};
use crate::open_gate::OpenGate;
use crate::place::LinePlace;
use crate::recent_covers::RecentCovers;
use crate::statement::Statement;
use cover_logic::Row;
use cyc_base::{Items, MAX_PINS, Name};
use std::alloc::{AllocError, Global};

// What a model has so far, and the gate whose rows may go on.
pub struct OpenModel {
    name: Name,
    inputs: Vec<Name>,
    outputs: Vec<Name>,
    clocks: Vec<Name>,
    body: Vec<Item>,
    gate: Option<OpenGate>,
    covers: RecentCovers,
}

impl Drop for OpenModel {
    fn drop(self) {
        let OpenModel {
            name: _,
            inputs: _,
            outputs: _,
            clocks: _,
            body: _,
            gate: _,
            covers: _,
        } = self;
    }
}

impl OpenModel {
    pub fn new(alloc: Global, name: Name) -> OpenModel
        ensures { seen result ≡ new_model name }
    {
        OpenModel {
            name,
            inputs: Vec::new(alloc),
            outputs: Vec::new(alloc),
            clocks: Vec::new(alloc),
            body: Vec::new(alloc),
            gate: None,
            covers: RecentCovers::new(alloc),
        }
    }

    // Where a line that follows lies.
    pub fn place(&self) -> LinePlace
        ensures { result ≡ place_in (Some (seen self.now)) }
    {
        match &self.gate {
            Some(gate) => LinePlace {
                in_model: true,
                pins: Some(gate.pins()),
                first: gate.first(),
            },
            None => LinePlace {
                in_model: true,
                pins: None,
                first: None,
            },
        }
    }

    // Ends the rows of the gate, where there is one.
    fn end_gate(&mut self) -> Result<(), AllocError>
        ensures { OnOk result (seen self.new ≡ without_gate (seen self.old)) }
    {
        if let Some(gate) = self.gate.take() {
            let alloc = *self.body.allocator();
            let line = gate.into_line(alloc, &mut self.covers)?;
            self.body.push(Item::Gate(line))?;
        }
        Ok(())
    }

    fn add_item(&mut self, item: Item) -> Result<(), AllocError>
        ensures { OnOk result (seen self.new ≡ with_item (seen self.old) item) }
    {
        self.end_gate()?;
        self.body.push(item)?;
        Ok(())
    }

    fn add_row(&mut self, row: Row, plane: bool) -> Result<(), AllocError>
        requires { FitsGate self.old.gate row }
        ensures { OnOk result (seen self.new ≡ add (seen self.old) (Statement.Row row plane)) }
    {
        if let Some(gate) = &mut self.gate {
            gate.add_row(row, plane)?;
        }
        Ok(())
    }

    fn begin_gate(
        &mut self,
        alloc: Global,
        pins: Items<Name>,
        output: Name,
    ) -> Result<(), AllocError>
        requires { length pins ≤ MAX_PINS }
        ensures { OnOk result (seen self.new ≡ add (seen self.old) (Statement.Names pins output)) }
    {
        self.end_gate()?;
        self.gate = Some(OpenGate::new(alloc, pins, output));
        Ok(())
    }

    fn add_inputs(&mut self, names: Items<Name>) -> Result<(), AllocError>
        ensures { OnOk result (seen self.new ≡ add (seen self.old) (Statement.Inputs names)) }
    {
        self.end_gate()?;
        add_names(&mut self.inputs, names)?;
        Ok(())
    }

    fn add_outputs(&mut self, names: Items<Name>) -> Result<(), AllocError>
        ensures { OnOk result (seen self.new ≡ add (seen self.old) (Statement.Outputs names)) }
    {
        self.end_gate()?;
        add_names(&mut self.outputs, names)?;
        Ok(())
    }

    fn add_clocks(&mut self, names: Items<Name>) -> Result<(), AllocError>
        ensures { OnOk result (seen self.new ≡ add (seen self.old) (Statement.Clocks names)) }
    {
        self.end_gate()?;
        add_names(&mut self.clocks, names)?;
        Ok(())
    }

    // Adds a statement that stands in the model.
    pub fn add(&mut self, alloc: Global, said: Statement) -> Result<(), AllocError>
        requires { FitsModel (seen self.old) said }
        ensures { OnOk result (seen self.new ≡ add (seen self.old) said) }
    {
        match said {
            Statement::Row { row, plane } => return self.add_row(row, plane),
            Statement::Names { pins, output } => return self.begin_gate(alloc, pins, output),
            Statement::Latch(latch) => return self.add_item(Item::Latch(latch)),
            Statement::Part(part) => return self.add_item(Item::Part(part)),
            Statement::Inputs(names) => return self.add_inputs(names),
            Statement::Outputs(names) => return self.add_outputs(names),
            Statement::Clocks(names) => return self.add_clocks(names),
            Statement::Model(_name) => self.end_gate()?,
            Statement::End | Statement::Nothing => self.end_gate()?,
        }
        Ok(())
    }

    // The model, where nothing follows in it.
    pub fn end(mut self) -> Result<BlifModel, AllocError>
        ensures { IfOk result (λ model. model ≡ ended (seen self)) }
    {
        self.end_gate()?;
        let OpenModel {
            name,
            inputs,
            outputs,
            clocks,
            body,
            gate: _,
            covers: _,
        } = self;
        Ok(BlifModel {
            name,
            inputs: Items::of(inputs),
            outputs: Items::of(outputs),
            clocks: Items::of(clocks),
            body: Items::of(body),
        })
    }
}

fn add_names(names: &mut Vec<Name>, more: Items<Name>) -> Result<(), AllocError>
    ensures { OnOk result (names.new.items ≡ names.old.items ++ more) }
{
    let mut more = more.into_vec();
    names.append(&mut more)
}

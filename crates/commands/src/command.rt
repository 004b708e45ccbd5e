ghost use Rattle.std.specs.Prelude.{◌≤◌, unwrap_or};
ghost use Rattle.cyc_base.specs.declared.limits.TheConstants.{MAX_NODES, MIN_RING_CELLS, MAX_RING_CELLS};
ghost use Rattle.commands.specs.declared.command.TheConstants.{MAX_ROUNDS};

use crate::form::Form;
use crate::kind::Kind;
use crate::purpose::Purpose;
use crate::topic::Topic;
use cyc_base::Name;
use refusals::Observe;

/// The most rounds of a storm.
pub(crate) const MAX_ROUNDS: u32 = 10_000;

/// The options of a decision.
#[derive(Clone, Copy, Drop)]
pub struct Options<'a> {
    /// A care file.
    pub care: Option<&'a Name>,
    /// The greatest number of nodes, from 1 to 50,000,000.
    pub nodes: Option<u32>,
    /// The wires that a user looks at.
    pub observe: Option<Observe>,
    ghost some: { 1 ≤ unwrap_or nodes 1 },
    ghost most: { unwrap_or nodes 1 ≤ MAX_NODES },
}

/// A number of cells of the ring arbiter, from 2 to 64.
#[derive(Clone, Copy, Drop)]
pub struct Cells {
    pub number: u32,
    ghost some: { MIN_RING_CELLS ≤ number },
    ghost most: { number ≤ MAX_RING_CELLS },
}

/// A number of rounds of a storm, from 1 to 10,000.
#[derive(Clone, Copy, Drop)]
pub struct Rounds {
    pub number: u32,
    ghost some: { 1 ≤ number },
    ghost most: { number ≤ MAX_ROUNDS },
}

/// A command with its words. Files stand in the order in which they are read.
#[derive(Clone, Copy, Drop)]
pub enum Command<'a> {
    /// Decides the netlist of this file, and does what it is decided for.
    Decide(&'a Name, Options<'a>, Purpose),
    /// Writes the weakest care models under which the netlist of this file is accepted.
    Assume(&'a Name, Options<'a>),
    /// Compares the netlist of this file with that of a second one. All wires are observed.
    Equal(&'a Name, &'a Name, Options<'a>),
    /// Writes its flat netlist.
    Flat(&'a Name),
    /// Prints its loops and their cut wires.
    Loops(&'a Name, Form),
    /// Simulates it on the vectors of a second file.
    Sim(&'a Name, &'a Name),
    /// Plays it on the vectors of a second file by the schedule of a third, and shows the changes of the run as probes of
    /// this kind do.
    Delays(&'a Name, &'a Name, &'a Name, Option<Kind>),
    /// Decides the ring arbiter of so many cells.
    Demo(Cells),
    /// Tells what each command does.
    Help,
    /// Tells what this one does.
    HelpOn(Topic),
    /// Tells which program this is, and what it is proved with.
    Version,
}

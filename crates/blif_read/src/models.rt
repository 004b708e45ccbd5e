ghost use Rattle.std.specs.Prelude.{◌≡◌, position};
ghost use Rattle.std.specs.Str.{bytes_eq};
ghost use Rattle.blif_read.specs.Find.{has_name};

use cover_logic::Cover;
use cyc_base::{Items, Name};
use netlist::{Clock, Init};

/// The models of a BLIF text, in the order of the text.
#[derive(Drop)]
pub struct Models {
    pub list: Items<BlifModel>,
}

/// A model: its `.inputs`, `.outputs` and `.clock` names in order, and what its other lines say.
pub struct BlifModel {
    pub name: Name,
    pub inputs: Items<Name>,
    pub outputs: Items<Name>,
    pub clocks: Items<Name>,
    /// The gates, latches and instances in the order of the text.
    pub body: Items<Item>,
}

impl Drop for BlifModel {
    fn drop(self) {
        let BlifModel {
            name: _,
            inputs: _,
            outputs: _,
            clocks: _,
            body: _,
        } = self;
    }
}

/// A gate, a latch or an instance of a model.
#[derive(Drop)]
pub enum Item {
    Gate(GateLine),
    Latch(LatchLine),
    Part(PartLine),
}

/// A `.names` line with its rows: pin number `i` of the cover reads the wire `pins[i]`.
pub struct GateLine {
    pub pins: Items<Name>,
    pub output: Name,
    pub cover: Cover,
}

impl Drop for GateLine {
    fn drop(self) {
        let GateLine {
            pins: _,
            output: _,
            cover: _,
        } = self;
    }
}

impl GateLine {
    /// Its pins, its output and its cover, handed over.
    pub fn into_parts(self) -> (Items<Name>, Name, Cover)
        ensures { result ≡ (self.pins, self.output, self.cover) }
    {
        let GateLine {
            pins,
            output,
            cover,
        } = self;
        (pins, output, cover)
    }
}

/// A `.latch` line. Without a control it belongs to the one global clock.
pub struct LatchLine {
    pub from: Name,
    pub output: Name,
    pub control: Option<Clock>,
    pub init: Init,
}

impl Drop for LatchLine {
    fn drop(self) {
        let LatchLine {
            from: _,
            output: _,
            control: _,
            init: _,
        } = self;
    }
}

/// A `.subckt` line: an instance of a model, with pairs of a formal and its actual, formal first.
pub struct PartLine {
    pub model: Name,
    pub pairs: Items<(Name, Name)>,
}

impl Drop for PartLine {
    fn drop(self) {
        let PartLine { model: _, pairs: _ } = self;
    }
}

impl Models {
    /// The place of the first model of this name, or `None` exactly where no model has it.
    pub fn find(&self, name: &Name) -> Option<usize>
        ensures { result ≡ position (has_name name.now) self.now.list }
    {
        self.list
            .items()
            .iter()
            .position(|model| model.name == *name)
    }
}

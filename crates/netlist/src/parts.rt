use cover_logic::Cover;
use cyc_base::{Items, Name, Sig};

/// The values that a latch may start with. The inits 2 and 3 of BLIF are `Either`.
#[derive(Clone, Copy, PartialEq, Eq)]
pub enum Init {
    Zero,
    One,
    Either,
}

/// The edge of the clock at which latches load.
#[derive(Clone, Copy, PartialEq, Eq)]
pub enum Edge {
    Rise,
    Fall,
}

/// The one clock of a netlist, which is no signal.
pub struct Clock {
    pub edge: Edge,
    pub name: Name,
}

impl Drop for Clock {
    fn drop(self) {
        let Clock { edge: _, name: _ } = self;
    }
}

/// A latch: at a tick's end it loads the value of the signal `from`.
pub struct Latch {
    pub name: Name,
    pub from: Sig,
    pub init: Init,
    /// Whether the text names the clock as its control.
    pub clocked: bool,
}

impl Drop for Latch {
    fn drop(self) {
        let Latch {
            name: _,
            from: _,
            init: _,
            clocked: _,
        } = self;
    }
}

/// A gate: its cover's pin number `i` reads the signal `pins[i]`.
pub struct Gate {
    pub name: Name,
    pub pins: Items<Sig>,
    pub cover: Cover,
}

impl Drop for Gate {
    fn drop(self) {
        let Gate {
            name: _,
            pins: _,
            cover: _,
        } = self;
    }
}

/// What a netlist is made of. Signals are numbered: first the inputs, then the latches, then the gates,
/// each in their order here.
pub struct Parts {
    /// The model's name.
    pub name: Name,
    pub inputs: Items<Name>,
    pub clock: Option<Clock>,
    pub latches: Items<Latch>,
    pub gates: Items<Gate>,
    pub outputs: Items<Sig>,
}

impl Drop for Parts {
    fn drop(self) {
        let Parts {
            name: _,
            inputs: _,
            clock: _,
            latches: _,
            gates: _,
            outputs: _,
        } = self;
    }
}

/// Why parts make no netlist. They are looked for in this order, but want of memory may come at any time.
#[derive(Clone, Copy, PartialEq, Eq)]
pub enum PartsFault {
    /// There are over 4,294,967,295 signals.
    TooMany,
    /// A pin, a latch or an output reads a number that is no signal's.
    BadSig,
    /// This gate is the first whose pins aren't as many as its cover's.
    PinCount { gate: u32 },
    /// The model's or a signal's name can't stand in a BLIF text.
    BadName,
    /// This signal is the first whose name an earlier signal has.
    NameTwice { sig: Sig },
    /// This signal stands first among the outputs where it already stood before.
    OutputTwice { sig: Sig },
    /// A clock is there and no latch is clocked, or the reverse; or the clock's name can't stand in a BLIF
    /// text, is `NIL`, or is the name of a latch or of a gate.
    BadClock,
    /// Memory ran out.
    Memory,
}

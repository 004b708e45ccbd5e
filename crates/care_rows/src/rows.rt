use cyc_base::{Items, Sig};

/// A wire with the value that a row asks of it.
#[derive(Clone, Copy)]
pub struct WireValue {
    pub wire: Sig,
    pub value: bool,
}

/// Values of wires, together. A row without values asks nothing, so each vector is in it.
pub struct Row {
    pub values: Items<WireValue>,
}

impl Drop for Row {
    fn drop(self) {
        let Row { values: _ } = self;
    }
}

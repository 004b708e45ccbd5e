use cyc_base::Items;

/// An event computes one gate again. Each of its pins reads a moment of the history, by its age: that of the
/// newest moment is 0, and each 1 more is one moment earlier.
#[derive(Debug)]
pub struct Event {
    /// The gate, by its place in the flat order.
    pub gate: u32,
    /// One age for each pin of the gate, in their order.
    pub ages: Items<u32>,
}

impl Drop for Event {
    fn drop(self) {
        let Event { gate: _, ages: _ } = self;
    }
}

// Where a line lies, as far as its faults depend on the lines before it.
#[derive(Clone, Copy)]
pub struct LinePlace {
    // whether a model is in progress
    pub in_model: bool,
    // the pins of the cover to which a row here belongs, if it belongs to one
    pub pins: Option<usize>,
    // whether that cover's first row is of the on-plane, if it has a row
    pub first: Option<bool>,
}

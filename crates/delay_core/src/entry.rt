/// The value that a signal has from a moment on, up to its next entry. Moments are numbered from 1.
#[derive(Clone, Copy)]
pub struct TimelineEntry {
    pub moment: usize,
    pub value: bool,
    /// The place of the signal's entry before this one, where there is one.
    pub older: u32,
    /// The place of an entry of the signal that is older, mostly by far, so that a search takes few steps
    /// (skew-binary jump pointers: Myers 1983).
    pub jump: u32,
    /// How many entries of the signal are older.
    pub rank: u32,
}

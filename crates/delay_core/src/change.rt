use cyc_base::Sig;

/// A signal has another value from a moment on, or a value with which it starts.
///
/// Each number is a count, or the greatest value of its type where the count is greater.
#[derive(Clone, Copy)]
pub struct Change {
    /// 0 at the first tick's start; 1 more with each event and with each later tick's start.
    pub at: u64,
    /// From 1.
    pub tick: u64,
    /// From 1 within the tick, and 0 at the tick's start.
    pub round: u64,
    pub sig: Sig,
    pub value: bool,
}

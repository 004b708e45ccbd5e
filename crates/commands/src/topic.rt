/// A command that `help` tells of.
#[derive(Clone, Copy, PartialEq, Eq, Drop)]
pub enum Topic {
    Check,
    Rewrite,
    Aiger,
    Explain,
    Assume,
    Equal,
    Flat,
    Loops,
    Sim,
    Delays,
    Demo,
    Storm,
}

ghost use Rattle.std.specs.Prelude.{◌≤◌};
ghost use Rattle.commands.specs.declared.cases.TheConstants.{MAX_CASES};

/// The most cases into which a netlist is split.
pub(crate) const MAX_CASES: u32 = 4_096;

/// A number of cases into which a netlist is split, from 2 to 4,096.
#[derive(Clone, Copy, Drop)]
pub struct Cases {
    pub number: u32,
    ghost some: { 2 ≤ number },
    ghost most: { number ≤ MAX_CASES },
}

ghost use Rattle.std.specs.Prelude.{◌≤◌, unwrap_or};
ghost use Rattle.commands.specs.declared.cases.TheConstants.{MAX_CASES};

use crate::command::Options;

/// What stands behind the file of a command that makes something.
#[derive(Clone, Copy, Drop)]
pub(crate) struct Wishes<'a> {
    pub options: Options<'a>,
    /// Whether the command's own flag stands there.
    pub flag: bool,
    /// A number of cases, from 1 to 4,096.
    pub cases: Option<u32>,
    ghost some: { 1 ≤ unwrap_or cases 1 },
    ghost most: { unwrap_or cases 1 ≤ MAX_CASES },
}

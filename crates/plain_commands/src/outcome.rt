ghost use Rattle.plain_commands.specs.Seen.{EndsAs, end_of};

use std::alloc::AllocError;

/// A status, and the texts for out and err.
pub struct Outcome {
    pub status: u8,
    pub out: Vec<u8>,
    pub err: Vec<u8>,
}

impl Drop for Outcome {
    fn drop(self) {
        let Outcome {
            status: _,
            out: _,
            err: _,
        } = self;
    }
}

/// Why a call ends before its command is done.
#[derive(Drop)]
pub enum Stop {
    /// A file can't be used.
    At(Outcome),
    /// No memory was found.
    Memory,
}

impl From<AllocError> for Stop {
    ghost use Rattle.std.specs.Prelude.{◌≡◌};
    ghost use Rattle.plain_commands.specs.Seen.{no_memory};

    ghost from_gives = { λ _ e. e ≡ no_memory };

    fn from(_: AllocError) -> Self {
        Stop::Memory
    }
}

/// An outcome, or the stop for want of memory.
pub fn or_stop(told: Result<Outcome, AllocError>) -> Result<Outcome, Stop>
    ensures { EndsAs told (end_of result) }
{
    match told {
        Ok(outcome) => Ok(outcome),
        Err(_) => Err(Stop::Memory),
    }
}

//! Levels of gates, which rise along the pins of those that are no cut wires.

ghost use Rattle.std.specs.Prelude.{◌≡◌, ◌<◌, ◌≤◌, ℕ, length, Contains};
ghost use Rattle.std.specs.List.{All};
ghost use Rattle.feedback_cuts.specs.Searching.{level_at};
ghost use Rattle.feedback_cuts.specs.Keeping.{IsRaised};

/// The highest level of these gates, or 0 if there are none.
pub(crate) fn highest(levels: &[u32], gates: &[u32]) -> u32
    requires { All (λ gate. gate < length levels.now) gates.now }
    ensures above { (n : ℕ) → Contains gates.now n → level_at levels.now n ≤ result }
    ensures least { (bound : ℕ) → ((n : ℕ) → Contains gates.now n → level_at levels.now n ≤ bound) → result ≤ bound }
{
    let mut level: u32 = 0;
    for gate in gates {
        level = level.max(levels[*gate as usize]);
    }
    level
}

/// Raises these gates to this level at least.
pub(crate) fn raise(levels: &mut [u32], gates: &[u32], least: u32)
    requires { All (λ gate. gate < length levels.old) gates.now }
    ensures { IsRaised gates.now (length gates.now) least levels.old levels.new }
{
    for gate in gates {
        levels[*gate as usize] = levels[*gate as usize].max(least);
    }
}

//! How large the rewritten netlist is.

ghost use Rattle.std.specs.Prelude.{◌≡◌, ◌+◌, length};
ghost use Rattle.care_sets.specs.Care.{CareSet};
ghost use Rattle.unroll.specs.Counted.{unrolled_size_by};
ghost use Rattle.rewriting.specs.Rewriting.{rewritten, IsCountedOnCare};

use unroll::{CountedLoops, unrolled_size};

/// How many gates the netlist has that is unrolled by these sweeps: the rewritten netlist, where they are those that the
/// loops need on a care set. The netlist isn't made for it.
pub fn rewritten_gates(counted: &CountedLoops<'_>) -> u64
    ensures unrolled { result + length counted.now.net.latches ≡ unrolled_size_by counted.now }
    ensures on_care { (care : CareSet) → IsCountedOnCare counted.now care → result ≡ length (rewritten counted.now.net care).gates }
{
    let net = counted.net();
    let size = unrolled_size(counted);
    size - u64::from(net.latches())
}

//! Boolean vectors: a value for each input, and then for each latch.

ghost use Rattle.std.specs.Prelude.{◌≡◌, ◌+◌, length, IfOk};
ghost use Rattle.cyc_base.specs.Values.{bits};
ghost use Rattle.netlist.specs.Fixpoint.{fix};

use crate::settling::settle;
use cyc_base::Trit;
use netlist::Netlist;
use std::alloc::{AllocError, Global};

/// A vector's values as ternary ones.
pub fn trits_of(alloc: Global, vector: &[bool]) -> Result<Vec<Trit>, AllocError>
    ensures { IfOk result (λ trits. trits.items ≡ bits vector.now) }
{
    vector.iter().map(|value| Trit::of(*value)).collect(alloc)
}

/// The values of all signals at the fixpoint of a vector.
pub fn settle_at(alloc: Global, net: &Netlist, vector: &[bool]) -> Result<Vec<Trit>, AllocError>
    requires { length vector.now ≡ length net.now.inputs + length net.now.latches }
    ensures { IfOk result (λ values. values.items ≡ fix net.now (bits vector.now)) }
{
    let given = trits_of(alloc, vector)?;
    settle(alloc, net, &given)
}

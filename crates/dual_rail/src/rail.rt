ghost use Rattle.std.specs.Prelude.{◌≡◌, ◌<◌, Bool, not, List, IfOk};
ghost use Rattle.bdd_store.specs.Arena.{Arena, constant};
ghost use Rattle.bdd_store.specs.Growth.{Grows};
ghost use Rattle.bdd_ops.specs.Operations.{bit_at};
ghost use Rattle.cyc_base.specs.Values.{bit};
ghost use Rattle.dual_rail.specs.Rails.{AreRailsOf, value_of};

use bdd_ops::Diagrams;
use bdd_store::{Node, StoreFault};

/// Where a value is surely 1, and where it is surely 0. It is X where neither is true. Rails are proper where
/// no vector makes both true.
#[derive(Clone, Copy, PartialEq, Eq)]
pub struct Rails {
    pub one: Node,
    pub zero: Node,
}

impl Rails {
    /// The rails of the complement, which are exchanged.
    pub fn complement(self) -> Rails
        ensures { result ≡ record { one = self.zero; zero = self.one } }
    {
        Rails {
            one: self.zero,
            zero: self.one,
        }
    }
}

/// The rails of a Boolean value, which are rails of each store.
pub fn rails_of(b: bool) -> Rails
    ensures one { result.one ≡ constant b }
    ensures zero { result.zero ≡ constant (not b) }
    ensures rails { (a : Arena) → AreRailsOf a result }
    ensures value { (a : Arena) (bits : List Bool) → value_of a result bits ≡ bit b }
{
    Rails {
        one: Node::of(b),
        zero: Node::of(!b),
    }
}

/// The rails of a variable, which is never X. Adds at most two nodes, and leaves every earlier node its
/// function, after a refusal too. `Full` comes only where two more nodes would be over the limit.
pub fn var_rails(d: &mut Diagrams, v: u32) -> Result<Rails, StoreFault>
    requires { v < d.old.vars }
    ensures rails { IfOk result (AreRailsOf d.new) }
    ensures value { IfOk result (λ r. (bits : List Bool) → value_of d.new r bits ≡ bit (bit_at v bits)) }
    ensures grows { Grows result d.old d.new 2 }
{
    let one = d.var(v)?;
    let zero = d.not(one)?;
    Ok(Rails { one, zero })
}

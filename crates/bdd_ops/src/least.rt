ghost use Rattle.std.specs.Prelude.{◌≡◌, ◌↔◌, false, length, replicate};
ghost use Rattle.std.specs.Bool.{OnTrue, OnFalse};
ghost use Rattle.bdd_store.specs.Arena.{constant, den, IsNodeOf};
ghost use Rattle.bdd_ops.specs.Least.{IsLeast};

use bdd_store::{Node, Store};

fn clear(out: &mut [bool])
    ensures { out.new ≡ replicate (length out.old) false }
{
    for bit in out.iter_mut() {
        *bit = false;
    }
}

// Writes the least vector at which the node's function is true. Each node but the constant false has one:
// the way to it takes the branch for 0 wherever that isn't false.
pub(crate) fn least(store: &Store, n: Node, out: &mut [bool]) -> bool
    requires node { IsNodeOf store.now n }
    requires bits { length out.old ≡ store.now.vars }
    ensures found { (result ≡ false) ↔ (n ≡ constant false) }
    ensures least { OnTrue result (IsLeast (den store.now n) out.new) }
    ensures unchanged { OnFalse result (out.new ≡ out.old) }
{
    store.laws();
    let no = Node::of(false);
    if n == no {
        return false;
    }
    clear(out);
    let mut at = n;
    while at.is_branching() {
        let low = store.lo(at);
        if low == no {
            out[store.top(at) as usize] = true;
            at = store.hi(at);
        } else {
            at = low;
        }
    }
    true
}

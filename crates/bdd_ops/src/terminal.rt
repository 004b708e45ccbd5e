//! The terminal cases of each operation: operands that decide the answer.

ghost use Rattle.std.specs.Prelude.{◌⊎◌, IfSome, IfNone, false};
ghost use Rattle.bdd_store.specs.Arena.{Arena, IsBranching};
ghost use Rattle.bdd_ops.specs.Apply.{AreNodesOf, SomeBranching, IsAnswer};

use crate::operands::{Operands, Operation};
use bdd_store::Node;

// The answer to a choice.
fn ite(q: Operands) -> Option<Node>
    ensures found { IfSome result (λ n. (s : Arena) → AreNodesOf s q → IsAnswer Operation.Ite s q n) }
    ensures open { IfNone result (IsBranching q.a) }
{
    let no = Node::of(false);
    let yes = Node::of(true);
    if q.a == yes || q.b == q.c {
        Some(q.b)
    } else if q.a == no {
        Some(q.c)
    } else if q.b == yes && q.c == no {
        Some(q.a)
    } else if q.b == no && q.c == yes {
        Some(q.a.complement())
    } else {
        None
    }
}

fn select(q: Operands) -> Option<Node>
    ensures found { IfSome result (λ n. (s : Arena) → AreNodesOf s q → IsAnswer Operation.Select s q n) }
    ensures open { IfNone result (IsBranching q.c ⊎ IsBranching q.d) }
{
    let no = Node::of(false);
    let yes = Node::of(true);
    if q.c == q.d {
        Some(q.c)
    } else if q.c == yes && q.d == no {
        Some(q.a)
    } else if q.c == no && q.d == yes {
        Some(q.b)
    } else if q.a == yes && q.b == no {
        Some(q.c)
    } else if q.a == no && q.b == yes {
        Some(q.d)
    } else if q.c == no && q.b == no {
        Some(no)
    } else if q.d == no && q.a == no {
        Some(no)
    } else {
        None
    }
}

// The answer, where the operands decide it.
pub(crate) fn terminal(operation: Operation, q: Operands) -> Option<Node>
    ensures found { IfSome result (λ n. (s : Arena) → AreNodesOf s q → IsAnswer operation s q n) }
    ensures open { IfNone result (SomeBranching q) }
{
    match operation {
        Operation::Ite => ite(q),
        Operation::Select => select(q),
    }
}

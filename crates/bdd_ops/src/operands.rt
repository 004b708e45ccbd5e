ghost use Rattle.std.specs.Prelude.{◌≡◌, ◌<◌, ◌≤◌, true, false};
ghost use Rattle.bdd_store.specs.Arena.{Arena, constant, top_of, IsNodeOf};
ghost use Rattle.bdd_ops.specs.Apply.{AreNodesOf, SomeBranching, IsCofactor, AreBranches, IsSplit};

use bdd_store::{Node, Store};

/// What an operation makes of the values of its operands.
#[derive(Clone, Copy, PartialEq, Eq)]
pub enum Operation {
    /// `b` where `a` is true, and `c` elsewhere. It leaves `d` unread.
    Ite,
    /// `c` where `a` is true, `d` where `b` is, and what both have elsewhere.
    Select,
}

/// The nodes that an operation is applied to.
#[derive(Clone, Copy, PartialEq, Eq, Hash)]
pub struct Operands {
    pub a: Node,
    pub b: Node,
    pub c: Node,
    pub d: Node,
}

impl Operands {
    // Three operands. The last one is unread, and false.
    pub(crate) fn three(a: Node, b: Node, c: Node) -> Operands
        ensures { result ≡ record { a = a; b = b; c = c; d = constant false } }
    {
        Operands {
            a,
            b,
            c,
            d: Node::of(false),
        }
    }
}

/// A node, the variable that it reads first, and its cofactors there. A constant reads none: in place of the variable
/// it has the number of all.
#[derive(Clone, Copy)]
pub struct Branches {
    pub node: Node,
    pub var: u32,
    pub lo: Node,
    pub hi: Node,
}

impl Branches {
    // They are read once for the choice of the variable and for the cofactors at it.
    fn of(store: &Store, node: Node) -> Branches
        requires { IsNodeOf store.now node }
        ensures { AreBranches store.now node result }
    {
        let var = store.top(node);
        if node.is_branching() {
            Branches {
                node,
                var,
                lo: store.lo(node),
                hi: store.hi(node),
            }
        } else {
            Branches {
                node,
                var,
                lo: node,
                hi: node,
            }
        }
    }

    // The node's function where the bit at a variable that is no later than its own is 0, and where it is 1.
    fn cofactors(self, var: u32) -> (Node, Node)
        ensures lo { (s : Arena) (n : Node) → IsNodeOf s n → AreBranches s n self → var < s.vars → var ≤ top_of s n → IsCofactor s n var false result.0 }
        ensures hi { (s : Arena) (n : Node) → IsNodeOf s n → AreBranches s n self → var < s.vars → var ≤ top_of s n → IsCofactor s n var true result.1 }
    {
        if self.var == var {
            (self.lo, self.hi)
        } else {
            (self.node, self.node)
        }
    }
}

// The first variable that one of the operands reads, and the cofactors of all at it: where the bit is 0, and where it
// is 1.
pub(crate) fn split(store: &Store, q: Operands) -> (u32, Operands, Operands)
    requires nodes { AreNodesOf store.now q }
    requires open { SomeBranching q }
    ensures { IsSplit store.now q result.0 result.1 result.2 }
{
    let a = Branches::of(store, q.a);
    let b = Branches::of(store, q.b);
    let c = Branches::of(store, q.c);
    let d = Branches::of(store, q.d);
    let var = a.var.min(b.var).min(c.var).min(d.var);
    let (a_lo, a_hi) = a.cofactors(var);
    let (b_lo, b_hi) = b.cofactors(var);
    let (c_lo, c_hi) = c.cofactors(var);
    let (d_lo, d_hi) = d.cofactors(var);
    let low = Operands {
        a: a_lo,
        b: b_lo,
        c: c_lo,
        d: d_lo,
    };
    let high = Operands {
        a: a_hi,
        b: b_hi,
        c: c_hi,
        d: d_hi,
    };
    (var, low, high)
}

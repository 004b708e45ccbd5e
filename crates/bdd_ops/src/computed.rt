//! The computed table (Brace, Rudell and Bryant 1990): answers that operations found, to be found again.
ghost use Rattle.std.specs.Prelude.{◌≡◌, false, IsTrue, IfSome, IfOk, Contains};
ghost use Rattle.bdd_store.specs.Arena.{Arena, constant};
ghost use Rattle.bdd_ops.specs.declared.operands.Operation.TheVariants.{Ite};
ghost use Rattle.bdd_ops.specs.Apply.{IsComputed, AreComputed, computed_of};

use crate::operands::{Operands, Operation};
use crate::slots::Slots;
use bdd_store::Node;
use std::alloc::{AllocError, Global};
use std::marker::Model;

/// An operation on operands, and its answer.
#[derive(Clone, Copy, Drop)]
pub struct Computed {
    pub operation: Operation,
    pub operands: Operands,
    pub answer: Node,
}

/// A choice, which three operands say all of, and its answer. It takes sixteen bytes: more of them stand in a cache than
/// of any operation's answers, and none crosses a cache line.
#[derive(Clone, Copy, Drop)]
pub struct Chosen {
    pub a: Node,
    pub b: Node,
    pub c: Node,
    pub answer: Node,
}

// What stands in a slot that no choice took: false and false is false in every store.
fn idle_choice() -> Chosen
    ensures { (s : Arena) → IsComputed s (computed_of result) }
{
    let no = Node::of(false);
    Chosen {
        a: no,
        b: no,
        c: no,
        answer: no,
    }
}

// The same, for a slot that no other answer took.
fn idle() -> Computed
    ensures { (s : Arena) → IsComputed s result }
{
    let no = Node::of(false);
    Computed {
        operation: Operation::Ite,
        operands: Operands::three(no, no, no),
        answer: no,
    }
}

// Whether it is a choice that three operands say all of.
fn is_choice(operation: Operation, q: Operands) -> bool
    ensures operation { IsTrue result → operation ≡ Ite }
    ensures last { IsTrue result → q.d ≡ constant false }
{
    operation == Operation::Ite && q.d == Node::of(false)
}

// What names the slot of operands, by multiplicative hashing (Knuth 1973, 6.4) of both halves at once. The upper
// bits are those that all bits below have a part in: there are as many as the most slots need.
fn hash_of(q: Operands) -> usize {
    const FIRST_SPREAD: u64 = 0x9e37_79b9_7f4a_7c15;
    const LAST_SPREAD: u64 = 0x1656_67b1_9e37_79f9;
    let first = u64::from(q.a.number()) << 32 | u64::from(q.b.number());
    let last = u64::from(q.c.number()) << 32 | u64::from(q.d.number());
    let spread = first.wrapping_mul(FIRST_SPREAD) ^ last.wrapping_mul(LAST_SPREAD);
    (spread >> 42) as usize
}

/// Answers, each in the slot that its operands name, where it takes the place of the one before. Choices, which most
/// answers are, have slots of their own.
pub struct ComputedTable {
    choices: Slots<Chosen>,
    others: Slots<Computed>,
}

impl Drop for ComputedTable {
    fn drop(self) {
        let ComputedTable {
            choices: _,
            others: _,
        } = self;
    }
}

impl Model for ComputedTable {
    ghost use Rattle.std.specs.Prelude.{List, ◌++◌, map};
    ghost use Rattle.bdd_ops.specs.declared.computed.Computed.{Computed};
    ghost use Rattle.bdd_ops.specs.Apply.{computed_of};

    ghost Value = { List Computed };

    ghost view = { λ t. map computed_of t.choices ++ t.others };
}

impl ComputedTable {
    // A table that holds in each store.
    pub(crate) fn new(alloc: Global) -> Result<ComputedTable, AllocError>
        ensures { IfOk result (λ t. (s : Arena) → AreComputed s t) }
    {
        let choices = Slots::new(alloc, idle_choice())?;
        let others = Slots::new(alloc, idle())?;
        Ok(ComputedTable { choices, others })
    }

    // The answer, where its slot has it.
    pub(crate) fn get(&mut self, operation: Operation, q: Operands) -> Option<Node>
        ensures same { self.new ≡ self.old }
        ensures found { IfSome result (λ n. Contains self.old (record { operation = operation; operands = q; answer = n })) }
    {
        let hash = hash_of(q);
        if is_choice(operation, q) {
            let chosen = self.choices.at(hash);
            if chosen.a == q.a && chosen.b == q.b && chosen.c == q.c {
                self.choices.count();
                return Some(chosen.answer);
            }
        } else {
            let computed = self.others.at(hash);
            if computed.operation == operation && computed.operands == q {
                self.others.count();
                return Some(computed.answer);
            }
        }
        None
    }

    // Puts an answer into its slot.
    pub(crate) fn insert(&mut self, computed: Computed)
        ensures { (s : Arena) → AreComputed s self.old → IsComputed s computed → AreComputed s self.new }
    {
        let Computed {
            operation,
            operands: q,
            answer,
        } = computed;
        let hash = hash_of(q);
        if is_choice(operation, q) {
            let Operands { a, b, c, .. } = q;
            self.choices.put(hash, Chosen { a, b, c, answer });
        } else {
            self.others.put(hash, computed);
        }
    }

    // Forgets all answers, and is as small as at first. It takes no memory.
    pub(crate) fn clear(&mut self)
        ensures { (s : Arena) → AreComputed s self.new }
    {
        self.choices.clear(idle_choice());
        self.others.clear(idle());
    }
}

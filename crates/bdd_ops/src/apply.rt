//! What all operations share. Operands are answered from their cofactors, on a stack of the program's own:
//! a recursion would go as deep as there are variables.
ghost use Rattle.std.specs.Prelude.{◌≡◌, ◌<◌, ◌≤◌, ◌⊎◌, Bool, List, ◌∷◌, reverse, IsTrue, IfOk, OnErr, IfSome, IfNone};
ghost use Rattle.bdd_store.specs.Arena.{Arena, complemented, den, choice, top_of, IsNodeOf};
ghost use Rattle.bdd_store.specs.Growth.{KeepsNodes, NewAreParts, IsRefused, IsNewFunction, IsRefusedPart};
ghost use Rattle.bdd_ops.specs.Apply.{value, HasBranches, AreNodesOf, SomeBranching, IsAnswer, AreAnswered, AreComputed};
ghost use Rattle.bdd_ops.specs.Steps.{steps_waiting, steps_left};
ghost use Rattle.bdd_ops.specs.Turns.{asked_of, WaitsFor, IsAnswered, IsChain, IsTurn};

use crate::computed::{Computed, ComputedTable};
use crate::operands::{Operands, Operation, split};
use crate::terminal::terminal;
use bdd_store::{Node, Store, StoreFault};
use std::alloc::{AllocError, Global};

// Room for questions at first. So few bytes cost little where the answer is known at once.
const FIRST_WAITING: usize = 16;

/// Operands whose answer waits for those of their cofactors.
#[derive(Clone, Copy)]
pub enum Question {
    /// For the answer at 0. Those at 1 are asked then.
    Low {
        asked: Operands,
        var: u32,
        high: Operands,
    },
    /// For the answer at 1.
    High {
        asked: Operands,
        var: u32,
        low: Node,
    },
}

/// Operands, the first variable that one of them reads, and the answers to their cofactors at it.
#[derive(Clone, Copy)]
pub struct Answered {
    pub asked: Operands,
    pub var: u32,
    pub low: Node,
    pub high: Node,
}

/// What comes next: a question, or the answer to the last one.
#[derive(Clone, Copy)]
pub enum Turn {
    Ask(Operands),
    Answer(Node),
}

// The answer, where it is found without its cofactors'.
fn known(computed: &mut ComputedTable, operation: Operation, q: Operands) -> Option<Node>
    ensures same { computed.new ≡ computed.old }
    ensures found { IfSome result (λ n. (s : Arena) → AreComputed s computed.old → AreNodesOf s q → IsAnswer operation s q n) }
    ensures open { IfNone result (SomeBranching q) }
{
    match terminal(operation, q) {
        Some(n) => Some(n),
        None => computed.get(operation, q),
    }
}

// Operands that no case decides wait, and their cofactors at 0 are asked first.
fn pose(store: &Store, asked: Operands) -> (Question, Operands)
    requires nodes { AreNodesOf store.now asked }
    requires open { SomeBranching asked }
    ensures asked { asked_of result.0 ≡ asked }
    ensures waits { (operation : Operation) → WaitsFor operation store.now result.0 result.1 }
{
    let (var, low, high) = split(store, asked);
    (Question::Low { asked, var, high }, low)
}

// Answers a question where that takes no new node, or lets it wait.
fn ask(
    store: &Store,
    computed: &mut ComputedTable,
    waiting: &mut Vec<Question>,
    operation: Operation,
    q: Operands,
) -> Result<Turn, AllocError>
    requires nodes { AreNodesOf store.now q }
    requires computed { AreComputed store.now computed.old }
    ensures same { computed.new ≡ computed.old }
    ensures ok { (root : Operands) → IsChain operation store.now root (reverse waiting.old.items) q → IfOk result (IsTurn operation store.now root (reverse waiting.new.items)) }
    ensures fewer { (root : Operands) → IsChain operation store.now root (reverse waiting.old.items) q → IfOk result (λ next. steps_left store.now.vars (reverse waiting.new.items) next < steps_left store.now.vars (reverse waiting.old.items) (Turn.Ask q)) }
{
    match known(computed, operation, q) {
        Some(n) => Ok(Turn::Answer(n)),
        None => {
            let (question, low) = pose(store, q);
            waiting.push(question)?;
            Ok(Turn::Ask(low))
        }
    }
}

// Whether the node reads the variable first, and has the answers as its branches there.
fn has_branches(store: &Store, n: Node, answered: Answered) -> bool
    requires node { IsNodeOf store.now n }
    requires var { answered.var < store.now.vars }
    ensures { IsTrue result → HasBranches store.now n answered.var answered.low answered.high }
{
    if store.top(n) != answered.var {
        return false;
    }
    store.lo(n) == answered.low && store.hi(n) == answered.high
}

// An operand that has the answers as its branches, so that no table needs to be asked for it. The second hardly ever
// has them, and is not looked at.
fn operand_with(store: &Store, answered: Answered) -> Option<Node>
    requires nodes { AreNodesOf store.now answered.asked }
    requires var { answered.var < store.now.vars }
    ensures { IfSome result (λ n. HasBranches store.now n answered.var answered.low answered.high) }
{
    let Operands { a, b: _, c, d } = answered.asked;
    if has_branches(store, a, answered) {
        Some(a)
    } else if has_branches(store, c, answered) {
        Some(c)
    } else if has_branches(store, d, answered) {
        Some(d)
    } else {
        None
    }
}

// What `make` gives. Where an operand is that node, it is found without the unique table.
fn join(store: &mut Store, answered: Answered) -> Result<Node, StoreFault>
    requires nodes { AreNodesOf store.old answered.asked }
    requires var { answered.var < store.old.vars }
    requires low { IsNodeOf store.old answered.low }
    requires high { IsNodeOf store.old answered.high }
    requires above_low { answered.var < top_of store.old answered.low }
    requires above_high { answered.var < top_of store.old answered.high }

    ensures node { IfOk result (IsNodeOf store.new) }
    ensures function { IfOk result (λ n. (bits : List Bool) → den store.new n bits ≡ choice store.old answered.var answered.low answered.high bits) }
    ensures top { IfOk result (λ n. answered.var ≤ top_of store.new n) }
    ensures answers { store.new.answers ≡ store.old.answers }
    ensures keeps { KeepsNodes store.old store.new }
    ensures new_node { (n : Node) → IsNodeOf store.new n → IsNodeOf store.old n ⊎ ((result ≡ Ok n) ⊎ (result ≡ Ok (complemented n))) }
    ensures full { result ≡ Err StoreFault.Full → IsRefused store.old answered.var answered.low answered.high }
    ensures new_function { result ≡ Err StoreFault.Full → IsNewFunction store.old (choice store.old answered.var answered.low answered.high) }
    ensures err { OnErr result (store.new ≡ store.old) }
{
    match operand_with(store, answered) {
        Some(n) => Ok(n),
        None => Ok(store.make(answered.var, answered.low, answered.high)?),
    }
}

// The node of operands whose cofactors are answered.
fn close(
    store: &mut Store,
    computed: &mut ComputedTable,
    operation: Operation,
    answered: Answered,
) -> Result<Node, StoreFault>
    requires answers { AreAnswered operation store.old answered }
    requires computed { AreComputed store.old computed.old }

    ensures answer { IfOk result (IsAnswer operation store.new answered.asked) }
    ensures computed { AreComputed store.new computed.new }
    ensures answers { store.new.answers ≡ store.old.answers }
    ensures keeps { KeepsNodes store.old store.new }
    ensures parts { NewAreParts store.old store.new (value operation store.old answered.asked) }
    ensures full { result ≡ Err StoreFault.Full → IsRefusedPart store.new (value operation store.old answered.asked) }
{
    let n = join(store, answered)?;
    computed.insert(Computed {
        operation,
        operands: answered.asked,
        answer: n,
    });
    Ok(n)
}

// Takes an answer to the question that waits for it.
fn resume(
    store: &mut Store,
    computed: &mut ComputedTable,
    waiting: &mut Vec<Question>,
    operation: Operation,
    question: Question,
    n: Node,
) -> Result<Turn, StoreFault>
    requires answer { IsAnswered operation store.old question n }
    requires computed { AreComputed store.old computed.old }

    ensures ok { (root : Operands) → IsChain operation store.new root (reverse waiting.old.items) (asked_of question) → IfOk result (IsTurn operation store.new root (reverse waiting.new.items)) }
    ensures fewer { IfOk result (λ next. steps_left store.old.vars (reverse waiting.new.items) next < steps_waiting store.old.vars (question ∷ reverse waiting.old.items)) }
    ensures computed { AreComputed store.new computed.new }
    ensures answers { store.new.answers ≡ store.old.answers }
    ensures keeps { KeepsNodes store.old store.new }
    ensures parts { NewAreParts store.old store.new (value operation store.old (asked_of question)) }
    ensures full { result ≡ Err StoreFault.Full → IsRefusedPart store.new (value operation store.old (asked_of question)) }
{
    match question {
        Question::Low { asked, var, high } => {
            let next = Question::High { asked, var, low: n };
            if waiting.push(next).is_err() {
                return Err(StoreFault::Memory);
            }
            Ok(Turn::Ask(high))
        }
        Question::High { asked, var, low } => {
            let answered = Answered {
                asked,
                var,
                low,
                high: n,
            };
            let n = close(store, computed, operation, answered)?;
            Ok(Turn::Answer(n))
        }
    }
}

// The node of the operation on the root's functions.
pub(crate) fn apply(
    alloc: Global,
    store: &mut Store,
    computed: &mut ComputedTable,
    operation: Operation,
    root: Operands,
) -> Result<Node, StoreFault>
    requires nodes { AreNodesOf store.old root }
    requires computed { AreComputed store.old computed.old }

    ensures node { IfOk result (IsNodeOf store.new) }
    ensures function { IfOk result (λ n. (bits : List Bool) → den store.new n bits ≡ value operation store.old root bits) }
    ensures computed { AreComputed store.new computed.new }
    ensures answers { store.new.answers ≡ store.old.answers }
    ensures keeps { KeepsNodes store.old store.new }
    ensures parts { NewAreParts store.old store.new (value operation store.old root) }
    ensures full { result ≡ Err StoreFault.Full → IsRefusedPart store.new (value operation store.old root) }
{
    let mut waiting: Vec<Question> = Vec::with_capacity(alloc, FIRST_WAITING)?;
    let mut turn = Turn::Ask(root);
    loop {
        match turn {
            Turn::Ask(q) => turn = ask(store, computed, &mut waiting, operation, q)?,
            Turn::Answer(n) => {
                let Some(question) = waiting.pop() else {
                    return Ok(n);
                };
                store.laws();
                turn = resume(store, computed, &mut waiting, operation, question, n)?;
            }
        }
    }
}

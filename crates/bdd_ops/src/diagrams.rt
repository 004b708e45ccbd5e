ghost use Rattle.std.specs.Prelude.{◌≡◌, ◌↔◌, ◌<◌, ◌≤◌, ◌≢◌, Bool, true, false, List, [], Some, None, length, IsSome, IfOk, OnOk, OnErr, IfSome};
ghost use Rattle.std.specs.Bool.{OnTrue, OnFalse};
ghost use Rattle.bdd_store.specs.Arena.{empty, root_at, HasRoot, with_answers, answer_to, complemented, constant, den, IsNodeOf, IsBranching};
ghost use Rattle.bdd_store.specs.Growth.{Grows};
ghost use Rattle.bdd_store.specs.Subfunctions.{nodes};
ghost use Rattle.bdd_store.specs.Sweeping.{KeepsRoots, HasReached, AllReached};
ghost use Rattle.bdd_ops.specs.Apply.{value, AreNodesOf};
ghost use Rattle.bdd_ops.specs.Choices.{IsNodeOfChoice};
ghost use Rattle.bdd_ops.specs.Least.{IsLeast, IsLayout, by_variable};
ghost use Rattle.bdd_ops.specs.Operations.{bit_at, complement, conjunction, disjunction, exclusive_or, if_then_else, selection};

use crate::apply::apply;
use crate::computed::ComputedTable;
use crate::least::least;
use crate::least_by::least_by;
use crate::operands::{Operands, Operation};
use bdd_store::{Choice, Node, Root, Store, StoreFault};
use cyc_base::MAX_NODES;
use std::alloc::{AllocError, Global};
use std::marker::Model;

/// A store of decision diagrams with the operations on its nodes' functions. Each operation answers the node
/// of its function. It leaves every earlier node its function, and adds at most as many nodes as its function
/// has subfunctions (Bryant 1986), after a refusal too. `Full` comes only where so many more nodes would be
/// over the limit, and the store then holds as many as it may.
pub struct Diagrams {
    store: Store,
    computed: ComputedTable,
    alloc: Global,
}

impl Drop for Diagrams {
    fn drop(self) {
        let Diagrams {
            store: _,
            computed: _,
            alloc: _,
        } = self;
    }
}

impl Model for Diagrams {
    ghost use Rattle.bdd_store.specs.Arena.{Arena};
    ghost use Rattle.bdd_ops.specs.Apply.{AreComputed};
    ghost use Rattle.bdd_ops.specs.Choices.{AreRight};

    ghost Value = { Arena };

    ghost view = { λ d. d.store };

    ghost invariant = { λ d. AreComputed d.store d.computed × AreRight d.store };
}

impl Diagrams {
    /// Diagrams without nodes but the constants.
    pub fn new(alloc: Global, vars: u32, limit: u32) -> Result<Diagrams, AllocError>
        requires { limit ≤ MAX_NODES }
        ensures { IfOk result (λ d. d ≡ empty vars limit) }
    {
        let store = Store::new(alloc, vars, limit)?;
        let computed = ComputedTable::new(alloc)?;
        Ok(Diagrams {
            store,
            computed,
            alloc,
        })
    }

    /// The nodes.
    pub fn store(&self) -> &Store
        ensures { result.now ≡ self.now }
    {
        &self.store
    }

    /// Begins anew, as `new` does. Nodes of before but the constants mean nothing then. On `AllocError` all
    /// stays as it was.
    pub fn start(&mut self, vars: u32, limit: u32) -> Result<(), AllocError>
        requires { limit ≤ MAX_NODES }
        ensures ok { OnOk result (self.new ≡ empty vars limit) }
        ensures err { OnErr result (self.new ≡ self.old) }
    {
        *self = Diagrams::new(self.alloc, vars, limit)?;
        Ok(())
    }

    /// The function that is the bit at one variable.
    pub fn var(&mut self, v: u32) -> Result<Node, StoreFault>
        requires { v < self.old.vars }
        ensures node { IfOk result (IsNodeOf self.new) }
        ensures function { IfOk result (λ n. (bits : List Bool) → den self.new n bits ≡ bit_at v bits) }
        ensures grows { Grows result self.old self.new (nodes self.old.vars (bit_at v)) }
    {
        let answer = self.store.make(v, Node::of(false), Node::of(true));
        self.store.laws();
        answer
    }

    // An operation on the functions of up to four nodes.
    fn operate(&mut self, operation: Operation, operands: Operands) -> Result<Node, StoreFault>
        requires { AreNodesOf self.old operands }
        ensures node { IfOk result (IsNodeOf self.new) }
        ensures function { IfOk result (λ n. (bits : List Bool) → den self.new n bits ≡ value operation self.old operands bits) }
        ensures answers { self.new.answers ≡ self.old.answers }
        ensures grows { Grows result self.old self.new (nodes self.old.vars (value operation self.old operands)) }
    {
        let answer = apply(
            self.alloc,
            &mut self.store,
            &mut self.computed,
            operation,
            operands,
        );
        self.store.laws();
        answer
    }

    /// True where `a` is false. It adds nothing, takes no memory and always answers.
    pub fn not(&mut self, a: Node) -> Result<Node, StoreFault>
        requires { IsNodeOf self.old a }
        ensures node { IfOk result (IsNodeOf self.new) }
        ensures function { IfOk result (λ n. (bits : List Bool) → den self.new n bits ≡ complement self.old a bits) }
        ensures grows { Grows result self.old self.new (nodes self.old.vars (complement self.old a)) }
        ensures always { result ≡ Ok (complemented a) }
        ensures unchanged { self.new ≡ self.old }
    {
        self.store.laws();
        Ok(a.complement())
    }

    /// True where both are.
    pub fn and(&mut self, a: Node, b: Node) -> Result<Node, StoreFault>
        requires a { IsNodeOf self.old a }
        requires b { IsNodeOf self.old b }
        ensures node { IfOk result (IsNodeOf self.new) }
        ensures function { IfOk result (λ n. (bits : List Bool) → den self.new n bits ≡ conjunction self.old a b bits) }
        ensures grows { Grows result self.old self.new (nodes self.old.vars (conjunction self.old a b)) }
    {
        self.ite(a, b, Node::of(false))
    }

    /// True where one of the two is.
    pub fn or(&mut self, a: Node, b: Node) -> Result<Node, StoreFault>
        requires a { IsNodeOf self.old a }
        requires b { IsNodeOf self.old b }
        ensures node { IfOk result (IsNodeOf self.new) }
        ensures function { IfOk result (λ n. (bits : List Bool) → den self.new n bits ≡ disjunction self.old a b bits) }
        ensures grows { Grows result self.old self.new (nodes self.old.vars (disjunction self.old a b)) }
    {
        self.ite(a, Node::of(true), b)
    }

    /// True where just one of the two is.
    pub fn xor(&mut self, a: Node, b: Node) -> Result<Node, StoreFault>
        requires a { IsNodeOf self.old a }
        requires b { IsNodeOf self.old b }
        ensures node { IfOk result (IsNodeOf self.new) }
        ensures function { IfOk result (λ n. (bits : List Bool) → den self.new n bits ≡ exclusive_or self.old a b bits) }
        ensures grows { Grows result self.old self.new (nodes self.old.vars (exclusive_or self.old a b)) }
    {
        self.ite(a, b.complement(), b)
    }

    /// The answer that is kept for a choice, where one is: the node of `ite`.
    pub fn cached(&self, a: Node, b: Node, c: Node) -> Option<Node>
        requires a { IsNodeOf self.now a }
        requires b { IsNodeOf self.now b }
        requires c { IsNodeOf self.now c }
        ensures held { result ≡ answer_to self.now (record { a = a; b = b; c = c }) }
        ensures node { IfSome result (IsNodeOf self.now) }
        ensures function { IfSome result (λ n. (bits : List Bool) → den self.now n bits ≡ if_then_else self.now a b c bits) }
    {
        self.store.answer(Choice { a, b, c })
    }

    // Keeps an answer, which may have to wait for memory.
    fn remember(&mut self, choice: Choice, n: Node) -> Result<(), AllocError>
        requires { IsNodeOfChoice self.old choice n }
        ensures kept { OnOk result (answer_to self.new choice ≡ Some n) }
        ensures same { self.new ≡ with_answers self.old self.new.answers }
    {
        self.store.keep_answer(choice, n)
    }

    // The node of a choice. The answers that are kept are asked first.
    fn choose(&mut self, a: Node, b: Node, c: Node) -> Result<Node, StoreFault>
        requires a { IsNodeOf self.old a }
        requires b { IsNodeOf self.old b }
        requires c { IsNodeOf self.old c }
        ensures node { IfOk result (IsNodeOf self.new) }
        ensures function { IfOk result (λ n. (bits : List Bool) → den self.new n bits ≡ if_then_else self.old a b c bits) }
        ensures grows { Grows result self.old self.new (nodes self.old.vars (if_then_else self.old a b c)) }
    {
        if let Some(n) = self.cached(a, b, c) {
            return Ok(n);
        }
        self.operate(Operation::Ite, Operands::three(a, b, c))
    }

    /// `b` where `a` is true, and `c` elsewhere. The answer is kept: `cached` gives it, until others take its
    /// place. It is not where the choice is none, since `a` is a constant or `b` is `c`.
    pub fn ite(&mut self, a: Node, b: Node, c: Node) -> Result<Node, StoreFault>
        requires a { IsNodeOf self.old a }
        requires b { IsNodeOf self.old b }
        requires c { IsNodeOf self.old c }
        ensures node { IfOk result (IsNodeOf self.new) }
        ensures function { IfOk result (λ n. (bits : List Bool) → den self.new n bits ≡ if_then_else self.old a b c bits) }
        ensures grows { Grows result self.old self.new (nodes self.old.vars (if_then_else self.old a b c)) }
        ensures cached { IfOk result (λ n. IsBranching a → b ≢ c → answer_to self.new (record { a = a; b = b; c = c }) ≡ Some n) }
    {
        let n = self.choose(a, b, c)?;
        if a.is_branching() && b != c {
            self.remember(Choice { a, b, c }, n)?;
        }
        Ok(n)
    }

    /// `hi` where `one` is true, `lo` where `zero` is, and what both have where neither is.
    pub fn select(&mut self, one: Node, zero: Node, hi: Node, lo: Node) -> Result<Node, StoreFault>
        requires one { IsNodeOf self.old one }
        requires zero { IsNodeOf self.old zero }
        requires hi { IsNodeOf self.old hi }
        requires lo { IsNodeOf self.old lo }
        ensures node { IfOk result (IsNodeOf self.new) }
        ensures function { IfOk result (λ n. (bits : List Bool) → den self.new n bits ≡ selection self.old one zero hi lo bits) }
        ensures grows { Grows result self.old self.new (nodes self.old.vars (selection self.old one zero hi lo)) }
    {
        let operands = Operands {
            a: one,
            b: zero,
            c: hi,
            d: lo,
        };
        self.operate(Operation::Select, operands)
    }

    /// Writes the least vector at which the node's function is true: at the first variable where it differs
    /// from another such vector it has 0. The answer is false exactly for the constant false, and `out`, with
    /// a bit for each variable, is then as it was.
    pub fn least(&self, n: Node, out: &mut [bool]) -> bool
        requires node { IsNodeOf self.now n }
        requires bits { length out.old ≡ self.now.vars }
        ensures found { (result ≡ false) ↔ (n ≡ constant false) }
        ensures least { OnTrue result (IsLeast (den self.now n) out.new) }
        ensures unchanged { OnFalse result (out.new ≡ out.old) }
    {
        least(&self.store, n, out)
    }

    /// Writes the least vector by column at which the node's function is true: variable k is read at the place
    /// `columns[k]`, and at the first place where it differs from another such vector it has 0. The answer is
    /// false exactly for the constant false, and `out`, with a place for each variable, is then as it was. After
    /// `AllocError` it may hold anything.
    pub fn least_by(&self, n: Node, columns: &[u32], out: &mut [bool]) -> Result<bool, AllocError>
        requires node { IsNodeOf self.now n }
        requires columns { IsLayout self.now.vars columns.now }
        requires bits { length out.old ≡ self.now.vars }
        ensures found { (result ≡ Ok false) ↔ (n ≡ constant false) }
        ensures least { result ≡ Ok true → IsLeast (λ v. den self.now n (by_variable columns.now v)) out.new }
        ensures unchanged { result ≡ Ok false → out.new ≡ out.old }
    {
        least_by(self.alloc, &self.store, n, columns, out)
    }

    /// Keeps a node as a root, under a key that was free.
    pub fn keep(&mut self, n: Node) -> Result<Root, AllocError>
        requires { IsNodeOf self.old n }
        ensures free { IfOk result (λ r. root_at self.old r.key ≡ None) }
        ensures kept { IfOk result (λ r. HasRoot self.old self.new r.key (Some n)) }
        ensures err { OnErr result (self.new ≡ self.old) }
    {
        self.store.keep(n)
    }

    /// The node of a root.
    pub fn root(&self, r: &Root) -> Node
        requires { IsSome (root_at self.now r.now.key) }
        ensures root { root_at self.now r.now.key ≡ Some result }
        ensures node { IsNodeOf self.now result }
    {
        self.store.root(r)
    }

    /// Gives a root up. Its node stays, and is no root under this key.
    pub fn release(&mut self, r: Root)
        requires { IsSome (root_at self.old r.key) }
        ensures { HasRoot self.old self.new r.key None }
    {
        self.store.release(r);
    }

    /// Takes out every entry that no root reaches along branches, and forgets all answers. The roots keep their
    /// keys and their functions; of other nodes of before only the constants mean anything then. On `AllocError`
    /// all stays as it was.
    pub fn sweep(&mut self) -> Result<(), AllocError>
        ensures roots { OnOk result (KeepsRoots self.old self.new) }

        // What is left are the entries that were reached, and each is.
        ensures count { OnOk result (HasReached self.old (length self.new.entries)) }
        ensures reached { OnOk result (AllReached self.new) }
        ensures fewer { OnOk result (length self.new.entries ≤ length self.old.entries) }
        ensures answers { OnOk result (self.new.answers ≡ []) }
        ensures err { OnErr result (self.new ≡ self.old) }
    {
        self.store.sweep()?;
        self.computed.clear();
        Ok(())
    }
}

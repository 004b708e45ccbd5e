ghost use Rattle.std.specs.Prelude.{◌≡◌, ◌↔◌, ℕ, ◌+◌, ◌-◌, ◌*◌, ◌<◌, ◌≤◌, ◌⊎◌, Bool, List, [], Some, None, length, slice_get, Contains, IsSome, IsTrue, IfOk, OnOk, OnErr, false, true};
ghost use Rattle.std.specs.List.{slice_index_or};
ghost use Rattle.bdd_store.specs.Arena.{empty, root_at, HasRoot, answer_to, with_answers, index, complemented, node_value, den, choice, top_of, IsNodeOf, IsBranching};
ghost use Rattle.bdd_store.specs.Branches.{IsBranch};
ghost use Rattle.bdd_store.specs.Soundness.{IsSound, IsLawful};
ghost use Rattle.bdd_store.specs.Growth.{KeepsNodes, IsEntered, IsRefused, IsNewFunction, AddsAtMost};
ghost use Rattle.bdd_store.specs.Sweeping.{KeepsRoots, HasReached, AllReached};

use crate::fault::StoreFault;
use crate::node::{Choice, Entry, Node};
use crate::root::Root;
use crate::sweep::{compact, reached, renumber};
use cyc_base::MAX_NODES;
use indexmap::IndexSet;
use lru::LruCache;
use slab::Slab;
use std::alloc::{AllocError, Global};
use std::marker::Model;
use std::num::NonZeroUsize;

const MOST_ANSWERS: usize = 65_536;

// The position of an entry, which goes last if it is new.
fn enter(entries: &mut IndexSet<Entry>, limit: u32, entry: Entry) -> Result<u32, StoreFault>
    requires limit { limit ≤ MAX_NODES }
    requires room { length entries.old.keys ≤ limit }
    ensures at { IfOk result (λ p. slice_get entries.new.keys p ≡ Some entry) }
    ensures ok { OnOk result (IsEntered entries.old.keys entries.new.keys limit entry) }
    ensures full { (result ≡ Err StoreFault.Full) ↔ ((length entries.old.keys ≡ limit) × (¬ Contains entries.old.keys entry)) }
    ensures err { OnErr result (entries.new.keys ≡ entries.old.keys) }
{
    if entries.len() < limit as usize {
        let (at, _) = entries.insert_full(entry)?;
        Ok(at as u32)
    } else {
        match entries.get_index_of(&entry) {
            Some(at) => Ok(at as u32),
            None => Err(StoreFault::Full),
        }
    }
}

// The node of the entry at a position.
fn node_at(position: u32) -> Node
    requires { position < MAX_NODES }
    ensures { result.number ≡ 2 * position + 3 }
{
    Node {
        number: 2 * position + 3,
    }
}

/// Nodes of reduced ordered decision diagrams. The variables are numbered from 0 in their order, and a
/// node's function reads the bit at its variable. The unique table has each triple of a variable and two
/// branches once. A function and its complement share one entry: no high branch has a mark (Brace, Rudell and
/// Bryant 1990).
pub struct Store {
    vars: u32,
    limit: u32,
    entries: IndexSet<Entry>,
    roots: Slab<Node>,
    // What the layer above found for choices.
    answers: LruCache<Choice, Node>,
    alloc: Global,
}

impl Drop for Store {
    fn drop(self) {
        let Store {
            vars: _,
            limit: _,
            entries: _,
            roots: _,
            answers: _,
            alloc: _,
        } = self;
    }
}

// The number in the invariant is `MAX_NODES`.
impl Model for Store {
    ghost use Rattle.std.specs.Prelude.{◌≤◌, length};
    ghost use Rattle.bdd_store.specs.Arena.{Arena};
    ghost use Rattle.bdd_store.specs.Soundness.{IsSound, AreWithin};

    ghost Value = { Arena };

    ghost view = { λ s. record { vars = s.vars; limit = s.limit; entries = s.entries.keys; roots = s.roots.slots; answers = s.answers.entries } };

    ghost invariant = { λ s. (s.limit ≤ 50000000) × (length s.entries.keys ≤ s.limit) × IsSound s.vars s.entries.keys × AreWithin s.roots.slots (length s.entries.keys) };
}

impl Store {
    /// A store without nodes but the constants, over so many variables, which may come to hold `limit`
    /// nodes. Constants aren't counted.
    pub fn new(alloc: Global, vars: u32, limit: u32) -> Result<Store, AllocError>
        requires { limit ≤ MAX_NODES }
        ensures { IfOk result (λ s. s ≡ empty vars limit) }
    {
        let entries = IndexSet::with_capacity(alloc, 1)?;
        let most = NonZeroUsize::new(MOST_ANSWERS).unwrap_or(NonZeroUsize::MIN);
        let answers = LruCache::sparse(alloc, most)?;
        Ok(Store {
            vars,
            limit,
            entries,
            roots: Slab::new(alloc),
            answers,
            alloc,
        })
    }

    /// How many variables there are.
    pub fn vars(&self) -> u32
        ensures { result ≡ self.now.vars }
    {
        self.vars
    }

    /// How many nodes there may be, without the constants.
    pub fn limit(&self) -> u32
        ensures limit { result ≡ self.now.limit }
        ensures within { result ≤ MAX_NODES }
    {
        self.limit
    }

    /// How many nodes there are, without the constants.
    pub fn count(&self) -> u32
        ensures count { result ≡ length self.now.entries }
        ensures within { result ≤ self.now.limit }
    {
        self.entries.len() as u32
    }

    /// What holds of each store, as the contract of a call that does nothing: its diagrams are ordered and
    /// reduced, and nodes of one function are one node.
    pub fn laws(&self)
        ensures { IsLawful self.now }
    {
        let _ = &self.entries;
    }

    /// The node that is `hi` where the bit at `var` is 1, and `lo` where it is 0. On `Full` and on `Memory`
    /// the store is unchanged.
    pub fn make(&mut self, var: u32, lo: Node, hi: Node) -> Result<Node, StoreFault>
        requires var { var < self.old.vars }
        requires lo { IsNodeOf self.old lo }
        requires hi { IsNodeOf self.old hi }
        requires above_lo { var < top_of self.old lo }
        requires above_hi { var < top_of self.old hi }

        ensures node { IfOk result (IsNodeOf self.new) }
        ensures function { IfOk result (λ n. (bits : List Bool) → den self.new n bits ≡ choice self.old var lo hi bits) }
        ensures top { IfOk result (λ n. var ≤ top_of self.new n) }
        ensures equal { lo ≡ hi → result ≡ Ok lo }

        // At most one entry is added, that of the answer, and each earlier node keeps its function.
        ensures keeps { KeepsNodes self.old self.new }
        ensures added { AddsAtMost self.old self.new 1 }
        ensures new_node { (n : Node) → IsNodeOf self.new n → IsNodeOf self.old n ⊎ ((result ≡ Ok n) ⊎ (result ≡ Ok (complemented n))) }
        ensures equal_adds_none { lo ≡ hi → self.new ≡ self.old }
        ensures answers { self.new.answers ≡ self.old.answers }

        // It is full exactly where a new entry finds no room: neither the triple nor the one with both branches
        // complemented is there. No node has the wanted function then.
        ensures full { (result ≡ Err StoreFault.Full) ↔ IsRefused self.old var lo hi }
        ensures new_function { result ≡ Err StoreFault.Full → IsNewFunction self.old (choice self.old var lo hi) }
        ensures err { OnErr result (self.new ≡ self.old) }
    {
        if lo == hi {
            return Ok(lo);
        }
        let mark = hi.is_marked();
        let entry = Entry {
            var,
            lo: lo.complement_if(mark),
            hi: hi.complement_if(mark),
        };
        let at = enter(&mut self.entries, self.limit, entry)?;
        Ok(node_at(at).complement_if(mark))
    }

    /// The value of a node's function at bits, one for each variable.
    pub fn value(&self, n: Node, bits: &[bool]) -> bool
        requires node { IsNodeOf self.now n }
        requires bits { length bits.now ≡ self.now.vars }
        ensures { result ≡ den self.now n bits.now }
    {
        // Marks are gathered on the way.
        let mut at = n;
        while at.is_branching() {
            at = self.branch(at, bits[self.top(at) as usize]);
        }
        !at.is_marked()
    }

    /// The variable of a node, or `vars` for a constant.
    pub fn top(&self, n: Node) -> u32
        requires { IsNodeOf self.now n }
        ensures variable { result ≡ top_of self.now n }
        ensures branching { IsBranching n ↔ (result < self.now.vars) }
    {
        if n.is_branching() {
            self.entry(n).var
        } else {
            self.vars
        }
    }

    /// The branch of a node that is no constant, where the bit at its variable is 0: complemented, where the node
    /// has a mark.
    pub fn lo(&self, n: Node) -> Node
        requires node { IsNodeOf self.now n }
        requires entry { IsBranching n }
        ensures node { IsNodeOf self.now result }
        ensures earlier { index result < index n }
        ensures lower { top_of self.now n < top_of self.now result }
        ensures within { top_of self.now n < self.now.vars }
        ensures function { (bits : List Bool) → slice_index_or bits (top_of self.now n) false ≡ false → den self.now n bits ≡ den self.now result bits }
    {
        self.branch(n, false)
    }

    /// The branch of a node that is no constant, where the bit at its variable is 1: complemented, where the node
    /// has a mark.
    pub fn hi(&self, n: Node) -> Node
        requires node { IsNodeOf self.now n }
        requires entry { IsBranching n }
        ensures node { IsNodeOf self.now result }
        ensures earlier { index result < index n }
        ensures lower { top_of self.now n < top_of self.now result }
        ensures within { top_of self.now n < self.now.vars }
        ensures function { (bits : List Bool) → slice_index_or bits (top_of self.now n) false ≡ true → den self.now n bits ≡ den self.now result bits }
    {
        self.branch(n, true)
    }

    // The entry of a node that is no constant.
    fn entry(&self, n: Node) -> Entry
        requires node { IsNodeOf self.now n }
        requires branching { IsBranching n }
        ensures at { slice_get self.now.entries (index n - 1) ≡ Some result }
        ensures sound { IsSound self.now.vars self.now.entries }
    {
        self.entries.as_slice()[n.index() as usize - 1]
    }

    // The branch of a node that is no constant, where the bit at its variable is `bit`.
    fn branch(&self, n: Node, bit: bool) -> Node
        requires node { IsNodeOf self.now n }
        requires branching { IsBranching n }
        ensures { IsBranch self.now.vars self.now.entries n bit result }
    {
        let entry = self.entry(n);
        let branch = if bit { entry.hi } else { entry.lo };
        branch.complement_if(n.is_marked())
    }

    /// The node without a mark whose entry was made after so many others.
    pub fn at(&self, position: u32) -> Node
        requires { position < length self.now.entries }
        ensures { result.number ≡ 2 * position + 3 }
    {
        let _ = &self.entries;
        node_at(position)
    }

    /// Whether a node is one of this store.
    pub fn contains(&self, n: Node) -> bool
        ensures { IsTrue result ↔ IsNodeOf self.now n }
    {
        n.index() as usize <= self.entries.len()
    }

    /// Keeps a node as a root, under a key that was free.
    pub fn keep(&mut self, n: Node) -> Result<Root, AllocError>
        requires { IsNodeOf self.old n }
        ensures free { IfOk result (λ r. root_at self.old r.key ≡ None) }
        ensures kept { IfOk result (λ r. HasRoot self.old self.new r.key (Some n)) }
        ensures err { OnErr result (self.new ≡ self.old) }
    {
        let key = self.roots.insert(n)?;
        Ok(Root { key })
    }

    /// The node of a root.
    pub fn root(&self, r: &Root) -> Node
        requires { IsSome (root_at self.now r.now.key) }
        ensures root { root_at self.now r.now.key ≡ Some result }
        ensures node { IsNodeOf self.now result }
    {
        self.roots[r.key]
    }

    /// Gives a root up. Its node stays, and is no root under this key.
    pub fn release(&mut self, r: Root)
        requires { IsSome (root_at self.old r.key) }
        ensures { HasRoot self.old self.new r.key None }
    {
        self.roots.remove(r.key);
    }

    /// Takes out every entry that no root reaches along branches. The roots keep their keys and their functions;
    /// of other nodes of before only the constants mean anything then. No answer is kept. On `AllocError` the
    /// store is unchanged.
    pub fn sweep(&mut self) -> Result<(), AllocError>
        ensures roots { OnOk result (KeepsRoots self.old self.new) }

        // What is left are the entries that were reached, and each is.
        ensures count { OnOk result (HasReached self.old (length self.new.entries)) }
        ensures reached { OnOk result (AllReached self.new) }
        ensures fewer { OnOk result (length self.new.entries ≤ length self.old.entries) }
        ensures answers { OnOk result (self.new.answers ≡ []) }
        ensures err { OnErr result (self.new ≡ self.old) }
    {
        let entries = self.entries.as_slice();
        let marks = reached(self.alloc, entries, &self.roots)?;
        let (table, places) = compact(self.alloc, entries, &marks)?;
        renumber(&mut self.roots, &places);
        self.entries = table;
        self.answers.clear();
        Ok(())
    }

    /// The answer that is kept for a choice.
    pub fn answer(&self, choice: Choice) -> Option<Node>
        ensures { result ≡ answer_to self.now choice }
    {
        self.answers.peek(&choice).copied()
    }

    /// Keeps an answer to a choice. The one that was used least recently may have to go for it.
    pub fn keep_answer(&mut self, choice: Choice, n: Node) -> Result<(), AllocError>
        ensures kept { OnOk result (answer_to self.new choice ≡ Some n) }
        ensures others { (x : Choice) (m : Node) → Contains self.new.answers (x, m) → ((x ≡ choice) × (m ≡ n)) ⊎ Contains self.old.answers (x, m) }
        ensures same { self.new ≡ with_answers self.old self.new.answers }
        ensures err { OnErr result (self.new ≡ self.old) }
    {
        self.answers.put(choice, n)?;
        Ok(())
    }
}

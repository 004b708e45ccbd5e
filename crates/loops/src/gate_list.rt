//! Lists of gates.

ghost use Rattle.std.specs.Prelude.{◌≡◌, ◌++◌, [], ◌∷◌, replicate, IfOk, OnOk};

use cyc_base::Items;
use std::alloc::{AllocError, Global};
use std::marker::Model;

/// Gates, to which more are added: those of a block, or those that read a wire.
#[derive(Drop)]
pub struct GateList {
    gates: Vec<u32>,
}

impl Model for GateList {
    ghost use Rattle.std.specs.Prelude.{List, ℕ};

    ghost Value = { List ℕ };

    ghost view = { λ list. list.gates.items };
}

impl GateList {
    pub fn new(alloc: Global) -> GateList
        ensures { result ≡ [] }
    {
        GateList {
            gates: Vec::new(alloc),
        }
    }

    pub fn push(&mut self, gate: u32) -> Result<(), AllocError>
        ensures { OnOk result (self.new ≡ self.old ++ gate ∷ []) }
    {
        self.gates.push(gate)?;
        Ok(())
    }

    pub fn gates(&self) -> &[u32]
        ensures { result.now ≡ self.now }
    {
        &self.gates
    }

    pub(crate) fn into_items(self) -> Items<u32>
        ensures { result ≡ self }
    {
        Items::of(self.gates)
    }
}

/// So many lists without gates.
pub fn empty_lists(alloc: Global, count: u32) -> Result<Vec<GateList>, AllocError>
    ensures { IfOk result (λ lists. lists.items ≡ replicate count []) }
{
    let mut lists = Vec::with_capacity(alloc, count as usize)?;
    for _ in 0..count {
        lists.push(GateList::new(alloc))?;
    }
    Ok(lists)
}

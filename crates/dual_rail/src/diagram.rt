//! The diagram of a cover over its pins.
ghost use Rattle.std.specs.Prelude.{◌≡◌, ◌≤◌, ◌<◌, ◌-◌, ◌^◌, length, IfOk};
ghost use Rattle.dual_rail.specs.Local.{Local, IsLocal, IsDiagramOf, size};

use crate::expand::expand_cover;
use bdd_store::{Node, Store, StoreFault};
use cover_logic::Cover;
use cyc_base::MAX_NODES;
use std::alloc::Global;
use std::marker::Model;

/// The diagram of a cover in a store of its own, whose variables are the cover's pins in their order. The store
/// has nodes of the cover's function alone: each, or its complement, stands for it with some first pins fixed.
pub struct LocalDiagram {
    store: Store,
    top: Node,
    pins: usize,
}

impl Drop for LocalDiagram {
    fn drop(self) {
        let LocalDiagram {
            store: _,
            top: _,
            pins: _,
        } = self;
    }
}

impl Model for LocalDiagram {
    ghost use Rattle.dual_rail.specs.Local.{Local, IsLocal};

    ghost Value = { Local };

    ghost view = { λ l. record { store = l.store; top = l.top; pins = l.pins } };

    ghost invariant = { λ l. IsLocal (record { store = l.store; top = l.top; pins = l.pins }) };
}

impl LocalDiagram {
    /// The nodes.
    pub fn store(&self) -> &Store
        ensures store { result.now ≡ self.now.store }
        ensures local { IsLocal self.now }
    {
        &self.store
    }

    /// The node of the whole function.
    pub fn top(&self) -> Node
        ensures top { result ≡ self.now.top }
        ensures local { IsLocal self.now }
    {
        self.top
    }

    /// How many pins the cover has.
    pub fn pins(&self) -> usize
        ensures pins { result ≡ self.now.pins }
        ensures local { IsLocal self.now }
    {
        self.pins
    }
}

/// The diagram of a cover over its pins, by Shannon's expansion on the rows that the first pins still match. It
/// makes nodes of the cover's function alone, so at most `size` of the cover, and at most `2^pins - 1`. `Full`
/// comes only where the cover's size is over the limit.
///
/// Rows that agree from a pin on are one there, and a set of them that is left to be matched is expanded once. Of a
/// small set the rows that are contained in another one are left out. There may still be many more sets than nodes,
/// where different sets have one function. The classes of the rows take a number for each row and pin.
pub fn local(alloc: Global, cover: &Cover, limit: u32) -> Result<LocalDiagram, StoreFault>
    requires { limit ≤ MAX_NODES }
    ensures diagram { IfOk result (λ l. IsDiagramOf l cover.now) }
    ensures limit { IfOk result (λ l. l.store.limit ≡ limit) }
    ensures size { IfOk result (λ l. length l.store.entries ≤ size cover.now) }
    ensures most { IfOk result (λ l. length l.store.entries ≤ 2 ^ cover.now.pins - 1) }
    ensures full { result ≡ Err StoreFault.Full → limit < size cover.now }
{
    let pins = cover.pins();
    let Ok(mut store) = Store::new(alloc, pins as u32, limit) else {
        return Err(StoreFault::Memory);
    };
    let expanded = expand_cover(alloc, cover, &mut store);
    store.laws();
    let top = expanded?;
    Ok(LocalDiagram { store, top, pins })
}

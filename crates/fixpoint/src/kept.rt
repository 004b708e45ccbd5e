//! Rails that are kept as roots, so that a sweep leaves them their functions.

ghost use Rattle.std.specs.Prelude.{◌≡◌, map, All, IfOk};
ghost use Rattle.bdd_store.specs.Arena.{IsNodeOf};
ghost use Rattle.dual_rail.specs.Rails.{AreRailsOf};
ghost use Rattle.fixpoint.specs.Kept.{rails_under, AreKept, GainsRoots};

use bdd_ops::Diagrams;
use bdd_store::Root;
use dual_rail::Rails;
use std::alloc::{AllocError, Global};

/// Rails whose two nodes are roots. One that is dropped leaves its keys in the map.
pub struct KeptRails {
    /// The root of the node that is true where the value is surely 1.
    pub one: Root,
    /// The root of the node that is true where the value is surely 0.
    pub zero: Root,
}

impl Drop for KeptRails {
    fn drop(self) {
        let KeptRails { one: _, zero: _ } = self;
    }
}

impl KeptRails {
    /// Keeps proper rails. The nodes and the other roots stay, and on `AllocError` no root is new.
    pub fn keep(d: &mut Diagrams, rails: Rails) -> Result<KeptRails, AllocError>
        requires { AreRailsOf d.old rails }
        ensures kept { IfOk result (AreKept d.new) }
        ensures rails { IfOk result (λ kept. rails_under d.new kept ≡ rails) }
        ensures gains { GainsRoots d.old d.new }
    {
        let one = d.keep(rails.one)?;
        let Ok(zero) = d.keep(rails.zero) else {
            d.release(one);
            return Err(AllocError);
        };
        Ok(KeptRails { one, zero })
    }

    /// The nodes as they are now.
    pub fn rails(&self, d: &Diagrams) -> Rails
        requires { AreKept d.now self.now }
        ensures rails { result ≡ rails_under d.now self.now }
        ensures one { IsNodeOf d.now result.one }
        ensures zero { IsNodeOf d.now result.zero }
    {
        Rails {
            one: d.root(&self.one),
            zero: d.root(&self.zero),
        }
    }
}

/// Keeps proper rails, each in its place. The nodes and the other roots stay. On `AllocError` some may be kept.
pub fn keep_rails(
    alloc: Global,
    d: &mut Diagrams,
    rails: &[Rails],
) -> Result<Vec<KeptRails>, AllocError>
    requires { All (AreRailsOf d.old) rails.now }
    ensures kept { IfOk result (λ kept. All (AreKept d.new) kept.items) }
    ensures rails { IfOk result (λ kept. map (rails_under d.new) kept.items ≡ rails.now) }
    ensures gains { GainsRoots d.old d.new }
{
    let mut kept = Vec::with_capacity(alloc, rails.len())?;
    for one in rails {
        let root = KeptRails::keep(d, *one)?;
        kept.push(root)?;
    }
    Ok(kept)
}

/// The nodes of kept rails as they are now.
pub fn rails_of(alloc: Global, d: &Diagrams, kept: &[KeptRails]) -> Result<Vec<Rails>, AllocError>
    requires { All (AreKept d.now) kept.now }
    ensures { IfOk result (λ rails. rails.items ≡ map (rails_under d.now) kept.now) }
{
    kept.iter().map(|one| one.rails(d)).collect(alloc)
}

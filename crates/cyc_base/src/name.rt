ghost use Rattle.std.specs.Prelude.{◌≡◌, ◌==◌, ◌≤◌, IfOk, IsTrue, ◌↔◌, fold, length, take};
ghost use Rattle.std.proofs.Common.{rules};
ghost use Rattle.std.specs.Cmp.Lexicographic.{nat_list_eq_equiv};
ghost use Rattle.std.specs.Cmp.{partial_equiv_from_equiv};
ghost use Rattle.std.specs.Cmp.Rules.{comparing, hashing};
ghost use Rattle.std.specs.Hash as fed;
ghost use Rattle.std.specs.Str.{bytes_eq};
ghost use Rattle.cyc_base.specs.Names.{IsBlifName};

use std::alloc::{AllocError, Global};
use std::hash::{Hash, Hasher};
use std::marker::Model;

/// The most bytes that a name holds in place. With them it has the size of four words.
const MAX_IN_PLACE: usize = 30;

/// The first bytes of a place, which are a name.
#[derive(Clone, Copy, Debug, Drop)]
struct Short {
    place: [u8; MAX_IN_PLACE],
    length: u8,
}

/// The bytes of a name. Most names are short, and need no allocation.
#[derive(Debug, Drop)]
enum Held {
    InPlace(Short),
    Allocated(Vec<u8>),
}

impl Short {
    fn of(bytes: &[u8]) -> Short
        requires { length bytes.now ≤ 30 }
        ensures within { result.length ≤ 30 }
        ensures bytes { take result.length result.place ≡ bytes.now }
    {
        let mut place = [0; MAX_IN_PLACE];
        place[..bytes.len()].copy_from_slice(bytes);
        Short {
            place,
            length: bytes.len() as u8,
        }
    }

    fn bytes(&self) -> &[u8]
        requires { self.now.length ≤ 30 }
        ensures { result.now ≡ take self.now.length self.now.place }
    {
        let all = &self.place[..];
        &all[..usize::from(self.length)]
    }
}

/// A name, seen as its bytes. It may hold any bytes.
#[derive(Debug, Drop)]
pub struct Name {
    held: Held,
}

impl Model for Name {
    ghost use Rattle.std.specs.Prelude.{List, ℕ};
    ghost use Rattle.cyc_base.specs.Held.{bytes_of, IsWithin};

    ghost Value = { List ℕ };

    ghost view = { λ name. bytes_of name.held };

    ghost invariant = { λ name. IsWithin name.held };
}

impl Name {
    /// The name that has these bytes.
    pub fn new(bytes: Vec<u8>) -> Name
        ensures { result ≡ bytes.items }
    {
        let held = if bytes.len() <= MAX_IN_PLACE {
            Held::InPlace(Short::of(&bytes))
        } else {
            Held::Allocated(bytes)
        };
        Name { held }
    }

    /// The same, with an allocation only where the bytes are too many to be held in place.
    pub fn copied_from(alloc: Global, bytes: &[u8]) -> Result<Name, AllocError>
        ensures { IfOk result (λ name. name ≡ bytes.now) }
    {
        let held = if bytes.len() <= MAX_IN_PLACE {
            Held::InPlace(Short::of(bytes))
        } else {
            Held::Allocated(bytes.to_vec(alloc)?)
        };
        Ok(Name { held })
    }

    pub fn bytes(&self) -> &[u8]
        ensures { result.now ≡ self.now }
    {
        match &self.held {
            Held::InPlace(short) => short.bytes(),
            Held::Allocated(bytes) => bytes,
        }
    }

    /// An equal name.
    pub fn copy(&self) -> Result<Name, AllocError>
        ensures { IfOk result (λ name. name ≡ self.now) }
    {
        let held = match &self.held {
            Held::InPlace(short) => Held::InPlace(*short),
            Held::Allocated(bytes) => Held::Allocated(bytes.clone()?),
        };
        Ok(Name { held })
    }

    /// Whether it may stand in a BLIF text: one or more printed characters without blank and `#`.
    pub fn is_blif(&self) -> bool
        ensures { IsTrue result ↔ IsBlifName self.now }
    {
        let bytes = self.bytes();
        !bytes.is_empty()
            && bytes
                .iter()
                .all(|byte| (0x21..=0x7E).contains(byte) && *byte != b'#')
    }
}

/// Names are equal where their bytes are.
impl PartialEq for Name {
    ghost eq = { bytes_eq };

    ghost laws = { partial_equiv_from_equiv nat_list_eq_equiv };

    fn eq(&self, other: &Name) -> bool {
        self.bytes() == other.bytes()
    }
}

impl Eq for Name {
    ghost laws = { nat_list_eq_equiv };
}

impl Hash for Name {
    ghost hash_input = { fed.slice fed.u8 };

    ghost respects_eq = { Prim.search (hashing, rules) };

    fn hash<H: Hasher>(&self, state: &mut H) {
        self.bytes().hash(state);
    }
}

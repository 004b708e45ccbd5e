//! Gates that are added behind the netlist's own.

ghost use Rattle.std.specs.Prelude.{◌≡◌, ◌+◌, ◌++◌, ◌<◌, true, [], ◌∷◌, length, All, IfOk, IfSome, OnOk};
ghost use Rattle.cyc_base.specs.Names.{IsBlifName};
ghost use Rattle.netlist.specs.Netlists.{count, signal};
ghost use Rattle.unroll.specs.Marks.{mark as mark_of, copy_name as copy_name_of};
ghost use Rattle.case_split.specs.Operands.{IsWithin};
ghost use Rattle.case_split.specs.Added.{AreNew, IsAt, IsShared, IsAdded};

use crate::cofactors::{Cofactor, cofactor_of};
use crate::operands::Operand;
use cover_logic::Cover;
use cyc_base::{Items, Name, Sig};
use indexmap::IndexMap;
use netlist::{Gate, Netlist, gate_key};
use std::alloc::{AllocError, Global};
use unroll::copy_name;

/// A netlist, the gates of it that are copied, and the mark of new names.
pub(crate) struct Base<'a> {
    pub(crate) net: &'a Netlist,
    /// A mark for each gate.
    pub(crate) copied: &'a [bool],
    pub(crate) mark: Name,
    ghost marked: { mark ≡ mark_of net.now },
    ghost width: { length copied.now ≡ length net.now.gates },
}

impl<'a> Drop for Base<'a> {
    fn drop(self) {
        let Base {
            net: _,
            copied: _,
            mark: _,
        } = self;
    }
}

/// The gates that were added, of which no two have the same cover and pins.
pub(crate) struct Added {
    pub(crate) gates: Vec<Gate>,
    /// For a number made of a gate's cover and pins the place of such a gate.
    by_key: IndexMap<u64, u32>,
}

impl Drop for Added {
    fn drop(self) {
        let Added {
            gates: _,
            by_key: _,
        } = self;
    }
}

fn is_gate(gate: &Gate, cover: &Cover, pins: &[Sig]) -> bool
    ensures cover { result ≡ true → gate.now.cover ≡ cover.now }
    ensures pins { result ≡ true → gate.now.pins ≡ pins.now }
{
    if !gate.cover.is_same(cover) {
        return false;
    }
    gate.pins.items() == pins
}

impl Added {
    pub(crate) fn new(alloc: Global) -> Added
        ensures { result.gates.items ≡ [] }
    {
        Added {
            gates: Vec::new(alloc),
            by_key: IndexMap::new(alloc),
        }
    }

    /// The place of a gate that has this cover and these pins, if one is found.
    fn find(&self, key: u64, cover: &Cover, pins: &[Sig]) -> Option<u32>
        ensures { IfSome result (IsAt self.now.gates.items cover.now pins.now) }
    {
        let place = *self.by_key.get(&key)?;
        if (place as usize) < self.gates.len()
            && is_gate(&self.gates[place as usize], cover, pins)
        {
            Some(place)
        } else {
            None
        }
    }

    /// Adds a gate of this cover and these pins behind the others.
    fn push(
        &mut self,
        alloc: Global,
        base: &Base<'_>,
        name: &Name,
        cover: Cover,
        pins: Vec<Sig>,
    ) -> Result<(), AllocError>
        requires { count base.now.net.now + length self.old.gates.items < 4294967295 }
        ensures { OnOk result (self.new.gates.items ≡ self.old.gates.items ++ record { name = copy_name_of (mark_of base.now.net.now) (length self.old.gates.items) name.now; pins = pins.items; cover = cover } ∷ []) }
    {
        let name = copy_name(alloc, &base.mark, self.gates.len() as u32, name)?;
        let pins = Items::of(pins);
        self.gates.push(Gate { name, pins, cover })?;
        Ok(())
    }

    /// The signal of a gate of this cover and these pins, which is added where none is found.
    fn share(
        &mut self,
        alloc: Global,
        base: &Base<'_>,
        name: &Name,
        cover: Cover,
        pins: Vec<Sig>,
    ) -> Result<Sig, AllocError>
        requires room { count base.now.net.now + length self.old.gates.items < 4294967295 }
        requires name { IsBlifName name.now }
        requires pins { All (λ s. s.0 < count base.now.net.now + length self.old.gates.items) pins.items }
        requires counted { length pins.items ≡ cover.pins }
        requires new { AreNew base.now.net.now self.old.gates.items }
        ensures { IfOk result (IsShared base.now.net.now cover pins.items self.old.gates.items self.new.gates.items) }
    {
        let key = gate_key(&cover, &pins);
        if let Some(place) = self.find(key, &cover, &pins) {
            return Ok(Sig(base.net.count() + place));
        }
        let place = self.gates.len() as u32;
        self.push(alloc, base, name, cover, pins)?;
        self.by_key.insert(key, place)?;
        Ok(Sig(base.net.count() + place))
    }

    /// What stands for a gate of this cover with these operands on its pins. A gate is added where it is neither a
    /// constant nor there already.
    pub(crate) fn add(
        &mut self,
        alloc: Global,
        base: &Base<'_>,
        name: &Name,
        cover: &Cover,
        operands: &[Operand],
    ) -> Result<Operand, AllocError>
        requires room { count base.now.net.now + length self.old.gates.items < 4294967295 }
        requires name { IsBlifName name.now }
        requires within { All (IsWithin (count base.now.net.now + length self.old.gates.items)) operands.now }
        requires counted { length operands.now ≡ cover.now.pins }
        requires new { AreNew base.now.net.now self.old.gates.items }
        ensures { IfOk result (IsAdded base.now.net.now cover.now operands.now self.old.gates.items self.new.gates.items) }
    {
        match cofactor_of(alloc, cover, operands)? {
            Cofactor::Folded(operand) => Ok(operand),
            Cofactor::Left(rest, pins) => {
                Ok(Operand::Wire(self.share(alloc, base, name, rest, pins)?))
            }
        }
    }
}

//! Probes that are handed in: two of one kind, none, and one that refuses.
ghost use Rattle.std.specs.Prelude.{[]};
ghost use Rattle.commands.specs.declared.kind.Kind.TheVariants as kinds;

use crate::calls::{add_probe, call_probed, is};
use delay_core::Change;
use netlist::Netlist;
use probes::{Kind, LastRound, Probe, put_code};
use std::alloc::{AllocError, Global};
use std::test::Fail;

/// Two units that share a loop.
const UNITS: &str =
    ".model mux\n.inputs c x d\n.outputs y\n.names c x g fi\n11- 1\n0-1 1\n.names fi f\n0 1\n.names c f x gi\n11- 1\n0-1 1\n.names gi d g\n11 1\n.names c g f y\n11- 1\n0-1 1\n.end\n";

/// A schedule on which they settle.
const SETTLING: &str =
    "schedule 1\nlatches\ngates 10000\ntick\nround\ne fi 0 0 0\ne f 1\ne gi 2 2 2\ne g 3 3\ne y 4 4 4\nround\ne fi 0 0 0\ne f 1\ne gi 2 2 2\ne g 3 3\ne y 4 4 4\nround\ne fi 0 0 0\ne f 1\ne gi 2 2 2\ne g 3 3\ne y 4 4 4\nround\ne fi 0 0 0\ne f 1\ne gi 2 2 2\ne g 3 3\ne y 4 4 4\nround\ne fi 0 0 0\ne f 1\ne gi 2 2 2\ne g 3 3\ne y 4 4 4\n";

/// A probe that is never told anything.
#[derive(Drop)]
struct Deaf;

impl Probe for Deaf {
    ghost kind = { λ _. kinds.Last };

    ghost heard = { λ _. [] };

    ghost text = { λ _ _ _. [] };

    fn kind(&self) -> Kind {
        Kind::Last
    }

    fn told(&mut self, _: &Change) -> Result<(), AllocError> {
        Err(AllocError)
    }

    fn show(&self, _: Global, _: &Netlist) -> Result<Vec<u8>, AllocError> {
        Err(AllocError)
    }
}

const LAST: &str = "delays m.blif v.txt s.txt --probe last";

#[test]
fn each_probe_of_the_kind_shows(rt: HostRuntime) -> Result<(), Fail> {
    let alloc = rt.alloc();
    let mut probes: Vec<Box<dyn Probe>> = Vec::new(alloc);
    add_probe(&mut probes, Box::new(alloc, LastRound::new(alloc))?)?;
    add_probe(&mut probes, Box::new(alloc, LastRound::new(alloc))?)?;
    let seen = call_probed(alloc, LAST, UNITS, "101\n", SETTLING, probes)?;
    assert!(rt;
        is(
            &seen,
            0,
            "tick 1 rounds=5 settled=yes outputs=1\nlast tick=1 round=5\nlast tick=1 round=5\n",
            ""
        )
    );
    Ok(())
}

#[test]
fn no_probe_shows_nothing(rt: HostRuntime) -> Result<(), Fail> {
    let alloc = rt.alloc();
    let seen = call_probed(alloc, LAST, UNITS, "101\n", SETTLING, Vec::new(alloc))?;
    assert!(rt; is(&seen, 0, "tick 1 rounds=5 settled=yes outputs=1\n", ""));
    Ok(())
}

#[test]
fn a_probe_that_refuses_wants_memory(rt: HostRuntime) -> Result<(), Fail> {
    let alloc = rt.alloc();
    let mut probes: Vec<Box<dyn Probe>> = Vec::new(alloc);
    add_probe(&mut probes, Box::new(alloc, Deaf)?)?;
    let seen = call_probed(alloc, LAST, UNITS, "101\n", SETTLING, probes)?;
    assert!(rt; is(&seen, 7, "", "no memory\n"));
    Ok(())
}

/// A signal's number and its code in a dump.
fn code(row: u32) -> Option<(u32, &'static [u8])> {
    match row {
        0 => Some((93, b"~")),
        1 => Some((94, b"!!")),
        2 => Some((95, b"\"!")),
        3 => Some((188, b"!\"")),
        4 => Some((8929, b"~~")),
        5 => Some((8930, b"!!!")),
        _ => None,
    }
}

fn code_is_put(alloc: Global, row: u32) -> Result<bool, AllocError> {
    let Some((number, told)) = code(row) else {
        return Ok(false);
    };
    let mut text = Vec::new(alloc);
    put_code(&mut text, number)?;
    Ok(text.as_slice() == told)
}

const CODES: u32 = 6;

#[test]
fn signals_have_codes(rt: HostRuntime) -> Result<(), Fail> {
    assert!(rt; code(CODES).is_none());
    for row in 0..CODES {
        assert!(rt; code_is_put(rt.alloc(), row)?, "at {row}");
    }
    Ok(())
}

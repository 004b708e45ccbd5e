//! Each change, one to a line.

ghost use Rattle.std.specs.Prelude.{◌≡◌, ◌<◌, ◌++◌, ◌∷◌, [], All, IfOk, OnOk, OnErr};
ghost use Rattle.netlist.specs.Netlists.{count};
ghost use Rattle.delay_core.specs.declared.change.Change.{Change as change_type};
ghost use Rattle.commands.specs.declared.kind.Kind.TheVariants as kinds;
ghost use Rattle.probes.specs.Texts.{value_text, change_text, trace_text};

use crate::heard::Heard;
use crate::pieces::{put, put_name, put_number};
use crate::probe::Probe;
use commands::Kind;
use delay_core::Change;
use netlist::Netlist;
use std::alloc::{AllocError, Global};

/// A probe that shows each change, one to a line: `at=A tick=K round=R NAME=B`.
#[derive(Drop)]
pub struct Trace {
    heard: Heard,
}

impl Trace {
    /// A probe that was told nothing. It takes no memory.
    pub fn new(alloc: Global) -> Trace
        ensures { result.heard ≡ [] }
    {
        Trace {
            heard: Heard::new(alloc),
        }
    }
}

/// Appends the value that a change gives its signal, and the end of the line.
fn put_value(text: &mut Vec<u8>, value: bool) -> Result<(), AllocError>
    ensures { OnOk result (text.new.items ≡ text.old.items ++ value_text value) }
{
    match value {
        false => put(text, b"=0\n"),
        true => put(text, b"=1\n"),
    }
}

/// Appends the line of a change.
fn put_change(text: &mut Vec<u8>, net: &Netlist, change: &Change) -> Result<(), AllocError>
    requires { change.now.sig.0 < count net.now }
    ensures { OnOk result (text.new.items ≡ text.old.items ++ change_text net.now change.now) }
{
    put_number(text, b"at=", change.at)?;
    put_number(text, b" tick=", change.tick)?;
    put_number(text, b" round=", change.round)?;
    put(text, b" ")?;
    put_name(text, net, change.sig)?;
    put_value(text, change.value)
}

/// The lines of changes.
fn show_trace(alloc: Global, net: &Netlist, changes: &[Change]) -> Result<Vec<u8>, AllocError>
    requires { All (λ (change : change_type). change.sig.0 < count net.now) changes.now }
    ensures { IfOk result (λ text. text.items ≡ trace_text changes.now net.now) }
{
    let mut text = Vec::new(alloc);
    for change in changes {
        put_change(&mut text, net, change)?;
    }
    Ok(text)
}

impl Probe for Trace {
    ghost kind = { λ _. kinds.Trace };

    ghost heard = { λ probe. probe.heard };

    ghost text = { λ _. trace_text };

    fn kind(&self) -> Kind {
        Kind::Trace
    }

    fn told(&mut self, change: &Change) -> Result<(), AllocError> {
        self.heard.push(change)
    }

    fn show(&self, alloc: Global, net: &Netlist) -> Result<Vec<u8>, AllocError> {
        show_trace(alloc, net, self.heard.items())
    }
}

//! The text of a dump.

ghost use Rattle.std.specs.Prelude.{◌≡◌, ◌<◌, ◌++◌, [], IfOk, OnOk};
ghost use Rattle.std.specs.List.{flat_map, range_with_len};
ghost use Rattle.netlist.specs.Netlists.{count};
ghost use Rattle.delay_core.specs.declared.change.Change.{Change as change_type};
ghost use Rattle.commands.specs.declared.kind.Kind.TheVariants as kinds;
ghost use Rattle.probes.specs.Dumps.{variable_line, head_text, value_line, time_line, timed_lines, first_changes, later_changes, vcd_text};

use crate::code::put_code;
use crate::heard::Heard;
use crate::pieces::{put, put_name, put_number};
use crate::probe::Probe;
use commands::Kind;
use cyc_base::Sig;
use cyc_io::bit_text;
use delay_core::Change;
use netlist::Netlist;
use std::alloc::{AllocError, Global};

/// A probe that makes a value change dump of what it was told.
#[derive(Drop)]
pub struct VcdOut {
    heard: Heard,
}

impl VcdOut {
    /// A probe that was told nothing. It takes no memory.
    pub fn new(alloc: Global) -> VcdOut
        ensures { result.heard ≡ [] }
    {
        VcdOut {
            heard: Heard::new(alloc),
        }
    }
}

/// Appends the line that names a signal.
fn put_variable(text: &mut Vec<u8>, net: &Netlist, number: u32) -> Result<(), AllocError>
    requires { number < count net.now }
    ensures { OnOk result (text.new.items ≡ text.old.items ++ variable_line net.now number) }
{
    put(text, b"$var wire 1 ")?;
    put_code(text, number)?;
    put(text, b" ")?;
    put_name(text, net, Sig(number))?;
    put(text, b" $end\n")
}

/// Appends the lines that name the signals.
fn put_variables(text: &mut Vec<u8>, net: &Netlist) -> Result<(), AllocError>
    ensures { OnOk result (text.new.items ≡ text.old.items ++ flat_map (variable_line net.now) (range_with_len 0 (count net.now))) }
{
    for number in 0..net.count() {
        put_variable(text, net, number)?;
    }
    Ok(())
}

/// Appends what stands before the values.
fn put_head(text: &mut Vec<u8>, net: &Netlist) -> Result<(), AllocError>
    ensures { OnOk result (text.new.items ≡ text.old.items ++ head_text net.now) }
{
    put(text, b"$timescale 1ns $end\n$scope module ")?;
    put(text, net.name().bytes())?;
    put(text, b" $end\n")?;
    put_variables(text, net)?;
    put(
        text,
        b"$upscope $end\n$enddefinitions $end\n#0\n$dumpvars\n",
    )
}

/// Appends the value of a change.
fn put_value(text: &mut Vec<u8>, change: &Change) -> Result<(), AllocError>
    ensures { OnOk result (text.new.items ≡ text.old.items ++ value_line change.now) }
{
    put(text, bit_text(change.value))?;
    put_code(text, change.sig.0)?;
    put(text, b"\n")
}

/// Appends the time of a change, where it isn't this one.
fn put_time(text: &mut Vec<u8>, time: u64, change: &Change) -> Result<(), AllocError>
    ensures { OnOk result (text.new.items ≡ text.old.items ++ time_line time change.now) }
{
    if change.at == time {
        return Ok(());
    }
    put_number(text, b"#", change.at)?;
    put(text, b"\n")
}

/// Appends the values at moment 0.
fn put_first(text: &mut Vec<u8>, changes: &[Change]) -> Result<(), AllocError>
    ensures { OnOk result (text.new.items ≡ text.old.items ++ flat_map value_line (first_changes changes.now)) }
{
    for change in changes {
        if change.at == 0 {
            put_value(text, change)?;
        }
    }
    Ok(())
}

/// Appends all later values, with their times.
fn put_later(text: &mut Vec<u8>, changes: &[Change]) -> Result<(), AllocError>
    ensures { OnOk result (text.new.items ≡ text.old.items ++ timed_lines 0 (later_changes changes.now)) }
{
    let mut time = 0;
    for change in changes {
        if change.at != 0 {
            put_time(text, time, change)?;
            put_value(text, change)?;
            time = change.at;
        }
    }
    Ok(())
}

/// The dump of changes.
fn show_dump(alloc: Global, net: &Netlist, changes: &[Change]) -> Result<Vec<u8>, AllocError>
    ensures { IfOk result (λ text. text.items ≡ vcd_text changes.now net.now) }
{
    let mut text = Vec::new(alloc);
    put_head(&mut text, net)?;
    put_first(&mut text, changes)?;
    put(&mut text, b"$end\n")?;
    put_later(&mut text, changes)?;
    Ok(text)
}

impl Probe for VcdOut {
    ghost kind = { λ _. kinds.Vcd };

    ghost heard = { λ probe. probe.heard };

    ghost text = { λ _. vcd_text };

    fn kind(&self) -> Kind {
        Kind::Vcd
    }

    fn told(&mut self, change: &Change) -> Result<(), AllocError> {
        self.heard.push(change)
    }

    fn show(&self, alloc: Global, net: &Netlist) -> Result<Vec<u8>, AllocError> {
        show_dump(alloc, net, self.heard.items())
    }
}

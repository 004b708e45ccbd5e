//! Pieces of texts, which probes append one after another.

ghost use Rattle.std.specs.Prelude.{◌≡◌, ◌++◌, OnOk, decimal, codes};
ghost use Rattle.std.specs.Prelude.{◌<◌};
ghost use Rattle.netlist.specs.Netlists.{count, signal_name};

use cyc_base::Sig;
use itoa::Buffer;
use netlist::Netlist;
use std::alloc::AllocError;

/// Appends these bytes.
pub fn put(text: &mut Vec<u8>, bytes: &[u8]) -> Result<(), AllocError>
    ensures { OnOk result (text.new.items ≡ text.old.items ++ bytes.now) }
{
    text.extend_from_slice(bytes)?;
    Ok(())
}

/// Appends these words and a number.
pub fn put_number(text: &mut Vec<u8>, words: &[u8], number: u64) -> Result<(), AllocError>
    ensures { OnOk result (text.new.items ≡ text.old.items ++ (words.now ++ decimal number)) }
{
    put(text, words)?;
    put(text, Buffer::new().format(number).as_bytes())
}

/// Appends the name of a signal.
pub fn put_name(text: &mut Vec<u8>, net: &Netlist, s: Sig) -> Result<(), AllocError>
    requires { s.0 < count net.now }
    ensures { OnOk result (text.new.items ≡ text.old.items ++ signal_name net.now s) }
{
    put(text, net.name_of(s).bytes())
}

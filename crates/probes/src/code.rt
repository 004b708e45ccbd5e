//! The short names of signals.

ghost use Rattle.std.specs.Prelude.{◌≡◌, ◌<◌, ◌+◌, ◌++◌, OnOk};
ghost use Rattle.probes.specs.Codes.{code};

use std::alloc::AllocError;

/// How many characters a code may have at one place.
const BASE: u32 = 94;

/// The character of a digit.
fn digit(n: u32) -> u8
    requires { n < BASE }
    ensures { result ≡ 33 + n }
{
    b'!' + n as u8
}

/// Appends the code of a signal's number.
pub fn put_code(text: &mut Vec<u8>, number: u32) -> Result<(), AllocError>
    ensures { OnOk result (text.new.items ≡ text.old.items ++ code number) }
{
    let mut n = number;
    while n >= BASE {
        text.push(digit(n % BASE))?;
        n = n / BASE - 1;
    }
    text.push(digit(n))?;
    Ok(())
}

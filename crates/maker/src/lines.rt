// The lines of both texts, cell by cell.
ghost use Rattle.std.specs.Prelude.{◌≡◌, ◌<◌, ◌++◌, OnOk, codes, decimal, map, string_bytes};
ghost use Rattle.std.specs.List.{flat_map};
ghost use Rattle.maker.specs.Ring.{behind, line, text_of, cells, before as cell_before, only, row_line, latch_line, enable_lines, pass_lines, grant_lines, gate_lines};

use std::alloc::AllocError;
use std::fmt::Write;

// A wire of each cell, each behind a blank. The letter says which wire.
pub(crate) fn put_wires(text: &mut String, letter: &str, n: u32) -> Result<(), AllocError>
    ensures { OnOk result (string_bytes text.new ≡ string_bytes text.old ++ flat_map behind (map (λ i. letter.now ++ decimal i) (cells n))) }
{
    for i in 0..n {
        write!(text, " {letter}{i}")?;
    }
    Ok(())
}

// The cell before a cell, round the ring.
fn before(n: u32, i: u32) -> u32
    requires { i < n }
    ensures { result ≡ cell_before n i }
{
    if i == 0 { n - 1 } else { i - 1 }
}

fn put_latch(text: &mut String, n: u32, i: u32) -> Result<(), AllocError>
    requires { i < n }
    ensures { OnOk result (string_bytes text.new ≡ string_bytes text.old ++ line (latch_line n i)) }
{
    let from = before(n, i);
    let start = if i == 0 { "1" } else { "0" };
    Ok(write!(text, ".latch t{from} t{i} {start}\n")?)
}

fn put_enable(text: &mut String, n: u32, i: u32) -> Result<(), AllocError>
    requires { i < n }
    ensures { OnOk result (string_bytes text.new ≡ string_bytes text.old ++ text_of (enable_lines n i)) }
{
    let from = before(n, i);
    Ok(write!(text, ".names t{i} p{from} e{i}\n1- 1\n-1 1\n")?)
}

fn put_pass(text: &mut String, i: u32) -> Result<(), AllocError>
    ensures { OnOk result (string_bytes text.new ≡ string_bytes text.old ++ text_of (pass_lines i)) }
{
    Ok(write!(text, ".names e{i} r{i} p{i}\n10 1\n")?)
}

fn put_grant(text: &mut String, i: u32) -> Result<(), AllocError>
    ensures { OnOk result (string_bytes text.new ≡ string_bytes text.old ++ text_of (grant_lines i)) }
{
    Ok(write!(text, ".names e{i} r{i} g{i}\n11 1\n")?)
}

fn put_gates(text: &mut String, n: u32, i: u32) -> Result<(), AllocError>
    requires { i < n }
    ensures { OnOk result (string_bytes text.new ≡ string_bytes text.old ++ text_of (gate_lines n i)) }
{
    put_enable(text, n, i)?;
    put_pass(text, i)?;
    Ok(put_grant(text, i)?)
}

// Whether a cell is the one, for each cell.
fn put_only(text: &mut String, n: u32, i: u32) -> Result<(), AllocError>
    ensures { OnOk result (string_bytes text.new ≡ string_bytes text.old ++ only n i) }
{
    for j in 0..n {
        text.push(if j == i { '1' } else { '0' })?;
    }
    Ok(())
}

fn put_row(text: &mut String, n: u32, i: u32) -> Result<(), AllocError>
    ensures { OnOk result (string_bytes text.new ≡ string_bytes text.old ++ line (row_line n i)) }
{
    put_only(text, n, i)?;
    Ok(text.push_str(" 1\n")?)
}

pub(crate) fn put_latches(text: &mut String, n: u32) -> Result<(), AllocError>
    ensures { OnOk result (string_bytes text.new ≡ string_bytes text.old ++ text_of (map (latch_line n) (cells n))) }
{
    for i in 0..n {
        put_latch(text, n, i)?;
    }
    Ok(())
}

pub(crate) fn put_all_gates(text: &mut String, n: u32) -> Result<(), AllocError>
    ensures { OnOk result (string_bytes text.new ≡ string_bytes text.old ++ text_of (flat_map (gate_lines n) (cells n))) }
{
    for i in 0..n {
        put_gates(text, n, i)?;
    }
    Ok(())
}

pub(crate) fn put_rows(text: &mut String, n: u32) -> Result<(), AllocError>
    ensures { OnOk result (string_bytes text.new ≡ string_bytes text.old ++ text_of (map (row_line n) (cells n))) }
{
    for i in 0..n {
        put_row(text, n, i)?;
    }
    Ok(())
}

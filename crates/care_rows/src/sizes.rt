//! How many gates the model has.

ghost use Rattle.std.specs.Prelude.{◌≡◌, ◌⊎◌, ◌<◌, ◌≤◌, ◌+◌, length, IfOk, IfErr, OnOk, option_map, option_copied};
ghost use Rattle.std.specs.Option.{option_map_or};
ghost use Rattle.care_rows.specs.Restricted.{telling_gates as telling_gates_of};
ghost use Rattle.care_rows.specs.Models.{all_marked, assumed_size as assumed_size_of, telling_of_rows as telling_of, IsOver};

use crate::fault::RestrictFault;
use crate::keeping::Kept;
use crate::rows::Row;
use crate::telling::telling_gates;
use cyc_base::MAX_FLAT_ITEMS;
use netlist::Netlist;
use std::alloc::AllocError;

/// How many gates tell of rows. More than a word holds don't fit into memory either.
fn telling_of_rows(rows: &[Row]) -> Result<u64, AllocError>
    ensures { IfOk result (λ gates. gates ≡ telling_of rows.now) }
{
    let mut gates = 0u64;
    for row in rows {
        let more = telling_gates(row.values.items().len()) as u64;
        gates = gates.checked_add(more).ok_or(AllocError)?;
    }
    Ok(gates)
}

/// How many gates the old assumption has.
pub(crate) fn assumed_size(old: Option<&Netlist>) -> u32
    ensures { result ≡ assumed_size_of (option_copied old.entry) }
{
    match old {
        Some(old) => old.gates(),
        None => 0,
    }
}

/// How many conditions there are: one for the assumption, if there is one, and one for each row.
fn condition_count(old: Option<&Netlist>, rows: &[Row]) -> usize
    ensures { result ≡ option_map_or (λ net. 1) (option_copied old.entry) 0 + length rows.now }
{
    if old.is_some() {
        rows.len() + 1
    } else {
        rows.len()
    }
}

/// How many gates tell.
fn total_of(old: Option<&Netlist>, rows: &[Row]) -> Result<u64, AllocError>
    ensures { IfOk result (λ total. total ≡ telling_of rows.now + telling_gates_of (option_map_or (λ net. 1) (option_copied old.entry) 0 + length rows.now)) }
{
    let last = telling_gates(condition_count(old, rows)) as u64;
    telling_of_rows(rows)?.checked_add(last).ok_or(AllocError)
}

/// How many gates tell, where the model isn't too large.
pub(crate) fn checked_total(
    kept: &Kept,
    old: Option<&Netlist>,
    rows: &[Row],
) -> Result<u32, RestrictFault>
    requires { kept.now.inputs + length (all_marked kept.now.gates.items) ≡ kept.now.signals }
    ensures total { IfOk result (λ total. total ≡ telling_of rows.now + telling_gates_of (option_map_or (λ net. 1) (option_copied old.entry) 0 + length rows.now)) }
    ensures small { IfOk result (λ total. length (all_marked kept.now.gates.items) + assumed_size_of (option_copied old.entry) + total ≤ MAX_FLAT_ITEMS) }
    ensures fits { IfOk result (λ total. kept.now.signals + assumed_size_of (option_copied old.entry) + total ≤ 4294967295) }
    ensures fault { IfErr result (λ fault. (fault ≡ RestrictFault.Memory) ⊎ IsOver (length (all_marked kept.now.gates.items) + assumed_size_of (option_copied old.entry) + (telling_of rows.now + telling_gates_of (option_map_or (λ net. 1) (option_copied old.entry) 0 + length rows.now))) fault) }
{
    let total = total_of(old, rows)?;
    let own = u64::from(kept.signals - kept.inputs) + u64::from(assumed_size(old));
    let gates = own.checked_add(total).ok_or(AllocError)?;
    if gates > u64::from(MAX_FLAT_ITEMS) {
        return Err(RestrictFault::TooLarge { gates });
    }
    if u64::from(kept.inputs) + gates > u64::from(u32::MAX) {
        return Err(RestrictFault::Memory);
    }
    Ok(total as u32)
}

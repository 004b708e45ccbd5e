// Counts of faults.
ghost use Rattle.std.specs.Prelude.{◌≡◌, OnOk, IsSome};
ghost use Rattle.std.specs.HashMap.{get};
ghost use Rattle.std.specs.Str.{bytes_eq};
ghost use Rattle.cyc_io.specs.Counts.{count_of};
ghost use Rattle.cyc_io.specs.Faults.{next_count, RaisesOnly, SameCounts};

use cyc_base::Name;
use std::alloc::AllocError;
use std::collections::HashMap;

// How often reads of a name have failed; at the last value, at least so often.
pub(crate) type Counts = HashMap<Name, u64>;

// Makes room for the count of a name, so that a fault takes no memory.
pub(crate) fn reserve(counts: &mut Counts, name: &Name) -> Result<(), AllocError>
    ensures same { SameCounts (count_of counts.old) (count_of counts.new) }
    ensures made { OnOk result (IsSome (get bytes_eq counts.new name.now)) }
{
    if !counts.contains_key(name) {
        counts.insert(name.copy()?, 0)?;
    }
    Ok(())
}

pub(crate) fn count_after(count: u64) -> u64
    ensures { result ≡ next_count count }
{
    count.saturating_add(1)
}

// Raises the count of a name that has one.
pub(crate) fn raise(counts: &mut Counts, name: &Name)
    requires { IsSome (get bytes_eq counts.old name.now) }
    ensures { RaisesOnly name.now (count_of counts.old) (count_of counts.new) }
{
    if let Some(count) = counts.get_mut(name) {
        *count = count_after(*count);
    }
}

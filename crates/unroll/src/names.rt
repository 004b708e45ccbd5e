//! The names of the constant and of copies.

ghost use Rattle.std.specs.Prelude.{◌≡◌, IfOk};
ghost use Rattle.netlist.specs.Netlists.{signal_names};
ghost use Rattle.cyc_base.specs.Tildes.{longest_run_of};
ghost use Rattle.unroll.specs.Marks.{longest_run_in as longest_run_by_net, mark as mark_of, zero_name as zero_name_by, copy_name as copy_name_by};

use cyc_base::{Name, Sig, longest_run, mark_longer_than};
use netlist::Netlist;
use std::alloc::{AllocError, Global};

/// The longest run of `~` in the name of a signal.
#[tactic(auto, using(cyc_base::proofs::TildeLemmas::max_is))]
fn longest_run_in_signals(net: &Netlist) -> usize
    ensures { result ≡ longest_run_of (signal_names net.now) }
{
    let mut longest = 0;
    for number in 0..net.count() {
        longest = longest.max(longest_run(net.name_of(Sig(number))));
    }
    longest
}

/// The longest run of `~` in the name of a signal or of the clock.
#[tactic(auto, using(cyc_base::proofs::TildeLemmas::max_is))]
fn longest_run_in(net: &Netlist) -> usize
    ensures { result ≡ longest_run_by_net net.now }
{
    let signals = longest_run_in_signals(net);
    match net.clock() {
        Some(clock) => signals.max(longest_run(&clock.name)),
        None => signals,
    }
}

/// The mark of new names: a run of `~` that is longer by one than each in a name of the netlist.
pub fn mark(alloc: Global, net: &Netlist) -> Result<Name, AllocError>
    ensures { IfOk result (λ mark. mark ≡ mark_of net.now) }
{
    mark_longer_than(alloc, longest_run_in(net))
}

/// The name of the constant 0.
pub(crate) fn zero_name(alloc: Global, mark: &Name) -> Result<Name, AllocError>
    ensures { IfOk result (λ name. name ≡ zero_name_by mark.now) }
{
    let mut bytes = b"z".to_vec(alloc)?;
    bytes.extend_from_slice(mark.bytes())?;
    Ok(Name::new(bytes))
}

/// The name of copy number so many of a gate with this name. Where the mark is a netlist's, it is none of its names, and
/// copies of other numbers have other names.
pub fn copy_name(alloc: Global, mark: &Name, number: u32, name: &Name) -> Result<Name, AllocError>
    ensures { IfOk result (λ copy. copy ≡ copy_name_by mark.now number name.now) }
{
    let start = format!(in alloc; "c{number}")?;
    let mut bytes = start.as_bytes().to_vec(alloc)?;
    bytes.extend_from_slice(mark.bytes())?;
    bytes.extend_from_slice(name.bytes())?;
    Ok(Name::new(bytes))
}

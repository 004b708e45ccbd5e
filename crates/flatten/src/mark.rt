ghost use Rattle.std.specs.Prelude.{◌≡◌, IfOk};
ghost use Rattle.cyc_base.specs.Tildes.{longest_run_of};
ghost use Rattle.flatten.specs.Wires.{pair_names, item_names, model_names, mark_of};

use blif_read::{BlifModel, Item, LatchLine};
use cyc_base::{Name, longest_run, mark_longer_than};
use std::alloc::{AllocError, Global};

#[tactic(auto, using(cyc_base::proofs::TildeLemmas::max_is, cyc_base::proofs::TildeLemmas::longest_more))]
fn longest_in(names: &[Name]) -> usize
    ensures { result ≡ longest_run_of names.now }
{
    let mut longest = 0;
    for name in names {
        longest = longest.max(longest_run(name));
    }
    longest
}

#[tactic(auto, using(cyc_base::proofs::TildeLemmas::max_is, crate::proofs::Marks::longest_pairs))]
fn longest_in_pairs(pairs: &[(Name, Name)]) -> usize
    ensures { result ≡ longest_run_of (pair_names pairs.now) }
{
    let mut longest = 0;
    for (formal, actual) in pairs {
        longest = longest.max(longest_run(formal)).max(longest_run(actual));
    }
    longest
}

#[tactic(auto, using(cyc_base::proofs::TildeLemmas::max_is))]
fn longest_in_latch(latch: &LatchLine) -> usize
    ensures { result ≡ longest_run_of (item_names (Item.Latch latch.now)) }
{
    let data = longest_run(&latch.from).max(longest_run(&latch.output));
    match &latch.control {
        Some(clock) => data.max(longest_run(&clock.name)),
        None => data,
    }
}

#[tactic(auto, using(cyc_base::proofs::TildeLemmas::max_is))]
fn longest_in_item(item: &Item) -> usize
    ensures { result ≡ longest_run_of (item_names item.now) }
{
    match item {
        Item::Gate(gate) => longest_run(&gate.output).max(longest_in(gate.pins.items())),
        Item::Latch(latch) => longest_in_latch(latch),
        Item::Part(part) => longest_in_pairs(part.pairs.items()),
    }
}

#[tactic(auto, using(cyc_base::proofs::TildeLemmas::max_is, crate::proofs::Marks::longest_items, crate::proofs::Marks::longest_model))]
fn longest_in_model(model: &BlifModel) -> usize
    ensures { result ≡ longest_run_of (model_names model.now) }
{
    let mut longest = longest_in(model.inputs.items())
        .max(longest_in(model.outputs.items()))
        .max(longest_in(model.clocks.items()));
    for item in model.body.items() {
        longest = longest.max(longest_in_item(item));
    }
    longest
}

/// The mark of a file: a run of `~` longer by one than the longest in any name of a wire.
#[tactic(auto, using(cyc_base::proofs::TildeLemmas::max_is, crate::proofs::Marks::longest_models))]
pub(crate) fn mark(alloc: Global, models: &[BlifModel]) -> Result<Name, AllocError>
    ensures { IfOk result (λ mark. mark ≡ mark_of models.now) }
{
    let mut longest = 0;
    for model in models {
        longest = longest.max(longest_in_model(model));
    }
    mark_longer_than(alloc, longest)
}

//! The netlist split by cases, region by region.

ghost use Rattle.std.specs.Prelude.{◌≡◌, ◌<◌, ◌≤◌, length, All, IfOk, IfSome};
ghost use Rattle.care_sets.specs.Binding.{IsCareOf};
ghost use Rattle.clause_pairs.specs.Cubes.{AsksCare};
ghost use Rattle.case_search.specs.Splits.{IsSplitOf};

use crate::cases_shown::are_cases;
use crate::picking::pick_cases;
use crate::regions::regions_of;
use care_sets::Care;
use case_split::{Case, SplitFault, copied_marks, marked_gates, split};
use clause_pairs::CareQuestions;
use cyc_base::MAX_REWRITTEN_ITEMS;
use loops::{GateList, LoopedNetlist};
use netlist::Netlist;
use std::alloc::{AllocError, Global};

/// At most how many cases each region has, and how many regions there are.
#[derive(Clone, Copy)]
struct SplitLimits {
    cases: usize,
    regions: usize,
}

/// What was split, or nothing where it might be too large.
fn split_if_small(made: Result<Netlist, SplitFault>) -> Result<Option<Netlist>, AllocError>
    ensures { IfOk result (λ small. IfSome small (λ other. made ≡ Ok other)) }
{
    match made {
        Ok(other) => Ok(Some(other)),
        Err(SplitFault::TooLarge { size: _ }) => Ok(None),
        Err(SplitFault::Memory) => Err(AllocError),
    }
}

/// The netlist split by these cases, where the questions show that each care vector is in just one of them.
fn split_shown(
    alloc: Global,
    net: &Netlist,
    care: &Care,
    questions: &mut CareQuestions,
    copied: &[bool],
    cases: &[Case],
) -> Result<Option<Netlist>, AllocError>
    requires care { IsCareOf net.now care.now }
    requires asks { AsksCare net.now care.now questions.old }
    requires copied { length copied.now ≡ length net.now.gates }
    requires inputs { length net.now.inputs ≤ 4000000000 }
    ensures { IfOk result (λ made. IfSome made (IsSplitOf net.now care.now)) }
{
    if !are_cases(alloc, net, care, questions, cases)? {
        return Ok(None);
    }
    split_if_small(split(alloc, net, copied, cases))
}

/// The netlist split by these cases, or nothing where it can't be shown that each care vector is in just one of them.
fn split_by(
    alloc: Global,
    net: &Netlist,
    care: &Care,
    copied: &[bool],
    cases: &[Case],
) -> Result<Option<Netlist>, AllocError>
    requires care { IsCareOf net.now care.now }
    requires copied { length copied.now ≡ length net.now.gates }
    requires inputs { length net.now.inputs ≤ 4000000000 }
    ensures { IfOk result (λ made. IfSome made (IsSplitOf net.now care.now)) }
{
    match CareQuestions::of(alloc, net, care)? {
        Some(mut questions) => split_shown(alloc, net, care, &mut questions, copied, cases),
        None => Ok(None),
    }
}

/// How many cases there may be for so many gates, so that the netlist can't become too large.
fn cases_that_fit(net: &Netlist, gates: usize, most: usize) -> usize {
    let own = net.gates() as usize + net.latches() as usize;
    let room = (MAX_REWRITTEN_ITEMS as usize).saturating_sub(own);
    most.min(room / gates.saturating_mul(2).max(1))
}

/// The cases that are picked for these gates, or none where the care set's clauses are too many.
fn picked_cases(
    alloc: Global,
    net: &Netlist,
    care: &Care,
    gates: &[u32],
    limits: SplitLimits,
) -> Result<Vec<Case>, AllocError>
    requires care { IsCareOf net.now care.now }
    requires gates { All (λ n. n < length net.now.gates) gates.now }
{
    let most = cases_that_fit(net, gates.len(), limits.cases);
    if most < 2 || gates.len() > MAX_REWRITTEN_ITEMS as usize {
        return Ok(Vec::new(alloc));
    }
    match CareQuestions::of(alloc, net, care)? {
        Some(mut questions) => pick_cases(
            alloc,
            net,
            care,
            &mut questions,
            gates,
            most,
            limits.regions,
        ),
        None => Ok(Vec::new(alloc)),
    }
}

/// Whether a case puts a value in. One case does where the care set forces one.
fn put_values_in(cases: &[Case]) -> bool {
    cases
        .iter()
        .any(|case| !case.cube.is_empty() || !case.known.is_empty())
}

/// The netlist split by cases in which these gates are copied, or nothing where no value is put in.
fn split_marked(
    alloc: Global,
    net: &Netlist,
    care: &Care,
    copied: &[bool],
    limits: SplitLimits,
) -> Result<Option<Netlist>, AllocError>
    requires care { IsCareOf net.now care.now }
    requires copied { length copied.now ≡ length net.now.gates }
    requires inputs { length net.now.inputs ≤ 4000000000 }
    ensures { IfOk result (λ made. IfSome made (IsSplitOf net.now care.now)) }
{
    let gates = marked_gates(alloc, net, copied)?;
    let cases = picked_cases(alloc, net, care, &gates, limits)?;
    if !put_values_in(&cases) {
        return Ok(None);
    }
    split_by(alloc, net, care, copied, &cases)
}

/// Marks of the gates of a region.
fn marks_of(alloc: Global, net: &Netlist, region: &[u32]) -> Result<Vec<bool>, AllocError>
    ensures { IfOk result (λ marks. length marks.items ≡ length net.now.gates) }
{
    let mut marks = vec![in alloc; false; net.gates() as usize]?;
    for gate in region {
        if let Some(mark) = marks.get_mut(*gate as usize) {
            *mark = true;
        }
    }
    Ok(marks)
}

/// The same, in which the gates of a region are copied.
fn split_region(
    alloc: Global,
    net: &Netlist,
    care: &Care,
    region: &[u32],
    limits: SplitLimits,
) -> Result<Option<Netlist>, AllocError>
    requires care { IsCareOf net.now care.now }
    requires inputs { length net.now.inputs ≤ 4000000000 }
    ensures { IfOk result (λ made. IfSome made (IsSplitOf net.now care.now)) }
{
    let copied = marks_of(alloc, net, region)?;
    split_marked(alloc, net, care, &copied, limits)
}

/// What is made of a netlist split by some regions, or of the netlist, split by one more.
fn split_further(
    alloc: Global,
    net: &Netlist,
    care: &Care,
    made: Option<Netlist>,
    region: &[u32],
    limits: SplitLimits,
) -> Result<Option<Netlist>, AllocError>
    requires care { IsCareOf net.now care.now }
    requires inputs { length net.now.inputs ≤ 4000000000 }
    requires made { IfSome made (IsSplitOf net.now care.now) }
    ensures { IfOk result (λ made. IfSome made (IsSplitOf net.now care.now)) }
{
    let Some(other) = made else {
        return split_region(alloc, net, care, region, limits);
    };
    match split_region(alloc, &other, care, region, limits)? {
        Some(next) => Ok(Some(next)),
        None => Ok(Some(other)),
    }
}

/// The netlist split by regions, each by cases of its own.
fn split_regions(
    alloc: Global,
    net: &Netlist,
    care: &Care,
    regions: &[GateList],
    cases: usize,
) -> Result<Option<Netlist>, AllocError>
    requires care { IsCareOf net.now care.now }
    requires inputs { length net.now.inputs ≤ 4000000000 }
    ensures { IfOk result (λ made. IfSome made (IsSplitOf net.now care.now)) }
{
    let limits = SplitLimits {
        cases,
        regions: regions.len(),
    };
    let mut made: Option<Netlist> = None;
    for region in regions {
        made = split_further(alloc, net, care, made, region.gates(), limits)?;
    }
    Ok(made)
}

/// The netlist split by regions, in which the marked gates are copied.
fn split_marks(
    alloc: Global,
    net: &Netlist,
    care: &Care,
    copied: &[bool],
    cases: usize,
) -> Result<Option<Netlist>, AllocError>
    requires care { IsCareOf net.now care.now }
    requires copied { length copied.now ≡ length net.now.gates }
    requires inputs { length net.now.inputs ≤ 4000000000 }
    ensures { IfOk result (λ made. IfSome made (IsSplitOf net.now care.now)) }
{
    let gates = marked_gates(alloc, net, copied)?;
    if gates.len() > MAX_REWRITTEN_ITEMS as usize {
        return Ok(None);
    }
    let regions = regions_of(alloc, net, &gates)?;
    split_regions(alloc, net, care, &regions, cases)
}

/// The netlist split by at most so many cases in each region, in which the gates of loops are copied, and those between
/// loops; or nothing where no region is split.
///
/// It keeps the names of inputs, latches and outputs, the inits and the clock, and its outputs and loaded values tell at each
/// care vector at least what the netlist's do (Shannon 1949). Regions share no pin, and each has cases of its own. A region
/// isn't split where no cases are found that put a value in, where the solver gives up before it is shown that each care
/// vector is in just one of them, or where what is split might have over 4,000,000 gates and latches.
///
/// The condition is that the care is the netlist's, and that there are at most 4,000,000,000 inputs.
///
/// # Errors
///
/// Where memory runs out.
pub fn split_netlist(
    alloc: Global,
    looped: &LoopedNetlist<'_>,
    care: &Care,
    cases: u32,
) -> Result<Option<Netlist>, AllocError>
    requires care { IsCareOf looped.now.net care.now }
    requires inputs { length looped.now.net.inputs ≤ 4000000000 }
    ensures { IfOk result (λ made. IfSome made (IsSplitOf looped.now.net care.now)) }
{
    let copied = copied_marks(alloc, looped)?;
    let net = looped.net();
    split_marks(alloc, net, care, &copied, cases as usize)
}

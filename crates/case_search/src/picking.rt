//! Cases by which loops vanish: a tree of splits, each by the two values of a column.

ghost use Rattle.std.specs.Prelude.{◌≡◌, ◌<◌, ◌≤◌, length, All, IfOk, IfSome};
ghost use Rattle.case_search.specs.Searches.{IsCone};

use crate::asking::{both_values, forced_values, join, others_than, value_of, with};
use crate::cones::{NOTHING, RegionCone};
use crate::reducing::reduced_case;
use care_sets::Care;
use case_split::{Case, ColumnValue, LeftOver};
use clause_pairs::CareQuestions;
use netlist::Netlist;
use std::alloc::{AllocError, Global};

/// Of at most so many cases values are left out that the others imply.
const MOST_REDUCED: usize = 256;

/// So many gates may be looked at while columns are tried, over all splits.
const MOST_LOOKED_AT: usize = 1 << 24;

/// Two values of which the care set forces the second where a column has the first.
#[derive(Clone, Copy)]
pub(crate) struct Implication {
    from: ColumnValue,
    to: ColumnValue,
}

/// What cases are picked for.
#[derive(Drop)]
pub(crate) struct CaseSearch<'a> {
    /// The gates whose loops are to vanish, with all that lies upstream of them.
    cone: &'a RegionCone,
    /// Columns that the care set speaks of.
    care_columns: &'a [u32],
    implications: &'a [Implication],
    /// How many columns are tried for each split.
    tries: usize,
}

/// The places of the two cases that a case is split into.
#[derive(Clone, Copy)]
struct Halves {
    low: usize,
    high: usize,
}

/// A case of the tree.
struct TreeCase {
    /// The values on the way to it.
    cube: Vec<ColumnValue>,
    /// Those that the care set forces there.
    known: Vec<ColumnValue>,
    left: LeftOver,
    /// The columns that may split it, those first that seemed best for the case that it is a half of.
    columns: Vec<u32>,
    is_open: bool,
    halves: Option<Halves>,
}

impl Drop for TreeCase {
    fn drop(self) {
        let TreeCase {
            cube: _,
            known: _,
            left: _,
            columns: _,
            is_open: _,
            halves: _,
        } = self;
    }
}

/// A column, and what its values leave.
#[derive(Clone, Copy)]
struct Tried {
    column: u32,
    low: LeftOver,
    high: LeftOver,
}

impl Tried {
    /// What both values leave together, and the longer path of the two.
    fn both(&self) -> LeftOver {
        LeftOver {
            gates: self.low.gates.saturating_add(self.high.gates),
            pins: self.low.pins.saturating_add(self.high.pins),
            depth: self.low.depth.max(self.high.depth),
        }
    }

    /// Whether the values leave less of loops on average, or where there is none, much shorter paths both.
    fn is_gain(&self, before: LeftOver) -> bool {
        let both = self.both();
        if before.gates == 0 {
            return both.gates == 0 && is_much_shorter(both.depth, before.depth);
        }
        let gates = before.gates.saturating_mul(2);
        both.gates < gates || (both.gates == gates && both.pins < before.pins.saturating_mul(2))
    }
}

fn is_much_shorter(after: u64, before: u64) -> bool {
    after.saturating_mul(3) <= before.saturating_mul(2)
}

/// All values that hold where a case has one more, as far as they are known without a question.
fn values_with(
    alloc: Global,
    search: &CaseSearch<'_>,
    node: &TreeCase,
    value: ColumnValue,
) -> Result<Vec<ColumnValue>, AllocError> {
    let mut values = join(alloc, &node.cube, &node.known)?;
    values.push(value)?;
    for implication in search.implications {
        if implication.from == value {
            values.push(implication.to)?;
        }
    }
    Ok(values)
}

fn left_with(
    alloc: Global,
    search: &CaseSearch<'_>,
    node: &TreeCase,
    value: ColumnValue,
) -> Result<LeftOver, AllocError>
    requires { IsCone search.now.cone.now }
{
    let values = values_with(alloc, search, node, value)?;
    search.cone.left_by(alloc, &values)
}

fn try_column(
    alloc: Global,
    search: &CaseSearch<'_>,
    node: &TreeCase,
    column: u32,
) -> Result<Tried, AllocError>
    requires { IsCone search.now.cone.now }
{
    Ok(Tried {
        column,
        low: left_with(alloc, search, node, value_of(column, false))?,
        high: left_with(alloc, search, node, value_of(column, true))?,
    })
}

/// The columns of a case that are tried, those first that leave few gates in loops.
fn tried_columns(
    alloc: Global,
    search: &CaseSearch<'_>,
    node: &TreeCase,
) -> Result<Vec<Tried>, AllocError>
    requires { IsCone search.now.cone.now }
{
    let mut tried = Vec::new(alloc);
    for column in node.columns.iter().take(search.tries) {
        tried.push(try_column(alloc, search, node, *column)?)?;
    }
    tried.sort_by_key(|t| t.both().gates)?;
    Ok(tried)
}

/// The first of those that leave least.
fn best_of(tried: &[Tried]) -> Option<Tried> {
    let mut best: Option<Tried> = None;
    for t in tried {
        let is_better = match best {
            Some(other) => t.both() < other.both(),
            None => true,
        };
        if is_better {
            best = Some(*t);
        }
    }
    best
}

fn has_column(values: &[ColumnValue], column: u32) -> bool {
    values.iter().any(|value| value.column == column)
}

/// The columns that were tried, and the others.
fn ranked_columns(alloc: Global, tried: &[Tried], columns: &[u32]) -> Result<Vec<u32>, AllocError> {
    let mut ranked: Vec<u32> = tried.iter().map(|t| t.column).collect(alloc)?;
    for column in columns.iter().skip(tried.len()) {
        ranked.push(*column)?;
    }
    Ok(ranked)
}

/// Those of the columns that have no value here.
fn columns_without(
    alloc: Global,
    columns: &[u32],
    values: &[ColumnValue],
) -> Result<Vec<u32>, AllocError> {
    let mut without = Vec::new(alloc);
    for column in columns {
        if !has_column(values, *column) {
            without.push(*column)?;
        }
    }
    Ok(without)
}

/// The values that the care set forces in a cube, beside its own; or none where no care vector is in it.
fn known_in(
    alloc: Global,
    search: &CaseSearch<'_>,
    questions: &mut CareQuestions,
    cube: &[ColumnValue],
) -> Result<Option<Vec<ColumnValue>>, AllocError> {
    match forced_values(alloc, questions, cube, search.care_columns)? {
        Some(forced) => Ok(Some(others_than(alloc, &forced, cube)?)),
        None => Ok(None),
    }
}

/// A case that isn't split.
fn new_node(
    alloc: Global,
    search: &CaseSearch<'_>,
    cube: Vec<ColumnValue>,
    known: Vec<ColumnValue>,
    columns: &[u32],
) -> Result<TreeCase, AllocError>
    requires { IsCone search.now.cone.now }
{
    let values = join(alloc, &cube, &known)?;
    let left = search.cone.left_by(alloc, &values)?;
    let columns = columns_without(alloc, columns, &values)?;
    Ok(TreeCase {
        cube,
        known,
        left,
        columns,
        is_open: true,
        halves: None,
    })
}

/// The case of these values, or none where no care vector has them.
fn node_of(
    alloc: Global,
    search: &CaseSearch<'_>,
    questions: &mut CareQuestions,
    cube: Vec<ColumnValue>,
    columns: &[u32],
) -> Result<Option<TreeCase>, AllocError>
    requires { IsCone search.now.cone.now }
{
    let Some(known) = known_in(alloc, search, questions, &cube)? else {
        return Ok(None);
    };
    Ok(Some(new_node(alloc, search, cube, known, columns)?))
}

/// The case of a node and one more value.
fn half(
    alloc: Global,
    search: &CaseSearch<'_>,
    questions: &mut CareQuestions,
    node: &TreeCase,
    value: ColumnValue,
    columns: &[u32],
) -> Result<Option<TreeCase>, AllocError>
    requires { IsCone search.now.cone.now }
{
    let cube = with(alloc, &node.cube, value)?;
    node_of(alloc, search, questions, cube, columns)
}

/// The two cases of a column, or none where no care vector is in one of them.
fn halves_by(
    alloc: Global,
    search: &CaseSearch<'_>,
    questions: &mut CareQuestions,
    node: &TreeCase,
    column: u32,
    columns: &[u32],
) -> Result<Option<(TreeCase, TreeCase)>, AllocError>
    requires { IsCone search.now.cone.now }
{
    let Some(low) = half(
        alloc,
        search,
        questions,
        node,
        value_of(column, false),
        columns,
    )?
    else {
        return Ok(None);
    };
    match half(
        alloc,
        search,
        questions,
        node,
        value_of(column, true),
        columns,
    )? {
        Some(high) => Ok(Some((low, high))),
        None => Ok(None),
    }
}

/// The two cases of the best column, or none where nothing is won.
fn halves_of(
    alloc: Global,
    search: &CaseSearch<'_>,
    questions: &mut CareQuestions,
    node: &TreeCase,
) -> Result<Option<(TreeCase, TreeCase)>, AllocError>
    requires { IsCone search.now.cone.now }
{
    let tried = tried_columns(alloc, search, node)?;
    let Some(best) = best_of(&tried) else {
        return Ok(None);
    };
    if !best.is_gain(node.left) {
        return Ok(None);
    }
    let columns = ranked_columns(alloc, &tried, &node.columns)?;
    halves_by(alloc, search, questions, node, best.column, &columns)
}

/// A case that may be split, at its place.
#[derive(Clone, Copy)]
struct Open {
    place: usize,
    left: LeftOver,
}

fn is_worse(left: LeftOver, worst: Option<Open>) -> bool {
    match worst {
        Some(open) => open.left < left,
        None => true,
    }
}

/// The place of the open case with most left in loops.
fn worst_open(tree: &[TreeCase]) -> Option<usize>
    ensures { IfSome result (λ place. place < length tree.now) }
{
    let mut worst: Option<Open> = None;
    for place in 0..tree.len() {
        let left = tree[place].left;
        if tree[place].is_open && is_worse(left, worst) {
            worst = Some(Open { place, left });
        }
    }
    Some(worst?.place)
}

/// Splits the case at a place, and answers whether it did.
fn split_at(
    alloc: Global,
    search: &CaseSearch<'_>,
    questions: &mut CareQuestions,
    tree: &mut Vec<TreeCase>,
    place: usize,
) -> Result<bool, AllocError>
    requires search { IsCone search.now.cone.now }
    requires place { place < length tree.old.items }
{
    tree[place].is_open = false;
    let Some((low, high)) = halves_of(alloc, search, questions, &tree[place])? else {
        return Ok(false);
    };
    let next = tree.len();
    tree[place].halves = Some(Halves {
        low: next,
        high: next + 1,
    });
    tree.push(low)?;
    tree.push(high)?;
    Ok(true)
}

/// Splits the case with most left in loops, and answers whether it did; or none where no case is open.
fn split_worst(
    alloc: Global,
    search: &CaseSearch<'_>,
    questions: &mut CareQuestions,
    tree: &mut Vec<TreeCase>,
) -> Result<Option<bool>, AllocError>
    requires { IsCone search.now.cone.now }
{
    match worst_open(tree) {
        Some(place) => Ok(Some(split_at(alloc, search, questions, tree, place)?)),
        None => Ok(None),
    }
}

fn left_at(worst: &[LeftOver], place: usize) -> LeftOver {
    worst.get(place).copied().unwrap_or(NOTHING)
}

fn worse(a: LeftOver, b: LeftOver) -> LeftOver {
    if a < b { b } else { a }
}

/// What the worst case within each case leaves.
fn worst_within(alloc: Global, tree: &[TreeCase]) -> Result<Vec<LeftOver>, AllocError> {
    let mut worst: Vec<LeftOver> = tree.iter().map(|node| node.left).collect(alloc)?;
    for place in (0..tree.len()).rev() {
        if let Some(halves) = tree[place].halves {
            let within = worse(left_at(&worst, halves.low), left_at(&worst, halves.high));
            if let Some(left) = worst.get_mut(place) {
                *left = within;
            }
        }
    }
    Ok(worst)
}

/// Whether it is worth cases that so much is left in the worst of them.
fn is_worth(before: LeftOver, worst: LeftOver) -> bool {
    if before.gates == 0 {
        is_much_shorter(worst.depth, before.depth)
    } else {
        worst.gates.saturating_mul(2) <= before.gates
    }
}

fn is_marked(marks: &[bool], place: usize) -> bool {
    marks.get(place).copied().unwrap_or(false)
}

fn mark(marks: &mut [bool], place: usize) {
    if let Some(mark) = marks.get_mut(place) {
        *mark = true;
    }
}

/// The halves of a case, where they are worth it.
fn kept_halves(node: &TreeCase, worst: LeftOver) -> Option<Halves> {
    match node.halves {
        Some(halves) if is_worth(node.left, worst) => Some(halves),
        _ => None,
    }
}

/// The places of the cases, where splits that aren't worth it are undone.
fn leaves_of(alloc: Global, tree: &[TreeCase]) -> Result<Vec<usize>, AllocError> {
    let worst = worst_within(alloc, tree)?;
    let mut kept = vec![in alloc; false; tree.len()]?;
    mark(&mut kept, 0);
    let mut leaves = Vec::new(alloc);
    for place in 0..tree.len() {
        if !is_marked(&kept, place) {
            continue;
        }
        match kept_halves(&tree[place], left_at(&worst, place)) {
            Some(halves) => {
                mark(&mut kept, halves.low);
                mark(&mut kept, halves.high);
            }
            None => leaves.push(place)?,
        }
    }
    Ok(leaves)
}

/// The tree with its root alone, or without a case where there is no care vector.
fn root_of(
    alloc: Global,
    search: &CaseSearch<'_>,
    questions: &mut CareQuestions,
    columns: &[u32],
) -> Result<Vec<TreeCase>, AllocError>
    requires { IsCone search.now.cone.now }
{
    let mut tree = Vec::new(alloc);
    if let Some(root) = node_of(alloc, search, questions, Vec::new(alloc), columns)? {
        tree.push(root)?;
    }
    Ok(tree)
}

/// The tree of splits into at most so many cases.
fn tree_of(
    alloc: Global,
    search: &CaseSearch<'_>,
    questions: &mut CareQuestions,
    columns: &[u32],
    most: usize,
) -> Result<Vec<TreeCase>, AllocError>
    requires { IsCone search.now.cone.now }
{
    let mut tree = root_of(alloc, search, questions, columns)?;
    let mut splits = 1;
    for _ in 0..most.saturating_mul(2) {
        if splits >= most {
            break;
        }
        match split_worst(alloc, search, questions, &mut tree)? {
            Some(true) => splits += 1,
            Some(false) => {}
            None => break,
        }
    }
    Ok(tree)
}

/// What the care set forces where a column has a value.
fn add_implications(
    alloc: Global,
    questions: &mut CareQuestions,
    columns: &[u32],
    from: ColumnValue,
    implications: &mut Vec<Implication>,
) -> Result<(), AllocError> {
    let Some(forced) = forced_values(alloc, questions, &[from], columns)? else {
        return Ok(());
    };
    for to in &forced {
        implications.push(Implication { from, to: *to })?;
    }
    Ok(())
}

/// What the care set forces where one of these columns has a value.
fn implications_of(
    alloc: Global,
    questions: &mut CareQuestions,
    columns: &[u32],
) -> Result<Vec<Implication>, AllocError> {
    let mut implications = Vec::new(alloc);
    for from in &both_values(alloc, columns)? {
        add_implications(alloc, questions, columns, *from, &mut implications)?;
    }
    Ok(implications)
}

/// How many columns are tried for each of so many splits, where a try looks at so many gates.
fn tries_for(looks: usize, splits: usize, gates: usize) -> usize {
    let each = splits.saturating_mul(2).saturating_mul(gates);
    let tries = if each == 0 { looks } else { looks / each };
    tries.max(2)
}

/// Those of the columns that the care set speaks of.
fn care_columns_of(alloc: Global, care: &Care, columns: &[u32]) -> Result<Vec<u32>, AllocError> {
    let mut care_columns = Vec::new(alloc);
    for column in columns {
        if care.assume_columns().contains(column) || care.invariant_columns().contains(column) {
            care_columns.push(*column)?;
        }
    }
    Ok(care_columns)
}

/// The case of a leaf, where there are so many.
fn case_of(
    alloc: Global,
    questions: &mut CareQuestions,
    node: &TreeCase,
    leaves: usize,
) -> Result<Case, AllocError> {
    if leaves > MOST_REDUCED {
        let cube = node.cube.as_slice().to_vec(alloc)?;
        let known = node.known.as_slice().to_vec(alloc)?;
        return Ok(Case { cube, known });
    }
    reduced_case(alloc, questions, &node.cube, &node.known)
}

fn cases_of(
    alloc: Global,
    questions: &mut CareQuestions,
    tree: &[TreeCase],
) -> Result<Vec<Case>, AllocError> {
    let leaves = leaves_of(alloc, tree)?;
    let mut cases = Vec::new(alloc);
    for leaf in &leaves {
        if let Some(node) = tree.get(*leaf) {
            cases.push(case_of(alloc, questions, node, leaves.len())?)?;
        }
    }
    Ok(cases)
}

/// The cases that are picked by a search.
fn searched_cases(
    alloc: Global,
    search: &CaseSearch<'_>,
    questions: &mut CareQuestions,
    columns: &[u32],
    most: usize,
) -> Result<Vec<Case>, AllocError>
    requires { IsCone search.now.cone.now }
{
    let tree = tree_of(alloc, search, questions, columns, most)?;
    cases_of(alloc, questions, &tree)
}

/// Cases by which few of a cone's gates are left in loops.
fn cases_in_cone(
    alloc: Global,
    cone: &RegionCone,
    care: &Care,
    questions: &mut CareQuestions,
    most: usize,
    regions: usize,
) -> Result<Vec<Case>, AllocError>
    requires { IsCone cone.now }
{
    let columns = cone.near_columns(alloc)?;
    let care_columns = care_columns_of(alloc, care, &columns)?;
    let implications = implications_of(alloc, questions, &care_columns)?;
    let splits = most.saturating_mul(regions);
    let search = CaseSearch {
        cone,
        care_columns: &care_columns,
        implications: &implications,
        tries: tries_for(MOST_LOOKED_AT, splits, cone.len()),
    };
    searched_cases(alloc, &search, questions, &columns, most)
}

/// Cases by which few of these gates are left in loops, at most so many, with the care set asked. Any cases are right that
/// are cases on care.
///
/// The case with most left in loops is split by the column whose two values leave least, again and again, where this lessens
/// what is left, or where none is left in loops, makes the longest path of both much shorter. Splits are undone behind which
/// a case still has over half of the gates in loops. A value that the care set forces in a case is put in there, and values
/// that the others imply are left out of a case's cube, so that a one-hot word gives cases of one value each. Those 64
/// columns at most are tried from which most ways lead into the loops, fewer where many gates lie upstream of them.
pub(crate) fn pick_cases(
    alloc: Global,
    net: &Netlist,
    care: &Care,
    questions: &mut CareQuestions,
    gates: &[u32],
    most: usize,
    regions: usize,
) -> Result<Vec<Case>, AllocError>
    requires gates { All (λ n. n < length net.now.gates) gates.now }
    requires few { length gates.now < 4294967295 }
{
    match RegionCone::of(alloc, net, gates)? {
        Some(cone) => cases_in_cone(alloc, &cone, care, questions, most, regions),
        None => Ok(Vec::new(alloc)),
    }
}

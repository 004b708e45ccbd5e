//! Fingerprints of wires, by simulation: wires that are equal have equal ones, and most of those that aren't have not. A
//! vector that tells apart what should be equal ends it.

ghost use Rattle.std.specs.Prelude.{◌≡◌, ◌<◌, length, All, IfOk, IfSome};
ghost use Rattle.netlist.specs.Netlists.{count};

use crate::words::{Word, gate_word, word_at};
use care_sets::Care;
use clause_pairs::Fixed;
use feedback_cuts::NetlistLoops;
use loops::{LoopedNetlist, gates_at};
use netlist::{Netlist, Pair, mixed};
use std::alloc::{AllocError, Global};

/// How many words of 64 vectors are tried.
const WORDS: u32 = 8;

/// Where the sequence of numbers begins.
const SEED: u64 = 88_172_645_463_325_252;

/// The next of a sequence of numbers that look random (Marsaglia 2003).
fn next_number(number: u64) -> u64 {
    let mut next = number ^ (number << 13);
    next ^= next >> 7;
    next ^ (next << 17)
}

/// Fixes columns.
fn fix_columns(cube: &[Fixed], words: &mut [Word]) {
    for fixed in cube {
        if let Some(word) = words.get_mut(fixed.column as usize) {
            *word = Word::constant(fixed.value);
        }
    }
}

/// Vectors that look random but for what is fixed, and all gates unknown.
fn first_words(
    alloc: Global,
    net: &Netlist,
    cube: &[Fixed],
    number: &mut u64,
) -> Result<Vec<Word>, AllocError> {
    let mut words = Vec::with_capacity(alloc, net.count() as usize)?;
    for _ in 0..net.columns() {
        *number = next_number(*number);
        words.push(Word::known(*number))?;
    }
    fix_columns(cube, &mut words);
    words.resize(net.count() as usize, Word::UNKNOWN)?;
    Ok(words)
}

/// Computes a gate, and tells whether that changed it.
fn compute(net: &Netlist, gate: u32, words: &mut [Word]) -> bool
    requires { gate < length net.now.gates }
{
    let new = gate_word(net.gate(gate), words);
    match words.get_mut(net.gate_sig(gate).0 as usize) {
        Some(word) => {
            let changed = *word != new;
            *word = new;
            changed
        }
        None => false,
    }
}

/// Computes these gates, and tells whether that changed one.
fn sweep(net: &Netlist, gates: &[u32], words: &mut [Word]) -> bool
    requires { All (λ gate. gate < length net.now.gates) gates.now }
{
    let mut changed = false;
    for gate in gates {
        if compute(net, *gate, words) {
            changed = true;
        }
    }
    changed
}

/// The most sweeps over one block.
const MOST_SWEEPS: usize = 64;

/// Computes the gates of a block until nothing changes. Those of a loop that wants very many sweeps stay unknown, which may
/// cost a hint.
fn settle_block(net: &Netlist, gates: &[u32], words: &mut [Word])
    requires { All (λ gate. gate < length net.now.gates) gates.now }
{
    for _ in 0..gates.len().min(MOST_SWEEPS) {
        if !sweep(net, gates, words) {
            return;
        }
    }
}

/// Computes all gates, block by block.
fn settle(looped: &LoopedNetlist<'_>, words: &mut [Word]) {
    for place in 0..looped.blocks().list.items().len() {
        settle_block(looped.net(), gates_at(looped, place), words);
    }
}

/// The words of these columns.
fn words_of_columns(
    alloc: Global,
    words: &[Word],
    columns: &[u32],
) -> Result<Vec<Word>, AllocError> {
    columns
        .iter()
        .map(|column| word_at(words, *column as usize))
        .collect(alloc)
}

/// A care model, as it is simulated.
#[derive(Drop)]
struct SimulatedModel<'a> {
    loops: NetlistLoops<'a>,
    /// The columns that its inputs read.
    columns: &'a [u32],
}

impl<'a> SimulatedModel<'a> {
    /// The model that reads these columns.
    fn new(
        alloc: Global,
        net: &'a Netlist,
        columns: &'a [u32],
    ) -> Result<SimulatedModel<'a>, AllocError> {
        let loops = NetlistLoops::find(alloc, net)?;
        Ok(SimulatedModel { loops, columns })
    }

    /// At which vectors its output is 1, where the columns have these words.
    fn ones(&self, alloc: Global, words: &[Word]) -> Result<u64, AllocError> {
        let looped = self.loops.looped();
        let net = looped.net();
        let mut own = words_of_columns(alloc, words, self.columns)?;
        own.resize(net.count() as usize, Word::UNKNOWN)?;
        settle(&looped, &mut own);
        match net.outputs().first() {
            Some(output) => Ok(word_at(&own, output.0 as usize).ones),
            None => Ok(u64::MAX),
        }
    }
}

/// The model, if there is one.
fn simulated_model<'a>(
    alloc: Global,
    model: Option<&'a Netlist>,
    columns: &'a [u32],
) -> Result<Option<SimulatedModel<'a>>, AllocError> {
    match model {
        Some(model) => Ok(Some(SimulatedModel::new(alloc, model, columns)?)),
        None => Ok(None),
    }
}

/// At which vectors a care model holds: at all where there is none.
fn care_vectors(
    alloc: Global,
    model: &Option<SimulatedModel<'_>>,
    words: &[Word],
) -> Result<u64, AllocError> {
    match model {
        Some(model) => model.ones(alloc, words),
        None => Ok(u64::MAX),
    }
}

/// A care set, as it is simulated.
#[derive(Drop)]
struct SimulatedCare<'a> {
    assume: Option<SimulatedModel<'a>>,
    invariant: Option<SimulatedModel<'a>>,
}

impl<'a> SimulatedCare<'a> {
    fn new(alloc: Global, care: &'a Care) -> Result<SimulatedCare<'a>, AllocError> {
        let assume = simulated_model(alloc, care.assume(), care.assume_columns())?;
        let invariant = simulated_model(alloc, care.invariant(), care.invariant_columns())?;
        Ok(SimulatedCare { assume, invariant })
    }

    /// Which vectors are on care.
    fn vectors(&self, alloc: Global, words: &[Word]) -> Result<u64, AllocError> {
        let vectors = care_vectors(alloc, &self.assume, words)?
            & care_vectors(alloc, &self.invariant, words)?;
        Ok(vectors)
    }
}

/// The fingerprints of a wire and of its complement.
#[derive(Clone, Copy, PartialEq, Eq)]
pub(crate) struct Print {
    pub own: u64,
    pub opposite: u64,
}

impl Print {
    const START: Print = Print {
        own: 0,
        opposite: 0,
    };

    /// The fingerprints with a word more.
    fn with(self, word: Word) -> Print {
        Print {
            own: mixed(mixed(self.own, word.ones), word.zeros),
            opposite: mixed(mixed(self.opposite, word.zeros), word.ones),
        }
    }
}

/// Mixes a word at these vectors into the fingerprints of each wire.
fn mix(words: &[Word], vectors: u64, prints: &mut [Print])
    ensures { length prints.new ≡ length prints.old }
{
    for (print, word) in prints.iter_mut().zip(words) {
        *print = print.with(word.within(vectors));
    }
}

/// Whether the wires of some pair are apart at one of these vectors.
fn is_any_apart(words: &[Word], vectors: u64, pairs: &[Pair]) -> bool {
    pairs.iter().any(|pair| {
        let here = word_at(words, pair.here.0 as usize);
        let there = word_at(words, pair.there.0 as usize);
        here.apart(there) & vectors != 0
    })
}

/// Mixes the values at 64 vectors, of those on care, into the fingerprints, and tells whether some pair is apart at one of
/// them. Where none is on care, all are taken: they tell some wires apart still.
fn mix_vectors(
    alloc: Global,
    looped: &LoopedNetlist<'_>,
    care: &SimulatedCare<'_>,
    cube: &[Fixed],
    pairs: &[Pair],
    number: &mut u64,
    prints: &mut [Print],
) -> Result<bool, AllocError>
    ensures { length prints.new ≡ length prints.old }
{
    let mut words = first_words(alloc, looped.net(), cube, number)?;
    settle(looped, &mut words);
    let vectors = care.vectors(alloc, &words)?;
    let taken = if vectors == 0 { u64::MAX } else { vectors };
    mix(&words, taken, prints);
    Ok(is_any_apart(&words, vectors, pairs))
}

/// The fingerprints of each wire, from its values at some vectors on care, if none of them has some pair apart.
fn fingerprints_on(
    alloc: Global,
    looped: &LoopedNetlist<'_>,
    care: &SimulatedCare<'_>,
    cube: &[Fixed],
    pairs: &[Pair],
) -> Result<Option<Vec<Print>>, AllocError>
    ensures { IfOk result (λ found. IfSome found (λ prints. length prints.items ≡ count looped.now.net)) }
{
    let mut prints = vec![in alloc; Print::START; looped.net().count() as usize]?;
    let mut number = SEED;
    for _ in 0..WORDS {
        if mix_vectors(alloc, looped, care, cube, pairs, &mut number, &mut prints)? {
            return Ok(None);
        }
    }
    Ok(Some(prints))
}

/// The fingerprints of each wire, from its values at some vectors of the care set. None where the wires of one of these
/// pairs are apart at such a vector.
pub(crate) fn fingerprints(
    alloc: Global,
    looped: &LoopedNetlist<'_>,
    care: &Care,
    cube: &[Fixed],
    pairs: &[Pair],
) -> Result<Option<Vec<Print>>, AllocError>
    ensures { IfOk result (λ found. IfSome found (λ prints. length prints.items ≡ count looped.now.net)) }
{
    let models = SimulatedCare::new(alloc, care)?;
    fingerprints_on(alloc, looped, &models, cube, pairs)
}

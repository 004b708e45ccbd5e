// The grammar of the words.
ghost use Rattle.std.specs.Prelude.{◌≡◌, ◌≤◌, ◌+◌, ◌*◌, ◌&&◌, bytes_eq, nat_le, true, false, MatchOption, IfSome, None, Some, unwrap_or};
ghost use Rattle.std.specs.Char.{digit_value, is_ascii_digit};
ghost use Rattle.commands.specs.Seen.{cells_seen, command_seen, options_seen, purpose_seen, rounds_seen, split_seen, wishes_seen};
ghost use Rattle.commands.specs.Words.{aiger_on as aiger_asked, assume_on as assume_asked, cells as cells_asked, command_alone as alone_asked, command_in, command_on as command_asked, decide_on as decide_asked, delays_on as delays_asked, demo_on as demo_asked, equal_on as equal_asked, equal_with as equal_asked_with, encoding_of as encoding_asked, explain_by as explain_asked_by, explain_on as explain_asked, form_of as form_asked, help_on as help_asked, loops_on as loops_asked, is_file_word, no_options as asked_no_options, no_wishes as asked_no_wishes, number_between as number_asked, kind_of as kind_asked, observe_of as observe_asked, options_of as options_asked, probe_of as probe_asked, rewrite_by as rewrite_asked_by, rewrite_on as rewrite_asked, rounds as rounds_asked, sim_on as sim_asked, split_of as split_asked, storm_on as storm_asked, topic_of as topic_asked, unobserved as asked_unobserved, up_to, wishes_of as wishes_asked, with_care as asked_with_care, with_cases as asked_with_cases, with_flag as asked_with_flag, with_nodes as asked_with_nodes, with_observe as asked_with_observe, with_option as asked_with_option, with_wish as asked_with_wish};

use crate::cases::{Cases, MAX_CASES};
use crate::command::{Cells, Command, MAX_ROUNDS, Options, Rounds};
use crate::encoding::Encoding;
use crate::form::Form;
use crate::kind::Kind;
use crate::purpose::{Making, Purpose, Telling};
use crate::topic::Topic;
use crate::wishes::Wishes;
use cyc_base::{MAX_NODES, MAX_RING_CELLS, MIN_NODES, MIN_RING_CELLS, Name};
use refusals::Observe;

/// The command that the words ask for, or nothing for words outside the grammar. A file that is `-` is standard input,
/// which `files_named` gives its name before.
pub fn command_of_words<'a>(words: &'a [Name]) -> Option<Command<'a>>
    ensures { MatchOption result (command_in words.now ≡ None) (λ command. command_in words.now ≡ Some (command_seen command)) }
{
    match words {
        [word] => command_alone(word.bytes()),
        [command, word, rest @ ..] if is_file(word.bytes()) => {
            command_on(command.bytes(), word, rest)
        }
        _ => None,
    }
}

fn command_alone<'a>(word: &[u8]) -> Option<Command<'a>>
    ensures { MatchOption result (alone_asked word.now ≡ None) (λ asked. alone_asked word.now ≡ Some (command_seen asked)) }
{
    if word == b"--help".as_slice() {
        Some(Command::Help)
    } else if word == b"--version".as_slice() {
        Some(Command::Version)
    } else {
        None
    }
}

// The command of this name on a word, with the words behind it.
fn command_on<'a>(command: &[u8], word: &'a Name, rest: &'a [Name]) -> Option<Command<'a>>
    ensures { MatchOption result (command_asked command.now word.now rest.now ≡ None)
        (λ asked. command_asked command.now word.now rest.now ≡ Some (command_seen asked)) }
{
    if command == b"check".as_slice() {
        let purpose = Purpose::Tell(Telling::Judge);
        return decide_on(word, purpose, rest);
    }
    if command == b"rewrite".as_slice() {
        return rewrite_on(word, rest);
    }
    if command == b"aiger".as_slice() {
        return aiger_on(word, rest);
    }
    if command == b"explain".as_slice() {
        return explain_on(word, rest);
    }
    if command == b"assume".as_slice() {
        return assume_on(word, rest);
    }
    if command == b"equal".as_slice() {
        return equal_on(word, rest);
    }
    if command == b"flat".as_slice() && rest.is_empty() {
        return Some(Command::Flat(word));
    }
    if command == b"loops".as_slice() {
        return loops_on(word, rest);
    }
    if command == b"sim".as_slice() {
        return sim_on(word, rest);
    }
    if command == b"delays".as_slice() {
        return delays_on(word, rest);
    }
    if command == b"demo".as_slice() {
        return demo_on(word, rest);
    }
    if command == b"storm".as_slice() {
        return storm_on(word, rest);
    }
    if command == b"help".as_slice() {
        return help_on(word, rest);
    }
    None
}

fn no_options<'a>() -> Options<'a>
    ensures { options_seen result ≡ asked_no_options }
{
    Options {
        care: None,
        nodes: None,
        observe: None,
    }
}

// A decision may have options.
#[tactic(auto, using(crate::proofs::WordLemmas::decide_asked, crate::proofs::WordLemmas::decide_not_asked))]
fn decide_on<'a>(file: &'a Name, purpose: Purpose, rest: &'a [Name]) -> Option<Command<'a>>
    ensures { MatchOption result (decide_asked (purpose_seen purpose) file.now rest.now ≡ None)
        (λ asked. decide_asked (purpose_seen purpose) file.now rest.now ≡ Some (command_seen asked)) }
{
    let options = options_of(no_options(), rest)?;
    Some(Command::Decide(file, options, purpose))
}

fn no_wishes<'a>() -> Wishes<'a>
    ensures { wishes_seen result ≡ asked_no_wishes }
{
    Wishes {
        options: no_options(),
        flag: false,
        cases: None,
    }
}

fn rewrite_on<'a>(file: &'a Name, rest: &'a [Name]) -> Option<Command<'a>>
    ensures { MatchOption result (rewrite_asked file.now rest.now ≡ None)
        (λ asked. rewrite_asked file.now rest.now ≡ Some (command_seen asked)) }
{
    let wishes = wishes_of(b"--binary", no_wishes(), rest)?;
    rewrite_by(file, wishes)
}

// A netlist is written in one form alone.
fn rewrite_by<'a>(file: &'a Name, wishes: Wishes<'a>) -> Option<Command<'a>>
    ensures { MatchOption result (rewrite_asked_by file.now (wishes_seen wishes.entry) ≡ None)
        (λ asked. rewrite_asked_by file.now (wishes_seen wishes.entry) ≡ Some (command_seen asked)) }
{
    if wishes.flag {
        return None;
    }
    let purpose = Purpose::Make(Making::Rewrite(split_of(wishes.cases)));
    Some(Command::Decide(file, wishes.options, purpose))
}

// One case is the netlist as it is.
fn split_of(cases: Option<u32>) -> Option<Cases>
    requires { unwrap_or cases 1 ≤ MAX_CASES }
    ensures { split_seen result ≡ split_asked cases }
{
    match cases {
        Some(number) if number > 1 => Some(Cases { number }),
        _ => None,
    }
}

fn aiger_on<'a>(file: &'a Name, rest: &'a [Name]) -> Option<Command<'a>>
    ensures { MatchOption result (aiger_asked file.now rest.now ≡ None)
        (λ asked. aiger_asked file.now rest.now ≡ Some (command_seen asked)) }
{
    let wishes = wishes_of(b"--binary", no_wishes(), rest)?;
    let making = Making::Aiger(encoding_of(wishes.flag), split_of(wishes.cases));
    Some(Command::Decide(file, wishes.options, Purpose::Make(making)))
}

fn encoding_of(binary: bool) -> Encoding
    ensures { result ≡ encoding_asked binary }
{
    if binary {
        Encoding::Binary
    } else {
        Encoding::Ascii
    }
}

fn explain_on<'a>(file: &'a Name, rest: &'a [Name]) -> Option<Command<'a>>
    ensures { MatchOption result (explain_asked file.now rest.now ≡ None)
        (λ asked. explain_asked file.now rest.now ≡ Some (command_seen asked)) }
{
    let wishes = wishes_of(b"--dot", no_wishes(), rest)?;
    explain_by(file, wishes)
}

// An explanation has no cases.
fn explain_by<'a>(file: &'a Name, wishes: Wishes<'a>) -> Option<Command<'a>>
    ensures { MatchOption result (explain_asked_by file.now (wishes_seen wishes.entry) ≡ None)
        (λ asked. explain_asked_by file.now (wishes_seen wishes.entry) ≡ Some (command_seen asked)) }
{
    if wishes.cases.is_some() {
        return None;
    }
    let purpose = Purpose::Make(Making::Explain(form_of(wishes.flag)));
    Some(Command::Decide(file, wishes.options, purpose))
}

fn form_of(dot: bool) -> Form
    ensures { result ≡ form_asked dot }
{
    if dot { Form::Dot } else { Form::Lines }
}

// What these words say beside what is known. It recurses at most once for each word.
fn wishes_of<'a>(flag: &[u8], known: Wishes<'a>, words: &'a [Name]) -> Option<Wishes<'a>>
    ensures { MatchOption result (wishes_asked flag.now (wishes_seen known.entry) words.now ≡ None)
        (λ wishes. wishes_asked flag.now (wishes_seen known.entry) words.now ≡ Some (wishes_seen wishes)) }
{
    match words {
        [] => Some(known),
        [word, rest @ ..] if is_flag(word.bytes(), flag) => {
            let more = with_flag(known)?;
            wishes_of(flag, more, rest)
        }
        [word, value, rest @ ..] => {
            let more = with_wish(word.bytes(), value, known)?;
            wishes_of(flag, more, rest)
        }
        _ => None,
    }
}

// The flag, which comes once at most.
fn with_flag<'a>(known: Wishes<'a>) -> Option<Wishes<'a>>
    ensures { MatchOption result (asked_with_flag (wishes_seen known.entry) ≡ None)
        (λ wishes. asked_with_flag (wishes_seen known.entry) ≡ Some (wishes_seen wishes)) }
{
    if known.flag {
        return None;
    }
    Some(Wishes {
        options: known.options,
        flag: true,
        cases: known.cases,
    })
}

// A number of cases, or an option with its value.
fn with_wish<'a>(word: &[u8], value: &'a Name, known: Wishes<'a>) -> Option<Wishes<'a>>
    ensures { MatchOption result (asked_with_wish word.now value.now (wishes_seen known.entry) ≡ None)
        (λ wishes. asked_with_wish word.now value.now (wishes_seen known.entry) ≡ Some (wishes_seen wishes)) }
{
    if word == b"--cases".as_slice() {
        return with_cases(value, known);
    }
    let options = with_option(word, value, known.options)?;
    Some(Wishes {
        options,
        flag: known.flag,
        cases: known.cases,
    })
}

fn with_cases<'a>(value: &Name, known: Wishes<'a>) -> Option<Wishes<'a>>
    ensures { MatchOption result (asked_with_cases value.now (wishes_seen known.entry) ≡ None)
        (λ wishes. asked_with_cases value.now (wishes_seen known.entry) ≡ Some (wishes_seen wishes)) }
{
    if known.cases.is_some() {
        return None;
    }
    let number = number_between(1, MAX_CASES, value.bytes())?;
    Some(Wishes {
        options: known.options,
        flag: known.flag,
        cases: Some(number),
    })
}

fn is_flag(word: &[u8], flag: &[u8]) -> bool
    ensures { result ≡ bytes_eq word.now flag.now }
{
    word == flag
}

// An assumption is looked for with the options of a decision.
#[tactic(auto, using(crate::proofs::WordLemmas::assume_asked, crate::proofs::WordLemmas::assume_not_asked))]
fn assume_on<'a>(file: &'a Name, rest: &'a [Name]) -> Option<Command<'a>>
    ensures { MatchOption result (assume_asked file.now rest.now ≡ None)
        (λ asked. assume_asked file.now rest.now ≡ Some (command_seen asked)) }
{
    let options = options_of(no_options(), rest)?;
    Some(Command::Assume(file, options))
}

// Loops are told as lines, or as a graph.
fn loops_on<'a>(file: &'a Name, rest: &'a [Name]) -> Option<Command<'a>>
    ensures { MatchOption result (loops_asked file.now rest.now ≡ None)
        (λ asked. loops_asked file.now rest.now ≡ Some (command_seen asked)) }
{
    match rest {
        [] => Some(Command::Loops(file, Form::Lines)),
        [word] if word.bytes() == b"--dot".as_slice() => Some(Command::Loops(file, Form::Dot)),
        _ => None,
    }
}

// A comparison wants one more file, and may have options.
fn equal_on<'a>(file: &'a Name, rest: &'a [Name]) -> Option<Command<'a>>
    ensures { MatchOption result (equal_asked file.now rest.now ≡ None)
        (λ asked. equal_asked file.now rest.now ≡ Some (command_seen asked)) }
{
    match rest {
        [second, rest @ ..] if is_file(second.bytes()) => equal_with(file, second, rest),
        _ => None,
    }
}

#[tactic(auto, using(crate::proofs::WordLemmas::equal_asked, crate::proofs::WordLemmas::equal_not_asked, crate::proofs::WordLemmas::equal_observed))]
fn equal_with<'a>(file: &'a Name, second: &'a Name, rest: &'a [Name]) -> Option<Command<'a>>
    ensures { MatchOption result (equal_asked_with file.now second.now rest.now ≡ None)
        (λ asked. equal_asked_with file.now second.now rest.now ≡ Some (command_seen asked)) }
{
    let known = options_of(no_options(), rest)?;
    let options = without_observe(known)?;
    Some(Command::Equal(file, second, options))
}

// These options, unless they say what is observed.
fn without_observe<'a>(options: Options<'a>) -> Option<Options<'a>>
    ensures { MatchOption result (asked_unobserved (options_seen options.entry) ≡ None)
        (λ same. asked_unobserved (options_seen options.entry) ≡ Some (options_seen same)) }
{
    if options.observe.is_none() {
        Some(options)
    } else {
        None
    }
}

// A simulation wants one more file.
fn sim_on<'a>(file: &'a Name, rest: &'a [Name]) -> Option<Command<'a>>
    ensures { MatchOption result (sim_asked file.now rest.now ≡ None)
        (λ asked. sim_asked file.now rest.now ≡ Some (command_seen asked)) }
{
    match rest {
        [vectors] if is_file(vectors.bytes()) => { Some(Command::Sim(file, vectors)) }
        _ => None,
    }
}

// A play wants two more, and may have a probe.
fn delays_on<'a>(file: &'a Name, rest: &'a [Name]) -> Option<Command<'a>>
    ensures { MatchOption result (delays_asked file.now rest.now ≡ None)
        (λ asked. delays_asked file.now rest.now ≡ Some (command_seen asked)) }
{
    match rest {
        [vectors, schedule, rest @ ..] if is_file(vectors.bytes()) && is_file(schedule.bytes()) => {
            Some(Command::Delays(file, vectors, schedule, probe_of(rest)?))
        }
        _ => None,
    }
}

// The kind of the probe that these words ask for, if they ask for one.
fn probe_of(words: &[Name]) -> Option<Option<Kind>>
    ensures { result ≡ probe_asked words.now }
{
    match words {
        [] => Some(None),
        [option, kind] if option.bytes() == b"--probe".as_slice() => {
            Some(Some(kind_of(kind.bytes())?))
        }
        _ => None,
    }
}

fn kind_of(word: &[u8]) -> Option<Kind>
    ensures { result ≡ kind_asked word.now }
{
    if word == b"trace".as_slice() {
        Some(Kind::Trace)
    } else if word == b"glitches".as_slice() {
        Some(Kind::Glitches)
    } else if word == b"last".as_slice() {
        Some(Kind::Last)
    } else if word == b"vcd".as_slice() {
        Some(Kind::Vcd)
    } else {
        None
    }
}

// A demonstration wants a number of cells alone.
fn demo_on<'a>(word: &Name, rest: &'a [Name]) -> Option<Command<'a>>
    ensures { MatchOption result (demo_asked word.now rest.now ≡ None)
        (λ asked. demo_asked word.now rest.now ≡ Some (command_seen asked)) }
{
    match rest {
        [] => Some(Command::Demo(cells(word.bytes())?)),
        _ => None,
    }
}

// A storm wants a number of rounds, and may have options.
fn storm_on<'a>(file: &'a Name, rest: &'a [Name]) -> Option<Command<'a>>
    ensures { MatchOption result (storm_asked file.now rest.now ≡ None)
        (λ asked. storm_asked file.now rest.now ≡ Some (command_seen asked)) }
{
    match rest {
        [word, rest @ ..] => {
            let purpose = Purpose::Tell(Telling::Storm(rounds(word.bytes())?));
            decide_on(file, purpose, rest)
        }
        [] => None,
    }
}

// Help wants the name of a command alone.
fn help_on<'a>(word: &Name, rest: &'a [Name]) -> Option<Command<'a>>
    ensures { MatchOption result (help_asked word.now rest.now ≡ None)
        (λ asked. help_asked word.now rest.now ≡ Some (command_seen asked)) }
{
    match rest {
        [] => Some(Command::HelpOn(topic_of(word.bytes())?)),
        _ => None,
    }
}

fn topic_of(word: &[u8]) -> Option<Topic>
    ensures { result ≡ topic_asked word.now }
{
    if word == b"check".as_slice() {
        Some(Topic::Check)
    } else if word == b"rewrite".as_slice() {
        Some(Topic::Rewrite)
    } else if word == b"aiger".as_slice() {
        Some(Topic::Aiger)
    } else if word == b"explain".as_slice() {
        Some(Topic::Explain)
    } else if word == b"assume".as_slice() {
        Some(Topic::Assume)
    } else if word == b"equal".as_slice() {
        Some(Topic::Equal)
    } else if word == b"flat".as_slice() {
        Some(Topic::Flat)
    } else if word == b"loops".as_slice() {
        Some(Topic::Loops)
    } else if word == b"sim".as_slice() {
        Some(Topic::Sim)
    } else if word == b"delays".as_slice() {
        Some(Topic::Delays)
    } else if word == b"demo".as_slice() {
        Some(Topic::Demo)
    } else if word == b"storm".as_slice() {
        Some(Topic::Storm)
    } else {
        None
    }
}

fn rounds(word: &[u8]) -> Option<Rounds>
    ensures { MatchOption result (rounds_asked word.now ≡ None) (λ rounds. rounds_asked word.now ≡ Some (rounds_seen rounds)) }
{
    let number = number_between(1, MAX_ROUNDS, word)?;
    Some(Rounds { number })
}

fn cells(word: &[u8]) -> Option<Cells>
    ensures { MatchOption result (cells_asked word.now ≡ None) (λ cells. cells_asked word.now ≡ Some (cells_seen cells)) }
{
    let number = number_between(MIN_RING_CELLS, MAX_RING_CELLS, word)?;
    Some(Cells { number })
}

// The options that these words give beside those that are known. They recurse at most once for each option, since each
// comes once.
#[tactic(auto, using(crate::proofs::WordLemmas::more_options, crate::proofs::WordLemmas::no_more_options))]
fn options_of<'a>(known: Options<'a>, words: &'a [Name]) -> Option<Options<'a>>
    ensures { MatchOption result (options_asked (options_seen known.entry) words.now ≡ None)
        (λ options. options_asked (options_seen known.entry) words.now ≡ Some (options_seen options)) }
{
    match words {
        [] => Some(known),
        [word, value, rest @ ..] => {
            let more = with_option(word.bytes(), value, known)?;
            options_of(more, rest)
        },
        _ => None,
    }
}

// An option with its value, beside those that are known.
fn with_option<'a>(word: &[u8], value: &'a Name, known: Options<'a>) -> Option<Options<'a>>
    ensures { MatchOption result (asked_with_option word.now value.now (options_seen known.entry) ≡ None)
        (λ options. asked_with_option word.now value.now (options_seen known.entry) ≡ Some (options_seen options)) }
{
    if word == b"--care".as_slice() {
        return with_care(value, known);
    }
    if word == b"--nodes".as_slice() {
        return with_nodes(value, known);
    }
    if word == b"--observe".as_slice() {
        return with_observe(value, known);
    }
    None
}

fn with_care<'a>(value: &'a Name, known: Options<'a>) -> Option<Options<'a>>
    ensures { MatchOption result (asked_with_care value.now (options_seen known.entry) ≡ None)
        (λ options. asked_with_care value.now (options_seen known.entry) ≡ Some (options_seen options)) }
{
    if is_file(value.bytes()) && known.care.is_none() {
        Some(Options {
            care: Some(value),
            nodes: known.nodes,
            observe: known.observe,
        })
    } else {
        None
    }
}

fn with_nodes<'a>(value: &'a Name, known: Options<'a>) -> Option<Options<'a>>
    ensures { MatchOption result (asked_with_nodes value.now (options_seen known.entry) ≡ None)
        (λ options. asked_with_nodes value.now (options_seen known.entry) ≡ Some (options_seen options)) }
{
    if known.nodes.is_some() {
        return None;
    }
    let nodes = number_between(MIN_NODES, MAX_NODES, value.bytes())?;
    Some(Options {
        care: known.care,
        nodes: Some(nodes),
        observe: known.observe,
    })
}

fn with_observe<'a>(value: &'a Name, known: Options<'a>) -> Option<Options<'a>>
    ensures { MatchOption result (asked_with_observe value.now (options_seen known.entry) ≡ None)
        (λ options. asked_with_observe value.now (options_seen known.entry) ≡ Some (options_seen options)) }
{
    if known.observe.is_some() {
        return None;
    }
    let observe = observe_of(value.bytes())?;
    Some(Options {
        care: known.care,
        nodes: known.nodes,
        observe: Some(observe),
    })
}

fn observe_of(word: &[u8]) -> Option<Observe>
    ensures { result ≡ observe_asked word.now }
{
    if word == b"all".as_slice() {
        Some(Observe::All)
    } else if word == b"outputs".as_slice() {
        Some(Observe::Outputs)
    } else {
        None
    }
}

// A decimal number without leading zeros, from `least` to `most`.
fn number_between(least: u32, most: u32, word: &[u8]) -> Option<u32>
    requires { most ≤ MAX_NODES }
    ensures number { result ≡ number_asked least most word.now }
    ensures some { IfSome result (λ n. least ≤ n) }
    ensures most { IfSome result (λ n. n ≤ most) }
{
    if word.starts_with(b"0") {
        return None;
    }
    let number = read_digits(0, most, word)?;
    if number >= least { Some(number) } else { None }
}

// The number whose digits are those of a value and then these, up to `most`. It recurses at most once for each digit
// of that.
#[tactic(auto, using(crate::proofs::WordLemmas::more_digits, crate::proofs::WordLemmas::no_more_digits))]
fn read_digits(value: u32, most: u32, digits: &[u8]) -> Option<u32>
    requires value { value ≤ most }
    requires most { most ≤ MAX_NODES }
    ensures number { result ≡ up_to most value digits.now }
    ensures most { IfSome result (λ n. n ≤ most) }
{
    match digits {
        [digit, rest @ ..] => read_digits(with_digit(value, most, *digit)?, most, rest),
        [] => Some(value),
    }
}

// A value with one more digit, where this is one and the number isn't too great.
#[tactic(auto, using(crate::proofs::WordLemmas::value_of_digit))]
fn with_digit(value: u32, most: u32, digit: u8) -> Option<u32>
    requires value { value ≤ most }
    requires most { most ≤ MAX_NODES }
    ensures { MatchOption result ((is_ascii_digit digit && nat_le (value * 10 + digit_value digit) most) ≡ false)
        (λ n. ((is_ascii_digit digit && nat_le (value * 10 + digit_value digit) most) ≡ true) × (n ≡ value * 10 + digit_value digit)) }
{
    if !digit.is_ascii_digit() {
        return None;
    }
    let next = value * 10 + u32::from(digit - b'0');
    if next <= most { Some(next) } else { None }
}

fn is_file(word: &[u8]) -> bool
    ensures { result ≡ is_file_word word.now }
{
    !word.is_empty() && !word.starts_with(b"--")
}

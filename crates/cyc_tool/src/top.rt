// The top call.
ghost use Rattle.std.specs.Prelude.{◌≡◌, ◌⊎◌, [], All, None, Some};
ghost use Rattle.commands.specs.Seen.{command_seen, options_seen, purpose_seen};
ghost use Rattle.commands.specs.Words.{command_of};
ghost use Rattle.plain_commands.specs.Hearing.{HearCommand};
ghost use Rattle.plain_commands.specs.Plans.{deciding, plan_of};
ghost use Rattle.plain_commands.specs.Requests.{request, shown_by};
ghost use Rattle.plain_commands.specs.Seen.{end_of};
ghost use Rattle.plain_commands.specs.Shelves.{shelf_call};
ghost use Rattle.plain_commands.specs.Sinks.{WriteFailed, sink_call};
ghost use Rattle.cyc_tool.specs.Calls.{ComesTo, Follows, KeepsNodes, Runs};
ghost use Rattle.cyc_tool.specs.Causes.{GivesAnswer, IsComplete, IsDoneWith, IsFaulty, IsHelpedBy, IsUnread, IsWithoutCommand, MeetsLimit, NoneFell, Reaches};

use crate::assumed::assume_file;
use crate::compared::compare_files;
use crate::decision::{Task, tell_decision};
use crate::ring::demo;
use bdd_ops::Diagrams;
use commands::{Command, Options, Purpose, command_of_words, files_named};
use cyc_base::{DEFAULT_NODES, Name};
use cyc_io::{Shelf, Sink};
use plain_commands::{
    Outcome, Replay, Stop, flatten_file, or_stop, print_loops, read_care, read_netlist,
    replay_files, simulate_file, tell_end, tell_help, tell_topic, tell_usage, tell_version,
};
use probes::Probe;
use refusals::Observe;
use std::alloc::Global;
use storm::laws::storms_never_rest;

// Decides the netlist of a file on its care set, and tells of it what is wanted.
fn decide_file<S: Shelf>(
    alloc: Global,
    shelf: &mut S,
    netlist: &Name,
    options: Options,
    purpose: Purpose,
    d: &mut Diagrams,
) -> Result<Outcome, Stop>
    ensures comes { Follows (deciding netlist.now (options_seen options.entry) (purpose_seen purpose))
        (shelf_call S.files S.faults shelf.old shelf.new) d.new (end_of result) }
    ensures same { S.files shelf.new ≡ S.files shelf.old }
{
    let net = read_netlist(alloc, shelf, netlist)?;
    let care = read_care(alloc, shelf, &net, options.care)?;
    let limit = options.nodes.unwrap_or(DEFAULT_NODES);
    let observe = options.observe.unwrap_or(Observe::All);
    let task = Task {
        limit,
        observe,
        purpose,
    };
    or_stop(tell_decision(alloc, &net, &care, task, d))
}

// Does what a command asks for.
fn carry_out<S: Shelf>(
    alloc: Global,
    command: Command<'_>,
    shelf: &mut S,
    d: &mut Diagrams,
    probes: &mut [Box<dyn Probe>],
) -> Result<Outcome, Stop>
    requires { All (λ probe. heard probe ≡ []) probes.old }
    ensures comes { Follows (plan_of (shown_by kind text probes.old) (command_seen command.entry)) (shelf_call S.files S.faults shelf.old shelf.new) d.new (end_of result) }
    ensures heard { HearCommand kind heard text (Some (command_seen command.entry)) (shelf_call S.files S.faults shelf.old shelf.new)
        probes.old probes.new }
    ensures same { S.files shelf.new ≡ S.files shelf.old }
    ensures kept { KeepsNodes (Some (command_seen command.entry)) d.old d.new }
{
    match command {
        Command::Decide(netlist, options, purpose) => {
            decide_file(alloc, shelf, netlist, options, purpose, d)
        }
        Command::Assume(netlist, options) => assume_file(alloc, shelf, netlist, options, d),
        Command::Equal(netlist, second, options) => {
            compare_files(alloc, shelf, netlist, second, options, d)
        }
        Command::Flat(netlist) => flatten_file(alloc, shelf, netlist),
        Command::Loops(netlist, form) => print_loops(alloc, shelf, netlist, form),
        Command::Sim(netlist, vectors) => simulate_file(alloc, shelf, netlist, vectors),
        Command::Delays(netlist, vectors, recorded, probe) => {
            let replay = Replay {
                netlist,
                vectors,
                recorded,
                probe,
            };
            replay_files(alloc, shelf, &replay, probes)
        }
        Command::Demo(cells) => demo(alloc, cells, d),
        Command::Help => or_stop(tell_help(alloc)),
        Command::HelpOn(topic) => or_stop(tell_topic(alloc, topic)),
        Command::Version => or_stop(tell_version(alloc)),
    }
}

// Does what the words ask for.
fn carry_out_words<S: Shelf>(
    alloc: Global,
    words: &[Name],
    shelf: &mut S,
    d: &mut Diagrams,
    probes: &mut [Box<dyn Probe>],
) -> Result<Outcome, Stop>
    requires { All (λ probe. heard probe ≡ []) probes.old }
    ensures comes { ComesTo (shown_by kind text probes.old) (command_of words.now) (shelf_call S.files S.faults shelf.old shelf.new) d.new (end_of result) }
    ensures heard { HearCommand kind heard text (command_of words.now) (shelf_call S.files S.faults shelf.old shelf.new)
        probes.old probes.new }
    ensures same { S.files shelf.new ≡ S.files shelf.old }
    ensures kept { KeepsNodes (command_of words.now) d.old d.new }
{
    let words = files_named(alloc, words)?;
    match command_of_words(&words) {
        Some(command) => carry_out(alloc, command, shelf, d, probes),
        None => or_stop(tell_usage(alloc)),
    }
}

/// Does what the words ask for: reads their files from the shelf in order, and writes to out and to err only when all
/// computing is done. Answers the status.
///
/// A file that is `-` is standard input: `/dev/stdin` is read from the shelf.
///
/// `d` may hold anything when the call starts. A command that decides, compares or looks for an assumption starts it anew, and
/// its nodes at the end of the call show the cause of status 6. All other words leave it as it was.
///
/// `probes` are told the changes of a run that `delays` plays, if they are of the kind that the words ask for, and what they
/// show comes on out in their order, behind the lines of the ticks; of the kind `Vcd` it is all of out, and these lines go
/// to err. They have heard nothing before, and are dropped.
///
/// 0: done, accepted or equal. 1: refused, or not equal. 2: the words aren't in the grammar. 3: a file has a fault. 4: a file wasn't read.
/// 5: a write failed; each sink has a prefix of its text. 6: the limit of nodes was met, which is below what is enough.
/// 7: want of memory. 8: the rewritten netlist would have over 4,000,000 gates and latches, its graph as many ANDs, the storm
/// as many events, or the assumption as many gates or over 4,096 rows.
pub fn run<S: Shelf, O: Sink, E: Sink>(
    alloc: Global,
    words: &[Name],
    shelf: &mut S,
    out: &mut O,
    err: &mut E,
    d: &mut Diagrams,
    mut probes: Vec<Box<dyn Probe>>,
) -> u8
    requires silent { All (λ probe. heard probe ≡ []) probes.items }
    ensures runs { Runs (request kind text words.now probes.items) (shelf_call S.files S.faults shelf.old shelf.new) d.new
        (sink_call O.put O.faults out.old out.new) (sink_call E.put E.faults err.old err.new) result }

    // What follows for each status, over any shelf and any sinks.
    ensures usage { result ≡ 2 → command_of words.now ≡ None }
    ensures no_command { IsWithoutCommand (command_of words.now) result }
    ensures helped { IsHelpedBy (command_of words.now) result }
    ensures fault { result ≡ 3
        → Reaches IsFaulty (request kind text words.now probes.items) (shelf_call S.files S.faults shelf.old shelf.new) }
    ensures read_failed { result ≡ 4
        → Reaches (IsUnread (shelf_call S.files S.faults shelf.old shelf.new)) (request kind text words.now probes.items) (shelf_call S.files S.faults shelf.old shelf.new) }
    ensures write_failed { result ≡ 5
        → WriteFailed (sink_call O.put O.faults out.old out.new) ⊎ WriteFailed (sink_call E.put E.faults err.old err.new) }
    ensures limited { result ≡ 6
        → Reaches (MeetsLimit d.new) (request kind text words.now probes.items) (shelf_call S.files S.faults shelf.old shelf.new) }
    ensures done { result ≡ 0
        → Reaches (IsDoneWith (sink_call O.put O.faults out.old out.new) (sink_call E.put E.faults err.old err.new) 0)
        (request kind text words.now probes.items) (shelf_call S.files S.faults shelf.old shelf.new) }
    ensures refused { result ≡ 1
        → Reaches (IsDoneWith (sink_call O.put O.faults out.old out.new) (sink_call E.put E.faults err.old err.new) 1)
        (request kind text words.now probes.items) (shelf_call S.files S.faults shelf.old shelf.new) }
    ensures outgrown { result ≡ 8
        → Reaches (IsDoneWith (sink_call O.put O.faults out.old out.new) (sink_call E.put E.faults err.old err.new) 8)
        (request kind text words.now probes.items) (shelf_call S.files S.faults shelf.old shelf.new) }

    // What follows where the files are told.
    ensures answer { GivesAnswer (request kind text words.now probes.items) (shelf_call S.files S.faults shelf.old shelf.new) d.new
        (sink_call O.put O.faults out.old out.new) (sink_call E.put E.faults err.old err.new) result }
    ensures complete { IsComplete (request kind text words.now probes.items) (shelf_call S.files S.faults shelf.old shelf.new)
        (sink_call O.put O.faults out.old out.new) (sink_call E.put E.faults err.old err.new) result }

    // What the next call may rest on.
    ensures kept { KeepsNodes (command_of words.now) d.old d.new }
    ensures same { S.files shelf.new ≡ S.files shelf.old }
    ensures counts { NoneFell (shelf_call S.files S.faults shelf.old shelf.new)
        (sink_call O.put O.faults out.old out.new) (sink_call E.put E.faults err.old err.new) }
{
    storms_never_rest();
    let end = carry_out_words(alloc, words, shelf, d, &mut probes);
    tell_end(&end, out, err)
}

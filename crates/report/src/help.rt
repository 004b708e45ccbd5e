// What help and the version tell.
ghost use Rattle.std.specs.Prelude.{◌≡◌};
ghost use Rattle.std.specs.List.{flat_map};
ghost use Rattle.cyc_io.specs.Taken.{IsAppended, sink_call};
ghost use Rattle.report.specs.Help.{help_head, help_tail, help_text, purpose_of, topic_text, topics as all_topics, version_text, words_of};

use commands::Topic;
use cyc_io::{Failed, Sink, put_three, put_two, write_whole};

// The program's version, and the kit that it is proved with.
const VERSION_TEXT: &[u8] = b"cyc 1.0.0\nproved with rattle-kit-13f logic dac8208d650f15bf\n";

// The commands, in the order in which help tells of them.
#[tactic(auto, unfolding(crate::specs::Help::topics))]
fn topics() -> &'static [Topic]
    ensures { result.now ≡ all_topics }
{
    &[
        Topic::Check,
        Topic::Rewrite,
        Topic::Aiger,
        Topic::Explain,
        Topic::Assume,
        Topic::Equal,
        Topic::Flat,
        Topic::Loops,
        Topic::Sim,
        Topic::Delays,
        Topic::Demo,
        Topic::Storm,
    ]
}

// What stands in front of the commands.
#[tactic(auto, unfolding(crate::specs::Help::help_head))]
fn head() -> &'static [u8]
    ensures { result.now ≡ help_head }
{
    b"usage: cyc COMMAND FILES OPTIONS

Analyses logic netlists (BLIF) whose combinational part has loops, and rewrites them without.

"
}

// What stands behind them.
#[tactic(auto, unfolding(crate::specs::Help::help_tail))]
fn tail() -> &'static [u8]
    ensures { result.now ≡ help_tail }
{
    b"  cyc help COMMAND
      tells of one command
  cyc --help
      prints this text
  cyc --version
      prints the program's version and the kit that it is proved with

A file that is - is standard input. Options stand behind the files, in any order:
  --care CARE         a BLIF file with a model assume, a model invariant, or both: which vectors count
  --nodes N           the most nodes of the decision diagrams, from 1 to 50000000; else 8000000
  --observe outputs   that the outputs and what latches load are determined is enough
  --cases N           the most cases, from 1 to 4096, into which loops are split; else 1
  --probe KIND        what is shown of the changes of a run

Statuses:
  0  done, or accepted, or equal
  1  refused, or not equal
  2  the words aren't in the grammar
  3  a file has a fault
  4  a file wasn't read
  5  a write failed
  6  the limit of nodes was met
  7  no memory was found
  8  the result would be too large

The manual is docs/cyc.1 of the sources, or where it is installed: man cyc
"
}

// A command's name, its files and its options.
fn words(topic: Topic) -> &'static [u8]
    ensures { result.now ≡ words_of topic }
{
    match topic {
        Topic::Check => b"check FILE [--care CARE] [--nodes N] [--observe all|outputs]",
        Topic::Rewrite =>
            b"rewrite FILE [--care CARE] [--nodes N] [--observe all|outputs] [--cases N]",
        Topic::Aiger =>
            b"aiger FILE [--care CARE] [--nodes N] [--observe all|outputs] [--binary] [--cases N]",
        Topic::Explain => b"explain FILE [--care CARE] [--nodes N] [--observe all|outputs] [--dot]",
        Topic::Assume => b"assume FILE [--care CARE] [--nodes N] [--observe all|outputs]",
        Topic::Equal => b"equal FILE FILE [--care CARE] [--nodes N]",
        Topic::Flat => b"flat FILE",
        Topic::Loops => b"loops FILE [--dot]",
        Topic::Sim => b"sim FILE VECTORS",
        Topic::Delays => b"delays FILE VECTORS SCHEDULE [--probe trace|glitches|last|vcd]",
        Topic::Demo => b"demo CELLS",
        Topic::Storm => b"storm FILE ROUNDS [--care CARE] [--nodes N] [--observe all|outputs]",
    }
}

// What it does.
fn purpose(topic: Topic) -> &'static [u8]
    ensures { result.now ≡ purpose_of topic }
{
    match topic {
        Topic::Check =>
            b"says that each loop is harmless within care, or prints what shows why not",
        Topic::Rewrite =>
            b"writes an accepted netlist without loops, with the same outputs at every tick within care",
        Topic::Aiger =>
            b"writes an accepted netlist as an and-inverter graph without loops, in AIGER's ASCII or binary form",
        Topic::Explain =>
            b"does as check, and shows what leaves a refused wire unknown, or what each accepted loop needs",
        Topic::Assume =>
            b"writes the weakest care file, within CARE, under which the netlist is accepted",
        Topic::Equal =>
            b"says that two netlists have the same outputs and latches at every tick within care, or prints what differs",
        Topic::Flat => b"writes the netlist without its hierarchy",
        Topic::Loops =>
            b"prints the loops and the wires that cut them open, with --dot as a graph for Graphviz",
        Topic::Sim => b"simulates the netlist with 0, 1 and x, tick by tick",
        Topic::Delays =>
            b"plays a recorded schedule of gate updates, and says whether each tick settles",
        Topic::Demo =>
            b"makes the ring arbiter of 2 to 64 cells, decides it and counts its rewritten gates",
        Topic::Storm =>
            b"writes a schedule of 1 to 10000 rounds on which a refused wire never rests",
    }
}

/// Appends what help tells of one command: its words, and on a second line what it does. It takes no memory.
pub fn put_topic<K: Sink>(topic: Topic, sink: &mut K) -> Result<(), Failed>
    ensures { IsAppended (topic_text topic) (sink_call K.put K.faults sink.old sink.new) result }
{
    put_two(sink, b"  cyc ", words(topic))?;
    put_three(sink, b"\n      ", purpose(topic), b"\n")
}

// Appends what help tells of each of these commands.
fn put_topics<K: Sink>(topics: &[Topic], sink: &mut K) -> Result<(), Failed>
    ensures { IsAppended (flat_map topic_text topics.now) (sink_call K.put K.faults sink.old sink.new) result }
{
    for topic in topics {
        put_topic(*topic, sink)?;
    }
    Ok(())
}

/// Appends what the program does, command by command, its options and its statuses. It takes no memory.
pub fn put_help<K: Sink>(sink: &mut K) -> Result<(), Failed>
    ensures { IsAppended help_text (sink_call K.put K.faults sink.old sink.new) result }
{
    write_whole(sink, head())?;
    put_topics(topics(), sink)?;
    write_whole(sink, tail())
}

/// Appends the program's version and the kit that it is proved with. It takes no memory.
pub fn put_version<K: Sink>(sink: &mut K) -> Result<(), Failed>
    ensures { IsAppended version_text (sink_call K.put K.faults sink.old sink.new) result }
{
    write_whole(sink, VERSION_TEXT)
}

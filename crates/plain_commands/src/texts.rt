// The texts of a call's outcomes.
ghost use Rattle.std.specs.Prelude.{◌≡◌, ◌++◌, IfOk, OnOk, length};
ghost use Rattle.cyc_io.specs.Text.{text_bytes};
ghost use Rattle.parsed_files.specs.Seen.{fault_seen};
ghost use Rattle.plain_commands.specs.Texts.{told as done, count_of_loops, graph_text, has_fault, limit_reached, on_both as both_of, on_err as err_of, on_out as out_of, read_failed, usage};
ghost use Rattle.plain_commands.specs.Plans.{Declines, Outgrows, Prints, Refuses, loops_shown, probed_told};
ghost use Rattle.plain_commands.specs.Plays.{delays_text};
ghost use Rattle.plain_commands.specs.Seen.{outcome_of};
ghost use Rattle.plain_commands.specs.Simulation.{sim_text};
ghost use Rattle.aig_core.specs.Answers.{FitsNetlist};
ghost use Rattle.blif_write.specs.Written.{written};
ghost use Rattle.refusals.specs.Refusals.{IsRefusalOf};
ghost use Rattle.report.specs.Help.{help_text, topic_text, version_text};
ghost use Rattle.report.specs.Verdicts.{accepted_text, refusal_text};
ghost use Rattle.sched_text.specs.Vectors.{HaveWidth};

use crate::outcome::Outcome;
use crate::plays::end_lines;
use crate::sim_lines::simulate;
use crate::status;
use aig_core::{Built, write_ascii, write_binary};
use blif_write::write;
use commands::{Encoding, Form, Topic};
use cyc_base::{Name, Trits};
use cyc_io::{Failed, TextSink};
use delay_core::TickEnd;
use dot_text::put_loops_graph;
use feedback_cuts::NetlistLoops;
use loops::LoopedNetlist;
use netlist::Netlist;
use parsed_files::Fault;
use probes::Kind;
use refusals::Refusal;
use report::{
    USAGE_TEXT, put_accepted, put_file_fault, put_help, put_limit, put_loops, put_read_failed,
    put_refusal, put_too_large, put_topic, put_version,
};
use std::alloc::{AllocError, Global};

/// A status with a text on err.
pub fn on_err(alloc: Global, status: u8, err: Vec<u8>) -> Outcome
    ensures { outcome_of result ≡ err_of status err.items }
{
    Outcome {
        status,
        out: Vec::new(alloc),
        err,
    }
}

/// A status with a text on out.
pub fn on_out(alloc: Global, status: u8, out: Vec<u8>) -> Outcome
    ensures { outcome_of result ≡ out_of status out.items }
{
    Outcome {
        status,
        out,
        err: Vec::new(alloc),
    }
}

fn on_both(status: u8, out: Vec<u8>, err: Vec<u8>) -> Outcome
    ensures { outcome_of result ≡ both_of status out.items err.items }
{
    Outcome { status, out, err }
}

/// That the words aren't in the grammar.
pub fn tell_usage(alloc: Global) -> Result<Outcome, AllocError>
    ensures { IfOk result (λ told. outcome_of told ≡ usage) }
{
    Ok(on_err(alloc, status::USAGE, USAGE_TEXT.to_vec(alloc)?))
}

/// What the program does, command by command.
pub fn tell_help(alloc: Global) -> Result<Outcome, AllocError>
    ensures { IfOk result (λ told. outcome_of told ≡ done (Prints help_text)) }
{
    let mut sink = TextSink::new(alloc);
    match put_help(&mut sink) {
        Ok(()) => Ok(on_out(alloc, status::DONE, sink.into_vec())),
        Err(_) => Err(AllocError),
    }
}

/// What one command does.
pub fn tell_topic(alloc: Global, topic: Topic) -> Result<Outcome, AllocError>
    ensures { IfOk result (λ told. outcome_of told ≡ done (Prints (topic_text topic))) }
{
    let mut sink = TextSink::new(alloc);
    match put_topic(topic, &mut sink) {
        Ok(()) => Ok(on_out(alloc, status::DONE, sink.into_vec())),
        Err(_) => Err(AllocError),
    }
}

/// Which program this is, and what it is proved with.
pub fn tell_version(alloc: Global) -> Result<Outcome, AllocError>
    ensures { IfOk result (λ told. outcome_of told ≡ done (Prints version_text)) }
{
    let mut sink = TextSink::new(alloc);
    match put_version(&mut sink) {
        Ok(()) => Ok(on_out(alloc, status::DONE, sink.into_vec())),
        Err(_) => Err(AllocError),
    }
}

// What is told of a fault of this file.
pub(crate) fn tell_fault(alloc: Global, file: &Name, fault: &Fault) -> Result<Outcome, AllocError>
    ensures { IfOk result (λ told. outcome_of told ≡ has_fault file.now (fault_seen fault.now)) }
{
    let mut sink = TextSink::new(alloc);
    match put_file_fault(file, fault.code, fault.line, fault.tail.told(), &mut sink) {
        Ok(()) => Ok(on_err(alloc, status::FAULT, sink.into_vec())),
        Err(_) => Err(AllocError),
    }
}

pub(crate) fn tell_read_failed(alloc: Global, file: &Name) -> Result<Outcome, AllocError>
    ensures { IfOk result (λ told. outcome_of told ≡ read_failed file.now) }
{
    let mut sink = TextSink::new(alloc);
    match put_read_failed(file, &mut sink) {
        Ok(()) => Ok(on_err(alloc, status::READ_FAILED, sink.into_vec())),
        Err(_) => Err(AllocError),
    }
}

/// That a limit of nodes was met.
pub fn tell_limit(alloc: Global, limit: u32) -> Result<Outcome, AllocError>
    ensures { IfOk result (λ told. outcome_of told ≡ limit_reached limit) }
{
    let mut sink = TextSink::new(alloc);
    match put_limit(limit, &mut sink) {
        Ok(()) => Ok(on_err(alloc, status::LIMIT_REACHED, sink.into_vec())),
        Err(_) => Err(AllocError),
    }
}

/// That a result would have so many gates and latches, ANDs or events, which are too many.
pub fn tell_too_large(alloc: Global, size: u64) -> Result<Outcome, AllocError>
    ensures { IfOk result (λ told. outcome_of told ≡ done (Outgrows size)) }
{
    let mut sink = TextSink::new(alloc);
    match put_too_large(size, &mut sink) {
        Ok(()) => Ok(on_err(alloc, status::TOO_LARGE, sink.into_vec())),
        Err(_) => Err(AllocError),
    }
}

/// How many loops a netlist has.
pub fn number_of_loops(looped: &LoopedNetlist<'_>) -> u32
    ensures { result ≡ count_of_loops looped.now.net }
{
    looped.count()
}

/// Appends the line of an accepted netlist.
///
/// A write that failed leaves a prefix of it.
pub fn put_accepted_line(
    looped: &LoopedNetlist<'_>,
    loose: Option<u32>,
    sink: &mut TextSink,
) -> Result<(), Failed>
    ensures { OnOk result (text_bytes sink.new ≡ text_bytes sink.old ++ accepted_text looped.now.net (count_of_loops looped.now.net) loose) }
{
    put_accepted(looped.net(), number_of_loops(looped), loose, sink)
}

/// The line of an accepted netlist: how many gates and loops it has, and how many gates are open where that is told.
pub fn accepted_line(
    alloc: Global,
    looped: &LoopedNetlist<'_>,
    loose: Option<u32>,
) -> Result<Vec<u8>, AllocError>
    ensures { IfOk result (λ text. text.items ≡ accepted_text looped.now.net (count_of_loops looped.now.net) loose) }
{
    let mut sink = TextSink::new(alloc);
    match put_accepted_line(looped, loose, &mut sink) {
        Ok(()) => Ok(sink.into_vec()),
        Err(_) => Err(AllocError),
    }
}

// The text of a refusal.
fn refusal_of(alloc: Global, net: &Netlist, refusal: &Refusal) -> Result<Vec<u8>, AllocError>
    requires { IsRefusalOf net.now refusal.now }
    ensures { IfOk result (λ text. text.items ≡ refusal_text net.now refusal.now) }
{
    let mut sink = TextSink::new(alloc);
    match put_refusal(net, refusal, &mut sink) {
        Ok(()) => Ok(sink.into_vec()),
        Err(_) => Err(AllocError),
    }
}

/// A refusal as the result.
pub fn tell_refused(alloc: Global, net: &Netlist, refusal: &Refusal) -> Result<Outcome, AllocError>
    requires { IsRefusalOf net.now refusal.now }
    ensures { IfOk result (λ told. outcome_of told ≡ done (Refuses (refusal_text net.now refusal.now))) }
{
    Ok(on_out(alloc, status::REFUSED, refusal_of(alloc, net, refusal)?))
}

/// A refusal in place of a result.
pub fn tell_declined(alloc: Global, net: &Netlist, refusal: &Refusal) -> Result<Outcome, AllocError>
    requires { IsRefusalOf net.now refusal.now }
    ensures { IfOk result (λ told. outcome_of told ≡ done (Declines (refusal_text net.now refusal.now))) }
{
    Ok(on_err(alloc, status::REFUSED, refusal_of(alloc, net, refusal)?))
}

/// A netlist as a text.
pub fn tell_netlist(alloc: Global, net: &Netlist) -> Result<Outcome, AllocError>
    ensures { IfOk result (λ told. outcome_of told ≡ done (Prints (written net.now))) }
{
    let mut sink = TextSink::new(alloc);
    match write(net, &mut sink) {
        Ok(()) => Ok(on_out(alloc, status::DONE, sink.into_vec())),
        Err(_) => Err(AllocError),
    }
}

// Appends the graph of a netlist in this form.
fn put_graph(
    net: &Netlist,
    graph: &Built,
    encoding: Encoding,
    sink: &mut TextSink,
) -> Result<(), Failed>
    requires { FitsNetlist net.now graph.now }
    ensures { OnOk result (text_bytes sink.new ≡ text_bytes sink.old ++ graph_text encoding net.now graph.now) }
{
    match encoding {
        Encoding::Ascii => write_ascii(net, graph, sink),
        Encoding::Binary => write_binary(net, graph, sink),
    }
}

/// A graph of a netlist as a text.
pub fn tell_aiger(
    alloc: Global,
    net: &Netlist,
    graph: &Built,
    encoding: Encoding,
) -> Result<Outcome, AllocError>
    requires { FitsNetlist net.now graph.now }
    ensures { IfOk result (λ told. outcome_of told ≡ done (Prints (graph_text encoding net.now graph.now))) }
{
    let mut sink = TextSink::new(alloc);
    match put_graph(net, graph, encoding, &mut sink) {
        Ok(()) => Ok(on_out(alloc, status::DONE, sink.into_vec())),
        Err(_) => Err(AllocError),
    }
}

// Appends the loops of a netlist in this form.
fn put_loops_in_form(
    looped: &LoopedNetlist<'_>,
    form: Form,
    sink: &mut TextSink,
) -> Result<(), Failed>
    ensures { OnOk result (text_bytes sink.new ≡ text_bytes sink.old ++ loops_shown form looped.now.net) }
{
    match form {
        Form::Lines => put_loops(looped, sink),
        Form::Dot => put_loops_graph(looped, sink),
    }
}

fn text_of_looped(
    alloc: Global,
    looped: &LoopedNetlist<'_>,
    form: Form,
) -> Result<Vec<u8>, AllocError>
    ensures { IfOk result (λ text. text.items ≡ loops_shown form looped.now.net) }
{
    let mut sink = TextSink::new(alloc);
    match put_loops_in_form(looped, form, &mut sink) {
        Ok(()) => Ok(sink.into_vec()),
        Err(_) => Err(AllocError),
    }
}

fn text_of_loops(alloc: Global, net: &Netlist, form: Form) -> Result<Vec<u8>, AllocError>
    ensures { IfOk result (λ text. text.items ≡ loops_shown form net.now) }
{
    let loops = NetlistLoops::find(alloc, net)?;
    text_of_looped(alloc, &loops.looped(), form)
}

pub(crate) fn tell_loops(alloc: Global, net: &Netlist, form: Form) -> Result<Outcome, AllocError>
    ensures { IfOk result (λ told. outcome_of told ≡ done (Prints (loops_shown form net.now))) }
{
    Ok(on_out(alloc, status::DONE, text_of_loops(alloc, net, form)?))
}

pub(crate) fn tell_sim(
    alloc: Global,
    net: &Netlist,
    vectors: &[Trits],
) -> Result<Outcome, AllocError>
    requires { HaveWidth (length net.now.inputs) vectors.now }
    ensures { IfOk result (λ told. outcome_of told ≡ done (Prints (sim_text net.now vectors.now))) }
{
    Ok(on_out(alloc, status::DONE, simulate(alloc, net, vectors)?))
}

pub(crate) fn tell_delays(alloc: Global, ends: &[TickEnd]) -> Result<Outcome, AllocError>
    ensures { IfOk result (λ told. outcome_of told ≡ done (Prints (delays_text ends.now))) }
{
    Ok(on_out(alloc, status::DONE, end_lines(alloc, ends)?))
}

// A run with these ends of its ticks, of which probes of a kind show this.
pub(crate) fn tell_probed(
    alloc: Global,
    wanted: Kind,
    ends: &[TickEnd],
    shown: Vec<u8>,
) -> Result<Outcome, AllocError>
    ensures { IfOk result (λ told. outcome_of told ≡ done (probed_told wanted (delays_text ends.now) shown.items)) }
{
    let mut lines = end_lines(alloc, ends)?;
    match wanted {
        // A dump is a file of its own.
        Kind::Vcd => Ok(on_both(status::DONE, shown, lines)),
        Kind::Trace | Kind::Glitches | Kind::Last => {
            lines.extend_from_slice(&shown)?;
            Ok(on_out(alloc, status::DONE, lines))
        }
    }
}

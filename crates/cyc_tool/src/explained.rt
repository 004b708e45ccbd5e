// Why a refused wire is undetermined, and what is told of the loops of an accepted netlist.
ghost use Rattle.std.specs.Prelude.{◌≡◌, ◌≢◌, ◌<◌, length, IfOk, IfSome, IfNone};
ghost use Rattle.care_sets.specs.Care.{CareSet};
ghost use Rattle.commands.specs.declared.form.Form.TheVariants.{Dot, Lines};
ghost use Rattle.cyc_base.specs.declared.trit.Trit.TheVariants.{X};
ghost use Rattle.cyc_base.specs.Values.{bits};
ghost use Rattle.explain_text.specs.Graphs.{told_graph};
ghost use Rattle.commands.specs.Words.{Explains as ExplainsIn};
ghost use Rattle.explanations.specs.Explained.{Explains};
ghost use Rattle.loop_simulation.specs.Sweeping.{sweeps_needed};
ghost use Rattle.rewriting.specs.Rewriting.{IsCountedOnCare};
ghost use Rattle.loops.specs.Sweeps.{gate_of};
ghost use Rattle.netlist.specs.Fixpoint.{fix, wire as wire_of};
ghost use Rattle.refusals.specs.Refusals.{IsAt};
ghost use Rattle.refusals.specs.declared.refusal.Refusal.TheVariants.{Undetermined};
ghost use Rattle.dot_text.specs.ExplanationGraphs.{IsExplanationOf};
ghost use Rattle.plain_commands.specs.Texts.{told as done};
ghost use Rattle.cyc_tool.specs.Answer.{IsRefusalOutcome, IsWireExplained};
ghost use Rattle.cyc_tool.specs.Endings.{loops_explained, refusal_shown, wire_explained};
ghost use Rattle.plain_commands.specs.Plans.{Prints, Refuses};
ghost use Rattle.plain_commands.specs.Seen.{outcome_of};

use crate::problem::Refused;
use commands::Form;
use cyc_base::Sig;
use cyc_io::TextSink;
use dot_text::{put_refusal_graph, tell_explanation_graph};
use explain_text::{put_explained, tell_loops, tell_loops_graph};
use explanations::{Explanation, explain};
use loops::LoopedNetlist;
use plain_commands::{Outcome, accepted_line, on_out, put_accepted_line, status, tell_refused};
use refusals::Refusal;
use std::alloc::{AllocError, Global};
use unroll::CountedLoops;

// A wire that is refused at a vector.
#[derive(Drop)]
struct RefusedWire<'a> {
    looped: &'a LoopedNetlist<'a>,
    refusal: &'a Refusal,
    vector: &'a [bool],
    wire: Sig,
    ghost is: { refusal.now ≡ Undetermined vector.now wire },
    ghost at: { IsAt looped.now.net vector.now wire },
    ghost unknown: { wire_of (fix looped.now.net (bits vector.now)) wire ≡ X },
}

// A refusal, and behind it the lines of an explanation.
fn tell_explanation(
    alloc: Global,
    refused: &RefusedWire<'_>,
    why: &Explanation,
) -> Result<Outcome, AllocError>
    requires why { IsExplanationOf refused.now.looped.now.net why.now }
    ensures { IfOk result (λ told. outcome_of told ≡ done (Refuses (wire_explained Lines refused.now.looped.now.net refused.now.vector.now refused.now.wire why.now))) }
{
    let mut sink = TextSink::new(alloc);
    match put_explained(refused.looped.net(), refused.refusal, why, &mut sink) {
        Ok(()) => Ok(on_out(alloc, status::REFUSED, sink.into_vec())),
        Err(_) => Err(AllocError),
    }
}

// A refusal with an explanation as a graph.
fn draw_explanation(
    alloc: Global,
    refused: &RefusedWire<'_>,
    why: &Explanation,
) -> Result<Outcome, AllocError>
    requires why { IsExplanationOf refused.now.looped.now.net why.now }
    requires some { 0 < length why.now.cycle }
    ensures { IfOk result (λ told. outcome_of told ≡ done (Refuses (wire_explained Dot refused.now.looped.now.net refused.now.vector.now refused.now.wire why.now))) }
{
    refused.looped.net().laws();
    let mut sink = TextSink::new(alloc);
    tell_explanation_graph(
        alloc,
        refused.looped,
        refused.vector,
        refused.wire,
        why,
        &mut sink,
    )?;
    Ok(on_out(alloc, status::REFUSED, sink.into_vec()))
}

// A refused wire, with why.
fn tell_why(
    alloc: Global,
    refused: &RefusedWire<'_>,
    why: &Explanation,
    form: Form,
) -> Result<Outcome, AllocError>
    requires why { IsExplanationOf refused.now.looped.now.net why.now }
    requires some { 0 < length why.now.cycle }
    ensures { IfOk result (λ told. outcome_of told ≡ done (Refuses (wire_explained form refused.now.looped.now.net refused.now.vector.now refused.now.wire why.now))) }
{
    match form {
        Form::Lines => tell_explanation(alloc, refused, why),
        Form::Dot => draw_explanation(alloc, refused, why),
    }
}

// A refusal as a graph.
fn draw_refused(alloc: Global, refused: &Refused<'_>) -> Result<Outcome, AllocError>
    ensures { IfOk result (λ told. outcome_of told ≡ done (Refuses (refusal_shown Dot refused.now.problem.looped.net refused.now.refusal))) }
{
    let mut sink = TextSink::new(alloc);
    match put_refusal_graph(refused.net(), refused.refusal(), &mut sink) {
        Ok(()) => Ok(on_out(alloc, status::REFUSED, sink.into_vec())),
        Err(_) => Err(AllocError),
    }
}

// A refusal without an explanation.
fn tell_alone(alloc: Global, refused: &Refused<'_>, form: Form) -> Result<Outcome, AllocError>
    ensures { IfOk result (λ told. outcome_of told ≡ done (Refuses (refusal_shown form refused.now.problem.looped.net refused.now.refusal))) }
{
    match form {
        Form::Lines => tell_refused(alloc, refused.net(), refused.refusal()),
        Form::Dot => draw_refused(alloc, refused),
    }
}

// Why a refused wire is undetermined. Only one that is determined has no explanation.
fn explanation_of(
    alloc: Global,
    refused: &RefusedWire<'_>,
) -> Result<Option<Explanation>, AllocError>
    ensures found { IfOk result (λ found. IfSome found (Explains refused.now.looped.now.net refused.now.vector.now (gate_of refused.now.looped.now.net refused.now.wire))) }
    ensures none { IfOk result (λ found. IfNone found (wire_of (fix refused.now.looped.now.net (bits refused.now.vector.now)) refused.now.wire ≢ X)) }
{
    let net = refused.looped.net();
    let gate = refused.wire.0 - net.columns();
    explain(alloc, net, refused.vector, &[], gate)
}

// A refused wire, with why it is undetermined, as lines or as a graph.
fn tell_wire(alloc: Global, refused: &RefusedWire<'_>, form: Form) -> Result<Outcome, AllocError>
    ensures { IfOk result (λ told. IsWireExplained form refused.now.looped.now.net refused.now.vector.now refused.now.wire (outcome_of told)) }
{
    let found = explanation_of(alloc, refused)?;
    match &found {
        Some(why) => tell_why(alloc, refused, why, form),
        None => unreachable!(),
    }
}

// A refusal, with why a wire is undetermined, as lines or as a graph.
pub(crate) fn tell_explained(
    alloc: Global,
    refused: &Refused<'_>,
    form: Form,
) -> Result<Outcome, AllocError>
    ensures { IfOk result (λ told. IsRefusalOutcome refused.now.problem.looped.net (ExplainsIn form) refused.now.refusal (outcome_of told)) }
{
    let refusal = refused.refusal();
    match refusal {
        Refusal::Undetermined { vector, wire } => {
            let refused = RefusedWire {
                looped: refused.problem().looped(),
                refusal,
                vector: vector.items(),
                wire: *wire,
            };
            tell_wire(alloc, &refused, form)
        }
        _ => tell_alone(alloc, refused, form),
    }
}

// The line of an accepted netlist, and behind it those of its loops.
fn list_loops(
    alloc: Global,
    counted: &CountedLoops<'_>,
    loose: Option<u32>,
) -> Result<Outcome, AllocError>
    ensures { IfOk result (λ told. (care : CareSet) → IsCountedOnCare counted.now care →
        outcome_of told ≡ done (Prints (loops_explained Lines counted.now.net care loose))) }
{
    let mut sink = TextSink::new(alloc);
    if put_accepted_line(counted.looped(), loose, &mut sink).is_err() {
        return Err(AllocError);
    }
    tell_loops(alloc, counted, &mut sink)?;
    Ok(on_out(alloc, status::DONE, sink.into_vec()))
}

// The graph of the loops, with this text as its label.
fn draw_labelled(
    alloc: Global,
    counted: &CountedLoops<'_>,
    label: &[u8],
) -> Result<Outcome, AllocError>
    ensures { IfOk result (λ told. (care : CareSet) → IsCountedOnCare counted.now care →
        outcome_of told ≡ done (Prints (told_graph counted.now.net label.now (sweeps_needed counted.now.net care)))) }
{
    let mut sink = TextSink::new(alloc);
    tell_loops_graph(alloc, counted, label, &mut sink)?;
    Ok(on_out(alloc, status::DONE, sink.into_vec()))
}

// The same with the line of an accepted netlist as its label.
fn draw_loops(
    alloc: Global,
    counted: &CountedLoops<'_>,
    loose: Option<u32>,
) -> Result<Outcome, AllocError>
    ensures { IfOk result (λ told. (care : CareSet) → IsCountedOnCare counted.now care →
        outcome_of told ≡ done (Prints (loops_explained Dot counted.now.net care loose))) }
{
    let label = accepted_line(alloc, counted.looped(), loose)?;
    draw_labelled(alloc, counted, &label)
}

// What is told of an accepted netlist and of its loops, as lines or as a graph.
pub(crate) fn tell_loops_explained(
    alloc: Global,
    counted: &CountedLoops<'_>,
    loose: Option<u32>,
    form: Form,
) -> Result<Outcome, AllocError>
    ensures { IfOk result (λ told. (care : CareSet) → IsCountedOnCare counted.now care →
        outcome_of told ≡ done (Prints (loops_explained form counted.now.net care loose))) }
{
    match form {
        Form::Lines => list_loops(alloc, counted, loose),
        Form::Dot => draw_loops(alloc, counted, loose),
    }
}

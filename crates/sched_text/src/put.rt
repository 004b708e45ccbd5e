// The lines of a schedule.
ghost use Rattle.std.specs.Prelude.{◌≡◌, ◌<◌, ◌∷◌, [], All, codes, decimal, length, OnOk};
ghost use Rattle.std.specs.List.{flat_map};
ghost use Rattle.cyc_io.specs.Bits.{bits_text};
ghost use Rattle.cyc_io.specs.Taken.{IsAppended, sink_call};
ghost use Rattle.delay_core.specs.EventLists.{planned_at};
ghost use Rattle.sched_text.specs.Fitting.{IsOfGates, AreOfGates};
ghost use Rattle.sched_text.specs.Written.{after_blank, line_text, bits_words, start_word};
ghost use Rattle.sched_text.specs.Putting.{ages_text, past_text, event_text, events_text, round_text, rounds_text, tick_text, ticks_text, head_text, IsSmall, HasSmallAges, AreSmall, TicksAreSmall};

use cyc_base::Bits;
use cyc_io::{Failed, Sink, put_bits, put_number_between, put_numbered, put_two, write_whole};
use delay_core::{Events, RoundPlan, Schedule, TickPlan};
use netlist::Netlist;

fn put_some_bits<K: Sink>(sink: &mut K, bits: &[bool]) -> Result<(), Failed>
    ensures { IsAppended (32 ∷ bits_text bits.now) (sink_call K.put K.faults sink.old sink.new) result }
{
    write_whole(sink, b" ")?;
    put_bits(sink, bits)
}

// Appends bits behind a blank, where there are any.
#[tactic(auto, using(cyc_io::proofs::TakenLemmas::appended_none))]
fn put_bits_word<K: Sink>(sink: &mut K, bits: &[bool]) -> Result<(), Failed>
    ensures { IsAppended (flat_map after_blank (bits_words bits.now)) (sink_call K.put K.faults sink.old sink.new) result }
{
    match bits {
        [] => Ok(()),
        bits => put_some_bits(sink, bits),
    }
}

fn put_bits_line<K: Sink>(sink: &mut K, word: &[u8], bits: &[bool]) -> Result<(), Failed>
    ensures { IsAppended (line_text (word.now ∷ bits_words bits.now)) (sink_call K.put K.faults sink.old sink.new) result }
{
    write_whole(sink, word)?;
    put_bits_word(sink, bits)?;
    write_whole(sink, b"\n")
}

fn put_window<K: Sink>(sink: &mut K, window: u32) -> Result<(), Failed>
    ensures { IsAppended (line_text (codes "window" ∷ decimal window ∷ [])) (sink_call K.put K.faults sink.old sink.new) result }
{
    put_number_between(sink, b"window ", window, b"\n")
}

fn put_past<K: Sink>(sink: &mut K, past: &[Bits]) -> Result<(), Failed>
    ensures { IsAppended (past_text past.now) (sink_call K.put K.faults sink.old sink.new) result }
{
    for moment in past {
        put_bits_line(sink, b"past", moment.items())?;
    }
    Ok(())
}

fn start_word(free: bool) -> &'static [u8]
    ensures { result.now ≡ start_word free }
{
    if free { b"state" } else { b"latches" }
}

// Appends the lines before the first tick.
pub(crate) fn put_head<K: Sink>(sink: &mut K, schedule: &Schedule) -> Result<(), Failed>
    ensures text { IsAppended (head_text schedule.now) (sink_call K.put K.faults sink.old sink.new) result }
    ensures small { IsSmall schedule.now.window }
{
    let window = schedule.window;
    write_whole(sink, b"schedule 2\n")?;
    put_window(sink, window)?;
    put_past(sink, schedule.past.items())?;
    put_bits_line(sink, start_word(schedule.free), schedule.latches.items())?;
    put_bits_line(sink, b"gates", schedule.gates.items())
}

fn put_ages<K: Sink>(sink: &mut K, ages: &[u32]) -> Result<(), Failed>
    ensures text { IsAppended (ages_text ages.now) (sink_call K.put K.faults sink.old sink.new) result }
    ensures small { OnOk result (All IsSmall ages.now) }
{
    for age in ages {
        put_numbered(sink, b" ", *age)?;
    }
    Ok(())
}

fn put_event<K: Sink>(sink: &mut K, net: &Netlist, events: &Events, i: usize) -> Result<(), Failed>
    requires place { i < length events.now }
    requires gate { (planned_at events.now i).event.gate < length net.now.gates }
    ensures text { IsAppended (event_text net.now (planned_at events.now i)) (sink_call K.put K.faults sink.old sink.new) result }
    ensures small { OnOk result (HasSmallAges (planned_at events.now i)) }
{
    let gate = net.gate(events.gate(i));
    put_two(sink, b"e ", gate.name.bytes())?;
    put_ages(sink, events.ages(i))?;
    write_whole(sink, b"\n")
}

fn put_events<K: Sink>(sink: &mut K, net: &Netlist, events: &Events) -> Result<(), Failed>
    requires { All (IsOfGates (length net.now.gates)) events.now }
    ensures text { IsAppended (events_text net.now events.now) (sink_call K.put K.faults sink.old sink.new) result }
    ensures small { OnOk result (All HasSmallAges events.now) }
{
    for i in 0..events.len() {
        put_event(sink, net, events, i)?;
    }
    Ok(())
}

fn put_round<K: Sink>(sink: &mut K, net: &Netlist, round: &RoundPlan) -> Result<(), Failed>
    requires { AreOfGates (length net.now.gates) round.now }
    ensures text { IsAppended (round_text net.now round.now) (sink_call K.put K.faults sink.old sink.new) result }
    ensures small { OnOk result (AreSmall round.now) }
{
    write_whole(sink, b"round\n")?;
    put_events(sink, net, &round.events)
}

fn put_rounds<K: Sink>(sink: &mut K, net: &Netlist, rounds: &[RoundPlan]) -> Result<(), Failed>
    requires { All (AreOfGates (length net.now.gates)) rounds.now }
    ensures text { IsAppended (rounds_text net.now rounds.now) (sink_call K.put K.faults sink.old sink.new) result }
    ensures small { OnOk result (All AreSmall rounds.now) }
{
    for round in rounds {
        put_round(sink, net, round)?;
    }
    Ok(())
}

fn put_tick<K: Sink>(sink: &mut K, net: &Netlist, tick: &[RoundPlan]) -> Result<(), Failed>
    requires { All (AreOfGates (length net.now.gates)) tick.now }
    ensures text { IsAppended (tick_text net.now tick.now) (sink_call K.put K.faults sink.old sink.new) result }
    ensures small { OnOk result (All AreSmall tick.now) }
{
    write_whole(sink, b"tick\n")?;
    put_rounds(sink, net, tick)
}

// Appends the lines of all ticks.
pub(crate) fn put_ticks<K: Sink>(
    sink: &mut K,
    net: &Netlist,
    ticks: &[TickPlan],
) -> Result<(), Failed>
    requires { All (All (AreOfGates (length net.now.gates))) ticks.now }
    ensures text { IsAppended (ticks_text net.now ticks.now) (sink_call K.put K.faults sink.old sink.new) result }
    ensures small { OnOk result (TicksAreSmall ticks.now) }
{
    for tick in ticks {
        put_tick(sink, net, tick.items())?;
    }
    Ok(())
}

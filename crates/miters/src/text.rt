// The text of what is found of two netlists.
ghost use Rattle.std.specs.Prelude.{◌≤◌, ◌++◌, length};
ghost use Rattle.cyc_io.specs.Taken.{IsAppended, sink_call};
ghost use Rattle.netlist.specs.Netlists.{count, IsNetlist};
ghost use Rattle.refusals.specs.Refusals.{IsRefusalOf};
ghost use Rattle.report.specs.Verdicts.{refusal_text, vector_text};
ghost use Rattle.miters.specs.Answers.{IsAnswerOf};
ghost use Rattle.miters.specs.Texts.{answer_text};

use crate::answer::Answer;
use cyc_base::Name;
use cyc_io::{Failed, Sink, put_three, put_two, write_whole};
use netlist::Netlist;
use refusals::Refusal;
use report::{put_refusal, put_vector};

// The refusal of the first netlist or the second.
fn put_refused<K: Sink>(
    sink: &mut K,
    which: &[u8],
    net: &Netlist,
    refusal: &Refusal,
) -> Result<(), Failed>
    requires { IsRefusalOf net.now refusal.now }
    ensures { IsAppended (which.now ++ refusal_text net.now refusal.now) (sink_call K.put K.faults sink.old sink.new) result }
{
    write_whole(sink, which)?;
    put_refusal(net, refusal, sink)
}

// What differs, and on which vector.
fn put_differing<K: Sink>(
    sink: &mut K,
    words: &[u8],
    name: &Name,
    net: &Netlist,
    vector: &[bool],
) -> Result<(), Failed>
    requires valid { IsNetlist net.now }
    requires fits { length vector.now ≤ count net.now }
    ensures { IsAppended ((words.now ++ name.now) ++ vector_text net.now vector.now) (sink_call K.put K.faults sink.old sink.new) result }
{
    put_two(sink, words, name.bytes())?;
    put_vector(sink, net, vector)
}

/// Appends the text of what is found of two netlists: `equal`, or the first name that isn't matched, or the refusal of one
/// of them behind `first` or `second`, or the output or latch that differs with its vector. It takes no memory.
pub(crate) fn put_answer<K: Sink>(
    a: &Netlist,
    b: &Netlist,
    answer: &Answer,
    sink: &mut K,
) -> Result<(), Failed>
    requires { IsAnswerOf a.now b.now answer.now }
    ensures { IsAppended (answer_text a.now b.now answer.now) (sink_call K.put K.faults sink.old sink.new) result }
{
    match answer {
        Answer::Equal => write_whole(sink, b"equal\n"),
        Answer::Unmatched { name } => put_three(sink, b"unmatched ", name.bytes(), b"\n"),
        Answer::First(refusal) => put_refused(sink, b"first ", a, refusal),
        Answer::Second(refusal) => put_refused(sink, b"second ", b, refusal),
        Answer::Output { vector, at } => {
            let output = a.outputs()[*at as usize];
            put_differing(
                sink,
                b"differ output=",
                a.name_of(output),
                a,
                vector.items(),
            )
        }
        Answer::Latch { vector, at } => {
            let latch = a.latch(*at);
            put_differing(sink, b"differ latch=", &latch.name, a, vector.items())
        }
    }
}

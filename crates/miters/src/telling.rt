//! What is told of two netlists.

ghost use Rattle.std.specs.Prelude.{◌≡◌, IfOk};
ghost use Rattle.miters.specs.Answers.{IsAnswerOf};
ghost use Rattle.miters.specs.Texts.{answer_text};
ghost use Rattle.miters.specs.Told.{is_equal as is_equal_answer, IsToldOf};

use crate::answer::Answer;
use crate::text::put_answer;
use cyc_io::TextSink;
use netlist::Netlist;
use std::alloc::{AllocError, Global};

/// What is told of two netlists.
#[derive(Drop)]
pub struct Told {
    /// Whether they are equal.
    pub equal: bool,
    /// What was found, as a line.
    pub text: Vec<u8>,
}

fn is_equal(answer: &Answer) -> bool
    ensures { result ≡ is_equal_answer answer.now }
{
    match answer {
        Answer::Equal => true,
        Answer::Unmatched { name: _ } => false,
        Answer::First(_) => false,
        Answer::Second(_) => false,
        Answer::Output { vector: _, at: _ } => false,
        Answer::Latch { vector: _, at: _ } => false,
    }
}

fn text_of(alloc: Global, a: &Netlist, b: &Netlist, answer: &Answer) -> Result<Vec<u8>, AllocError>
    requires { IsAnswerOf a.now b.now answer.now }
    ensures { IfOk result (λ text. text.items ≡ answer_text a.now b.now answer.now) }
{
    let mut sink = TextSink::new(alloc);
    match put_answer(a, b, answer, &mut sink) {
        Ok(()) => Ok(sink.into_vec()),
        Err(_) => Err(AllocError),
    }
}

/// Tells of two netlists what was found of them: whether they are equal, and a line.
///
/// The condition is that a refusal is one of its netlist, and that a vector and a place are the first one's.
pub fn tell_answer(
    alloc: Global,
    a: &Netlist,
    b: &Netlist,
    answer: &Answer,
) -> Result<Told, AllocError>
    requires { IsAnswerOf a.now b.now answer.now }
    ensures { IfOk result (IsToldOf a.now b.now answer.now) }
{
    let text = text_of(alloc, a, b, answer)?;
    Ok(Told {
        equal: is_equal(answer),
        text,
    })
}

ghost use Rattle.std.specs.Prelude.{◌≡◌, IfOk};

use crate::problem::{Opened, Problem, Turn};
use std::alloc::{AllocError, Global};
use std::mem;

/// A frame that waits for the answer to the question of the frame above it.
#[derive(Drop)]
struct Waiting<Q, F> {
    question: Q,
    frame: F,
}

/// The answer to a question, from a frame of the work on it on. It fails only when out of memory.
pub fn answer<M, C, P: Problem<M, C>>(
    problem: &mut P,
    memory: &mut M,
    count: &mut C,
    alloc: Global,
    first: P::Frame,
    question: P::Question,
) -> Result<P::Answer, AllocError>
    requires { P.serves (P.world problem.old memory.old) first question }
    ensures answer { IfOk result (λ v. v ≡ P.answer_of (P.world problem.old memory.old) question) }
    ensures world { P.world problem.new memory.new ≡ P.world problem.old memory.old }
    ensures later { P.later memory.old memory.new }
{
    let mut below: Vec<Waiting<P::Question, P::Frame>> = Vec::new(alloc);
    let mut top = first;
    let mut wanted = question;
    'turns: loop {
        match problem.step(memory, count, &mut top, wanted)? {
            Turn::Asks(next) => match problem.open(memory, next)? {
                Opened::Known(value) => {
                    problem.give(memory, &mut top, wanted, next, &value)?;
                }
                Opened::Begun(frame) => {
                    let frame = mem::replace(&mut top, frame);
                    below.push(Waiting {
                        question: wanted,
                        frame,
                    })?;
                    wanted = next;
                }
            },
            Turn::Done(value) => match below.pop() {
                None => return Ok(value),
                Some(waiting) => {
                    let done = mem::replace(&mut top, waiting.frame);
                    problem.close(memory, done, wanted, &value)?;
                    problem.give(memory, &mut top, waiting.question, wanted, &value)?;
                    wanted = waiting.question;
                }
            },
        }
    }
}

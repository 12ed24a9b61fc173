ghost use Rattle.cube_server.specs.Inside.Ending.{Ends};
ghost use Rattle.file_passes.specs.Outside.{outside};
ghost use Rattle.cube_words.specs.Words.{texts_of};

use crate::answer::answer_of;
use crate::status::Status;
use crate::tell::tell;
use cube_outside::{Files, Gate, Sink, SinkFault};
use std::alloc::Global;
use std::sync::Wait;
use std::thread::Threads;

/// Computes the whole answer, and then writes it.
pub(crate) fn run<R: Threads + Wait + Sync, F: Files, S: Sink, G: Gate + Sync>(
    rt: &R,
    alloc: Global,
    words: &[String],
    files: &mut F,
    out: &mut S,
    gate: &G,
) -> Status
    ensures { Ends (texts_of words.now) (outside F.seen files.old files.new)
        (S.written out.old) (S.written out.new) (S.faults out.old) (S.faults out.new) result }
{
    let Ok(answer) = answer_of(rt, alloc, words, files, gate) else {
        return Status::NoMemory;
    };
    match tell(out, &answer.pieces) {
        Ok(()) => answer.status,
        Err(SinkFault::Failed) => Status::WriteFault,
        Err(SinkFault::Memory) => Status::NoMemory,
    }
}

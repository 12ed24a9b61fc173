ghost use Rattle.std.specs.Prelude.{◌≡◌, [], ◌∷◌, ◌<◌, ◌⊎◌};
ghost use Rattle.cube_outside.specs.Counts.{Rose};
ghost use Rattle.cube_server.specs.Answer.{IsDone, IsUsage, IsRefused, IsReadFault, HasNoPlan};
ghost use Rattle.cube_server.specs.Answer.{Wrote, WrotePart, WroteNothing};
ghost use Rattle.cube_server.specs.Known.{RefusesFile, FindsJob};
ghost use Rattle.cube_server.specs.Status.{IsOneOf, IsFault, IsOrFault};
ghost use Rattle.cube_words.specs.Words.{texts_of};
ghost use Rattle.cube_server.specs.declared.status.Status.TheVariants.{Done, Usage, Refused, ReadFault, WriteFault};
ghost use Rattle.cube_server.specs.declared.status.Status.TheVariants.{NoMemory};

use crate::run::run;
use crate::status::Status;
use cube_outside::{Files, Gate, Sink};
use std::sync::Wait;
use std::thread::Threads;

/// Does what the words ask for: runs users on a model, and writes what they were told and the history; or tells that a
/// model is accepted, with lines that explain a refusal where they are asked for; or prints the feeders that are found
/// for it; or runs a generated sample, and sums up what it leaves.
///
/// The words are those after the program's own name: a model file and 1 to 16 user files, or `--check` or `--feeders`
/// and a model file, or `--explain`, a model file and up to 16 user files, or `--sample` and its records. The model is
/// read and judged first; then the files of its cubes' rules, its scripts, all user files and the files of their loads,
/// each kind read in order and then judged in order. A name that was read isn't read again. A sample's files are made,
/// and none is asked for. Until then nothing waits for a thread: it is the call of [`run_passes::run_passes`].
///
/// Each user runs on a thread of its own and passes the gate at the parts of its commands; where a thread can't be
/// started, users run one after another. Nothing is written before all users are done; then each user's text is one
/// write, and the history is the last. Any other text is one write. Out of memory may take the place of any other end.
pub fn run_cubes<R: Threads + Wait + AllocGlobal + Sync, F: Files, S: Sink, G: Gate + Sync>(
    rt: &R,
    words: &[String],
    files: &mut F,
    out: &mut S,
    gate: &G,
) -> Status
    // What each status says, of the text that was written and of the files.
    ensures done { result ≡ Done → Wrote IsDone words.now F.seen files.old files.new S.written out.old out.new }
    ensures usage { result ≡ Usage → Wrote IsUsage words.now F.seen files.old files.new S.written out.old out.new }
    ensures refused { result ≡ Refused →
        Wrote IsRefused words.now F.seen files.old files.new S.written out.old out.new }
    ensures read_fault { result ≡ ReadFault →
        Wrote IsReadFault words.now F.seen files.old files.new S.written out.old out.new }
    ensures write_fault { result ≡ WriteFault →
        WrotePart words.now F.seen files.old files.new S.written out.old out.new
        × Rose (S.faults out.old) (S.faults out.new) }
    ensures no_memory { result ≡ NoMemory →
        WroteNothing words.now F.seen files.old files.new S.written out.old out.new
        ⊎ WrotePart words.now F.seen files.old files.new S.written out.old out.new }

    // Which status each cause has, out of memory aside.
    ensures a_read_failed { (F.seen files.old).faults < (F.seen files.new).faults → IsFault result }
    ensures a_write_failed { S.faults out.old < S.faults out.new → result ≡ WriteFault }
    ensures no_write_failed { (result ≡ WriteFault) ⊎ (S.faults out.new ≡ S.faults out.old) }
    ensures off_the_grammar { HasNoPlan (texts_of words.now) → IsOneOf (Usage ∷ WriteFault ∷ NoMemory ∷ []) result }
    ensures a_pass_refuses { RefusesFile (texts_of words.now) (F.seen files.old).known → IsOrFault Refused result }
    ensures nothing_refused { FindsJob (texts_of words.now) (F.seen files.old).known → IsOrFault Done result }
{
    run(rt, rt.alloc(), words, files, out, gate)
}

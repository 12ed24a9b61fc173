use crate::runs::{Run, run_of};
use case_lines::Texts;
use cube_server::{Status, run_cubes};
use std::alloc::{AllocError, Global};
use std::sync::Wait;
use std::thread::Threads;

/// A case of a run.
#[derive(Clone, Copy)]
pub struct RunCase<'a> {
    pub title: &'a str,
    pub lines: &'a str,
}

/// Runs each of these cases again, but those with a title among the lines `but`, with each of its reads and each of its
/// writes failing in turn, each write after no byte, after one and after all bytes of its piece. Tells how many cases
/// and how many such runs there were, and names each run that did not end as it should.
pub fn ends_with_faults<R: Threads + Wait + AllocGlobal + Sync>(
    rt: &R,
    texts: &Texts,
    cases: &[RunCase<'_>],
    but: &str,
) -> Result<Vec<u8>, AllocError> {
    let mut tally = Tally::new(rt.alloc());
    for case in cases {
        if !has_line(but, case.title) {
            try_faults(rt, texts, *case, &mut tally)?;
        }
    }
    tally.told()
}

fn has_line(lines: &str, line: &str) -> bool {
    lines.split('\n').any(|one| one == line)
}

// How many cases and runs there were, and a line for each run that did not end as it should.
#[derive(Drop)]
struct Tally {
    done: u64,
    reads: u64,
    writes: u64,
    wrong: Vec<u8>,
}

impl Tally {
    fn new(alloc: Global) -> Tally {
        Tally {
            done: 0,
            reads: 0,
            writes: 0,
            wrong: Vec::new(alloc),
        }
    }

    fn blame(&mut self, case: RunCase<'_>, what: &str, call: u64) -> Result<(), AllocError> {
        let alloc = *self.wrong.allocator();
        let title = case.title;
        let line = format!(in alloc; "not so where {what} {call} fails: {title}\n")?;
        Ok(self.wrong.extend_from_slice(line.as_bytes())?)
    }

    fn told(&self) -> Result<Vec<u8>, AllocError> {
        let alloc = *self.wrong.allocator();
        let (done, reads, writes) = (self.done, self.reads, self.writes);
        let counts = format!(in alloc;
            "{done} runs end with Done\na read failed {reads} times, and a write {writes} times\n"
        )?;
        let mut told = counts.into_bytes();
        if self.wrong.is_empty() {
            told.extend_from_slice(b"each of these runs ended as it should\n")?;
        }
        told.extend_from_slice(&self.wrong)?;
        Ok(told)
    }
}

// A run that has ended.
#[derive(Drop)]
struct End {
    status: Status,
    run: Run,
}

// What fails in a run.
#[derive(Clone, Copy)]
enum Fault {
    Nothing,
    // The read of this number.
    Read(u64),
    // The write of this number, which keeps so many bytes of its piece.
    Write(u64, usize),
}

// Tries each fault in the run of a case that ends with Done without one.
fn try_faults<R: Threads + Wait + AllocGlobal + Sync>(
    rt: &R,
    texts: &Texts,
    case: RunCase<'_>,
    tally: &mut Tally,
) -> Result<(), AllocError> {
    let Some(end) = end_with(rt, texts, case, Fault::Nothing)? else {
        return Ok(());
    };
    if end.status == Status::Done {
        tally.done = tally.done.saturating_add(1);
        try_reads(rt, texts, case, &end.run.files.asked, tally)?;
        try_writes(rt, texts, case, &end.run, tally)?;
    }
    Ok(())
}

// How the run of a case ends with this fault; None where the case is none of a run.
fn end_with<R: Threads + Wait + AllocGlobal + Sync>(
    rt: &R,
    texts: &Texts,
    case: RunCase<'_>,
    fault: Fault,
) -> Result<Option<End>, AllocError> {
    let Some(mut run) = run_of(rt.alloc(), texts, case.lines)? else {
        return Ok(None);
    };
    match fault {
        Fault::Nothing => {}
        Fault::Read(call) => run.files.fail_at(call)?,
        Fault::Write(call, kept) => run.out.fail_at(call, kept)?,
    }
    let status = run_cubes(rt, &run.words, &mut run.files, &mut run.out, &run.gate);
    Ok(Some(End { status, run }))
}

// Each of these names was asked for. The run in which its read fails has to end there, and to say so.
fn try_reads<R: Threads + Wait + AllocGlobal + Sync>(
    rt: &R,
    texts: &Texts,
    case: RunCase<'_>,
    names: &[Vec<u8>],
    tally: &mut Tally,
) -> Result<(), AllocError> {
    let mut call: u64 = 0;
    for name in names {
        call = call.saturating_add(1);
        tally.reads = tally.reads.saturating_add(1);
        let is_right = match end_with(rt, texts, case, Fault::Read(call))? {
            Some(end) => is_unread(&end, call, name),
            None => false,
        };
        if !is_right {
            tally.blame(case, "read", call)?;
        }
    }
    Ok(())
}

// Whether a run wrote that it can't read the file of this name, which was its last call.
fn is_unread(end: &End, call: u64, name: &[u8]) -> bool {
    if end.status != Status::ReadFault || end.run.files.calls != call {
        return false;
    }
    let Some(line) = end.run.out.bytes().strip_prefix(b"cannot read ") else {
        return false;
    };
    line.strip_suffix(b"\n") == Some(name)
}

// A write that fails has to be the last, behind the pieces of the writes before it; all pieces are what this run wrote,
// in which no write failed.
fn try_writes<R: Threads + Wait + AllocGlobal + Sync>(
    rt: &R,
    texts: &Texts,
    case: RunCase<'_>,
    done: &Run,
    tally: &mut Tally,
) -> Result<(), AllocError> {
    let whole = done.out.bytes();
    if whole.is_empty() {
        // there is no piece
        return Ok(());
    }
    let last = done.out.calls;
    let mut before = 0;
    for call in 1..=last {
        tally.writes = tally.writes.saturating_add(3);
        let none = written(rt, texts, case, whole, Fault::Write(call, 0))?;
        let one = written(rt, texts, case, whole, Fault::Write(call, 1))?;
        let all = written(rt, texts, case, whole, Fault::Write(call, usize::MAX))?;
        if !are_of_a_piece(before, none, one, all) {
            tally.blame(case, "write", call)?;
        }
        before = all.unwrap_or(before);
    }
    if before != whole.len() {
        tally.blame(case, "write", last)?;
    }
    Ok(())
}

// How much of the whole text a run writes in which this write fails. None where the run doesn't end so, or writes
// something else.
fn written<R: Threads + Wait + AllocGlobal + Sync>(
    rt: &R,
    texts: &Texts,
    case: RunCase<'_>,
    whole: &[u8],
    fault: Fault,
) -> Result<Option<usize>, AllocError> {
    let Some(end) = end_with(rt, texts, case, fault)? else {
        return Ok(None);
    };
    let out = &end.run.out;
    let is_last = match fault {
        Fault::Write(call, _) => out.calls == call,
        _ => false,
    };
    if end.status == Status::WriteFault && is_last && whole.starts_with(out.bytes()) {
        return Ok(Some(out.bytes().len()));
    }
    Ok(None)
}

// Whether these are the bytes written where a write keeps none, one and all bytes of its piece, behind so many. A piece
// has at least one byte.
fn are_of_a_piece(
    before: usize,
    none: Option<usize>,
    one: Option<usize>,
    all: Option<usize>,
) -> bool {
    match (none, one, all) {
        (Some(none), Some(one), Some(all)) => {
            none == before && before.checked_add(1) == Some(one) && one <= all
        }
        _ => false,
    }
}

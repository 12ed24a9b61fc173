ghost use Rattle.std.specs.Prelude.{◌≡◌, ℕ, ◌⊎◌, List, [], ◌∷◌, ◌++◌, Some, None, OnOk, OnErr, IsErrOf, IsSomeAnd};
ghost use Rattle.std.specs.Prelude.{take};
ghost use Rattle.std.specs.Io.KnownBytes.{Appends};
ghost use Rattle.cube_outside.specs.Bytes.{AppendsPart};
ghost use Rattle.cube_outside.specs.Counts.{one_more, Rose};
ghost use Rattle.cube_outside.specs.Failing.{kept_at};
ghost use Rattle.cube_outside.specs.declared.sink.SinkFault.TheVariants.{Failed, Memory};

use crate::sink::{Sink, SinkFault};
use std::alloc::{AllocError, Global};

/// A sink that keeps its bytes. A write fails at each call whose number was given to `fail_at`. Calls count from 1.
#[derive(Drop)]
pub struct MemorySink {
    pub bytes: Vec<u8>,
    /// The numbers of the calls that fail, each with the number of bytes that it keeps of its piece.
    pub failing: Vec<(u64, usize)>,
    /// How many writes were called.
    pub calls: u64,
    /// How many of them failed.
    pub count: u64,
}

impl MemorySink {
    /// Nothing written, and no call that fails.
    pub fn new(alloc: Global) -> MemorySink
        ensures empty { result.bytes.items ≡ [] }
        ensures free { result.failing.items ≡ [] }
        ensures calls { result.calls ≡ 0 }
        ensures faults { result.count ≡ 0 }
    {
        MemorySink {
            bytes: Vec::new(alloc),
            failing: Vec::new(alloc),
            calls: 0,
            count: 0,
        }
    }

    /// Has the write fail that is called as the given one, counted from 1, after the first `keep` bytes of its piece.
    pub fn fail_at(&mut self, call: u64, keep: usize) -> Result<(), AllocError>
        ensures added { OnOk result (self.new.failing.items ≡ self.old.failing.items ++ (call, keep) ∷ []) }
        ensures err { OnErr result (self.new.failing.items ≡ self.old.failing.items) }
        ensures bytes { self.new.bytes ≡ self.old.bytes }
        ensures calls { self.new.calls ≡ self.old.calls }
        ensures faults { self.new.count ≡ self.old.count }
    {
        self.failing.push((call, keep))?;
        Ok(())
    }

    /// All that was written.
    pub fn bytes(&self) -> &[u8]
        ensures { result.now ≡ self.now.bytes.items }
    {
        &self.bytes
    }

    // How many bytes this call keeps, if it fails.
    fn kept(&self, call: u64) -> Option<usize>
        ensures { result ≡ kept_at self.now.failing.items call }
    {
        self.failing
            .iter()
            .find(|entry| entry.0 == call)
            .map(|entry| entry.1)
    }
}

impl Sink for MemorySink {
    ghost written = { λ sink. Some sink.bytes.items };

    ghost faults = { λ sink. sink.count };

    /// Fails exactly at the calls that were given to `fail_at`, out of memory aside.
    fn write(&mut self, piece: &[u8]) -> Result<(), SinkFault>
        ensures failing { self.new.failing ≡ self.old.failing }
        ensures calls { self.new.calls ≡ one_more self.old.calls }
        ensures passed { OnOk result (kept_at self.old.failing.items self.new.calls ≡ None) }
        ensures kept { IsErrOf result Failed → IsSomeAnd (kept_at self.old.failing.items self.new.calls)
            (λ keep. self.new.bytes.items ≡ self.old.bytes.items ++ take keep piece.now) }
        ensures counted { IsErrOf result Failed → self.new.count ≡ one_more self.old.count }

        // What the trait says.
        ensures all { OnOk result (self.new.bytes.items ≡ self.old.bytes.items ++ piece.now) }
        ensures part { IsErrOf result Failed →
            AppendsPart (Some self.old.bytes.items) (Some self.new.bytes.items) piece.now }
        ensures nothing { IsErrOf result Memory → Appends (Some self.old.bytes.items) (Some self.new.bytes.items) [] }
        ensures failed { IsErrOf result Failed → Rose self.old.count self.new.count }
        ensures no_write_failed { IsErrOf result Failed ⊎ (self.new.count ≡ self.old.count) }
    {
        self.calls = self.calls.saturating_add(1);
        let Some(keep) = self.kept(self.calls) else {
            self.bytes.extend_from_slice(piece)?;
            return Ok(());
        };
        self.bytes
            .extend_from_slice(&piece[..keep.min(piece.len())])?;
        self.count = self.count.saturating_add(1);
        Err(SinkFault::Failed)
    }

    fn faults(&self) -> u64 {
        self.count
    }
}

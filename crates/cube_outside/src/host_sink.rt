ghost use Rattle.std.specs.Prelude.{◌≡◌, None};

use crate::sink::{Sink, SinkFault};
use std::io;
use std::io::Write;

/// Standard output. Nothing is known of what was written.
#[derive(Drop)]
pub struct HostSink<'a, R> {
    rt: &'a R,
    count: u64,
}

impl<'a, R: Print> HostSink<'a, R> {
    pub fn new(rt: &'a R) -> HostSink<'a, R>
        ensures { ⟦<HostSink<'a, R> as Sink>⟧.faults result ≡ 0 }
    {
        HostSink { rt, count: 0 }
    }
}

impl<R: Print> Sink for HostSink<'_, R> {
    ghost written = { λ _. None };

    ghost faults = { λ sink. sink.count };

    fn write(&mut self, piece: &[u8]) -> Result<(), SinkFault> {
        if io::writer(self.rt).write_all(piece).is_err() {
            self.count = self.count.saturating_add(1);
            return Err(SinkFault::Failed);
        }
        Ok(())
    }

    fn faults(&self) -> u64 {
        self.count
    }
}

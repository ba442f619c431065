//! A connection in memory.
ghost use Rattle.std.specs.Prelude.{Some};
ghost use Rattle.std.proofs.Common.{refl};

use crate::{Failed, Line, MemorySink, MemorySource, Sink, Source};

/// A connection over bytes in memory: it reads from the source, and writes to the sink.
#[derive(Drop)]
pub struct MemoryLine {
    pub source: MemorySource,
    pub sink: MemorySink,
}

impl Source for MemoryLine {
    ghost left = { λ l. Some l.source.left };

    ghost read_faults = { λ l. l.source.plan.faults };

    ghost beside_source = { λ l. record { 0 = Some l.sink.sent; 1 = l.sink.plan.faults } };

    fn read(&mut self, into: &mut [u8]) -> Result<usize, Failed> {
        self.source.read(into)
    }
}

impl Sink for MemoryLine {
    ghost sent = { λ l. Some l.sink.sent };

    ghost write_faults = { λ l. l.sink.plan.faults };

    ghost beside_sink = { λ l. record { 0 = Some l.source.left; 1 = l.source.plan.faults } };

    fn write(&mut self, from: &[u8]) -> Result<usize, Failed> {
        self.sink.write(from)
    }
}

impl Line for MemoryLine {
    ghost reads_beside = { λ _. refl };

    ghost writes_beside = { λ _. refl };
}

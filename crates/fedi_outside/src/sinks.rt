//! Where bytes go.
ghost use Rattle.std.specs.Prelude.{ℕ, ◌≡◌, ◌<◌, ◌≤◌, List, Option, Some, None, [], length};
ghost use Rattle.std.specs.Prelude.{is_some, IfOk};
ghost use Rattle.std.specs.Io.{WritesAtMost};
ghost use Rattle.std.specs.Io.KnownBytes.{WriteAppends};
ghost use Rattle.fedi_outside.specs.Causes.{HasCause, next_count};
ghost use Rattle.fedi_outside.specs.Plans.{moved, no_faults};
ghost use Rattle.fedi_outside.specs.Sinks.{FailsByPlan};

use crate::Failed;
use crate::plans::{FaultPlan, allowed};
use std::alloc::{AllocError, Global};
use std::marker::Model;

/// Something that bytes are written to.
pub trait Sink {
    /// The bytes that were written, if it reports them.
    ghost sent: { Self → Option (List ℕ) };

    /// How many writes failed. The count saturates at 2^64 - 1.
    ghost write_faults: { Self → ℕ };

    /// Further state that a write leaves unchanged: for a connection, what is to be read from it
    /// and its count of failed reads.
    ghost beside_sink: { Self → Option (List ℕ) × ℕ };

    /// Takes bytes from the front of `from`, and returns how many: at least one if there is one.
    /// After an error none were taken.
    fn write(&mut self, from: &[u8]) -> Result<usize, Failed>
        ensures bound { WritesAtMost result from.now }
        ensures some { 0 < length from.now → IfOk result (λ count. 0 < count) }
        ensures bytes { WriteAppends (sent self.old) (sent self.new) result from.now }
        ensures told { is_some (sent self.new) ≡ is_some (sent self.old) }
        ensures beside { beside_sink self.new ≡ beside_sink self.old }
        ensures cause { HasCause (write_faults self.old) (write_faults self.new) result };
}

/// A sink that keeps what is written in memory. It can be made to take only a few bytes at once and
/// to fail. It reports its bytes and counts its faults. A write for which there is room fails if
/// and only if it is planned to. A write that needs more room also fails if memory runs out.
#[derive(Drop)]
pub struct MemorySink {
    bytes: Vec<u8>,
    limit: Option<usize>,
    plan: FaultPlan,
}

impl Model for MemorySink {
    ghost use Rattle.std.specs.Prelude.{vec_capacity};
    ghost use Rattle.fedi_outside.specs.Sinks.{MemorySinkState};

    ghost Value = { MemorySinkState };

    ghost view = { λ s. record {
      sent = s.bytes.items;
      capacity = vec_capacity s.bytes;
      limit = s.limit;
      plan = s.plan;
    } };
}

impl MemorySink {
    /// An empty sink that takes all that it is given, and fails only if memory runs out.
    pub fn new(alloc: Global) -> Self
        ensures sent { result.sent ≡ [] }
        ensures limit { result.limit ≡ None }
        ensures plan { result.plan ≡ no_faults }
    {
        MemorySink {
            bytes: Vec::new(alloc),
            limit: None,
            plan: FaultPlan::new(alloc),
        }
    }

    /// The same sink, except that each write takes at most this many bytes; a 0 counts as 1.
    pub fn limited(self, limit: usize) -> Self
        ensures { result ≡ record self { limit = Some limit } }
    {
        let mut sink = self;
        sink.limit = Some(limit);
        sink
    }

    /// The same sink, except that the writes with these numbers, counted from 0, fail.
    pub fn failing(self, calls: Vec<u64>) -> Self
        ensures { result ≡ record self { plan = record self.plan { failing = calls.items } } }
    {
        let mut sink = self;
        sink.plan.set_failing(calls);
        sink
    }

    /// The same sink, with room for this many bytes in all, including those already written. The
    /// error is out of memory.
    pub fn with_room(self, bytes: usize) -> Result<Self, AllocError>
        ensures room { IfOk result (λ sink. bytes ≤ sink.capacity) }
        ensures same { IfOk result (λ sink. sink ≡ record self { capacity = sink.capacity }) }
    {
        let mut sink = self;
        let more = bytes.saturating_sub(sink.bytes.len());
        sink.bytes.reserve(more)?;
        Ok(sink)
    }

    /// The bytes that were written.
    pub fn bytes(&self) -> &[u8]
        ensures { result.now ≡ self.now.sent }
    {
        &self.bytes
    }
}

impl Sink for MemorySink {
    ghost sent = { λ s. Some s.sent };

    ghost write_faults = { λ s. s.plan.faults };

    ghost beside_sink = { λ _. record { 0 = None; 1 = 0 } };

    fn write(&mut self, from: &[u8]) -> Result<usize, Failed>
        ensures bytes { WriteAppends (Some self.old.sent) (Some self.new.sent) result from.now }
        ensures count { IfOk result (λ n. n ≡ moved self.old.limit (length from.now)) }
        ensures limit { self.new.limit ≡ self.old.limit }
        ensures capacity { self.old.capacity ≤ self.new.capacity }
        ensures planned { FailsByPlan self.old (length from.now) result }
        ensures plan { self.new.plan ≡ record self.old.plan {
          calls = next_count self.old.plan.calls;
          faults = self.new.plan.faults;
        } }
        ensures cause { HasCause self.old.plan.faults self.new.plan.faults result }
    {
        if self.plan.next_fails() {
            return Err(Failed);
        }
        let count = allowed(self.limit, from.len());
        if self.bytes.extend_from_slice(&from[..count]).is_err() {
            self.plan.count_fault();
            return Err(Failed);
        }
        Ok(count)
    }
}

//! Where bytes come from.
ghost use Rattle.std.specs.Prelude.{ℕ, ◌≡◌, ◌≤◌, List, Option, Some, None, [], drop, length};
ghost use Rattle.std.specs.Prelude.{is_some, is_ok, not, min, take, IsOkAnd, IfOk};
ghost use Rattle.std.specs.Io.{ReadsAtMost};
ghost use Rattle.std.specs.Io.KnownBytes.{ReadConsumes};
ghost use Rattle.fedi_outside.specs.Causes.{HasCause};
ghost use Rattle.fedi_outside.specs.Plans.{after_call, is_to_fail, no_faults};
ghost use Rattle.fedi_outside.specs.Sources.{given};

use crate::Failed;
use crate::plans::{FaultPlan, allowed};
use std::alloc::Global;
use std::marker::Model;

/// Something that bytes are read from.
pub trait Source {
    /// The bytes to come, if it reports them.
    ghost left: { Self → Option (List ℕ) };

    /// How many reads failed. The count saturates at 2^64 - 1.
    ghost read_faults: { Self → ℕ };

    /// Further state that a read leaves unchanged: for a connection, what was sent on it and its
    /// count of failed writes.
    ghost beside_source: { Self → Option (List ℕ) × ℕ };

    /// Writes the next bytes to the front of `into`, and returns how many. A result of 0 for an
    /// `into` that is not empty means the end of the input. After an error the bytes to come are as
    /// before.
    fn read(&mut self, into: &mut [u8]) -> Result<usize, Failed>
        ensures bound { ReadsAtMost result into.new }
        ensures bytes { ReadConsumes (left self.old) (left self.new) result into.new }
        ensures told { is_some (left self.new) ≡ is_some (left self.old) }
        ensures beside { beside_source self.new ≡ beside_source self.old }
        ensures cause { HasCause (read_faults self.old) (read_faults self.new) result };
}

/// A source over bytes in memory that never fails, and reports its bytes. Its count of faults is 0.
#[derive(Drop)]
pub struct CalmSource {
    bytes: Vec<u8>,
    // How many of the bytes were read.
    position: usize,
}

impl Model for CalmSource {
    ghost use Rattle.std.specs.Prelude.{ℕ, List, ◌≤◌, drop, length};

    ghost Value = { List ℕ };

    ghost view = { λ s. drop s.position s.bytes.items };

    ghost invariant = { λ s. s.position ≤ length s.bytes.items };
}

impl CalmSource {
    /// A source that gives these bytes, as many at once as there is room for.
    pub fn new(bytes: Vec<u8>) -> Self
        ensures { result ≡ bytes.items }
    {
        CalmSource { bytes, position: 0 }
    }

    // Copies as many of the bytes as there are, up to the limit, and returns how many.
    fn give(&mut self, into: &mut [u8], limit: usize) -> usize
        requires { limit ≤ length into.old }
        ensures count { result ≡ min limit (length self.old) }
        ensures front { take result into.new ≡ take result self.old }
        ensures left { self.new ≡ drop result self.old }
    {
        let left = &self.bytes[self.position..];
        let count = left.len().min(limit);
        into[..count].copy_from_slice(&left[..count]);
        self.position += count;
        count
    }
}

impl Source for CalmSource {
    ghost left = { λ s. Some s };

    ghost read_faults = { λ _. 0 };

    ghost beside_source = { λ _. record { 0 = None; 1 = 0 } };

    fn read(&mut self, into: &mut [u8]) -> Result<usize, Failed>
        ensures bound { ReadsAtMost result into.new }
        ensures bytes { ReadConsumes (Some self.old) (Some self.new) result into.new }
        ensures count { IsOkAnd result (λ n. n ≡ min (length into.new) (length self.old)) }
    {
        let room = into.len();
        Ok(self.give(into, room))
    }
}

/// A source over bytes in memory that can be made to give them in pieces and to fail. It reports
/// its bytes and counts its faults.
#[derive(Drop)]
pub struct MemorySource {
    source: CalmSource,
    pieces: Vec<usize>,
    plan: FaultPlan,
}

impl Model for MemorySource {
    ghost use Rattle.fedi_outside.specs.Sources.{MemorySourceState};

    ghost Value = { MemorySourceState };

    ghost view = { λ s. record { left = s.source; pieces = s.pieces.items; plan = s.plan } };
}

impl MemorySource {
    /// A source that gives these bytes, as many at once as there is room for, and never fails.
    pub fn new(alloc: Global, bytes: Vec<u8>) -> Self
        ensures left { result.left ≡ bytes.items }
        ensures pieces { result.pieces ≡ [] }
        ensures plan { result.plan ≡ no_faults }
    {
        MemorySource {
            source: CalmSource::new(bytes),
            pieces: Vec::new(alloc),
            plan: FaultPlan::new(alloc),
        }
    }

    /// The same source, except that the read with the number `k` gives at most `pieces[k]` bytes; a
    /// 0 counts as 1. Reads are counted from 0, including those that fail. A read without a piece
    /// gives as much as there is room for.
    pub fn cut(self, pieces: Vec<usize>) -> Self
        ensures { result ≡ record self { pieces = pieces.items } }
    {
        let mut source = self;
        source.pieces = pieces;
        source
    }

    /// The same source, except that the reads with these numbers, counted from 0, fail.
    pub fn failing(self, calls: Vec<u64>) -> Self
        ensures { result ≡ record self { plan = record self.plan { failing = calls.items } } }
    {
        let mut source = self;
        source.plan.set_failing(calls);
        source
    }
}

impl Source for MemorySource {
    ghost left = { λ s. Some s.left };

    ghost read_faults = { λ s. s.plan.faults };

    ghost beside_source = { λ _. record { 0 = None; 1 = 0 } };

    fn read(&mut self, into: &mut [u8]) -> Result<usize, Failed>
        ensures bound { ReadsAtMost result into.new }
        ensures bytes { ReadConsumes (Some self.old.left) (Some self.new.left) result into.new }
        ensures answer { is_ok result ≡ not (is_to_fail self.old.plan) }
        ensures count { IfOk result (λ n. n ≡ given self.old (length into.new)) }
        ensures pieces { self.new.pieces ≡ self.old.pieces }
        ensures plan { self.new.plan ≡ after_call self.old.plan }
    {
        let piece = self.pieces.get(self.plan.calls() as usize).copied();
        if self.plan.next_fails() {
            return Err(Failed);
        }
        let limit = allowed(piece, into.len());
        Ok(self.source.give(into, limit))
    }
}

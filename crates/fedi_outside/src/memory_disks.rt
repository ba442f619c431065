//! A disk in memory that may be made to fail.
ghost use Rattle.std.specs.Prelude.{◌≡◌, ◌∷◌, [], ◌++◌, ◌+◌, ◌≤◌, length, take, drop, Some, IfOk};
ghost use Rattle.std.specs.Prelude.{OnOk, OnErr};
ghost use Rattle.std.proofs.Common.{inl, refl};
ghost use Rattle.fedi_outside.specs.Causes.{next_count};
ghost use Rattle.fedi_outside.specs.Disks.{Elapses, HasTorn, LeavesOnly, MayTear, after_len};
ghost use Rattle.fedi_outside.specs.Disks.{after_reading, after_write, spliced};
ghost use Rattle.fedi_outside.specs.MemoryDisks.{FailsByPlan, contents_of, disk_crashes};
ghost use Rattle.fedi_outside.specs.MemoryDisks.{disk_shown, fresh_disk, is_failing};
ghost use Rattle.fedi_outside.specs.MemoryDiskLaws.{now_is_since, only_since};

use crate::Failed;
use crate::disks::Disk;
use std::alloc::{AllocError, Global};
use std::marker::Model;

/// A call that was made on a disk.
#[derive(Drop)]
pub enum Call {
    /// The size.
    Len,
    /// A read of this many bytes at this offset.
    Read { at: u64, count: usize },
    /// A write at this offset, and whether it was done.
    Write { at: u64, bytes: Vec<u8>, done: bool },
    /// A sync, and whether it was done.
    Sync { done: bool },
}

/// A disk in memory that can be made to fail. It reports its bytes and what a crash may leave,
/// keeps a record of its calls, and counts its faults. A call fails if and only if it is planned
/// to, with one exception: if memory for its record runs out, the call fails, has no other effect
/// and is not recorded. A failed write leaves the bytes as they were.
#[derive(Drop)]
pub struct MemoryDisk {
    alloc: Global,
    base: Vec<u8>,
    bytes: Vec<u8>,
    calls: Vec<Call>,
    failing: Vec<u64>,
    stop: Option<u64>,
    faults: u64,
}

impl Model for MemoryDisk {
    ghost use Rattle.std.specs.Prelude.{◌≡◌};
    ghost use Rattle.fedi_outside.specs.MemoryDisks.{MemoryDiskState, contents_of};

    ghost Value = { MemoryDiskState };

    ghost view = { λ d. record {
      base = d.base.items;
      calls = d.calls.items;
      failing = d.failing.items;
      stop = d.stop;
      faults = d.faults;
    } };

    ghost invariant = { λ d. d.bytes.items ≡ (contents_of d.base.items d.calls.items).reads };
}

impl MemoryDisk {
    /// A disk with these bytes, which count as synced. It fails only if memory runs out. The error
    /// is out of memory.
    pub fn new(alloc: Global, bytes: Vec<u8>) -> Result<Self, AllocError>
        ensures { IfOk result (λ disk. disk ≡ fresh_disk bytes.items) }
    {
        Ok(MemoryDisk {
            alloc,
            base: bytes.to_vec(alloc)?,
            bytes,
            calls: Vec::new(alloc),
            failing: Vec::new(alloc),
            stop: None,
            faults: 0,
        })
    }

    /// The same disk, except that the calls with these numbers, counted from 0, fail.
    pub fn failing(self, calls: Vec<u64>) -> Self
        ensures { result ≡ record self { failing = calls.items } }
    {
        let mut disk = self;
        disk.failing = calls;
        disk
    }

    /// The same disk, except that all calls from this number on, counted from 0, fail.
    pub fn stopping(self, call: u64) -> Self
        ensures { result ≡ record self { stop = Some call } }
    {
        let mut disk = self;
        disk.stop = Some(call);
        disk
    }

    /// The bytes that reads give.
    pub fn bytes(&self) -> &[u8]
        ensures { result.now ≡ (contents_of self.now.base self.now.calls).reads }
    {
        &self.bytes
    }

    /// The calls, in order.
    pub fn calls(&self) -> &[Call]
        ensures { result.now ≡ self.now.calls }
    {
        &self.calls
    }

    /// How many calls failed. The count saturates at 2^64 - 1.
    pub fn faults(&self) -> u64
        ensures { result ≡ self.now.faults }
    {
        self.faults
    }

    // Whether the next call is to fail.
    fn next_fails(&self) -> bool
        ensures { result ≡ is_failing self.now (length self.now.calls) }
    {
        let number = self.calls.len() as u64;
        self.failing.contains(&number) || self.stop.is_some_and(|stop| stop <= number)
    }

    // Counts a fault.
    fn fault(&mut self) -> Failed
        ensures { self.new ≡ record self.old { faults = next_count self.old.faults } }
    {
        self.faults = self.faults.saturating_add(1);
        Failed
    }
}

// Writes bytes over those at this offset, and past the end. The error is out of memory, and then
// nothing changes.
fn splice(bytes: &mut Vec<u8>, at: usize, from: &[u8]) -> Result<(), AllocError>
    requires { at ≤ length bytes.old.items }
    ensures ok { OnOk result (bytes.new.items ≡ spliced at from.now bytes.old.items) }
    ensures err { OnErr result (bytes.new.items ≡ bytes.old.items) }
{
    let inside = from.len().min(bytes.len() - at);
    bytes.extend_from_slice(&from[inside..])?;
    bytes[at..at + inside].copy_from_slice(&from[..inside]);
    Ok(())
}

// Records a call. The error is out of memory, and then nothing is recorded.
fn note(calls: &mut Vec<Call>, call: Call) -> Result<(), AllocError>
    ensures ok { OnOk result (calls.new.items ≡ calls.old.items ++ call ∷ []) }
    ensures err { OnErr result (calls.new.items ≡ calls.old.items) }
{
    calls.push(call)?;
    Ok(())
}

impl Disk for MemoryDisk {
    ghost shown = { disk_shown };

    ghost crashes = { disk_crashes };

    ghost told_size = { λ _. refl };

    ghost reads_stay = { λ _. inl refl };

    ghost counts_now = { λ d. now_is_since d.base d.calls };

    ghost only_now = { λ d. only_since d.base d.calls };

    fn len(&mut self) -> Result<u64, Failed>
        ensures planned { FailsByPlan self.old self.new result }
        ensures shown { disk_shown self.new ≡ after_len result (disk_shown self.old) }
        ensures time { Elapses (disk_crashes self.old) (disk_crashes self.new)
            (disk_crashes self.old).may_leave }
    {
        let fails = self.next_fails();
        let Ok(()) = note(&mut self.calls, Call::Len) else {
            return Err(self.fault());
        };
        if fails {
            return Err(self.fault());
        }
        Ok(self.bytes.len() as u64)
    }

    fn read_at(&mut self, at: u64, into: &mut [u8]) -> Result<(), Failed>
        requires inside { at + length into.old ≤ (disk_shown self.old).size }
        ensures planned { FailsByPlan self.old self.new result }
        ensures bytes { OnOk result (into.new ≡ take (length into.old)
            (drop at (contents_of self.old.base self.old.calls).reads)) }
        ensures shown { disk_shown self.new ≡ after_reading result (disk_shown self.old) }
        ensures time { Elapses (disk_crashes self.old) (disk_crashes self.new)
            (disk_crashes self.old).may_leave }
    {
        let fails = self.next_fails();
        let count = into.len();
        let Ok(()) = note(&mut self.calls, Call::Read { at, count }) else {
            return Err(self.fault());
        };
        if fails {
            return Err(self.fault());
        }
        let start = at as usize;
        into.copy_from_slice(&self.bytes[start..start + count]);
        Ok(())
    }

    fn write_at(&mut self, at: u64, from: &[u8]) -> Result<(), Failed>
        requires inside { at ≤ (disk_shown self.old).size }
        ensures planned { FailsByPlan self.old self.new result }
        ensures written { OnOk result
            (disk_shown self.new ≡ after_write at from.now (disk_shown self.old)) }
        ensures refused { OnErr result
            (HasTorn at from.now (disk_shown self.old) (disk_shown self.new)) }
        ensures time { Elapses (disk_crashes self.old) (disk_crashes self.new)
            (MayTear at from.now (disk_crashes self.old)) }
    {
        let done = !self.next_fails();
        let Ok(bytes) = from.to_vec(self.alloc) else {
            return Err(self.fault());
        };
        let Ok(()) = note(&mut self.calls, Call::Write { at, bytes, done }) else {
            return Err(self.fault());
        };
        if !done {
            return Err(self.fault());
        }
        let Ok(()) = splice(&mut self.bytes, at as usize, from) else {
            self.calls.pop();
            return Err(self.fault());
        };
        Ok(())
    }

    fn sync(&mut self) -> Result<(), Failed>
        ensures planned { FailsByPlan self.old self.new result }
        ensures durable { OnOk result (LeavesOnly (disk_crashes self.new)
            (contents_of self.old.base self.old.calls).reads) }
        ensures shown { disk_shown self.new ≡ after_reading result (disk_shown self.old) }
        ensures time { Elapses (disk_crashes self.old) (disk_crashes self.new)
            (disk_crashes self.old).may_leave }
    {
        let done = !self.next_fails();
        let Ok(()) = note(&mut self.calls, Call::Sync { done }) else {
            return Err(self.fault());
        };
        if !done {
            return Err(self.fault());
        }
        Ok(())
    }
}

//! Reading a disk ahead.
ghost use Rattle.std.specs.Prelude.{ℕ, ◌≡◌, ◌+◌, ◌≤◌, true, List, length, take, drop, Some, OnOk};
ghost use Rattle.fedi_outside.specs.Disks.{Elapses, after_reading};

use fedi_outside::{Disk, Failed};
use std::alloc::Global;

/// How many bytes are read ahead at most.
const AHEAD: u64 = 65_536;

/// A disk whose bytes are read ahead, so that many short reads in order make few calls of the disk.
/// In all else it is the disk.
#[derive(Drop)]
pub(crate) struct ReadAhead<D: Disk> {
    pub(crate) disk: D,
    // How far bytes are read ahead: the size of the disk when it was last asked for, or 0 since the
    // disk was written.
    pub(crate) size: u64,
    // The offset of the bytes that were read ahead.
    pub(crate) start: u64,
    // The bytes that were read ahead and not written since.
    pub(crate) bytes: Vec<u8>,
    ghost inside: { size ≤ (D.shown disk).size },
    ghost ahead: { (all : List ℕ) → (D.shown disk).reads ≡ Some all
        → bytes.items ≡ take (length bytes.items) (drop start all) },
}

impl<D: Disk> ReadAhead<D> {
    /// This disk, of which nothing was read yet.
    pub(crate) fn over(alloc: Global, disk: D) -> Self
        ensures { result.disk ≡ disk }
    {
        ReadAhead {
            disk,
            size: 0,
            start: 0,
            bytes: Vec::new(alloc),
        }
    }

    // Whether this many bytes at this offset were read ahead.
    fn holds(&self, at: u64, count: usize) -> bool
        ensures start { result ≡ true → self.now.start ≤ at }
        ensures end { result ≡ true → at + count ≤ self.now.start + length self.now.bytes.items }
    {
        let held = self.bytes.len();
        count <= held && at >= self.start && at - self.start <= (held - count) as u64
    }

    // Copies bytes that were read ahead.
    fn copy(&self, at: u64, into: &mut [u8])
        requires start { self.now.start ≤ at }
        requires end { at + length into.old ≤ self.now.start + length self.now.bytes.items }
        ensures { (all : List ℕ) → (D.shown self.now.disk).reads ≡ Some all
            → into.new ≡ take (length into.old) (drop at all) }
    {
        let from = (at - self.start) as usize;
        into.copy_from_slice(&self.bytes[from..from + into.len()]);
    }

    // Reads ahead from this offset on. If there is no memory for it, nothing is read ahead.
    fn read_ahead(&mut self, at: u64) -> Result<(), Failed>
        ensures shown { D.shown self.new.disk ≡ after_reading result (D.shown self.old.disk) }
        ensures time { Elapses (D.crashes self.old.disk) (D.crashes self.new.disk)
            (D.crashes self.old.disk).may_leave }
    {
        let count = self.size.saturating_sub(at).min(AHEAD);
        self.bytes.clear();
        if count == 0 || self.bytes.resize(count as usize, 0).is_err() {
            self.bytes.clear();
            return Ok(());
        }
        self.start = at;
        let read = self.disk.read_at(at, self.bytes.as_mut_slice());
        if read.is_err() {
            self.bytes.clear();
        }
        read
    }
}

impl<D: Disk> Disk for ReadAhead<D> {
    ghost shown = { λ a. D.shown a.disk };

    ghost crashes = { λ a. D.crashes a.disk };

    ghost told_size = { λ a. D.told_size a.disk };

    ghost reads_stay = { λ a. D.reads_stay a.disk };

    ghost counts_now = { λ a. D.counts_now a.disk };

    ghost only_now = { λ a. D.only_now a.disk };

    fn len(&mut self) -> Result<u64, Failed> {
        self.size = 0;
        let size = self.disk.len()?;
        self.size = size;
        Ok(size)
    }

    fn read_at(&mut self, at: u64, into: &mut [u8]) -> Result<(), Failed> {
        if !self.holds(at, into.len()) {
            self.read_ahead(at)?;
        }
        if self.holds(at, into.len()) {
            self.copy(at, into);
            return Ok(());
        }
        self.disk.read_at(at, into)
    }

    fn write_at(&mut self, at: u64, from: &[u8]) -> Result<(), Failed> {
        self.size = 0;
        self.bytes.clear();
        self.disk.write_at(at, from)
    }

    fn sync(&mut self) -> Result<(), Failed> {
        self.disk.sync()
    }
}

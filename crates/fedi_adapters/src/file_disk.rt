//! A file as a disk.
ghost use Rattle.std.specs.Prelude.{◌≡◌, IsSome, None};

use crate::health::Health;
use crate::locked_file::LockedFile;
use crate::raw_file::RawFile;
use fedi_outside::{Disk, Failed};
use std::fs::{File, Files};

/// A file as a disk, with the faults of the file. It reports neither what it holds nor what a crash
/// leaves.
#[derive(Drop)]
pub struct FileDisk<F> {
    file: F,
    // How many bytes it had when its size was last asked for, counting those written past the end
    // since; 0 before.
    size: u64,
}

impl<F: RawFile> FileDisk<F> {
    /// This file as a disk whose size was not asked for yet. No call is made on the file.
    pub fn over(file: F) -> Self
        ensures file { result.file ≡ file }
        ensures size { result.size ≡ 0 }
    {
        FileDisk { file, size: 0 }
    }
}

impl<'a, R: Files<File = File>> FileDisk<LockedFile<'a, R>> {
    /// The file at this path as a disk, with no fault so far. Nothing is opened or created yet.
    pub fn new(rt: &'a R, path: &'a str) -> Self
        ensures faults { result.file.faults ≡ 0 }
        ensures size { result.size ≡ 0 }
    {
        FileDisk::over(LockedFile::new(rt, path))
    }

    /// The same, and whether the last write or sync of the file failed is noted there.
    pub fn watched(rt: &'a R, path: &'a str, health: &'a Health) -> Self
        ensures watched { IsSome result.file.health }
        ensures faults { result.file.faults ≡ 0 }
        ensures size { result.size ≡ 0 }
    {
        FileDisk::over(LockedFile::new(rt, path).watched(health))
    }
}

// No clause of std says what a file holds, or what a crash leaves of it.
impl<F: RawFile> Disk for FileDisk<F> {
    ghost shown = { λ d. record { size = d.size; reads = None; faults = F.faults d.file } };

    ghost crashes = { λ _. record { clock = 0; may_leave = λ _. ⊥; left_since = λ _ _. ⊥ } };

    ghost told_size = { λ _. tt };

    ghost reads_stay = { λ _. tt };

    ghost counts_now = { λ _ _ _ _ left. left };

    ghost only_now = { λ _ _ left. left };

    fn len(&mut self) -> Result<u64, Failed> {
        self.size = self.file.size()?;
        Ok(self.size)
    }

    fn read_at(&mut self, at: u64, into: &mut [u8]) -> Result<(), Failed> {
        self.file.read_at(at, into)
    }

    fn write_at(&mut self, at: u64, from: &[u8]) -> Result<(), Failed> {
        self.file.write_at(at, from)?;
        // The file does not write past 2^64 - 1.
        self.size = self.size.max(at.saturating_add(from.len() as u64));
        Ok(())
    }

    fn sync(&mut self) -> Result<(), Failed> {
        self.file.sync()
    }
}

//! A file that only one process has open.
ghost use Rattle.std.specs.Prelude.{◌≡◌, ◌+◌, ◌^◌, ◌<◌, IsSome, length, is_ok, OnOk};
ghost use Rattle.fedi_outside.specs.Causes.{HasCause};

use crate::health::Health;
use crate::raw_file::RawFile;
use fedi_outside::Failed;
use std::fs::{File, Files, OpenOptions};
use std::io::{self, ErrorKind};
use std::os::unix::fs::{FileExt, OpenOptionsExt};

// What was found at the path.
#[derive(Drop)]
enum Found {
    // The file was not looked for yet, or could not be opened.
    Unknown,
    // There is no file.
    Missing,
    // The file, locked.
    Open(File),
}

// Whether the entry of the file in its folder is synced.
#[derive(Clone, Copy, PartialEq, Eq)]
enum Entry {
    // This process has created the file, and has not synced its entry yet.
    Created,
    // Another process has created it, and may not have got to the sync.
    Found,
    Synced,
}

/// A file of the machine. It is opened by the first call, and locked until this is dropped. If
/// another has the lock, each call fails until it is free. If there is no file, it counts as an
/// empty one, and the first write creates it, for its owner alone. Anything at the path that is not
/// a regular file, such as a folder, a pipe or a device, makes each call fail, and is left as it
/// is.
#[derive(Drop)]
pub struct LockedFile<'a, R: Files<File = File>> {
    rt: &'a R,
    path: &'a str,
    found: Found,
    entry: Entry,
    // Where it is noted whether the last write or sync failed.
    health: Option<&'a Health>,
    faults: u64,
}

impl<'a, R: Files<File = File>> LockedFile<'a, R> {
    /// The file at this path, with no fault so far. Nothing is opened or created yet.
    pub fn new(rt: &'a R, path: &'a str) -> Self
        ensures { result.faults ≡ 0 }
    {
        LockedFile {
            rt,
            path,
            found: Found::Unknown,
            entry: Entry::Found,
            health: None,
            faults: 0,
        }
    }

    /// This file, which notes there whether the last write or sync failed.
    pub fn watched(mut self, health: &'a Health) -> Self
        ensures watched { IsSome result.health }
        ensures faults { result.faults ≡ self.entry.faults }
    {
        self.health = Some(health);
        self
    }

    /// This file, which was opened at this path, with no fault so far. It may be of any kind, and
    /// is not locked.
    pub fn over(rt: &'a R, path: &'a str, file: File) -> Self
        ensures { result.faults ≡ 0 }
    {
        LockedFile {
            rt,
            path,
            found: Found::Open(file),
            entry: Entry::Found,
            health: None,
            faults: 0,
        }
    }

    // Looks for the file, unless that was done before.
    fn find(&mut self) -> io::Result<()>
        ensures { self.new.faults ≡ self.old.faults }
    {
        if let Found::Unknown = &self.found {
            self.found = match open_locked(self.rt, self.path, false) {
                Ok(file) => Found::Open(file),
                Err(error) if error.kind() == ErrorKind::NotFound => Found::Missing,
                Err(error) => return Err(error),
            };
        }
        Ok(())
    }

    fn find_size(&mut self) -> io::Result<u64>
        ensures { self.new.faults ≡ self.old.faults }
    {
        self.find()?;
        match &self.found {
            Found::Open(file) => Ok(file.metadata()?.len()),
            _ => Ok(0),
        }
    }

    fn read(&mut self, at: u64, into: &mut [u8]) -> io::Result<()>
        ensures { self.new.faults ≡ self.old.faults }
    {
        self.find()?;
        match &self.found {
            Found::Open(file) => file.read_exact_at(into, at),
            _ if into.is_empty() => Ok(()),
            _ => Err(ErrorKind::UnexpectedEof.into()),
        }
    }

    // A missing file is created. It is an error if another process has created it first.
    fn write(&mut self, at: u64, from: &[u8]) -> io::Result<()>
        ensures end { OnOk result (at + length from.now < 2 ^ 64) }
        ensures faults { self.new.faults ≡ self.old.faults }
    {
        if at.checked_add(from.len() as u64).is_none() {
            return Err(ErrorKind::FileTooLarge.into());
        }
        self.find()?;
        if let Found::Open(file) = &self.found {
            return file.write_all_at(from, at);
        }
        let file = open_locked(self.rt, self.path, true)?;
        let written = file.write_all_at(from, at);
        self.found = Found::Open(file);
        self.entry = Entry::Created;
        written
    }

    // A missing file has nothing to sync.
    fn sync_all(&mut self) -> io::Result<()>
        ensures { self.new.faults ≡ self.old.faults }
    {
        self.find()?;
        if let Found::Open(file) = &self.found {
            file.sync_data()?;
            self.sync_entry()?;
        }
        Ok(())
    }

    // Makes the entry in the folder durable, unless that was done before. A process that may not
    // read the folder cannot do that. The error counts only if this process has created the file,
    // since a process that created it earlier had to sync the entry.
    fn sync_entry(&mut self) -> io::Result<()>
        ensures { self.new.faults ≡ self.old.faults }
    {
        if self.entry == Entry::Synced {
            return Ok(());
        }
        match File::open(self.rt, folder_of(self.path)) {
            Ok(folder) => sync_folder(&folder)?,
            Err(error)
                if self.entry == Entry::Found && error.kind() == ErrorKind::PermissionDenied => {}
            Err(error) => return Err(error),
        }
        self.entry = Entry::Synced;
        Ok(())
    }

    // Notes whether a call that makes the file hold something failed.
    fn noted(&mut self, done: io::Result<()>) -> Result<(), Failed>
        ensures answer { is_ok result ≡ is_ok done }
        ensures cause { HasCause self.old.faults self.new.faults result }
    {
        if let Some(health) = self.health {
            health.note(done.is_err());
        }
        self.counted(done)
    }

    // Counts the fault of a failed call.
    fn counted<T: Drop>(&mut self, done: io::Result<T>) -> Result<T, Failed>
        ensures answer { is_ok result ≡ is_ok done }
        ensures cause { HasCause self.old.faults self.new.faults result }
    {
        match done {
            Ok(value) => Ok(value),
            Err(_) => {
                self.faults = self.faults.saturating_add(1);
                Err(Failed)
            }
        }
    }
}

impl<R: Files<File = File>> RawFile for LockedFile<'_, R> {
    ghost faults = { λ f. f.faults };

    fn size(&mut self) -> Result<u64, Failed> {
        let size = self.find_size();
        self.counted(size)
    }

    fn read_at(&mut self, at: u64, into: &mut [u8]) -> Result<(), Failed> {
        let read = self.read(at, into);
        self.counted(read)
    }

    fn write_at(&mut self, at: u64, from: &[u8]) -> Result<(), Failed> {
        let written = self.write(at, from);
        self.noted(written)
    }

    /// Makes everything that was written durable. The first call that succeeds makes the entry in
    /// the folder durable too.
    fn sync(&mut self) -> Result<(), Failed> {
        let synced = self.sync_all();
        self.noted(synced)
    }
}

// Opens the file at this path, or creates it for its owner alone, and locks it. It is an error if
// another has the lock, if a file that is to be created exists, or if what exists is not a regular
// file.
fn open_locked<R: Files<File = File>>(rt: &R, path: &str, create: bool) -> io::Result<File> {
    let mut options = OpenOptions::new();
    options
        .read(true)
        .write(true)
        .create_new(create)
        .mode(0o600);
    // If the program was started with a standard stream closed, the file gets the descriptor of
    // that stream, and what goes to the stream would go into the file. The clone's descriptor is
    // above those of the streams, and the first one is closed at once.
    let file = options.open(rt, path)?.try_clone()?;
    if !file.metadata()?.is_file() {
        return Err(ErrorKind::InvalidInput.into());
    }
    file.try_lock()?;
    Ok(file)
}

// Makes durable which files the folder contains. Some file systems, over a network or in a process
// of their own, have no such call for folders, and say so: `EINVAL`, `ENOSYS` or `EOPNOTSUPP`. Then
// nothing more can be done for the entry, and nothing has failed. A folder that could not be
// written, as on a full or a broken disk, is an error.
fn sync_folder(folder: &File) -> io::Result<()> {
    let Err(error) = folder.sync_all() else {
        return Ok(());
    };
    match error.kind() {
        ErrorKind::InvalidInput | ErrorKind::Unsupported => Ok(()),
        _ => Err(error),
    }
}

// The folder that contains the file at this path.
fn folder_of(path: &str) -> &str {
    match path.rsplit_once('/') {
        Some(("", _)) => "/",
        Some((folder, _)) => folder,
        None => ".",
    }
}

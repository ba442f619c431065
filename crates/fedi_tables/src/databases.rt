//! The file of a database, and the log beside it.

use sqlite::{Connection, Error, ErrorCode, File, FileStore, Unknown};
use std::fs::{self, OpenOptions};
use std::io::{self, ErrorKind};
use std::os::unix::fs::{MetadataExt, OpenOptionsExt};

/// A database in a file that this process alone has open.
pub(crate) type FileConnection = Connection<FileStore<File>>;

/// Why a database was not opened.
#[derive(Clone, Copy)]
pub(crate) enum Unopened {
    /// The file cannot be opened or made, another process has it, or it is no database.
    Failed,
    /// Out of memory.
    Memory,
}

/// The log beside an open database. It is known by its device and number too, so that another file
/// that has its name by now is not taken for it.
#[derive(Drop)]
pub(crate) struct Log {
    path: String,
    node: (u64, u64),
    size: u64,
}

impl Log {
    /// The log of the database at this path. SQLite puts it beside the file that a link leads to.
    pub(crate) fn find(rt: &HostRuntime, path: &str) -> io::Result<Log> {
        let real = fs::canonicalize(rt, path)?;
        let path = format!(in rt.alloc(); "{}-wal", real.as_str())?;
        let found = fs::symlink_metadata(rt, path.as_str())?;
        Ok(Log {
            path,
            node: (found.dev(), found.ino()),
            size: found.len(),
        })
    }

    // Removes the file, while nobody else can have opened it.
    fn remove(&self, rt: &HostRuntime) -> io::Result<()> {
        let found = fs::symlink_metadata(rt, self.path.as_str())?;
        if (found.dev(), found.ino()) != self.node {
            return Ok(());
        }
        fs::remove_file(rt, self.path.as_str())
    }
}

/// How many bytes a log with a commit has at least: its header, and one page of the smallest size
/// with its own.
const SHORTEST: u64 = 32 + 24 + 512;

// Whether the file at this path has contents, and no log with contents is beside it.
fn is_alone(rt: &HostRuntime, path: &str) -> io::Result<bool> {
    if fs::metadata(rt, path)?.len() == 0 {
        return Ok(false);
    }
    match Log::find(rt, path) {
        Ok(log) => Ok(log.size == 0),
        Err(error) => Ok(error.kind() == ErrorKind::NotFound),
    }
}

// Creates the file for its owner alone, if there is none: it has what was written to some members
// only. If it cannot be created, opening it fails too.
fn make_private(rt: &HostRuntime, path: &str) {
    let _ = OpenOptions::new()
        .write(true)
        .create_new(true)
        .mode(0o600)
        .open(rt, path);
}

/// Opens the database of the file at this path, or makes it if the file is missing or empty. The
/// whole file is read and tested. Until the connection is dropped, nobody else can open it. After an
/// error a file that had contents is as before, with no log beside it if there was none.
///
/// A commit is one sync. It supposes, as SQLite does, that a power failure leaves each byte of a
/// write that was under way as it was or as it was to be.
pub(crate) fn open_database(rt: &HostRuntime, path: &str) -> Result<FileConnection, Unopened> {
    make_private(rt, path);
    let alone = is_alone(rt, path).unwrap_or(false);
    match Connection::open_from(rt, path, false, Unknown) {
        Ok(conn) => Ok(conn),
        Err((error, left)) => {
            if let Some(left) = left {
                // The files stay locked until the log is removed.
                let files = left.into_files();
                if alone {
                    let _ = remove_uncommitted(rt, path);
                }
                drop(files);
            }
            Err(match error {
                Error::SqliteFailure(ErrorCode::OutOfMemory) => Unopened::Memory,
                _ => Unopened::Failed,
            })
        }
    }
}

// Removes the log that an open left which was refused, unless it has a commit. The file had
// contents and no log before, so without it is as it was.
fn remove_uncommitted(rt: &HostRuntime, path: &str) -> io::Result<()> {
    let log = Log::find(rt, path)?;
    if log.size < SHORTEST {
        log.remove(rt)?;
    }
    Ok(())
}

/// Makes one file of a database: its log, which was found when it was opened, is copied into the
/// file and removed. If that fails, both files are left, and together hold all that was committed.
pub(crate) fn close_database(rt: &HostRuntime, conn: FileConnection, log: Option<Log>) {
    match conn.close_files() {
        Ok(files) => {
            // The files stay locked until the log is removed.
            if let Some(log) = log {
                let _ = log.remove(rt);
            }
            drop(files);
        }
        Err((_, store)) => drop(store),
    }
}

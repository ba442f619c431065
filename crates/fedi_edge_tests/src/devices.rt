//! Paths that are not a file for a store, and a file that takes nothing.
use fedi_adapters::{FileDisk, LockedFile};
use fedi_outside::{Disk, Failed};
use fedi_rows::expect;
use std::fs::File;
use std::test::Fail;

// Paths that are not regular files.
const OTHERS: [&str; 5] = [".", "/dev/null", "/dev/zero", "/dev/full", "/dev/tty"];

// Whether no byte is written to this disk, and no sync reported as done. It is asked twice, since
// the first call opens the file.
fn takes_nothing<D: Disk>(disk: &mut D) -> bool {
    let mut fails = || disk.write_at(0, b"FEDIJRN1") == Err(Failed) && disk.sync() == Err(Failed);
    fails() && fails()
}

#[test]
fn a_disk_is_a_regular_file_and_tells_what_it_did_not_take(rt: HostRuntime) -> Result<(), Fail> {
    for path in OTHERS {
        let mut disk = FileDisk::new(&rt, path);
        expect(takes_nothing(&mut disk) && disk.len() == Err(Failed), path)?;
    }
    // If it is opened beforehand, `/dev/full` has no room for what is written, and has nothing to
    // sync.
    let path = "/dev/full";
    let file = File::options().read(true).write(true).open(&rt, path)?;
    let mut disk = FileDisk::over(LockedFile::over(&rt, path, file));
    expect(
        disk.len() == Ok(0) && takes_nothing(&mut disk),
        "a disk without room",
    )
}

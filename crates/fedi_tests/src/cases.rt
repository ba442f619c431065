//! What runs start with.

ghost use Rattle.std.specs.Prelude.{◌<◌, IfOk, vec_len};

use fedi_effects::Seed;
use fedi_outside::{
    Bench, FixedClock, MemoryDisk, MemoryDoor, MemoryEntropy, MemoryLink, MemorySink, MemorySource,
};
use fedi_program::Connection;
use fedi_rows::{disk_of, store_of};
use std::alloc::{AllocError, Global};

/// When the example town was made, and when its runs take place: 1994-11-06T08:49:37Z.
pub const SECONDS: u64 = 784_111_777;

/// The bytes that keys are drawn from.
pub const KEY: &[u8] = b"0123456789abcdefghijklmnopqrstuv";

/// A seed, the same in each test.
pub fn seed() -> Seed {
    Seed::new(b"0123456789abcdef")
}

/// A run: its command line, its disk, what else lies outside, and what fails there.
#[derive(Clone, Copy)]
pub struct Case<'a> {
    /// The command line.
    pub line: &'a str,
    /// The records of the store on the disk, or the bytes of the disk, if there are no records.
    pub records: &'a [&'a [u8]],
    pub bytes: &'a [u8],
    /// Which calls of the disk fail, and from which on all do.
    pub failing_calls: &'a [u64],
    pub stop: u64,
    /// The pieces of the input, which ends after this many bytes.
    pub input: &'a [&'a str],
    pub cut_at: usize,
    /// How many bytes the first read takes, whether the others take one each, and which reads fail.
    pub first: usize,
    pub in_bytes: bool,
    pub failing_reads: &'a [u64],
    /// How many bytes one write takes, and which writes fail.
    pub write_limit: usize,
    pub failing_writes: &'a [u64],
    /// The bytes that keys are drawn from, and which draws fail.
    pub drawn: &'a [u8],
    pub failing_draws: &'a [u64],
    /// The time of the clock.
    pub seconds: u64,
    /// What other servers reply to the requests of the run, in order, and which exchanges fail.
    pub replies: &'a [&'a str],
    pub failing_exchanges: &'a [u64],
}

/// A run of this command line over a store of these records, in which nothing fails.
pub fn calm<'a>(line: &'a str, records: &'a [&'a [u8]]) -> Case<'a> {
    Case {
        line,
        records,
        bytes: &[],
        failing_calls: &[],
        stop: u64::MAX,
        input: &[],
        cut_at: usize::MAX,
        first: usize::MAX,
        in_bytes: false,
        failing_reads: &[],
        write_limit: usize::MAX,
        failing_writes: &[],
        drawn: KEY,
        failing_draws: &[],
        seconds: SECONDS,
        replies: &[],
        failing_exchanges: &[],
    }
}

/// A connection over a store of these records, with this input, in which nothing fails.
pub fn inetd<'a>(records: &'a [&'a [u8]], input: &'a [&'a str]) -> Case<'a> {
    Case {
        input,
        ..calm("fedi inetd s", records)
    }
}

/// The arguments of a command line: the program's name, and then the arguments, each after a space.
/// The error is out of memory.
pub fn arguments_of(alloc: Global, line: &str) -> Result<Vec<String>, AllocError> {
    let mut arguments = Vec::new(alloc);
    for word in line.split(' ').skip(1) {
        arguments.push(String::from_str(alloc, word)?)?;
    }
    Ok(arguments)
}

// How many bytes each read takes of an input of this length.
fn pieces_of(alloc: Global, case: &Case, length: usize) -> Result<Vec<usize>, AllocError> {
    if case.in_bytes {
        Ok(vec![in alloc; 1; length]?)
    } else {
        Ok(vec![in alloc; case.first; 1]?)
    }
}

fn source_of(alloc: Global, case: &Case) -> Result<MemorySource, AllocError> {
    let mut bytes = Vec::new(alloc);
    for piece in case.input {
        bytes.extend_from_slice(piece.as_bytes())?;
    }
    bytes.truncate(case.cut_at);
    let pieces = pieces_of(alloc, case, bytes.len())?;
    let failing = case.failing_reads.to_vec(alloc)?;
    Ok(MemorySource::new(alloc, bytes).cut(pieces).failing(failing))
}

fn sink_of(alloc: Global, case: &Case) -> Result<MemorySink, AllocError> {
    let failing = case.failing_writes.to_vec(alloc)?;
    Ok(
        MemorySink::new(alloc)
            .limited(case.write_limit)
            .failing(failing),
    )
}

pub(crate) fn connection_of(
    alloc: Global,
    case: &Case,
) -> Result<Connection<MemorySource, MemorySink, FixedClock>, AllocError> {
    Ok(Connection {
        input: source_of(alloc, case)?,
        out: sink_of(alloc, case)?,
        clock: FixedClock::new(case.seconds),
    })
}

pub(crate) fn entropy_of(alloc: Global, case: &Case) -> Result<MemoryEntropy, AllocError> {
    let failing = case.failing_draws.to_vec(alloc)?;
    Ok(MemoryEntropy::new(alloc, case.drawn.to_vec(alloc)?).failing(failing))
}

pub(crate) fn disk_in(alloc: Global, case: &Case) -> Result<MemoryDisk, AllocError> {
    let failing = case.failing_calls.to_vec(alloc)?;
    let disk = if case.records.is_empty() {
        disk_of(alloc, case.bytes)?
    } else {
        MemoryDisk::new(alloc, store_of(alloc, case.records)?)?
    };
    Ok(disk.failing(failing).stopping(case.stop))
}

fn link_of(alloc: Global, case: &Case) -> Result<MemoryLink, AllocError> {
    let mut replies = Vec::new(alloc);
    for reply in case.replies {
        replies.push(reply.as_bytes().to_vec(alloc)?)?;
    }
    let failing = case.failing_exchanges.to_vec(alloc)?;
    Ok(MemoryLink::new(alloc, replies).failing(failing))
}

/// One bench, to which nobody connects.
pub(crate) fn benches_of(
    alloc: Global,
    case: &Case,
) -> Result<Vec<Bench<MemoryDoor, MemoryLink>>, AllocError>
    ensures { IfOk result (λ benches. 0 < vec_len benches) }
{
    let mut benches = Vec::new(alloc);
    benches.push(Bench {
        door: MemoryDoor::new(alloc, Vec::new(alloc))?,
        link: link_of(alloc, case)?,
    })?;
    Ok(benches)
}

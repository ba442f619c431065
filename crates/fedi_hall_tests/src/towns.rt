//! A town in memory, and runs of the program over it.
ghost use Rattle.std.specs.Prelude.{◌<◌, All, IfOk, vec_len};
ghost use Rattle.fedi_hall.specs.Works.{IsWaiting};

use fedi_effects::Seed;
use fedi_outside::{
    Bench, Clock, Door, FixedClock, Link, MemoryDisk, MemoryDoor, MemoryEntropy, MemoryLink,
    MemorySink, MemorySource, MemoryVault, Source,
};
use fedi_program::{Connection, Ended, address_of, run, run_alone};
use fedi_selection::MemorySelection;
use std::alloc::{AllocError, Global};
use std::sync::Wait;
use std::test::Fail;
use std::thread::Threads;

/// The moment of all events, in seconds since 1970-01-01T00:00:00Z.
pub const SECONDS: u64 = 784_111_777;

/// The bytes that ana's key is drawn from, and her key.
const DRAWN: &[u8] = b"0123456789abcdefghijklmnopqrstuv";

const KEY: &str = "303132333435363738396162636465666768696a6b6c6d6e6f70717273747576";

fn seed() -> Seed {
    Seed::new(b"0123456789abcdef")
}

fn words(alloc: Global, line: &str) -> Result<Vec<String>, AllocError> {
    let mut words = Vec::new(alloc);
    for word in line.split(' ') {
        words.push(String::from_str(alloc, word)?)?;
    }
    Ok(words)
}

// A bench whose door gives no connection, and whose link has no reply.
fn idle_bench(alloc: Global) -> Result<Vec<Bench<MemoryDoor, MemoryLink>>, AllocError>
    ensures { IfOk result (λ benches. 0 < vec_len benches) }
{
    let mut benches = Vec::new(alloc);
    benches.push(Bench {
        door: MemoryDoor::new(alloc, Vec::new(alloc))?,
        link: silent(alloc),
    })?;
    Ok(benches)
}

/// A source of these bytes.
pub fn source(alloc: Global, input: &str) -> Result<MemorySource, AllocError> {
    Ok(MemorySource::new(alloc, Vec::from_slice(alloc, input.as_bytes())?))
}

// A connection over this source, dated by this clock.
fn connection<S, C>(alloc: Global, input: S, clock: C) -> Connection<S, MemorySink, C> {
    Connection {
        input,
        out: MemorySink::new(alloc),
        clock,
    }
}

/// The disk after a command, which has to succeed, over this source and by this clock; and what it
/// wrote.
pub fn done_by<S: Source + Drop, C: Clock + Drop>(
    alloc: Global,
    line: &str,
    input: S,
    clock: C,
    disk: MemoryDisk,
) -> Result<(MemoryDisk, Vec<u8>), Fail> {
    let words = words(alloc, line)?;
    let None = address_of(&words) else {
        return Err(Fail::new(line));
    };
    let mut connection = connection(alloc, input, clock);
    let mut entropy = MemoryEntropy::new(alloc, DRAWN.to_vec(alloc)?);
    let benches = idle_bench(alloc)?;
    let ended = run_alone(
        alloc,
        seed(),
        &words,
        &mut connection,
        disk,
        MemoryDisk::new(alloc, Vec::new(alloc))?,
        &mut MemoryVault::new(alloc),
        &mut MemorySelection::new(alloc),
        benches,
        &mut entropy,
    );
    if ended.status == 0 {
        let written = connection.out.bytes().to_vec(alloc)?;
        Ok((ended.disk, written))
    } else {
        Err(Fail::new(line))
    }
}

// The same with this input, at the moment of all events.
fn done(
    alloc: Global,
    line: &str,
    input: &str,
    disk: MemoryDisk,
) -> Result<(MemoryDisk, Vec<u8>), Fail> {
    let clock = FixedClock::new(SECONDS);
    done_by(alloc, line, source(alloc, input)?, clock, disk)
}

/// The disk after a command, which has to succeed, with this input.
pub fn disk_after(
    alloc: Global,
    line: &str,
    input: &str,
    disk: MemoryDisk,
) -> Result<MemoryDisk, Fail> {
    let (disk, _) = done(alloc, line, input, disk)?;
    Ok(disk)
}

/// Whether `check` prints this of the store of the disk, and then its tip.
pub fn has_counts(alloc: Global, disk: MemoryDisk, printed: &str) -> Result<bool, Fail> {
    let (_, out) = done(alloc, "check s", "", disk)?;
    match out.as_slice().strip_prefix(printed.as_bytes()) {
        Some(tip) => Ok(tip.starts_with(b"tip ")),
        None => Ok(false),
    }
}

/// A link that nobody is to use.
pub fn silent(alloc: Global) -> MemoryLink {
    MemoryLink::new(alloc, Vec::new(alloc))
}

/// The disk of a store with the member ana.
pub fn town(alloc: Global) -> Result<MemoryDisk, Fail> {
    let empty = MemoryDisk::new(alloc, Vec::new(alloc))?;
    let made = disk_after(alloc, "init s club.example", "", empty)?;
    disk_after(alloc, "add-actor s ana", "", made)
}

/// Serves the connections of the doors, and delivers over the links, by this clock.
pub fn serve_by<
    R: Threads + Wait + Sync,
    W: Door + Send + Drop,
    K: Link + Send + Drop,
    C: Clock + Sync + Drop,
>(
    rt: &R,
    alloc: Global,
    clock: C,
    disk: MemoryDisk,
    benches: Vec<Bench<W, K>>,
) -> Result<Ended<MemoryDisk, W, K>, AllocError>
    requires some { 0 < vec_len benches }
    requires waiting { All (λ b. IsWaiting W.out W.idle b.door) benches.items }
{
    let words = words(alloc, "serve s 127.0.0.1:80")?;
    let mut connection = connection(alloc, source(alloc, "")?, clock);
    let mut entropy = MemoryEntropy::new(alloc, Vec::new(alloc));
    Ok(run(
        rt,
        alloc,
        seed(),
        &words,
        &mut connection,
        disk,
        MemoryDisk::new(alloc, Vec::new(alloc))?,
        &mut MemoryVault::new(alloc),
        &mut MemorySelection::new(alloc),
        benches,
        &mut entropy,
    ))
}

/// The same at the moment of all events.
pub fn serve<R: Threads + Wait + Sync, W: Door + Send + Drop, K: Link + Send + Drop>(
    rt: &R,
    alloc: Global,
    disk: MemoryDisk,
    benches: Vec<Bench<W, K>>,
) -> Result<Ended<MemoryDisk, W, K>, AllocError>
    requires some { 0 < vec_len benches }
    requires waiting { All (λ b. IsWaiting W.out W.idle b.door) benches.items }
{
    serve_by(rt, alloc, FixedClock::new(SECONDS), disk, benches)
}

/// A post of this body by ana.
pub fn post(alloc: Global, body: &str) -> Result<String, AllocError> {
    let mut text = String::from_str(
        alloc,
        "POST /users/ana/outbox HTTP/1.1\r\nHost: club.example\r\n",
    )?;
    text.push_str("Authorization: Bearer ")?;
    text.push_str(KEY)?;
    text.push_str("\r\nContent-Type: application/activity+json\r\nContent-Length: ")?;
    text.push_str(&format!(in alloc; "{}", body.len())?)?;
    text.push_str("\r\n\r\n")?;
    text.push_str(body)?;
    Ok(text)
}

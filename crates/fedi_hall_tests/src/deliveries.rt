//! Workers that deliver side by side over one store, in memory.
ghost use Rattle.std.specs.Prelude.{IfOk};
ghost use Rattle.fedi_hall.specs.Works.{IsWaiting};

use crate::clocks::{Slow, Ticking};
use crate::held::{Gate, HeldLink, IdleDoor, Part};
use crate::towns::{SECONDS, disk_after, has_counts, post, serve, serve_by, silent, town};
use fedi_outside::{Bench, Door, MemoryDisk, MemoryDoor, MemoryLink, MemoryRow, Rest, Turn};
use std::alloc::{AllocError, Global};
use std::sync::Wait;
use std::sync::atomic::AtomicU64;
use std::test::Fail;
use std::thread::Threads;
use std::time::Clock;

/// lake.example becomes a peer.
const PEER: &str = "\
    add-peer s lake.example \
    303132333435363738396162636465666768696a6b6c6d6e6f70717273747576 127.0.0.1:8081";

const NOTE: &str =
    "{\"type\":\"Note\",\"to\":[\"https://lake.example/users/eve\"],\"content\":\"Hi\"}";

/// The actor document of eve.
const EVE: &str = "\
    HTTP/1.1 200 OK\r\n\r\n\
    {\"id\":\"https://lake.example/users/eve\",\
    \"inbox\":\"https://lake.example/users/eve/inbox\"}";

/// A delivery was taken.
const TAKEN: &str = "HTTP/1.1 202 Accepted\r\n\r\n";

/// How many entries a store has if a note of ana is to be delivered from it to eve.
const ENTRIES: u64 = 4;

/// How many bytes seal a record.
const SEAL: usize = 32;

// The disk of such a store, with this many notes.
fn waiting(alloc: Global, notes: u32) -> Result<MemoryDisk, Fail> {
    let mut disk = disk_after(alloc, PEER, "", town(alloc)?)?;
    let post = post(alloc, NOTE)?;
    for _ in 0..notes {
        disk = disk_after(alloc, "inetd s", &post, disk)?;
    }
    // A disk of its own, whose calls are counted from 0.
    Ok(MemoryDisk::new(alloc, disk.bytes().to_vec(alloc)?)?)
}

// A link that takes this many deliveries.
fn taking(alloc: Global, deliveries: u32) -> Result<MemoryLink, AllocError> {
    let mut replies = Vec::new(alloc);
    for _ in 0..deliveries {
        replies.push(Vec::from_slice(alloc, EVE.as_bytes())?)?;
        replies.push(Vec::from_slice(alloc, TAKEN.as_bytes())?)?;
    }
    Ok(MemoryLink::new(alloc, replies))
}

// A door that is idle twice, and then closed.
fn idle_twice(alloc: Global) -> Result<MemoryDoor, AllocError>
    ensures { IfOk result (λ door. IsWaiting
        ⟦<MemoryDoor as Door>⟧.out ⟦<MemoryDoor as Door>⟧.idle door) }
{
    let mut turns = Vec::new(alloc);
    turns.push(Turn::Idle)?;
    turns.push(Turn::Idle)?;
    MemoryDoor::new(alloc, turns)
}

// The two rests of a door, if it had no other turns.
fn told(rows: &[MemoryRow]) -> Option<(Rest, Rest)> {
    match rows {
        [MemoryRow::Rested(first), MemoryRow::Rested(second)] => Some((*first, *second)),
        _ => None,
    }
}

// The two rests of the door of a bench that is idle twice, how many exchanges its link had, and the
// disk.
fn rests<R: Threads + Wait + Sync>(
    rt: &R,
    alloc: Global,
    disk: MemoryDisk,
) -> Result<(Option<(Rest, Rest)>, usize, MemoryDisk), Fail> {
    let mut benches = Vec::with_capacity(alloc, 1)?;
    benches.push(Bench {
        door: idle_twice(alloc)?,
        link: taking(alloc, 2)?,
    })?;
    let ended = serve(rt, alloc, disk, benches)?;
    match ended.benches.as_slice() {
        [bench] if ended.status == 0 => {
            let (told, asked) = (told(bench.door.rows()), bench.link.asked().len());
            Ok((told, asked, ended.disk))
        }
        _ => Err(Fail::new("the status")),
    }
}

// How many calls of the disk an opening makes.
fn calls_of_an_opening<R: Threads + Wait + Sync>(
    rt: &R,
    alloc: Global,
    disk: MemoryDisk,
) -> Result<u64, Fail> {
    let mut benches = Vec::with_capacity(alloc, 1)?;
    benches.push(Bench {
        door: MemoryDoor::new(alloc, Vec::new(alloc))?,
        link: silent(alloc),
    })?;
    let ended = serve(rt, alloc, disk, benches)?;
    Ok(ended.disk.calls().len() as u64)
}

fn expect(holds: bool, what: &str) -> Result<(), Fail> {
    if holds { Ok(()) } else { Err(Fail::new(what)) }
}

// What is due is delivered while no connection waits, and is then due no more.
#[test]
fn a_worker_delivers_what_is_due(rt: HostRuntime) -> Result<(), Fail> {
    let (told, asked, disk) = rests(&rt, rt.alloc(), waiting(rt.alloc(), 1)?)?;
    let tried = Rest::Tried { claimed: ENTRIES };
    let nothing = Rest::Nothing {
        front: ENTRIES + 2,
        moment: SECONDS,
    };
    expect(told == Some((tried, nothing)), "what the door was told")?;
    expect(asked == 2, "the exchanges")?;
    let counts = "entries 5 actors 1 activities 1 queue 0\n";
    expect(has_counts(rt.alloc(), disk, counts)?, "the counts")
}

// The first call of the disk by which an attempt would be kept fails. So the delivery is due as
// before, and only the result of the next attempt is kept.
#[test]
fn an_attempt_that_is_not_kept_is_made_again(rt: HostRuntime) -> Result<(), Fail> {
    let opening = calls_of_an_opening(&rt, rt.alloc(), waiting(rt.alloc(), 1)?)?;
    let mut failing = Vec::new(rt.alloc());
    failing.push(opening)?;
    let disk = waiting(rt.alloc(), 1)?.failing(failing);
    let (told, asked, disk) = rests(&rt, rt.alloc(), disk)?;
    let Some((Rest::Tried { claimed: ENTRIES }, Rest::Tried { .. })) = told else {
        return Err(Fail::new("what the door was told"));
    };
    expect(asked == 4, "the exchanges")?;
    let kept = MemoryDisk::new(rt.alloc(), disk.bytes().to_vec(rt.alloc())?)?;
    let counts = "entries 5 actors 1 activities 1 queue 0\n";
    expect(has_counts(rt.alloc(), kept, counts)?, "the counts")
}

// What the door of a bench was told, which was idle twice by a clock that advances, and the disk.
fn slow_rests<R: Threads + Wait + Sync>(
    rt: &R,
    alloc: Global,
    clock: Ticking,
    disk: MemoryDisk,
) -> Result<(Option<(Rest, Rest)>, MemoryDisk), Fail> {
    let mut benches = Vec::with_capacity(alloc, 1)?;
    benches.push(Bench {
        door: idle_twice(alloc)?,
        link: Slow {
            inner: taking(alloc, 1)?,
            clock,
        },
    })?;
    let ended = serve_by(rt, alloc, clock, disk, benches)?;
    match ended.benches.as_slice() {
        [bench] if ended.status == 0 => Ok((told(bench.door.rows()), ended.disk)),
        _ => Err(Fail::new("the status")),
    }
}

// Whether the last record of the disk's store is of this moment. Its bytes end in the moment, and
// its seal and a closed gate come after them.
fn ends_at(disk: &MemoryDisk, moment: u64) -> bool {
    let Some(records) = disk.bytes().strip_suffix(b"\0") else {
        return false;
    };
    match records.len().checked_sub(SEAL) {
        Some(end) => records[..end].ends_with(&moment.to_be_bytes()),
        None => false,
    }
}

// The first reading of the clock is for the claim. Then the look-up and the post each take a
// second, so that what came of them is known at the fourth one.
#[test]
fn an_attempt_is_dated_after_its_exchanges(rt: HostRuntime) -> Result<(), Fail> {
    let seconds = AtomicU64::new(SECONDS);
    let disk = waiting(rt.alloc(), 1)?;
    let (told, disk) = slow_rests(&rt, rt.alloc(), Ticking::new(&seconds), disk)?;
    let tried = Rest::Tried { claimed: ENTRIES };
    let nothing = Rest::Nothing {
        front: ENTRIES + 2,
        moment: SECONDS + 4,
    };
    expect(told == Some((tried, nothing)), "what the door was told")?;
    expect(ends_at(&disk, SECONDS + 3), "the moment")
}

// ---- two workers

// A bench whose door is idle once, and whose link takes one delivery.
fn bench<'a, R: Wait + Clock + Sync>(
    rt: &'a R,
    alloc: Global,
    gates: (&'a Gate, &'a Gate),
    part: Part,
) -> Result<Bench<IdleDoor<'a, R>, HeldLink<'a, R>>, AllocError>
    ensures { IfOk result (λ bench. IsWaiting
        ⟦<IdleDoor<'a, R> as Door>⟧.out ⟦<IdleDoor<'a, R> as Door>⟧.idle bench.door) }
{
    Ok(Bench {
        door: IdleDoor::new(rt, gates.0),
        link: HeldLink::new(rt, gates.1, part, taking(alloc, 1)?),
    })
}

// What two benches are left with: for each the rest of its door, how many exchanges its link had,
// and how many of them failed.
#[derive(Drop)]
struct Left {
    told: [Option<Rest>; 2],
    counts: [(usize, u64); 2],
    disk: MemoryDisk,
}

// Lets each of two workers look once for what is due. The doors open the first gate when nothing is
// due, and the links are held back by the second, or open it.
fn side_by_side<'a, R: Threads + Wait + Clock + Sync>(
    rt: &'a R,
    alloc: Global,
    gates: (&'a Gate, &'a Gate),
    parts: (Part, Part),
    disk: MemoryDisk,
) -> Result<Left, Fail> {
    let mut benches = Vec::with_capacity(alloc, 2)?;
    benches.push(bench(rt, alloc, gates, parts.0)?)?;
    benches.push(bench(rt, alloc, gates, parts.1)?)?;
    let ended = serve(rt, alloc, disk, benches)?;
    match ended.benches.as_slice() {
        [one, two] if ended.status == 0 => Ok(Left {
            told: [one.door.told(), two.door.told()],
            counts: [one.link.counts(), two.link.counts()],
            disk: ended.disk,
        }),
        _ => Err(Fail::new("the status")),
    }
}

// The worker that comes first claims the delivery, and its link is held back until the other's door
// learns that nothing is due: so what is claimed is not claimed again.
#[test]
fn a_delivery_is_claimed_once(rt: HostRuntime) -> Result<(), Fail> {
    let gate = Gate::new();
    let disk = waiting(rt.alloc(), 1)?;
    let parts = (Part::Waits, Part::Waits);
    let left = side_by_side(&rt, rt.alloc(), (&gate, &gate), parts, disk)?;
    let tried = Some(Rest::Tried { claimed: ENTRIES });
    let nothing = Some(Rest::Nothing {
        front: ENTRIES + 1,
        moment: SECONDS,
    });
    let [first, second] = left.told;
    let [one, two] = left.counts;
    let is_first = first == tried && second == nothing && one == (2, 0) && two == (0, 0);
    let is_second = first == nothing && second == tried && one == (0, 0) && two == (2, 0);
    expect(is_first || is_second, "who claimed it")?;
    let counts = "entries 5 actors 1 activities 1 queue 0\n";
    expect(has_counts(rt.alloc(), left.disk, counts)?, "the counts")
}

// The first link is held back until the second has been asked: so both attempts are made at once,
// and both are kept.
#[test]
fn two_deliveries_are_tried_at_once(rt: HostRuntime) -> Result<(), Fail> {
    let (unused, gate) = (Gate::new(), Gate::new());
    let disk = waiting(rt.alloc(), 2)?;
    let parts = (Part::Waits, Part::Opens);
    let left = side_by_side(&rt, rt.alloc(), (&unused, &gate), parts, disk)?;
    expect(left.counts == [(2, 0), (2, 0)], "the exchanges")?;
    let counts = "entries 7 actors 1 activities 2 queue 0\n";
    expect(has_counts(rt.alloc(), left.disk, counts)?, "the counts")
}

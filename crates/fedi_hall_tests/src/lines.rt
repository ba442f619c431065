//! Workers that serve lines side by side over one store, in memory.
ghost use Rattle.std.specs.Prelude.{IfOk};
ghost use Rattle.fedi_hall.specs.Works.{IsWaiting};
ghost use Rattle.fedi_outside.specs.Doors.{IsNewLine};
ghost use Rattle.fedi_outside.specs.MemoryDoors.{line_reads, line_sent, line_writes};

use crate::clocks::{Slow, Ticking};
use crate::held::{Gate, HeldDoor, Part};
use crate::towns::{SECONDS, done_by, post, serve, silent, source, town};
use fedi_outside::{
    Bench, Door, MemoryDoor, MemoryLine, MemoryLink, MemoryRow, MemorySink, MemorySource, Turn,
};
use std::alloc::{AllocError, Global};
use std::sync::Wait;
use std::sync::atomic::AtomicU64;
use std::test::Fail;
use std::thread::Threads;
use std::time::Clock;

const NOTE: &str = "\
    {\"type\":\"Note\",\"to\":[\"https://www.w3.org/ns/activitystreams#Public\"],\
    \"content\":\"Hi\"}";

const OBJECT: &str = "GET /users/ana/o/1 HTTP/1.1\r\nHost: club.example\r\n\r\n";

const OUTBOX: &str = "GET /users/ana/outbox?page=0 HTTP/1.1\r\nHost: club.example\r\n\r\n";

/// What is sent on a line, in pieces that are read one by one; whether it waits for the other; and
/// the statuses of the replies, in order, and a text in the last of them.
#[derive(Clone, Copy)]
struct Row<'a> {
    pieces: &'a [&'a str],
    part: Part,
    statuses: &'a [&'a str],
    text: &'a str,
}

fn door<'a, R: Wait + Clock + Sync>(
    rt: &'a R,
    alloc: Global,
    gate: &'a Gate,
    row: &Row,
) -> Result<HeldDoor<'a, R>, AllocError>
    ensures { IfOk result (λ door. IsWaiting
        ⟦<HeldDoor<'a, R> as Door>⟧.out ⟦<HeldDoor<'a, R> as Door>⟧.idle door) }
{
    let mut bytes = Vec::new(alloc);
    let mut lengths = Vec::new(alloc);
    for piece in row.pieces {
        bytes.extend_from_slice(piece.as_bytes())?;
        lengths.push(piece.len())?;
    }
    let source = MemorySource::new(alloc, bytes).cut(lengths);
    Ok(HeldDoor::new(rt, gate, row.part, source, MemorySink::new(alloc)))
}

fn has_replies(sent: &[u8], row: &Row) -> bool {
    let Ok(text) = str::from_utf8(sent) else {
        return false;
    };
    let mut replies = text.split("HTTP/1.1 ").skip(1);
    row.statuses.iter().all(|status| replies
        .next()
        .is_some_and(|reply| reply.starts_with(*status)))
        && replies.next().is_none()
        && text.contains(row.text)
}

fn have_replies<R>(benches: &[Bench<HeldDoor<'_, R>, MemoryLink>], row: &Row, other: &Row) -> bool {
    match benches {
        [one, two] => has_replies(one.door.sent(), row) && has_replies(two.door.sent(), other),
        _ => false,
    }
}

// Fails unless the lines of the rows, each at a bench of its own, have their replies.
fn expect<'a, R: Threads + Wait + Clock + Sync>(
    rt: &'a R,
    alloc: Global,
    gate: &'a Gate,
    row: &Row,
    other: &Row,
) -> Result<(), Fail> {
    let mut benches = Vec::with_capacity(alloc, 2)?;
    benches.push(Bench {
        door: door(rt, alloc, gate, row)?,
        link: silent(alloc),
    })?;
    benches.push(Bench {
        door: door(rt, alloc, gate, other)?,
        link: silent(alloc),
    })?;
    let ended = serve(rt, alloc, town(alloc)?, benches)?;
    if ended.status == 0 && have_replies(&ended.benches, row, other) {
        Ok(())
    } else {
        Err(Fail::new("a line lacks a reply"))
    }
}

// The first line holds its second request back until the reply to the other's post was written, and
// that post is read only after the first request was answered. So the workers run side by side, and
// one that has only read before finds what another posted.
#[test]
fn a_line_that_only_reads_finds_what_another_posted(rt: HostRuntime) -> Result<(), Fail> {
    let post = post(rt.alloc(), NOTE)?;
    let reads = Row {
        pieces: &[OBJECT, OBJECT],
        part: Part::Waits,
        statuses: &["404", "200"],
        text: "\"content\":\"Hi\"",
    };
    let posts = Row {
        pieces: &[&post],
        part: Part::Opens,
        statuses: &["201"],
        text: "Location: https://club.example/users/ana/a/1",
    };
    let gate = Gate::new();
    expect(&rt, rt.alloc(), &gate, &reads, &posts)
}

#[test]
fn a_line_that_posts_finds_its_own_post(rt: HostRuntime) -> Result<(), Fail> {
    let post = post(rt.alloc(), NOTE)?;
    let own = Row {
        pieces: &[&post, OUTBOX],
        part: Part::Free,
        statuses: &["201", "200"],
        text: "\"content\":\"Hi\"",
    };
    let none = Row {
        pieces: &[],
        part: Part::Free,
        statuses: &[],
        text: "",
    };
    let gate = Gate::new();
    expect(&rt, rt.alloc(), &gate, &own, &none)
}

// The reply to a post, and the object that it made, by a clock that shows 08:49:37 when the post
// begins to come, and a second more when it has come.
#[test]
fn a_post_is_dated_after_it_has_come(rt: HostRuntime) -> Result<(), Fail> {
    let seconds = AtomicU64::new(SECONDS);
    let clock = Ticking::new(&seconds);
    let mut input = post(rt.alloc(), NOTE)?;
    input.push_str(OBJECT)?;
    let slow = Slow {
        inner: source(rt.alloc(), &input)?,
        clock,
    };
    let (_, sent) = done_by(rt.alloc(), "inetd s", slow, clock, town(rt.alloc())?)?;
    let text = str::from_utf8(&sent).unwrap_or_default();
    for part in [
        "HTTP/1.1 201 Created\r\nDate: Sun, 06 Nov 1994 08:49:38 GMT\r\n",
        "\"published\":\"1994-11-06T08:49:38Z\"",
    ] {
        if !text.contains(part) {
            return Err(Fail::new(part));
        }
    }
    Ok(())
}

fn is_answered(row: &MemoryRow) -> bool {
    match row {
        MemoryRow::Spoken { line, .. } => line.sink.bytes().starts_with(b"HTTP/1.1 404 "),
        MemoryRow::Rested(_) => false,
    }
}

// A line that asks for an object, of which these reads fail.
fn asking(alloc: Global, failing: &[u64]) -> Result<MemoryLine, AllocError>
    ensures { IfOk result (λ line. IsNewLine line_sent line_reads line_writes line) }
{
    let bytes = Vec::from_slice(alloc, OBJECT.as_bytes())?;
    Ok(MemoryLine {
        source: MemorySource::new(alloc, bytes).failing(failing.to_vec(alloc)?),
        sink: MemorySink::new(alloc),
    })
}

// Of two lines of one door, the first of which cannot be read, the second is served.
#[test]
fn a_line_that_fails_ends_alone(rt: HostRuntime) -> Result<(), Fail> {
    let mut turns = Vec::new(rt.alloc());
    turns.push(Turn::Line(asking(rt.alloc(), &[0])?))?;
    turns.push(Turn::Line(asking(rt.alloc(), &[])?))?;
    let mut benches = Vec::new(rt.alloc());
    benches.push(Bench {
        door: MemoryDoor::new(rt.alloc(), turns)?,
        link: silent(rt.alloc()),
    })?;
    let ended = serve(&rt, rt.alloc(), town(rt.alloc())?, benches)?;
    let answered = match ended.benches.as_slice() {
        [bench] => match bench.door.rows() {
            [failed, served] => !is_answered(failed) && is_answered(served),
            _ => false,
        },
        _ => false,
    };
    if ended.status == 0 && answered {
        Ok(())
    } else {
        Err(Fail::new("the lines"))
    }
}

// The status for the turns of one door, which is idle or not before it fails or closes.
#[test]
fn a_door_that_fails_ends_with_11(rt: HostRuntime) -> Result<(), Fail> {
    for (is_idle, fails, status) in [(true, false, 0), (false, true, 11), (true, true, 11)] {
        let mut turns = Vec::new(rt.alloc());
        if is_idle {
            turns.push(Turn::Idle)?;
        }
        if fails {
            turns.push(Turn::Failed)?;
        }
        let mut benches = Vec::new(rt.alloc());
        benches.push(Bench {
            door: MemoryDoor::new(rt.alloc(), turns)?,
            link: silent(rt.alloc()),
        })?;
        let ended = serve(&rt, rt.alloc(), town(rt.alloc())?, benches)?;
        if ended.status != status {
            return Err(Fail::new("the status"));
        }
    }
    Ok(())
}

//! Stores in memory: making, opening and posts whose disk fails or stops at each call.

use crate::cases::{Case, calm, inetd};
use crate::delivering::WAITING;
use crate::example::{HOSTED, MEMBERS, TOWN};
use crate::program::{FIRST, NOTE, SECOND};
use crate::runs::{Left, are_texts, calls_after, calls_of_an_opening, ends, left_by};
use fedi_rows::{expect, expect_at};
use std::alloc::{AllocError, Global};
use std::test::Fail;

/// The store of club.example, made at 1994-11-06T08:49:37Z.
const CLUB: &[u8] =
    b"FEDIJRN2\x01\0\0\0\0\0\0\0\x19\x01\0\0\0\x0cclub.example\0\0\0\0\x2e\xbc\x98\xa1\
    \x05\xd6|\xa8t\xd5,\x1a\x1a\x84iNY-\xd4\xb0\x96&\xd3\xf5Q;\x91\x8b\x99wH\0X\x8e\x16\x8c\0";

const MADE: &str = "made club.example\n";

/// Whether a run over a disk with these bytes ends with this status, prints this, and leaves these
/// bytes.
fn is_left(
    alloc: Global,
    case: &Case,
    status: u8,
    printed: &str,
    after: &[u8],
) -> Result<bool, AllocError> {
    let left = left_by(alloc, case)?;
    Ok(left.status == status && are_texts(&left.out, &[printed]) && left.disk.as_slice() == after)
}

/// Command lines that only read a store, its records, and then the status and what is printed.
const READINGS: [(&str, &[&[u8]], u8, &str); 5] = [
    (
        "fedi check s",
        &TOWN,
        0,
        "entries 7 actors 4 activities 2 queue 0\n\
         tip cde5aaac9d8b979c586d0bb23639014a23ee0593acb6b2f08196d5134513522a\n",
    ),
    // An entry that may not occur there.
    (
        "fedi check s",
        &[HOSTED, HOSTED],
        4,
        "damaged at record 1\n",
    ),
    (
        "fedi export s actors",
        &TOWN,
        0,
        "name,locked,activities,followers\nana,no,2,0\nben,no,0,0\ncleo,no,0,0\ndan,yes,0,0\n",
    ),
    (
        "fedi export s activities",
        &TOWN,
        0,
        "place,id,actor,type,state,moment\n\
0,https://club.example/users/ana/a/1,https://club.example/users/ana,Create,done,1994-11-06T08:49:37Z\n\
1,https://club.example/users/ana/a/2,https://club.example/users/ana,Create,done,1994-11-06T08:49:37Z\n",
    ),
    (
        "fedi export s queue",
        &WAITING,
        0,
        "activity,host,attempts,due\n\
https://club.example/users/ana/a/1,lake.example,0,784111777\n\
https://hill.example/users/dora/a/8,lake.example,0,784111777\n",
    ),
];

fn reads(alloc: Global, row: &(&str, &[&[u8]], u8, &str)) -> Result<bool, AllocError> {
    let (line, records, status, printed) = *row;
    ends(alloc, &calm(line, records), status, &[printed], 0)
}

/// The making of a store on a disk with these bytes.
fn making(bytes: &[u8]) -> Case<'_> {
    Case {
        bytes,
        ..calm("fedi init s club.example", &[])
    }
}

/// Whether a making that left this reported the failure of its disk, and whether the next one ends
/// with this status.
fn is_made_after(alloc: Global, left: &Left, status: u8) -> Result<bool, AllocError> {
    let printed = if status == 0 { MADE } else { "exists\n" };
    let is_told = left.status == 5 && are_texts(&left.out, &["disk fault\n"]);
    Ok(is_told && is_left(alloc, &making(&left.disk), status, printed, CLUB)?)
}

/// The same for a making whose disk fails at this call, and from `stop` on.
fn is_made_again(alloc: Global, call: u64, stop: u64, status: u8) -> Result<bool, AllocError> {
    let failing = Case {
        failing_calls: &[call],
        stop,
        ..making(&[])
    };
    let left = left_by(alloc, &failing)?;
    is_made_after(alloc, &left, status)
}

/// The call that fails in the making of a store, and the status of the next making: the size, the
/// journal with its sync, and the four calls of an append. At the last one the store is there.
const MAKINGS: [(usize, u8); 7] = [(0, 0), (1, 0), (2, 0), (3, 0), (4, 0), (5, 0), (6, 9)];

fn expect_made_again(alloc: Global, call: usize, status: u8) -> Result<(), Fail> {
    for stop in [u64::MAX, call as u64] {
        let is_made = is_made_again(alloc, call as u64, stop, status)?;
        expect_at(is_made, "a making whose disk fails at", call)?;
    }
    Ok(())
}

#[test]
fn stores_are_read_and_made_also_after_a_disk_that_failed(rt: HostRuntime) -> Result<(), Fail> {
    for (number, row) in READINGS.iter().enumerate() {
        expect_at(reads(rt.alloc(), row)?, row.0, number)?;
    }
    expect(is_left(rt.alloc(), &making(&[]), 0, MADE, CLUB)?, MADE)?;
    for (call, status) in &MAKINGS {
        expect_made_again(rt.alloc(), *call, *status)?;
    }
    Ok(())
}

/// Whether the opening of a store of the example town without posts, whose disk fails at this call,
/// ends at it.
fn is_not_opened(alloc: Global, line: &str, call: u64, printed: &str) -> Result<bool, AllocError> {
    let case = Case {
        failing_calls: &[call],
        ..calm(line, &MEMBERS)
    };
    let left = left_by(alloc, &case)?;
    Ok(
        left.status == 5
            && are_texts(&left.out, &[printed])
            && left.calls.checked_sub(1) == Some(call),
    )
}

/// The command lines of an opening, and what is printed if the disk fails.
const OPENINGS: [(&str, &str); 3] = [
    ("fedi check s", "disk fault\n"),
    ("fedi add-actor s eva", "disk fault\n"),
    ("fedi inetd s", ""),
];

fn expect_not_opened(alloc: Global, call: u64) -> Result<(), Fail> {
    for row in &OPENINGS {
        let is_refused = is_not_opened(alloc, row.0, call, row.1)?;
        expect_at(is_refused, row.0, call as usize)?;
    }
    Ok(())
}

#[test]
fn each_call_of_an_opening_may_fail(rt: HostRuntime) -> Result<(), Fail> {
    for call in 0..calls_of_an_opening(rt.alloc(), &MEMBERS)? {
        expect_not_opened(rt.alloc(), call)?;
    }
    Ok(())
}

const FAULT: &str = "\
    HTTP/1.1 503 Service Unavailable\r\n\
    Date: Sun, 06 Nov 1994 08:49:37 GMT\r\n\
    Content-Type: application/json\r\n\
    Content-Length: 23\r\n\r\n\
    {\"error\":\"KeeperFault\"}";

/// Which calls of the disk fail, counted from the first after the opening, the replies to two or
/// three posts, and how many more records the disk has. An append writes a record, syncs, opens its gate
/// and syncs again, and a settling closes a gate and syncs.
const DISKS: [(&[u64], &[&str], usize); 14] = [
    (&[], &[FIRST, SECOND], 2),
    (&[0], &[FAULT, FIRST], 1),
    (&[1], &[FAULT, FIRST], 1),
    (&[2], &[FAULT, FIRST], 1),
    (&[3], &[FAULT, FIRST], 1),
    (&[4], &[FIRST, FAULT], 1),
    (&[5], &[FIRST, FAULT], 1),
    (&[6], &[FIRST, FAULT], 1),
    // The gate is open, and that is not synced: the record is in doubt.
    (&[7], &[FIRST, FAULT], 2),
    (&[0, 1], &[FAULT, FAULT], 0),
    // The settling fails at its write and at its sync.
    (&[3, 4], &[FAULT, FAULT], 1),
    (&[3, 5], &[FAULT, FAULT], 0),
    (&[3, 4], &[FAULT, FAULT, FIRST], 1),
    (&[8], &[FIRST, SECOND], 2),
];

fn has_disk(
    alloc: Global,
    opening: u64,
    row: &(&[u64], &[&str], usize),
) -> Result<bool, AllocError> {
    let (failing, wanted, kept) = *row;
    let failing_calls = calls_after(alloc, opening, failing)?;
    let posts = [NOTE; 3];
    let case = Case {
        failing_calls: &failing_calls,
        ..inetd(&MEMBERS, posts.get(..wanted.len()).unwrap_or_default())
    };
    ends(alloc, &case, 0, wanted, kept)
}

#[test]
fn the_disk_fails_at_each_call_of_posts(rt: HostRuntime) -> Result<(), Fail> {
    let opening = calls_of_an_opening(rt.alloc(), &MEMBERS)?;
    for (number, row) in DISKS.iter().enumerate() {
        expect_at(has_disk(rt.alloc(), opening, row)?, "a disk", number)?;
    }
    Ok(())
}

/// The offset of the gate after the example town without posts.
const GATE: usize = 435;

const WITHOUT: &str = "entries 5 actors 4 activities 0 queue 0\n\
tip 6bdc07a535ae50ca257558738223a4f327e80abdf0c63ad6268d13d5f55c8493\n";

const WITH: &str = "entries 6 actors 4 activities 1 queue 0\n\
tip 88bad0b47628e8c6c9b0a34de641f83f6b03b8cbb381861c07f33842981c89e2\n";

/// The call from which on the disk of a post stops, counted from the first of its append; the byte
/// that a crash leaves at the gate, if it differs from what is read; and what is counted then.
const STOPS: [(u64, Option<u8>, &str); 7] = [
    (0, None, WITHOUT),
    (1, None, WITHOUT),
    (2, None, WITHOUT),
    (2, Some(1), WITH),
    (3, None, WITH),
    (3, Some(0), WITHOUT),
    // The append is done.
    (4, None, WITH),
];

/// Whether a run that counts a disk with these bytes prints this.
fn counts(alloc: Global, bytes: &[u8], printed: &str) -> Result<bool, AllocError> {
    let case = Case {
        bytes,
        ..calm("fedi check s", &[])
    };
    is_left(alloc, &case, 0, printed, bytes)
}

fn set_gate(left: &mut Left, gate: Option<u8>) {
    if let (Some(gate), Some(here)) = (gate, left.disk.get_mut(GATE)) {
        *here = gate;
    }
}

fn survives(
    alloc: Global,
    opening: u64,
    row: &(u64, Option<u8>, &str),
) -> Result<bool, AllocError> {
    let (stop, gate, printed) = *row;
    let case = Case {
        stop: opening.saturating_add(stop),
        ..inetd(&MEMBERS, &[NOTE])
    };
    let mut left = left_by(alloc, &case)?;
    set_gate(&mut left, gate);
    let reply = if stop < 4 { FAULT } else { FIRST };
    Ok(are_texts(&left.out, &[reply]) && counts(alloc, &left.disk, printed)?)
}

#[test]
fn a_disk_that_stops_has_what_was_acknowledged(rt: HostRuntime) -> Result<(), Fail> {
    let opening = calls_of_an_opening(rt.alloc(), &MEMBERS)?;
    for (number, row) in STOPS.iter().enumerate() {
        expect_at(
            survives(rt.alloc(), opening, row)?,
            "a disk that stops",
            number,
        )?;
    }
    Ok(())
}

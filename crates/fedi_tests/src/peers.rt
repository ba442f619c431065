//! Runs that make another server a peer of the example town, byte for byte.

use crate::cases::Case;
use crate::example::{MEMBERS, TOWN};
use crate::members::{NOTHING, ends, making};
use crate::runs::{calls_after, calls_of_an_opening};
use fedi_rows::expect_at;
use std::alloc::{AllocError, Global};
use std::test::Fail;

/// The record of the making of lake: its host, the key, where it is reached, whether it is a relay,
/// and the moment.
const LAKE: &[u8] = b"\
    \x03\0\0\0\x0clake.example0123456789abcdefghijklmnopqrstuv\
    \0\0\0\x0e127.0.0.1:8081\0\0\0\0\0\x2e\xbc\x98\xa1";

const RELAY: &[u8] = b"\
    \x03\0\0\0\x0clake.example0123456789abcdefghijklmnopqrstuv\
    \0\0\0\x0e127.0.0.1:8081\x01\0\0\0\0\x2e\xbc\x98\xa1";

const MADE: &str = "peer lake.example\n";

/// The command line for it.
const MAKING: &str = "\
    fedi add-peer s lake.example \
    303132333435363738396162636465666768696a6b6c6d6e6f70717273747576 127.0.0.1:8081";

/// The command line, how much of the example town there is, and the record that is kept. Why peers
/// are refused is in `scenes/commands.txt`.
const PEERS: [(&str, usize, &[u8]); 3] = [
    (MAKING, 1, LAKE),
    (MAKING, 7, LAKE),
    (
        "fedi add-peer s --relay lake.example \
         303132333435363738396162636465666768696A6B6C6D6E6F70717273747576 127.0.0.1:8081",
        5,
        RELAY,
    ),
];

/// Which calls of the disk fail, counted from the first of the append, and which writes; then the
/// status, what is printed, and the record that is kept.
const FAULTS: [(&[u64], &[u64], u8, &str, &[u8]); 5] = [
    (&[0], &[], 5, "disk fault\n", NOTHING),
    (&[3], &[], 5, "disk fault\n", NOTHING),
    (&[3, 4], &[], 5, "disk fault\n", LAKE),
    // A write fails: the peer was made.
    (&[], &[1], 7, "peer l", LAKE),
    (&[0], &[0], 5, "", NOTHING),
];

fn is_made(alloc: Global, row: &(&str, usize, &[u8])) -> Result<bool, AllocError> {
    let (line, entries, kept) = *row;
    let case = Case {
        records: &TOWN[..entries.min(7)],
        ..making(line)
    };
    ends(alloc, &case, 0, MADE, kept)
}

fn has_fault(
    alloc: Global,
    opening: u64,
    row: &(&[u64], &[u64], u8, &str, &[u8]),
) -> Result<bool, AllocError> {
    let (failing, failing_writes, status, printed, kept) = *row;
    let failing_calls = calls_after(alloc, opening, failing)?;
    let case = Case {
        failing_calls: &failing_calls,
        failing_writes,
        ..making(MAKING)
    };
    ends(alloc, &case, status, printed, kept)
}

#[test]
fn a_peer_is_kept_with_its_key_and_then_told(rt: HostRuntime) -> Result<(), Fail> {
    for (number, row) in PEERS.iter().enumerate() {
        expect_at(is_made(rt.alloc(), row)?, row.0, number)?;
    }
    let opening = calls_of_an_opening(rt.alloc(), &MEMBERS)?;
    for (number, row) in FAULTS.iter().enumerate() {
        expect_at(has_fault(rt.alloc(), opening, row)?, "a fault", number)?;
    }
    Ok(())
}

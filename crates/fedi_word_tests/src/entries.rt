//! Entries as bytes, worked out by hand from the format.

ghost use Rattle.fedi_entry.specs.Limits.{KeepsLimits};

use fedi_entry::{KnownHosts, decode, encode};
use fedi_objects::Entry;
use fedi_rows::{expect, expect_at};
use fedi_town::next_number;
use std::alloc::{AllocError, Global};
use std::test::Fail;

// The server was set up for club.example.
const HOSTED: &[u8] = b"\
    \x01\
    \0\0\0\x0cclub.example\
    \0\0\0\0.\xbc\x98\xa1";

// A locked member was made.
const MADE: &[u8] = b"\
    \x02\
    \0\0\0\x03dan\
    0123456789abcdef0123456789abcdef\
    \x01\
    \0\0\0\0.\xbc\x98\xa1";

// Another server became a peer.
const PEER_SET: &[u8] = b"\
    \x03\
    \0\0\0\x0clake.example\
    0123456789abcdef0123456789abcdef\
    \0\0\0\x0e127.0.0.1:8081\
    \0\
    \0\0\0\0.\xbc\x98\xa1";

// A post with no property that may be absent.
const FOLLOW: &[u8] = b"\
    \x04\
    \0\0\0\x03ana\
    \0\0\x0a\0\x01\
    \0\0\0\x1ehttps://lake.example/users/eva\
    \0\0\0\0\0\0\0\0\0\0\0\0\0\0\0\0\0\0\0\0\0\0\0\0\0\0\0\0\0\0\
    \0\0\0\0.\xbc\x98\xa1";

// A post under a key for repeats, of a whole object with each property that a client may set.
const CREATE: &[u8] = b"\
    \x04\
    \0\0\0\x03ana\
    \x01\
    \0\0\0\x05first\
    0123456789abcdef0123456789abcdef\
    \0\x06\0\x02\0\
    \0\0\0\x04Note\
    \0\0\0\0\x01\
    \0\0\0,https://www.w3.org/ns/activitystreams#Public\
    \0\0\0\x02\
    \0\0\0\x1ehttps://lake.example/users/eva\
    \0\0\0\x1fhttps://hill.example/Users/Dora\
    \0\0\0\0\0\0\0\0\0\0\0\0\
    \x01\0\0\0\x22https://lake.example/users/eva/o/3\
    \x01\0\0\0\x0cGood morning\
    \x01\0\0\0\x0aA greeting\
    \x01\0\0\0\x07Morning\
    \x01\0\0\0\x1fhttp://club.example:8080/?q=1#x\
    \0\0\0\0\0\0\0\x01\
    \0\0\0\x1ehttps://lake.example/users/eva\
    \0\0\0\x04@eva\
    \0\0\0\0\x01\
    \0\0\0,https://www.w3.org/ns/activitystreams#Public\
    \0\0\0\x02\
    \0\0\0\x1ehttps://lake.example/users/eva\
    \0\0\0\x1fhttps://hill.example/Users/Dora\
    \0\0\0\0\0\0\0\0\0\0\0\0\0\
    \x01\0\0\0\x04Said\
    \x01\0\0\0\0\
    \x01\0\0\0\x02\xc3\xa9\
    \0\0\0\0\0\
    \0\0\0\0.\xbc\x98\xa1";

// A post of a change that keeps, removes and sets properties.
const UPDATE: &[u8] = b"\
    \x04\
    \0\0\0\x03ana\
    \0\0\x1b\0\x03\
    \0\0\0\x22https://club.example/users/ana/o/1\
    \x02\0\0\0\x0cGood evening\
    \x01\0\
    \x02\0\0\0\x15https://club.example/\
    \x01\x02\0\0\0\x01\
    \0\0\0\x1ehttps://lake.example/users/eva\
    \0\0\0\0\0\0\0\0\0\0\0\0\0\0\0\0\0\0\0\0\0\0\0\0\0\0\0\0\0\0\0\0\0\0\
    \0\0\0\0.\xbc\x98\xa1";

// A delivery, with each property that a post lacks.
const DELIVERY: &[u8] = b"\
    \x05\
    \0\0\0\x0clake.example\
    \0\0\0\x03ana\
    \x01\0\0\0\x22https://lake.example/users/eva/a/9\
    \x1b\
    \x01\0\0\0\x1ehttps://lake.example/users/eva\
    \x02\
    \x01\0\0\0\x22https://lake.example/users/eva/o/3\
    \0\0\0\x04Note\
    \x01\0\0\0\x1ehttps://lake.example/users/eva\
    \0\0\0\x01\
    \0\0\0\x1ehttps://club.example/users/ana\
    \0\0\0\x01\
    \0\0\0\x1ehttps://club.example/users/ben\
    \0\0\0\x01\
    \0\0\0\x1fhttps://club.example/users/cleo\
    \0\0\0\x01\
    \0\0\0\x1ehttps://club.example/users/dan\
    \0\0\0\x01\
    \0\0\0\x1ehttps://club.example/users/eli\
    \0\0\0\0\0\
    \x01\0\0\0\x0a1994-11-06\
    \x01\0\0\0\x0a1994-11-07\
    \x01\0\0\0\x04Note\
    \x01\0\0\0\x0a1994-11-08\
    \0\0\0\0\
    \x01\0\0\0\x1ehttps://club.example/users/ana\
    \0\0\0\x01\
    \0\0\0\x1ehttps://club.example/users/ana\
    \0\0\0\x01\
    \0\0\0\x1ehttps://club.example/users/ben\
    \0\0\0\x01\
    \0\0\0\x1fhttps://club.example/users/cleo\
    \0\0\0\x01\
    \0\0\0\x1ehttps://club.example/users/dan\
    \0\0\0\x01\
    \0\0\0\x1ehttps://club.example/users/eli\
    \x01\0\0\0\x22https://club.example/users/ana/o/1\
    \0\0\0\
    \x01\0\0\0\x0a1994-11-06\
    \0\0\0\x02\
    \0\0\0\x1ehttps://club.example/users/ana\
    \0\0\0\x04@ana\
    \0\0\0\x1ehttps://club.example/users/ben\
    \0\0\0\x04@ben\
    \0\0\0\0.\xbc\x98\xa1";

// Lookups and posts, and their results.
const FAILED: &[u8] = b"\
    \x06\
    \0\0\0\x22https://club.example/users/ana/a/1\
    \0\0\0\x1ehttps://lake.example/users/eva\
    \0\0\
    \0\0\0\0.\xbc\x98\xa1";

const NO_HEAD: &[u8] = b"\
    \x06\
    \0\0\0\x22https://club.example/users/ana/a/1\
    \0\0\0\x1ehttps://lake.example/users/eva\
    \x01\x01\
    \0\0\0\0.\xbc\x98\xa1";

const BAD_ACTOR: &[u8] = b"\
    \x06\
    \0\0\0\x22https://club.example/users/ana/a/1\
    \0\0\0\x1ehttps://lake.example/users/eva\
    \0\x02\
    \0\0\0\0.\xbc\x98\xa1";

const STATUS: &[u8] = b"\
    \x06\
    \0\0\0\x22https://club.example/users/ana/a/1\
    \0\0\0\x1ehttps://lake.example/users/eva\
    \x01\x03\0\xca\
    \0\0\0\0.\xbc\x98\xa1";

const ENTRIES: [&[u8]; 11] = [
    HOSTED, MADE, PEER_SET, FOLLOW, CREATE, UPDATE, DELIVERY, FAILED, NO_HEAD, BAD_ACTOR, STATUS,
];

// Whether the entry is written as these bytes.
fn is_written(alloc: Global, entry: &Entry, bytes: &[u8]) -> Result<bool, AllocError>
    requires { KeepsLimits entry.now }
{
    let code = encode(alloc, entry)?;
    Ok(code.as_slice() == bytes)
}

// Whether the bytes are those of an entry, and are written again.
#[tactic(auto, using(fedi_entry::proofs::Formed::formed_keeps))]
fn come_back(alloc: Global, hosts: &mut KnownHosts, bytes: &[u8]) -> Result<bool, AllocError> {
    let read = decode(alloc, hosts, bytes);
    match &read {
        Ok(entry) => is_written(alloc, entry, bytes),
        Err(_) => Ok(false),
    }
}

fn expect_back(
    alloc: Global,
    hosts: &mut KnownHosts,
    number: usize,
    bytes: &[u8],
) -> Result<(), Fail> {
    expect_at(come_back(alloc, hosts, bytes)?, "an entry", number)
}

#[test]
fn entries_are_read_and_written_again(rt: HostRuntime) -> Result<(), Fail> {
    let mut hosts = KnownHosts::new();
    for (number, bytes) in ENTRIES.iter().enumerate() {
        expect_back(rt.alloc(), &mut hosts, number, bytes)?;
    }
    Ok(())
}

#[test]
fn the_last_activity_of_a_member_has_the_last_number() -> Result<(), Fail> {
    expect(next_number(0) == Some(1), "the first number")?;
    expect(
        next_number(4_294_967_294) == Some(4_294_967_295) && next_number(4_294_967_295).is_none(),
        "the last number",
    )
}

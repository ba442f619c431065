//! The example town, by its records, which were worked out by hand from the format of entries:
//! `club.example` with its members ana, ben, cleo and dan, who is locked, and ana's two posts, one
//! to everybody and one to ben alone. All of it happened at 1994-11-06T08:49:37Z. The keys of the
//! members are 32 bytes 0, 1, 2 and 3, and their records have the SHA-256 digests of these.

use fedi_rows::records::{HILL, LAKE};

/// The server was set up for club.example.
pub const HOSTED: &[u8] = b"\
    \x01\
    \0\0\0\x0cclub.example\
    \0\0\0\0.\xbc\x98\xa1";

// ana was made a member.
const ANA: &[u8] = b"\
    \x02\
    \0\0\0\x03ana\
    \x66\x68\x7a\xad\xf8\x62\xbd\x77\x6c\x8f\xc1\x8b\x8e\x9f\x8e\x20\
    \x08\x97\x14\x85\x6e\xe2\x33\xb3\x90\x2a\x59\x1d\x0d\x5f\x29\x25\
    \0\
    \0\0\0\0.\xbc\x98\xa1";

// ben was made a member.
const BEN: &[u8] = b"\
    \x02\
    \0\0\0\x03ben\
    \x72\xcd\x6e\x84\x22\xc4\x07\xfb\x6d\x09\x86\x90\xf1\x13\x0b\x7d\
    \xed\x7e\xc2\xf7\xf5\xe1\xd3\x0b\xd9\xd5\x21\xf0\x15\x36\x37\x93\
    \0\
    \0\0\0\0.\xbc\x98\xa1";

// cleo was made a member.
const CLEO: &[u8] = b"\
    \x02\
    \0\0\0\x04cleo\
    \x75\x87\x7b\xb4\x1d\x39\x3b\x5f\xb8\x45\x5c\xe6\x0e\xcd\x8d\xda\
    \x00\x1d\x06\x31\x64\x96\xb1\x4d\xfa\x7f\x89\x56\x56\xee\xca\x4a\
    \0\
    \0\0\0\0.\xbc\x98\xa1";

// dan, who is locked, was made a member.
const DAN: &[u8] = b"\
    \x02\
    \0\0\0\x03dan\
    \x64\x8a\xa5\xc5\x79\xfb\x30\xf3\x8a\xf7\x44\xd9\x7d\x6e\xc8\x40\
    \xc7\xa9\x12\x77\xa4\x99\xa0\xd7\x80\xf3\xe7\x31\x4e\xca\x09\x0b\
    \x01\
    \0\0\0\0.\xbc\x98\xa1";

// ana posted a note to everybody.
const HELLO: &[u8] = b"\
    \x04\
    \0\0\0\x03ana\
    \0\0\x06\0\x02\0\
    \0\0\0\x04Note\
    \0\0\0\0\x01\
    \0\0\0,https://www.w3.org/ns/activitystreams#Public\
    \0\0\0\0\0\0\0\0\0\0\0\0\0\0\0\0\0\
    \x01\0\0\0\x05Hello\
    \0\0\0\0\0\0\0\0\0\0\0\0\
    \0\0\0\x01\
    \0\0\0,https://www.w3.org/ns/activitystreams#Public\
    \0\0\0\0\0\0\0\0\0\0\0\0\0\0\0\0\0\
    \0\0\0\0\0\0\0\0\
    \0\0\0\0.\xbc\x98\xa1";

// ana posted a note to ben alone, as a hidden recipient.
const PSST: &[u8] = b"\
    \x04\
    \0\0\0\x03ana\
    \0\0\x06\0\x02\0\
    \0\0\0\x04Note\
    \0\0\0\0\0\0\0\0\0\0\0\0\0\
    \0\0\0\x01\
    \0\0\0\x1ehttps://club.example/users/ben\
    \0\0\0\0\0\
    \x01\0\0\0\x04Psst\
    \0\0\0\0\0\0\0\0\0\0\0\0\
    \0\0\0\0\0\0\0\0\0\0\0\0\
    \0\0\0\x01\
    \0\0\0\x1ehttps://club.example/users/ben\
    \0\0\0\0\0\
    \0\0\0\0\0\0\0\0\
    \0\0\0\0.\xbc\x98\xa1";

/// The records of the host and of its members.
pub const MEMBERS: [&[u8]; 5] = [HOSTED, ANA, BEN, CLEO, DAN];

/// These, and those of two peers.
pub const PEERED: [&[u8]; 7] = [HOSTED, ANA, BEN, CLEO, DAN, HILL, LAKE];

/// The records of the example town.
pub const TOWN: [&[u8]; 7] = [HOSTED, ANA, BEN, CLEO, DAN, HELLO, PSST];

/// The records of a town with two peers, in which ana posted a note to everybody.
pub const CLUB: [&[u8]; 8] = [HOSTED, ANA, BEN, CLEO, DAN, LAKE, HILL, HELLO];

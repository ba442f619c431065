//! A long history, the same in each run, in which four members and two people elsewhere do what the
//! items of collections are: posts, Follows with their answers, Likes, Announces, what undoes them,
//! and Adds and Removes. The records are filled in from forms, which were worked out by hand from
//! the format of entries.

use crate::opening::{add, add_all};
use fedi_outside::Keeper;
use fedi_rows::records::{HILL, HOSTED, LAKE};
use std::alloc::{AllocError, Global};
use std::test::Fail;

/// The members. The last one is locked.
pub const NAMES: [&str; 4] = ["ana", "ben", "eli", "dan"];

/// How many activities the history has.
pub const ACTIVITIES: usize = 500;

// What a form has in place of the first name, the second name, a number of two digits and a byte.
// None of these bytes is in a text.
const ONE: u8 = 0xf1;

const OTHER: u8 = 0xf2;

const NUMBER: u8 = 0xf3;

const KIND: u8 = 0xf4;

// ---- forms

// A member was made. The byte says whether the member is locked, and the digest of the key is made
// of the name.
const MADE: &[u8] = b"\
    \x02\
    \0\0\0\x03\xf1\
    \xf1\xf1\xf1\xf1\xf1\xf1\xf1\xf1\xf1\xf100\
    \xf4\
    \0\0\0\0.\xbc\x98\xa1";

// A note of the first member to everyone, to the member's followers, and to the second one alone.
const PUBLIC: &[u8] = b"\
    \x04\
    \0\0\0\x03\xf1\
    \0\0\x06\0\x02\0\
    \0\0\0\x04Note\
    \0\0\0\0\x01\
    \0\0\0,https://www.w3.org/ns/activitystreams#Public\
    \0\0\0\0\0\0\0\0\0\0\0\0\0\0\0\0\0\
    \x01\0\0\0\x05Hello\
    \0\0\0\0\0\0\0\0\0\0\0\0\
    \0\0\0\x01\
    \0\0\0,https://www.w3.org/ns/activitystreams#Public\
    \0\0\0\0\0\0\0\0\0\0\0\0\0\0\0\0\0\
    \0\0\0\0\0\0\0\0\
    \0\0\0\0.\xbc\x98\xa1";

const FOR_FOLLOWERS: &[u8] = b"\
    \x04\
    \0\0\0\x03\xf1\
    \0\0\x06\0\x02\0\
    \0\0\0\x04Note\
    \0\0\0\0\x01\
    \0\0\0(https://club.example/users/\xf1/followers\
    \0\0\0\0\0\0\0\0\0\0\0\0\0\0\0\0\0\
    \x01\0\0\0\x05Hello\
    \0\0\0\0\0\0\0\0\0\0\0\0\
    \0\0\0\x01\
    \0\0\0(https://club.example/users/\xf1/followers\
    \0\0\0\0\0\0\0\0\0\0\0\0\0\0\0\0\0\
    \0\0\0\0\0\0\0\0\
    \0\0\0\0.\xbc\x98\xa1";

const PRIVATE: &[u8] = b"\
    \x04\
    \0\0\0\x03\xf1\
    \0\0\x06\0\x02\0\
    \0\0\0\x04Note\
    \0\0\0\0\x01\
    \0\0\0\x1ehttps://club.example/users/\xf2\
    \0\0\0\0\0\0\0\0\0\0\0\0\0\0\0\0\0\
    \x01\0\0\0\x05Hello\
    \0\0\0\0\0\0\0\0\0\0\0\0\
    \0\0\0\x01\
    \0\0\0\x1ehttps://club.example/users/\xf2\
    \0\0\0\0\0\0\0\0\0\0\0\0\0\0\0\0\0\
    \0\0\0\0\0\0\0\0\
    \0\0\0\0.\xbc\x98\xa1";

// A post of the first member, of this type, about the second member, about dora, and about an object
// or an activity of the second member.
const ABOUT_MEMBER: &[u8] = b"\
    \x04\
    \0\0\0\x03\xf1\
    \0\0\xf4\0\x01\
    \0\0\0\x1ehttps://club.example/users/\xf2\
    \0\0\0\0\0\0\0\0\0\0\0\0\0\0\0\0\0\0\0\0\0\0\0\0\0\0\0\0\0\0\
    \0\0\0\0.\xbc\x98\xa1";

const ABOUT_DORA: &[u8] = b"\
    \x04\
    \0\0\0\x03\xf1\
    \0\0\xf4\0\x01\
    \0\0\0\x1fhttps://hill.example/users/dora\
    \0\0\0\0\0\0\0\0\0\0\0\0\0\0\0\0\0\0\0\0\0\0\0\0\0\0\0\0\0\0\
    \0\0\0\0.\xbc\x98\xa1";

const ABOUT_OBJECT: &[u8] = b"\
    \x04\
    \0\0\0\x03\xf1\
    \0\0\xf4\0\x01\
    \0\0\0\x23https://club.example/users/\xf2/o/\xf3\
    \0\0\0\0\0\0\0\0\0\0\0\0\0\0\0\0\0\0\0\0\0\0\0\0\0\0\0\0\0\0\
    \0\0\0\0.\xbc\x98\xa1";

const ABOUT_ACTIVITY: &[u8] = b"\
    \x04\
    \0\0\0\x03\xf1\
    \0\0\xf4\0\x01\
    \0\0\0\x23https://club.example/users/\xf2/a/\xf3\
    \0\0\0\0\0\0\0\0\0\0\0\0\0\0\0\0\0\0\0\0\0\0\0\0\0\0\0\0\0\0\
    \0\0\0\0.\xbc\x98\xa1";

// What the first member posted to everyone, of this type, about a note of the second member, and
// directed to a collection that the second member makes.
const DIRECTED: &[u8] = b"\
    \x04\
    \0\0\0\x03\xf1\
    \0\0\xf4\0\x01\
    \0\0\0\x23https://club.example/users/\xf2/o/\xf3\
    \x01\
    \0\0\0\x25https://club.example/users/\xf2/c/best\
    \0\0\0\x01\
    \0\0\0,https://www.w3.org/ns/activitystreams#Public\
    \0\0\0\0\0\0\0\0\0\0\0\0\0\0\0\0\0\0\0\0\0\0\0\0\0\
    \0\0\0\0.\xbc\x98\xa1";

// What dora delivered to the first member: something about that member, about an activity of that
// member, and about an object of the second member; and what undoes the last.
const BY_DORA: &[u8] = b"\
    \x05\
    \0\0\0\x0chill.example\
    \0\0\0\x03\xf1\
    \x01\0\0\0\x25https://hill.example/users/dora/a/\xf1\
    \xf4\
    \x01\0\0\0\x1fhttps://hill.example/users/dora\
    \x01\
    \0\0\0\x1ehttps://club.example/users/\xf1\
    \0\0\0\0\0\0\0\0\0\0\0\0\0\0\0\0\0\0\0\0\0\0\0\0\0\0\0\0\0\0\
    \0\0\0\0.\xbc\x98\xa1";

const ANSWERED: &[u8] = b"\
    \x05\
    \0\0\0\x0chill.example\
    \0\0\0\x03\xf1\
    \x01\0\0\0\x28https://hill.example/users/dora/a/\xf1/\xf3\
    \xf4\
    \x01\0\0\0\x1fhttps://hill.example/users/dora\
    \x01\
    \0\0\0\x23https://club.example/users/\xf1/a/\xf3\
    \0\0\0\0\0\0\0\0\0\0\0\0\0\0\0\0\0\0\0\0\0\0\0\0\0\0\0\0\0\0\
    \0\0\0\0.\xbc\x98\xa1";

const LIKED: &[u8] = b"\
    \x05\
    \0\0\0\x0chill.example\
    \0\0\0\x03\xf1\
    \x01\0\0\0\x28https://hill.example/users/dora/l/\xf2/\xf3\
    \xf4\
    \x01\0\0\0\x1fhttps://hill.example/users/dora\
    \x01\
    \0\0\0\x23https://club.example/users/\xf2/o/\xf3\
    \0\0\0\0\0\0\0\0\0\0\0\0\0\0\0\0\0\0\0\0\0\0\0\0\0\0\0\0\0\0\
    \0\0\0\0.\xbc\x98\xa1";

const UNDONE: &[u8] = b"\
    \x05\
    \0\0\0\x0chill.example\
    \0\0\0\x03\xf1\
    \x01\0\0\0\x28https://hill.example/users/dora/u/\xf2/\xf3\
    \xf4\
    \x01\0\0\0\x1fhttps://hill.example/users/dora\
    \x01\
    \0\0\0\x28https://hill.example/users/dora/l/\xf2/\xf3\
    \0\0\0\0\0\0\0\0\0\0\0\0\0\0\0\0\0\0\0\0\0\0\0\0\0\0\0\0\0\0\
    \0\0\0\0.\xbc\x98\xa1";

// What eve delivered to the first member, about an object of the second one.
const BY_EVE: &[u8] = b"\
    \x05\
    \0\0\0\x0clake.example\
    \0\0\0\x03\xf1\
    \x01\0\0\0\x27https://lake.example/users/eve/a/\xf2/\xf3\
    \xf4\
    \x01\0\0\0\x1ehttps://lake.example/users/eve\
    \x01\
    \0\0\0\x23https://club.example/users/\xf2/o/\xf3\
    \0\0\0\0\0\0\0\0\0\0\0\0\0\0\0\0\0\0\0\0\0\0\0\0\0\0\0\0\0\0\
    \0\0\0\0.\xbc\x98\xa1";

// ---- steps

// The numbers of the types.
const ACCEPT: u8 = 1;

const ADD: u8 = 2;

const ANNOUNCE: u8 = 3;

const BLOCK: u8 = 5;

const DELETE: u8 = 7;

const FOLLOW: u8 = 10;

const LIKE: u8 = 15;

const REJECT: u8 = 21;

const REMOVE: u8 = 22;

const UNDO: u8 = 26;

// Each member twice, each with the next one, and each with each other.
const EACH: [(&str, &str); 4] = [
    ("ana", "ana"),
    ("ben", "ben"),
    ("eli", "eli"),
    ("dan", "dan"),
];

const NEXT: [(&str, &str); 4] = [
    ("ana", "ben"),
    ("ben", "eli"),
    ("eli", "dan"),
    ("dan", "ana"),
];

const PAIRS: [(&str, &str); 12] = [
    ("ana", "ben"),
    ("ana", "eli"),
    ("ana", "dan"),
    ("ben", "ana"),
    ("ben", "eli"),
    ("ben", "dan"),
    ("eli", "ana"),
    ("eli", "ben"),
    ("eli", "dan"),
    ("dan", "ana"),
    ("dan", "ben"),
    ("dan", "eli"),
];

// Each with each other who is not locked.
const OPEN: [(&str, &str); 9] = [
    ("ana", "ben"),
    ("ana", "eli"),
    ("ben", "ana"),
    ("ben", "eli"),
    ("eli", "ana"),
    ("eli", "ben"),
    ("dan", "ana"),
    ("dan", "ben"),
    ("dan", "eli"),
];

// The numbers of the notes to everyone, and of all notes that a member posted after the Follows.
const NOTED: [u8; 8] = [18, 19, 20, 21, 22, 23, 24, 25];

const ALL_NOTED: [u8; 24] = [
    18, 19, 20, 21, 22, 23, 24, 25, 26, 27, 28, 29, 30, 31, 32, 33, 34, 35, 36, 37, 38, 39, 40, 41,
];

// A form, its byte, its two names, and its numbers. For each number there is a record of each pair.
type Step = (
    &'static [u8],
    u8,
    &'static [(&'static str, &'static str)],
    &'static [u8],
);

// The steps after the server was set up with its peers. A comment says how many activities each
// member then has.
const STEPS: [Step; 27] = [
    (
        MADE,
        0,
        &[("ana", "ana"), ("ben", "ben"), ("eli", "eli")],
        &[0],
    ),
    (MADE, 1, &[("dan", "dan")], &[0]),
    // 9.
    (PUBLIC, 0, &EACH, &[1, 2, 3, 4, 5, 6, 7, 8, 9]),
    // An Accept follows each of these: 14, but dan 12.
    (ABOUT_MEMBER, FOLLOW, &OPEN, &[0]),
    // 15, but dan, who accepts one, rejects one and leaves the third open: 14.
    (
        ABOUT_MEMBER,
        FOLLOW,
        &[("ana", "dan"), ("ben", "dan"), ("eli", "dan")],
        &[0],
    ),
    (ABOUT_ACTIVITY, ACCEPT, &[("dan", "ana")], &[15]),
    (ABOUT_ACTIVITY, REJECT, &[("dan", "ben")], &[15]),
    // An Accept follows all but the last, which stays open: 16, but dan 14.
    (BY_DORA, FOLLOW, &EACH, &[0]),
    // 16.
    (PUBLIC, 0, &[("dan", "dan")], &[0, 1]),
    // 17.
    (ABOUT_DORA, FOLLOW, &EACH, &[17]),
    (ANSWERED, ACCEPT, &[("ana", "ana"), ("ben", "ben")], &[17]),
    (ANSWERED, REJECT, &[("eli", "eli")], &[17]),
    // 41.
    (PUBLIC, 0, &EACH, &NOTED),
    (FOR_FOLLOWERS, 0, &EACH, &NOTED),
    (PRIVATE, 0, &NEXT, &NOTED),
    // 65: three for each of the notes to everyone.
    (ABOUT_OBJECT, LIKE, &PAIRS, &NOTED),
    // 73: the first of the three is undone.
    (
        ABOUT_ACTIVITY,
        UNDO,
        &EACH,
        &[42, 45, 48, 51, 54, 57, 60, 63],
    ),
    // 81.
    (ABOUT_OBJECT, ANNOUNCE, &NEXT, &NOTED),
    // 82.
    (ABOUT_ACTIVITY, UNDO, &EACH, &[74]),
    (LIKED, LIKE, &EACH, &ALL_NOTED),
    // The same Likes, delivered to one more inbox.
    (LIKED, LIKE, &NEXT, &NOTED),
    (BY_EVE, ANNOUNCE, &EACH, &NOTED),
    (UNDONE, UNDO, &EACH, &[18, 22, 26, 30, 34, 38]),
    // 83, and ben 84.
    (ABOUT_OBJECT, DELETE, &EACH, &[18]),
    (ABOUT_MEMBER, BLOCK, &[("ben", "eli")], &[0]),
    // 85, but ben 86 and dan 83.
    (
        DIRECTED,
        ADD,
        &[("ana", "ana"), ("ben", "ben"), ("eli", "ana")],
        &[19, 20],
    ),
    // ana 86, ben 87.
    (DIRECTED, REMOVE, &[("ana", "ana"), ("ben", "ana")], &[19]),
];

// ---- records

// The record that the form is of, with this in place of its signs.
fn record_of(
    alloc: Global,
    form: &[u8],
    kind: u8,
    pair: &(&str, &str),
    number: u8,
) -> Result<Vec<u8>, AllocError> {
    let mut record = Vec::new(alloc);
    for byte in form {
        match *byte {
            ONE => record.extend_from_slice(pair.0.as_bytes())?,
            OTHER => record.extend_from_slice(pair.1.as_bytes())?,
            NUMBER => record.extend_from_slice(&[b'0' + number / 10 % 10, b'0' + number % 10])?,
            KIND => record.push(kind)?,
            byte => record.push(byte)?,
        }
    }
    Ok(record)
}

fn add_step<K: Keeper>(alloc: Global, keeper: &mut K, step: &Step) -> Result<(), Fail> {
    let (form, kind, pairs, numbers) = *step;
    for number in numbers {
        for pair in pairs {
            let record = record_of(alloc, form, kind, pair, *number)?;
            add(keeper, &record)?;
        }
    }
    Ok(())
}

/// Appends the records of the history to the keeper.
pub fn add_town<K: Keeper>(alloc: Global, keeper: &mut K) -> Result<(), Fail> {
    add_all(keeper, &[HOSTED, HILL, LAKE])?;
    for step in &STEPS {
        add_step(alloc, keeper, step)?;
    }
    Ok(())
}

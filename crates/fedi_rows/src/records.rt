//! Records of small histories, worked out by hand from the format of entries.

/// The server was set up for club.example.
pub const HOSTED: &[u8] = b"\
    \x01\
    \0\0\0\x0cclub.example\
    \0\0\0\0.\xbc\x98\xa1";

/// A member was made.
pub const ANA: &[u8] = b"\
    \x02\
    \0\0\0\x03ana\
    0123456789abcdef0123456789abcdef\
    \0\
    \0\0\0\0.\xbc\x98\xa1";

/// Another member was made.
pub const BEN: &[u8] = b"\
    \x02\
    \0\0\0\x03ben\
    fedcba9876543210fedcba9876543210\
    \0\
    \0\0\0\0.\xbc\x98\xa1";

/// A post under a key for repeats: a note to everyone.
pub const CREATE: &[u8] = b"\
    \x04\
    \0\0\0\x03ana\
    \x01\
    \0\0\0\x05first\
    0123456789abcdef0123456789abcdef\
    \0\x06\0\x02\0\
    \0\0\0\x04Note\
    \0\0\0\0\x01\
    \0\0\0,https://www.w3.org/ns/activitystreams#Public\
    \0\0\0\0\0\0\0\0\0\0\0\0\0\0\0\0\0\
    \x01\0\0\0\x0cGood morning\
    \0\0\0\0\0\0\0\0\0\0\0\0\
    \0\0\0\x01\
    \0\0\0,https://www.w3.org/ns/activitystreams#Public\
    \0\0\0\0\0\0\0\0\0\0\0\0\0\0\0\0\0\
    \0\0\0\0\0\0\0\0\
    \0\0\0\0.\xbc\x98\xa1";

/// A note to everyone.
pub const NOTE: &[u8] = b"\
    \x04\
    \0\0\0\x03ana\
    \0\
    \0\x06\0\x02\0\
    \0\0\0\x04Note\
    \0\0\0\0\x01\
    \0\0\0,https://www.w3.org/ns/activitystreams#Public\
    \0\0\0\0\0\0\0\0\0\0\0\0\0\0\0\0\0\
    \x01\0\0\0\x0cGood morning\
    \0\0\0\0\0\0\0\0\0\0\0\0\
    \0\0\0\x01\
    \0\0\0,https://www.w3.org/ns/activitystreams#Public\
    \0\0\0\0\0\0\0\0\0\0\0\0\0\0\0\0\0\
    \0\0\0\0\0\0\0\0\
    \0\0\0\0.\xbc\x98\xa1";

/// A Follow of the first member by the other, accepted at once.
pub const FOLLOW: &[u8] = b"\
    \x04\
    \0\0\0\x03ben\
    \0\0\x0a\0\x01\
    \0\0\0\x1ehttps://club.example/users/ana\
    \0\0\0\0\0\0\0\0\0\0\0\0\0\0\0\0\0\0\0\0\0\0\0\0\0\0\0\0\0\0\
    \0\0\0\0.\xbc\x98\xa1";

/// A Like of the note by the other.
pub const LIKE: &[u8] = b"\
    \x04\
    \0\0\0\x03ben\
    \0\0\x0f\0\x01\
    \0\0\0\x22https://club.example/users/ana/o/1\
    \0\0\0\0\0\0\0\0\0\0\0\0\0\0\0\0\0\0\0\0\0\0\0\0\0\0\0\0\0\0\
    \0\0\0\0.\xbc\x98\xa1";

/// A Follow of herself.
pub const OWN_FOLLOW: &[u8] = b"\
    \x04\
    \0\0\0\x03ana\
    \0\0\x0a\0\x01\
    \0\0\0\x1ehttps://club.example/users/ana\
    \0\0\0\0\0\0\0\0\0\0\0\0\0\0\0\0\0\0\0\0\0\0\0\0\0\0\0\0\0\0\
    \0\0\0\0.\xbc\x98\xa1";

/// A post that has an id.
pub const WITH_ID: &[u8] = b"\
    \x04\
    \0\0\0\x03ana\
    \0\x01\0\0\0\x22https://club.example/users/ana/a/1\
    \x0a\0\x01\
    \0\0\0\x1ehttps://club.example/users/ben\
    \0\0\0\0\0\0\0\0\0\0\0\0\0\0\0\0\0\0\0\0\0\0\0\0\0\0\0\0\0\0\
    \0\0\0\0.\xbc\x98\xa1";

/// A Follow that names a recipient twice.
pub const TWICE_TO: &[u8] = b"\
    \x04\
    \0\0\0\x03ben\
    \0\0\x0a\0\x01\
    \0\0\0\x1ehttps://club.example/users/ana\
    \0\
    \0\0\0\x02\
    \0\0\0\x1ehttps://club.example/users/ana\
    \0\0\0\x1ehttps://club.example/users/ana\
    \0\0\0\0\0\0\0\0\0\0\0\0\0\0\0\0\0\0\0\0\0\0\0\0\0\
    \0\0\0\0.\xbc\x98\xa1";

/// Another member was made with the first one's key.
pub const SAME_KEY: &[u8] = b"\
    \x02\
    \0\0\0\x03eli\
    0123456789abcdef0123456789abcdef\
    \0\
    \0\0\0\0.\xbc\x98\xa1";

/// Another server became a peer.
pub const LAKE: &[u8] = b"\
    \x03\
    \0\0\0\x0clake.example\
    0123456789abcdef0123456789abcdef\
    \0\0\0\x0e127.0.0.1:8081\
    \0\
    \0\0\0\0.\xbc\x98\xa1";

/// This server became a peer of its own.
pub const OWN_PEER: &[u8] = b"\
    \x03\
    \0\0\0\x0cclub.example\
    0123456789abcdef0123456789abcdef\
    \0\0\0\x0e127.0.0.1:8081\
    \0\
    \0\0\0\0.\xbc\x98\xa1";

/// A peer without an address.
pub const NO_ADDRESS: &[u8] = b"\
    \x03\
    \0\0\0\x0clake.example\
    0123456789abcdef0123456789abcdef\
    \0\0\0\0\
    \0\
    \0\0\0\0.\xbc\x98\xa1";

/// The peer delivered a Follow of the first member, which is accepted at once.
pub const FOLLOWED: &[u8] = b"\
    \x05\
    \0\0\0\x0clake.example\
    \0\0\0\x03ana\
    \x01\0\0\0\x22https://lake.example/users/eve/a/1\
    \x0a\
    \x01\0\0\0\x1ehttps://lake.example/users/eve\
    \x01\
    \0\0\0\x1ehttps://club.example/users/ana\
    \0\0\0\0\0\0\0\0\0\0\0\0\0\0\0\0\0\0\0\0\0\0\0\0\0\0\0\0\0\0\
    \0\0\0\0.\xbc\x98\xa1";

/// It delivered a Like of the note to the first member.
pub const LIKED: &[u8] = b"\
    \x05\
    \0\0\0\x0clake.example\
    \0\0\0\x03ana\
    \x01\0\0\0\x22https://lake.example/users/eve/a/2\
    \x0f\
    \x01\0\0\0\x1ehttps://lake.example/users/eve\
    \x01\
    \0\0\0\x22https://club.example/users/ana/o/1\
    \0\0\0\0\0\0\0\0\0\0\0\0\0\0\0\0\0\0\0\0\0\0\0\0\0\0\0\0\0\0\
    \0\0\0\0.\xbc\x98\xa1";

/// It delivered the same Like to the other member.
pub const LIKED_TOO: &[u8] = b"\
    \x05\
    \0\0\0\x0clake.example\
    \0\0\0\x03ben\
    \x01\0\0\0\x22https://lake.example/users/eve/a/2\
    \x0f\
    \x01\0\0\0\x1ehttps://lake.example/users/eve\
    \x01\
    \0\0\0\x22https://club.example/users/ana/o/1\
    \0\0\0\0\0\0\0\0\0\0\0\0\0\0\0\0\0\0\0\0\0\0\0\0\0\0\0\0\0\0\
    \0\0\0\0.\xbc\x98\xa1";

/// It delivered an activity of somebody on another server.
pub const OF_HILL: &[u8] = b"\
    \x05\
    \0\0\0\x0clake.example\
    \0\0\0\x03ana\
    \x01\0\0\0\x23https://hill.example/users/dora/a/1\
    \x0f\
    \x01\0\0\0\x1fhttps://hill.example/users/dora\
    \x01\
    \0\0\0\x22https://club.example/users/ana/o/1\
    \0\0\0\0\0\0\0\0\0\0\0\0\0\0\0\0\0\0\0\0\0\0\0\0\0\0\0\0\0\0\
    \0\0\0\0.\xbc\x98\xa1";

/// An attempt to deliver the answer to the Follow: nobody answered.
pub const TRIED: &[u8] = b"\
    \x06\
    \0\0\0\x22https://club.example/users/ana/a/3\
    \0\0\0\x1ehttps://lake.example/users/eve\
    \0\0\
    \0\0\0\0.\xbc\x98\xa1";

/// hill.example became a peer.
pub const HILL: &[u8] = b"\
    \x03\
    \0\0\0\x0chill.example\
    0123456789abcdef0123456789abcdef\
    \0\0\0\x0e127.0.0.1:8082\
    \0\
    \0\0\0\0.\xbc\x98\xa1";

/// It delivered a reply to the member's second activity.
pub const REPLIED: &[u8] = b"\
    \x05\
    \0\0\0\x0chill.example\
    \0\0\0\x03ana\
    \x01\0\0\0\x23https://hill.example/users/dora/a/9\
    \x06\
    \x01\0\0\0\x1fhttps://hill.example/users/dora\
    \x02\
    \x01\0\0\0\x23https://hill.example/users/dora/o/9\
    \0\0\0\x04Note\
    \0\
    \0\0\0\0\0\0\0\0\0\0\0\0\0\0\0\0\0\0\0\0\
    \x01\0\0\0\x22https://club.example/users/ana/o/2\
    \x01\0\0\0\x05Hello\
    \0\0\0\0\0\0\0\0\0\0\0\
    \0\
    \0\0\0\0\0\0\0\0\0\0\0\0\0\0\0\0\0\0\0\0\
    \0\0\0\0\0\0\0\0\0\
    \0\0\0\0.\xbc\x98\xa1";

/// It delivered a Like of that object, which is for the followers of the member.
pub const REPLY_LIKED: &[u8] = b"\
    \x05\
    \0\0\0\x0chill.example\
    \0\0\0\x03ana\
    \x01\0\0\0\x24https://hill.example/users/dora/a/10\
    \x0f\
    \x01\0\0\0\x1fhttps://hill.example/users/dora\
    \x01\
    \0\0\0\x23https://hill.example/users/dora/o/9\
    \0\
    \0\0\0\0\
    \0\0\0\x01\
    \0\0\0(https://club.example/users/ana/followers\
    \0\0\0\0\0\0\0\0\0\0\0\0\
    \0\0\0\0\0\0\0\0\0\
    \0\0\0\0.\xbc\x98\xa1";

/// It delivered another one, which is also for the followers of the member.
pub const FORWARDED: &[u8] = b"\
    \x05\
    \0\0\0\x0chill.example\
    \0\0\0\x03ana\
    \x01\0\0\0\x23https://hill.example/users/dora/a/8\
    \x06\
    \x01\0\0\0\x1fhttps://hill.example/users/dora\
    \x02\
    \x01\0\0\0\x23https://hill.example/users/dora/o/8\
    \0\0\0\x04Note\
    \0\
    \0\0\0\0\0\0\0\0\0\0\0\0\0\0\0\0\0\0\0\0\
    \x01\0\0\0\x22https://club.example/users/ana/o/2\
    \x01\0\0\0\x05Hello\
    \0\0\0\0\0\0\0\0\0\0\0\
    \0\
    \0\0\0\0\
    \0\0\0\x01\
    \0\0\0(https://club.example/users/ana/followers\
    \0\0\0\0\0\0\0\0\0\0\0\0\
    \0\0\0\0\0\0\0\0\0\
    \0\0\0\0.\xbc\x98\xa1";

/// A history of all kinds of entries.
pub const HISTORY: [&[u8]; 11] = [
    HOSTED, ANA, BEN, CREATE, FOLLOW, LIKE, LAKE, FOLLOWED, LIKED, LIKED_TOO, TRIED,
];

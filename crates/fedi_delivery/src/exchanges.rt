//! The two exchanges of a delivery.

ghost use Rattle.std.specs.Prelude.{◌≡◌, length};
ghost use Rattle.fedi_delivery.specs.Exchanges.{LooksUp, Posts, asking_for, told};

use crate::replies::{Found, came_of, found_in, lookup_failed, post_failed};
use fedi_address::Iri;
use fedi_objects::Came;
use fedi_outside::{Failed, Link};
use std::alloc::{AllocError, Global};

/// Sends the lookup of the recipient, which `lookup_bytes` made, to the address and reads the
/// reply. The result is `Inbox` if the reply is an actor document with the recipient's id and an
/// inbox at the recipient's host (ActivityPub, section 4.1). Otherwise the attempt ends (`Ended`):
///
/// | Outcome | If |
/// |---|---|
/// | `Failed` | the exchange failed, and the link has counted it |
/// | `NoHead` | the reply has no head of at most 64 fields, or its status is below 100 |
/// | `Status` | its status is not 200 |
/// | `BadActor` | the bytes after its head are not such a document |
///
/// `buffer` has room for `REPLY_LENGTH` bytes; its contents afterwards have no meaning. The error
/// is out of memory, which occurs only in reading a document. The request was sent even so.
pub fn look_up<K: Link>(
    alloc: Global,
    link: &mut K,
    address: &str,
    request: &[u8],
    recipient: &Iri,
    buffer: &mut [u8],
) -> Result<Found, AllocError>
    requires { length buffer.old ≡ 65536 }
    ensures looks_up { LooksUp
        (told (K.asked link.old) (K.heard link.old) (K.link_faults link.old))
        (told (K.asked link.new) (K.heard link.new) (K.link_faults link.new))
        (asking_for address.now request.now) recipient.now result }
    ensures room { length buffer.new ≡ length buffer.old }
{
    match link.exchange(address, request, buffer) {
        Ok(count) => found_in(alloc, &buffer[..count], recipient),
        Err(Failed) => Ok(lookup_failed()),
    }
}

/// Sends the post to an inbox, which `post_bytes` made, to the address and returns the outcome:
/// `Failed` if the exchange failed, and the link has counted it; `NoHead` if the reply has no head
/// of at most 64 fields or its status is below 100; and otherwise its `Status`. `buffer` is as for
/// `look_up`. It takes no memory.
pub fn post<K: Link>(link: &mut K, address: &str, request: &[u8], buffer: &mut [u8]) -> Came
    requires { length buffer.old ≡ 65536 }
    ensures posts { Posts
        (told (K.asked link.old) (K.heard link.old) (K.link_faults link.old))
        (told (K.asked link.new) (K.heard link.new) (K.link_faults link.new))
        (asking_for address.now request.now) result }
    ensures room { length buffer.new ≡ length buffer.old }
{
    match link.exchange(address, request, buffer) {
        Ok(count) => came_of(&buffer[..count]),
        Err(Failed) => post_failed(),
    }
}

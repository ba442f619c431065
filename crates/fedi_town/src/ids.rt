//! The ids of this server's actors, activities and objects. Out of memory is the only error.

ghost use Rattle.std.specs.Prelude.{◌≡◌, ◌++◌, IfOk, codes, decimal, string_bytes};
ghost use Rattle.fedi_town.specs.Ids.{actor_id, activity_id, object_id};

use fedi_address::{Host, Iri, LocalName};
use itoa::Buffer;
use std::alloc::{AllocError, Global};

// Room for the path of an id: a name has at most 30 bytes, and a number 20 digits.
const ROOM: usize = 64;

/// The id of a member (ActivityPub, section 3.1).
#[tactic(auto, using(crate::proofs::Paths::actor_path_is_plain), unfolding(crate::specs::Ids::actor_id))]
pub fn actor_iri(alloc: Global, host: &Host, name: &LocalName) -> Result<Iri, AllocError>
    ensures { IfOk result (λ iri. iri ≡ actor_id host.now name.now) }
{
    let mut path = String::with_capacity(alloc, ROOM)?;
    path.push_str("/users/")?;
    path.push_str(name.text())?;
    Iri::at(alloc, host, &path)
}

// The path of the member's item of this kind and number.
fn numbered_path(alloc: Global, name: &str, kind: &str, number: u64) -> Result<String, AllocError>
    ensures { IfOk result (λ path. string_bytes path
        ≡ codes "/users/" ++ (name.now ++ (kind.now ++ decimal number))) }
{
    let mut digits = Buffer::new();
    let mut path = String::with_capacity(alloc, ROOM)?;
    path.push_str("/users/")?;
    path.push_str(name)?;
    path.push_str(kind)?;
    path.push_str(digits.format(number))?;
    Ok(path)
}

/// The id of a member's activity with this number.
#[tactic(auto, using(crate::proofs::Paths::activity_path_is_plain), unfolding(crate::specs::Ids::activity_id))]
pub fn activity_iri(
    alloc: Global,
    host: &Host,
    name: &LocalName,
    number: u64,
) -> Result<Iri, AllocError>
    ensures { IfOk result (λ iri. iri ≡ activity_id host.now name.now number) }
{
    let path = numbered_path(alloc, name.text(), "/a/", number)?;
    Iri::at(alloc, host, &path)
}

/// The id of the object that a member's activity with this number made.
#[tactic(auto, using(crate::proofs::Paths::object_path_is_plain), unfolding(crate::specs::Ids::object_id))]
pub fn object_iri(
    alloc: Global,
    host: &Host,
    name: &LocalName,
    number: u64,
) -> Result<Iri, AllocError>
    ensures { IfOk result (λ iri. iri ≡ object_id host.now name.now number) }
{
    let path = numbered_path(alloc, name.text(), "/o/", number)?;
    Iri::at(alloc, host, &path)
}

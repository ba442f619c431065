//! Writing entries as bytes.

ghost use Rattle.std.specs.Prelude.{◌≡◌, ◌++◌, ◌<◌, ◌^◌, length, IfOk, IfSome, OnOk};
ghost use Rattle.fedi_entry.specs.Codes.{came_code, code_of, entry_number, fields_code};
ghost use Rattle.fedi_entry.specs.Codes.{option_code, repeat_code, what_code, Fits};
ghost use Rattle.fedi_entry.specs.Fields.{IsFormed, IsRepeat};
ghost use Rattle.fedi_entry.specs.Limits.{KeepsLimits};

use crate::values::{
    Encode, put_bool, put_byte, put_bytes, put_key, put_moment, put_status, put_text,
};
use fedi_objects::{Came, Entry, ObjectRef, RepeatKey, What};
use std::alloc::{AllocError, Global};

/// The capacity for an entry without long texts.
const ROOM: usize = 1024;

/// The maximum number of bytes in an entry, so that each length and each count in it fits in four
/// bytes.
const LONGEST: usize = 4_294_967_295;

/// Appends the repeat key, if there is one, with its digest.
#[tactic(auto, using(fedi_objects::proofs::KeyLemmas::is_utf8_key), unfolding(crate::specs::Codes::option_code, crate::specs::Codes::repeat_code))]
fn put_repeat(bytes: &mut Vec<u8>, repeat: &Option<(RepeatKey, [u8; 32])>) -> Result<(), AllocError>
    ensures code { OnOk result (bytes.new.items
        ≡ bytes.old.items ++ option_code repeat_code repeat.now) }
    ensures formed { OnOk result (IfSome repeat.now IsRepeat) }
{
    match repeat {
        None => put_byte(bytes, 0),
        Some(repeat) => {
            put_byte(bytes, 1)?;
            put_bytes(bytes, repeat.0.bytes())?;
            put_key(bytes, &repeat.1)
        }
    }
}

/// Appends the result of a lookup or a post.
#[tactic(auto, unfolding(crate::specs::Codes::what_code))]
fn put_what(bytes: &mut Vec<u8>, what: &What) -> Result<(), AllocError>
    ensures { OnOk result (bytes.new.items ≡ bytes.old.items ++ what_code what.now) }
{
    match what {
        What::Failed => put_byte(bytes, 0),
        What::NoHead => put_byte(bytes, 1),
        What::BadActor => put_byte(bytes, 2),
        What::Status(status) => {
            put_byte(bytes, 3)?;
            put_status(bytes, *status)
        }
    }
}

/// Appends the result of an attempt to deliver.
#[tactic(auto, unfolding(crate::specs::Codes::came_code))]
fn put_came(bytes: &mut Vec<u8>, came: &Came) -> Result<(), AllocError>
    ensures { OnOk result (bytes.new.items ≡ bytes.old.items ++ came_code came.now) }
{
    put_byte(bytes, came.step as u8)?;
    put_what(bytes, &came.what)
}

/// The byte for the kind of the entry.
fn kind_number(entry: &Entry) -> u8
    ensures { result ≡ entry_number entry.now }
{
    match entry {
        Entry::Hosted { .. } => 1,
        Entry::Made { .. } => 2,
        Entry::PeerSet { .. } => 3,
        Entry::Local { .. } => 4,
        Entry::Remote { .. } => 5,
        Entry::Tried { .. } => 6,
    }
}

/// Appends the fields of an entry.
#[tactic(auto, unfolding(crate::specs::Codes::fields_code, crate::specs::Fields::IsFormed, crate::specs::Limits::KeepsLimits))]
fn put_fields(bytes: &mut Vec<u8>, entry: &Entry) -> Result<(), AllocError>
    requires limits { KeepsLimits entry.now }
    ensures code { OnOk result (bytes.new.items ≡ bytes.old.items ++ fields_code entry.now) }
    ensures formed { OnOk result (IsFormed entry.now) }
{
    let moment = match entry {
        Entry::Hosted { host, moment } => {
            host.put(bytes)?;
            moment
        }
        Entry::Made {
            name,
            digest,
            locked,
            moment,
        } => {
            name.put(bytes)?;
            put_key(bytes, digest)?;
            put_bool(bytes, *locked)?;
            moment
        }
        Entry::PeerSet {
            host,
            key,
            address,
            relay,
            moment,
        } => {
            host.put(bytes)?;
            put_key(bytes, key)?;
            put_text(bytes, address.text())?;
            put_bool(bytes, *relay)?;
            moment
        }
        Entry::Local {
            name,
            repeat,
            activity,
            moment,
        } => {
            name.put(bytes)?;
            put_repeat(bytes, repeat)?;
            activity.put(bytes)?;
            moment
        }
        Entry::Remote {
            peer,
            inbox,
            activity,
            moment,
        } => {
            peer.put(bytes)?;
            inbox.put(bytes)?;
            activity.put(bytes)?;
            moment
        }
        Entry::Tried {
            activity,
            recipient,
            came,
            moment,
        } => {
            activity.put(bytes)?;
            recipient.put(bytes)?;
            put_came(bytes, came)?;
            moment
        }
    };
    put_moment(bytes, *moment)
}

/// The bytes of an entry; reading them returns the same entry. Each field has to keep its limit, as
/// it does in every entry that may come next in a history.
///
/// The error is out of memory. It is also returned for an entry that does not fit in a record: one
/// of more than 4,294,967,295 bytes, or with a list of more items, since no rule limits the number
/// of mentions. A caller can do no more about one than about the other, and everything that can be
/// posted or delivered is far smaller.
#[tactic(auto, unfolding(crate::specs::Codes::code_of))]
pub fn encode(alloc: Global, entry: &Entry) -> Result<Vec<u8>, AllocError>
    requires limits { KeepsLimits entry.now }
    ensures code { IfOk result (λ bytes. bytes.items ≡ code_of entry.now) }
    ensures short { IfOk result (λ bytes. length bytes.items < 2 ^ 32) }
    ensures fits { OnOk result (Fits entry.now) }
    ensures formed { OnOk result (IsFormed entry.now) }
{
    let mut bytes = Vec::with_capacity(alloc, room_for(entry))?;
    put_byte(&mut bytes, kind_number(entry))?;
    put_fields(&mut bytes, entry)?;
    if bytes.len() > LONGEST {
        return Err(AllocError);
    }
    Ok(bytes)
}

/// The capacity that is sufficient for the bytes of most entries.
fn room_for(entry: &Entry) -> usize {
    let (Entry::Local { activity, .. } | Entry::Remote { activity, .. }) = entry else {
        return ROOM;
    };
    let ObjectRef::Whole(object) = &activity.object else {
        return ROOM;
    };
    match &object.content {
        Some(content) => ROOM.saturating_add(content.text().len()),
        None => ROOM,
    }
}

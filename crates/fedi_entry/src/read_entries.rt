//! Reading entries from bytes.

ghost use Rattle.std.specs.Prelude.{◌≡◌, ◌≢◌, ℕ, List, length, IfOk, IfErr};
ghost use Rattle.fedi_objects.specs.declared.entry.Entry.{Entry};
ghost use Rattle.fedi_entry.specs.Codes.{code_of};
ghost use Rattle.fedi_entry.specs.Fields.{IsFormed};
ghost use Rattle.fedi_entry.specs.Reading.{entry_at, hosted_at, last_at, local_at, made_at};
ghost use Rattle.fedi_entry.specs.Reading.{peer_set_at, read_entry, remote_at, sent_at, tried_at};
ghost use Rattle.fedi_entry.specs.Reading.{what_at, Ends, Gives, Takes};

use crate::fault::{EntryFault, ReadFault};
use crate::known_hosts::KnownHosts;
use crate::read_values::{Address, Decode};
use crate::reader::Reader;
use fedi_objects::{Came, Entry, Sent, What};
use fedi_text::Moment;
use std::alloc::Global;

/// The request of a delivery at which something happened.
#[tactic(auto, unfolding(crate::specs::Reading::sent_at))]
fn take_sent(reader: &mut Reader<'_>) -> Result<Sent, ReadFault>
    ensures { Takes result reader.new (sent_at reader.old) }
{
    let fault = reader.fault();
    match reader.byte()? {
        0 => Ok(Sent::Lookup),
        1 => Ok(Sent::Post),
        _ => Err(fault),
    }
}

/// The result of a lookup or a post. Only a lookup can result in a bad actor.
#[tactic(auto, unfolding(crate::specs::Reading::what_at))]
fn take_what(reader: &mut Reader<'_>, step: Sent) -> Result<What, ReadFault>
    ensures { Takes result reader.new (what_at step reader.old) }
{
    let fault = reader.fault();
    match (reader.byte()?, step) {
        (0, _) => Ok(What::Failed),
        (1, _) => Ok(What::NoHead),
        (2, Sent::Lookup) => Ok(What::BadActor),
        (3, _) => Ok(What::Status(reader.status()?)),
        _ => Err(fault),
    }
}

impl Decode for Came {
    ghost use Rattle.fedi_entry.specs.Reading.{came_at};

    ghost at = { came_at };

    #[tactic(auto, unfolding(crate::specs::Reading::came_at))]
    fn decode(reader: &mut Reader<'_>) -> Result<Came, ReadFault> {
        let step = take_sent(reader)?;
        let what = take_what(reader, step)?;
        Ok(Came { step, what })
    }
}

/// The entry that the server was set up. Its host is known from then on.
#[tactic(auto, unfolding(crate::specs::Reading::hosted_at))]
fn take_hosted(reader: &mut Reader<'_>) -> Result<Entry, ReadFault>
    ensures { Takes result reader.new (hosted_at reader.old) }
{
    Ok(Entry::Hosted {
        host: reader.own_host()?,
        moment: Moment::decode(reader)?,
    })
}

/// The entry that a member was created.
#[tactic(auto, unfolding(crate::specs::Reading::made_at))]
fn take_made(reader: &mut Reader<'_>) -> Result<Entry, ReadFault>
    ensures { Takes result reader.new (made_at reader.old) }
{
    let (name, (digest, (locked, moment))) = Decode::decode(reader)?;
    Ok(Entry::Made {
        name,
        digest,
        locked,
        moment,
    })
}

/// The entry that another server became a peer. Its host is known from then on.
#[tactic(auto, unfolding(crate::specs::Reading::peer_set_at))]
fn take_peer_set(reader: &mut Reader<'_>) -> Result<Entry, ReadFault>
    ensures { Takes result reader.new (peer_set_at reader.old) }
{
    let host = reader.other_host()?;
    let (key, (address, (relay, moment))) = <([u8; 32], (Address, (bool, Moment)))>::decode(
        reader,
    )?;
    Ok(Entry::PeerSet {
        host,
        key,
        address: address.text,
        relay,
        moment,
    })
}

/// A member's post.
#[tactic(auto, unfolding(crate::specs::Reading::local_at))]
fn take_local(reader: &mut Reader<'_>) -> Result<Entry, ReadFault>
    ensures { Takes result reader.new (local_at reader.old) }
{
    let (name, (repeat, (activity, moment))) = Decode::decode(reader)?;
    Ok(Entry::Local {
        name,
        repeat,
        activity,
        moment,
    })
}

/// A peer's delivery. The peer's host is known from then on.
#[tactic(auto, unfolding(crate::specs::Reading::remote_at))]
fn take_remote(reader: &mut Reader<'_>) -> Result<Entry, ReadFault>
    ensures { Takes result reader.new (remote_at reader.old) }
{
    let peer = reader.other_host()?;
    let (inbox, (activity, moment)) = Decode::decode(reader)?;
    Ok(Entry::Remote {
        peer,
        inbox,
        activity,
        moment,
    })
}

/// An attempt to deliver an activity.
#[tactic(auto, unfolding(crate::specs::Reading::tried_at))]
fn take_tried(reader: &mut Reader<'_>) -> Result<Entry, ReadFault>
    ensures { Takes result reader.new (tried_at reader.old) }
{
    let (activity, (recipient, (came, moment))) = Decode::decode(reader)?;
    Ok(Entry::Tried {
        activity,
        recipient,
        came,
        moment,
    })
}

/// An entry: its kind, and its fields.
#[tactic(auto, unfolding(crate::specs::Reading::entry_at))]
fn take_entry(reader: &mut Reader<'_>) -> Result<Entry, ReadFault>
    ensures { Takes result reader.new (entry_at reader.old) }
{
    let fault = reader.fault();
    match reader.byte()? {
        1 => take_hosted(reader),
        2 => take_made(reader),
        3 => take_peer_set(reader),
        4 => take_local(reader),
        5 => take_remote(reader),
        6 => take_tried(reader),
        _ => Err(fault),
    }
}

/// An entry that is not followed by any byte.
#[tactic(auto, unfolding(crate::specs::Reading::last_at))]
fn take_last(reader: &mut Reader<'_>) -> Result<Entry, ReadFault>
    ensures { Ends result (last_at reader.old) }
{
    let entry = take_entry(reader)?;
    if reader.left() == 0 {
        Ok(entry)
    } else {
        Err(reader.fault())
    }
}

/// The entry that these bytes encode; no other entry has the same bytes. The errors are `BadEntry`,
/// exactly if no entry whose fields are well formed has these bytes, and `Memory`, out of memory.
///
/// `place` is the offset of the first field that cannot be read, or the offset of the entry's end
/// if bytes follow it. A field is a number, a key, a text or one of the bytes that say what
/// follows.
///
/// The known hosts then include those that the entry names.
#[tactic(auto, unfolding(crate::specs::Reading::read_entry))]
pub fn decode(alloc: Global, hosts: &mut KnownHosts, bytes: &[u8]) -> Result<Entry, EntryFault>
    ensures code { IfOk result (λ entry. code_of entry ≡ bytes.now) }
    ensures formed { IfOk result (λ entry. IsFormed entry) }
    ensures only { IfOk result (λ entry. (other : Entry)
        → IsFormed other → code_of other ≡ bytes.now → other ≡ entry) }
    ensures none { IfErr result (λ fault. fault ≢ EntryFault.Memory → (entry : Entry)
        → IsFormed entry → code_of entry ≢ bytes.now) }
    ensures exact { Gives result (read_entry bytes.now) }
{
    match take_last(&mut Reader::new(alloc, hosts, bytes)) {
        Ok(entry) => Ok(entry),
        // At most as many bytes are left as there were, so the subtraction does not saturate.
        Err(ReadFault::BadField { left }) => Err(EntryFault::BadEntry {
            place: bytes.len().saturating_sub(left),
        }),
        Err(ReadFault::Memory) => Err(EntryFault::Memory),
    }
}

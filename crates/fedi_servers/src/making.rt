//! The entries with which a server in memory begins, and its machine.

ghost use Rattle.std.specs.Prelude.{◌≡◌, IfOk, IsTrue, OnOk};
ghost use Rattle.fedi_address.specs.Hosts.{is_host_text};
ghost use Rattle.fedi_objects.specs.declared.entry.Entry.TheVariants.{Hosted};
ghost use Rattle.fedi_opening.specs.Opening.{IsNext};
ghost use Rattle.fedi_servers.specs.Founding.{member, moment, numbered, peer};
ghost use Rattle.fedi_servers.specs.Machines.{IsNewMachine};
ghost use Rattle.fedi_town.specs.Towns.{empty_town};

use crate::servers::MOMENT;
use fedi_address::{Host, LocalName};
use fedi_core::Core;
use fedi_effects::Seed;
use fedi_entry::encode;
use fedi_index::IndexedShelf;
use fedi_objects::Entry;
use fedi_outside::{CalmKeeper, Keeper};
use fedi_text::{Moment, Text};
use std::alloc::{AllocError, Global};

/// The machine of a server in memory.
pub type ServerCore = Core<IndexedShelf, CalmKeeper>;

/// 24 zero bytes, and the number in eight bytes, the most significant first.
#[tactic(auto, unfolding(crate::specs::Founding::numbered))]
fn numbered(number: u64) -> [u8; 32]
    ensures { result ≡ numbered number }
{
    let mut bytes = [0; 32];
    bytes[24..].copy_from_slice(&number.to_be_bytes());
    bytes
}

/// The entry that makes a member of this name, who is not locked.
pub(crate) fn member(name: LocalName, number: u64) -> Entry
    ensures { result ≡ member name number }
{
    Entry::Made {
        name,
        digest: numbered(number),
        locked: false,
        moment: Moment::clamped(MOMENT),
    }
}

/// The entry that makes the server of this host a peer. The error is out of memory.
pub(crate) fn peer(alloc: Global, host: &Host, number: u64) -> Result<Entry, AllocError>
    ensures entry { IfOk result (λ entry. entry ≡ peer host.now number) }
    ensures host { OnOk result (IsTrue (is_host_text host.now)) }
{
    Ok(Entry::PeerSet {
        host: host.clone()?,
        key: numbered(number),
        address: Text::from_text(alloc, host.text())?,
        relay: false,
        moment: Moment::clamped(MOMENT),
    })
}

/// The entry that sets a server up for this host.
fn first_entry(host: Host) -> Entry
    ensures entry { result ≡ Hosted host moment }
    ensures next { IsNext empty_town (Hosted host moment) }
{
    // For the proof: this shows that the host is valid, as its type says.
    let _ = host.text();
    Entry::Hosted {
        host,
        moment: Moment::clamped(MOMENT),
    }
}

/// The machine of a server that was set up for this host, and has nothing else so far. The error is
/// out of memory.
pub(crate) fn machine(alloc: Global, host: Host) -> Result<ServerCore, AllocError>
    ensures { IfOk result (λ core. IsNewMachine host core) }
{
    let entry = first_entry(host);
    let code = encode(alloc, &entry)?;
    let mut keeper = CalmKeeper::new(alloc);
    let Ok(()) = keeper.reserve(code.len()) else {
        return Err(AllocError);
    };
    // A calm keeper does not fail.
    let _ = keeper.append(&code);
    // Nobody outside chooses the ids that are looked up, so the seed need not be secret.
    let shelf = IndexedShelf::empty(alloc, Seed::new(b""))?;
    // The one record is the code of an entry that may come first, so there is no other error.
    match Core::open(alloc, shelf, keeper) {
        Ok(core) => Ok(core),
        Err(_) => Err(AllocError),
    }
}

//! Making a peer, as an operator asks.

ghost use Rattle.std.specs.Prelude.{◌≡◌, IfOk, IsTrue, None, is_some};
ghost use Rattle.fedi_log.specs.Keeping.{base_of, state_of};
ghost use Rattle.fedi_log.specs.Log.{given};
ghost use Rattle.fedi_logged.specs.Marks.{SurvivesMarked};
ghost use Rattle.fedi_program.specs.Peers.{MakesPeer, peer_line};
ghost use Rattle.fedi_program.specs.Seen.{output};
ghost use Rattle.fedi_town.specs.Histories.{town};

use crate::commands::NewPeer;
use crate::enrolling::enroll;
use crate::printing::report;
use crate::statuses::{OUT_OF_MEMORY, REFUSED};
use fedi_address::{Host, HostFault};
use fedi_core::Core;
use fedi_index::IndexedShelf;
use fedi_mac::read_key;
use fedi_objects::Entry;
use fedi_outside::{Clock, Keeper, Sink};
use fedi_text::{Moment, Text};
use std::alloc::{AllocError, Global};

/// The line that says that a host was made a peer. The error is out of memory.
#[tactic(auto, unfolding(crate::specs::Peers::peer_line))]
fn peer_line(alloc: Global, host: &str) -> Result<Vec<u8>, AllocError>
    ensures { IfOk result (λ line. line.items ≡ peer_line host.now) }
{
    let mut line = Vec::new(alloc);
    line.extend_from_slice(b"peer ")?;
    line.extend_from_slice(host.as_bytes())?;
    line.push(b'\n')?;
    Ok(line)
}

/// Makes another server a peer, as an operator asks: keeps an entry with its host, its key, its
/// address and whether it is a relay, and prints its host. Returns the exit status: at 0 and 7 the
/// peer was made. At 10 it was not, and the first thing that is wrong is reported: the host is
/// malformed, or is this server's or a peer's, the key is malformed, or the address is. At 5 the
/// disk failed: the peer was not made, unless the disk failed again when it was to undo what it had
/// of the entry, and then the next opening may find it.
pub fn make_peer<O: Sink, P: Keeper, C: Clock>(
    alloc: Global,
    core: &mut Core<IndexedShelf, P>,
    out: &mut O,
    clock: &C,
    peer: NewPeer<'_>,
) -> u8
    requires hosted { IsTrue (is_some (town core.old.history).host) }
    ensures made { MakesPeer P.growth P.room (C.told clock.now)
        (state_of core.old.history (P.shown core.old.keeper))
        (state_of core.new.history (P.shown core.new.keeper))
        (output O.Sink out.old) (output O.Sink out.new)
        peer.entry.host.now peer.entry.key.now peer.entry.address.now peer.entry.relay result }
    ensures crashes { SurvivesMarked
        (base_of P.growth P.room (state_of core.old.history (P.shown core.old.keeper)))
        None (given core.old.history) (state_of core.new.history (P.shown core.new.keeper))
        (P.crashes core.old.keeper) (P.crashes core.new.keeper) }
{
    let host = match Host::parse(alloc, peer.host) {
        Ok(host) => host,
        Err(HostFault::BadHost) => return report(out, REFUSED, b"refused: bad host\n"),
        Err(HostFault::Memory) => return OUT_OF_MEMORY,
    };
    if core.facts().is_taken_host(&host) {
        return report(out, REFUSED, b"refused: host taken\n");
    }
    let Some(key) = read_key(peer.key.as_bytes()) else {
        return report(out, REFUSED, b"refused: bad key\n");
    };
    let Ok(address) = Text::from_text(alloc, peer.address) else {
        return OUT_OF_MEMORY;
    };
    let entry = Entry::PeerSet {
        host,
        key,
        address,
        relay: peer.relay,
        moment: Moment::clamped(clock.now()),
    };
    enroll(alloc, core, out, entry, peer_line(alloc, peer.host))
}

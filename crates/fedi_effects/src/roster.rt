//! A copy of the members and the peers.

ghost use Rattle.std.specs.Prelude.{◌≡◌, IfOk};
ghost use Rattle.fedi_effects.specs.Rosters.{callers_in};

use crate::directory::Directory;
use crate::facts::{Facts, has_host};
use crate::members::Members;
use fedi_town::{Actor, Peer};
use std::alloc::{AllocError, Global};
use std::marker::Model;

/// A copy of the members and the peers that a history has made. It can be asked who makes a request
/// while the facts change, and stays true as long as no member and no peer is added.
#[derive(Drop)]
pub struct Roster {
    actors: Members,
    peers: Vec<Peer>,
}

impl Model for Roster {
    ghost use Rattle.fedi_effects.specs.Rosters.{Callers, roster_in};

    ghost Value = { Callers };

    ghost view = { roster_in };
}

fn copy_of(peer: &Peer) -> Result<Peer, AllocError>
    ensures { IfOk result (λ copy. copy ≡ peer.now) }
{
    Ok(Peer {
        host: peer.host.clone()?,
        key: peer.key,
        address: peer.address.clone()?,
        relay: peer.relay,
    })
}

fn copies_of(alloc: Global, peers: &[Peer]) -> Result<Vec<Peer>, AllocError>
    ensures { IfOk result (λ copies. copies.items ≡ peers.now) }
{
    let mut copies = Vec::with_capacity(alloc, peers.len())?;
    for peer in peers {
        copies.push(copy_of(peer)?)?;
    }
    Ok(copies)
}

impl Roster {
    /// A copy of the members and the peers of these facts. The error is out of memory.
    pub fn of(alloc: Global, facts: &Facts) -> Result<Roster, AllocError>
        ensures { IfOk result (λ roster. roster ≡ callers_in facts.now.town) }
    {
        let actors = facts.members().copy(alloc)?;
        let peers = copies_of(alloc, facts.peers())?;
        Ok(Roster { actors, peers })
    }
}

impl Directory for Roster {
    ghost callers = { λ roster. roster };

    fn actor_with(&self, digest: &[u8; 32]) -> Option<&Actor> {
        self.actors.with_digest(digest)
    }

    fn peer(&self, host: &str) -> Option<&Peer> {
        self.peers.iter().find(|peer| has_host(peer, host))
    }
}

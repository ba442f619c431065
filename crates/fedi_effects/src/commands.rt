//! The rules on an operator's commands.

ghost use Rattle.std.specs.Prelude.{◌≡◌, None, Some, MatchResult};
ghost use Rattle.std.specs.List.{list_any};
ghost use Rattle.fedi_town.specs.Legal.{broken_command, is_taken_host};
ghost use Rattle.fedi_town.specs.Towns.{has_digest, has_host, has_name};

use crate::facts::{Facts, has_host};
use fedi_address::{Host, LocalName};
use fedi_objects::{Entry, is_address};
use fedi_town::CommandFault;

impl Facts {
    fn has_member(&self, name: &LocalName) -> bool
        ensures { result ≡ list_any (has_name name.now) self.now.town.actors }
    {
        self.members().named(name).is_some()
    }

    fn has_key(&self, digest: &[u8; 32]) -> bool
        ensures { result ≡ list_any (has_digest digest.now) self.now.town.actors }
    {
        self.members().with_digest(digest).is_some()
    }

    fn has_peer(&self, host: &str) -> bool
        ensures { result ≡ list_any (has_host host.now) self.now.town.peers }
    {
        self.peers().iter().any(|peer| has_host(peer, host))
    }

    /// Whether the host is this server's or a peer's. Before the server is set up, every host
    /// counts as taken.
    pub fn is_taken_host(&self, host: &Host) -> bool
        ensures { result ≡ is_taken_host self.now.town host.now }
    {
        match self.host() {
            Some(own) => host == own || self.has_peer(host.text()),
            None => true,
        }
    }

    /// The first rule that an operator's command breaks, if it breaks one: the server is set up
    /// once; a member's name and key are new; a peer is another host that is new, and its address
    /// has 1 to 255 bytes of visible ASCII without a space. Other entries are not commands and
    /// break no rule.
    pub fn judge_command(&self, entry: &Entry) -> Result<(), CommandFault>
        ensures { MatchResult result
            (λ _. broken_command self.now.town entry.now ≡ None)
            (λ fault. broken_command self.now.town entry.now ≡ Some fault) }
    {
        match entry {
            Entry::Hosted { .. } if self.host().is_some() => Err(CommandFault::HostTaken),
            Entry::Made { name, .. } if self.has_member(name) => Err(CommandFault::NameTaken),
            Entry::Made { digest, .. } if self.has_key(digest) => Err(CommandFault::KeyTaken),
            Entry::PeerSet { host, .. } if self.is_taken_host(host) => Err(CommandFault::HostTaken),
            Entry::PeerSet { address, .. } if !is_address(address.text()) => Err(
                CommandFault::BadAddress,
            ),
            Entry::Hosted { .. }
            | Entry::Made { .. }
            | Entry::PeerSet { .. }
            | Entry::Local { .. }
            | Entry::Remote { .. }
            | Entry::Tried { .. } => Ok(()),
        }
    }
}

//! Where the callers of requests are looked up.

ghost use Rattle.std.specs.Prelude.{◌≡◌, option_copied};
ghost use Rattle.std.specs.List.{find};
ghost use Rattle.fedi_town.specs.Towns.{has_digest, has_host};
ghost use Rattle.fedi_effects.specs.Rosters.{Callers, callers_in};

use crate::facts::Facts;
use fedi_town::{Actor, Peer};

/// Members and peers, looked up by what a request shows about its caller.
pub trait Directory {
    /// The members and the peers.
    ghost callers: { Self → Callers };

    /// The member whose key has this digest, or none if there is no such member.
    fn actor_with(&self, digest: &[u8; 32]) -> Option<&Actor>
        ensures { option_copied result ≡ find (has_digest digest.now) (callers self.now).actors };

    /// The peer of this host, or none if there is no such peer.
    fn peer(&self, host: &str) -> Option<&Peer>
        ensures { option_copied result ≡ find (has_host host.now) (callers self.now).peers };
}

impl Directory for Facts {
    ghost callers = { λ facts. callers_in facts.town };

    fn actor_with(&self, digest: &[u8; 32]) -> Option<&Actor> {
        Facts::actor_with(self, digest)
    }

    fn peer(&self, host: &str) -> Option<&Peer> {
        Facts::peer(self, host)
    }
}

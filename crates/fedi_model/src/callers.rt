//! Who the caller is.

ghost use Rattle.std.specs.Prelude.{◌≡◌};
ghost use Rattle.fedi_model.specs.Reading.{is_nobody, is_peer, is_self};

use fedi_address::LocalName;
use fedi_town::Caller;

/// Whether the caller presents no identity.
pub fn is_nobody(caller: &Caller) -> bool
    ensures { result ≡ is_nobody caller.now }
{
    match caller {
        Caller::Nobody => true,
        Caller::Actor(_) | Caller::Peer(_) => false,
    }
}

/// Whether the caller is the member with this name.
pub fn is_self(caller: &Caller, name: &LocalName) -> bool
    ensures { result ≡ is_self caller.now name.now }
{
    match caller {
        Caller::Actor(own) => own == name,
        Caller::Nobody | Caller::Peer(_) => false,
    }
}

/// Whether the caller is another server.
pub fn is_peer(caller: &Caller) -> bool
    ensures { result ≡ is_peer caller.now }
{
    match caller {
        Caller::Peer(_) => true,
        Caller::Nobody | Caller::Actor(_) => false,
    }
}

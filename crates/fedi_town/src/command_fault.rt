//! Why an operator's command is refused.

use thiserror::Error;

/// Why an operator's command is refused.
#[derive(Clone, Copy, Debug, PartialEq, Eq, Error)]
pub enum CommandFault {
    /// A member already has this name.
    #[error("name taken")]
    NameTaken,
    /// A member already has this key.
    #[error("key taken")]
    KeyTaken,
    /// The host belongs to this server or to a peer.
    #[error("host taken")]
    HostTaken,
    /// The address is not a valid address of a peer: 1 to 255 printing ASCII characters other than
    /// a space.
    #[error("bad address")]
    BadAddress,
    /// The keeper has no room for the record.
    #[error("full")]
    Full,
    /// The keeper failed.
    #[error("the keeper failed")]
    KeeperFault,
    /// Out of memory.
    #[error("out of memory")]
    Memory,
}

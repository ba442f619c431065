//! Hosts whose IRIs are recognized by their text.

ghost use Rattle.std.specs.Prelude.{◌≡◌, IfOk, IfSome, IsTrue};
ghost use Rattle.std.specs.List.{list_all};
ghost use Rattle.fedi_address.specs.Hosts as hosts;
ghost use Rattle.fedi_address.specs.Hosts.{IsHost};
ghost use Rattle.fedi_address.specs.Names as names;

use fedi_address::{Host, Iri};
use std::alloc::{AllocError, Global};

/// The maximum length of the path of an IRI that is recognized by its text, in bytes.
const LONGEST_PATH: usize = 128;

/// The host that was set up, and the last other host, as named by the entries that were read. An
/// IRI with a plain path at one of them, and the IRI of everyone, is recognized by its text, which
/// is faster than parsing it. The known hosts have no effect on what is read.
#[derive(Drop)]
pub struct KnownHosts {
    own: Option<Host>,
    other: Option<Host>,
}

fn is_name_byte(byte: u8) -> bool
    ensures { result ≡ names.is_name_byte byte }
{
    byte.is_ascii_lowercase() || byte.is_ascii_digit() || byte == b'_'
}

fn has_path_bytes(path: &[u8]) -> bool
    ensures { result ≡ list_all hosts.is_path_byte path.now }
{
    path.iter().all(|byte| is_name_byte(*byte) || *byte == b'/')
}

fn is_plain_path(path: &[u8]) -> bool
    ensures { IsTrue result → IsTrue (hosts.is_plain_path path.now) }
{
    if path.is_empty() || path[0] != b'/' || path.len() > LONGEST_PATH {
        return false;
    }
    has_path_bytes(path)
}

impl KnownHosts {
    /// No host yet. This allocates nothing.
    pub fn new() -> KnownHosts {
        KnownHosts {
            own: None,
            other: None,
        }
    }

    /// Stores the host that was set up. The error is out of memory.
    pub(crate) fn keep_own(&mut self, host: &Host) -> Result<(), AllocError> {
        self.own = Some(host.clone()?);
        Ok(())
    }

    /// Stores the host of another server, unless it is known already. The error is out of memory.
    pub(crate) fn keep_other(&mut self, host: &Host) -> Result<(), AllocError> {
        if self.named(host.text()).is_none() {
            self.other = Some(host.clone()?);
        }
        Ok(())
    }

    /// The known host with this text, if there is one.
    pub(crate) fn named(&self, text: &str) -> Option<&Host>
        ensures same { IfSome result (λ host. host.now ≡ text.now) }
        ensures host { IfSome result (λ host. IsHost host.now) }
    {
        match (&self.own, &self.other) {
            (Some(host), _) if host.text() == text => Some(host),
            (_, Some(host)) if host.text() == text => Some(host),
            _ => None,
        }
    }

    /// The IRI that the text may be: that of everyone, or a plain path at a known host. The error
    /// is out of memory.
    pub(crate) fn guess(&self, alloc: Global, text: &str) -> Result<Option<Iri>, AllocError> {
        if text == Iri::PUBLIC {
            return Ok(Some(Iri::public(alloc)?));
        }
        let Some(onward) = text.strip_prefix("https://") else {
            return Ok(None);
        };
        let Some(end) = onward.find('/') else {
            return Ok(None);
        };
        let (host, path) = onward.split_at(end);
        match self.named(host) {
            Some(host) if is_plain_path(path.as_bytes()) => Ok(Some(Iri::at(alloc, host, path)?)),
            _ => Ok(None),
        }
    }
}

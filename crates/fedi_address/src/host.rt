//! Hosts: the names of servers.

ghost use Rattle.std.specs.Prelude.{◌≡◌, ◌||◌, ℕ, List, codes, bytes_eq, string_bytes, IfOk, IfErr};
ghost use Rattle.std.specs.List.{list_all};
ghost use Rattle.fedi_address.specs.Hosts.{address, IsHost};
ghost use Rattle.fedi_address.specs.Hosts as hosts;
ghost use Rattle.fedi_address.specs.Names as names;
ghost use Rattle.fedi_address.specs.Iris.{IsIri};
ghost use Rattle.std.specs.Cmp.{partial_equiv_from_equiv};
ghost use Rattle.std.specs.Cmp.Lexicographic.{nat_list_eq_equiv};
ghost use Rattle.fedi_address.specs.declared.host.HostFault.TheVariants.{Memory};

use crate::iri::is_normal;
use std::alloc::{AllocError, Global};
use std::marker::Model;
use std::ops::DerefStr;
use thiserror::Error;

/// A host: 1 to 253 bytes of `a` to `z`, `0` to `9`, `.` and `-`, and if it has a port, `:` and 1
/// to 5 digits. `https://HOST/` is its own normal text (URL Standard, 4.5), so a host with the
/// number of a known port, such as 443, or with an address written in another way, is not valid.
#[derive(Drop)]
pub struct Host {
    text: String,
}

impl Model for Host {
    ghost use Rattle.std.specs.Prelude.{ℕ, List, codes, string_bytes};
    ghost use Rattle.fedi_address.specs.Hosts.{address, IsHost};
    ghost use Rattle.fedi_address.specs.Iris.{IsIri};

    ghost Value = { List ℕ };

    ghost view = { λ a. string_bytes a.text };

    ghost invariant = { λ a. IsHost (string_bytes a.text)
        × IsIri (address (string_bytes a.text) (codes "/")) };
}

/// Why a text gives no host.
#[derive(Clone, Copy, Debug, PartialEq, Eq, Error)]
pub enum HostFault {
    /// The text is not a valid host.
    #[error("the text is no host")]
    BadHost,
    /// Out of memory.
    #[error("out of memory")]
    Memory,
}

impl From<AllocError> for HostFault {
    ghost from_gives = { λ _ fault. fault ≡ Memory };

    fn from(_error: AllocError) -> HostFault {
        HostFault::Memory
    }
}

fn is_domain_byte(byte: u8) -> bool
    ensures { result ≡ hosts.is_domain_byte byte }
{
    byte.is_ascii_lowercase() || byte.is_ascii_digit() || byte == b'.' || byte == b'-'
}

fn has_domain_bytes(text: &[u8]) -> bool
    ensures { result ≡ list_all hosts.is_domain_byte text.now }
{
    text.iter().all(|byte| is_domain_byte(*byte))
}

fn is_domain(text: &[u8]) -> bool
    ensures { result ≡ hosts.is_domain text.now }
{
    if text.is_empty() || text.len() > 253 {
        return false;
    }
    has_domain_bytes(text)
}

fn has_digits(text: &[u8]) -> bool
    ensures { result ≡ list_all names.is_digit text.now }
{
    text.iter().all(|byte| byte.is_ascii_digit())
}

fn is_port(text: &[u8]) -> bool
    ensures { result ≡ hosts.is_port text.now }
{
    if text.is_empty() || text.len() > 5 {
        return false;
    }
    has_digits(text)
}

fn is_domain_and_port(text: &str) -> bool
    ensures { result ≡ hosts.is_domain_and_port text.now }
{
    match text.split_once(':') {
        Some((domain, port)) => is_domain(domain.as_bytes()) && is_port(port.as_bytes()),
        None => false,
    }
}

fn is_host_text(text: &str) -> bool
    ensures { result ≡ hosts.is_host_text text.now }
{
    is_domain(text.as_bytes()) || is_domain_and_port(text)
}

// `https://`, the host and the path.
pub(crate) fn address_text(alloc: Global, host: &str, path: &str) -> Result<String, AllocError>
    ensures { IfOk result (λ text. string_bytes text ≡ address host.now path.now) }
{
    let room = host.len().saturating_add(path.len()).saturating_add(8);
    let mut text = String::with_capacity(alloc, room)?;
    text.push_str("https://")?;
    text.push_str(host)?;
    text.push_str(path)?;
    Ok(text)
}

impl Host {
    /// The host with this text. The errors are `BadHost`, if the text is not a valid host, and
    /// `Memory`, if out of memory.
    pub fn parse(alloc: Global, text: &str) -> Result<Host, HostFault>
        ensures ok { IfOk result (λ host. host ≡ text.now) }
        ensures host { IfOk result (λ host. IsHost host) }
        ensures bad_host { IfErr result (λ e. e ≡ HostFault.BadHost → ¬ (IsHost text.now)) }
    {
        if !is_host_text(text) {
            return Err(HostFault::BadHost);
        }
        let root = address_text(alloc, text, "/")?;
        let own = is_normal(alloc, root.as_str())?;
        if !own {
            return Err(HostFault::BadHost);
        }
        let text = String::from_str(alloc, text)?;
        Ok(Host { text })
    }

    /// The text of the host, with its port if it has one.
    pub fn text(&self) -> &str
        ensures value { result.now ≡ self.now }
        ensures host { IsHost self.now }
        ensures root { IsIri (address self.now (codes "/")) }
    {
        self.text.as_str()
    }
}

impl Clone for Host {
    ghost is_clone = { λ host copy. copy ≡ host };

    fn clone(&self) -> Result<Host, AllocError> {
        Ok(Host {
            text: self.text.clone()?,
        })
    }
}

impl PartialEq for Host {
    ghost eq = { bytes_eq };

    ghost laws = { partial_equiv_from_equiv nat_list_eq_equiv };

    fn eq(&self, other: &Host) -> bool {
        self.text.as_str() == other.text.as_str()
    }
}

impl Eq for Host {
    ghost laws = { nat_list_eq_equiv };
}

impl DerefStr for Host {
    ghost deref_gives = { λ host text. text ≡ host };

    fn deref(&self) -> &str {
        self.text.as_str()
    }
}

//! Reading numbers, keys and texts at the front of bytes.

ghost use Rattle.std.specs.Prelude.{◌≡◌, length, IfOk, IfSome, None, false, true};
ghost use Rattle.std.specs.Int.{w16, w32, w64};
ghost use Rattle.fedi_entry.specs.Fields as fields;
ghost use Rattle.fedi_entry.specs.Reading.{byte_at, bytes_at, iri_at, number_at, slice_at};
ghost use Rattle.fedi_entry.specs.Reading.{status_at, text_at, utf8_at, Takes, TakesAs};

use crate::fault::ReadFault;
use crate::known_hosts::KnownHosts;
use crate::limits::Limit;
use fedi_address::{Host, HostFault, Iri, IriFault};
use fedi_text::Text;
use std::alloc::{AllocError, Global};
use std::marker::Model;
use std::str;

/// Bytes that are read from left to right. Each method reads a value at the front and then advances
/// past it. After an error the front may be anywhere.
#[derive(Drop)]
pub struct Reader<'a> {
    alloc: Global,
    hosts: &'a mut KnownHosts,
    rest: &'a [u8],
}

impl<'a> Model for Reader<'a> {
    ghost use Rattle.std.specs.Prelude.{ℕ, List};

    ghost Value = { List ℕ };

    ghost view = { λ r. r.rest.now };
}

impl<'a> Reader<'a> {
    /// A reader at the front of the bytes. It allocates what it reads with the allocator.
    pub fn new(alloc: Global, hosts: &'a mut KnownHosts, bytes: &'a [u8]) -> Reader<'a>
        ensures { result ≡ bytes.now }
    {
        Reader {
            alloc,
            hosts,
            rest: bytes,
        }
    }

    /// The allocator.
    pub fn allocator(&self) -> Global {
        self.alloc
    }

    /// The number of bytes left.
    pub fn left(&self) -> usize
        ensures { result ≡ length self.now }
    {
        self.rest.len()
    }

    /// The fault of a field at the front that cannot be read.
    pub fn fault(&self) -> ReadFault
        ensures { result ≡ ReadFault.BadField (length self.now) }
    {
        ReadFault::BadField {
            left: self.rest.len(),
        }
    }

    /// A number of two bytes.
    fn short(&mut self) -> Result<u16, ReadFault>
        ensures { Takes result self.new (number_at w16 self.old) }
    {
        let Some((front, rest)) = self.rest.split_first_chunk::<2>() else {
            return Err(self.fault());
        };
        self.rest = rest;
        Ok(u16::from_be_bytes(*front))
    }

    /// A length or a count: a number of four bytes.
    pub fn count(&mut self) -> Result<u32, ReadFault>
        ensures { Takes result self.new (number_at w32 self.old) }
    {
        let Some((front, rest)) = self.rest.split_first_chunk::<4>() else {
            return Err(self.fault());
        };
        self.rest = rest;
        Ok(u32::from_be_bytes(*front))
    }

    /// A number of eight bytes.
    pub fn long(&mut self) -> Result<u64, ReadFault>
        ensures { Takes result self.new (number_at w64 self.old) }
    {
        let Some((front, rest)) = self.rest.split_first_chunk::<8>() else {
            return Err(self.fault());
        };
        self.rest = rest;
        Ok(u64::from_be_bytes(*front))
    }

    /// A key or a digest.
    pub fn key(&mut self) -> Result<[u8; 32], ReadFault>
        ensures { Takes result self.new (bytes_at 32 self.old) }
    {
        let Some((front, rest)) = self.rest.split_first_chunk::<32>() else {
            return Err(self.fault());
        };
        self.rest = rest;
        Ok(*front)
    }

    /// A byte that says what follows.
    #[tactic(auto, unfolding(crate::specs::Reading::byte_at))]
    pub fn byte(&mut self) -> Result<u8, ReadFault>
        ensures { Takes result self.new (byte_at self.old) }
    {
        match self.rest {
            [byte, rest @ ..] => {
                self.rest = rest;
                Ok(*byte)
            }
            [] => Err(self.fault()),
        }
    }

    /// The status of a reply: 100 to 999.
    #[tactic(auto, unfolding(crate::specs::Reading::status_at))]
    pub fn status(&mut self) -> Result<u16, ReadFault>
        ensures { Takes result self.new (status_at self.old) }
    {
        let fault = self.fault();
        let status = self.short()?;
        if 100 <= status && status <= 999 {
            Ok(status)
        } else {
            Err(fault)
        }
    }

    // A length, and that many bytes.
    fn slice(&mut self) -> Result<&'a [u8], ReadFault>
        ensures { TakesAs (λ text. text.now) result self.new (slice_at self.old) }
    {
        let fault = self.fault();
        let len = self.count()? as usize;
        if self.rest.len() < len {
            return Err(fault);
        }
        let (text, rest) = self.rest.split_at(len);
        self.rest = rest;
        Ok(text)
    }

    /// A text in UTF-8.
    #[tactic(auto, using(crate::proofs::Texts::is_utf8_text, crate::proofs::Texts::is_no_utf8), unfolding(crate::specs::Reading::utf8_at))]
    pub fn text(&mut self) -> Result<&'a str, ReadFault>
        ensures { TakesAs (λ text. text.now) result self.new (utf8_at self.old) }
    {
        let fault = self.fault();
        let bytes = self.slice()?;
        match str::from_utf8(bytes) {
            Ok(text) => Ok(text),
            Err(_) => Err(fault),
        }
    }

    // The host of a server.
    #[tactic(auto, unfolding(crate::specs::Reading::text_at, crate::specs::Fields::is_host))]
    fn host(&mut self) -> Result<Host, ReadFault>
        ensures { Takes result self.new (text_at fields.is_host self.old) }
    {
        let fault = self.fault();
        let text = self.text()?;
        if let Some(host) = self.hosts.named(text) {
            return Ok(host.clone()?);
        }
        match Host::parse(self.alloc, text) {
            Ok(host) => Ok(host),
            Err(HostFault::BadHost) => Err(fault),
            Err(HostFault::Memory) => Err(ReadFault::Memory),
        }
    }

    /// The host that was set up. It is known from then on.
    pub fn own_host(&mut self) -> Result<Host, ReadFault>
        ensures { Takes result self.new (text_at fields.is_host self.old) }
    {
        let host = self.host()?;
        self.hosts.keep_own(&host)?;
        Ok(host)
    }

    /// The host of another server. It is known from then on.
    pub fn other_host(&mut self) -> Result<Host, ReadFault>
        ensures { Takes result self.new (text_at fields.is_host self.old) }
    {
        let host = self.host()?;
        self.hosts.keep_other(&host)?;
        Ok(host)
    }

    /// An IRI. A text that is not its own normal text is malformed.
    #[tactic(auto, unfolding(crate::specs::Reading::text_at))]
    pub fn iri(&mut self) -> Result<Iri, ReadFault>
        ensures { Takes result self.new (iri_at self.old) }
    {
        let fault = self.fault();
        let text = self.text()?;
        match own_iri(self.alloc, self.hosts, text)? {
            Some(iri) => Ok(iri),
            None => Err(fault),
        }
    }

    /// A text that keeps these limits.
    #[tactic(auto, unfolding(crate::specs::Reading::text_at))]
    pub fn limited(&mut self, limit: Limit) -> Result<Text, ReadFault>
        ensures { Takes result self.new (text_at (fields.test_of limit) self.old) }
    {
        let fault = self.fault();
        let text = self.text()?;
        if !limit.passes(text) {
            return Err(fault);
        }
        Ok(Text::from_text(self.alloc, text)?)
    }
}

// The IRI with exactly this text. `None` exactly if the text has a different normal text, or no
// normal text.
#[tactic(auto, unfolding(crate::specs::Fields::is_iri))]
fn own_iri(alloc: Global, hosts: &KnownHosts, text: &str) -> Result<Option<Iri>, AllocError>
    ensures some { IfOk result (λ found. IfSome found (λ iri. iri ≡ text.now)) }
    ensures own { IfOk result (λ found. IfSome found (λ iri. fields.is_iri text.now ≡ true)) }
    ensures none { IfOk result (λ found. found ≡ None → fields.is_iri text.now ≡ false) }
{
    match hosts.guess(alloc, text)? {
        Some(iri) if iri.text() == text => return Ok(Some(iri)),
        _ => {}
    }
    match Iri::parse(alloc, text) {
        Ok(iri) if iri.text() == text => Ok(Some(iri)),
        Ok(_) => Ok(None),
        Err(IriFault::NotIri) => Ok(None),
        Err(IriFault::TooLong) => Ok(None),
        Err(IriFault::Memory) => Err(AllocError),
    }
}

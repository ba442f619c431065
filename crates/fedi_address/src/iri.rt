//! IRIs: the normal texts of web addresses.

ghost use Rattle.std.specs.Prelude.{◌≡◌, ℕ, ◌<◌, ◌≤◌, List, ◌++◌, length, codes, bytes_eq, Some};
ghost use Rattle.std.specs.Prelude.{None, IsTrue, IfOk, IfErr, MatchResult};
ghost use Rattle.std.specs.Prelude.{◌≢◌, true, false};
ghost use Rattle.fedi_address.specs.Hosts.{address, is_plain_path};
ghost use Rattle.fedi_address.specs.Iris.{IsIri, host_of, host_and_port, normal, path_and_query};
ghost use Rattle.fedi_address.specs.Iris.{target_of, public_iri, web_url};
ghost use Rattle.fedi_address.specs.Iris as iris;
ghost use Rattle.std.specs.Cmp.{partial_equiv_from_equiv};
ghost use Rattle.std.specs.Cmp.Lexicographic.{nat_list_eq_equiv};
ghost use Rattle.fedi_address.specs.declared.iri.IriFault.TheVariants.{Memory};
ghost use Rattle.url.specs.Parts.{Parts};

use crate::block::{Block, block_of, new_block, text_of};
use crate::host::{Host, address_text};
use crate::pieces::{after, after_any, before, from};
use std::alloc::{AllocError, Global};
use std::marker::Model;
use std::ops::DerefStr;
use std::sync::Arc;
use thiserror::Error;
use url::{ParseError, Url};

/// An IRI: the normal text of an `http` or `https` URL (URL Standard, 4.4 and 4.5), of at most
/// 2,048 bytes. Two IRIs are the same if their texts are equal. It takes one machine word, and its
/// copies share one text.
#[derive(Drop)]
pub struct Iri {
    block: Arc<Block>,
}

impl Model for Iri {
    ghost use Rattle.std.specs.Prelude.{ℕ, List};
    ghost use Rattle.fedi_address.specs.Blocks.{text_in};
    ghost use Rattle.fedi_address.specs.Iris.{IsIri};

    ghost Value = { List ℕ };

    ghost view = { λ a. text_in a.block.value };

    ghost invariant = { λ a. IsIri (text_in a.block.value) };
}

/// Why a text gives no IRI.
#[derive(Clone, Copy, Debug, PartialEq, Eq, Error)]
pub enum IriFault {
    /// The text is not a URL, or its scheme is neither `http` nor `https`.
    #[error("the text is no http or https URL")]
    NotIri,
    /// The normal text has more than 2,048 bytes.
    #[error("the normal text has more than 2,048 bytes")]
    TooLong,
    /// Out of memory.
    #[error("out of memory")]
    Memory,
}

impl From<AllocError> for IriFault {
    ghost from_gives = { λ _ fault. fault ≡ Memory };

    fn from(_error: AllocError) -> IriFault {
        IriFault::Memory
    }
}

fn is_web(url: &Url) -> bool
    ensures { result ≡ iris.is_web url.now }
{
    let scheme = url.scheme();
    scheme == "https" || scheme == "http"
}

// `url` reports that it had no room if memory runs out, or if a text would have 4 GB.
fn is_out_of_room(fault: &ParseError) -> bool
    ensures { result ≡ iris.is_out_of_room fault.now }
{
    match fault {
        ParseError::OutOfMemory => true,
        ParseError::Overflow => true,
        _ => false,
    }
}

// The web address that a text parses to.
fn web_address(alloc: Global, text: &str) -> Result<Url, IriFault>
    ensures ok { IfOk result (λ url. web_url text.now ≡ Some url) }
    ensures web { IfOk result (λ url. iris.is_web url ≡ true) }
    ensures err { IfErr result (λ e. e ≢ IriFault.TooLong) }
    ensures not_iri { IfErr result (λ e. e ≡ IriFault.NotIri → web_url text.now ≡ None) }
{
    let url = match Url::parse(alloc, text) {
        Ok(url) => url,
        Err(fault) => {
            return if is_out_of_room(&fault) {
                Err(IriFault::Memory)
            } else {
                Err(IriFault::NotIri)
            };
        }
    };
    if is_web(&url) {
        Ok(url)
    } else {
        Err(IriFault::NotIri)
    }
}

// What follows the `//` before the authority.
fn after_slashes(text: &str) -> &str
    ensures { result.now ≡ iris.after_slashes text.now }
{
    after(after(text, '/'), '/')
}

// Whether a text is its own normal text. The error is out of memory.
pub(crate) fn is_normal(alloc: Global, text: &str) -> Result<bool, AllocError>
    requires { length text.now ≤ 2048 }
    ensures iri { IfOk result (λ own. own ≡ true → IsIri text.now) }
    ensures other { IfOk result (λ own. own ≡ false → normal text.now ≢ Some text.now) }
{
    match Iri::parse(alloc, text) {
        Ok(iri) => Ok(iri.text() == text),
        Err(IriFault::NotIri) => Ok(false),
        Err(IriFault::TooLong) => Ok(false),
        Err(IriFault::Memory) => Err(AllocError),
    }
}

impl Iri {
    /// The longest IRI, in bytes.
    pub const LONGEST: usize = 2048;

    /// The text of the IRI that means everyone (W3C ActivityPub, 5.6).
    pub const PUBLIC: &'static str = "https://www.w3.org/ns/activitystreams#Public";

    /// The IRI that the text parses to, with no base (URL Standard, 4.4).
    ///
    /// The errors are `NotIri`, if the text is not a URL or its scheme is neither `http` nor
    /// `https`, `TooLong`, if its normal text has more than 2,048 bytes, and `Memory`, if out of
    /// memory.
    #[tactic(auto, unfolding(crate::specs::Iris::normal))]
    pub fn parse(alloc: Global, text: &str) -> Result<Iri, IriFault>
        ensures ok { IfOk result (λ iri. normal text.now ≡ Some iri) }
        ensures short { IfOk result (λ iri. length iri ≤ 2048) }
        ensures not_iri { IfErr result (λ e. e ≡ IriFault.NotIri → normal text.now ≡ None) }
        ensures too_long { IfErr result (λ e. e ≡ IriFault.TooLong
            → (long : List ℕ) × (normal text.now ≡ Some long) × (2048 < length long)) }
    {
        let url = web_address(alloc, text)?;
        if url.as_str().len() > Self::LONGEST {
            return Err(IriFault::TooLong);
        }
        let block = new_block(alloc, url.as_str())?;
        Ok(Iri { block })
    }

    /// The IRI of a plain path at a host: `https://`, the host and the path. The error is out of
    /// memory.
    pub fn at(alloc: Global, host: &Host, path: &str) -> Result<Iri, AllocError>
        requires { IsTrue (is_plain_path path.now) }
        ensures text { IfOk result (λ iri. iri ≡ address host.now path.now) }
        ensures host { IfOk result (λ iri. host_of iri ≡ host.now) }
        ensures target { IfOk result (λ iri. target_of iri ≡ path.now) }
    {
        let address = address_text(alloc, host.text(), path)?;
        let block = block_of(alloc, address)?;
        Ok(Iri { block })
    }

    /// The IRI that means everyone (W3C ActivityPub, 5.6). The error is out of memory.
    pub fn public(alloc: Global) -> Result<Iri, AllocError>
        ensures { IfOk result (λ iri. iri ≡ public_iri) }
    {
        let block = new_block(alloc, Self::PUBLIC)?;
        Ok(Iri { block })
    }

    /// The normal text.
    pub fn text(&self) -> &str
        ensures value { result.now ≡ self.now }
        ensures iri { IsIri self.now }
        ensures normal { normal self.now ≡ Some self.now }
        ensures short { length self.now ≤ 2048 }
    {
        text_of(&self.block)
    }

    /// The host, with the port if there is one. It does not include user information.
    #[tactic(auto, unfolding(crate::specs::Iris::host_of))]
    pub fn host(&self) -> &str
        ensures value { result.now ≡ host_of self.now }
        ensures of_url { (url : Parts) → web_url self.now ≡ Some url
            → result.now ≡ host_and_port url }
    {
        let onward = after_slashes(text_of(&self.block));
        after_any(before(onward, '/'), '@')
    }

    /// The path and the query.
    #[tactic(auto, unfolding(crate::specs::Iris::target_of))]
    pub fn target(&self) -> &str
        ensures value { result.now ≡ target_of self.now }
        ensures of_url { (url : Parts) → web_url self.now ≡ Some url
            → result.now ≡ path_and_query url }
    {
        let onward = after_slashes(text_of(&self.block));
        before(from(onward, '/'), '#')
    }

    /// A copy, which shares the text. The error means that the text has too many owners.
    pub fn copy(&self) -> Result<Iri, AllocError>
        ensures { IfOk result (λ iri. iri ≡ self.now) }
    {
        self.clone()
    }
}

impl Clone for Iri {
    ghost is_clone = { λ iri copy. copy ≡ iri };

    fn clone(&self) -> Result<Iri, AllocError> {
        Ok(Iri {
            block: Arc::try_clone(&self.block)?,
        })
    }
}

impl PartialEq for Iri {
    ghost eq = { bytes_eq };

    ghost laws = { partial_equiv_from_equiv nat_list_eq_equiv };

    fn eq(&self, other: &Iri) -> bool {
        text_of(&self.block) == text_of(&other.block)
    }
}

impl Eq for Iri {
    ghost laws = { nat_list_eq_equiv };
}

impl DerefStr for Iri {
    ghost deref_gives = { λ iri text. text ≡ iri };

    fn deref(&self) -> &str {
        text_of(&self.block)
    }
}

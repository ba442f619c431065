//! The recipients of an activity or an object.

ghost use Rattle.std.specs.Prelude.{◌≡◌, ◌||◌, ◌++◌, List, fold, length, IfOk, OnErr, OnOk};
ghost use Rattle.fedi_address.specs.Recipients as recipients;

use crate::iri::Iri;
use crate::items::Items;
use std::alloc::{AllocError, Global};

/// The recipients of an activity or an object: the five fields for audience targeting (Activity
/// Vocabulary, 4; W3C ActivityPub, 6).
#[derive(Drop)]
pub struct Recipients {
    /// The primary recipients.
    pub to: Items<Iri>,
    /// The secondary recipients.
    pub cc: Items<Iri>,
    /// The primary recipients that are hidden from the others.
    pub bto: Items<Iri>,
    /// The secondary recipients that are hidden from the others.
    pub bcc: Items<Iri>,
    /// The audience in a wider sense.
    pub audience: Items<Iri>,
}

/// Whether one of the IRIs has this text.
#[tactic(auto, unfolding(crate::specs::Recipients::is_among))]
pub fn is_among(text: &str, iris: &[Iri]) -> bool
    ensures { result ≡ recipients.is_among text.now iris.now }
{
    iris.iter().any(|iri| iri.text() == text)
}

// Adds each of the IRIs that is not in the list yet, once.
fn add_each(kept: &mut Items<Iri>, iris: &[Iri]) -> Result<(), AllocError>
    ensures { OnOk result (kept.new ≡ fold recipients.add_new kept.old iris.now) }
{
    for iri in iris {
        if !is_among(iri.text(), kept) {
            kept.push(iri.copy()?)?;
        }
    }
    Ok(())
}

// The IRIs of both lists, each once, in the order of their first occurrences.
#[tactic(auto, using(crate::proofs::Unions::distinct_joined))]
fn joined(first: &Items<Iri>, second: &Items<Iri>) -> Result<Items<Iri>, AllocError>
    ensures { IfOk result (λ iris. iris ≡ recipients.distinct (first.now ++ second.now)) }
{
    let mut kept = Items::empty(first.allocator());
    add_each(&mut kept, first)?;
    add_each(&mut kept, second)?;
    Ok(kept)
}

impl Recipients {
    /// No recipients. It takes no memory.
    pub fn empty(alloc: Global) -> Recipients
        ensures { result ≡ recipients.nobody }
    {
        Recipients {
            to: Items::empty(alloc),
            cc: Items::empty(alloc),
            bto: Items::empty(alloc),
            bcc: Items::empty(alloc),
            audience: Items::empty(alloc),
        }
    }

    /// How many recipients the five fields have in total.
    pub fn count(&self) -> usize
        ensures { result ≡ length (recipients.all_of self.now) }
    {
        self.to.as_slice().len()
            + self.cc.as_slice().len()
            + self.bto.as_slice().len()
            + self.bcc.as_slice().len()
            + self.audience.as_slice().len()
    }

    /// Whether one of the five fields has the IRI that means everyone (W3C ActivityPub, 5.6).
    pub fn is_public(&self) -> bool
        ensures { result ≡ recipients.is_public self.now }
    {
        self.has(Iri::PUBLIC)
    }

    /// Whether one of the five fields has the IRI.
    pub fn names(&self, iri: &Iri) -> bool
        ensures { result ≡ recipients.names self.now iri.now }
    {
        self.has(iri.text())
    }

    #[tactic(auto, using(crate::proofs::Audience::is_among_all))]
    fn has(&self, text: &str) -> bool
        ensures { result ≡ recipients.names self.now text.now }
    {
        is_among(text, &self.to)
            || is_among(text, &self.cc)
            || is_among(text, &self.bto)
            || is_among(text, &self.bcc)
            || is_among(text, &self.audience)
    }

    /// The same recipients without `bto` and `bcc` (W3C ActivityPub, 6 and 7).
    pub fn strip(self) -> Recipients
        ensures { result ≡ recipients.stripped self }
    {
        let mut left = self;
        left.bto.clear();
        left.bcc.clear();
        left
    }

    /// Adds the other recipients to these, field by field. Each field then has the IRIs of both,
    /// each once, in the order of their first occurrences (W3C ActivityPub, 6.2). The time grows
    /// with the product of their numbers. Out of memory, nothing is changed.
    pub fn merge(&mut self, other: &Recipients) -> Result<(), AllocError>
        ensures ok { OnOk result (self.new ≡ recipients.union self.old other.now) }
        ensures err { OnErr result (self.new ≡ self.old) }
    {
        *self = Recipients {
            to: joined(&self.to, &other.to)?,
            cc: joined(&self.cc, &other.cc)?,
            bto: joined(&self.bto, &other.bto)?,
            bcc: joined(&self.bcc, &other.bcc)?,
            audience: joined(&self.audience, &other.audience)?,
        };
        Ok(())
    }
}

impl Clone for Recipients {
    ghost is_clone = { λ recipients copy. copy ≡ recipients };

    fn clone(&self) -> Result<Recipients, AllocError> {
        Ok(Recipients {
            to: self.to.clone()?,
            cc: self.cc.clone()?,
            bto: self.bto.clone()?,
            bcc: self.bcc.clone()?,
            audience: self.audience.clone()?,
        })
    }
}

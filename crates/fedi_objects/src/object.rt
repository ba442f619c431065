//! Objects, and the changes that a client asks for.

ghost use Rattle.std.specs.Prelude.{◌≡◌, IfOk, OnOk};

use crate::fields::copy_option;
use fedi_address::{Iri, Items, Recipients};
use fedi_text::Text;
use std::alloc::{AllocError, Global};

/// The type of what is left of a deleted object (ActivityStreams 2.0 Vocabulary, section 3.3).
pub const TOMBSTONE: &str = "Tombstone";

/// A mention of somebody (ActivityStreams 2.0 Vocabulary, section 5.5).
#[derive(Drop)]
pub struct Tag {
    pub href: Iri,
    pub name: Text,
}

impl Clone for Tag {
    ghost is_clone = { λ tag copy. copy ≡ tag };

    fn clone(&self) -> Result<Tag, AllocError> {
        Ok(Tag {
            href: self.href.clone()?,
            name: self.name.clone()?,
        })
    }
}

/// An object (ActivityStreams 2.0 Core, section 4.1), by the properties that are kept.
#[derive(Drop)]
pub struct Object {
    pub id: Option<Iri>,
    /// Its `type`.
    pub kind: Text,
    pub attributed_to: Option<Iri>,
    pub recipients: Recipients,
    pub in_reply_to: Option<Iri>,
    pub content: Option<Text>,
    pub summary: Option<Text>,
    pub name: Option<Text>,
    pub url: Option<Iri>,
    pub published: Option<Text>,
    pub updated: Option<Text>,
    /// `formerType`, of a Tombstone.
    pub former_kind: Option<Text>,
    /// `deleted`, of a Tombstone.
    pub deleted: Option<Text>,
    pub tags: Items<Tag>,
}

impl Object {
    ghost use Rattle.fedi_objects.specs.Objects.{object_of_kind};

    /// An object of this type addressed to nobody, with no other property. It takes no memory.
    pub fn new(alloc: Global, kind: Text) -> Object
        ensures { result ≡ object_of_kind kind }
    {
        Object {
            id: None,
            kind,
            attributed_to: None,
            recipients: Recipients::empty(alloc),
            in_reply_to: None,
            content: None,
            summary: None,
            name: None,
            url: None,
            published: None,
            updated: None,
            former_kind: None,
            deleted: None,
            tags: Items::empty(alloc),
        }
    }

    // Copies all but the type. It borrows `self`, as owning one object over many exits is expensive
    // to prove.
    fn fill_from(&mut self, other: &Object) -> Result<(), AllocError>
        ensures { OnOk result (self.new ≡ record other.now { kind = self.old.kind }) }
    {
        copy_option(&mut self.id, &other.id)?;
        copy_option(&mut self.attributed_to, &other.attributed_to)?;
        self.recipients.clone_from(&other.recipients)?;
        copy_option(&mut self.in_reply_to, &other.in_reply_to)?;
        copy_option(&mut self.content, &other.content)?;
        copy_option(&mut self.summary, &other.summary)?;
        copy_option(&mut self.name, &other.name)?;
        copy_option(&mut self.url, &other.url)?;
        copy_option(&mut self.published, &other.published)?;
        copy_option(&mut self.updated, &other.updated)?;
        copy_option(&mut self.former_kind, &other.former_kind)?;
        copy_option(&mut self.deleted, &other.deleted)?;
        self.tags.clone_from(&other.tags)
    }
}

impl Clone for Object {
    ghost is_clone = { λ object copy. copy ≡ object };

    fn clone(&self) -> Result<Object, AllocError> {
        let mut copy = Object::new(self.tags.allocator(), self.kind.clone()?);
        copy.fill_from(self).and(Ok(copy))
    }
}

/// What a client's Update does to one property (ActivityPub, section 6.3).
#[derive(Drop)]
pub enum Edit<T> {
    Keep,
    Remove,
    Give(T),
}

// If the value's clone is equal to it, the edit's clone is equal to the edit.
impl<T: Clone + Drop> Clone for Edit<T> {
    ghost is_clone = { λ edit copy. ((x y : T) → T.is_clone x y → y ≡ x) → copy ≡ edit };

    fn clone(&self) -> Result<Edit<T>, AllocError> {
        match self {
            Edit::Keep => Ok(Edit::Keep),
            Edit::Remove => Ok(Edit::Remove),
            Edit::Give(value) => Ok(Edit::Give(value.clone()?)),
        }
    }
}

/// What a client's Update does to an object.
#[derive(Drop)]
pub struct Change {
    pub id: Iri,
    pub content: Edit<Text>,
    pub summary: Edit<Text>,
    pub name: Edit<Text>,
    pub url: Edit<Iri>,
    pub in_reply_to: Edit<Iri>,
    pub tags: Edit<Items<Tag>>,
}

impl Change {
    ghost use Rattle.fedi_objects.specs.Objects.{no_change};

    /// The change of the object with this id that keeps each property.
    pub fn new(id: Iri) -> Change
        ensures { result ≡ no_change id }
    {
        Change {
            id,
            content: Edit::Keep,
            summary: Edit::Keep,
            name: Edit::Keep,
            url: Edit::Keep,
            in_reply_to: Edit::Keep,
            tags: Edit::Keep,
        }
    }

    // Copies all but the id.
    fn fill_from(&mut self, other: &Change) -> Result<(), AllocError>
        ensures { OnOk result (self.new ≡ record other.now { id = self.old.id }) }
    {
        self.content.clone_from(&other.content)?;
        self.summary.clone_from(&other.summary)?;
        self.name.clone_from(&other.name)?;
        self.url.clone_from(&other.url)?;
        self.in_reply_to.clone_from(&other.in_reply_to)?;
        self.tags.clone_from(&other.tags)
    }
}

impl Clone for Change {
    ghost is_clone = { λ change copy. copy ≡ change };

    fn clone(&self) -> Result<Change, AllocError> {
        let mut copy = Change::new(self.id.clone()?);
        copy.fill_from(self).and(Ok(copy))
    }
}

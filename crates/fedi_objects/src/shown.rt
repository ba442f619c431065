//! One activity as a reader may see it.

ghost use Rattle.std.specs.Prelude.{◌≡◌};

use crate::kind::{Kind, State};
use crate::object::{Object, TOMBSTONE, Tag};
use fedi_address::Iri;
use fedi_text::Text;
use std::marker::Model;

/// The properties of an object that may be shown: all but `bto` and `bcc` (ActivityPub, section 6).
#[derive(Drop)]
pub struct ObjectView<'a> {
    pub id: Option<&'a Iri>,
    pub kind: &'a Text,
    pub attributed_to: Option<&'a Iri>,
    pub to: &'a [Iri],
    pub cc: &'a [Iri],
    pub audience: &'a [Iri],
    pub in_reply_to: Option<&'a Iri>,
    pub content: Option<&'a Text>,
    pub summary: Option<&'a Text>,
    pub name: Option<&'a Text>,
    pub url: Option<&'a Iri>,
    pub published: Option<&'a Text>,
    pub updated: Option<&'a Text>,
    pub former_kind: Option<&'a Text>,
    pub deleted: Option<&'a Text>,
    pub tags: &'a [Tag],
}

/// An object without its `bto` and `bcc`, which cannot be read from here (ActivityPub, section 6).
#[derive(Drop)]
pub struct StrippedObject<'a> {
    view: ObjectView<'a>,
}

impl<'a> Model for StrippedObject<'a> {
    ghost use Rattle.fedi_objects.specs.declared.object.Object.{Object};
    ghost use Rattle.fedi_objects.specs.Views.{viewed};

    ghost Value = { Object };

    ghost view = { λ s. viewed s.view };
}

impl<'a> StrippedObject<'a> {
    ghost use Rattle.fedi_objects.specs.Forms.{is_tombstone};
    ghost use Rattle.fedi_objects.specs.Objects.{stripped_object};
    ghost use Rattle.fedi_objects.specs.Views.{viewed};

    /// The object without its `bto` and `bcc`.
    pub fn new(object: &'a Object) -> StrippedObject<'a>
        ensures { result ≡ stripped_object object.now }
    {
        let recipients = &object.recipients;
        StrippedObject::of(ObjectView {
            id: object.id.as_ref(),
            kind: &object.kind,
            attributed_to: object.attributed_to.as_ref(),
            to: recipients.to.as_slice(),
            cc: recipients.cc.as_slice(),
            audience: recipients.audience.as_slice(),
            in_reply_to: object.in_reply_to.as_ref(),
            content: object.content.as_ref(),
            summary: object.summary.as_ref(),
            name: object.name.as_ref(),
            url: object.url.as_ref(),
            published: object.published.as_ref(),
            updated: object.updated.as_ref(),
            former_kind: object.former_kind.as_ref(),
            deleted: object.deleted.as_ref(),
            tags: object.tags.as_slice(),
        })
    }

    /// Whether it is what is left of a deleted object (ActivityStreams 2.0 Vocabulary, section
    /// 3.3).
    pub fn is_tombstone(&self) -> bool
        ensures { result ≡ is_tombstone self.now }
    {
        self.view.kind.text() == TOMBSTONE
    }

    /// The object with these properties.
    pub fn of(view: ObjectView<'a>) -> StrippedObject<'a>
        ensures { result ≡ viewed view.entry }
    {
        StrippedObject { view }
    }

    /// The properties.
    pub fn view(&self) -> &ObjectView<'a>
        ensures { self.now ≡ viewed result.now }
    {
        &self.view
    }
}

/// What a shown activity is about.
#[derive(Drop)]
pub enum ShownObject<'a> {
    Nothing,
    Id(&'a Iri),
    /// The object in its present state, with empty `bto` and `bcc`.
    Present(StrippedObject<'a>),
}

/// One activity as a reader may see it, without `bto` and `bcc` (ActivityPub, section 6).
#[derive(Drop)]
pub struct Shown<'a> {
    pub id: Option<&'a Iri>,
    pub author: &'a Iri,
    pub kind: Kind,
    pub target: Option<&'a Iri>,
    pub to: &'a [Iri],
    pub cc: &'a [Iri],
    pub audience: &'a [Iri],
    pub in_reply_to: Option<&'a Iri>,
    pub content: Option<&'a Text>,
    pub summary: Option<&'a Text>,
    pub name: Option<&'a Text>,
    pub published: Option<&'a Text>,
    pub tags: &'a [Tag],
    pub state: State,
    pub public: bool,
    /// Whether the author is a member of this server.
    pub local: bool,
    pub object: ShownObject<'a>,
}

//! Activities.

ghost use Rattle.std.specs.Prelude.{◌≡◌, IfOk, OnOk};

use crate::boxed::Boxed;
use crate::fields::copy_option;
use crate::kind::Kind;
use crate::object::{Change, Object, Tag};
use fedi_address::{Iri, Items, Recipients};
use fedi_text::Text;
use std::alloc::{AllocError, Global};

/// What an activity is about.
#[derive(Drop)]
pub enum ObjectRef {
    Nothing,
    Id(Iri),
    /// The object itself, in a Create or a peer's Update.
    Whole(Boxed<Object>),
    /// What a client's Update changes.
    Changed(Change),
}

impl Clone for ObjectRef {
    ghost is_clone = { λ object copy. copy ≡ object };

    fn clone(&self) -> Result<ObjectRef, AllocError> {
        match self {
            ObjectRef::Nothing => Ok(ObjectRef::Nothing),
            ObjectRef::Id(id) => Ok(ObjectRef::Id(id.clone()?)),
            ObjectRef::Whole(object) => Ok(ObjectRef::Whole(object.clone()?)),
            ObjectRef::Changed(change) => Ok(ObjectRef::Changed(change.clone()?)),
        }
    }
}

/// An activity (ActivityStreams 2.0 Core, section 4.2), by the properties that are kept.
#[derive(Drop)]
pub struct Activity {
    pub id: Option<Iri>,
    pub kind: Kind,
    pub actor: Option<Iri>,
    pub object: ObjectRef,
    pub target: Option<Iri>,
    pub recipients: Recipients,
    pub in_reply_to: Option<Iri>,
    pub content: Option<Text>,
    pub summary: Option<Text>,
    pub name: Option<Text>,
    pub published: Option<Text>,
    pub tags: Items<Tag>,
}

impl Activity {
    ghost use Rattle.fedi_objects.specs.Objects.{activity_of_kind, creation};

    /// An activity of this type about nothing and addressed to nobody, with no other property. It
    /// takes no memory.
    pub fn new(alloc: Global, kind: Kind) -> Activity
        ensures { result ≡ activity_of_kind kind }
    {
        Activity {
            id: None,
            kind,
            actor: None,
            object: ObjectRef::Nothing,
            target: None,
            recipients: Recipients::empty(alloc),
            in_reply_to: None,
            content: None,
            summary: None,
            name: None,
            published: None,
            tags: Items::empty(alloc),
        }
    }

    /// The Create of an object, for the same recipients (ActivityPub, section 6.2.1). The error is
    /// out of memory.
    pub fn create(alloc: Global, object: Object) -> Result<Activity, AllocError>
        ensures { IfOk result (λ activity. activity ≡ creation object) }
    {
        let object = Boxed::new(alloc, object)?;
        let recipients = object.get().recipients.clone()?;
        Ok(Activity {
            id: None,
            kind: Kind::Create,
            actor: None,
            object: ObjectRef::Whole(object),
            target: None,
            recipients,
            in_reply_to: None,
            content: None,
            summary: None,
            name: None,
            published: None,
            tags: Items::empty(alloc),
        })
    }

    // Copies all but the type. It borrows `self`, as owning one activity over many exits is
    // expensive to prove.
    fn fill_from(&mut self, other: &Activity) -> Result<(), AllocError>
        ensures { OnOk result (self.new ≡ record other.now { kind = self.old.kind }) }
    {
        copy_option(&mut self.id, &other.id)?;
        copy_option(&mut self.actor, &other.actor)?;
        self.object.clone_from(&other.object)?;
        copy_option(&mut self.target, &other.target)?;
        self.recipients.clone_from(&other.recipients)?;
        copy_option(&mut self.in_reply_to, &other.in_reply_to)?;
        copy_option(&mut self.content, &other.content)?;
        copy_option(&mut self.summary, &other.summary)?;
        copy_option(&mut self.name, &other.name)?;
        copy_option(&mut self.published, &other.published)?;
        self.tags.clone_from(&other.tags)
    }

    /// A copy. The error is out of memory.
    pub fn copy(&self) -> Result<Activity, AllocError>
        ensures { IfOk result (λ x. x ≡ self.now) }
    {
        self.clone()
    }
}

impl Clone for Activity {
    ghost is_clone = { λ activity copy. copy ≡ activity };

    fn clone(&self) -> Result<Activity, AllocError> {
        let mut copy = Activity::new(self.tags.allocator(), self.kind);
        copy.fill_from(self).and(Ok(copy))
    }
}

//! What an activity is about, in its stored form.

ghost use Rattle.std.specs.Prelude.{◌≡◌, IfOk, option_copied, option_map};
ghost use Rattle.fedi_town.specs.Objects.{is_tombstone_in, rewrite_ref, tombstone_of};
ghost use Rattle.fedi_town.specs.Objects.{update_object, whole_of};
ghost use Rattle.fedi_town.specs.Relations.{ref_id};
ghost use Rattle.fedi_town.specs.Showing.{shown_object};
ghost use Rattle.fedi_register.specs.Excerpts.{excerpt_ref};
ghost use Rattle.fedi_register.specs.Mentions.{reply_in, tags_in};
ghost use Rattle.fedi_register.specs.Parts.{object_names, referred};

use crate::extras::{Spare, in_reply_to, tags};
use crate::object::KeptObject;
use crate::pool::Pool;
use fedi_address::Iri;
use fedi_objects::{Change, ObjectRef, StrippedObject, Tag};
use fedi_text::Text;
use std::alloc::{AllocError, Global};
use std::snapshot::Snapshot;

// What a client's Update is about. The changes are visible in the object, and none of them are
// stored here.
#[derive(Drop)]
pub(crate) struct Changed {
    pub(crate) id: Iri,
    pub(crate) change: Snapshot<Change>,
}

// What an activity is about.
#[derive(Drop)]
pub(crate) enum About {
    Nothing,
    Id(Iri),
    Whole(Box<KeptObject>),
    Changed(Changed),
}

impl About {
    /// Converts what an activity is about to its stored form. The error is out of memory.
    pub(crate) fn new(alloc: Global, object: ObjectRef) -> Result<About, AllocError>
        ensures { IfOk result (λ about. referred about ≡ object) }
    {
        match object {
            ObjectRef::Nothing => Ok(About::Nothing),
            ObjectRef::Id(id) => Ok(About::Id(id)),
            ObjectRef::Whole(object) => {
                let object = KeptObject::new(alloc, object.into_inner())?;
                Ok(About::Whole(Box::new(alloc, object)?))
            }
            ObjectRef::Changed(change) => Ok(About::Changed(Changed {
                change: Snapshot::of(&change),
                id: change.id,
            })),
        }
    }

    /// A copy for readers, without `bto` and `bcc`, which shares the long texts and the lists. The
    /// error is out of memory.
    pub(crate) fn excerpt(&self, alloc: Global) -> Result<About, AllocError>
        ensures about { IfOk result (λ about. referred about ≡ excerpt_ref (referred self.now)) }
        ensures named { IfOk result (λ about. object_names about ≡ object_names self.now) }
    {
        match self {
            About::Nothing => Ok(About::Nothing),
            About::Id(id) => Ok(About::Id(id.copy()?)),
            About::Whole(object) => {
                let object = object.excerpt(alloc)?;
                Ok(About::Whole(Box::new(alloc, object)?))
            }
            About::Changed(changed) => Ok(About::Id(changed.id.copy()?)),
        }
    }

    /// The id of what the activity is about.
    pub(crate) fn id(&self) -> Option<&Iri>
        ensures { option_copied result ≡ ref_id (referred self.now) }
    {
        match self {
            About::Nothing => None,
            About::Id(id) => Some(id),
            About::Whole(object) => object.id.as_ref(),
            About::Changed(changed) => Some(&changed.id),
        }
    }

    /// The carried object, if any, as it is shown.
    pub(crate) fn object(&self) -> Option<StrippedObject<'_>>
        ensures { result ≡ option_map shown_object (whole_of (referred self.now)) }
    {
        match self {
            About::Whole(object) => Some(object.show()),
            About::Nothing | About::Id(_) | About::Changed(_) => None,
        }
    }

    /// What the carried object, if any, replies to.
    pub(crate) fn reply(&self) -> Option<&Iri>
        ensures { option_copied result ≡ reply_in (whole_of (referred self.now)) }
    {
        match self {
            About::Whole(object) => in_reply_to(&object.extras),
            About::Nothing | About::Id(_) | About::Changed(_) => None,
        }
    }

    /// The actors that the carried object, if any, mentions.
    pub(crate) fn tags(&self) -> &[Tag]
        ensures { result.now ≡ tags_in (whole_of (referred self.now)) }
    {
        match self {
            About::Whole(object) => tags(&object.extras),
            About::Nothing | About::Id(_) | About::Changed(_) => &[],
        }
    }

    /// Whether it is the Tombstone of a deleted object.
    pub(crate) fn is_tombstone(&self) -> bool
        ensures { result ≡ is_tombstone_in (whole_of (referred self.now)) }
    {
        match self {
            About::Whole(object) => object.is_tombstone(),
            About::Nothing | About::Id(_) | About::Changed(_) => false,
        }
    }

    /// Applies what an Update carries to the carried object, if any. This uses no memory except
    /// `spare`.
    pub(crate) fn update(&mut self, by: ObjectRef, stamp: Text, spare: Spare)
        ensures updated { referred self.new
            ≡ rewrite_ref (update_object by stamp) (referred self.old) }
        ensures named { object_names self.new ≡ object_names self.old }
    {
        match self {
            About::Whole(object) => object.update(by, stamp, spare),
            About::Nothing | About::Id(_) | About::Changed(_) => {}
        }
    }

    /// Replaces the carried object, if any, by a Tombstone. This uses no memory except `spare`.
    pub(crate) fn make_tombstone(&mut self, kind: Text, stamp: Text, spare: Spare)
        ensures buried { referred self.new
            ≡ rewrite_ref (tombstone_of kind stamp) (referred self.old) }
        ensures named { object_names self.new ≡ object_names self.old }
    {
        match self {
            About::Whole(object) => object.make_tombstone(kind, stamp, spare),
            About::Nothing | About::Id(_) | About::Changed(_) => {}
        }
    }

    /// Makes frequently repeated IRIs share the text of equal ones.
    pub(crate) fn share(&mut self, pool: &mut Pool)
        ensures referred { referred self.new ≡ referred self.old }
        ensures named { object_names self.new ≡ object_names self.old }
    {
        match self {
            About::Nothing => {}
            About::Id(id) => pool.share(id),
            About::Whole(object) => object.share(pool),
            About::Changed(changed) => pool.share(&mut changed.id),
        }
    }
}

//! The properties that few objects have, in their stored form.

ghost use Rattle.std.specs.Prelude.{◌≡◌, true, IfOk, OnOk, option_copied};
ghost use Rattle.fedi_town.specs.Objects as objects;
ghost use Rattle.fedi_register.specs.Parts.{emptied_extras, extras_in, no_extras};

use crate::pool::Pool;
use crate::words::{Blocks, TagList, Words, copy_iri, copy_text};
use fedi_address::Iri;
use fedi_objects::{Edit, Tag, set};
use fedi_text::Text;
use fedi_town::Effect;
use std::alloc::{AllocError, Global};

// The properties that few objects have when they are created. An Update or a Delete may add them to
// any object.
#[derive(Drop)]
pub(crate) struct Extras {
    pub(crate) in_reply_to: Option<Iri>,
    pub(crate) summary: Words,
    pub(crate) name: Words,
    pub(crate) url: Option<Iri>,
    pub(crate) updated: Option<Text>,
    pub(crate) former_kind: Option<Text>,
    pub(crate) deleted: Option<Text>,
    pub(crate) tags: TagList,
}

/// Memory for what an Update or a Delete adds to an object, so that neither allocates.
#[derive(Drop)]
pub struct Spare {
    pub(crate) extras: Box<Extras>,
    pub(crate) blocks: Blocks,
}

impl Spare {
    /// Spare memory for the effect of one activity. The error is out of memory.
    pub fn new(alloc: Global, effect: &Effect) -> Result<Spare, AllocError> {
        let blocks = Blocks::new(alloc, effect)?;
        let extras = Box::new(alloc, Extras::none())?;
        Ok(Spare { extras, blocks })
    }
}

// Empty extras in this memory.
fn emptied(extras: Box<Extras>) -> Box<Extras>
    ensures { result.value ≡ no_extras }
{
    let mut extras = extras;
    set(&mut *extras, Extras::none());
    extras
}

impl Extras {
    // Empty extras. This allocates nothing.
    fn none() -> Extras
        ensures { result ≡ no_extras }
    {
        Extras {
            in_reply_to: None,
            summary: Words::none(),
            name: Words::none(),
            url: None,
            updated: None,
            former_kind: None,
            deleted: None,
            tags: TagList::none(),
        }
    }

    fn has_nothing(&self) -> bool
        ensures { result ≡ true → self.now ≡ no_extras }
    {
        self.in_reply_to.is_none()
            && self.summary.is_none()
            && self.name.is_none()
            && self.url.is_none()
            && self.updated.is_none()
            && self.former_kind.is_none()
            && self.deleted.is_none()
            && self.tags.is_empty()
    }

    // Copies all properties.
    fn fill_from(&mut self, other: &Extras) -> Result<(), AllocError>
        ensures { OnOk result (self.new ≡ other.now) }
    {
        copy_iri(&mut self.in_reply_to, &other.in_reply_to)?;
        set(&mut self.summary, other.summary.copy()?);
        set(&mut self.name, other.name.copy()?);
        copy_iri(&mut self.url, &other.url)?;
        copy_text(&mut self.updated, &other.updated)?;
        copy_text(&mut self.former_kind, &other.former_kind)?;
        copy_text(&mut self.deleted, &other.deleted)?;
        set(&mut self.tags, other.tags.copy()?);
        Ok(())
    }

    // A copy, which shares the long texts and the mentions. The error is out of memory.
    fn copy(&self) -> Result<Extras, AllocError>
        ensures { IfOk result (λ copy. copy ≡ self.now) }
    {
        let mut copy = Extras::none();
        copy.fill_from(self).and(Ok(copy))
    }

    /// Clears everything that an Update may set.
    pub(crate) fn empty(&mut self)
        ensures { self.new ≡ emptied_extras self.old }
    {
        set(&mut self.in_reply_to, None);
        set(&mut self.summary, Words::none());
        set(&mut self.name, Words::none());
        set(&mut self.url, None);
        set(&mut self.tags, TagList::none());
    }

    /// The extras in a box of their own, or `None` if there are none. The error is out of memory.
    pub(crate) fn boxed(self, alloc: Global) -> Result<Option<Box<Extras>>, AllocError>
        ensures { IfOk result (λ kept. extras_in kept ≡ self) }
    {
        if self.has_nothing() {
            return Ok(None);
        }
        let extras = Box::new(alloc, self)?;
        Ok(Some(extras))
    }
}

/// Applies a client's Update to a property.
pub(crate) fn edit<T: Drop>(property: &mut Option<T>, by: Edit<T>)
    ensures { property.new ≡ objects.edit by property.old }
{
    match by {
        Edit::Keep => {}
        Edit::Remove => *property = None,
        Edit::Give(value) => *property = Some(value),
    }
}

/// The extras to change: those of the object, or empty ones in the spare memory.
pub(crate) fn extras_or(extras: Option<Box<Extras>>, spare: Box<Extras>) -> Box<Extras>
    ensures { result.value ≡ extras_in extras }
{
    match extras {
        Some(extras) => {
            drop(spare);
            extras
        }
        None => emptied(spare),
    }
}

/// A copy, which shares the long texts and the mentions. The error is out of memory.
pub(crate) fn copy_extras(
    alloc: Global,
    extras: &Option<Box<Extras>>,
) -> Result<Option<Box<Extras>>, AllocError>
    ensures { IfOk result (λ copy. extras_in copy ≡ extras_in extras.now) }
{
    match extras {
        Some(extras) => {
            let copy = extras.copy()?;
            Ok(Some(Box::new(alloc, copy)?))
        }
        None => Ok(None),
    }
}

/// Clears everything that an Update may set.
pub(crate) fn empty_extras(extras: &mut Option<Box<Extras>>)
    ensures { extras_in extras.new ≡ emptied_extras (extras_in extras.old) }
{
    if let Some(extras) = extras {
        extras.empty();
    }
}

/// Makes frequently repeated IRIs share the text of equal ones.
pub(crate) fn share_extras(extras: &mut Option<Box<Extras>>, pool: &mut Pool)
    ensures { extras_in extras.new ≡ extras_in extras.old }
{
    if let Some(extras) = extras {
        pool.share_some(&mut extras.in_reply_to);
    }
}

/// The `formerType` of the Tombstone of a deleted object.
pub(crate) fn former_kind(extras: &Option<Box<Extras>>) -> Option<&Text>
    ensures { option_copied result ≡ (extras_in extras.now).former_kind }
{
    match extras {
        Some(extras) => extras.former_kind.as_ref(),
        None => None,
    }
}

/// When the object was deleted.
pub(crate) fn deleted(extras: &Option<Box<Extras>>) -> Option<&Text>
    ensures { option_copied result ≡ (extras_in extras.now).deleted }
{
    match extras {
        Some(extras) => extras.deleted.as_ref(),
        None => None,
    }
}

/// What the object replies to.
pub(crate) fn in_reply_to(extras: &Option<Box<Extras>>) -> Option<&Iri>
    ensures { option_copied result ≡ (extras_in extras.now).in_reply_to }
{
    match extras {
        Some(extras) => extras.in_reply_to.as_ref(),
        None => None,
    }
}

/// The actors that the object mentions.
pub(crate) fn tags(extras: &Option<Box<Extras>>) -> &[Tag]
    ensures { result.now ≡ (extras_in extras.now).tags }
{
    match extras {
        Some(extras) => extras.tags.as_slice(),
        None => &[],
    }
}

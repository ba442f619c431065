//! What an activity has in addition to its object, in its stored form.

ghost use Rattle.std.specs.Prelude.{◌≡◌, true, false, IfOk, [], None, OnOk, Some};
ghost use Rattle.std.specs.Prelude.{option_copied};
ghost use Rattle.fedi_register.specs.Parts.{named_part, names_given, no_names, no_rare};
ghost use Rattle.fedi_register.specs.Parts.{object_names};
ghost use Rattle.fedi_register.specs.Parts.{rare_in, parts_in, rare_kept, rare_lent, rare_part};
ghost use Rattle.fedi_register.specs.Parts.{referred};
ghost use Rattle.fedi_register.specs.Parts.{repeat_in, unboxed};

use crate::about::About;
use crate::common::Lists;
use crate::iris::{Iris, are_same};
use crate::object::KeptObject;
use crate::pool::Pool;
use crate::words::{Said, TagList, Words, copy_iri, copy_text};
use fedi_address::{Iri, Items};
use fedi_objects::{ObjectRef, RepeatKey, Tag, set};
use fedi_text::Text;
use std::alloc::{AllocError, Global};

// The properties that few activities have, as they are given.
#[derive(Drop)]
pub(crate) struct Rare {
    pub(crate) target: Option<Iri>,
    pub(crate) in_reply_to: Option<Iri>,
    pub(crate) content: Option<Text>,
    pub(crate) summary: Option<Text>,
    pub(crate) name: Option<Text>,
    pub(crate) tags: Items<Tag>,
    pub(crate) forwards: Items<Iri>,
}

// The properties that few activities have, in their stored form.
#[derive(Drop)]
pub(crate) struct KeptRare {
    pub(crate) target: Option<Iri>,
    pub(crate) in_reply_to: Option<Iri>,
    pub(crate) content: Words,
    pub(crate) summary: Words,
    pub(crate) name: Words,
    pub(crate) tags: TagList,
    pub(crate) forwards: Iris,
}

// What an activity has of its own, if its object does not have the same.
#[derive(Drop)]
pub(crate) struct Parts {
    pub(crate) to: Iris,
    pub(crate) cc: Iris,
    pub(crate) audience: Iris,
    pub(crate) published: Option<Text>,
    pub(crate) rare: Option<Box<KeptRare>>,
}

/// The key by which a repeated post is recognized, and the digest of the posted body.
pub(crate) type Repeat = (RepeatKey, [u8; 32]);

// What an activity has in addition to what it is about. Few activities have both parts and a key,
// and a single tag covers the two.
#[derive(Drop)]
pub(crate) enum Beside {
    Nothing,
    Parts(Box<Parts>),
    Repeat(Box<Repeat>),
    Both(Box<(Box<Parts>, Box<Repeat>)>),
}

// The addressees of an activity, and when it was published.
#[derive(Drop)]
pub(crate) struct Named {
    pub(crate) to: Items<Iri>,
    pub(crate) cc: Items<Iri>,
    pub(crate) audience: Items<Iri>,
    pub(crate) published: Option<Text>,
}

fn is_same_text(left: &Option<Text>, right: &Option<Text>) -> bool
    ensures { result ≡ true → left.now ≡ right.now }
{
    match (left, right) {
        (None, None) => true,
        (Some(left), Some(right)) => left.text() == right.text(),
        _ => false,
    }
}

fn is_empty<T>(list: &Items<T>) -> bool
    ensures { result ≡ true → list.now ≡ [] }
{
    list.as_slice().is_empty()
}

fn has_nothing(rare: &Rare) -> bool
    ensures { result ≡ true → rare.now ≡ no_rare }
{
    rare.target.is_none()
        && rare.in_reply_to.is_none()
        && rare.content.is_none()
        && rare.summary.is_none()
        && rare.name.is_none()
        && is_empty(&rare.tags)
        && is_empty(&rare.forwards)
}

fn is_named_alike(named: &Named, object: &KeptObject) -> bool
    ensures to { result ≡ true → named.now.to ≡ object.now.common.value.lists.to }
    ensures cc { result ≡ true → named.now.cc ≡ object.now.common.value.lists.cc }
    ensures audience { result ≡ true → named.now.audience ≡ object.now.common.value.lists.audience }
    ensures published { result ≡ true → named.now.published ≡ object.now.published }
{
    are_same(named.to.as_slice(), object.common.lists.to.as_slice())
        && are_same(named.cc.as_slice(), object.common.lists.cc.as_slice())
        && are_same(
            named.audience.as_slice(),
            object.common.lists.audience.as_slice(),
        )
        && is_same_text(&named.published, &object.published)
}

fn names_nobody(named: &Named) -> bool
    ensures { result ≡ true → names_given named.now ≡ no_names }
{
    is_empty(&named.to)
        && is_empty(&named.cc)
        && is_empty(&named.audience)
        && named.published.is_none()
}

// Whether an activity has the same addressees and the same `published` as its object. Without an
// object, whether it has neither.
fn is_named_as_object(named: &Named, about: &About) -> bool
    ensures { result ≡ true → names_given named.now ≡ object_names about.now }
{
    match about {
        About::Whole(object) => is_named_alike(named, object),
        About::Nothing | About::Id(_) | About::Changed(_) => names_nobody(named),
    }
}

impl KeptRare {
    // Empty properties. This allocates nothing.
    fn none() -> KeptRare
        ensures { rare_kept result ≡ no_rare }
    {
        KeptRare {
            target: None,
            in_reply_to: None,
            content: Words::none(),
            summary: Words::none(),
            name: Words::none(),
            tags: TagList::none(),
            forwards: Iris::none(),
        }
    }

    // Copies all properties but `forwards`.
    fn fill_from(&mut self, other: &KeptRare) -> Result<(), AllocError>
        ensures { OnOk result (rare_kept self.new
            ≡ record (rare_kept other.now) { forwards = self.old.forwards }) }
    {
        copy_iri(&mut self.target, &other.target)?;
        copy_iri(&mut self.in_reply_to, &other.in_reply_to)?;
        set(&mut self.content, other.content.copy()?);
        set(&mut self.summary, other.summary.copy()?);
        set(&mut self.name, other.name.copy()?);
        set(&mut self.tags, other.tags.copy()?);
        Ok(())
    }

    // A copy without `forwards`, which shares the long texts and the mentions. The error is out of
    // memory.
    fn excerpt(&self) -> Result<KeptRare, AllocError>
        ensures { IfOk result
            (λ copy. rare_kept copy ≡ record (rare_kept self.now) { forwards = [] }) }
    {
        let mut copy = KeptRare::none();
        copy.fill_from(self).and(Ok(copy))
    }
}

fn excerpt_of_rare(
    alloc: Global,
    rare: &Option<Box<KeptRare>>,
) -> Result<Option<Box<KeptRare>>, AllocError>
    ensures { IfOk result (λ copy. rare_in copy ≡ record (rare_in rare.now) { forwards = [] }) }
{
    match rare {
        Some(rare) => {
            let copy = rare.excerpt()?;
            Ok(Some(Box::new(alloc, copy)?))
        }
        None => Ok(None),
    }
}

fn keep_rare(alloc: Global, rare: Rare) -> Result<KeptRare, AllocError>
    ensures { IfOk result (λ kept. rare_kept kept ≡ rare) }
{
    let forwards = Iris::new(alloc, rare.forwards)?;
    let said = Said::new(alloc, rare.content, rare.summary, rare.name, rare.tags)?;
    Ok(KeptRare {
        target: rare.target,
        in_reply_to: rare.in_reply_to,
        content: said.content,
        summary: said.summary,
        name: said.name,
        tags: said.tags,
        forwards,
    })
}

fn rare_of(alloc: Global, rare: Rare) -> Result<Option<Box<KeptRare>>, AllocError>
    ensures { IfOk result (λ kept. rare_in kept ≡ rare) }
{
    if has_nothing(&rare) {
        return Ok(None);
    }
    let rare = keep_rare(alloc, rare)?;
    let rare = Box::new(alloc, rare)?;
    Ok(Some(rare))
}

fn parts_of(
    alloc: Global,
    named: Named,
    rare: Option<Box<KeptRare>>,
) -> Result<Option<Box<Parts>>, AllocError>
    ensures named { IfOk result (λ kept. (about : _)
        → named_part (unboxed kept) about ≡ names_given named) }
    ensures rare { IfOk result (λ kept. rare_part (unboxed kept) ≡ rare_in rare) }
{
    let lists = Lists::new(alloc, named.to, named.cc, named.audience)?;
    let parts = Box::new(
        alloc,
        Parts {
            to: lists.to,
            cc: lists.cc,
            audience: lists.audience,
            published: named.published,
            rare,
        },
    )?;
    Ok(Some(parts))
}

// What an activity has of its own, if its object does not have the same.
fn own_of(
    alloc: Global,
    named: Named,
    rare: Rare,
    about: &About,
) -> Result<Option<Box<Parts>>, AllocError>
    ensures named { IfOk result (λ kept. named_part (unboxed kept) about.now ≡ names_given named) }
    ensures rare { IfOk result (λ kept. rare_part (unboxed kept) ≡ rare) }
{
    let rare = rare_of(alloc, rare)?;
    if rare.is_none() && is_named_as_object(&named, about) {
        return Ok(None);
    }
    parts_of(alloc, named, rare)
}

/// What an activity is about, and what it has of its own in addition to that. The error is out of
/// memory.
pub(crate) fn content_of(
    alloc: Global,
    object: ObjectRef,
    named: Named,
    rare: Rare,
) -> Result<(About, Option<Box<Parts>>), AllocError>
    ensures about { IfOk result (λ both. referred both.0 ≡ object) }
    ensures named { IfOk result (λ both. named_part (unboxed both.1) both.0 ≡ names_given named) }
    ensures rare { IfOk result (λ both. rare_part (unboxed both.1) ≡ rare) }
{
    let about = About::new(alloc, object)?;
    match own_of(alloc, named, rare, &about) {
        Ok(own) => Ok((about, own)),
        Err(error) => {
            drop(about);
            Err(error)
        }
    }
}

/// The activity's own parts and its key. The error is out of memory.
pub(crate) fn beside_of(
    alloc: Global,
    own: Option<Box<Parts>>,
    repeat: Option<Repeat>,
) -> Result<Beside, AllocError>
    ensures own { IfOk result (λ beside. parts_in beside ≡ unboxed own) }
    ensures repeat { IfOk result (λ beside. repeat_in beside ≡ repeat) }
{
    match (own, repeat) {
        (None, None) => Ok(Beside::Nothing),
        (Some(own), None) => Ok(Beside::Parts(own)),
        (None, Some(repeat)) => Ok(Beside::Repeat(Box::new(alloc, repeat)?)),
        (Some(own), Some(repeat)) => {
            let repeat = Box::new(alloc, repeat)?;
            Ok(Beside::Both(Box::new(alloc, (own, repeat))?))
        }
    }
}

impl Beside {
    /// The activity's own parts.
    pub(crate) fn parts(&self) -> Option<&Parts>
        ensures { option_copied result ≡ parts_in self.now }
    {
        match self {
            Beside::Parts(parts) => Some(&**parts),
            Beside::Both(both) => Some(&*both.0),
            Beside::Nothing | Beside::Repeat(_) => None,
        }
    }

    /// A copy for readers, without the key and without `forwards`, which shares the long texts and
    /// the lists. The error is out of memory.
    pub(crate) fn excerpt(&self, alloc: Global) -> Result<Beside, AllocError>
        ensures named { IfOk result (λ copy. (about : _)
            → named_part (parts_in copy) about ≡ named_part (parts_in self.now) about) }
        ensures rare { IfOk result (λ copy. rare_part (parts_in copy)
            ≡ record (rare_part (parts_in self.now)) { forwards = [] }) }
        ensures repeat { IfOk result (λ copy. repeat_in copy ≡ None) }
    {
        match self.parts() {
            Some(parts) => {
                let copy = parts.excerpt(alloc)?;
                Ok(Beside::Parts(Box::new(alloc, copy)?))
            }
            None => Ok(Beside::Nothing),
        }
    }

    /// The rare properties, if this activity has any.
    pub(crate) fn rare(&self) -> Option<&KeptRare>
        ensures { rare_lent (option_copied result) ≡ rare_part (parts_in self.now) }
    {
        match self.parts() {
            Some(parts) => match &parts.rare {
                Some(rare) => Some(&**rare),
                None => None,
            },
            None => None,
        }
    }

    /// The key and the digest of the posted body.
    pub(crate) fn repeat(&self) -> Option<&Repeat>
        ensures { option_copied result ≡ repeat_in self.now }
    {
        match self {
            Beside::Repeat(repeat) => Some(&**repeat),
            Beside::Both(both) => Some(&*both.1),
            Beside::Nothing | Beside::Parts(_) => None,
        }
    }

    /// Makes frequently repeated IRIs share the text of equal ones.
    pub(crate) fn share(&mut self, pool: &mut Pool)
        ensures parts { parts_in self.new ≡ parts_in self.old }
        ensures repeat { repeat_in self.new ≡ repeat_in self.old }
    {
        match self {
            Beside::Parts(parts) => parts.share(pool),
            Beside::Both(both) => both.0.share(pool),
            Beside::Nothing | Beside::Repeat(_) => {}
        }
    }
}

impl Parts {
    // A copy without `forwards`, which shares the long texts and the lists. The error is out of
    // memory.
    fn excerpt(&self, alloc: Global) -> Result<Parts, AllocError>
        ensures named { IfOk result (λ copy. (about : _)
            → named_part (Some copy) about ≡ named_part (Some self.now) about) }
        ensures rare { IfOk result (λ copy. rare_part (Some copy)
            ≡ record (rare_part (Some self.now)) { forwards = [] }) }
    {
        let to = self.to.copy()?;
        let cc = self.cc.copy()?;
        let audience = self.audience.copy()?;
        let mut published = None;
        copy_text(&mut published, &self.published)?;
        let rare = excerpt_of_rare(alloc, &self.rare)?;
        Ok(Parts {
            to,
            cc,
            audience,
            published,
            rare,
        })
    }

    fn share(&mut self, pool: &mut Pool)
        ensures { self.new ≡ self.old }
    {
        self.to.share(pool);
        self.cc.share(pool);
        self.audience.share(pool);
    }
}

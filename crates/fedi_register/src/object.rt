//! The object that an activity carries, in its stored form.

ghost use Rattle.std.specs.Prelude.{◌≡◌, [], IfOk};
ghost use Rattle.fedi_objects.specs.Forms.{is_tombstone};
ghost use Rattle.fedi_objects.specs.Objects.{stripped_object};
ghost use Rattle.fedi_town.specs.Objects as objects;
ghost use Rattle.fedi_town.specs.Showing.{bare_tombstone, shown_object};
ghost use Rattle.fedi_register.specs.Parts.{extras_in, named_in, no_extras, whole};

use crate::common::Common;
use crate::extras::{
    Extras, Spare, copy_extras, deleted, edit, empty_extras, extras_or, former_kind, share_extras,
};
use crate::pool::Pool;
use crate::words::{Said, TagList, Words, copy_iri, copy_text, edit_tags, edit_words};
use fedi_address::{Iri, Items, Recipients};
use fedi_objects::{Change, Object, ObjectRef, ObjectView, StrippedObject, TOMBSTONE, set};
use fedi_text::Text;
use std::alloc::{AllocError, Global};
use std::mem;
use std::snapshot::Snapshot;
use std::sync::Arc;

// The recipients hidden from everybody but the author (ActivityPub, section 6). A contract sees
// them, but they are not stored.
#[derive(Drop)]
pub(crate) struct Hidden {
    pub(crate) bto: Snapshot<Items<Iri>>,
    pub(crate) bcc: Snapshot<Items<Iri>>,
}

// An object. What an Update or a Delete adds to it is stored in its extras or in place, so neither
// allocates if there is spare memory for the extras.
#[derive(Drop)]
pub(crate) struct KeptObject {
    pub(crate) id: Option<Iri>,
    pub(crate) kind: Text,
    pub(crate) common: Arc<Common>,
    pub(crate) content: Words,
    pub(crate) published: Option<Text>,
    pub(crate) extras: Option<Box<Extras>>,
    pub(crate) hidden: Hidden,
}

// There is one for each post.
const _: () = prove!(size_of::<KeptObject>() == 128);

/// The IRIs in `bto` and `bcc`, for contracts only.
pub(crate) fn hidden_of(recipients: &Recipients) -> Hidden
    ensures bto { result.bto.value ≡ recipients.now.bto }
    ensures bcc { result.bcc.value ≡ recipients.now.bcc }
{
    Hidden {
        bto: Snapshot::of(&recipients.bto),
        bcc: Snapshot::of(&recipients.bcc),
    }
}

/// No `bto` and no `bcc`. This allocates nothing.
pub(crate) fn nothing_hidden(alloc: Global) -> Hidden
    ensures bto { result.bto.value ≡ [] }
    ensures bcc { result.bcc.value ≡ [] }
{
    let nobody = Items::empty(alloc);
    Hidden {
        bto: Snapshot::of(&nobody),
        bcc: Snapshot::of(&nobody),
    }
}

fn common_and_extras(
    alloc: Global,
    attributed_to: Option<Iri>,
    names: Recipients,
    extras: Extras,
) -> Result<(Arc<Common>, Option<Box<Extras>>), AllocError>
    ensures author { IfOk result (λ both. both.0.value.attributed_to ≡ attributed_to) }
    ensures to { IfOk result (λ both. both.0.value.lists.to ≡ names.to) }
    ensures cc { IfOk result (λ both. both.0.value.lists.cc ≡ names.cc) }
    ensures audience { IfOk result (λ both. both.0.value.lists.audience ≡ names.audience) }
    ensures extras { IfOk result (λ both. extras_in both.1 ≡ extras) }
{
    let extras = extras.boxed(alloc)?;
    match Common::new(alloc, attributed_to, names) {
        Ok(common) => Ok((common, extras)),
        Err(error) => {
            drop(extras);
            Err(error)
        }
    }
}

impl KeptObject {
    /// Converts the object to its stored form. The error is out of memory.
    pub(crate) fn new(alloc: Global, object: Object) -> Result<KeptObject, AllocError>
        ensures { IfOk result (λ kept. whole kept ≡ object) }
    {
        let hidden = hidden_of(&object.recipients);
        let said = Said::new(
            alloc,
            object.content,
            object.summary,
            object.name,
            object.tags,
        )?;
        let extras = Extras {
            in_reply_to: object.in_reply_to,
            summary: said.summary,
            name: said.name,
            url: object.url,
            updated: object.updated,
            former_kind: object.former_kind,
            deleted: object.deleted,
            tags: said.tags,
        };
        let (common, extras) = common_and_extras(
            alloc,
            object.attributed_to,
            object.recipients,
            extras,
        )?;
        Ok(KeptObject {
            id: object.id,
            kind: object.kind,
            common,
            content: said.content,
            published: object.published,
            extras,
            hidden,
        })
    }

    /// A copy for readers, without `bto` and `bcc`, which shares the long texts and the lists. The
    /// error is out of memory.
    pub(crate) fn excerpt(&self, alloc: Global) -> Result<KeptObject, AllocError>
        ensures whole { IfOk result (λ copy. whole copy ≡ stripped_object (whole self.now)) }
        ensures named { IfOk result (λ copy. named_in copy ≡ named_in self.now) }
    {
        let mut id = None;
        copy_iri(&mut id, &self.id)?;
        let common = Arc::try_clone(&self.common)?;
        let kind = self.kind.clone()?;
        let mut published = None;
        copy_text(&mut published, &self.published)?;
        let content = self.content.copy()?;
        let extras = copy_extras(alloc, &self.extras)?;
        Ok(KeptObject {
            id,
            kind,
            common,
            content,
            published,
            extras,
            hidden: nothing_hidden(alloc),
        })
    }

    /// Whether it is the Tombstone of a deleted object.
    pub(crate) fn is_tombstone(&self) -> bool
        ensures { result ≡ is_tombstone (whole self.now) }
    {
        self.kind.text() == TOMBSTONE
    }

    // The four members of a Tombstone (ActivityStreams 2.0 Vocabulary, section 3.3).
    fn show_tombstone(&self) -> StrippedObject<'_>
        ensures { result ≡ bare_tombstone (whole self.now) }
    {
        StrippedObject::of(ObjectView {
            id: self.id.as_ref(),
            kind: &self.kind,
            attributed_to: None,
            to: &[],
            cc: &[],
            audience: &[],
            in_reply_to: None,
            content: None,
            summary: None,
            name: None,
            url: None,
            published: None,
            updated: None,
            former_kind: former_kind(&self.extras),
            deleted: deleted(&self.extras),
            tags: &[],
        })
    }

    // The object without its `bto` and `bcc`. It has no extras.
    fn strip_plain(&self) -> StrippedObject<'_>
        requires { extras_in self.now.extras ≡ no_extras }
        ensures { result ≡ stripped_object (whole self.now) }
    {
        StrippedObject::of(ObjectView {
            id: self.id.as_ref(),
            kind: &self.kind,
            attributed_to: self.common.attributed_to.as_ref(),
            to: self.common.lists.to.as_slice(),
            cc: self.common.lists.cc.as_slice(),
            audience: self.common.lists.audience.as_slice(),
            in_reply_to: None,
            content: self.content.as_ref(),
            summary: None,
            name: None,
            url: None,
            published: self.published.as_ref(),
            updated: None,
            former_kind: None,
            deleted: None,
            tags: &[],
        })
    }

    // The same with its extras.
    fn strip_with<'a>(&'a self, extras: &'a Extras) -> StrippedObject<'a>
        requires { extras.now ≡ extras_in self.now.extras }
        ensures { result ≡ stripped_object (whole self.now) }
    {
        StrippedObject::of(ObjectView {
            id: self.id.as_ref(),
            kind: &self.kind,
            attributed_to: self.common.attributed_to.as_ref(),
            to: self.common.lists.to.as_slice(),
            cc: self.common.lists.cc.as_slice(),
            audience: self.common.lists.audience.as_slice(),
            in_reply_to: extras.in_reply_to.as_ref(),
            content: self.content.as_ref(),
            summary: extras.summary.as_ref(),
            name: extras.name.as_ref(),
            url: extras.url.as_ref(),
            published: self.published.as_ref(),
            updated: extras.updated.as_ref(),
            former_kind: extras.former_kind.as_ref(),
            deleted: extras.deleted.as_ref(),
            tags: extras.tags.as_slice(),
        })
    }

    // The object without its `bto` and `bcc`.
    fn strip(&self) -> StrippedObject<'_>
        ensures { result ≡ stripped_object (whole self.now) }
    {
        match &self.extras {
            Some(extras) => self.strip_with(extras),
            None => self.strip_plain(),
        }
    }

    /// The object as it is shown: a Tombstone with only its four members, any other object without
    /// its `bto` and `bcc` (ActivityPub, section 6).
    pub(crate) fn show(&self) -> StrippedObject<'_>
        ensures { result ≡ shown_object (whole self.now) }
    {
        if self.is_tombstone() {
            self.show_tombstone()
        } else {
            self.strip()
        }
    }

    // Applies a client's Update to the object.
    #[tactic(auto, unfolding(fedi_town::specs::Objects::change_object))]
    fn change(&mut self, by: Change, stamp: Text, spare: Spare)
        ensures changed { whole self.new ≡ objects.change_object by stamp (whole self.old) }
        ensures named { named_in self.new ≡ named_in self.old }
    {
        let Spare { extras, blocks } = spare;
        edit_words(&mut self.content, by.content, blocks.content);
        let mut extras = extras_or(self.extras.take(), extras);
        edit_words(&mut extras.summary, by.summary, blocks.summary);
        edit_words(&mut extras.name, by.name, blocks.name);
        edit(&mut extras.url, by.url);
        edit(&mut extras.in_reply_to, by.in_reply_to);
        edit_tags(&mut extras.tags, by.tags, blocks.tags);
        set(&mut extras.updated, Some(stamp));
        self.extras = Some(extras);
    }

    // Applies a peer's Update, which carries the whole object, to the object.
    #[tactic(auto, unfolding(fedi_town::specs::Objects::replace_object))]
    fn replace(&mut self, by: Object, spare: Spare)
        ensures replaced { whole self.new ≡ objects.replace_object by (whole self.old) }
        ensures named { named_in self.new ≡ named_in self.old }
    {
        let Spare { extras, blocks } = spare;
        set(
            &mut self.content,
            Words::in_block(by.content, blocks.content),
        );
        let mut extras = extras_or(self.extras.take(), extras);
        set(
            &mut extras.summary,
            Words::in_block(by.summary, blocks.summary),
        );
        set(&mut extras.name, Words::in_block(by.name, blocks.name));
        set(&mut extras.url, by.url);
        set(&mut extras.in_reply_to, by.in_reply_to);
        set(&mut extras.tags, TagList::in_block(by.tags, blocks.tags));
        set(&mut extras.updated, by.updated);
        self.extras = Some(extras);
    }

    /// Applies what an Update by a client (ActivityPub, section 6.3) or by a peer (section 7.3)
    /// carries to the object. This uses no memory except `spare`.
    pub(crate) fn update(&mut self, by: ObjectRef, stamp: Text, spare: Spare)
        ensures updated { whole self.new ≡ objects.update_object by stamp (whole self.old) }
        ensures named { named_in self.new ≡ named_in self.old }
    {
        match by {
            ObjectRef::Nothing | ObjectRef::Id(_) => {}
            ObjectRef::Whole(new) => self.replace(new.into_inner(), spare),
            ObjectRef::Changed(by) => self.change(by, stamp, spare),
        }
    }

    // Clears everything that an Update may set.
    fn empty(&mut self)
        ensures emptied { whole self.new ≡ objects.emptied (whole self.old) }
        ensures named { named_in self.new ≡ named_in self.old }
    {
        set(&mut self.content, Words::none());
        empty_extras(&mut self.extras);
    }

    /// Replaces the object by a Tombstone (ActivityPub, section 6.4), and keeps nothing of its
    /// content. This uses no memory except `spare`.
    #[tactic(auto, unfolding(fedi_town::specs::Objects::tombstone_of))]
    pub(crate) fn make_tombstone(&mut self, kind: Text, stamp: Text, spare: Spare)
        ensures buried { whole self.new ≡ objects.tombstone_of kind stamp (whole self.old) }
        ensures named { named_in self.new ≡ named_in self.old }
    {
        self.empty();
        let former = mem::replace(&mut self.kind, kind);
        let Spare { extras, blocks } = spare;
        drop(blocks);
        let mut extras = extras_or(self.extras.take(), extras);
        set(&mut extras.former_kind, Some(former));
        set(&mut extras.deleted, Some(stamp));
        self.extras = Some(extras);
    }

    /// Makes frequently repeated IRIs share the text of equal ones.
    pub(crate) fn share(&mut self, pool: &mut Pool)
        ensures whole { whole self.new ≡ whole self.old }
        ensures named { named_in self.new ≡ named_in self.old }
    {
        share_extras(&mut self.extras, pool);
        pool.share_common(&mut self.common);
    }
}

//! One accepted activity in its stored form.

ghost use Rattle.std.specs.Prelude.{◌≡◌, IfOk, option_copied, option_map};
ghost use Rattle.fedi_town.specs.Showing.{shown_object};
ghost use Rattle.fedi_town.specs.Deeds.{deed_of};
ghost use Rattle.fedi_town.specs.Objects.{is_deleted, rewrite_act, tombstone_of, update_object};
ghost use Rattle.fedi_town.specs.Objects.{whole_of};
ghost use Rattle.fedi_town.specs.Relations.{ref_id};
ghost use Rattle.fedi_register.specs.Excerpts.{excerpt};
ghost use Rattle.fedi_register.specs.Mentions.{reply_in, tags_in};

use crate::about::About;
use crate::extras::Spare;
use crate::iris::Iris;
use crate::object::{Hidden, hidden_of, nothing_hidden};
use crate::parts::{Beside, Named, Rare, beside_of, content_of};
use crate::pool::Pool;
use crate::words::copy_iri;
use fedi_address::Iri;
use fedi_objects::{Kind, ObjectRef, RepeatKey, State, StrippedObject, Tag};
use fedi_text::{Moment, Text};
use fedi_town::{Act, Deed};
use std::alloc::{AllocError, Global};
use std::marker::Model;
use std::snapshot::Snapshot;

/// An accepted activity. A contract sees it as the whole activity of the definitions. What is never
/// shown to a reader, such as `bto` and `bcc`, is not stored, and what an activity and its object
/// have in common is stored once.
#[derive(Drop)]
pub struct Kept {
    author: Iri,
    id: Option<Iri>,
    about: About,
    // The activity has no parts of its own if it has the same addressees and the same `published`
    // as its object, and no rare properties.
    beside: Beside,
    recipients: Iris,
    moment: Moment,
    kind: Kind,
    state: State,
    is_public: bool,
    for_followers: bool,
    actor: Snapshot<Option<Iri>>,
    hidden: Hidden,
}

// There is one for each activity.
const _: () = prove!(size_of::<Kept>() == 88);

impl Model for Kept {
    ghost use Rattle.fedi_town.specs.declared.act.Act.{Act};

    ghost Value = { Act };

    ghost use Rattle.fedi_register.specs.Seen.{seen};

    ghost view = { seen };
}

impl Kept {
    /// Converts the activity to its stored form. The error is out of memory.
    pub fn new(alloc: Global, act: Act) -> Result<Kept, AllocError>
        ensures { IfOk result (λ kept. kept ≡ act) }
    {
        let recipients = Iris::new(alloc, act.recipients)?;
        let activity = act.activity.into_inner();
        let names = activity.recipients;
        let hidden = hidden_of(&names);
        let actor = Snapshot::of(&activity.actor);
        let named = Named {
            to: names.to,
            cc: names.cc,
            audience: names.audience,
            published: activity.published,
        };
        let rare = Rare {
            target: activity.target,
            in_reply_to: activity.in_reply_to,
            content: activity.content,
            summary: activity.summary,
            name: activity.name,
            tags: activity.tags,
            forwards: act.forwards,
        };
        let (about, own) = content_of(alloc, activity.object, named, rare)?;
        let beside = beside_of(alloc, own, act.repeat)?;
        Ok(Kept {
            author: act.author,
            id: activity.id,
            about,
            beside,
            recipients,
            moment: act.moment,
            kind: activity.kind,
            state: act.state,
            is_public: act.is_public,
            for_followers: act.for_followers,
            actor,
            hidden,
        })
    }

    /// A copy of what readers may be shown of the activity. It shares the long texts and the lists,
    /// so that its time and its memory have a limit whatever the activity says. The error is out of
    /// memory.
    pub fn excerpt(&self, alloc: Global) -> Result<Kept, AllocError>
        ensures { IfOk result (λ copy. copy ≡ excerpt self.now) }
    {
        let mut id = None;
        copy_iri(&mut id, &self.id)?;
        let author = self.author.copy()?;
        let beside = self.beside.excerpt(alloc)?;
        let about = self.about.excerpt(alloc)?;
        Ok(Kept {
            author,
            id,
            about,
            beside,
            recipients: Iris::none(),
            moment: self.moment,
            kind: self.kind,
            state: self.state,
            is_public: self.is_public,
            for_followers: self.for_followers,
            actor: Snapshot::of(&None),
            hidden: nothing_hidden(alloc),
        })
    }

    /// The id of the activity's author.
    pub fn author(&self) -> &Iri
        ensures { result.now ≡ self.now.author }
    {
        &self.author
    }

    /// The activity's id.
    pub fn id(&self) -> Option<&Iri>
        ensures { option_copied result ≡ self.now.activity.id }
    {
        self.id.as_ref()
    }

    /// The activity's type.
    pub fn kind(&self) -> Kind
        ensures { result ≡ self.now.activity.kind }
    {
        self.kind
    }

    /// The kind of effect that the activity has.
    pub fn deed(&self) -> Deed
        ensures { result ≡ deed_of self.now.activity.kind }
    {
        Deed::of(self.kind)
    }

    /// The activity's state.
    pub fn state(&self) -> State
        ensures { result ≡ self.now.state }
    {
        self.state
    }

    /// When the activity was accepted.
    pub fn moment(&self) -> Moment
        ensures { result ≡ self.now.moment }
    {
        self.moment
    }

    /// Whether everybody may see the activity (ActivityPub, section 5.6).
    pub fn is_public(&self) -> bool
        ensures { result ≡ self.now.is_public }
    {
        self.is_public
    }

    /// Whether the activity is addressed to its author's followers collection (ActivityPub, section
    /// 5.3).
    pub fn is_for_followers(&self) -> bool
        ensures { result ≡ self.now.for_followers }
    {
        self.for_followers
    }

    /// The recipients of the activity (ActivityPub, section 7.1).
    pub fn recipients(&self) -> &[Iri]
        ensures { result.now ≡ self.now.recipients }
    {
        self.recipients.as_slice()
    }

    /// The recipients to which an activity from elsewhere is forwarded (ActivityPub, section
    /// 7.1.2).
    pub fn forwards(&self) -> &[Iri]
        ensures { result.now ≡ self.now.forwards }
    {
        match self.beside.rare() {
            Some(rare) => rare.forwards.as_slice(),
            None => &[],
        }
    }

    /// The key by which a repeated post is recognized, and the digest of the posted body.
    pub fn repeat(&self) -> Option<&(RepeatKey, [u8; 32])>
        ensures { option_copied result ≡ self.now.repeat }
    {
        self.beside.repeat()
    }

    /// The id of what the activity is about.
    pub fn object_id(&self) -> Option<&Iri>
        ensures { option_copied result ≡ ref_id self.now.activity.object }
    {
        self.about.id()
    }

    /// The object that the activity carries, as it is shown: without `bto` and `bcc`, and a
    /// Tombstone with only its `id`, `type`, `formerType` and `deleted` (ActivityPub, sections 6
    /// and 6.4).
    pub fn object(&self) -> Option<StrippedObject<'_>>
        ensures { result ≡ option_map shown_object (whole_of self.now.activity.object) }
    {
        self.about.object()
    }

    /// What the carried object replies to, even if the object is a Tombstone.
    pub fn object_reply(&self) -> Option<&Iri>
        ensures { option_copied result ≡ reply_in (whole_of self.now.activity.object) }
    {
        self.about.reply()
    }

    /// The actors that the carried object mentions, even if the object is a Tombstone.
    pub fn object_tags(&self) -> &[Tag]
        ensures { result.now ≡ tags_in (whole_of self.now.activity.object) }
    {
        self.about.tags()
    }

    /// What the activity is about in addition to its object: another object or actor.
    pub fn target(&self) -> Option<&Iri>
        ensures { option_copied result ≡ self.now.activity.target }
    {
        match self.beside.rare() {
            Some(rare) => rare.target.as_ref(),
            None => None,
        }
    }

    /// The IRIs in `to`.
    pub fn to(&self) -> &[Iri]
        ensures { result.now ≡ self.now.activity.recipients.to }
    {
        match (self.beside.parts(), &self.about) {
            (Some(own), _) => own.to.as_slice(),
            (None, About::Whole(object)) => object.common.lists.to.as_slice(),
            (None, _) => &[],
        }
    }

    /// The IRIs in `cc`.
    pub fn cc(&self) -> &[Iri]
        ensures { result.now ≡ self.now.activity.recipients.cc }
    {
        match (self.beside.parts(), &self.about) {
            (Some(own), _) => own.cc.as_slice(),
            (None, About::Whole(object)) => object.common.lists.cc.as_slice(),
            (None, _) => &[],
        }
    }

    /// The IRIs in `audience`.
    pub fn audience(&self) -> &[Iri]
        ensures { result.now ≡ self.now.activity.recipients.audience }
    {
        match (self.beside.parts(), &self.about) {
            (Some(own), _) => own.audience.as_slice(),
            (None, About::Whole(object)) => object.common.lists.audience.as_slice(),
            (None, _) => &[],
        }
    }

    /// What the activity replies to.
    pub fn in_reply_to(&self) -> Option<&Iri>
        ensures { option_copied result ≡ self.now.activity.in_reply_to }
    {
        match self.beside.rare() {
            Some(rare) => rare.in_reply_to.as_ref(),
            None => None,
        }
    }

    /// The activity's content.
    pub fn content(&self) -> Option<&Text>
        ensures { option_copied result ≡ self.now.activity.content }
    {
        match self.beside.rare() {
            Some(rare) => rare.content.as_ref(),
            None => None,
        }
    }

    /// The activity's summary.
    pub fn summary(&self) -> Option<&Text>
        ensures { option_copied result ≡ self.now.activity.summary }
    {
        match self.beside.rare() {
            Some(rare) => rare.summary.as_ref(),
            None => None,
        }
    }

    /// The activity's name.
    pub fn name(&self) -> Option<&Text>
        ensures { option_copied result ≡ self.now.activity.name }
    {
        match self.beside.rare() {
            Some(rare) => rare.name.as_ref(),
            None => None,
        }
    }

    /// When the activity was published.
    pub fn published(&self) -> Option<&Text>
        ensures { option_copied result ≡ self.now.activity.published }
    {
        match (self.beside.parts(), &self.about) {
            (Some(own), _) => own.published.as_ref(),
            (None, About::Whole(object)) => object.published.as_ref(),
            (None, _) => None,
        }
    }

    /// The actors that the activity mentions.
    pub fn tags(&self) -> &[Tag]
        ensures { result.now ≡ self.now.activity.tags }
    {
        match self.beside.rare() {
            Some(rare) => rare.tags.as_slice(),
            None => &[],
        }
    }

    /// Sets the activity's state.
    pub fn set_state(&mut self, state: State)
        ensures { self.new ≡ record self.old { state = state } }
    {
        self.state = state;
    }

    /// Sets the activity's recipients.
    pub fn set_recipients(&mut self, recipients: Iris)
        ensures { self.new ≡ record self.old { recipients = recipients } }
    {
        self.recipients = recipients;
    }

    /// Whether the activity created an object that has since been deleted (ActivityPub, section
    /// 6.4).
    #[tactic(auto, unfolding(fedi_town::specs::Objects::is_deleted))]
    pub fn is_deleted(&self) -> bool
        ensures { result ≡ is_deleted self.now }
    {
        match (self.kind, self.state) {
            (Kind::Create, State::Done) => self.about.is_tombstone(),
            _ => false,
        }
    }

    /// Applies what an Update carries to the object that the activity carries. The Update was
    /// accepted at the moment `stamp` (ActivityPub, sections 6.3 and 7.3). This uses no memory
    /// except `spare`.
    #[tactic(auto, unfolding(fedi_town::specs::Objects::rewrite_act))]
    pub fn update_object(&mut self, by: ObjectRef, stamp: Text, spare: Spare)
        ensures { self.new ≡ rewrite_act (update_object by stamp) self.old }
    {
        self.about.update(by, stamp, spare);
    }

    /// Replaces the object that the activity carries by a Tombstone: `kind` is the type of a
    /// Tombstone, and `stamp` the moment of the Delete (ActivityPub, sections 6.4 and 7.4). This
    /// uses no memory except `spare`.
    #[tactic(auto, unfolding(fedi_town::specs::Objects::rewrite_act))]
    pub fn make_tombstone(&mut self, kind: Text, stamp: Text, spare: Spare)
        ensures { self.new ≡ rewrite_act (tombstone_of kind stamp) self.old }
    {
        self.about.make_tombstone(kind, stamp, spare);
    }

    /// Makes frequently repeated IRIs, such as the author's, share the text of equal ones. The
    /// effect cannot be observed, and nothing is allocated.
    pub fn share(&mut self, pool: &mut Pool)
        ensures { self.new ≡ self.old }
    {
        pool.share(&mut self.author);
        self.about.share(pool);
        self.beside.share(pool);
        self.recipients.share(pool);
    }
}

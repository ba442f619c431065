//! Reading objects, changes and activities.
//!
//! A value with many fields is read in several parts. Each part has a few fields and is read as
//! pairs.

ghost use Rattle.std.specs.Prelude.{◌≡◌};
ghost use Rattle.fedi_entry.specs.Reading.{activity_of, kind_of, object_of};

use crate::fault::ReadFault;
use crate::read_values::{Date, Decode, KindName};
use crate::reader::Reader;
use fedi_address::{Iri, Items, Recipients};
use fedi_objects::{Activity, Boxed, Change, Edit, Kind, Object, ObjectRef, Tag};
use fedi_text::Text;

impl Decode for Tag {
    ghost use Rattle.fedi_entry.specs.Reading.{tag_at};

    ghost at = { tag_at };

    #[tactic(auto, unfolding(crate::specs::Reading::tag_at))]
    fn decode(reader: &mut Reader<'_>) -> Result<Tag, ReadFault> {
        let (href, name) = Decode::decode(reader)?;
        Ok(Tag { href, name })
    }
}

impl Decode for Recipients {
    ghost use Rattle.fedi_entry.specs.Reading.{recipients_at};

    ghost at = { recipients_at };

    #[tactic(auto, unfolding(crate::specs::Reading::recipients_at))]
    fn decode(reader: &mut Reader<'_>) -> Result<Recipients, ReadFault> {
        let (to, (cc, (bto, (bcc, audience)))) = Decode::decode(reader)?;
        Ok(Recipients {
            to,
            cc,
            bto,
            bcc,
            audience,
        })
    }
}

/// Three optional texts.
#[derive(Drop)]
pub struct Words {
    pub content: Option<Text>,
    pub summary: Option<Text>,
    pub name: Option<Text>,
}

impl Decode for Words {
    ghost use Rattle.fedi_entry.specs.Reading.{words_at};

    ghost at = { words_at };

    #[tactic(auto, unfolding(crate::specs::Reading::words_at))]
    fn decode(reader: &mut Reader<'_>) -> Result<Words, ReadFault> {
        let (content, (summary, name)) = Decode::decode(reader)?;
        Ok(Words {
            content,
            summary,
            name,
        })
    }
}

/// The text of an optional date.
fn date_text(date: Option<Date>) -> Option<Text>
    ensures { result ≡ date }
{
    match date {
        Some(date) => Some(date.text),
        None => None,
    }
}

/// The text of an optional type.
fn kind_text(kind: Option<KindName>) -> Option<Text>
    ensures { result ≡ kind }
{
    match kind {
        Some(kind) => Some(kind.text),
        None => None,
    }
}

/// The first part of an object.
#[derive(Drop)]
pub struct ObjectHead {
    pub id: Option<Iri>,
    pub kind: KindName,
    pub attributed_to: Option<Iri>,
}

impl Decode for ObjectHead {
    ghost use Rattle.fedi_entry.specs.Reading.{object_head_at};

    ghost at = { object_head_at };

    #[tactic(auto, unfolding(crate::specs::Reading::object_head_at))]
    fn decode(reader: &mut Reader<'_>) -> Result<ObjectHead, ReadFault> {
        let (id, (kind, attributed_to)) = Decode::decode(reader)?;
        Ok(ObjectHead {
            id,
            kind,
            attributed_to,
        })
    }
}

/// What an object replies to, its content, summary and name, and its url.
#[derive(Drop)]
pub struct ObjectWords {
    pub in_reply_to: Option<Iri>,
    pub words: Words,
    pub url: Option<Iri>,
}

impl Decode for ObjectWords {
    ghost use Rattle.fedi_entry.specs.Reading.{object_words_at};

    ghost at = { object_words_at };

    #[tactic(auto, unfolding(crate::specs::Reading::object_words_at))]
    fn decode(reader: &mut Reader<'_>) -> Result<ObjectWords, ReadFault> {
        let (in_reply_to, (words, url)) = Decode::decode(reader)?;
        Ok(ObjectWords {
            in_reply_to,
            words,
            url,
        })
    }
}

/// When an object was published, updated and deleted, and its former type.
#[derive(Drop)]
pub struct ObjectTimes {
    pub published: Option<Date>,
    pub updated: Option<Date>,
    pub former_kind: Option<KindName>,
    pub deleted: Option<Date>,
}

impl Decode for ObjectTimes {
    ghost use Rattle.fedi_entry.specs.Reading.{object_times_at};

    ghost at = { object_times_at };

    #[tactic(auto, unfolding(crate::specs::Reading::object_times_at))]
    fn decode(reader: &mut Reader<'_>) -> Result<ObjectTimes, ReadFault> {
        let (published, (updated, (former_kind, deleted))) = Decode::decode(reader)?;
        Ok(ObjectTimes {
            published,
            updated,
            former_kind,
            deleted,
        })
    }
}

/// The object with these parts.
fn object_of(
    head: ObjectHead,
    recipients: Recipients,
    says: ObjectWords,
    times: ObjectTimes,
    tags: Items<Tag>,
) -> Object
    ensures { result ≡ object_of head recipients says times tags }
{
    Object {
        id: head.id,
        kind: head.kind.text,
        attributed_to: head.attributed_to,
        recipients,
        in_reply_to: says.in_reply_to,
        content: says.words.content,
        summary: says.words.summary,
        name: says.words.name,
        url: says.url,
        published: date_text(times.published),
        updated: date_text(times.updated),
        former_kind: kind_text(times.former_kind),
        deleted: date_text(times.deleted),
        tags,
    }
}

impl Decode for Object {
    ghost use Rattle.fedi_entry.specs.Reading.{object_at};

    ghost at = { object_at };

    #[tactic(auto, unfolding(crate::specs::Reading::object_at))]
    fn decode(reader: &mut Reader<'_>) -> Result<Object, ReadFault> {
        let (head, (recipients, (says, (times, tags)))) = Decode::decode(reader)?;
        Ok(object_of(head, recipients, says, times, tags))
    }
}

/// What is done to the three texts.
#[derive(Drop)]
pub struct ChangedWords {
    pub content: Edit<Text>,
    pub summary: Edit<Text>,
    pub name: Edit<Text>,
}

impl Decode for ChangedWords {
    ghost use Rattle.fedi_entry.specs.Reading.{changed_words_at};

    ghost at = { changed_words_at };

    #[tactic(auto, unfolding(crate::specs::Reading::changed_words_at))]
    fn decode(reader: &mut Reader<'_>) -> Result<ChangedWords, ReadFault> {
        let (content, (summary, name)) = Decode::decode(reader)?;
        Ok(ChangedWords {
            content,
            summary,
            name,
        })
    }
}

impl Decode for Change {
    ghost use Rattle.fedi_entry.specs.Reading.{change_at};

    ghost at = { change_at };

    #[tactic(auto, unfolding(crate::specs::Reading::change_at))]
    fn decode(reader: &mut Reader<'_>) -> Result<Change, ReadFault> {
        let (id, (words, (url, (in_reply_to, tags)))) = <(Iri, (ChangedWords, _))>::decode(reader)?;
        Ok(Change {
            id,
            content: words.content,
            summary: words.summary,
            name: words.name,
            url,
            in_reply_to,
            tags,
        })
    }
}

impl Decode for ObjectRef {
    ghost use Rattle.fedi_entry.specs.Reading.{object_ref_at};

    ghost at = { object_ref_at };

    #[tactic(auto, unfolding(crate::specs::Reading::object_ref_at))]
    fn decode(reader: &mut Reader<'_>) -> Result<ObjectRef, ReadFault> {
        let fault = reader.fault();
        match reader.byte()? {
            0 => Ok(ObjectRef::Nothing),
            1 => Ok(ObjectRef::Id(Iri::decode(reader)?)),
            2 => Ok(ObjectRef::Whole(Boxed::decode(reader)?)),
            3 => Ok(ObjectRef::Changed(Change::decode(reader)?)),
            _ => Err(fault),
        }
    }
}

/// The activity type with this number.
#[tactic(auto, unfolding(crate::specs::Reading::kind_of))]
fn numbered(number: u8) -> Option<Kind>
    ensures { result ≡ kind_of number }
{
    Kind::ALL
        .iter()
        .copied()
        .find(|kind| kind.number() == number)
}

impl Decode for Kind {
    ghost use Rattle.fedi_entry.specs.Reading.{kind_at};

    ghost at = { kind_at };

    #[tactic(auto, unfolding(crate::specs::Reading::kind_at))]
    fn decode(reader: &mut Reader<'_>) -> Result<Kind, ReadFault> {
        let fault = reader.fault();
        match numbered(reader.byte()?) {
            Some(kind) => Ok(kind),
            None => Err(fault),
        }
    }
}

/// The first part of an activity.
#[derive(Drop)]
pub struct ActivityHead {
    pub id: Option<Iri>,
    pub kind: Kind,
    pub actor: Option<Iri>,
}

impl Decode for ActivityHead {
    ghost use Rattle.fedi_entry.specs.Reading.{activity_head_at};

    ghost at = { activity_head_at };

    #[tactic(auto, unfolding(crate::specs::Reading::activity_head_at))]
    fn decode(reader: &mut Reader<'_>) -> Result<ActivityHead, ReadFault> {
        let (id, (kind, actor)) = Decode::decode(reader)?;
        Ok(ActivityHead { id, kind, actor })
    }
}

/// What an activity replies to, its content, summary and name, its time and its mentions.
#[derive(Drop)]
pub struct ActivityWords {
    pub in_reply_to: Option<Iri>,
    pub words: Words,
    pub published: Option<Date>,
    pub tags: Items<Tag>,
}

impl Decode for ActivityWords {
    ghost use Rattle.fedi_entry.specs.Reading.{activity_words_at};

    ghost at = { activity_words_at };

    #[tactic(auto, unfolding(crate::specs::Reading::activity_words_at))]
    fn decode(reader: &mut Reader<'_>) -> Result<ActivityWords, ReadFault> {
        let (in_reply_to, (words, (published, tags))) = Decode::decode(reader)?;
        Ok(ActivityWords {
            in_reply_to,
            words,
            published,
            tags,
        })
    }
}

/// The activity with these parts.
fn activity_of(
    head: ActivityHead,
    object: ObjectRef,
    target: Option<Iri>,
    recipients: Recipients,
    says: ActivityWords,
) -> Activity
    ensures { result ≡ activity_of head object target recipients says }
{
    Activity {
        id: head.id,
        kind: head.kind,
        actor: head.actor,
        object,
        target,
        recipients,
        in_reply_to: says.in_reply_to,
        content: says.words.content,
        summary: says.words.summary,
        name: says.words.name,
        published: date_text(says.published),
        tags: says.tags,
    }
}

impl Decode for Activity {
    ghost use Rattle.fedi_entry.specs.Reading.{activity_at};

    ghost at = { activity_at };

    #[tactic(auto, unfolding(crate::specs::Reading::activity_at))]
    fn decode(reader: &mut Reader<'_>) -> Result<Activity, ReadFault> {
        let (head, (object, (target, (recipients, says)))) = Decode::decode(reader)?;
        Ok(activity_of(head, object, target, recipients, says))
    }
}

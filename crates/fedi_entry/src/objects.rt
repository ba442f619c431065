//! Objects, changes and activities as bytes.

ghost use Rattle.std.specs.Prelude.{◌≡◌, ◌++◌, OnOk};
ghost use Rattle.fedi_entry.specs.Codes.{activity_words, object_times, object_words, words_code};
ghost use Rattle.fedi_entry.specs.Fields.{AreActivityWords, AreObjectTimes, AreObjectWords};
ghost use Rattle.fedi_entry.specs.Fields.{AreWords};
ghost use Rattle.fedi_entry.specs.Limits.{AreTimesWithin, AreWordsWithin, IsSaidWithin};

use crate::values::{Encode, put_byte, put_text, put_text_option};
use fedi_address::Recipients;
use fedi_objects::{Activity, Change, Object, ObjectRef, Tag};
use fedi_text::Text;
use std::alloc::AllocError;

impl Encode for Tag {
    ghost use Rattle.fedi_entry.specs.Codes.{tag_code};
    ghost use Rattle.fedi_entry.specs.Fields.{IsTag};
    ghost use Rattle.fedi_entry.specs.Limits.{IsTagWithin};

    ghost code = { tag_code };

    ghost limits = { IsTagWithin };

    ghost form = { IsTag };

    #[tactic(auto, unfolding(crate::specs::Codes::tag_code))]
    fn put(&self, bytes: &mut Vec<u8>) -> Result<(), AllocError> {
        self.href.put(bytes)?;
        self.name.put(bytes)
    }
}

impl Encode for Recipients {
    ghost use Rattle.fedi_entry.specs.Codes.{recipients_code};
    ghost use Rattle.fedi_entry.specs.Fields.{AreRecipients};

    ghost code = { recipients_code };

    ghost limits = { λ _. Unit {0} };

    ghost form = { AreRecipients };

    #[tactic(auto, unfolding(crate::specs::Codes::recipients_code, crate::specs::Codes::hidden_code))]
    fn put(&self, bytes: &mut Vec<u8>) -> Result<(), AllocError> {
        self.to.put(bytes)?;
        self.cc.put(bytes)?;
        self.bto.put(bytes)?;
        self.bcc.put(bytes)?;
        self.audience.put(bytes)
    }
}

/// Appends three optional texts.
#[tactic(auto, unfolding(crate::specs::Codes::words_code))]
fn put_words(
    bytes: &mut Vec<u8>,
    content: &Option<Text>,
    summary: &Option<Text>,
    name: &Option<Text>,
) -> Result<(), AllocError>
    requires limits { AreWordsWithin content.now summary.now name.now }
    ensures code { OnOk result (bytes.new.items
        ≡ bytes.old.items ++ words_code content.now summary.now name.now) }
    ensures formed { OnOk result (AreWords content.now summary.now name.now) }
{
    content.put(bytes)?;
    summary.put(bytes)?;
    name.put(bytes)
}

/// Appends what an object replies to, its content, summary and name, and its url.
#[tactic(auto, unfolding(crate::specs::Codes::object_words))]
fn put_object_words(bytes: &mut Vec<u8>, object: &Object) -> Result<(), AllocError>
    requires limits { AreWordsWithin object.now.content object.now.summary object.now.name }
    ensures code { OnOk result (bytes.new.items ≡ bytes.old.items ++ object_words object.now) }
    ensures formed { OnOk result (AreObjectWords object.now) }
{
    object.in_reply_to.put(bytes)?;
    put_words(bytes, &object.content, &object.summary, &object.name)?;
    object.url.put(bytes)
}

/// Appends when an object was published, updated and deleted, and its former type.
#[tactic(auto, using(crate::proofs::Texts::if_text), unfolding(crate::specs::Codes::object_times))]
fn put_times(bytes: &mut Vec<u8>, object: &Object) -> Result<(), AllocError>
    requires limits { AreTimesWithin object.now }
    ensures code { OnOk result (bytes.new.items ≡ bytes.old.items ++ object_times object.now) }
    ensures formed { OnOk result (AreObjectTimes object.now) }
{
    put_text_option(bytes, &object.published)?;
    put_text_option(bytes, &object.updated)?;
    put_text_option(bytes, &object.former_kind)?;
    put_text_option(bytes, &object.deleted)
}

impl Encode for Object {
    ghost use Rattle.fedi_entry.specs.Codes.{object_code};
    ghost use Rattle.fedi_entry.specs.Fields.{IsObject};
    ghost use Rattle.fedi_entry.specs.Limits.{IsObjectWithin};

    ghost code = { object_code };

    ghost limits = { IsObjectWithin };

    ghost form = { IsObject };

    #[tactic(auto, unfolding(crate::specs::Codes::object_code, crate::specs::Codes::object_head))]
    fn put(&self, bytes: &mut Vec<u8>) -> Result<(), AllocError> {
        self.id.put(bytes)?;
        put_text(bytes, self.kind.text())?;
        self.attributed_to.put(bytes)?;
        self.recipients.put(bytes)?;
        put_object_words(bytes, self)?;
        put_times(bytes, self)?;
        self.tags.put(bytes)
    }
}

impl Encode for Change {
    ghost use Rattle.fedi_entry.specs.Codes.{change_code};
    ghost use Rattle.fedi_entry.specs.Fields.{IsChange};
    ghost use Rattle.fedi_entry.specs.Limits.{IsChangeWithin};

    ghost code = { change_code };

    ghost limits = { IsChangeWithin };

    ghost form = { IsChange };

    #[tactic(auto, unfolding(crate::specs::Codes::change_code, crate::specs::Codes::edits_code))]
    fn put(&self, bytes: &mut Vec<u8>) -> Result<(), AllocError> {
        self.id.put(bytes)?;
        self.content.put(bytes)?;
        self.summary.put(bytes)?;
        self.name.put(bytes)?;
        self.url.put(bytes)?;
        self.in_reply_to.put(bytes)?;
        self.tags.put(bytes)
    }
}

impl Encode for ObjectRef {
    ghost use Rattle.fedi_entry.specs.Codes.{object_ref_code};
    ghost use Rattle.fedi_entry.specs.Fields.{IsObjectRef};
    ghost use Rattle.fedi_entry.specs.Limits.{IsObjectRefWithin};

    ghost code = { object_ref_code };

    ghost limits = { IsObjectRefWithin };

    ghost form = { IsObjectRef };

    #[tactic(auto, unfolding(crate::specs::Codes::object_ref_code))]
    fn put(&self, bytes: &mut Vec<u8>) -> Result<(), AllocError> {
        match self {
            ObjectRef::Nothing => put_byte(bytes, 0),
            ObjectRef::Id(id) => {
                put_byte(bytes, 1)?;
                id.put(bytes)
            }
            ObjectRef::Whole(object) => {
                put_byte(bytes, 2)?;
                object.put(bytes)
            }
            ObjectRef::Changed(change) => {
                put_byte(bytes, 3)?;
                change.put(bytes)
            }
        }
    }
}

/// Appends what an activity replies to, its content, summary and name, its time and its mentions.
#[tactic(auto, using(crate::proofs::Texts::if_text), unfolding(crate::specs::Codes::activity_words))]
fn put_activity_words(bytes: &mut Vec<u8>, activity: &Activity) -> Result<(), AllocError>
    requires limits { IsSaidWithin activity.now }
    ensures code { OnOk result (bytes.new.items ≡ bytes.old.items ++ activity_words activity.now) }
    ensures formed { OnOk result (AreActivityWords activity.now) }
{
    activity.in_reply_to.put(bytes)?;
    put_words(bytes, &activity.content, &activity.summary, &activity.name)?;
    put_text_option(bytes, &activity.published)?;
    activity.tags.put(bytes)
}

impl Encode for Activity {
    ghost use Rattle.fedi_entry.specs.Codes.{activity_code};
    ghost use Rattle.fedi_entry.specs.Fields.{IsActivity};
    ghost use Rattle.fedi_entry.specs.Limits.{IsActivityWithin};

    ghost code = { activity_code };

    ghost limits = { IsActivityWithin };

    ghost form = { IsActivity };

    #[tactic(auto, unfolding(crate::specs::Codes::activity_code, crate::specs::Codes::activity_head))]
    fn put(&self, bytes: &mut Vec<u8>) -> Result<(), AllocError> {
        self.id.put(bytes)?;
        put_byte(bytes, self.kind.number())?;
        self.actor.put(bytes)?;
        self.object.put(bytes)?;
        self.target.put(bytes)?;
        self.recipients.put(bytes)?;
        put_activity_words(bytes, self)
    }
}

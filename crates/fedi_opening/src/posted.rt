//! The shape of a member's post.

ghost use Rattle.std.specs.Prelude.{◌≡◌, ◌&&◌, option_copied};
ghost use Rattle.fedi_town.specs.Relations.{is_id};
ghost use Rattle.fedi_town.specs.Shapes as shapes;

use crate::limits::{are_same, is_activity_within, is_change_within, is_object_within};
use fedi_address::{Iri, Recipients};
use fedi_effects::ref_id;
use fedi_objects::{Activity, Object, ObjectRef, TOMBSTONE};
use fedi_town::Deed;

/// The most recipients that the five fields of a post may name, and those of its object.
const MOST_RECIPIENTS: usize = 500;

// Whether an object has nothing that only the server sets, and is no Tombstone.
fn is_unset_object(object: &Object) -> bool
    ensures { result ≡ shapes.is_unset_object object.now }
{
    object.id.is_none()
        && object.attributed_to.is_none()
        && object.published.is_none()
        && object.updated.is_none()
        && object.former_kind.is_none()
        && object.deleted.is_none()
        && object.kind.text() != TOMBSTONE
}

// Whether a Create may carry the object: it names the same recipients (ActivityPub, section 6.2).
fn is_new_object(object: &Object, recipients: &Recipients) -> bool
    ensures { result ≡ (shapes.is_unset_object object.now
        && (shapes.is_object_within 500 object.now
        && shapes.are_same recipients.now object.now.recipients)) }
{
    is_unset_object(object)
        && is_object_within(MOST_RECIPIENTS, object)
        && are_same(recipients, &object.recipients)
}

// Whether the deed may be about this: a Create is about its object, an Update about a change
// (ActivityPub, section 6.3.1), and any other deed with a side effect about an id.
fn is_posted_ref(deed: Deed, recipients: &Recipients, object: &ObjectRef) -> bool
    ensures { result ≡ shapes.is_posted_ref deed recipients.now object.now }
{
    match object {
        ObjectRef::Nothing => matches!(deed, Deed::Other),
        ObjectRef::Id(_) => !matches!(deed, Deed::Create | Deed::Update),
        ObjectRef::Whole(object) => {
            matches!(deed, Deed::Create) && is_new_object(object.get(), recipients)
        }
        ObjectRef::Changed(change) => matches!(deed, Deed::Update) && is_change_within(change),
    }
}

// Whether `own` is given and equals the id.
fn is_id(id: &Iri, own: Option<&Iri>) -> bool
    ensures { result ≡ is_id id.now (option_copied own.entry) }
{
    match own {
        None => false,
        Some(own) => own == id,
    }
}

/// Whether an author follows or blocks their own account.
pub(crate) fn is_self_target(author: &Iri, activity: &Activity) -> bool
    ensures { result ≡ shapes.is_self_target author.now activity.now }
{
    match Deed::of(activity.kind) {
        Deed::Follow | Deed::Block => is_id(author, ref_id(&activity.object)),
        _ => false,
    }
}

/// Whether the activity has the shape that reading gives the author's post (ActivityPub, section
/// 6): it has no id, no actor and no date, which the server sets. It is about what its type asks
/// for, and not about the author if it is a Follow or a Block. Its texts have at most 65,536 bytes,
/// and its five fields name at most 500 recipients, none of them anybody twice. The object of a
/// Create names the same recipients, keeps the same limits and is no Tombstone.
pub fn is_posted(author: &Iri, activity: &Activity) -> bool
    ensures { result ≡ shapes.is_posted author.now activity.now }
{
    activity.id.is_none()
        && activity.actor.is_none()
        && activity.published.is_none()
        && is_activity_within(MOST_RECIPIENTS, activity)
        && is_posted_ref(
            Deed::of(activity.kind),
            &activity.recipients,
            &activity.object,
        )
        && !is_self_target(author, activity)
}

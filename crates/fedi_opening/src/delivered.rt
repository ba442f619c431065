//! The shape of another server's delivery.

ghost use Rattle.std.specs.Prelude.{◌≡◌, ◌&&◌, is_some};
ghost use Rattle.fedi_town.specs.Shapes as shapes;

use crate::limits::{is_activity_within, is_object_within};
use crate::posted::is_self_target;
use fedi_address::Iri;
use fedi_objects::{Activity, Object, ObjectRef};
use fedi_town::Deed;

/// The most recipients that the five fields of a delivery may name, and those of its object: one
/// more than for a post, since another server may have added one that was implied.
const MOST_RECIPIENTS: usize = 501;

// Whether a delivery may carry this object: it has an id and keeps the limits.
fn is_carried(object: &Object) -> bool
    ensures { result ≡ (is_some object.now.id && shapes.is_object_within 501 object.now) }
{
    object.id.is_some() && is_object_within(MOST_RECIPIENTS, object)
}

// Whether the deed may be about this: a Create and an Update may carry an object (ActivityPub,
// section 7.3), and any other deed with a side effect is about an id.
fn is_delivered_ref(deed: Deed, object: &ObjectRef) -> bool
    ensures { result ≡ shapes.is_delivered_ref deed object.now }
{
    match object {
        ObjectRef::Nothing => matches!(deed, Deed::Other),
        ObjectRef::Id(_) => true,
        ObjectRef::Whole(object) => {
            matches!(deed, Deed::Create | Deed::Update) && is_carried(object.get())
        }
        ObjectRef::Changed(_) => false,
    }
}

// Whether the activity is a Follow or a Block of its own actor.
fn is_actor_target(actor: &Option<Iri>, activity: &Activity) -> bool
    ensures { result ≡ shapes.is_actor_target actor.now activity.now }
{
    match actor {
        None => false,
        Some(actor) => is_self_target(actor, activity),
    }
}

/// Whether the activity has the shape that reading gives a delivery (ActivityPub, section 7): it
/// has an id and an actor. It is about what its type asks for, and not about its actor if it is a
/// Follow or a Block. Its texts have at most 65,536 bytes, and its five fields name at most 501
/// recipients in all, and nobody twice in one field. Only a Create and an Update carry an object,
/// which has an id and keeps the same limits. It takes no memory.
pub fn is_delivered(activity: &Activity) -> bool
    ensures { result ≡ shapes.is_delivered activity.now }
{
    activity.id.is_some()
        && activity.actor.is_some()
        && is_activity_within(MOST_RECIPIENTS, activity)
        && is_delivered_ref(Deed::of(activity.kind), &activity.object)
        && !is_actor_target(&activity.actor, activity)
}

//! What an activity is about, and the earlier activity that it acts on.

ghost use Rattle.std.specs.Prelude.{◌≡◌, option_copied};
ghost use Rattle.fedi_town.specs.Objects.{is_whole};
ghost use Rattle.fedi_town.specs.Relations.{ref_id};
ghost use Rattle.fedi_effects.specs.Subjects.{subject_of};

use crate::facts::Facts;
use fedi_address::Iri;
use fedi_objects::ObjectRef;
use fedi_register::Kept;
use fedi_town::Deed;

/// The id of what an activity is about.
pub fn ref_id(object: &ObjectRef) -> Option<&Iri>
    ensures { option_copied result ≡ ref_id object.now }
{
    match object {
        ObjectRef::Nothing => None,
        ObjectRef::Id(id) => Some(id),
        ObjectRef::Whole(object) => object.get().id.as_ref(),
        ObjectRef::Changed(change) => Some(&change.id),
    }
}

/// Whether an activity carries an object.
pub fn is_whole(object: &ObjectRef) -> bool
    ensures { result ≡ is_whole object.now }
{
    match object {
        ObjectRef::Whole(_) => true,
        ObjectRef::Nothing | ObjectRef::Id(_) | ObjectRef::Changed(_) => false,
    }
}

/// The earlier activity that an activity about this acts on: the Create of the object that it
/// changes, deletes, likes or shares, or the activity that it accepts, rejects or undoes. State,
/// effect and recipients depend on it, so it is found once.
pub fn subject_of<'a>(facts: &'a Facts, deed: Deed, object: &ObjectRef) -> Option<&'a Kept>
    ensures { option_copied result ≡ subject_of facts.now.town deed (ref_id object.now) }
{
    let id = ref_id(object)?;
    match deed {
        Deed::Update | Deed::Delete | Deed::Like | Deed::Announce => facts.maker(id),
        Deed::Accept | Deed::Reject | Deed::Undo => facts.activity_of(id),
        Deed::Create | Deed::Follow | Deed::Block | Deed::Other => None,
    }
}

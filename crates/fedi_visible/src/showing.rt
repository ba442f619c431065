//! What is shown of an activity.

ghost use Rattle.std.specs.Prelude.{◌≡◌, Bool, Option, Some, option_copied, option_map};
ghost use Rattle.fedi_objects.specs.declared.object.Object.{Object};
ghost use Rattle.fedi_objects.specs.Forms.{activity_form, object_in, shown_in};
ghost use Rattle.fedi_town.specs.Addressing.{is_of_town};
ghost use Rattle.fedi_town.specs.Objects.{object_of, maker_of, whole_of};
ghost use Rattle.fedi_town.specs.Relations.{ref_id};
ghost use Rattle.fedi_town.specs.Showing.{object_or_id, present_object, ref_to, shown_activity};
ghost use Rattle.fedi_town.specs.Showing.{shown_object, shown_ref};
ghost use Rattle.fedi_visible.specs.Excerpts.{shown_with};

use fedi_address::Iri;
use fedi_effects::{Facts, is_of_town};
use fedi_objects::{Shown, ShownObject, State, StrippedObject};
use fedi_register::Kept;
use fedi_town::Deed;

// The object that the Update with this id changed, as it is now.
fn changed_object<'a>(facts: &'a Facts, id: Option<&Iri>) -> Option<StrippedObject<'a>>
    ensures { result
        ≡ option_map shown_object (object_of (maker_of facts.now.town (option_copied id.entry))) }
{
    match id {
        Some(id) => facts.maker(id)?.object(),
        None => None,
    }
}

/// The object of an activity as it is now: what a Create made, and what an Update changed, if they
/// were done.
#[tactic(auto, unfolding(fedi_town::specs::Showing::present_object))]
pub(crate) fn present_object<'a>(facts: &'a Facts, act: &'a Kept) -> Option<StrippedObject<'a>>
    ensures { result ≡ option_map shown_object (present_object facts.now.town act.now) }
{
    match (act.deed(), act.state()) {
        (Deed::Create, State::Done) => act.object(),
        (Deed::Update, State::Done) => changed_object(facts, act.object_id()),
        _ => None,
    }
}

fn id_or_nothing(id: Option<&Iri>) -> ShownObject<'_>
    ensures { object_in result ≡ ref_to (option_copied id.entry) }
{
    match id {
        Some(id) => ShownObject::Id(id),
        None => ShownObject::Nothing,
    }
}

/// An object if there is one, otherwise its address.
pub(crate) fn object_or_id<'a>(
    object: Option<StrippedObject<'a>>,
    id: Option<&'a Iri>,
) -> ShownObject<'a>
    ensures { (o : Option Object) → object.entry ≡ option_map shown_object o
        → object_in result ≡ object_or_id o (option_copied id.entry) }
{
    match object {
        Some(object) => ShownObject::Present(object),
        None => id_or_nothing(id),
    }
}

// What an activity is about: its object as it is now if there is one, otherwise its address.
#[tactic(auto, unfolding(fedi_town::specs::Showing::shown_ref))]
fn shown_object<'a>(facts: &'a Facts, act: &'a Kept) -> ShownObject<'a>
    ensures { object_in result ≡ shown_ref facts.now.town act.now }
{
    object_or_id(present_object(facts, act), act.object_id())
}

/// What is shown of an activity with this object: it is without `bto` and `bcc`, and its actor is
/// its author (ActivityPub, section 6).
pub(crate) fn show<'a>(act: &'a Kept, object: ShownObject<'a>, local: bool) -> Shown<'a>
    ensures shown { shown_in result ≡ shown_with act.now (object_in object.entry) }
    ensures author { result.author.now ≡ act.now.author }
    ensures state { result.state ≡ act.now.state }
    ensures public { result.public ≡ act.now.is_public }
    ensures local { result.local ≡ local }
{
    Shown {
        id: act.id(),
        author: act.author(),
        kind: act.kind(),
        target: act.target(),
        to: act.to(),
        cc: act.cc(),
        audience: act.audience(),
        in_reply_to: act.in_reply_to(),
        content: act.content(),
        summary: act.summary(),
        name: act.name(),
        published: act.published(),
        tags: act.tags(),
        state: act.state(),
        public: act.is_public(),
        local,
        object,
    }
}

/// What those who may see an activity see of it: it is without `bto` and `bcc`, its actor is its
/// author, and its object is shown as it is now, a Tombstone with four members alone (ActivityPub,
/// section 6). An activity is local if its author is of this host.
pub fn shown_of<'a>(facts: &'a Facts, act: &'a Kept) -> Shown<'a>
    ensures shown { shown_in result
        ≡ record (shown_activity facts.now.town act.now) { actor = Some act.now.author } }
    ensures local { result.local ≡ is_of_town facts.now.town.host act.now.author }
    ensures state { result.state ≡ act.now.state }
    ensures public { result.public ≡ act.now.is_public }
    ensures form { (local context : Bool)
        → activity_form local context result.author.now (shown_in result)
        ≡ activity_form local context act.now.author (shown_activity facts.now.town act.now) }
{
    let local = is_of_town(facts, act.author());
    show(act, shown_object(facts, act), local)
}

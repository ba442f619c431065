//! Owned copies of what is shown of an activity, from which it can be written after the facts have
//! changed.

ghost use Rattle.std.specs.Prelude.{◌≡◌, IfOk, option_copied, option_map};
ghost use Rattle.fedi_objects.specs.Forms.{shown_in};
ghost use Rattle.fedi_register.specs.Excerpts.{excerpt};
ghost use Rattle.fedi_town.specs.Objects.{maker_of};
ghost use Rattle.fedi_town.specs.Showing.{shown_object};
ghost use Rattle.fedi_visible.specs.Excerpts.{maker_excerpt, object_given, sight_at};

use crate::showing::{object_or_id, show};
use fedi_address::Iri;
use fedi_effects::{Facts, is_of_town};
use fedi_objects::{Shown, ShownObject, State, StrippedObject};
use fedi_register::Kept;
use fedi_town::Deed;
use std::alloc::{AllocError, Global};
use std::marker::Model;

/// A copy of what everybody who sees an activity is shown of it, with its object in the state that
/// it had then. It shares long texts and lists with the facts, so that its time and its memory have
/// a limit whatever the activity says.
pub struct Excerpt {
    act: Kept,
    // The activity that made the object, if this is an Update.
    maker: Option<Kept>,
    local: bool,
}

// Written out, so that a caller does not prove again how each part is dropped.
impl Drop for Excerpt {
    fn drop(self) {
        let Excerpt {
            act: _,
            maker: _,
            local: _,
        } = self;
    }
}

impl Model for Excerpt {
    ghost use Rattle.fedi_visible.specs.Excerpts.{Sight};

    ghost Value = { Sight };

    ghost use Rattle.fedi_visible.specs.Excerpts.{sight_in};

    ghost view = { λ a. sight_in a.act a.maker a.local };
}

// A copy of the activity that made the object with this id.
fn excerpt_of_made(
    alloc: Global,
    facts: &Facts,
    id: Option<&Iri>,
) -> Result<Option<Kept>, AllocError>
    ensures { IfOk result (λ maker.
        maker ≡ option_map excerpt (maker_of facts.now.town (option_copied id.entry))) }
{
    let Some(id) = id else {
        return Ok(None);
    };
    match facts.maker(id) {
        Some(maker) => Ok(Some(maker.excerpt(alloc)?)),
        None => Ok(None),
    }
}

// A copy of the activity that made the object which this one changed, if it is an Update.
#[tactic(auto, unfolding(crate::specs::Excerpts::maker_excerpt))]
fn excerpt_of_maker(alloc: Global, facts: &Facts, act: &Kept) -> Result<Option<Kept>, AllocError>
    ensures { IfOk result (λ maker. maker ≡ maker_excerpt facts.now.town act.now) }
{
    match (act.deed(), act.state()) {
        (Deed::Update, State::Done) => excerpt_of_made(alloc, facts, act.object_id()),
        _ => Ok(None),
    }
}

/// An excerpt of the activity: what those who may see it see of it, as [`shown_of`] shows it
/// (ActivityPub, section 6). The error is out of memory.
#[tactic(auto, using(crate::proofs::Excerpted::sight_kept))]
pub fn excerpt_of(alloc: Global, facts: &Facts, act: &Kept) -> Result<Excerpt, AllocError>
    ensures { IfOk result (λ excerpt. excerpt ≡ sight_at facts.now.town act.now) }
{
    let local = is_of_town(facts, act.author());
    let maker = excerpt_of_maker(alloc, facts, act)?;
    let act = act.excerpt(alloc)?;
    Ok(Excerpt { act, maker, local })
}

// The object that the activity carries, or that it changed.
#[tactic(auto, unfolding(crate::specs::Excerpts::object_given))]
fn object_of<'a>(act: &'a Kept, maker: &'a Option<Kept>) -> Option<StrippedObject<'a>>
    ensures { result ≡ option_map shown_object (object_given act.now maker.now) }
{
    match (act.deed(), act.state()) {
        (Deed::Create, State::Done) => act.object(),
        (Deed::Update, State::Done) => maker.as_ref()?.object(),
        _ => None,
    }
}

impl Excerpt {
    /// What is shown of the activity.
    pub fn shown(&self) -> Shown<'_>
        ensures shown { shown_in result ≡ self.now.shown }
        ensures author { result.author.now ≡ self.now.author }
        ensures state { result.state ≡ self.now.state }
        ensures public { result.public ≡ self.now.public }
        ensures local { result.local ≡ self.now.local }
    {
        let object = object_or_id(object_of(&self.act, &self.maker), self.act.object_id());
        show(&self.act, object, self.local)
    }

    /// The object of the activity in the state that it had then, if it has one: what a Create made,
    /// and what an Update changed, if they were done.
    pub fn object(&self) -> Option<StrippedObject<'_>>
        ensures { result ≡ self.now.object }
    {
        object_of(&self.act, &self.maker)
    }
}

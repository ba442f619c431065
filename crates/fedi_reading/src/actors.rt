//! What an actor document says.

ghost use Rattle.std.specs.Prelude.{◌≡◌, ◌≢◌, None, Some, IfErr, IfOk, OnOk, codes};
ghost use Rattle.serde_json.specs.View.{view};
ghost use Rattle.fedi_reading.specs.Actors.{first_actor_fault, reads_actor, reads_names};
ghost use Rattle.fedi_reading.specs.Properties.{text_at};
ghost use Rattle.fedi_reading.specs.Shapes.{Gives};

use crate::properties::{read_address, reference_at, text_at};
use crate::shape_fault::ShapeFault;
use fedi_address::Iri;
use fedi_text::Text;
use serde_json::Value;
use std::alloc::{AllocError, Global};

/// What an actor document says (ActivityPub, section 4.1).
#[derive(Drop)]
pub struct ActorDocument {
    /// The actor's id.
    pub id: Iri,
    /// The address where it accepts deliveries.
    pub inbox: Iri,
    /// The name that it prefers, if it gives one.
    pub preferred_username: Option<Text>,
}

// The name that an actor prefers, if it is a string.
fn preferred_username(alloc: Global, value: &Value) -> Result<Option<Text>, AllocError>
    ensures { IfOk result (λ name. name ≡ text_at (codes "preferredUsername") (view value.now)) }
{
    match text_at(value, "preferredUsername") {
        Some(text) => Ok(Some(Text::from_text(alloc, text)?)),
        None => Ok(None),
    }
}

// An actor document with this `id` and this inbox.
#[tactic(auto, unfolding(crate::specs::Actors::reads_names))]
fn read_names(
    alloc: Global,
    value: &Value,
    id: &str,
    inbox: &str,
) -> Result<ActorDocument, ShapeFault>
    ensures { Gives result (reads_names id.now inbox.now (view value.now)) }
{
    let id = read_address(alloc, id)?;
    let inbox = read_address(alloc, inbox)?;
    let preferred_username = preferred_username(alloc, value)?;
    Ok(ActorDocument {
        id,
        inbox,
        preferred_username,
    })
}

/// Reads an actor document (ActivityPub, section 4.1): its `id`, its `inbox` and its
/// `preferredUsername`. Every other property is skipped.
///
/// The error is the first of these faults that applies, in this order. `NotObject`: the value is
/// not a JSON object. `NoId`: there is no `id`. `NoObject`: there is no `inbox`. `BadIri`: a string
/// for one of these is not a web address of at most 2,048 bytes. `Memory` (out of memory) can occur
/// at any time.
#[tactic(auto, unfolding(crate::specs::Actors::reads_actor))]
pub fn read_actor(alloc: Global, value: &Value) -> Result<ActorDocument, ShapeFault>
    ensures exact { Gives result (reads_actor (view value.now)) }
    // The fault with the least number that holds.
    ensures least { IfErr result
        (λ e. e ≢ ShapeFault.Memory → first_actor_fault (view value.now) ≡ Some e) }
    ensures none { OnOk result (first_actor_fault (view value.now) ≡ None) }
{
    if !value.is_object() {
        return Err(ShapeFault::NotObject);
    }
    let Some(id) = reference_at(value, "id") else {
        return Err(ShapeFault::NoId);
    };
    let Some(inbox) = reference_at(value, "inbox") else {
        return Err(ShapeFault::NoObject);
    };
    read_names(alloc, value, id, inbox)
}

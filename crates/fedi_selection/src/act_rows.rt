//! One row for each activity.
ghost use Rattle.std.specs.Prelude.{◌≡◌, ◌<◌, ◌^◌, IfOk, string_bytes};

use std::alloc::{AllocError, Global};
use std::marker::Model;

/// An activity as one row: its place in the order of acceptance, counted from 0 and below 2^62, its
/// id, the id of its author, its type, its state, and when it was accepted, in seconds since
/// 1970-01-01T00:00:00Z and before the year 10,000.
#[derive(Drop)]
pub struct ActRow {
    place: u64,
    id: String,
    actor: String,
    kind: String,
    state: String,
    moment: u64,
}

impl Model for ActRow {
    ghost use Rattle.std.specs.Prelude.{◌<◌, ◌^◌};
    ghost use Rattle.std.specs.String.{string_bytes};
    ghost use Rattle.fedi_selection.specs.ActRows.{ActFields, HasBounds};

    ghost Value = { ActFields };

    ghost view = { λ r. record {
      place = r.place;
      id = string_bytes r.id;
      actor = string_bytes r.actor;
      kind = string_bytes r.kind;
      state = string_bytes r.state;
      moment = r.moment;
    } };

    ghost invariant = { λ r. HasBounds r.place r.moment };
}

impl ActRow {
    ghost use Rattle.fedi_selection.specs.ActRows.{HasBounds};

    /// A row of copies of these. The error is out of memory.
    pub fn new(
        alloc: Global,
        place: u64,
        id: &str,
        actor: &str,
        kind: &str,
        state: &str,
        moment: u64,
    ) -> Result<ActRow, AllocError>
        requires { HasBounds place moment }
        ensures { IfOk result (λ row. row ≡ record {
          place = place;
          id = id.now;
          actor = actor.now;
          kind = kind.now;
          state = state.now;
          moment = moment;
        }) }
    {
        Ok(ActRow {
            place,
            id: String::from_str(alloc, id)?,
            actor: String::from_str(alloc, actor)?,
            kind: String::from_str(alloc, kind)?,
            state: String::from_str(alloc, state)?,
            moment,
        })
    }

    /// A row of these texts. It takes no memory.
    pub(crate) fn of_texts(
        place: u64,
        id: String,
        actor: String,
        kind: String,
        state: String,
        moment: u64,
    ) -> ActRow
        requires { HasBounds place moment }
        ensures { result ≡ record {
          place = place;
          id = string_bytes id;
          actor = string_bytes actor;
          kind = string_bytes kind;
          state = string_bytes state;
          moment = moment;
        } }
    {
        ActRow {
            place,
            id,
            actor,
            kind,
            state,
            moment,
        }
    }

    /// The place in the order of acceptance, counted from 0: below 2^62.
    pub fn place(&self) -> u64
        ensures value { result ≡ self.now.place }
        ensures bound { result < 2 ^ 62 }
    {
        self.place
    }

    /// The id of the activity; empty if it has none.
    pub fn id(&self) -> &str
        ensures { result.now ≡ self.now.id }
    {
        &self.id
    }

    /// The id of the author.
    pub fn actor(&self) -> &str
        ensures { result.now ≡ self.now.actor }
    {
        &self.actor
    }

    /// The name of the type.
    pub fn kind(&self) -> &str
        ensures { result.now ≡ self.now.kind }
    {
        &self.kind
    }

    /// The name of the state.
    pub fn state(&self) -> &str
        ensures { result.now ≡ self.now.state }
    {
        &self.state
    }

    /// When it was accepted, in seconds since 1970-01-01T00:00:00Z: before the year 10,000.
    pub fn moment(&self) -> u64
        ensures value { result ≡ self.now.moment }
        ensures bound { result < 253_402_300_800 }
    {
        self.moment
    }
}

impl Clone for ActRow {
    ghost is_clone = { λ row copy. copy ≡ row };

    fn clone(&self) -> Result<ActRow, AllocError> {
        Ok(ActRow {
            place: self.place,
            id: self.id.clone()?,
            actor: self.actor.clone()?,
            kind: self.kind.clone()?,
            state: self.state.clone()?,
            moment: self.moment,
        })
    }
}

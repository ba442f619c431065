//! The places that paths lead to.

ghost use Rattle.std.specs.Prelude.{◌≡◌, MatchOption};
ghost use Rattle.fedi_model.specs.Places.{LeadsTo};
ghost use Rattle.fedi_routes.specs.Table.{IsAt};
ghost use Rattle.fedi_model.specs.declared.place.Place.{Place};

use crate::kinds::Kind;
use crate::number::number_of;
use crate::router::{Routed, Routes};
use fedi_address::LocalName;
use fedi_model::Place;
use std::str;

/// The place that the path leads to.
pub(crate) fn place_of(routes: &Routes, path: &[u8]) -> Option<Place>
    ensures { MatchOption result
        ((place : Place) → ¬ (LeadsTo path.now place))
        (LeadsTo path.now) }
{
    let Ok(text) = str::from_utf8(path) else {
        return None;
    };
    let routed = routes.find(text)?;
    place_at(&routed)
}

/// The place at the route with these texts.
fn place_at(routed: &Routed) -> Option<Place>
    ensures { MatchOption result
        ((place : Place) → ¬ (IsAt routed.now.kind routed.now.name.now routed.now.item.now place))
        (IsAt routed.now.kind routed.now.name.now routed.now.item.now) }
{
    match routed.kind {
        Kind::Webfinger => Some(Place::Webfinger),
        Kind::Member(part) => Some(part.place(LocalName::parse(routed.name)?)),
        Kind::Numbered(part) => {
            let name = LocalName::parse(routed.name)?;
            Some(part.place(name, number_of(routed.item)?))
        }
        Kind::Board => {
            let name = LocalName::parse(routed.name)?;
            Some(Place::Board(name, Some(LocalName::parse(routed.item)?)))
        }
    }
}

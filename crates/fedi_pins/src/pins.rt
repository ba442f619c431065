//! The Adds and Removes that change a collection (ActivityPub, sections 6.6 and 6.7).

ghost use Rattle.std.specs.Prelude.{◌≡◌};
ghost use Rattle.fedi_town.specs.Boards.{is_add, is_pin, is_pin_of, is_remove, opens_board};
ghost use Rattle.fedi_town.specs.Boards.{target_key};
ghost use Rattle.fedi_pins.specs.Held.{is_change, is_seen_change, item_key, slug_of};

use fedi_address::{Iri, LocalName};
use fedi_effects::{Facts, is_by, object_key};
use fedi_objects::Kind;
use fedi_register::Kept;
use fedi_town::Caller;
use fedi_visible::{is_pin_kind, sees};

/// What a collection that a member makes lists.
#[derive(Clone, Copy, Drop)]
pub(crate) enum Listing {
    /// The objects that were put into it.
    Objects,
    /// The member's collections, in the list of them.
    Boards,
}

fn is_add(kind: Kind) -> bool
    ensures { result ≡ is_add kind }
{
    matches!(kind, Kind::Add)
}

/// Whether an activity of this type takes something out of a collection.
pub(crate) fn is_remove(kind: Kind) -> bool
    ensures { result ≡ is_remove kind }
{
    matches!(kind, Kind::Remove)
}

// Whether it is an Add or a Remove by the author, of something that has an id.
#[tactic(auto, unfolding(fedi_town::specs::Boards::is_pin))]
fn is_pin(act: &Kept, author: &Iri) -> bool
    ensures { result ≡ is_pin author.now act.now }
{
    is_by(act, author) && (is_pin_kind(act.kind()) && act.object_id().is_some())
}

fn target_key(act: &Kept) -> &str
    ensures { result.now ≡ target_key act.now }
{
    match act.target() {
        Some(target) => target.text(),
        None => "",
    }
}

// Whether it is an Add or a Remove by the author, and is directed to the collection with this id.
#[tactic(auto, unfolding(fedi_town::specs::Boards::is_pin_of))]
fn is_pin_of(act: &Kept, author: &Iri, board: &str) -> bool
    ensures { result ≡ is_pin_of author.now board.now act.now }
{
    act.target().is_some_and(|target| target.text() == board) && is_pin(act, author)
}

/// The name of the author's collection with this id, if it is the id of one.
pub(crate) fn board_slug(author: &Iri, id: &str) -> Option<LocalName>
    ensures { result ≡ slug_of author.now id.now }
{
    let path = id.strip_prefix(author.text())?;
    LocalName::parse(path.strip_prefix("/c/")?)
}

// Whether it is an Add by the author to one of the author's collections.
#[tactic(auto, unfolding(fedi_town::specs::Boards::opens_board))]
fn opens_board(act: &Kept, author: &Iri) -> bool
    ensures { result ≡ opens_board author.now act.now }
{
    is_add(act.kind()) && (board_slug(author, target_key(act)).is_some() && is_pin(act, author))
}

// Whether the activity changes what is listed.
fn is_change(act: &Kept, listing: Listing, author: &Iri, board: &str) -> bool
    ensures { result ≡ is_change listing author.now board.now act.now }
{
    match listing {
        Listing::Objects => is_pin_of(act, author, board),
        Listing::Boards => opens_board(act, author),
    }
}

/// Whether the activity changes what is listed, and the caller sees it.
#[tactic(auto, unfolding(crate::specs::Held::is_seen_change))]
pub(crate) fn is_seen_change(
    facts: &Facts,
    caller: &Caller,
    listing: Listing,
    author: &Iri,
    board: &str,
    act: &Kept,
) -> bool
    ensures { result
        ≡ is_seen_change facts.now.town caller.now listing author.now board.now act.now }
{
    is_change(act, listing, author, board) && sees(facts, caller, act)
}

/// The item that the activity is about.
pub(crate) fn item_key(listing: Listing, act: &Kept) -> &str
    ensures { result.now ≡ item_key listing act.now }
{
    match listing {
        Listing::Objects => object_key(act),
        Listing::Boards => target_key(act),
    }
}

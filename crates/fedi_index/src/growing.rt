//! The lists that an activity is in: that of its author's outbox, those of its recipients' inboxes,
//! for a Follow, a Like or an Announce those of its author and of what it is about, and for an Add
//! or a Remove those of its author and of the collection that it is directed to. There are lists
//! only for owners of this host. If a known activity is delivered to one more inbox, only the list
//! of that inbox changes.

ghost use Rattle.std.specs.Prelude.{◌≡◌, List, ◌+◌, ◌++◌, ◌<◌, ◌≤◌, ◌^◌, OnOk, Some};
ghost use Rattle.std.specs.Prelude.{length, map, option_copied, option_map, option_to_list};
ghost use Rattle.std.specs.List.Sorted.{IsNonDecreasing};
ghost use Rattle.fedi_town.specs.declared.act.Act.{Act};
ghost use Rattle.fedi_town.specs.Addressing.{is_of_town};
ghost use Rattle.fedi_town.specs.Histories.{with_recipient};
ghost use Rattle.fedi_effects.specs.Holdings.{coming_in, coming_inbox_in};
ghost use Rattle.fedi_index.specs.declared.collection.Collection.TheVariants.{Inbox};
ghost use Rattle.fedi_index.specs.Growing.{AreCandidates, HasInboxRoom, HasRoom, HasRooms};
ghost use Rattle.fedi_index.specs.Growing.{MayComeIn, MayGo, UsesOne, in_order, is_inbox, is_kept};
ghost use Rattle.fedi_index.specs.Growing.{is_one, list_of_author, list_of_other, other_owner};
ghost use Rattle.fedi_index.specs.Growing.{sent_on};
ghost use Rattle.fedi_index.specs.Lists.{AddsOnce, CanAdd, IsRoomier, at_index, places_of, room_of};

use crate::collection::Collection;
use crate::lists::Lists;
use fedi_address::Iri;
use fedi_effects::{Facts, is_of_town};
use fedi_objects::Kind;
use fedi_register::Kept;
use std::alloc::{AllocError, Global};

// The collection of its author, besides the outbox, that an activity of this type may be in.
fn list_of_author(kind: Kind) -> Option<Collection>
    ensures { result ≡ list_of_author kind }
{
    match kind {
        Kind::Follow => Some(Collection::Following),
        Kind::Like => Some(Collection::Liked),
        Kind::Add | Kind::Remove => Some(Collection::Pins),
        _ => None,
    }
}

// The collection of another owner that an activity of this type may be in.
fn list_of_other(kind: Kind) -> Option<Collection>
    ensures { result ≡ list_of_other kind }
{
    match kind {
        Kind::Follow => Some(Collection::Followers),
        Kind::Like => Some(Collection::Likes),
        Kind::Announce => Some(Collection::Shares),
        Kind::Add | Kind::Remove => Some(Collection::Board),
        _ => None,
    }
}

// That other owner: the collection that an Add or a Remove is directed to, or what another activity
// is about.
fn other_owner(act: &Kept) -> Option<&Iri>
    ensures { option_copied result ≡ other_owner act.now }
{
    match act.kind() {
        Kind::Add | Kind::Remove => act.target(),
        _ => act.object_id(),
    }
}

// ---- room

#[tactic(auto, using(crate::proofs::Found::roomier_itself, crate::proofs::Rooms::room_of_one, crate::proofs::Rooms::room_elsewhere))]
fn reserve_one(
    lists: &mut Lists,
    alloc: Global,
    facts: &Facts,
    collection: Collection,
    owner: &Iri,
) -> Result<(), AllocError>
    ensures roomier { IsRoomier lists.old lists.new }
    ensures room { OnOk result (HasRoom
        (is_one facts.now.town.host (Some collection) (Some owner.now)) 2 lists.new) }
{
    if is_of_town(facts, owner) {
        lists.reserve(alloc, collection, owner, 2)?;
    }
    Ok(())
}

// Makes room in a list, if there are a collection and an owner.
#[tactic(auto, using(crate::proofs::Found::roomier_itself, crate::proofs::Rooms::room_of_no_kind, crate::proofs::Rooms::room_of_no_owner))]
fn reserve_some(
    lists: &mut Lists,
    alloc: Global,
    facts: &Facts,
    collection: Option<Collection>,
    owner: Option<&Iri>,
) -> Result<(), AllocError>
    ensures roomier { IsRoomier lists.old lists.new }
    ensures room { OnOk result (HasRoom
        (is_one facts.now.town.host collection (option_copied owner.entry)) 2 lists.new) }
{
    match (collection, owner) {
        (Some(collection), Some(owner)) => reserve_one(lists, alloc, facts, collection, owner),
        _ => Ok(()),
    }
}

fn reserve_inboxes(
    lists: &mut Lists,
    alloc: Global,
    facts: &Facts,
    recipients: &[Iri],
) -> Result<(), AllocError>
    ensures roomier { IsRoomier lists.old lists.new }
    ensures room { OnOk result (HasRoom (is_inbox facts.now.town.host recipients.now) 2 lists.new) }
{
    for recipient in recipients {
        reserve_one(lists, alloc, facts, Collection::Inbox, recipient)?;
    }
    Ok(())
}

// Makes room for two positions in each list that the activity may be in. The error is out of
// memory.
fn reserve_each(
    lists: &mut Lists,
    alloc: Global,
    facts: &Facts,
    act: &Kept,
) -> Result<(), AllocError>
    ensures roomier { IsRoomier lists.old lists.new }
    ensures room { OnOk result
        (HasRoom (λ k o. is_kept facts.now.town.host k o act.now) 2 lists.new) }
{
    let author = act.author();
    reserve_one(lists, alloc, facts, Collection::Outbox, author)?;
    reserve_some(
        lists,
        alloc,
        facts,
        list_of_author(act.kind()),
        Some(author),
    )?;
    reserve_some(
        lists,
        alloc,
        facts,
        list_of_other(act.kind()),
        other_owner(act),
    )?;
    reserve_inboxes(lists, alloc, facts, act.recipients())?;
    Ok(())
}

// The same for an activity that may be absent.
#[tactic(auto, using(crate::proofs::Found::roomier_itself))]
fn reserve_for(
    lists: &mut Lists,
    alloc: Global,
    facts: &Facts,
    act: Option<&Kept>,
) -> Result<(), AllocError>
    ensures roomier { IsRoomier lists.old lists.new }
    ensures room { OnOk result (HasRooms facts.now.town.host 2
        (option_to_list (option_copied act.entry)) lists.new) }
{
    match act {
        Some(act) => reserve_each(lists, alloc, facts, act),
        None => Ok(()),
    }
}

// Makes room in each list for the activities that will be added by the entry for which the facts
// have room. The error is out of memory.
fn reserve_acts(lists: &mut Lists, alloc: Global, facts: &Facts) -> Result<(), AllocError>
    ensures roomier { IsRoomier lists.old lists.new }
    ensures room { OnOk result (HasRooms facts.now.town.host 2 (coming_in facts.now) lists.new) }
{
    let (act, answer) = facts.coming();
    reserve_for(lists, alloc, facts, act)?;
    reserve_for(lists, alloc, facts, answer)?;
    Ok(())
}

/// Makes room in each list for what will be added by the entry for which the facts have room: its
/// activities, or one more inbox for a known activity. The error is out of memory.
pub(crate) fn reserve_coming(
    lists: &mut Lists,
    alloc: Global,
    facts: &Facts,
) -> Result<(), AllocError>
    ensures roomier { IsRoomier lists.old lists.new }
    ensures room { OnOk result (HasRooms facts.now.town.host 2 (coming_in facts.now) lists.new) }
    ensures inbox_room { OnOk result (HasInboxRoom (coming_inbox_in facts.now) lists.new) }
{
    match facts.coming_inbox() {
        Some((_, owner)) => lists.reserve(alloc, Collection::Inbox, owner, 1),
        None => reserve_acts(lists, alloc, facts),
    }
}

// ---- one more position

#[tactic(auto, using(crate::proofs::Added::one_room, crate::proofs::Added::one_pushed, crate::proofs::Added::one_elsewhere))]
fn add_one(lists: &mut Lists, facts: &Facts, collection: Collection, owner: &Iri, place: usize)
    requires { CanAdd (is_one facts.now.town.host (Some collection) (Some owner.now))
        place lists.old }
    ensures { AddsOnce (is_one facts.now.town.host (Some collection) (Some owner.now))
        place lists.old lists.new }
{
    if is_of_town(facts, owner) {
        lists.push_unless_last(collection, owner, place);
    }
}

#[tactic(auto, using(crate::proofs::Added::no_kind_added, crate::proofs::Added::no_owner_added))]
fn add_some(
    lists: &mut Lists,
    facts: &Facts,
    collection: Option<Collection>,
    owner: Option<&Iri>,
    place: usize,
)
    requires { CanAdd (is_one facts.now.town.host collection (option_copied owner))
        place lists.old }
    ensures { AddsOnce (is_one facts.now.town.host collection (option_copied owner.entry))
        place lists.old lists.new }
{
    match (collection, owner) {
        (Some(collection), Some(owner)) => add_one(lists, facts, collection, owner, place),
        _ => {}
    }
}

fn add_to_inboxes(lists: &mut Lists, facts: &Facts, recipients: &[Iri], place: usize)
    requires { CanAdd (is_inbox facts.now.town.host recipients.now) place lists.old }
    ensures { AddsOnce (is_inbox facts.now.town.host recipients.now) place lists.old lists.new }
{
    for recipient in recipients {
        add_one(lists, facts, Collection::Inbox, recipient, place);
    }
}

// Adds the position of the activity to each list that it may be in.
fn add_to_each(lists: &mut Lists, facts: &Facts, act: &Kept, place: usize)
    requires { CanAdd (λ k o. is_kept facts.now.town.host k o act.now) place lists.old }
    ensures { AddsOnce (λ k o. is_kept facts.now.town.host k o act.now)
        place lists.old lists.new }
{
    let author = act.author();
    add_one(lists, facts, Collection::Outbox, author, place);
    add_some(
        lists,
        facts,
        list_of_author(act.kind()),
        Some(author),
        place,
    );
    add_some(
        lists,
        facts,
        list_of_other(act.kind()),
        other_owner(act),
        place,
    );
    add_to_inboxes(lists, facts, act.recipients(), place);
}

// Adds the activity, if there is one, to each list that it may be in. Its position is the next one
// after the earlier activities.
#[tactic(auto, using(crate::proofs::Positions::can_add, crate::proofs::Positions::none_added, crate::proofs::Positions::one_used, crate::proofs::Positions::none_used))]
fn add_for(lists: &mut Lists, facts: &Facts, act: Option<&Kept>, place: usize)
    requires { HasRooms facts.now.town.host 1 (option_to_list (option_copied act)) lists.old }
    ensures added { (acts : List Act) → place ≡ length acts
        → AreCandidates facts.now.town.host acts lists.old
        → AreCandidates facts.now.town.host
        (acts ++ option_to_list (option_copied act.entry)) lists.new }
    ensures room { UsesOne lists.old lists.new }
{
    if let Some(act) = act {
        add_to_each(lists, facts, act, place);
    }
}

// The position after that of the activity, if there is one.
fn place_after(place: usize, act: Option<&Kept>) -> usize
    requires { place < 2 ^ 63 }
    ensures { result ≡ place + length (option_to_list (option_copied act.entry)) }
{
    match act {
        Some(_) => place + 1,
        None => place,
    }
}

// Adds to the lists the activities that will be added by the entry for which the facts have room.
fn add_acts(lists: &mut Lists, facts: &Facts)
    requires room { HasRooms facts.now.town.host 2 (coming_in facts.now) lists.old }
    requires candidates { AreCandidates facts.now.town.host facts.now.town.acts lists.old }
    ensures { AreCandidates facts.now.town.host
        (facts.now.town.acts ++ coming_in facts.now) lists.new }
{
    let place = facts.activities();
    let (act, answer) = facts.coming();
    add_for(lists, facts, act, place);
    add_for(lists, facts, answer, place_after(place, act));
}

// The number of positions below this one. The positions are in order.
fn count_below(places: &[usize], place: usize) -> usize
    requires { IsNonDecreasing places.now }
    ensures few { result ≤ length places.now }
    ensures ordered { at_index result place places.now ≡ in_order place places.now }
{
    places.partition_point(|p| *p < place)
}

// Adds the position of the activity with this id to the list of the owner's inbox, in order. This
// is for a known activity that is delivered to one more inbox.
fn add_to_inbox(lists: &mut Lists, facts: &Facts, id: &Iri, owner: &Iri)
    requires room { 1 ≤ room_of Inbox owner.now lists.old }
    requires may_go { MayGo facts.now.town id.now owner.now }
    requires candidates { AreCandidates facts.now.town.host facts.now.town.acts lists.old }
    ensures { AreCandidates facts.now.town.host
        (map (with_recipient id.now owner.now) facts.now.town.acts) lists.new }
{
    match facts.position_of(id) {
        Some(place) => {
            let index = count_below(lists.places(Collection::Inbox, owner.text()), place);
            lists.insert(Collection::Inbox, owner, index, place);
        }
        None => {}
    }
}

/// Adds to the lists what will be added by the entry for which the facts have room: its activities,
/// or one more inbox for a known activity. This allocates nothing.
pub(crate) fn add_coming(lists: &mut Lists, facts: &Facts)
    requires room { HasRooms facts.now.town.host 2 (coming_in facts.now) lists.old }
    requires inbox_room { HasInboxRoom (coming_inbox_in facts.now) lists.old }
    requires may_come { MayComeIn facts.now.town (coming_inbox_in facts.now) }
    requires candidates { AreCandidates facts.now.town.host facts.now.town.acts lists.old }
    ensures { AreCandidates facts.now.town.host (sent_on (coming_inbox_in facts.now)
        facts.now.town.acts ++ coming_in facts.now) lists.new }
{
    match facts.coming_inbox() {
        Some((id, owner)) => add_to_inbox(lists, facts, id, owner),
        None => add_acts(lists, facts),
    }
}

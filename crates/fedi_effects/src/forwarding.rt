//! Who an activity of another server is forwarded to (ActivityPub, section 7.1.2).

ghost use Rattle.std.specs.Prelude.{◌≡◌, ◌++◌, IfOk, OnOk, filter, map, option_copied};
ghost use Rattle.std.specs.Prelude.{option_to_list};
ghost use Rattle.std.specs.List.{find, fold, list_any};
ghost use Rattle.fedi_town.specs.Forwarding.{far_followers, forwards_at, forwards_of};
ghost use Rattle.fedi_town.specs.Forwarding.{has_followers_at, is_far, is_local, is_ours, mentions};
ghost use Rattle.fedi_town.specs.Forwarding.{object_mentions};
ghost use Rattle.fedi_town.specs.Objects.{maker_of, object_of, whole_of};
ghost use Rattle.fedi_effects.specs.Forwards.{is_unfound, with_forwards};

use crate::addressing::is_of_town;
use crate::facts::Facts;
use crate::subjects::ref_id;
use fedi_address::{Iri, Items, is_among};
use fedi_objects::{Activity, ObjectRef, Tag};
use fedi_register::Kept;
use fedi_town::Actor;
use std::alloc::{AllocError, Global};

// ---- what an activity refers to

fn is_local(facts: &Facts, maker: Option<&Kept>) -> bool
    ensures { result ≡ is_local facts.now.town (option_copied maker.entry) }
{
    match maker {
        Some(maker) => is_of_town(facts, maker.author()),
        None => false,
    }
}

// Whether the IRI is the id of a member, or of a member's object.
#[tactic(auto, unfolding(fedi_town::specs::Forwarding::is_ours))]
fn is_ours(facts: &Facts, iri: &Iri) -> bool
    ensures { result ≡ is_ours facts.now.town iri.now }
{
    facts.is_actor(iri) || is_local(facts, facts.maker(iri))
}

fn is_one_ours(facts: &Facts, iri: Option<&Iri>) -> bool
    ensures { result
        ≡ list_any (is_ours facts.now.town) (option_to_list (option_copied iri.entry)) }
{
    match iri {
        Some(iri) => is_ours(facts, iri),
        None => false,
    }
}

fn is_tag_ours(facts: &Facts, tag: &Tag) -> bool
    ensures { result ≡ is_ours facts.now.town tag.now.href }
{
    is_ours(facts, &tag.href)
}

fn is_any_tag_ours(facts: &Facts, tags: &[Tag]) -> bool
    ensures { result ≡ list_any (λ g. is_ours facts.now.town g.href) tags.now }
{
    tags.iter().any(|tag| is_tag_ours(facts, tag))
}

fn are_tags_ours(facts: &Facts, tags: &[Tag]) -> bool
    ensures { result ≡ list_any (is_ours facts.now.town) (map (λ g. g.href) tags.now) }
{
    is_any_tag_ours(facts, tags)
}

#[tactic(auto, using(crate::proofs::Forwards::any_both))]
fn is_either_ours(facts: &Facts, in_reply_to: Option<&Iri>, tags: &[Tag]) -> bool
    ensures { result ≡ list_any (is_ours facts.now.town)
        (option_to_list (option_copied in_reply_to.entry) ++ map (λ g. g.href) tags.now) }
{
    is_one_ours(facts, in_reply_to) || are_tags_ours(facts, tags)
}

// Whether the object that is carried refers to something of this server.
fn is_carried_ours(facts: &Facts, object: &ObjectRef) -> bool
    ensures { result ≡ list_any (is_ours facts.now.town) (object_mentions (whole_of object.now)) }
{
    match object {
        ObjectRef::Whole(object) => {
            let object = object.get();
            is_either_ours(facts, object.in_reply_to.as_ref(), object.tags.as_slice())
        }
        ObjectRef::Nothing | ObjectRef::Id(_) | ObjectRef::Changed(_) => false,
    }
}

// Whether the object as it is kept refers to something of this server.
#[tactic(auto, using(crate::proofs::Forwards::mentions_of))]
fn is_made_ours(facts: &Facts, maker: Option<&Kept>) -> bool
    ensures { result ≡ list_any (is_ours facts.now.town)
        (object_mentions (object_of (option_copied maker.entry))) }
{
    match maker {
        Some(maker) => is_either_ours(facts, maker.object_reply(), maker.object_tags()),
        None => false,
    }
}

fn maker_of<'a>(facts: &'a Facts, id: Option<&Iri>) -> Option<&'a Kept>
    ensures { option_copied result ≡ maker_of facts.now.town (option_copied id.entry) }
{
    match id {
        Some(id) => facts.maker(id),
        None => None,
    }
}

// Whether an activity refers to something of this server: by itself, by the object that it carries,
// or by the object as it is kept.
#[tactic(auto, using(crate::proofs::Forwards::any_six))]
fn refers_to_ours(facts: &Facts, activity: &Activity) -> bool
    ensures { result ≡ list_any (is_ours facts.now.town) (mentions facts.now.town activity.now) }
{
    let about = ref_id(&activity.object);
    is_one_ours(facts, activity.in_reply_to.as_ref())
        || is_one_ours(facts, about)
        || is_one_ours(facts, activity.target.as_ref())
        || are_tags_ours(facts, activity.tags.as_slice())
        || is_carried_ours(facts, &activity.object)
        || is_made_ours(facts, maker_of(facts, about))
}

// ---- recipients

#[tactic(auto, unfolding(fedi_town::specs::Forwarding::is_far))]
fn is_far(facts: &Facts, author: &Iri, follower: &Iri) -> bool
    ensures { result ≡ is_far facts.now.town author.now follower.now }
{
    !is_of_town(facts, follower) && follower.host() != author.host()
}

fn keep_far(facts: &Facts, author: &Iri, iris: &mut Vec<Iri>)
    ensures { iris.new.items ≡ filter (is_far facts.now.town author.now) iris.old.items }
{
    iris.retain(|iri| is_far(facts, author, iri));
}

// The member whose followers collection this is (ActivityPub, section 5.3), found by the member's
// id.
fn member_at<'a>(facts: &'a Facts, iri: &Iri) -> Option<&'a Actor>
    ensures { option_copied result ≡ find (has_followers_at iri.now) facts.now.town.actors }
{
    match iri.text().as_bytes().strip_suffix(b"/followers".as_slice()) {
        Some(id) => facts.members().of_text(id),
        None => None,
    }
}

#[tactic(auto, unfolding(crate::specs::Forwards::is_unfound))]
fn is_unfound(found: &[Iri], iri: &Iri) -> bool
    ensures { result ≡ is_unfound found.now iri.now }
{
    !is_among(iri.text(), found)
}

// The far followers of the member, if the member does not block the author.
fn far_followers(
    alloc: Global,
    facts: &Facts,
    author: &Iri,
    member: Option<&Actor>,
) -> Result<Vec<Iri>, AllocError>
    ensures { IfOk result (λ found.
        found.items ≡ far_followers facts.now.town author.now (option_copied member.entry)) }
{
    let Some(member) = member else {
        return Ok(Vec::new(alloc));
    };
    if facts.blocks(&member.id, author) {
        return Ok(Vec::new(alloc));
    }
    let mut followers = facts.followers_of(alloc, &member.id)?;
    keep_far(facts, author, &mut followers);
    Ok(followers)
}

fn keep_unfound(found: &[Iri], iris: &mut Vec<Iri>)
    ensures { iris.new.items ≡ filter (is_unfound found.now) iris.old.items }
{
    iris.retain(|iri| is_unfound(found, iri));
}

// Adds the far followers of the member whose followers collection this is. There may be many and
// each occurs once, so each is searched for only among those that were found before.
#[tactic(auto, using(crate::proofs::Forwards::forwards_apart))]
fn add_forwards_at(
    alloc: Global,
    facts: &Facts,
    author: &Iri,
    found: &mut Vec<Iri>,
    iri: &Iri,
) -> Result<(), AllocError>
    ensures { OnOk result (found.new.items
        ≡ with_forwards facts.now.town author.now found.old.items iri.now) }
{
    let mut followers = far_followers(alloc, facts, author, member_at(facts, iri))?;
    keep_unfound(found, &mut followers);
    found.append(&mut followers)
}

fn add_forwards(
    alloc: Global,
    facts: &Facts,
    author: &Iri,
    found: &mut Vec<Iri>,
    iris: &[Iri],
) -> Result<(), AllocError>
    ensures { OnOk result (found.new.items
        ≡ fold (with_forwards facts.now.town author.now) found.old.items iris.now) }
{
    for iri in iris {
        add_forwards_at(alloc, facts, author, found, iri)?;
    }
    Ok(())
}

/// Who the author's activity is forwarded to when it arrives for the first time: if it refers to
/// something of this server, to the far followers of each member whose followers it is addressed
/// to, each once. The error is out of memory.
#[tactic(auto, using(crate::proofs::Forwards::gathered), unfolding(fedi_town::specs::Forwarding::forwards_of))]
pub fn forwards_of(
    alloc: Global,
    facts: &Facts,
    author: &Iri,
    activity: &Activity,
) -> Result<Items<Iri>, AllocError>
    ensures { IfOk result
        (λ found. found ≡ forwards_of facts.now.town author.now activity.now) }
{
    if !refers_to_ours(facts, activity) {
        return Ok(Items::empty(alloc));
    }
    let named = &activity.recipients;
    let mut found = Vec::new(alloc);
    add_forwards(alloc, facts, author, &mut found, named.to.as_slice())?;
    add_forwards(alloc, facts, author, &mut found, named.cc.as_slice())?;
    add_forwards(alloc, facts, author, &mut found, named.audience.as_slice())?;
    Ok(Items::new(found))
}

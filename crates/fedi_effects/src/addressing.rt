//! Who gets a member's activity.

ghost use Rattle.std.specs.Prelude.{◌≡◌, ◌<◌, true, IfOk, IfSome, OnOk, [], bytes_eq, filter};
ghost use Rattle.std.specs.Prelude.{is_some, length};
ghost use Rattle.std.specs.List.{fold};
ghost use Rattle.fedi_address.specs.Iris.{public_iri};
ghost use Rattle.fedi_address.specs.Recipients.{all_of, is_among, names};
ghost use Rattle.fedi_town.specs.Addressing.{is_nobody_here, is_of_town, is_recipient};
ghost use Rattle.fedi_town.specs.Addressing.{recipients_with};
ghost use Rattle.fedi_town.specs.Ids.{followers_id, is_of_host};
ghost use Rattle.fedi_town.specs.Relations.{followers};
ghost use Rattle.fedi_effects.specs.Gathering.{first_place, is_new_recipient, with_addressees};
ghost use Rattle.fedi_effects.specs.Gathering.{with_reached};

use crate::facts::Facts;
use fedi_address::{Host, Iri, Items, Recipients, is_among};
use std::alloc::{AllocError, Global};

fn is_public(iri: &Iri) -> bool
    ensures { result ≡ bytes_eq iri.now public_iri }
{
    iri.text() == Iri::PUBLIC
}

// Whether the IRI begins with `https://`, the host and `/`, so that it is of the host. This is asked
// many times for each entry, and takes much less time than to look where the host begins and ends.
#[tactic(auto, using(crate::proofs::OfHost::begins_there))]
fn begins_with_host(host: &Host, iri: &Iri) -> bool
    ensures { result ≡ true → is_of_host host.now iri.now ≡ true }
{
    let Some(onward) = iri.text().as_bytes().strip_prefix(b"https://") else {
        return false;
    };
    let Some(rest) = onward.strip_prefix(host.text().as_bytes()) else {
        return false;
    };
    rest.starts_with(b"/")
}

// An IRI with user information is of the host too, but does not begin with it.
#[tactic(auto, unfolding(fedi_town::specs::Ids::is_of_host))]
fn is_of_host(host: &Host, iri: &Iri) -> bool
    ensures { result ≡ is_of_host host.now iri.now }
{
    begins_with_host(host, iri)
        || (iri.text().as_bytes().starts_with(b"https://") && iri.host() == host.text())
}

/// Whether the IRI belongs to the host that was set up.
pub fn is_of_town(facts: &Facts, iri: &Iri) -> bool
    ensures { result ≡ is_of_town facts.now.town.host iri.now }
{
    match facts.host() {
        Some(host) => is_of_host(host, iri),
        None => false,
    }
}

/// Whether the IRI belongs to this host but is not the id of a member.
#[tactic(auto, unfolding(fedi_town::specs::Addressing::is_nobody_here))]
pub fn is_nobody_here(facts: &Facts, iri: &Iri) -> bool
    ensures { result ≡ is_nobody_here facts.now.town iri.now }
{
    is_of_town(facts, iri) && !facts.is_actor(iri)
}

// Whether this IRI may get the author's activity. Public means everybody and is not an address
// (ActivityPub, section 5.6), the author needs no copy, an IRI of this host that is not a member's
// id has no inbox, and a Block excludes both sides (6.9).
#[tactic(auto, unfolding(fedi_town::specs::Addressing::is_recipient))]
fn is_recipient(facts: &Facts, author: &Iri, iri: &Iri) -> bool
    ensures { result ≡ is_recipient facts.now.town author.now iri.now }
{
    !is_public(iri)
        && iri != author
        && !is_nobody_here(facts, iri)
        && !facts.has_block_between(iri, author)
}

// ---- the followers collection

// Whether the IRI is that of the author's followers collection (ActivityPub, section 5.3).
#[tactic(auto, using(crate::proofs::Prefixes::rest_after, crate::proofs::Prefixes::other_prefix))]
fn is_followers_id(author: &Iri, iri: &Iri) -> bool
    ensures { result ≡ bytes_eq iri.now (followers_id author.now) }
{
    match iri.text().as_bytes().strip_prefix(author.text().as_bytes()) {
        Some(rest) => rest == b"/followers".as_slice(),
        None => false,
    }
}

#[tactic(auto, unfolding(fedi_address::specs::Recipients::is_among))]
fn has_followers_id(author: &Iri, iris: &[Iri]) -> bool
    ensures { result ≡ is_among (followers_id author.now) iris.now }
{
    iris.iter().any(|iri| is_followers_id(author, iri))
}

/// Whether the author's followers are among the named (ActivityPub, section 5.3).
#[tactic(auto, using(fedi_address::proofs::Audience::is_among_all))]
pub fn names_followers(author: &Iri, named: &Recipients) -> bool
    ensures { result ≡ names named.now (followers_id author.now) }
{
    has_followers_id(author, named.to.as_slice())
        || has_followers_id(author, named.cc.as_slice())
        || has_followers_id(author, named.bto.as_slice())
        || has_followers_id(author, named.bcc.as_slice())
        || has_followers_id(author, named.audience.as_slice())
}

// ---- recipients

// Whether the IRI may get the author's activity and was not found before.
#[tactic(auto, unfolding(crate::specs::Gathering::is_new_recipient))]
fn is_new_recipient(facts: &Facts, author: &Iri, found: &[Iri], iri: &Iri) -> bool
    ensures { result ≡ is_new_recipient facts.now.town author.now found.now iri.now }
{
    is_recipient(facts, author, iri) && !is_among(iri.text(), found)
}

#[tactic(auto, unfolding(crate::specs::Gathering::with_reached))]
fn add_recipient(
    facts: &Facts,
    author: &Iri,
    found: &mut Vec<Iri>,
    iri: &Iri,
) -> Result<(), AllocError>
    ensures { OnOk result (found.new.items
        ≡ with_reached facts.now.town author.now found.old.items iri.now) }
{
    if is_new_recipient(facts, author, found, iri) {
        let iri = iri.clone()?;
        found.push(iri)?;
    }
    Ok(())
}

// The first index of the IRI among those found.
fn first_place(found: &[Iri], iri: &Iri) -> Option<usize>
    ensures { result ≡ first_place (λ u. bytes_eq u iri.now) found.now }
{
    found.iter().position(|other| other == iri)
}

// An index of the IRI among those found. The index `near` is tried first.
#[tactic(auto, using(crate::proofs::FirstPlaces::among_at), unfolding(fedi_address::specs::Recipients::is_among))]
fn position_of(found: &[Iri], iri: &Iri, near: usize) -> Option<usize>
    ensures among { is_some result ≡ is_among iri.now found.now }
    ensures bound { IfSome result (λ place. place < length found.now) }
{
    if near < found.len() && found[near] == *iri {
        return Some(near);
    }
    first_place(found, iri)
}

// Adds the IRI if it is new. The index `near` is tried first. Returns the index to try first for
// the next IRI.
#[tactic(auto, unfolding(crate::specs::Gathering::with_reached, crate::specs::Gathering::is_new_recipient))]
fn add_recipient_near(
    facts: &Facts,
    author: &Iri,
    found: &mut Vec<Iri>,
    iri: &Iri,
    near: usize,
) -> Result<usize, AllocError>
    ensures { OnOk result (found.new.items
        ≡ with_reached facts.now.town author.now found.old.items iri.now) }
{
    if let Some(place) = position_of(found, iri, near) {
        return Ok(place + 1);
    }
    if is_recipient(facts, author, iri) {
        let iri = iri.clone()?;
        found.push(iri)?;
    }
    Ok(near)
}

// Adds the IRIs that are new. There may be many, mostly in the order in which they were found, so
// the search for each starts right after the one before it.
fn reach(facts: &Facts, author: &Iri, found: &mut Vec<Iri>, iris: &[Iri]) -> Result<(), AllocError>
    ensures { OnOk result (found.new.items
        ≡ fold (with_reached facts.now.town author.now) found.old.items iris.now) }
{
    let mut near = 0;
    for iri in iris {
        near = add_recipient_near(facts, author, found, iri, near)?;
    }
    Ok(())
}

fn keep_new(facts: &Facts, author: &Iri, found: &[Iri], iris: &mut Vec<Iri>)
    ensures { iris.new.items
        ≡ filter (is_new_recipient facts.now.town author.now found.now) iris.old.items }
{
    iris.retain(|iri| is_new_recipient(facts, author, found, iri));
}

// The author's present followers. There may be many and each occurs once, so each is searched for
// only among those that were found before.
#[tactic(auto, using(crate::proofs::Apart::followers_apart))]
fn add_followers(
    alloc: Global,
    facts: &Facts,
    author: &Iri,
    found: &mut Vec<Iri>,
) -> Result<(), AllocError>
    ensures { OnOk result (found.new.items ≡ fold (with_reached facts.now.town author.now)
        found.old.items (followers facts.now.town author.now)) }
{
    let mut followers = facts.followers_of(alloc, author)?;
    keep_new(facts, author, found, &mut followers);
    found.append(&mut followers)
}

// The author's followers collection represents the present followers (ActivityPub, section 7.1).
#[tactic(auto, unfolding(crate::specs::Gathering::with_addressees, fedi_town::specs::Addressing::addressees))]
fn add_addressee(
    alloc: Global,
    facts: &Facts,
    author: &Iri,
    found: &mut Vec<Iri>,
    iri: &Iri,
) -> Result<(), AllocError>
    ensures { OnOk result (found.new.items
        ≡ with_addressees facts.now.town author.now found.old.items iri.now) }
{
    if is_followers_id(author, iri) {
        add_followers(alloc, facts, author, found)
    } else {
        add_recipient(facts, author, found, iri)
    }
}

fn add_addressees(
    alloc: Global,
    facts: &Facts,
    author: &Iri,
    found: &mut Vec<Iri>,
    iris: &[Iri],
) -> Result<(), AllocError>
    ensures { OnOk result (found.new.items
        ≡ fold (with_addressees facts.now.town author.now) found.old.items iris.now) }
{
    for iri in iris {
        add_addressee(alloc, facts, author, found, iri)?;
    }
    Ok(())
}

fn add_all_addressees(
    alloc: Global,
    facts: &Facts,
    author: &Iri,
    found: &mut Vec<Iri>,
    named: &Recipients,
) -> Result<(), AllocError>
    ensures { OnOk result (found.new.items
        ≡ fold (with_addressees facts.now.town author.now) found.old.items (all_of named.now)) }
{
    add_addressees(alloc, facts, author, found, named.to.as_slice())?;
    add_addressees(alloc, facts, author, found, named.cc.as_slice())?;
    add_addressees(alloc, facts, author, found, named.bto.as_slice())?;
    add_addressees(alloc, facts, author, found, named.bcc.as_slice())?;
    add_addressees(alloc, facts, author, found, named.audience.as_slice())
}

/// The recipients of a member's activity, each once: those of `to`, `cc`, `bto`, `bcc` and
/// `audience` in this order, then the others (ActivityPub, sections 6 and 7.1). The error is out of
/// memory.
#[tactic(auto, using(crate::proofs::Gathering::reached_are_recipients))]
pub fn recipients_with(
    alloc: Global,
    facts: &Facts,
    author: &Iri,
    named: &Recipients,
    others: &[Iri],
) -> Result<Items<Iri>, AllocError>
    ensures { IfOk result
        (λ found. found ≡ recipients_with facts.now.town author.now named.now others.now) }
{
    let mut found = Vec::new(alloc);
    add_all_addressees(alloc, facts, author, &mut found, named)?;
    reach(facts, author, &mut found, others)?;
    Ok(Items::new(found))
}

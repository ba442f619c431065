//! The shelf that scans all activities for a collection, and the one that keeps the positions of its
//! candidates, asked for the same.

ghost use Rattle.std.specs.Prelude.{◌≡◌, ◌<◌, [], IfOk, string_bytes};
ghost use Rattle.fedi_town.specs.Boards.{board_id};

use crate::seeds::seed;
use crate::town::{ACTIVITIES, NAMES, add_town};
use fedi_address::{Host, Iri, LocalName};
use fedi_collections::draft_collection;
use fedi_effects::Steps;
use fedi_index::IndexedShelf;
use fedi_model::PageAsk;
use fedi_opening::open_history;
use fedi_outside::{CalmKeeper, Keeper};
use fedi_rows::{expect, expect_at, leaked};
use fedi_town::{Caller, Which};
use fedi_visible::{PlainShelf, Shelf};
use std::alloc::{AllocError, Global};
use std::marker::Brand;
use std::sync::ledger::{Blank, Ledger};
use std::test::Fail;

// Whether both shelves have the same reply for who asks for this part of the collection.
fn agree_on<A: Shelf, B: Shelf>(
    alloc: Global,
    one: &A,
    other: &B,
    caller: &Caller,
    which: &Which,
    part: &PageAsk,
) -> Result<bool, AllocError> {
    let first = draft_collection(alloc, one, caller, which, part)?.write(alloc)?;
    let second = draft_collection(alloc, other, caller, which, part)?.write(alloc)?;
    Ok(first.body.bytes() == second.body.bytes())
}

// The same for the collection and its first pages. The longest has five.
fn agree<A: Shelf, B: Shelf>(
    alloc: Global,
    one: &A,
    other: &B,
    caller: &Caller,
    which: &Which,
) -> Result<bool, AllocError> {
    let mut holds = agree_on(alloc, one, other, caller, which, &PageAsk::Summary)?;
    for number in 0..6 {
        let part = PageAsk::Page(number);
        holds = holds && agree_on(alloc, one, other, caller, which, &part)?;
    }
    Ok(holds)
}

// Fails with the number of the first collection of the member that the shelves differ in. Those of
// the objects are of notes to everyone, of which the first was deleted, and of a note to followers.
fn expect_member<A: Shelf, B: Shelf>(
    alloc: Global,
    one: &A,
    other: &B,
    caller: &Caller,
    name: &LocalName,
) -> Result<(), Fail> {
    let of_member = [
        Which::Inbox(name.copy()),
        Which::Outbox(name.copy()),
        Which::Followers(name.copy()),
        Which::Following(name.copy()),
        Which::Liked(name.copy()),
    ];
    for (number, which) in of_member.iter().enumerate() {
        expect_at(
            agree(alloc, one, other, caller, which)?,
            "a collection",
            number,
        )?;
    }
    for number in 18..27 {
        let (likes, shares) = (
            Which::Likes(name.copy(), number),
            Which::Shares(name.copy(), number),
        );
        let holds = agree(alloc, one, other, caller, &likes)?
            && agree(alloc, one, other, caller, &shares)?;
        expect_at(holds, "an object's collections", number as usize)?;
    }
    Ok(())
}

fn expect_caller<A: Shelf, B: Shelf>(
    alloc: Global,
    one: &A,
    other: &B,
    caller: &Caller,
) -> Result<(), Fail> {
    for text in NAMES {
        match LocalName::parse(text) {
            Some(name) => expect_member(alloc, one, other, caller, &name)?,
            None => return Err(Fail::new(text)),
        }
    }
    Ok(())
}

// Asks as a stranger, as each member and as each peer.
fn expect_callers<A: Shelf, B: Shelf>(alloc: Global, one: &A, other: &B) -> Result<(), Fail> {
    expect_caller(alloc, one, other, &Caller::Nobody)?;
    for text in NAMES {
        if let Some(name) = LocalName::parse(text) {
            expect_caller(alloc, one, other, &Caller::Actor(name))?;
        }
    }
    for text in ["hill.example", "lake.example"] {
        let peer = Caller::Peer(Host::parse(alloc, text)?);
        expect_caller(alloc, one, other, &peer)?;
    }
    Ok(())
}

// How many items dan sees in collections of his own, by hand: what came to his inbox, what he
// posted, whom he follows, what he likes, and who likes and shares one of his notes.
fn counts(dan: &LocalName) -> [(Which, &'static str); 6] {
    [
        (Which::Inbox(dan.copy()), "\"totalItems\":118,"),
        (Which::Outbox(dan.copy()), "\"totalItems\":83,"),
        (Which::Following(dan.copy()), "\"totalItems\":3,"),
        (Which::Liked(dan.copy()), "\"totalItems\":16,"),
        (Which::Likes(dan.copy(), 21), "\"totalItems\":4,"),
        (Which::Shares(dan.copy(), 21), "\"totalItems\":2,"),
    ]
}

fn has_count<S: Shelf>(
    alloc: Global,
    shelf: &S,
    caller: &Caller,
    which: &Which,
    text: &str,
) -> Result<bool, AllocError> {
    let reply = draft_collection(alloc, shelf, caller, which, &PageAsk::Summary)?.write(alloc)?;
    Ok(str::from_utf8(reply.body.bytes()).is_ok_and(|body| body.contains(text)))
}

fn expect_counts<S: Shelf>(alloc: Global, shelf: &S) -> Result<(), Fail> {
    let Some(dan) = LocalName::parse("dan") else {
        return Err(Fail::new("dan"));
    };
    let caller = Caller::Actor(dan.copy());
    for (which, text) in &counts(&dan) {
        expect(has_count(alloc, shelf, &caller, which, text)?, text)?;
    }
    Ok(())
}

// ---- the collections that members make

// The positions of the member's Adds and Removes, with steps that are counted in this ledger.
fn counted_pins<S: Shelf, L: Ledger>(
    alloc: Global,
    shelf: &S,
    name: &LocalName,
    blank: Blank,
) -> Result<Vec<usize>, AllocError>
    requires name { blank.name ≡ L.name }
    requires parts { blank.parts ≡ L.parts }
    requires some { 0 < blank.parts }
{
    let mut steps = Steps::<L>::new(blank);
    match shelf.facts().id_of(name) {
        Some(member) => shelf.pins(alloc, name, member, &mut steps),
        None => Ok(Vec::new(alloc)),
    }
}

// The same, with steps of its own.
fn pins_in<S: Shelf>(alloc: Global, shelf: &S, name: &LocalName) -> Result<Vec<usize>, AllocError> {
    counted_pins::<S, Brand>(alloc, shelf, name, Blank::new(1))
}

// The id of the member's collection of this name.
fn board_text(alloc: Global, member: &Iri, slug: &LocalName) -> Result<String, AllocError>
    ensures { IfOk result (λ text. string_bytes text ≡ board_id member.now slug.now) }
{
    let mut text = String::from_str(alloc, member.text())?;
    text.push_str("/c/")?;
    text.push_str(slug.text())?;
    Ok(text)
}

// The positions of what is directed to the member's collection of this name, with steps that are
// counted in this ledger.
fn counted_directed<S: Shelf, L: Ledger>(
    alloc: Global,
    shelf: &S,
    name: &LocalName,
    slug: &LocalName,
    blank: Blank,
) -> Result<Vec<usize>, AllocError>
    requires name { blank.name ≡ L.name }
    requires parts { blank.parts ≡ L.parts }
    requires some { 0 < blank.parts }
{
    let mut steps = Steps::<L>::new(blank);
    match shelf.facts().id_of(name) {
        Some(member) => {
            let board = board_text(alloc, member, slug)?;
            shelf.directed(alloc, name, member, slug, board.as_str(), &mut steps)
        }
        None => Ok(Vec::new(alloc)),
    }
}

// The same, with steps of its own.
fn directed_in<S: Shelf>(
    alloc: Global,
    shelf: &S,
    name: &LocalName,
    slug: &LocalName,
) -> Result<Vec<usize>, AllocError> {
    counted_directed::<S, Brand>(alloc, shelf, name, slug, Blank::new(1))
}

// Fails unless both shelves find as many Adds and Removes by the member, and as many that are
// directed to the member's collection of this name, and the same ones.
fn expect_pins<A: Shelf, B: Shelf>(
    alloc: Global,
    one: &A,
    other: &B,
    text: &str,
    slug: &str,
    counts: (usize, usize),
) -> Result<(), Fail> {
    let (Some(name), Some(slug)) = (LocalName::parse(text), LocalName::parse(slug)) else {
        return Err(Fail::new(text));
    };
    let first = pins_in(alloc, one, &name)?;
    let second = pins_in(alloc, other, &name)?;
    let holds = first.len() == counts.0 && first.as_slice() == second.as_slice();
    expect(holds, "the Adds and Removes by a member")?;
    let first = directed_in(alloc, one, &name, &slug)?;
    let second = directed_in(alloc, other, &name, &slug)?;
    let holds = first.len() == counts.1 && first.as_slice() == second.as_slice();
    expect(holds, "the Adds and Removes of a collection")
}

// The same for each member, by hand: ana and ben make collections, eli adds to that of ana twice,
// and ben takes something out of it once.
fn expect_boards<A: Shelf, B: Shelf>(alloc: Global, one: &A, other: &B) -> Result<(), Fail> {
    expect_pins(alloc, one, other, "ana", "best", (3, 6))?;
    expect_pins(alloc, one, other, "ana", "worst", (3, 0))?;
    expect_pins(alloc, one, other, "ben", "best", (3, 2))?;
    expect_pins(alloc, one, other, "eli", "best", (2, 0))?;
    expect_pins(alloc, one, other, "dan", "best", (0, 0))?;
    expect_pins(alloc, one, other, "fay", "best", (0, 0))
}

// Both shelves open the history that the keeper has, and answer the same.
fn expect_same<A: Shelf, B: Shelf, K: Keeper>(
    alloc: Global,
    keeper: &mut K,
    one: &mut A,
    other: &mut B,
) -> Result<(), Fail>
    requires one { (A.holding one.old).history ≡ [] }
    requires other { (B.holding other.old).history ≡ [] }
{
    open_history(alloc, keeper, one)?;
    open_history(alloc, keeper, other)?;
    expect(one.facts().activities() == ACTIVITIES, "the activities")?;
    expect_counts(alloc, one)?;
    expect_boards(alloc, one, other)?;
    expect_callers(alloc, one, other)
}

// The same for the two shelves.
fn expect_shelves<K: Keeper>(alloc: Global, keeper: &mut K) -> Result<(), Fail> {
    let mut one = leaked(PlainShelf::empty(alloc, seed())?);
    let mut other = leaked(IndexedShelf::empty(alloc, seed())?);
    expect_same::<PlainShelf, IndexedShelf, K>(alloc, keeper, &mut one, &mut other)
}

#[test]
fn both_shelves_answer_the_same(rt: HostRuntime) -> Result<(), Fail> {
    let mut keeper = CalmKeeper::new(rt.alloc());
    add_town(rt.alloc(), &mut keeper)?;
    expect_shelves(rt.alloc(), &mut keeper)
}

//! What an opening answers for the records of a small history, and for others. A keeper is made in
//! one function and lent, and a test fails with the text of the row that does not hold.

ghost use Rattle.std.specs.Prelude.{◌≡◌, ◌<◌, []};

use crate::seeds::seed;
use fedi_address::LocalName;
use fedi_effects::Steps;
use fedi_opening::{OpenFault, open_history};
use fedi_outside::{Keeper, MemoryKeeper};
use fedi_rows::records::{
    ANA, BEN, CREATE, FOLLOW, FOLLOWED, HISTORY, HOSTED, LAKE, LIKE, LIKED, LIKED_TOO, NO_ADDRESS,
    OF_HILL, OWN_FOLLOW, OWN_PEER, SAME_KEY, TRIED, TWICE_TO, WITH_ID,
};
use fedi_rows::{expect, leaked};
use fedi_town::{Caller, Which};
use fedi_visible::{PlainShelf, Shelf};
use std::alloc::Global;
use std::marker::Brand;
use std::sync::ledger::{Blank, Ledger};
use std::test::Fail;

// A rule, records that break it, and the index of the first that is damaged.
const DAMAGED: [(&str, &[&[u8]], u64); 24] = [
    ("the server is set up first", &[ANA, HOSTED], 0),
    ("the server is set up once", &[HOSTED, HOSTED], 1),
    ("the server is set up once", &[HOSTED, ANA, HOSTED], 2),
    ("a name is one member's", &[HOSTED, ANA, ANA], 2),
    ("a key is one member's", &[HOSTED, ANA, SAME_KEY], 2),
    ("who posts is a member", &[HOSTED, CREATE, ANA], 1),
    ("who posts is a member", &[HOSTED, ANA, FOLLOW, BEN], 2),
    (
        "what is liked is there",
        &[HOSTED, ANA, BEN, LIKE, CREATE],
        3,
    ),
    (
        "a key for repeats is used once",
        &[HOSTED, ANA, CREATE, CREATE],
        3,
    ),
    ("nobody follows herself", &[HOSTED, ANA, OWN_FOLLOW], 2),
    ("a post has no id", &[HOSTED, ANA, BEN, WITH_ID], 3),
    (
        "a recipient is named once",
        &[HOSTED, ANA, BEN, TWICE_TO],
        3,
    ),
    ("the server is set up first", &[LAKE, HOSTED], 0),
    ("a peer is another server", &[HOSTED, OWN_PEER], 1),
    ("a peer is one once", &[HOSTED, LAKE, LAKE], 2),
    ("a peer is reached somewhere", &[HOSTED, NO_ADDRESS], 1),
    ("who delivers is a peer", &[HOSTED, ANA, LIKED, LAKE], 2),
    ("an inbox is a member's", &[HOSTED, LAKE, ANA, LIKED_TOO], 3),
    (
        "a peer delivers what its own members do",
        &[HOSTED, ANA, LAKE, OF_HILL],
        3,
    ),
    (
        "an activity comes to an inbox once",
        &[HOSTED, ANA, BEN, LAKE, LIKED, LIKED_TOO, LIKED],
        6,
    ),
    (
        "what is tried is due",
        &[HOSTED, ANA, BEN, CREATE, FOLLOW, LAKE, TRIED],
        6,
    ),
    (
        "what is tried is not tried again at once",
        &[
            HOSTED, ANA, BEN, CREATE, FOLLOW, LIKE, LAKE, FOLLOWED, TRIED, TRIED,
        ],
        9,
    ),
    ("the first of several", &[HOSTED, b"", ANA, b""], 1),
    ("no record is empty", &[b""], 0),
];

/// Appends a record.
pub(crate) fn add<K: Keeper>(keeper: &mut K, record: &[u8]) -> Result<(), Fail> {
    keeper.reserve(record.len())?;
    keeper.settle()?;
    keeper.append(record)?;
    Ok(())
}

/// Appends the records.
pub(crate) fn add_all<K: Keeper>(keeper: &mut K, records: &[&[u8]]) -> Result<(), Fail> {
    for record in records {
        add(keeper, record)?;
    }
    Ok(())
}

/// Whether the shelf, which is empty, opens the history of these records.
pub(crate) fn opens<S: Shelf>(alloc: Global, records: &[&[u8]], shelf: &mut S) -> Result<bool, Fail>
    requires empty { (S.holding shelf.old).history ≡ [] }
{
    let mut keeper = MemoryKeeper::new(alloc);
    add_all(&mut keeper, records)?;
    Ok(open_history(alloc, &mut keeper, shelf).is_ok())
}

// The expected result of an opening.
#[derive(Clone, Copy)]
enum Wanted {
    // It finds the whole history.
    History,
    // It is refused.
    Fault(OpenFault),
}

// Whether the shelf has the Create, the Follow with its Accept, and the Like, and those of the
// peer, with the Like that came to two inboxes only once.
fn has_history(shelf: &PlainShelf) -> bool {
    let facts = shelf.facts();
    let is_hosted = facts
        .host()
        .is_some_and(|host| host.text() == "club.example");
    let has_peer = facts.peers().len() == 1;
    is_hosted && has_peer && facts.actors().len() == 2 && facts.activities() == 7
}

// The index of the first item of ana's outbox that everybody sees.
fn first_place<L: Ledger>(shelf: &PlainShelf, blank: Blank) -> Option<usize>
    requires name { blank.name ≡ L.name }
    requires parts { blank.parts ≡ L.parts }
    requires some { 0 < blank.parts }
{
    let ana = LocalName::parse("ana")?;
    let owner = shelf.facts().id_of(&ana)?;
    let which = Which::Outbox(ana.copy());
    let mut steps = Steps::<L>::new(blank);
    let page = shelf.visible_page(&Caller::Nobody, &which, owner, 0, &mut steps);
    page.places.as_slice().first().copied()
}

// Whether the first item of ana's outbox is the first activity, her Create.
fn has_first_item(shelf: &PlainShelf) -> bool {
    first_place::<Brand>(shelf, Blank::new(1)) == Some(0)
}

fn answers<K: Keeper>(
    alloc: Global,
    keeper: &mut K,
    shelf: &mut PlainShelf,
    wanted: Wanted,
) -> Result<bool, Fail>
    requires empty { shelf.old.history ≡ [] }
{
    let fault = open_history(alloc, keeper, shelf).err();
    match wanted {
        Wanted::History => Ok(fault.is_none() && has_history(shelf) && has_first_item(shelf)),
        Wanted::Fault(other) => Ok(fault == Some(other)),
    }
}

// Fails with the text of the row unless an opening of the keeper has this result.
fn expect_open<K: Keeper>(
    alloc: Global,
    row: &str,
    keeper: &mut K,
    wanted: Wanted,
) -> Result<(), Fail> {
    let mut shelf = leaked(PlainShelf::empty(alloc, seed())?);
    expect(answers(alloc, keeper, &mut shelf, wanted)?, row)
}

// The same for a keeper of these records.
fn expect_opened(alloc: Global, row: &str, records: &[&[u8]], wanted: Wanted) -> Result<(), Fail> {
    let mut keeper = MemoryKeeper::new(alloc);
    add_all(&mut keeper, records)?;
    expect_open(alloc, row, &mut keeper, wanted)
}

// The opening of a keeper fails, and the same keeper opens at the next try.
fn expect_one_failure<K: Keeper>(alloc: Global, keeper: &mut K) -> Result<(), Fail> {
    expect_open(
        alloc,
        "a load that fails",
        keeper,
        Wanted::Fault(OpenFault::Failed),
    )?;
    expect_open(alloc, "the next try", keeper, Wanted::History)
}

fn expect_failing(alloc: Global, place: u64) -> Result<(), Fail> {
    let mut keeper = MemoryKeeper::new(alloc);
    add_all(&mut keeper, &HISTORY)?;
    // Each record took two calls.
    let failing = [place.saturating_add(2 * HISTORY.len() as u64)].to_vec(alloc)?;
    expect_one_failure(alloc, &mut keeper.failing(failing))
}

#[test]
fn a_history_is_opened_or_the_reason_is_named(rt: HostRuntime) -> Result<(), Fail> {
    expect_opened(rt.alloc(), "the history", &HISTORY, Wanted::History)?;
    let empty = Wanted::Fault(OpenFault::Empty);
    expect_opened(rt.alloc(), "no record", &[], empty)?;
    for (rule, records, place) in &DAMAGED {
        let fault = OpenFault::Damaged { place: *place };
        expect_opened(rt.alloc(), rule, records, Wanted::Fault(fault))?;
    }
    for place in 0..HISTORY.len() as u64 {
        expect_failing(rt.alloc(), place)?;
    }
    Ok(())
}

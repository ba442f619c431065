//! Who the activities of other servers are forwarded to.

ghost use Rattle.std.specs.Prelude.{◌≡◌, []};

use crate::opening::opens;
use crate::seeds::seed;
use fedi_address::Iri;
use fedi_effects::Facts;
use fedi_entry::{KnownHosts, decode};
use fedi_objects::Entry;
use fedi_queue::forwards;
use fedi_rows::records::{
    ANA, FOLLOWED, FORWARDED, HILL, HOSTED, LAKE, NOTE, REPLIED, REPLY_LIKED,
};
use fedi_rows::{expect_at, leaked};
use fedi_visible::{PlainShelf, Shelf};
use std::alloc::{AllocError, Global};
use std::test::Fail;

/// A town in which somebody elsewhere follows a member, who has posted a note.
const BEFORE: [&[u8]; 6] = [HOSTED, ANA, LAKE, HILL, FOLLOWED, NOTE];

/// A delivery, and who it is forwarded to: the followers elsewhere, if it is for them and about the
/// member's note. What the last one likes is not known.
const ROWS: [(&[u8], &[&str]); 3] = [
    (FORWARDED, &["https://lake.example/users/eve"]),
    (REPLIED, &[]),
    (REPLY_LIKED, &[]),
];

fn are_iris(iris: &[Iri], texts: &[&str]) -> bool {
    iris.len() == texts.len()
        && iris
            .iter()
            .zip(texts.iter())
            .all(|(iri, text)| iri.text() == *text)
}

fn is_forwarded(
    alloc: Global,
    facts: &Facts,
    entry: &Entry,
    texts: &[&str],
) -> Result<bool, AllocError> {
    match entry {
        Entry::Remote { activity, .. } => {
            let found = forwards(alloc, facts, activity.get())?;
            Ok(are_iris(found.as_slice(), texts))
        }
        _ => Ok(false),
    }
}

fn has_forwards(
    alloc: Global,
    facts: &Facts,
    hosts: &mut KnownHosts,
    row: &(&[u8], &[&str]),
) -> Result<bool, AllocError> {
    match decode(alloc, hosts, row.0) {
        Ok(entry) => is_forwarded(alloc, facts, &leaked(entry), row.1),
        Err(_) => Ok(false),
    }
}

fn expect_rows(alloc: Global, facts: &Facts, hosts: &mut KnownHosts) -> Result<(), Fail> {
    for (number, row) in ROWS.iter().enumerate() {
        expect_at(
            has_forwards(alloc, facts, hosts, row)?,
            "a delivery",
            number,
        )?;
    }
    Ok(())
}

fn expect_forwards(
    alloc: Global,
    hosts: &mut KnownHosts,
    shelf: &mut PlainShelf,
) -> Result<(), Fail>
    requires empty { shelf.old.history ≡ [] }
{
    expect_at(opens(alloc, &BEFORE, shelf)?, "records", BEFORE.len())?;
    expect_rows(alloc, shelf.facts(), hosts)
}

#[test]
fn what_is_for_the_followers_is_forwarded_to_them(rt: HostRuntime) -> Result<(), Fail> {
    let mut hosts = KnownHosts::new();
    let mut shelf = leaked(PlainShelf::empty(rt.alloc(), seed())?);
    expect_forwards(rt.alloc(), &mut hosts, &mut shelf)
}

//! A demonstration: a town in memory, what its members ask of it, and what is printed about the
//! replies.

ghost use Rattle.std.specs.Prelude.{◌≡◌, ◌∷◌, ◌++◌, ◌<◌, ◌≤◌, [], ℕ, List, IfOk, IfSome, IsTrue};
ghost use Rattle.std.specs.Prelude.{None, OnOk, is_some};
ghost use Rattle.fedi_address.specs.Hosts.{IsHost};
ghost use Rattle.fedi_core.specs.Commands.{IsCommand};
ghost use Rattle.fedi_demo.specs.Demonstrating.{HasStore, IsDemo, IsVisit, far_peer, founding};
ghost use Rattle.fedi_demo.specs.Demonstrating.{held_of, is_whole, member, set_up};
ghost use Rattle.fedi_objects.specs.declared.entry.Entry.{Entry};
ghost use Rattle.fedi_town.specs.Histories.{town};
ghost use Rattle.fedi_town.specs.Legal.{IsLegal};
ghost use Rattle.fedi_town.specs.Towns.{Town};

use crate::asking::connections;
use crate::printed::{Held, summary};
use fedi_address::{Host, LocalName};
use fedi_core::Core;
use fedi_effects::Seed;
use fedi_index::IndexedShelf;
use fedi_logged::{Connection, SessionEnd, serve_connection};
use fedi_mac::digest;
use fedi_objects::Entry;
use fedi_outside::{FixedClock, Keeper, MemoryDisk, MemorySink, MemorySource};
use fedi_routes::Routes;
use fedi_startup::{StoreCore, close_store, make_store, open_store};
use fedi_text::{Moment, Text};
use itoa::Buffer;
use std::alloc::{AllocError, Global};

/// The moment of each entry and each reply: 1994-11-06T08:49:37Z, in seconds since
/// 1970-01-01T00:00:00Z.
const MOMENT: u64 = 784_111_777;

/// How many members there are.
const MEMBERS: u8 = 8;

// ---- the town before the first request

fn host(alloc: Global, text: &str) -> Result<Host, AllocError>
    ensures same { IfOk result (λ host. host ≡ text.now) }
    ensures host { IfOk result (λ host. IsHost host) }
{
    match Host::parse(alloc, text) {
        Ok(host) => Ok(host),
        Err(_) => Err(AllocError),
    }
}

// The member with this number, whose key has 32 bytes that are the number.
#[tactic(auto, unfolding(crate::specs::Demonstrating::member))]
fn member(alloc: Global, number: u8) -> Result<Entry, AllocError>
    ensures member { IfOk result (λ entry. entry ≡ member number) }
    ensures command { IfOk result (λ entry. (t : Town) → IsTrue (is_some t.host)
        → IsCommand t entry) }
{
    let mut digits = Buffer::new();
    let mut text = String::from_str(alloc, "m")?;
    text.push_str(digits.format(number))?;
    let Some(name) = LocalName::parse(&text) else {
        return Err(AllocError);
    };
    Ok(Entry::Made {
        name,
        digest: digest(&[number; 32]),
        locked: false,
        moment: Moment::clamped(MOMENT),
    })
}

#[tactic(auto, unfolding(crate::specs::Demonstrating::far_peer))]
fn far_peer(alloc: Global) -> Result<Entry, AllocError>
    ensures peer { IfOk result (λ entry. entry ≡ far_peer) }
    ensures command { IfOk result (λ entry. (t : Town) → IsTrue (is_some t.host)
        → IsCommand t entry) }
{
    Ok(Entry::PeerSet {
        host: host(alloc, "far.example")?,
        key: [0xff; 32],
        address: Text::from_text(alloc, "far")?,
        relay: false,
        moment: Moment::clamped(MOMENT),
    })
}

// Keeps the entry. No entry of a demonstration breaks a rule, so the error is out of memory.
fn enter<P: Keeper>(
    alloc: Global,
    core: &mut Core<IndexedShelf, P>,
    entry: Entry,
) -> Result<(), AllocError>
    requires command { IsCommand (town core.old.history) entry }
    ensures history { OnOk result (core.new.history ≡ core.old.history ++ entry ∷ []) }
    ensures hosted { OnOk result (IsTrue (is_some (town core.new.history).host)) }
    ensures settled { OnOk result ((P.shown core.new.keeper).doubt ≡ None) }
{
    match core.command(alloc, entry) {
        Ok(()) => Ok(()),
        Err(_) => Err(AllocError),
    }
}

// Makes the members and the peer.
fn settle<P: Keeper>(alloc: Global, core: &mut Core<IndexedShelf, P>) -> Result<(), AllocError>
    requires set_up { core.old.history ≡ set_up ∷ [] }
    requires hosted { IsTrue (is_some (town core.old.history).host) }
    ensures founded { OnOk result (core.new.history ≡ founding) }
    ensures settled { OnOk result ((P.shown core.new.keeper).doubt ≡ None) }
{
    let mut count = 0;
    'members: while count < MEMBERS {
        let entry = member(alloc, count)?;
        enter(alloc, core, entry)?;
        count += 1;
    }
    let peer = far_peer(alloc)?;
    enter(alloc, core, peer)?;
    Ok(())
}

// The machine over a new store in memory that was set up.
#[tactic(auto, using(fedi_startup::proofs::OneAnswer::one_history, fedi_logged::proofs::Hosted::hosted), unfolding(crate::specs::Demonstrating::set_up))]
fn set_up(alloc: Global, seed: Seed) -> Result<StoreCore<MemoryDisk>, AllocError>
    ensures set_up { IfOk result (λ core. core.history ≡ set_up ∷ []) }
    ensures hosted { IfOk result (λ core. IsTrue (is_some (town core.history).host)) }
{
    let disk = MemoryDisk::new(alloc, Vec::new(alloc))?;
    let host = host(alloc, "town.example")?;
    let (made, disk) = make_store(alloc, disk, host, Moment::clamped(MOMENT));
    let Ok(()) = made else {
        return Err(AllocError);
    };
    match open_store(alloc, seed, disk) {
        Ok(core) => Ok(core),
        Err(_) => Err(AllocError),
    }
}

// The disk, if none of its calls failed: in memory, a call fails only if memory runs out.
fn calm(disk: MemoryDisk) -> Result<MemoryDisk, AllocError>
    ensures { IfOk result (λ calm. (calm ≡ disk) × (disk.faults ≡ 0)) }
{
    if disk.faults() == 0 {
        Ok(disk)
    } else {
        Err(AllocError)
    }
}

// The store of the town before the first request.
fn found(alloc: Global, seed: Seed) -> Result<MemoryDisk, AllocError>
    ensures { IfOk result (λ disk. HasStore founding disk) }
{
    let mut core = set_up(alloc, seed)?;
    settle(alloc, &mut core)?;
    calm(close_store(core))
}

// ---- its connections

// Whether all requests were answered.
fn is_over(end: SessionEnd) -> bool
    ensures { IsTrue result → IsTrue (is_whole end) }
{
    match end {
        SessionEnd::End | SessionEnd::Closed => true,
        SessionEnd::CutShort => false,
        SessionEnd::ReadFault => false,
        SessionEnd::WriteFault => false,
        SessionEnd::Memory => false,
    }
}

// Serves the requests on one connection, over the store of the disk, and appends everything that
// was written.
fn visit(
    alloc: Global,
    seed: Seed,
    disk: MemoryDisk,
    requests: Vec<u8>,
    written: &mut Vec<u8>,
) -> Result<MemoryDisk, AllocError>
    ensures { (history : List Entry) → HasStore history disk → IfOk result (λ left.
        (after : List Entry) × (text : List ℕ) × IsVisit history requests.items after text
        × HasStore after left × (written.new.items ≡ written.old.items ++ text)) }
{
    let routes = Routes::new(alloc)?;
    let Ok(core) = open_store(alloc, seed, disk) else {
        return Err(AllocError);
    };
    let mut connection = Connection {
        input: MemorySource::new(alloc, requests),
        out: MemorySink::new(alloc),
        clock: FixedClock::new(MOMENT),
    };
    let (end, core) = serve_connection(alloc, core, routes, &mut connection);
    let disk = calm(close_store(core))?;
    if !is_over(end) {
        return Err(AllocError);
    }
    written.extend_from_slice(connection.out.bytes())?;
    Ok(disk)
}

// ---- what is printed

// How much the machine holds.
#[tactic(auto, using(fedi_report::proofs::RowLemmas::row_for_each))]
fn held<P: Keeper>(core: &Core<IndexedShelf, P>) -> Held
    requires { IsLegal core.now.history }
    ensures { result ≡ held_of core.now.history }
{
    Held {
        entries: core.count(),
        activities: core.facts().activities() as u64,
        queue: core.rows().len() as u64,
    }
}

// How much the store of the disk holds.
#[tactic(auto, using(fedi_startup::proofs::OneAnswer::one_history))]
fn count(alloc: Global, seed: Seed, disk: MemoryDisk) -> Result<Held, AllocError>
    ensures { (history : List Entry) → HasStore history disk
        → IfOk result (λ held. held ≡ held_of history) }
{
    let Ok(core) = open_store(alloc, seed, disk) else {
        return Err(AllocError);
    };
    Ok(held(&core))
}

/// The text of the demonstration with this number: 2,000 requests of eight members of a town in
/// memory are served on two connections. The requests are chosen by numbers that are drawn,
/// starting from this one. The text says how many replies had each status, how much the town's
/// store then holds, and the length and the digest of everything that was written on the
/// connections. The error is out of memory.
pub fn demonstration(alloc: Global, seed: Seed, number: u16) -> Result<Vec<u8>, AllocError>
    ensures { IfOk result (λ text. IsDemo number text.items) }
{
    let (first, second) = connections(alloc, number)?;
    let mut written = Vec::new(alloc);
    let disk = found(alloc, seed)?;
    let disk = visit(alloc, seed, disk, first, &mut written)?;
    let disk = visit(alloc, seed, disk, second, &mut written)?;
    let held = count(alloc, seed, disk)?;
    summary(alloc, number, held, &written)
}

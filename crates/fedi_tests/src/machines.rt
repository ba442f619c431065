//! A machine that goes on from its records, as after a crash, and one whose keeper has no room.

use crate::cases::{SECONDS, seed};
use crate::delivering::WAITING;
use crate::example::TOWN;
use crate::tables::crowded;
use fedi_core::{Core, RecordFault};
use fedi_objects::{Came, Sent, What};
use fedi_outside::{Keeper, MemoryKeeper};
use fedi_rows::{expect, leaked};
use fedi_text::Moment;
use fedi_visible::PlainShelf;
use std::alloc::Global;
use std::test::Fail;

fn add<K: Keeper>(keeper: &mut K, record: &[u8]) -> Result<(), Fail> {
    keeper.reserve(record.len())?;
    keeper.settle()?;
    keeper.append(record)?;
    Ok(())
}

// Whether the machine has the example town once it is opened again.
fn reopens(alloc: Global, core: &mut Core<PlainShelf, MemoryKeeper>) -> Result<bool, Fail> {
    core.settle()?;
    let opened = core.reopen(alloc, PlainShelf::empty(alloc, seed())?);
    Ok(opened.is_ok() && core.count() == 7 && core.facts().activities() == 2)
}

fn is_opened_again(alloc: Global) -> Result<bool, Fail> {
    let mut keeper = MemoryKeeper::new(alloc);
    for record in &TOWN {
        add(&mut keeper, record)?;
    }
    keeper.settle()?;
    match Core::open(alloc, PlainShelf::empty(alloc, seed())?, keeper) {
        Ok(core) => {
            let mut core = leaked(core);
            reopens(alloc, &mut core)
        }
        Err(_) => Ok(false),
    }
}

#[test]
fn a_machine_goes_on_from_its_records(rt: HostRuntime) -> Result<(), Fail> {
    expect(is_opened_again(rt.alloc())?, "the example town")
}

// Whether an attempt for which there is no room is refused, and its delivery, which is the first of
// two that are due, is then claimed again.
fn releases(alloc: Global, core: &mut Core<PlainShelf, MemoryKeeper>) -> bool {
    let now = Moment::clamped(SECONDS);
    let Some(claim) = core.claim(now) else {
        return false;
    };
    let (activity, recipient, moment) = (claim.activity, claim.recipient, claim.moment);
    let came = Came {
        step: Sent::Lookup,
        what: What::Failed,
    };
    let recorded = core.record(alloc, claim, came, moment);
    let Some(again) = core.claim(now) else {
        return false;
    };
    let is_same = again.activity == activity && again.recipient == recipient;
    core.release(again);
    recorded == Err(RecordFault::Full) && is_same && core.count() == 7
}

fn is_released(alloc: Global) -> Result<bool, Fail> {
    let mut keeper = crowded(alloc, &WAITING)?;
    keeper.settle()?;
    match Core::open(alloc, PlainShelf::empty(alloc, seed())?, keeper) {
        Ok(core) => {
            let mut core = leaked(core);
            Ok(releases(alloc, &mut core))
        }
        Err(_) => Ok(false),
    }
}

#[test]
fn a_delivery_without_room_for_its_attempt_is_claimed_again(rt: HostRuntime) -> Result<(), Fail> {
    expect(is_released(rt.alloc())?, "the first delivery")
}

//! Serves the connections of many doors at once.
ghost use Rattle.std.specs.Prelude.{◌≡◌, ◌<◌, ℕ, All, IfOk, IsTrue, Option, [], is_some};
ghost use Rattle.std.specs.Prelude.{vec_capacity, vec_len};
ghost use Rattle.fedi_log.specs.Keeping.{state_of};
ghost use Rattle.fedi_logged.specs.Attempts.{told_by};
ghost use Rattle.fedi_logged.specs.Logs.{AreSame};
ghost use Rattle.fedi_queue.specs.Rows.{rows_of};
ghost use Rattle.fedi_town.specs.Histories.{town};
ghost use Rattle.fedi_town.specs.Legal.{IsLegal};
ghost use Rattle.fedi_hall.specs.Serving.{EndsServing, ServesAll};
ghost use Rattle.fedi_hall.specs.Works.{IsWaiting};

use crate::hall::Hall;
use crate::stations::{Station, leave, seat, serve_stations};
use crate::workers::WorkerEnd;
use fedi_core::Core;
use fedi_log::Item;
use fedi_logged::Opened;
use fedi_outside::{Bench, Clock, Door, Keeper, Link};
use fedi_turn::Pass;
use fedi_visible::Shelf;
use std::alloc::{AllocError, Global};
use std::marker::Brand;
use std::sync::Wait;
use std::thread::Threads;

/// How the serving ended.
#[derive(Clone, Copy, Debug, PartialEq, Eq)]
pub enum ServeEnd {
    /// Each door reported that no more connections will come.
    Closed,
    /// A door failed.
    DoorFault,
    /// Memory ran out before the first connection.
    Memory,
}

impl From<WorkerEnd> for ServeEnd {
    ghost use Rattle.std.specs.Prelude.{◌≡◌};
    ghost use Rattle.fedi_hall.specs.Serving.{end_by};

    ghost from_gives = { λ end made. made ≡ end_by end };

    fn from(end: WorkerEnd) -> Self {
        match end {
            WorkerEnd::Closed => ServeEnd::Closed,
            WorkerEnd::DoorFault => ServeEnd::DoorFault,
        }
    }
}

/// What is left of a machine and its benches after they were served.
#[derive(Drop)]
pub struct Served<S: Shelf, P: Keeper, W, K> {
    pub end: ServeEnd,
    pub core: Core<S, P>,
    /// The benches, in their original order.
    pub benches: Vec<Bench<W, K>>,
}

// Room for the stations, passes and benches of this many workers.
#[derive(Drop)]
struct Room<W, K> {
    stations: Vec<Station<W, K>>,
    passes: Vec<Pass<Item>>,
    benches: Vec<Bench<W, K>>,
}

// Makes the room. The error is out of memory.
fn make_room<W: Drop, K: Drop>(alloc: Global, count: usize) -> Result<Room<W, K>, AllocError>
    ensures empty { IfOk result (λ room. (room.stations.items ≡ [])
        × (room.passes.items ≡ []) × (room.benches.items ≡ [])) }
    ensures spare { IfOk result (λ room. (vec_capacity room.stations ≡ count)
        × (vec_capacity room.passes ≡ count) × (vec_capacity room.benches ≡ count)) }
{
    Ok(Room {
        stations: Vec::with_capacity(alloc, count)?,
        passes: Vec::with_capacity(alloc, count)?,
        benches: Vec::with_capacity(alloc, count)?,
    })
}

// The result if memory ran out and no door was asked.
fn unserved<S: Shelf + Drop, P: Keeper, O: Opened, W: Door, K: Link>(
    core: Core<S, P>,
    benches: Vec<Bench<W, K>>,
) -> Served<S, P, W, K>
    requires opened { O.state ≡ state_of core.history (P.shown core.keeper) }
    requires crashes { AreSame O.crashes (P.crashes core.keeper) }
    requires legal { IsLegal core.history }
    ensures served { (told : Option ℕ) → ServesAll P.growth P.room told O.state O.crashes
        (state_of result.core.history (P.shown result.core.keeper)) (P.crashes result.core.keeper)
        W.served (told_by K.asked K.heard K.link_faults) benches.items result.benches.items }
    ensures end { result.end ≡ ServeEnd.Memory }
    ensures core { result.core ≡ core }
    ensures benches { result.benches ≡ benches }
{
    Served {
        end: ServeEnd::Memory,
        core,
        benches,
    }
}

fn serve_opened<
    R: Threads + Wait + Sync,
    S: Shelf + Drop + Send,
    P: Keeper + Drop + Send,
    O: Opened + Send,
    W: Door + Send + Drop,
    K: Link + Send + Drop,
    C: Clock + Sync,
>(
    rt: &R,
    alloc: Global,
    core: Core<S, P>,
    benches: Vec<Bench<W, K>>,
    clock: &C,
) -> Served<S, P, W, K>
    requires some { 0 < vec_len benches }
    requires waiting { All (λ b. IsWaiting W.out W.idle b.door) benches.items }
    requires unclaimed { core.rows ≡ rows_of (town core.history) }
    requires opened { O.state ≡ state_of core.history (P.shown core.keeper) }
    requires crashes { AreSame O.crashes (P.crashes core.keeper) }
    requires hosted { IsTrue (is_some (town core.history).host) }
    requires legal { IsLegal core.history }
    ensures served { ServesAll P.growth P.room (C.told clock.now) O.state O.crashes
        (state_of result.core.history (P.shown result.core.keeper)) (P.crashes result.core.keeper)
        W.served (told_by K.asked K.heard K.link_faults) benches.items result.benches.items }
    ensures ends { EndsServing W.closed W.faults benches.items result.benches.items result.end }
    ensures waiting { All (λ b. IsWaiting W.out W.idle b.door) result.benches.items }
    ensures back { result.end ≡ ServeEnd.Memory → result.core ≡ core }
{
    let Ok(room) = make_room(alloc, benches.len()) else {
        return unserved::<S, P, O, W, K>(core, benches);
    };
    let (hall, passes) = match Hall::<S, P, O>::new(alloc, core, benches.len() as u64) {
        Ok(made) => made,
        Err(core) => return unserved::<S, P, O, W, K>(core, benches),
    };
    let Room {
        stations,
        passes: mut passes_back,
        benches: mut benches_back,
    } = room;
    let stations = seat(stations, passes, benches);
    let Hall { lock, lobby } = &hall;
    let stations = serve_stations(rt, alloc, lock, lobby, stations, clock);
    let end = leave(stations, &mut passes_back, &mut benches_back);
    match hall.close(rt, passes_back) {
        Ok(core) => Served {
            end: ServeEnd::from(end),
            core,
            benches: benches_back,
        },
        Err(_) => unreachable!(),
    }
}

/// Serves the connections of all benches at once over the machine, and delivers while none are
/// waiting. Each bench has one worker, in a thread of its own. It returns after all workers have
/// ended, and hands the machine and the benches back with how it ended.
pub fn serve_core<
    R: Threads + Wait + Sync,
    S: Shelf + Drop + Send,
    P: Keeper + Drop + Send,
    W: Door + Send + Drop,
    K: Link + Send + Drop,
    C: Clock + Sync,
>(
    rt: &R,
    alloc: Global,
    core: Core<S, P>,
    benches: Vec<Bench<W, K>>,
    clock: &C,
) -> Served<S, P, W, K>
    requires some { 0 < vec_len benches }
    requires waiting { All (λ b. IsWaiting W.out W.idle b.door) benches.items }
    requires unclaimed { core.rows ≡ rows_of (town core.history) }
    requires hosted { IsTrue (is_some (town core.history).host) }
    requires legal { IsLegal core.history }
    // At the end the machine holds one log, and each item after the history that it began with
    // names one worker. What each worker read and wrote on the lines of its door are conversations
    // over this log, one after another. What it asked and heard over its link are attempts of
    // deliveries that were due and that nobody else had.
    ensures served { ServesAll P.growth P.room (C.told clock.now)
        (state_of core.history (P.shown core.keeper)) (P.crashes core.keeper)
        (state_of result.core.history (P.shown result.core.keeper)) (P.crashes result.core.keeper)
        W.served (told_by K.asked K.heard K.link_faults) benches.items result.benches.items }
    ensures ends { EndsServing W.closed W.faults benches.items result.benches.items result.end }
    ensures waiting { All (λ b. IsWaiting W.out W.idle b.door) result.benches.items }
    ensures back { result.end ≡ ServeEnd.Memory → result.core ≡ core }
{
    serve_opened::<R, S, P, Brand, W, K, C>(rt, alloc, core, benches, clock)
}

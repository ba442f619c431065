//! Workers side by side.
ghost use Rattle.std.specs.Prelude.{◌≡◌, ◌<◌, ◌≤◌, ℕ, All, Some, [], length, map, reverse};
ghost use Rattle.std.specs.Prelude.{slice_index_or, vec_capacity, vec_len};
ghost use denote.Param.Send.{IsSend, IsSync};
ghost use Rattle.fedi_logged.specs.Attempts.{told_by};
ghost use Rattle.fedi_town.specs.Histories.{town};
ghost use Rattle.fedi_hall.specs.Lobbies.{IsLobbyOf};
ghost use Rattle.fedi_hall.specs.Locks.{IsIdleBy};
ghost use Rattle.fedi_hall.specs.Stations.{IsLabor, IsReady, bench_of, end_of, ends_of, pass_of};
ghost use Rattle.fedi_hall.specs.declared.stations.Station.{Station};

use crate::hall::Lobby;
use crate::shared::Shared;
use crate::workers::{WorkerEnd, worker};
use fedi_log::Item;
use fedi_logged::{Logged, Opened};
use fedi_outside::{Bench, Clock, Door, Keeper, Link};
use fedi_turn::{Pass, TurnLock};
use fedi_visible::Shelf;
use std::alloc::Global;
use std::sync::Wait;
use std::thread;
use std::thread::Threads;

/// A pass at a bench, and how its worker ended.
#[derive(Drop)]
pub struct Station<W, K> {
    pub pass: Pass<Item>,
    pub bench: Bench<W, K>,
    pub end: WorkerEnd,
}

/// Puts each pass at a bench, starting from the last ones, in stations that there is room for.
pub(crate) fn seat<W: Drop, K: Drop>(
    room: Vec<Station<W, K>>,
    passes: Vec<Pass<Item>>,
    benches: Vec<Bench<W, K>>,
) -> Vec<Station<W, K>>
    requires empty { room.items ≡ [] }
    requires same { vec_len passes ≡ vec_len benches }
    requires room { vec_len benches ≤ vec_capacity room }
    ensures passes { map pass_of result.items ≡ reverse passes.items }
    ensures benches { map bench_of result.items ≡ reverse benches.items }
    ensures len { vec_len result ≡ vec_len benches }
{
    let (mut stations, mut passes, mut benches) = (room, passes, benches);
    while let Some(bench) = benches.pop() {
        let Some(pass) = passes.pop() else {
            unreachable!()
        };
        stations.push_reserved(Station {
            pass,
            bench,
            end: WorkerEnd::Closed,
        });
    }
    stations
}

/// Returns the passes and the benches from the stations, in lists that have room for them, and says
/// how the workers ended.
pub(crate) fn leave<W: Drop, K: Drop>(
    stations: Vec<Station<W, K>>,
    passes: &mut Vec<Pass<Item>>,
    benches: &mut Vec<Bench<W, K>>,
) -> WorkerEnd
    requires no_passes { passes.old.items ≡ [] }
    requires no_benches { benches.old.items ≡ [] }
    requires room_for_passes { vec_len stations ≤ vec_capacity passes.old }
    requires room_for_benches { vec_len stations ≤ vec_capacity benches.old }
    ensures passes { passes.new.items ≡ reverse (map pass_of stations.items) }
    ensures benches { benches.new.items ≡ reverse (map bench_of stations.items) }
    ensures ends { result ≡ ends_of (reverse (map end_of stations.items)) }
    ensures len { vec_len passes.new ≡ vec_len stations }
{
    let mut stations = stations;
    let mut all = WorkerEnd::Closed;
    while let Some(Station { pass, bench, end }) = stations.pop() {
        passes.push_reserved(pass);
        benches.push_reserved(bench);
        all = all.and(end);
    }
    all
}

/// Runs one worker for each station, each in a thread of its own, until all have ended.
pub fn serve_stations<
    R: Threads + Wait + Sync,
    S: Shelf + Drop + Send,
    P: Keeper + Drop + Send,
    O: Opened + Send,
    W: Door + Send + Drop,
    K: Link + Send + Drop,
    C: Clock + Sync,
>(
    rt: &R,
    alloc: Global,
    lock: &TurnLock<Logged<S, P, O>>,
    lobby: &Lobby,
    stations: Vec<Station<W, K>>,
    clock: &C,
) -> Vec<Station<W, K>>
    requires some { 0 < vec_len stations }
    requires lobby { IsLobbyOf (town O.state.history) lobby.now }
    requires ready { All (IsReady (λ l. l.log) W.out W.idle lock.now) stations.items }
    ensures ready { All (IsReady (λ l. l.log) W.out W.idle lock.now) result.items }
    ensures len { vec_len result ≡ vec_len stations }
    ensures same { length result.items ≡ length stations.items }
    ensures each { (k : ℕ) (d : Station W K) → k < length stations.items
        → IsLabor P.growth P.room (C.told clock.now) O.state W.served
        (told_by K.asked K.heard K.link_faults) W.closed W.faults
        (slice_index_or stations.items k d) (slice_index_or result.items k d) }
{
    let mut stations = stations;
    let count = stations.len();
    thread::for_each_mut(
        rt,
        stations.as_mut_slice(),
        count,
        &|_, station|
            requires { IsSend W.row × IsSend W.L.row × IsSend K.row
                × IsLobbyOf (town O.state.history) lobby.now
                × IsReady (λ l. l.log) W.out W.idle lock.now station.old }
            ensures { IsReady (λ l. l.log) W.out W.idle lock.entry.now station.new
                × IsLabor P.growth P.room (C.told clock.entry.now) O.state
                W.served (told_by K.asked K.heard K.link_faults) W.closed W.faults
                station.old station.new }
        { labor(rt, alloc, lock, lobby, station, clock) },
    );
    stations
}

/// Runs a worker at the station until it has ended.
fn labor<R: Wait, S: Shelf + Drop, P: Keeper + Drop, O: Opened, W: Door, K: Link, C: Clock>(
    rt: &R,
    alloc: Global,
    lock: &TurnLock<Logged<S, P, O>>,
    lobby: &Lobby,
    station: &mut Station<W, K>,
    clock: &C,
)
    requires lobby { IsLobbyOf (town O.state.history) lobby.now }
    requires ready { IsReady (λ l. l.log) W.out W.idle lock.now station.old }
    ensures ready { IsReady (λ l. l.log) W.out W.idle lock.now station.new }
    ensures labor { IsLabor P.growth P.room (C.told clock.now) O.state W.served
        (told_by K.asked K.heard K.link_faults) W.closed W.faults
        station.old station.new }
{
    let Station { pass, bench, end } = station;
    let mut shared = Shared {
        rt,
        lock,
        lobby,
        pass,
    };
    *end = worker(rt, alloc, &mut shared, bench, clock);
}

//! Serving the connections of many doors at once, over the store of a disk.

ghost use Rattle.std.specs.Prelude.{◌≡◌, ◌<◌, ℕ, All, List, Some, true, vec_len};
ghost use Rattle.fedi_hall.specs.Works.{IsWaiting};
ghost use Rattle.fedi_program.specs.Commands.{Serve};
ghost use Rattle.fedi_program.specs.Runs.{is_status_of};
ghost use Rattle.fedi_program.specs.Seen.{medium};
ghost use Rattle.fedi_program.specs.Serving.{AreWaiting, ServesDoors, status_after};
ghost use Rattle.fedi_program.specs.Stores.{IsKeptSafe};

use crate::running::Ended;
use crate::statuses::{DONE, DOOR_FAULT, OUT_OF_MEMORY};
use crate::stores::status_by;
use fedi_effects::Seed;
use fedi_hall::{ServeEnd, Served, serve_core};
use fedi_outside::{Bench, Clock, Disk, Door, Link};
use fedi_startup::{close_store, open_store};
use std::alloc::Global;
use std::sync::Wait;
use std::thread::Threads;

fn status_after(end: ServeEnd) -> u8
    ensures { result ≡ status_after end }
{
    match end {
        ServeEnd::Closed => DONE,
        ServeEnd::DoorFault => DOOR_FAULT,
        ServeEnd::Memory => OUT_OF_MEMORY,
    }
}

/// Serves the connections that the doors of the benches give, over the store of the disk, and
/// delivers what is due while no connection waits. Each bench has a worker in a thread of its own,
/// until each door has closed or failed.
pub(crate) fn serve<
    R: Threads + Wait + Sync,
    D: Disk + Send + Drop,
    W: Door + Send + Drop,
    K: Link + Send + Drop,
    C: Clock + Sync,
>(
    rt: &R,
    alloc: Global,
    seed: Seed,
    clock: &C,
    disk: D,
    second: D,
    benches: Vec<Bench<W, K>>,
) -> Ended<D, W, K>
    requires some { 0 < vec_len benches }
    requires waiting { All (λ b. IsWaiting W.out W.idle b.door) benches.items }
    ensures served { ServesDoors W.Door K.Link (C.told clock.now)
        (medium D.Disk disk) (medium D.Disk result.disk)
        benches.items result.benches.items result.status }
    ensures safe { IsKeptSafe (medium D.Disk disk) (medium D.Disk result.disk) }
    ensures statuses { (address : List ℕ)
        → is_status_of (Some (Serve address)) result.status ≡ true }
    ensures waiting { AreWaiting W.Door result.benches.items }
    ensures second { result.second ≡ second }
{
    match open_store(alloc, seed, disk) {
        Ok(core) => {
            let Served { end, core, benches } = serve_core(rt, alloc, core, benches, clock);
            Ended {
                status: status_after(end),
                disk: close_store(core),
                second,
                benches,
            }
        }
        Err((fault, disk)) => Ended {
            status: status_by(fault),
            disk,
            second,
            benches,
        },
    }
}

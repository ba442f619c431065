//! Workers.
ghost use Rattle.std.specs.Prelude.{◌≡◌};
ghost use Rattle.fedi_logged.specs.Attempts.{told_by};
ghost use Rattle.fedi_logged.specs.Turning.{setting_at};
ghost use Rattle.fedi_hall.specs.Works.{EndsWork, HasWorked, IsWaiting, both};

use fedi_logged::{Answers, Delivers, deliver_one, session};
use fedi_outside::{Bench, Clock, Door, Link, Turn};
use std::alloc::Global;
use std::sync::Wait;

/// How a worker ended.
#[derive(Clone, Copy, Debug, PartialEq, Eq)]
pub enum WorkerEnd {
    /// Its door reported that no more connections will come.
    Closed,
    /// Its door failed.
    DoorFault,
}

impl WorkerEnd {
    /// How two workers ended: the door of one failed, or both closed.
    pub(crate) fn and(self, other: WorkerEnd) -> WorkerEnd
        ensures { result ≡ both self other }
    {
        match self {
            WorkerEnd::Closed => other,
            WorkerEnd::DoorFault => WorkerEnd::DoorFault,
        }
    }
}

/// Serves the connections of the bench's door, one after another, until the door closes or fails.
/// Each line that the door gave is returned to it, and a fault of a line ends only that line.
/// Whenever no connection is waiting, one delivery that is due is attempted over the bench's link,
/// and the result is reported to the door.
pub fn worker<R: Wait, T: Answers + Delivers, W: Door, K: Link, C: Clock>(
    rt: &R,
    alloc: Global,
    turns: &mut T,
    bench: &mut Bench<W, K>,
    clock: &C,
) -> WorkerEnd
    requires ready { T.ready turns.old }
    requires waiting { IsWaiting W.out W.idle bench.old.door }
    ensures ready { T.ready turns.new }
    ensures same { T.same turns.old turns.new }
    ensures waiting { IsWaiting W.out W.idle bench.new.door }
    // The door has one more row for each line and for each rest, and the link has one more exchange
    // for each that a step of delivery made. By each row the log extends what was seen before it.
    ensures worked { HasWorked (setting_at (T.by turns.old) (C.told clock.now) T.base)
        (T.seen turns.old) (T.seen turns.new) (W.served bench.old.door) (W.served bench.new.door)
        (told_by K.asked K.heard K.link_faults bench.old.link)
        (told_by K.asked K.heard K.link_faults bench.new.link) }
    ensures ends { EndsWork (W.closed bench.new.door)
        (W.faults bench.old.door) (W.faults bench.new.door) result }
{
    for _ in rt.forever() {
        match bench.door.next() {
            Turn::Line(line) => {
                let mut line = line;
                session(alloc, turns, &mut line, clock);
                bench.door.back(line);
            }
            Turn::Idle => {
                let step = deliver_one(alloc, turns, &mut bench.link, clock);
                bench.door.rested(step.rest());
            }
            Turn::Closed => return WorkerEnd::Closed,
            Turn::Failed => return WorkerEnd::DoorFault,
        }
    }
    unreachable!()
}

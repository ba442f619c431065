//! Where connections come from.
ghost use Rattle.std.specs.Prelude.{◌≡◌, ℕ, Bool, List, None, Option, Some, false, is_some, true};
ghost use Rattle.fedi_outside.specs.Doors.{Coming, Gives, IsTurnCounted, Rested, Row, Served};
ghost use Rattle.fedi_outside.specs.Doors.{spoken_by, with_row};

use crate::{Line, Rest, Turn};

/// Where connections come from, one after the other. Each line that it gives is handed back before
/// it is asked again. Each time that no connection waits, what was done meanwhile is reported to
/// it.
pub trait Door {
    type L: Line + Drop + Send;

    /// The line that it gave and that has not come back yet, as it came.
    ghost out: { Self → Option Coming };

    /// Whether it said that no connection waits, and the report of what was done is still due.
    ghost idle: { Self → Bool };

    /// One row for each line that came back and for each rest that was reported to it, in order, if
    /// it reports them.
    ghost served: { Self → Option (List Row) };

    /// Whether its last turn said that there will be no more connections.
    ghost closed: { Self → Bool };

    /// How often it failed. The count saturates at 2^64 - 1.
    ghost faults: { Self → ℕ };

    /// The next turn. On a line that it gives, nothing was sent and no call has failed.
    fn next(&mut self) -> Turn<Self::L>
        requires out { out self.old ≡ None }
        requires idle { idle self.old ≡ false }
        ensures gives { Gives Self.L.left Self.L.sent Self.L.read_faults Self.L.write_faults
            (out self.new) (idle self.new) (closed self.new) result }
        ensures served { served self.new ≡ served self.old }
        ensures cause { IsTurnCounted (faults self.old) (faults self.new) result };

    /// Takes a line back. It allocates no memory.
    fn back(&mut self, line: Self::L)
        requires out { is_some (out self.old) ≡ true }
        requires idle { idle self.old ≡ false }
        ensures out { out self.new ≡ None }
        ensures idle { idle self.new ≡ false }
        ensures served { (came : Coming) → out self.old ≡ Some came → served self.new ≡ with_row
            (Served (spoken_by Self.L.left Self.L.sent Self.L.read_faults Self.L.write_faults
            came line)) (served self.old) }
        ensures faults { faults self.new ≡ faults self.old };

    /// Takes note of what was done while no connection waited. It allocates no memory.
    fn rested(&mut self, rest: Rest)
        requires out { out self.old ≡ None }
        requires idle { idle self.old ≡ true }
        ensures out { out self.new ≡ None }
        ensures idle { idle self.new ≡ false }
        ensures served { served self.new ≡ with_row (Rested rest) (served self.old) }
        ensures faults { faults self.new ≡ faults self.old };
}

/// What one worker serves and delivers with: where connections come from, and how requests are
/// sent.
#[derive(Drop)]
pub struct Bench<W, K> {
    pub door: W,
    pub link: K,
}

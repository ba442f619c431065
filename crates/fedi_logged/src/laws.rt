//! Laws of turns, each the contract of a function that does nothing.
ghost use Rattle.std.specs.Prelude.{◌≡◌, ◌≤◌, ◌++◌, ℕ, List, Option, length, map};
ghost use Rattle.fedi_entry.specs.Codes.{code_of};
ghost use Rattle.fedi_core.specs.Machines.{Machine};
ghost use Rattle.fedi_log.specs.Keeping.{Base, Holds, since};
ghost use Rattle.fedi_log.specs.Leaving.{CrashesAfter, IsLeftAfter};
ghost use Rattle.fedi_log.specs.Log.{Log, Outcome, history_of, items_of};
ghost use Rattle.fedi_logged.specs.Claiming.{ChangesClaims};
ghost use Rattle.fedi_logged.specs.Turns.{Turns, standing_by};

use fedi_outside::Keeper;

/// What was acknowledged survives a crash at any later moment, before or after the end of its
/// session.
///
/// After an exchange is over, a crash leaves the records of the whole log at that moment, followed
/// by at most the one in doubt (`now`). Each further turn adds only what comes after that log: a
/// request's turn and the turn that records an attempt (`on`), and so does a turn that claims or
/// releases deliveries, which leaves the keeper as it was (`claims`). So whatever a crash since that moment leaves begins with the records of the opening and
/// of everything that was kept up to then (`entries`), and ends a life whose log extends that log.
pub fn acknowledged_entries_survive<P: Keeper>()
    ensures now { (b : Base) (log : Log) (core : Machine P)
        → let is = standing_by P.shown P.crashes core in Holds b is.state log
        → CrashesAfter b log log is.crashes.clock is.crashes }
    ensures on { (b : Base) (by : Option ℕ) (seen more log : Log) (moment : ℕ) (o : Outcome)
        (before after : Machine P) → let was = standing_by P.shown P.crashes before in
        let is = standing_by P.shown P.crashes after in Holds b was.state log
        → log ≡ seen ++ more → moment ≤ was.crashes.clock
        → CrashesAfter b seen log moment was.crashes → Turns b.growth was is o
        → CrashesAfter b seen (log ++ items_of by o) moment is.crashes }
    ensures claims { (b : Base) (seen log claims : Log) (moment : ℕ) (before after : Machine P)
        → let was = standing_by P.shown P.crashes before in
        let is = standing_by P.shown P.crashes after in CrashesAfter b seen log moment was.crashes
        → ChangesClaims before after → CrashesAfter b seen (log ++ claims) moment is.crashes }
    ensures entries { (b : Base) (seen log : Log) (kept left : List (List ℕ))
        → b.kept ≤ length seen → IsLeftAfter b seen log kept left → (more : List (List ℕ))
        × (left ≡ (kept ++ map code_of (history_of (since b seen))) ++ more) }
{}

//! Laws of workers, each the contract of a function that does nothing.
ghost use Rattle.std.specs.Prelude.{◌≡◌, ℕ, List, Option, Some};
ghost use Rattle.fedi_log.specs.Log.{Log};
ghost use Rattle.fedi_log.specs.declared.items.Item.{Item};
ghost use Rattle.fedi_delivery.specs.Exchanges.{Told};
ghost use Rattle.fedi_outside.specs.Doors.{Row};
ghost use Rattle.fedi_logged.specs.Conversations.{Setting};
ghost use Rattle.fedi_turn.specs.Record.{Continues};
ghost use Rattle.fedi_hall.specs.Works.{HasWorked};

/// The work of a worker remains valid over a log that extends what its pass has seen by items of
/// others, so it is valid over the log at the end.
pub fn work_stays()
    ensures { (w : Setting) (n : ℕ) (seen now log : Log) (before after : Option (List Row))
        (asked heard : Told)
        → w.by ≡ Some n → Continues (λ (i : Item). i.pass) n now log
        → HasWorked w seen now before after asked heard
        → HasWorked w seen log before after asked heard }
{}

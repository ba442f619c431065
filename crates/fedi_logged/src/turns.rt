//! A machine that is used in turns.
ghost use Rattle.std.specs.Prelude.{◌≡◌, ℕ, IfOk, OnErr, Option};
ghost use Rattle.fedi_log.specs.Keeping.{Base};
ghost use Rattle.fedi_log.specs.Log.{Goes, Log};
ghost use Rattle.fedi_logged.specs.Turning.{TurnTells};

use fedi_model::Request;
use fedi_text::Moment;
use std::alloc::{AllocError, Global};

/// A machine that is used in turns. Between two turns others may add to the log of the machine.
pub trait Turns {
    /// The number of the pass that it adds to the log as, if others add to the log too.
    ghost by: { Self → Option ℕ };

    /// The keeper of the machine at the opening.
    ghost base: { Base };

    /// The log as it was last seen.
    ghost seen: { Self → Log };

    /// What each turn requires, and preserves.
    ghost ready: { Self → Type 0 };

    /// From the first state to the second, everything that no turn changes is the same: its pass,
    /// and what it borrows.
    ghost same: { Self → Self → Type 0 };

    /// Without a turn, nothing changes.
    ghost same_none: { (turns : Self) → same turns turns };

    /// What neither of two turns changes stays the same over both.
    ghost same_both: { (first middle last : Self)
        → same first middle → same middle last → same first last };

    /// The pass is part of it.
    ghost same_by: { (before after : Self) → same before after → by after ≡ by before };
}

/// A machine that serves one connection after another: it answers requests, each in one turn.
pub trait Answers: Turns {
    /// Answers a request that has this body in one turn. Returns the text of the reply, which has
    /// no body if the method is HEAD and says that the connection closes if `closing`. The error is
    /// out of memory, and then nothing was kept, and the keeper did not fail.
    fn answer(
        &mut self,
        alloc: Global,
        request: &Request,
        body: &[u8],
        moment: Moment,
        closing: bool,
    ) -> Result<Vec<u8>, AllocError>
        requires ready { Self.ready self.old }
        ensures ready { Self.ready self.new }
        ensures same { Self.same self.old self.new }
        ensures text { IfOk result (λ text. TurnTells Self.base (Self.by self.old)
            (Self.seen self.old) (Self.seen self.new)
            moment request.now body.now closing text.items) }
        ensures lacking { OnErr result
            (Goes (Self.by self.old) (Self.seen self.old) (Self.seen self.new)) };
}

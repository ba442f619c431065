//! Laws of conversations, each the contract of a function that does nothing.

ghost use Rattle.std.specs.Prelude.{◌≡◌, ◌+◌, ◌≤◌, ◌++◌, ℕ, List, All, Option, Some, length};
ghost use Rattle.fedi_log.specs.declared.items.Item.{Item};
ghost use Rattle.fedi_log.specs.Log.{Added, IsOthers, Log, marks_of};
ghost use Rattle.fedi_logged.specs.Conversations.{AreAtFronts, AreCalm, Conversation, Converses};
ghost use Rattle.fedi_logged.specs.Conversations.{Exchange, IsAtEnd, NoGaps, Progress, Setting};
ghost use Rattle.fedi_logged.specs.Conversations.{StandApart, failures, own_items, progress};

/// A conversation over a log that nobody else adds to has no gaps: each request is answered at the
/// log that the one before it left.
pub fn conversations_have_no_gaps()
    ensures { (w : Setting) (p : Progress) (xs : List Exchange) (past rest : Log) → Converses w p xs
        → p.log ++ past ≡ (progress w p xs).log ++ rest → All (λ (i : Item). i.pass ≡ w.by) past
        → NoGaps w p xs }
{}

/// Over one input, at one moment and from one beginning, there is only one conversation without
/// gaps and with a keeper that never fails: the replies, the bytes and the entries are determined.
pub fn conversations_are_determined()
    ensures { (w : Setting) (seconds : ℕ) (p : Progress) (xs ys : List Exchange)
        → w.told ≡ Some seconds → Converses w p xs → Converses w p ys
        → NoGaps w p xs → NoGaps w p ys → AreCalm xs → AreCalm ys
        → IsAtEnd (progress w p xs) → IsAtEnd (progress w p ys) → xs ≡ ys }
{}

/// A conversation remains one over a log that others add to.
pub fn conversations_stay()
    ensures { (w : Setting) (seen log more : Log) (input written : List ℕ) (xs : List Exchange)
        → Conversation w seen log input written xs → All (IsOthers w.by) more
        → Conversation w seen (log ++ more) input written xs }
{}

/// The items after what was seen that name the pass of a conversation are those of its exchanges,
/// in order.
pub fn conversations_own_their_items()
    ensures { (w : Setting) (seen log : Log) (input written : List ℕ) (xs : List Exchange)
        → Conversation w seen log input written xs → Added w.by seen log (own_items w.by xs) }
{}

/// Each request is answered at a position of the log, its own item is there, and no two share one.
pub fn conversations_stand_in_the_log()
    ensures fronts { (w : Setting) (p : Progress) (xs : List Exchange) (log rest : Log)
        → Converses w p xs → log ≡ (progress w p xs).log ++ rest → AreAtFronts w.by log xs }
    ensures apart { (w : Setting) (p : Progress) (xs : List Exchange)
        → Converses w p xs → StandApart w.by (length p.log) xs }
{}

/// Each entry that the keeper failed to keep has its mark in the log.
pub fn failures_are_marked()
    ensures { (w : Setting) (p : Progress) (xs : List Exchange) → Converses w p xs
        → length (marks_of p.log) + length (failures xs) ≤ length (marks_of (progress w p xs).log) }
{}

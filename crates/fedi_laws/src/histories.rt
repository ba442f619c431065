//! What stays true of a growing history.

ghost use Rattle.fedi_laws.specs.Statements.{AsksKeepHistoriesLegal, DueDeliveriesAreQueued};
ghost use Rattle.fedi_laws.specs.Statements.{DueDeliveriesStayDue, MembersHaveTheirIds};

/// The entry that an ask makes may come next, so a legal history stays legal.
#[tactic(auto, using(crate::proofs::Legality::asks_keep_legal))]
pub fn asks_keep_histories_legal()
    ensures { AsksKeepHistoriesLegal }
{}

/// A delivery that is due stays due until it is tried.
#[tactic(auto, using(crate::proofs::Legality::due_stays_due))]
pub fn due_deliveries_stay_due()
    ensures { DueDeliveriesStayDue }
{}

/// What is due is in the queue.
#[tactic(auto, using(crate::proofs::Queued::due_is_queued))]
pub fn due_deliveries_are_queued()
    ensures { DueDeliveriesAreQueued }
{}

/// The id of a member of a legal history is the one that the member's name gives.
pub fn members_have_their_ids()
    ensures { MembersHaveTheirIds }
{}

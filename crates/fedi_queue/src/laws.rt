//! Laws of the waiting deliveries, each the contract of a function that does nothing.

ghost use Rattle.fedi_queue.specs.Due.{AttemptsLeaveTheRest};
ghost use Rattle.fedi_queue.specs.Queues.{ClaimsAreHeld};
ghost use Rattle.fedi_queue.specs.Rows.{AcceptedActivitiesAddRows, AttemptsChangeTheirRows};
ghost use Rattle.fedi_queue.specs.Rows.{DeliveriesHaveOneRow, NextIdsAreNew, RepeatsAddNoRows};
ghost use Rattle.fedi_queue.specs.Rows.{RowsAreDue, RowsAreTheQueue};

/// The rows are the deliveries that have not ended (ActivityPub, section 7.1).
#[tactic(auto, using(crate::proofs::Queued::rows_are_queued))]
pub fn rows_are_the_queue()
    ensures { RowsAreTheQueue }
{}

/// A row that is due is the row of a delivery that is due, so an attempt of it may come next.
#[tactic(auto, using(crate::proofs::Queued::rows_are_due))]
pub fn rows_are_due()
    ensures { RowsAreDue }
{}

/// An activity that is accepted adds its own rows and those of its answer, at the end.
#[tactic(auto, using(crate::proofs::Growing::accepted_rows))]
pub fn accepted_activities_add_rows()
    ensures { AcceptedActivitiesAddRows }
{}

/// An activity from elsewhere that is repeated adds no row: it is forwarded once (ActivityPub,
/// section 7.1.2).
#[tactic(auto, using(crate::proofs::Queued::repeats_add_none))]
pub fn repeats_add_no_rows()
    ensures { RepeatsAddNoRows }
{}

/// An attempt changes only the rows of its delivery.
#[tactic(auto, using(crate::proofs::Trying::attempts_change))]
pub fn attempts_change_their_rows()
    ensures { AttemptsChangeTheirRows }
{}

/// An attempt of the first delivery that is due at its moment leaves exactly the others due, so
/// that each is tried once at one moment (ActivityPub, section 7.1).
#[tactic(auto, using(crate::proofs::Due::attempts_leave))]
pub fn attempts_leave_the_rest()
    ensures { AttemptsLeaveTheRest }
{}

/// A delivery has at most one row.
pub fn deliveries_have_one_row()
    ensures { DeliveriesHaveOneRow }
{}

/// The id of a member's next activity is new.
#[tactic(auto, using(crate::proofs::Queued::next_is_new))]
pub fn next_ids_are_new()
    ensures { NextIdsAreNew }
{}

/// A claim is held until its delivery is tried.
#[tactic(auto, using(crate::proofs::Held::claims_held))]
pub fn claims_are_held()
    ensures { ClaimsAreHeld }
{}

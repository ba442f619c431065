//! The present state of objects and activities.

ghost use Rattle.fedi_laws.specs.Statements.{ActivitiesAreThereOnce, DeletedContentLeavesNoTrace};
ghost use Rattle.fedi_laws.specs.Statements.{ObjectsAreMadeOnce, ObjectsAreReplayed};
ghost use Rattle.fedi_laws.specs.Statements.{TombstonesStay};

/// The present state of an object is the object of its Create, changed by each Update that was
/// done, and a Tombstone from its Delete on (ActivityPub, sections 6.2 to 6.4).
#[tactic(auto, using(crate::proofs::Replaying::town_replays))]
pub fn objects_are_replayed()
    ensures { ObjectsAreReplayed }
{}

/// A Tombstone does not change.
#[tactic(auto, using(crate::proofs::Burial::tombstone_stays))]
pub fn tombstones_stay()
    ensures { TombstonesStay }
{}

/// The content of a deleted object leaves no trace: two histories that differ only in it leave the
/// same town, so no caller learns it from the Delete on (ActivityPub, section 6.4).
#[tactic(auto, using(crate::proofs::Erased::no_trace))]
pub fn deleted_content_leaves_no_trace()
    ensures { DeletedContentLeavesNoTrace }
{}

/// No object is made twice.
pub fn objects_are_made_once()
    ensures { ObjectsAreMadeOnce }
{}

/// No two activities of a legal history have the same id.
pub fn activities_are_there_once()
    ensures { ActivitiesAreThereOnce }
{}

//! Laws of requests and replies.

ghost use Rattle.std.specs.Prelude.{◌≡◌, ℕ, List, IsTrue, Ok};
ghost use Rattle.serde_json.specs.Data.{Data};
ghost use Rattle.fedi_model.specs.declared.ask.Ask.{Ask};
ghost use Rattle.fedi_objects.specs.declared.activity.Activity.{Activity};
ghost use Rattle.fedi_objects.specs.declared.entry.Entry.{Entry};
ghost use Rattle.fedi_reading.specs.Activities.{reads_activity};
ghost use Rattle.fedi_reading.specs.Deliveries.{reads_delivered};
ghost use Rattle.fedi_town.specs.Agreement.{Agree};
ghost use Rattle.fedi_town.specs.Histories.{town};
ghost use Rattle.fedi_town.specs.Legal.{IsLegal};
ghost use Rattle.fedi_town.specs.Shapes.{is_delivered, is_posted};
ghost use Rattle.fedi_town.specs.Towns.{Town};
ghost use Rattle.fedi_town.specs.declared.caller.Caller.{Caller};
ghost use Rattle.fedi_town.specs.declared.refusal.Refusal.{Refusal};
ghost use Rattle.fedi_model.specs.Cleanness.{IsCleanBody};
ghost use Rattle.fedi_model.specs.Refusing.{refused};
ghost use Rattle.fedi_model.specs.Replies.{reply};
ghost use Rattle.fedi_laws.specs.SignedRequests.{SignedDelivery};

/// Legal histories that agree for a caller give the caller the same reply, whatever else they
/// contain.
#[tactic(auto, using(crate::proofs::PrivateReplies::replies_agree))]
pub fn replies_are_private()
    ensures { (g h : List Entry) (c : Caller) (ask : Ask) → IsLegal g → IsLegal h
        → Agree (town g) (town h) c → reply (town g) c ask ≡ reply (town h) c ask }
{}

/// No reply, to any caller and for any ask, names a recipient that `bto` or `bcc` hides
/// (ActivityPub, section 6).
#[tactic(auto, using(crate::proofs::CleanReplies::reply_is_clean))]
pub fn replies_are_clean()
    ensures { (t : Town) (c : Caller) (ask : Ask) → IsCleanBody (reply t c ask).body }
{}

/// No refusal names anybody, whether it replaces a reply or answers something that is not a
/// request.
#[tactic(auto, using(crate::proofs::CleanReplies::refused_is_clean))]
pub fn refusals_are_clean()
    ensures { (refusal : Refusal) → IsCleanBody (refused refusal).body }
{}

/// What is read of a client's post has the shape of a post by its author.
#[tactic(auto, using(fedi_model::proofs::PostedActivity::activity_is_posted))]
pub fn what_is_read_may_be_posted()
    ensures { (d : Data) (a : Activity) (author : List ℕ)
        → reads_activity author d ≡ Ok a → IsTrue (is_posted author a) }
{}

/// What is read of another server's delivery has the shape of a delivery.
#[tactic(auto, using(fedi_model::proofs::Delivered::delivery_is_delivered))]
pub fn what_is_read_may_be_delivered()
    ensures { (d : Data) (a : Activity) → reads_delivered d ≡ Ok a → IsTrue (is_delivered a) }
{}

/// A peer is the caller of a request that it signed. With another code, another body, another host
/// or a field missing, the request is refused.
#[tactic(auto, using(crate::proofs::SignedRequests::signed_delivery))]
pub fn a_delivery_is_signed()
    ensures { SignedDelivery }
{}

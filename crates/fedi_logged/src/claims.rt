//! Deliveries that a pass has claimed.
ghost use Rattle.std.specs.Prelude.{◌≡◌, ◌∷◌, [], ◌++◌, ◌≤◌, ℕ, IfOk, OnErr, Option, Some};
ghost use Rattle.fedi_core.specs.Delivering.{claimed_id, claimed_recipient, keep_fault};
ghost use Rattle.fedi_core.specs.Keeping.{Keeps, fault_by};
ghost use Rattle.fedi_entry.specs.Fields.{MayCome};
ghost use Rattle.fedi_log.specs.Claims.{HasClaimed};
ghost use Rattle.fedi_log.specs.Keeping.{base_of};
ghost use Rattle.fedi_log.specs.Log.{history_of, made_by};
ghost use Rattle.fedi_log.specs.declared.items.Pair.{Pair};
ghost use Rattle.fedi_log.specs.declared.items.What.TheVariants.{Released};
ghost use Rattle.fedi_logged.specs.Claiming.{ChangesClaims, Claims, IsClaimed, IsCrowded};
ghost use Rattle.fedi_logged.specs.Claiming.{IsPostSince, IsSending, Records, TakesUp};
ghost use Rattle.fedi_logged.specs.Claiming.{outcome_of, tried, what_after};
ghost use Rattle.fedi_logged.specs.Logs.{pair_of, what_of};
ghost use Rattle.fedi_logged.specs.Turns.{Turns, standing_by};
ghost use Rattle.fedi_queue.specs.Queues.{IsHeld};
ghost use Rattle.fedi_town.specs.Histories.{town};

use crate::logged::Logged;
use crate::noted::{Deed, Delivery, Noted};
use crate::opened::Opened;
use fedi_address::Iri;
use fedi_core::{Core, RecordFault};
use fedi_delivery::Outgoing;
use fedi_log::Place;
use fedi_objects::Came;
use fedi_outside::Keeper;
use fedi_queue::Claim;
use fedi_text::Moment;
use fedi_visible::Shelf;
use std::alloc::{AllocError, Global};
use std::snapshot::Snapshot;

/// A claimed delivery, and what is sent to deliver it. It is used up by `record` or `release`.
pub struct Sending {
    /// The claim.
    pub claim: Claim,
    /// The recipient.
    pub recipient: Iri,
    /// What is sent, except for the post to the inbox.
    pub outgoing: Outgoing,
}

// The delivery of a claim that is held.
fn delivery_of<S: Shelf + Drop, P: Keeper>(core: &Core<S, P>, claim: &Claim) -> Delivery
    requires { IsHeld claim.now core.now.rows }
    ensures activity { result.activity.value
        ≡ claimed_id (town core.now.history).acts claim.now }
    ensures recipient { result.recipient.value ≡ claimed_recipient core.now.rows claim.now }
{
    Delivery {
        activity: Snapshot::of(core.activity_of(claim)),
        recipient: Snapshot::of(core.recipient_of(claim)),
    }
}

// What an attempt of the delivery adds to the log, given what became of its entry.
fn deed_after(
    delivery: Delivery,
    came: Came,
    moment: Moment,
    recorded: &Result<(), RecordFault>,
) -> Deed
    ensures { what_of result ≡ what_after (pair_of delivery) came moment recorded.now }
{
    match recorded {
        Ok(()) => Deed::Tried {
            delivery,
            came,
            moment,
            kept: true,
        },
        Err(RecordFault::KeeperFault) => Deed::Tried {
            delivery,
            came,
            moment,
            kept: false,
        },
        Err(RecordFault::Full | RecordFault::Memory) => Deed::Released { delivery },
    }
}

impl<S: Shelf + Drop, P: Keeper, O: Opened> Logged<S, P, O> {
    // Claims the first delivery that is due at this moment and not claimed. The error is returned
    // if the log has no room for the claim and for the item that ends it.
    fn claim(&mut self, by: Option<u64>, moment: Moment) -> Result<Option<Claim>, AllocError>
        ensures claimed { IfOk result (Claims by moment self.old.log self.new.log) }
        ensures lacking { OnErr result (self.new.log ≡ self.old.log) }
        ensures crowded { OnErr result (IsCrowded self.old.log) }
        ensures turn { ChangesClaims self.old.core self.new.core }
    {
        if u64::MAX - self.front - self.claimed < 2 {
            return Err(AllocError);
        }
        let Some(claim) = self.core.claim(moment) else {
            return Ok(None);
        };
        let delivery = delivery_of(&self.core, &claim);
        let place = Place {
            activity: claim.activity,
            recipient: claim.recipient,
        };
        self.noted.push(&Noted {
            deed: Deed::Claimed {
                delivery,
                place,
                moment,
            },
            by,
        });
        self.front += 1;
        self.claimed += 1;
        Ok(Some(claim))
    }

    // The recipient of a delivery that some pass has claimed, and what is sent to deliver it.
    fn sent_by(&self, alloc: Global, claim: &Claim) -> Result<(Iri, Outgoing), AllocError>
        requires claimed { (by : Option ℕ) × IsClaimed by self.now.log claim.now }
        ensures { (by : Option ℕ) (p : Pair) → HasClaimed by self.now.log p claim.now
            → IfOk result (λ sent. IsSending (town (history_of self.now.log)) p
            claim.now sent.0 sent.1) }
    {
        let outgoing = self.core.post_of(alloc, claim)?;
        let recipient = self.core.recipient_of(claim).copy()?;
        Ok((recipient, outgoing))
    }

    /// Claims the first delivery that is due at this moment and not claimed, for the pass of this
    /// number, and makes what is sent to deliver it (ActivityPub, section 7.1). Returns `None`
    /// exactly if there is no such delivery. Until the pass records the outcome or releases the
    /// delivery, nobody else is given it.
    ///
    /// The error is out of memory, and then this call leaves nothing claimed. It is also returned
    /// when the log has 2^64 - 2 items, counting one for each claimed delivery: room for the item
    /// that ends a claim is made before the claim.
    pub fn take_up(
        &mut self,
        alloc: Global,
        by: Option<u64>,
        moment: Moment,
    ) -> Result<Option<Sending>, AllocError>
        ensures taken { TakesUp by moment self.old.log self.new.log result }
        ensures turn { ChangesClaims self.old.core self.new.core }
    {
        let Some(claim) = self.claim(by, moment)? else {
            return Ok(None);
        };
        match self.sent_by(alloc, &claim) {
            Ok((recipient, outgoing)) => Ok(Some(Sending {
                claim,
                recipient,
                outgoing,
            })),
            Err(AllocError) => {
                self.release(by, claim);
                Err(AllocError)
            }
        }
    }

    /// The post of the body to the inbox, for the recipient of a delivery that some pass has
    /// claimed (ActivityPub, section 7.1). The error is out of memory.
    pub fn inbox_post(
        &self,
        alloc: Global,
        claim: &Claim,
        inbox: &Iri,
        body: &[u8],
    ) -> Result<Vec<u8>, AllocError>
        requires claimed { (by : Option ℕ) × IsClaimed by self.now.log claim.now }
        ensures { (by : Option ℕ) (p : Pair) → HasClaimed by self.now.log p claim.now
            → IfOk result (λ text. IsPostSince self.now.log p inbox.now body.now text.items) }
    {
        self.core.inbox_post(alloc, claim, inbox, body)
    }

    /// The id of the activity of a delivery that some pass has claimed, and its recipient.
    pub fn claimed_of(&self, claim: &Claim) -> (&Iri, &Iri)
        requires claimed { (by : Option ℕ) × IsClaimed by self.now.log claim.now }
        ensures { (by : Option ℕ) (p : Pair) → HasClaimed by self.now.log p claim.now
            → (result.0.now ≡ p.activity) × (result.1.now ≡ p.recipient) }
    {
        (self.core.activity_of(claim), self.core.recipient_of(claim))
    }

    /// Gives up a delivery that the pass of this number has claimed, so that it may be claimed
    /// again. It takes no memory.
    pub fn release(&mut self, by: Option<u64>, claim: Claim)
        requires claimed { IsClaimed by self.old.log claim }
        ensures released { (p : Pair) → HasClaimed by self.old.log p claim
            → self.new.log ≡ self.old.log ++ made_by by (Released p) ∷ [] }
        ensures turn { ChangesClaims self.old.core self.new.core }
    {
        let delivery = delivery_of(&self.core, &claim);
        self.core.release(claim);
        self.noted.push(&Noted {
            deed: Deed::Released { delivery },
            by,
        });
        self.front += 1;
        self.claimed -= 1;
    }

    /// Keeps the outcome of an attempt of a delivery that the pass of this number has claimed, and
    /// ends the claim (ActivityPub, section 7.1). After an error the history is unchanged and the
    /// delivery may be claimed again. The error is `Full` if the keeper has no room for the entry,
    /// `KeeperFault` if the keeper failed, and `Memory` if memory runs out.
    pub fn record(
        &mut self,
        alloc: Global,
        by: Option<u64>,
        claim: Claim,
        came: Came,
        moment: Moment,
    ) -> Result<(), RecordFault>
        requires claimed { IsClaimed by self.old.log claim }
        requires came { MayCome came.step came.what }
        requires later { claim.moment ≤ moment }
        ensures recorded { (p : Pair) → HasClaimed by self.old.log p claim
            → Records (base_of P.growth P.room O.state) by self.old.log self.new.log
            p came moment result }
        ensures machine { (p : Pair) → HasClaimed by self.old.log p claim
            → Keeps P.Keeper self.old.core self.new.core
            (tried p came moment) (fault_by keep_fault result) }
        // A crash during the turn leaves the records, followed by at most one more: the one in
        // doubt, or that of the entry.
        ensures turn { (p : Pair) → HasClaimed by self.old.log p claim
            → Turns P.growth (standing_by P.shown P.crashes self.old.core)
            (standing_by P.shown P.crashes self.new.core)
            (outcome_of (tried p came moment) result) }
    {
        let delivery = delivery_of(&self.core, &claim);
        let recorded = self.core.record(alloc, claim, came, moment);
        let deed = deed_after(delivery, came, moment, &recorded);
        self.noted.push(&Noted { deed, by });
        self.front += 1;
        self.claimed -= 1;
        recorded
    }
}

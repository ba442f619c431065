//! Waiting deliveries, and attempts of them.

ghost use Rattle.std.specs.Prelude.{◌≡◌, ◌+◌, ◌≤◌, IfOk, IfSome, OnErr, OnOk, map};
ghost use Rattle.std.specs.Prelude.{option_map};
ghost use Rattle.std.specs.List.{find};
ghost use Rattle.fedi_core.specs.Delivering.{IsClaimOf, IsPostFor, IsSentFor, attempt_of};
ghost use Rattle.fedi_core.specs.Delivering.{claimed_id, claimed_recipient, claimed_row, claims_in};
ghost use Rattle.fedi_core.specs.Delivering.{keep_fault};
ghost use Rattle.fedi_core.specs.Keeping.{Keeps, fault_by};
ghost use Rattle.fedi_entry.specs.Fields.{MayCome};
ghost use Rattle.fedi_queue.specs.Claims.{change_first, claim, claim_of, is_claimed_at, is_free_at};
ghost use Rattle.fedi_queue.specs.Claims.{release};
ghost use Rattle.fedi_queue.specs.Queues.{IsHeld};
ghost use Rattle.fedi_queue.specs.Rows.{rows_of};
ghost use Rattle.fedi_town.specs.Histories.{town};

use crate::attempts::{act_at, attempt_of, id_at};
use crate::keeping::{KeepError, KeepFault};
use crate::machine::Core;
use crate::sending::{outgoing, post_to};
use fedi_address::Iri;
use fedi_delivery::Outgoing;
use fedi_objects::Came;
use fedi_outside::Keeper;
use fedi_queue::{Claim, QueueRow};
use fedi_text::Moment;
use fedi_visible::Shelf;
use std::alloc::{AllocError, Global};
use thiserror::Error;

/// Why an attempt was not kept.
#[derive(Clone, Copy, Debug, PartialEq, Eq, Error)]
pub enum RecordFault {
    /// The keeper failed, and the entry may be in doubt.
    #[error("the keeper failed")]
    KeeperFault,
    /// The keeper has no room for the entry.
    #[error("the keeper has no room")]
    Full,
    /// Out of memory. The keeper counts no fault.
    #[error("out of memory")]
    Memory,
}

// Why an attempt was not kept, given why its entry was not.
fn record_fault(fault: KeepFault) -> RecordFault
    ensures { keep_fault result ≡ fault }
{
    match fault {
        KeepFault::Full => RecordFault::Full,
        KeepFault::Failed => RecordFault::KeeperFault,
        KeepFault::Memory => RecordFault::Memory,
    }
}

impl<S: Shelf + Drop, P: Keeper> Core<S, P> {
    /// The waiting deliveries, in the order of acceptance and of recipients (ActivityPub, section
    /// 7.1): those to recipients at peers for which another attempt is due.
    pub fn rows(&self) -> &[QueueRow]
        ensures rows { result.now ≡ self.now.rows }
        ensures queue { map release result.now ≡ rows_of (town self.now.history) }
        ensures unclaimed { claims_in result.now ≡ 0
            → result.now ≡ rows_of (town self.now.history) }
    {
        self.queue.entries()
    }

    /// Claims the first delivery that is due at this moment and not claimed. Returns `None` exactly
    /// if there is no such delivery. Until `record` or `release` uses up the claim, nobody else is
    /// given the delivery. It takes no memory, and a single comparison while nothing is due.
    pub fn claim(&mut self, moment: Moment) -> Option<Claim>
        ensures first { result
            ≡ option_map (claim_of moment) (find (is_free_at moment) self.old.rows) }
        ensures claimed { self.new ≡ record self.old {
          rows = change_first (is_free_at moment) claim self.old.rows;
        } }
        ensures held { IfSome result (λ c. IsHeld c self.new.rows) }
        ensures row { IfSome result (λ c. claimed_row self.new.rows c
            ≡ option_map claim (find (is_free_at moment) self.old.rows)) }
        ensures delivery { IfSome result (λ c. let t = town self.new.history in
            IsClaimOf t c (claimed_id t.acts c) (claimed_recipient self.new.rows c)) }
        ensures counted { IfSome result (λ _.
            claims_in self.new.rows ≡ claims_in self.old.rows + 1) }
    {
        self.queue.entries();
        self.queue.claim(moment)
    }

    /// Gives up a claim, so that the delivery may be claimed again. It takes no memory.
    pub fn release(&mut self, claim: Claim)
        requires { IsHeld claim self.old.rows }
        ensures released { self.new ≡ record self.old {
          rows = change_first (is_claimed_at claim.activity claim.recipient)
              release self.old.rows;
        } }
        ensures counted { claims_in self.old.rows ≡ claims_in self.new.rows + 1 }
    {
        self.queue.release(claim);
    }

    /// The recipient of the claimed delivery.
    pub fn recipient_of(&self, claim: &Claim) -> &Iri
        requires { IsHeld claim.now self.now.rows }
        ensures recipient { result.now ≡ claimed_recipient self.now.rows claim.now }
        ensures delivery { let t = town self.now.history in
            IsClaimOf t claim.now (claimed_id t.acts claim.now) result.now }
    {
        self.queue.entries();
        self.queue.recipient_of(claim)
    }

    /// The id of the activity of the claimed delivery.
    pub fn activity_of(&self, claim: &Claim) -> &Iri
        requires { IsHeld claim.now self.now.rows }
        ensures { result.now ≡ claimed_id (town self.now.history).acts claim.now }
    {
        self.queue.entries();
        id_at(self.shelf.facts(), claim.activity)
    }

    /// What is sent for a claimed delivery (ActivityPub, section 7.1), except for the post to the
    /// inbox: the address of the recipient's server, the lookup of the recipient, and the
    /// activity's document as it is now. The error is out of memory.
    pub fn post_of(&self, alloc: Global, claim: &Claim) -> Result<Outgoing, AllocError>
        requires { IsHeld claim.now self.now.rows }
        ensures { IfOk result (IsSentFor (town self.now.history) self.now.rows claim.now) }
    {
        let recipient = self.recipient_of(claim);
        let facts = self.shelf.facts();
        outgoing(alloc, facts, act_at(facts, claim.activity), recipient)
    }

    /// The post of the body to the inbox, for the recipient of the claimed delivery (ActivityPub,
    /// section 7.1). The error is out of memory.
    pub fn inbox_post(
        &self,
        alloc: Global,
        claim: &Claim,
        inbox: &Iri,
        body: &[u8],
    ) -> Result<Vec<u8>, AllocError>
        requires { IsHeld claim.now self.now.rows }
        ensures { IfOk result (λ text. IsPostFor (town self.now.history) self.now.rows claim.now
            inbox.now body.now text.items) }
    {
        let recipient = self.recipient_of(claim);
        post_to(alloc, self.shelf.facts(), recipient, inbox, body)
    }

    // Keeps the entry of an attempt, by the claim of its delivery. After an error the history and
    // the deliveries are unchanged.
    fn keep_attempt(
        &mut self,
        alloc: Global,
        claim: &Claim,
        came: Came,
        moment: Moment,
    ) -> Result<(), KeepFault>
        requires held { IsHeld claim.now self.old.rows }
        requires came { MayCome came.step came.what }
        requires later { claim.now.moment ≤ moment }
        ensures keeps { let t = town self.old.history in
            Keeps P.Keeper self.old self.new
            (attempt_of t self.old.rows claim.now came moment) result }
        ensures rows { OnErr result (self.new.rows ≡ self.old.rows) }
        ensures queue { map release self.new.rows ≡ rows_of (town self.new.history) }
        ensures counted { OnOk result (claims_in self.old.rows ≡ claims_in self.new.rows + 1) }
    {
        self.queue.entries();
        let entry = attempt_of(self.shelf.facts(), &self.queue, claim, came, moment)?;
        match self.keep(alloc, entry) {
            Ok(()) => Ok(()),
            Err(KeepError { fault, entry }) => {
                drop(entry);
                Err(fault)
            }
        }
    }

    /// Keeps the outcome of an attempt to deliver, by the claim of its delivery, which is used up.
    /// The next attempt is then due from a later moment on, or there is none (ActivityPub, section
    /// 7.1).
    ///
    /// After an error the history is unchanged and the claim is released. The error is `Full` if
    /// the keeper has no room for the entry, `KeeperFault` if the keeper failed, which it counts
    /// once, and `Memory` if memory runs out, which the keeper does not count.
    pub fn record(
        &mut self,
        alloc: Global,
        claim: Claim,
        came: Came,
        moment: Moment,
    ) -> Result<(), RecordFault>
        requires held { IsHeld claim self.old.rows }
        requires came { MayCome came.step came.what }
        requires later { claim.moment ≤ moment }
        // All other claims stay.
        ensures keeps { let t = town self.old.history in
            Keeps P.Keeper self.old self.new
            (attempt_of t self.old.rows claim came moment) (fault_by keep_fault result) }
        ensures released { OnErr result (self.new.rows ≡ change_first
            (is_claimed_at claim.activity claim.recipient) release self.old.rows) }
        ensures counted { claims_in self.old.rows ≡ claims_in self.new.rows + 1 }
        ensures queue { map release self.new.rows ≡ rows_of (town self.new.history) }
    {
        match self.keep_attempt(alloc, &claim, came, moment) {
            Ok(()) => {
                let Claim {
                    activity: _,
                    recipient: _,
                    moment: _,
                } = claim;
                Ok(())
            }
            Err(fault) => {
                self.release(claim);
                Err(record_fault(fault))
            }
        }
    }
}

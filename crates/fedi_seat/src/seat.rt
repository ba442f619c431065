//! A server of a world.

ghost use Rattle.std.specs.Prelude.{◌≡◌, ◌≢◌, ◌<◌, ◌≤◌, ◌^◌, ◌∷◌, [], ◌++◌, ℕ, Err, IfOk, IfSome};
ghost use Rattle.std.specs.Prelude.{IsErrOf, IsTrue, None, Ok, OnErr, OnOk, Option, Some, is_some};
ghost use Rattle.std.specs.Prelude.{length};
ghost use Rattle.fedi_core.specs.Delivering.{claimed_id, claimed_recipient, keep_fault};
ghost use Rattle.fedi_core.specs.Keeping.{MayAdd, fault_by};
ghost use Rattle.fedi_core.specs.Keeping as keeping;
ghost use Rattle.fedi_entry.specs.Fields.{MayCome};
ghost use Rattle.fedi_log.specs.Claims.{HasClaimed};
ghost use Rattle.fedi_log.specs.Log.{given, history_of, made_by};
ghost use Rattle.fedi_log.specs.declared.items.Pair.{Pair};
ghost use Rattle.fedi_log.specs.declared.items.What.TheVariants.{Entered, Released};
ghost use Rattle.fedi_logged.specs.Claiming.{ChangesClaims, Claims, IsClaimed, IsPostSince};
ghost use Rattle.fedi_logged.specs.Claiming.{IsSending, tried, what_after};
ghost use Rattle.fedi_logged.specs.Logs.{pair_of, what_of};
ghost use Rattle.fedi_model.specs.Asks.{entry_of};
ghost use Rattle.fedi_model.specs.Replies.{reply};
ghost use Rattle.fedi_model.specs.ReplyText.{reply_text};
ghost use Rattle.fedi_model.specs.Routes.{IsPostableAt};
ghost use Rattle.fedi_queue.specs.Queues.{IsHeld};
ghost use Rattle.fedi_queue.specs.Rows.{rows_of};
ghost use Rattle.fedi_town.specs.Histories.{town};
ghost use Rattle.fedi_town.specs.Legal.{IsLegal};
ghost use Rattle.fedi_visible.specs.Shelves.{empty_holding};
ghost use Rattle.fedi_seat.specs.Seats.{IsSeat, IsUntried};
ghost use Rattle.fedi_seat.specs.Serving.{Became, IsCutShort, IsGiven, Replies, Serves, Stays};
ghost use Rattle.fedi_seat.specs.declared.seat.ServeFault.TheVariants.{Memory};

use crate::calm::Calm;
use fedi_address::{Host, Iri};
use fedi_core::{Core, Decision, KeepError, KeepFault, RecordFault};
use fedi_delivery::Outgoing;
use fedi_effects::Facts;
use fedi_http::{Arrived, Buffer, read_request, reply_bytes};
use fedi_log::Place;
use fedi_logged::{Deed, Delivery, Noted};
use fedi_model::{Ask, Caller, Refusal, Reply, Request, refusal_reply};
use fedi_objects::{Came, Entry};
use fedi_opening::OpenFault;
use fedi_outside::{CalmSource, Keeper};
use fedi_queue::Claim;
use fedi_register::Trace;
use fedi_routes::{Routes, credentials, route};
use fedi_text::Moment;
use fedi_visible::Shelf;
use std::alloc::{AllocError, Global};
use std::marker::Model;
use std::snapshot::Snapshot;
use thiserror::Error;

/// A server of a world: its machine, with the log that it has from its last opening on, in which
/// each attempt to deliver is the pass of its own number. Only the machine is stored. Contracts see
/// it as the machine and the log.
#[derive(Drop)]
pub struct Seat<S: Shelf, P: Keeper> {
    core: Core<S, P>,
    noted: Trace<Noted>,
    opened: Snapshot<Facts>,
}

impl<S: Shelf, P: Keeper> Model for Seat<S, P> {
    ghost use Rattle.fedi_logged.specs.Logs.{MachineLog, log_of};
    ghost use Rattle.fedi_seat.specs.Seats.{IsSeat};

    ghost Value = { MachineLog P };

    ghost view = { λ s. record { core = s.core; log = log_of s.opened.value.history s.noted } };

    ghost invariant = { λ s. IsSeat s.core.history s.core.rows
        (log_of s.opened.value.history s.noted) };
}

/// A reply to bytes that have arrived.
#[derive(Drop)]
pub struct Served {
    /// Its status code, from 100 to 999 (RFC 9110, section 15).
    pub status: u16,
    /// Its bytes (RFC 9112, section 4).
    pub text: Vec<u8>,
}

/// Why bytes that have arrived were not answered.
#[derive(Clone, Copy, Debug, PartialEq, Eq, Error)]
pub enum ServeFault {
    /// They end before a request or in the middle of one.
    #[error("the request is cut short")]
    CutShort,
    /// Out of memory.
    #[error("out of memory")]
    Memory,
}

impl From<AllocError> for ServeFault {
    ghost from_gives = { λ _ fault. fault ≡ Memory };

    fn from(_: AllocError) -> Self {
        ServeFault::Memory
    }
}

// The delivery of a claim that is held.
fn delivery_of<S: Shelf + Drop, P: Keeper>(core: &Core<S, P>, claim: &Claim) -> Delivery
    requires { IsHeld claim.now core.now.rows }
    ensures activity { result.activity.value
        ≡ claimed_id (town core.now.history).acts claim.now }
    ensures recipient { result.recipient.value ≡ claimed_recipient core.now.rows claim.now }
{
    Delivery {
        activity: Snapshot::of(core.activity_of(claim)),
        recipient: Snapshot::of(core.recipient_of(claim)),
    }
}

// What an attempt of the delivery adds to the log, given what became of its entry.
fn deed_after(
    delivery: Delivery,
    came: Came,
    moment: Moment,
    recorded: &Result<(), RecordFault>,
) -> Deed
    ensures { what_of result ≡ what_after (pair_of delivery) came moment recorded.now }
{
    match recorded {
        Ok(()) => Deed::Tried {
            delivery,
            came,
            moment,
            kept: true,
        },
        Err(RecordFault::KeeperFault) => Deed::Tried {
            delivery,
            came,
            moment,
            kept: false,
        },
        Err(RecordFault::Full | RecordFault::Memory) => Deed::Released { delivery },
    }
}

// The reply, as it is sent at this moment: without its body if `head_only`, and as the last on its
// connection if `closing`. The error is out of memory.
fn write_reply(
    alloc: Global,
    reply: &Reply,
    moment: Moment,
    head_only: bool,
    closing: bool,
) -> Result<Served, AllocError>
    ensures status { IfOk result (λ served. served.status ≡ reply.now.status) }
    ensures text { IfOk result (λ served.
        served.text.items ≡ reply_text moment head_only closing reply.now) }
    ensures short { length reply.now.body < 2 ^ 64 }
{
    // A length is below 2^64.
    let _length = reply.body.bytes().len();
    let text = reply_bytes(alloc, reply, moment, head_only, closing)?;
    Ok(Served {
        status: reply.status.as_u16(),
        text,
    })
}

impl<S: Shelf + Drop, P: Calm> Seat<S, P> {
    // ---- what it is

    /// The server of a machine that has been set up, as it was opened. None of its deliveries may
    /// be claimed.
    pub fn of(core: Core<S, P>) -> Self
        requires unclaimed { core.rows ≡ rows_of (town core.history) }
        requires hosted { IsTrue (is_some (town core.history).host) }
        ensures core { result.core ≡ core }
        ensures log { result.log ≡ given core.history }
    {
        let opened = Snapshot::of(core.facts());
        Seat {
            core,
            noted: Trace::new(),
            opened,
        }
    }

    /// For the proof: shows that the history is that of the log, and that the deliveries are
    /// claimed as the log says. It does nothing when it runs.
    pub fn show(&self)
        ensures { IsSeat self.now.core.history self.now.core.rows self.now.log }
    {
        let _ = &self.core;
    }

    /// The facts of the history, which is legal.
    pub fn facts(&self) -> &Facts
        ensures history { result.now.history ≡ self.now.core.history }
        ensures town { result.now.town ≡ town self.now.core.history }
        ensures legal { IsLegal self.now.core.history }
    {
        self.core.facts()
    }

    /// The host that the server was set up for.
    pub fn host(&self) -> &Host
        ensures { (town self.now.core.history).host ≡ Some result.now }
    {
        match self.core.host() {
            Some(host) => host,
            None => unreachable!(),
        }
    }

    /// How many entries the history has.
    pub fn count(&self) -> u64
        ensures { result ≡ length self.now.core.history }
    {
        self.core.count()
    }

    // ---- what it delivers

    /// Claims the first delivery that is due at this moment and not claimed, for the attempt of
    /// this number (ActivityPub, section 7.1). Returns `None` exactly if there is no such delivery.
    /// It takes no memory.
    pub fn claim(&mut self, number: u64, moment: Moment) -> Option<Claim>
        ensures claims { Claims (Some number) moment self.old.log self.new.log result }
        ensures machine { ChangesClaims self.old.core self.new.core }
        ensures held { IfSome result (λ c. IsHeld c self.new.core.rows) }
    {
        let Some(claim) = self.core.claim(moment) else {
            return None;
        };
        let delivery = delivery_of(&self.core, &claim);
        let place = Place {
            activity: claim.activity,
            recipient: claim.recipient,
        };
        self.noted.push(&Noted {
            deed: Deed::Claimed {
                delivery,
                place,
                moment,
            },
            by: Some(number),
        });
        Some(claim)
    }

    /// The recipient of a delivery that some attempt has claimed, and what is sent to deliver it,
    /// except for the post to the inbox (ActivityPub, section 7.1). The error is out of memory.
    pub fn sent_by(&self, alloc: Global, claim: &Claim) -> Result<(Iri, Outgoing), AllocError>
        requires claimed { (by : Option ℕ) × IsClaimed by self.now.log claim.now }
        ensures { (by : Option ℕ) (p : Pair) → HasClaimed by self.now.log p claim.now
            → IfOk result (λ sent. IsSending (town (history_of self.now.log)) p
            claim.now sent.0 sent.1) }
    {
        let outgoing = self.core.post_of(alloc, claim)?;
        let recipient = self.core.recipient_of(claim).copy()?;
        Ok((recipient, outgoing))
    }

    /// The id of the activity of a delivery that some attempt has claimed, and its recipient.
    pub fn claimed_of(&self, claim: &Claim) -> (&Iri, &Iri)
        requires claimed { (by : Option ℕ) × IsClaimed by self.now.log claim.now }
        ensures { (by : Option ℕ) (p : Pair) → HasClaimed by self.now.log p claim.now
            → (result.0.now ≡ p.activity) × (result.1.now ≡ p.recipient) }
    {
        (self.core.activity_of(claim), self.core.recipient_of(claim))
    }

    /// The post of the body to the inbox, for the recipient of a delivery that some attempt has
    /// claimed (ActivityPub, section 7.1). The error is out of memory.
    pub fn inbox_post(
        &self,
        alloc: Global,
        claim: &Claim,
        inbox: &Iri,
        body: &[u8],
    ) -> Result<Vec<u8>, AllocError>
        requires claimed { (by : Option ℕ) × IsClaimed by self.now.log claim.now }
        ensures { (by : Option ℕ) (p : Pair) → HasClaimed by self.now.log p claim.now
            → IfOk result (λ text. IsPostSince self.now.log p inbox.now body.now text.items) }
    {
        self.core.inbox_post(alloc, claim, inbox, body)
    }

    /// Keeps the outcome of the attempt of this number, which has claimed its delivery, and ends
    /// the claim (ActivityPub, section 7.1). After an error the history is unchanged and the
    /// delivery may be claimed again. The error is `Full` if the keeper has no room for the entry,
    /// and `Memory` if memory runs out. It is never `KeeperFault`.
    pub fn record(
        &mut self,
        alloc: Global,
        number: u64,
        claim: Claim,
        came: Came,
        moment: Moment,
    ) -> Result<(), RecordFault>
        requires claimed { IsClaimed (Some number) self.old.log claim }
        requires came { MayCome came.step came.what }
        requires later { claim.moment ≤ moment }
        ensures recorded { (p : Pair) → HasClaimed (Some number) self.old.log p claim
            → self.new.log ≡ self.old.log
            ++ made_by (Some number) (what_after p came moment result) ∷ [] }
        ensures machine { (p : Pair) → HasClaimed (Some number) self.old.log p claim
            → keeping.Keeps P.Keeper self.old.core self.new.core
            (tried p came moment) (fault_by keep_fault result) }
        ensures calm { result ≢ Err RecordFault.KeeperFault }
    {
        let delivery = delivery_of(&self.core, &claim);
        let recorded = self.core.record(alloc, claim, came, moment);
        let deed = deed_after(delivery, came, moment, &recorded);
        self.noted.push(&Noted {
            deed,
            by: Some(number),
        });
        recorded
    }

    /// Gives up the delivery that the attempt of this number has claimed, so that it may be claimed
    /// again. It takes no memory.
    pub fn release(&mut self, number: u64, claim: Claim)
        requires claimed { IsClaimed (Some number) self.old.log claim }
        ensures released { (p : Pair) → HasClaimed (Some number) self.old.log p claim
            → self.new.log ≡ self.old.log ++ made_by (Some number) (Released p) ∷ [] }
        ensures machine { ChangesClaims self.old.core self.new.core }
    {
        let delivery = delivery_of(&self.core, &claim);
        self.core.release(claim);
        self.noted.push(&Noted {
            deed: Deed::Released { delivery },
            by: Some(number),
        });
    }

    // ---- what it answers

    // Keeps the entry of a request. After an error nothing has changed.
    fn keep(&mut self, alloc: Global, entry: Entry) -> Result<(), KeepFault>
        requires may_add { MayAdd (town self.old.core.history) entry }
        requires untried { IsUntried entry }
        ensures keeps { keeping.Keeps P.Keeper self.old.core self.new.core entry result }
        ensures log { OnOk result (self.new.log
            ≡ self.old.log ++ made_by None (Entered entry) ∷ []) }
        ensures same { OnErr result (self.new.log ≡ self.old.log) }
    {
        let made = Snapshot::of(&entry);
        match self.core.keep(alloc, entry) {
            Ok(()) => {
                self.noted.push(&Noted {
                    deed: Deed::Entry {
                        entry: made,
                        kept: true,
                    },
                    by: None,
                });
                Ok(())
            }
            Err(KeepError { fault, .. }) => Err(fault),
        }
    }

    // Keeps the entry that a request has made, if it has made one. Returns whether there was room
    // for it. After an error, which is out of memory, nothing has changed.
    fn keep_made(&mut self, alloc: Global, made: Option<Entry>) -> Result<bool, AllocError>
        requires may_add { IfSome made (MayAdd (town self.old.core.history)) }
        requires untried { IfSome made IsUntried }
        ensures kept { IfOk result (λ kept. Became P.Keeper kept made self.old self.new) }
        ensures lacking { OnErr result (Stays P.Keeper self.old self.new) }
    {
        let Some(entry) = made else {
            return Ok(true);
        };
        match self.keep(alloc, entry) {
            Ok(()) => Ok(true),
            Err(fault) => match fault {
                KeepFault::Full => Ok(false),
                KeepFault::Failed => unreachable!(),
                KeepFault::Memory => Err(AllocError),
            },
        }
    }

    /// Answers what this caller asks at this moment (ActivityPub, sections 3.2, 5 and 6). The entry
    /// that the ask makes, if any, is kept; or the keeper has no room for it, and the reply says
    /// so. The error is out of memory, and then nothing has changed.
    pub fn ask(
        &mut self,
        alloc: Global,
        caller: &Caller,
        ask: Ask,
        moment: Moment,
    ) -> Result<Reply, AllocError>
        requires postable { IsPostableAt (town self.old.core.history).host ask }
        ensures given { let t = town self.old.core.history in IfOk result (λ given.
            IsGiven P.Keeper (reply t caller.now ask) (entry_of t caller.now ask moment) given
            self.old self.new) }
        ensures lacking { OnErr result (Stays P.Keeper self.old self.new) }
    {
        let Decision { draft, entry } = self.core.decide(alloc, caller, ask, moment)?;
        let reply = draft.write(alloc)?;
        let kept = self.keep_made(alloc, entry)?;
        if kept {
            return Ok(reply);
        }
        Ok(refusal_reply(Refusal::JournalFull))
    }

    // Answers a request with this body. The text of the reply is made before its entry is kept.
    fn answer(
        &mut self,
        alloc: Global,
        routes: &Routes,
        request: &Request,
        body: &[u8],
        moment: Moment,
    ) -> Result<Served, AllocError>
        ensures served { IfOk result (λ served. Replies P.Keeper moment (Ok request.now) body.now
            served self.old self.new) }
        ensures lacking { OnErr result (Stays P.Keeper self.old self.new) }
    {
        let (head_only, closing) = (request.head_only, !request.keep_alive);
        let caller = match self.core.caller_of(&credentials(request, body))? {
            Ok(caller) => caller,
            Err(refusal) => {
                return write_reply(alloc, &refusal_reply(refusal), moment, head_only, closing);
            }
        };
        let ask = route(alloc, request, body, self.core.host(), routes, &caller)?;
        let Decision { draft, entry } = self.core.decide(alloc, &caller, ask, moment)?;
        let reply = draft.write(alloc)?;
        let served = write_reply(alloc, &reply, moment, head_only, closing)?;
        let kept = self.keep_made(alloc, entry)?;
        if kept {
            return Ok(served);
        }
        let full = refusal_reply(Refusal::JournalFull);
        write_reply(alloc, &full, moment, head_only, closing)
    }

    /// Answers the request with which these bytes begin (RFC 9112, sections 2 to 7), as at this
    /// moment: the server sees the bytes alone, and judges by them who asks. The entry that the
    /// request makes, if any, is kept; or the keeper has no room for it, and the reply says so.
    ///
    /// After an error nothing has changed. It is `CutShort` if the bytes hold no whole request and
    /// nothing that is refused, and `Memory` if memory runs out.
    pub fn serve(
        &mut self,
        alloc: Global,
        routes: &Routes,
        text: &[u8],
        moment: Moment,
    ) -> Result<Served, ServeFault>
        ensures serves { IfOk result (λ served.
            Serves P.Keeper text.now moment served self.old self.new) }
        ensures cut { IsErrOf result ServeFault.CutShort → IsCutShort text.now }
        ensures lacking { OnErr result (Stays P.Keeper self.old self.new) }
    {
        let mut source = CalmSource::new(text.to_vec(alloc)?);
        let mut buffer = Buffer::new(alloc);
        match read_request(alloc, &mut source, &mut buffer) {
            Arrived::Request(request) => {
                Ok(self.answer(alloc, routes, &request, buffer.body(), moment)?)
            }
            Arrived::Refused(refusal) => {
                Ok(write_reply(alloc, &refusal_reply(refusal), moment, false, true)?)
            }
            Arrived::End | Arrived::CutShort => Err(ServeFault::CutShort),
            Arrived::ReadFault => unreachable!(),
            Arrived::Memory => Err(ServeFault::Memory),
        }
    }

    // ---- what a crash leaves

    /// Opens the machine anew from its records on an empty shelf, as after a crash: the history is
    /// the same, and no delivery is claimed any more. After an error, which is out of memory,
    /// nothing has changed.
    pub fn reopen(&mut self, alloc: Global, blank: S) -> Result<(), AllocError>
        requires empty { S.holding blank ≡ empty_holding }
        ensures history { self.new.core.history ≡ self.old.core.history }
        ensures end { (P.shown self.new.core.keeper).end ≡ (P.shown self.old.core.keeper).end }
        ensures opened { OnOk result (self.new.log ≡ given self.old.core.history) }
        ensures lacking { OnErr result (self.new.log ≡ self.old.log) }
    {
        let Ok(()) = self.core.settle() else {
            unreachable!();
        };
        match self.core.reopen(alloc, blank) {
            Ok(()) => {
                self.noted = Trace::new();
                self.opened = Snapshot::of(self.core.facts());
                Ok(())
            }
            Err(OpenFault::Memory) => Err(AllocError),
            Err(OpenFault::Failed | OpenFault::Damaged { .. } | OpenFault::Empty) => unreachable!(),
        }
    }
}

//! A turn of a machine with its log, and what is written after it.
ghost use Rattle.std.specs.Prelude.{◌≡◌, ℕ, [], Err, IfOk, IsTrue, Ok, OnErr, Option, is_some};
ghost use Rattle.std.specs.Prelude.{length, option_copied};
ghost use Rattle.fedi_log.specs.Keeping.{base_of, state_of};
ghost use Rattle.fedi_log.specs.Log.{given};
ghost use Rattle.fedi_model.specs.Answers.{caller_of};
ghost use Rattle.fedi_model.specs.Routes.{Asks, IsPostableAt};
ghost use Rattle.fedi_queue.specs.Rows.{rows_of};
ghost use Rattle.fedi_logged.specs.Turning.{Tells, is_draft, text_in};
ghost use Rattle.fedi_town.specs.Histories.{town};
ghost use Rattle.fedi_town.specs.Legal.{IsLegal};
ghost use Rattle.fedi_logged.specs.Logs.{AreSame, StandsFor, TurnsOn};
ghost use Rattle.fedi_logged.specs.Turns.{standing_by};

use crate::answered::Answered;
use crate::logged::Logged;
use crate::noted::{Deed, Noted};
use crate::opened::Opened;
use crate::refusals::refusal_text;
use fedi_address::Host;
use fedi_core::{Core, Decision, Draft, KeepError, KeepFault};
use fedi_http::reply_bytes;
use fedi_log::Item;
use fedi_model::{Ask, Caller, Refusal, Request, refusal_reply};
use fedi_outside::Keeper;
use fedi_register::Trace;
use fedi_routes::credentials;
use fedi_text::Moment;
use fedi_turn::Grows;
use fedi_visible::Shelf;
use std::alloc::{AllocError, Global};
use std::marker::PhantomData;
use std::snapshot::Snapshot;

impl<S: Shelf + Drop, P: Keeper + Drop, O: Opened> Grows for Logged<S, P, O> {
    type Item = Item;

    ghost list = { λ l. l.log };

    ghost base = { λ _. [] };

    ghost name = { λ i. i.pass };

    fn front(&self) -> u64 {
        self.front
    }
}

impl<S: Shelf + Drop, P: Keeper, O: Opened> Logged<S, P, O> {
    /// The machine, as it was opened, with the log of its history. None of its deliveries may be
    /// claimed.
    pub fn of(core: Core<S, P>) -> Self
        requires unclaimed { core.rows ≡ rows_of (town core.history) }
        requires opened { O.state ≡ state_of core.history (P.shown core.keeper) }
        requires crashes { AreSame O.crashes (P.crashes core.keeper) }
        requires legal { IsLegal core.history }
        ensures core { result.core ≡ core }
        ensures log { result.log ≡ given core.history }
    {
        let front = core.count();
        Logged {
            core,
            noted: Trace::new(),
            front,
            claimed: 0,
            of: PhantomData,
        }
    }

    /// The length of the log.
    pub fn log_length(&self) -> u64
        ensures { result ≡ length self.now.log }
    {
        self.front
    }

    /// The machine, which holds the log.
    pub fn into_core(self) -> Core<S, P>
        ensures core { result ≡ self.core }
        ensures stands { StandsFor P.growth P.room O.state O.crashes
            (state_of result.history (P.shown result.keeper)) (P.crashes result.keeper) self.log }
    {
        self.core
    }

    /// The host, which no turn changes.
    pub fn host(&self) -> Option<&Host>
        requires hosted { IsTrue (is_some (town O.state.history).host) }
        ensures { option_copied result ≡ (town O.state.history).host }
    {
        self.core.host()
    }

    /// Who makes the request, or why nobody may be taken for its caller: no turn changes this. The
    /// error is out of memory.
    pub fn caller_of(
        &self,
        request: &Request,
        body: &[u8],
    ) -> Result<Result<Caller, Refusal>, AllocError>
        ensures { IfOk result (λ caller.
            caller ≡ caller_of (town O.state.history) request.now body.now) }
    {
        self.core.caller_of(&credentials(request, body))
    }

    /// Refuses a request whose caller was refused for this reason. Returns the text of the reply, as
    /// `answer` does. Nothing is kept. The error is out of memory.
    pub fn refuse(
        &self,
        alloc: Global,
        request: &Request,
        body: &[u8],
        refusal: Refusal,
        moment: Moment,
        closing: bool,
    ) -> Result<Vec<u8>, AllocError>
        requires caller { caller_of (town O.state.history) request.now body.now ≡ Err refusal }
        ensures { (by : Option ℕ) → IfOk result (λ text.
            Tells (base_of P.growth P.room O.state) by self.now.log self.now.log
            moment request.now body.now closing text.items) }
    {
        // What holds of the machine is known where a field is read.
        let _front = self.front;
        refusal_text(alloc, refusal, moment, request.head_only, closing)
    }

    /// Decides on a request of this caller that has this body and asks this, in one turn of the
    /// machine by the pass of this number, or by no pass if nobody else adds to the log. The reply
    /// to a post or a delivery whose entry is kept is written before that, and so is the one that
    /// reports a failure of the keeper. Any other reply is returned as a draft, which is that of
    /// the log of this turn whenever it is written. The text has no body if the method is HEAD, and
    /// says that the connection closes if `closing`.
    ///
    /// The error is out of memory, and then nothing was kept, and the keeper did not fail. It is
    /// also returned when the log has 2^64 - 1 items, counting one for each claimed delivery.
    pub fn settle(
        &mut self,
        alloc: Global,
        by: Option<u64>,
        request: &Request,
        body: &[u8],
        caller: &Caller,
        ask: Ask,
        moment: Moment,
        closing: bool,
    ) -> Result<Answered, AllocError>
        requires hosted { IsTrue (is_some (town O.state.history).host) }
        requires caller { caller_of (town O.state.history) request.now body.now ≡ Ok caller.now }
        requires asks { Asks (town O.state.history).host caller.now request.now body.now ask }
        requires postable { IsPostableAt (town O.state.history).host ask }
        ensures text { IfOk result (λ answered. Tells (base_of P.growth P.room O.state) by
            self.old.log self.new.log moment request.now body.now closing
            (text_in moment request.now.head_only closing answered)) }
        // If the reply is left to be written, nothing was kept.
        ensures draft { IfOk result (λ answered. IsTrue (is_draft answered)
            → self.new.log ≡ self.old.log) }
        ensures lacking { OnErr result (self.new.log ≡ self.old.log) }
        // A crash during the turn leaves the records, followed by at most one more: the one in
        // doubt, or that of the entry.
        ensures turn { TurnsOn P.growth by (standing_by P.shown P.crashes self.old.core)
            (standing_by P.shown P.crashes self.new.core) self.old.log self.new.log }
    {
        if u64::MAX - self.front == self.claimed {
            return Err(AllocError);
        }
        let head_only = request.head_only;
        let Decision { draft, entry } = self.core.decide(alloc, caller, ask, moment)?;
        let Some(entry) = entry else {
            return Ok(Answered::Draft(draft));
        };
        let reply = draft.write(alloc)?;
        let text = reply_bytes(alloc, &reply, moment, head_only, closing)?;
        let fault_text = refusal_text(alloc, Refusal::KeeperFault, moment, head_only, closing)?;
        let made = Snapshot::of(&entry);
        match self.core.keep(alloc, entry) {
            Ok(()) => {
                self.noted.push(&Noted {
                    deed: Deed::Entry {
                        entry: made,
                        kept: true,
                    },
                    by,
                });
                self.front += 1;
                Ok(Answered::Text(text))
            }
            Err(KeepError { fault, .. }) => match fault {
                KeepFault::Full => {
                    let full = refusal_reply(Refusal::JournalFull);
                    Ok(Answered::Draft(Draft::Ready(full)))
                }
                KeepFault::Failed => {
                    self.noted.push(&Noted {
                        deed: Deed::Entry {
                            entry: made,
                            kept: false,
                        },
                        by,
                    });
                    self.front += 1;
                    Ok(Answered::Text(fault_text))
                }
                KeepFault::Memory => Err(AllocError),
            },
        }
    }

    /// Answers a request as `settle` does, and returns the text of the reply. The errors are those
    /// of `settle`, and then nothing was kept, and the keeper did not fail.
    pub fn answer(
        &mut self,
        alloc: Global,
        by: Option<u64>,
        request: &Request,
        body: &[u8],
        caller: &Caller,
        ask: Ask,
        moment: Moment,
        closing: bool,
    ) -> Result<Vec<u8>, AllocError>
        requires hosted { IsTrue (is_some (town O.state.history).host) }
        requires caller { caller_of (town O.state.history) request.now body.now ≡ Ok caller.now }
        requires asks { Asks (town O.state.history).host caller.now request.now body.now ask }
        requires postable { IsPostableAt (town O.state.history).host ask }
        ensures text { IfOk result (λ text. Tells (base_of P.growth P.room O.state) by
            self.old.log self.new.log moment request.now body.now closing text.items) }
        ensures lacking { OnErr result (self.new.log ≡ self.old.log) }
        ensures turn { TurnsOn P.growth by (standing_by P.shown P.crashes self.old.core)
            (standing_by P.shown P.crashes self.new.core) self.old.log self.new.log }
    {
        let answered = self.settle(alloc, by, request, body, caller, ask, moment, closing)?;
        answered.write(alloc, moment, request.head_only, closing)
    }
}

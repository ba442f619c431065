//! A machine that nobody else uses.
ghost use Rattle.std.specs.Prelude.{◌≡◌, [], ℕ, IfOk, IsTrue, None, OnErr, is_some};
ghost use Rattle.std.proofs.Common.{refl};
ghost use Rattle.fedi_core.specs.Machines.{Machine};
ghost use Rattle.fedi_log.specs.Keeping.{GoesAlone, base_of, state_of};
ghost use Rattle.fedi_log.specs.Log.{Goes, given};
ghost use Rattle.fedi_queue.specs.Rows.{rows_of};
ghost use Rattle.fedi_logged.specs.Endings.{IsCaused, faults_on, scene_on};
ghost use Rattle.fedi_logged.specs.Turning.{TurnTells, setting_by};
ghost use Rattle.fedi_town.specs.Histories.{town};
ghost use Rattle.fedi_town.specs.Legal.{IsLegal};
ghost use Rattle.fedi_logged.specs.Logs.{AreSame};
ghost use Rattle.fedi_logged.specs.Marks.{Survives};
ghost use Rattle.fedi_logged.specs.Sessions.{EndsSession};

use crate::channels::Channel;
use crate::claims::Sending;
use crate::delivering::Delivers;
use crate::logged::Logged;
use crate::opened::Opened;
use crate::sessions::{SessionEnd, session};
use crate::turns::{Answers, Turns};
use fedi_address::Iri;
use fedi_core::{Core, RecordFault};
use fedi_model::Request;
use fedi_objects::Came;
use fedi_outside::{Clock, Keeper};
use fedi_queue::Claim;
use fedi_routes::{Routes, route};
use fedi_text::Moment;
use fedi_visible::Shelf;
use std::alloc::{AllocError, Global};
use std::marker::Brand;

/// A machine with its log that nobody else adds to: each item since the opening is by no pass. If
/// it answers requests, it has `Routes`.
#[derive(Drop)]
pub struct Alone<S: Shelf, P: Keeper, O: Opened, R> {
    /// The machine with its log.
    pub logged: Logged<S, P, O>,
    /// Where paths lead, or nothing.
    pub routes: R,
}

impl<S: Shelf + Drop, P: Keeper, O: Opened, R: Drop> Alone<S, P, O, R> {
    /// The machine, as it was opened.
    pub fn of(core: Core<S, P>, routes: R) -> Self
        requires unclaimed { core.rows ≡ rows_of (town core.history) }
        requires opened { O.state ≡ state_of core.history (P.shown core.keeper) }
        requires crashes { AreSame O.crashes (P.crashes core.keeper) }
        requires legal { IsLegal core.history }
        ensures core { result.logged.core ≡ core }
        ensures log { result.logged.log ≡ given core.history }
    {
        Alone {
            logged: Logged::of(core),
            routes,
        }
    }

    /// The machine. It survived along the log.
    pub fn into_core(self) -> Core<S, P>
        requires alone { GoesAlone None (given O.state.history) self.logged.log }
        ensures core { result ≡ self.logged.core }
        ensures survives { Survives (base_of P.growth P.room O.state) None (given O.state.history)
            self.logged.log (state_of result.history (P.shown result.keeper)) O.crashes
            (P.crashes result.keeper) }
    {
        self.logged.into_core()
    }
}

impl<S: Shelf + Drop, P: Keeper, O: Opened, R: Drop> Turns for Alone<S, P, O, R> {
    ghost by = { λ _. None };

    ghost base = { base_of P.growth P.room O.state };

    ghost seen = { λ a. a.logged.log };

    ghost ready = { λ a. IsTrue (is_some (town O.state.history).host)
        × GoesAlone None (given O.state.history) a.logged.log };

    ghost same = { λ _ _. Unit {0} };

    ghost same_none = { λ _. tt };

    ghost same_both = { λ _ _ _ _ _. tt };

    ghost same_by = { λ _ _ _. refl };
}

impl<S: Shelf + Drop, P: Keeper, O: Opened> Answers for Alone<S, P, O, Routes> {
    fn answer(
        &mut self,
        alloc: Global,
        request: &Request,
        body: &[u8],
        moment: Moment,
        closing: bool,
    ) -> Result<Vec<u8>, AllocError> {
        match self.logged.caller_of(request, body)? {
            Ok(caller) => {
                let host = self.logged.host();
                let ask = route(alloc, request, body, host, &self.routes, &caller)?;
                self.logged
                    .answer(alloc, None, request, body, &caller, ask, moment, closing)
            }
            Err(refusal) => {
                self.logged
                    .refuse(alloc, request, body, refusal, moment, closing)
            }
        }
    }
}

impl<S: Shelf + Drop, P: Keeper, O: Opened, R: Drop> Delivers for Alone<S, P, O, R> {
    ghost Own = { Machine P };

    ghost own = { λ a. record a.logged.core { rows = [] } };

    fn take_up(
        &mut self,
        alloc: Global,
        moment: Moment,
    ) -> (u64, Result<Option<Sending>, AllocError>) {
        let front = self.logged.log_length();
        (front, self.logged.take_up(alloc, None, moment))
    }

    fn inbox_post(
        &mut self,
        alloc: Global,
        claim: &Claim,
        inbox: &Iri,
        body: &[u8],
    ) -> Result<Vec<u8>, AllocError> {
        self.logged.inbox_post(alloc, claim, inbox, body)
    }

    fn release(&mut self, claim: Claim) {
        self.logged.release(None, claim);
    }

    fn record(
        &mut self,
        alloc: Global,
        claim: Claim,
        came: Came,
        moment: Moment,
    ) -> (u64, Result<(), RecordFault>) {
        let front = self.logged.log_length();
        (front, self.logged.record(alloc, None, claim, came, moment))
    }
}

fn serve_opened<S: Shelf + Drop, P: Keeper, O: Opened, H: Channel, C: Clock>(
    alloc: Global,
    core: Core<S, P>,
    routes: Routes,
    channel: &mut H,
    clock: &C,
) -> (SessionEnd, Core<S, P>)
    requires unclaimed { core.rows ≡ rows_of (town core.history) }
    requires opened { O.state ≡ state_of core.history (P.shown core.keeper) }
    requires crashes { AreSame O.crashes (P.crashes core.keeper) }
    requires hosted { IsTrue (is_some (town core.history).host) }
    requires legal { IsLegal core.history }
    ensures ends { EndsSession (setting_by P.growth P.room (C.told clock.now) None O.state)
        (given O.state.history) (scene_on H.left H.sent H.write_faults channel.old)
        (scene_on H.left H.sent H.write_faults channel.new) O.crashes
        (state_of result.1.history (P.shown result.1.keeper)) (P.crashes result.1.keeper) result.0 }
    ensures causes { IsCaused (faults_on H.read_faults H.write_faults channel.old)
        (faults_on H.read_faults H.write_faults channel.new) result.0 }
    ensures channel { H.same channel.old channel.new }
{
    let mut alone = Alone::<S, P, O, Routes>::of(core, routes);
    let end = session(alloc, &mut alone, channel, clock);
    (end, alone.into_core())
}

/// Serves one connection with a machine that nobody else uses, and hands the machine back with how
/// the session ended.
pub fn serve_alone<S: Shelf + Drop, P: Keeper, H: Channel, C: Clock>(
    alloc: Global,
    core: Core<S, P>,
    routes: Routes,
    channel: &mut H,
    clock: &C,
) -> (SessionEnd, Core<S, P>)
    requires unclaimed { core.rows ≡ rows_of (town core.history) }
    requires hosted { IsTrue (is_some (town core.history).host) }
    requires legal { IsLegal core.history }
    // The log extends the machine's history by what is kept and what the keeper fails to keep. If
    // the input is known, what was read and written is one conversation over this log. A crash at
    // any moment leaves the records, then the first of those that were kept since, and then at most
    // one that was in doubt at that moment of the log.
    ensures ends { let opened = state_of core.history (P.shown core.keeper) in EndsSession
        (setting_by P.growth P.room (C.told clock.now) None opened) (given core.history)
        (scene_on H.left H.sent H.write_faults channel.old)
        (scene_on H.left H.sent H.write_faults channel.new) (P.crashes core.keeper)
        (state_of result.1.history (P.shown result.1.keeper)) (P.crashes result.1.keeper) result.0 }
    ensures causes { IsCaused (faults_on H.read_faults H.write_faults channel.old)
        (faults_on H.read_faults H.write_faults channel.new) result.0 }
    ensures channel { H.same channel.old channel.new }
{
    serve_opened::<S, P, Brand, H, C>(alloc, core, routes, channel, clock)
}

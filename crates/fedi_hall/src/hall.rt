//! A machine that many workers take turns with.
ghost use Rattle.std.specs.Prelude.{◌≡◌, ◌<◌, ◌↔◌, All, IfErr, IfOk, IsErr, IsTrue, Some, is_some};
ghost use Rattle.std.specs.Prelude.{option_copied, vec_len};
ghost use Rattle.fedi_log.specs.Keeping.{state_of};
ghost use Rattle.fedi_log.specs.Log.{Log, given};
ghost use Rattle.fedi_logged.specs.Logs.{AreSame, StandsFor};
ghost use Rattle.fedi_queue.specs.Rows.{rows_of};
ghost use Rattle.fedi_town.specs.Histories.{town};
ghost use Rattle.fedi_town.specs.Legal.{IsLegal};
ghost use Rattle.fedi_turn.specs.Turn.{AreNew, ContinuesEach, IsIdle, NamesOneOf, seats_of};
ghost use Rattle.fedi_turn.specs.Turn.{start_of};
ghost use Rattle.fedi_hall.specs.Lobbies.{IsLobbyOf};

use fedi_address::Host;
use fedi_core::Core;
use fedi_effects::Roster;
use fedi_log::Item;
use fedi_logged::{Logged, Opened};
use fedi_outside::Keeper;
use fedi_routes::Routes;
use fedi_turn::{Grows, Line, Pass, Span, TurnLock};
use fedi_visible::Shelf;
use std::alloc::{AllocError, Global};
use std::sync::Wait;

/// Where workers wait for each other outside of turns, first come, first served. Who records an
/// attempt is at the head of both lines of those who keep an entry, first of the one of attempts.
#[derive(Drop)]
pub struct Queues {
    /// Those who keep an entry: a turn that keeps nothing waits for one of them at most.
    pub entries: Line,
    /// Those who record an attempt: so posts and deliveries to members get every second turn of
    /// those who keep an entry.
    pub attempts: Line,
    /// Those who check a long body against its code, which takes time.
    pub codes: Line,
    /// Those who read a long body, which takes much memory.
    pub bodies: Line,
}

impl Queues {
    /// Nobody waits.
    pub fn new() -> Self {
        Queues {
            entries: Line::new(),
            attempts: Line::new(),
            codes: Line::new(),
            bodies: Line::new(),
        }
    }

    /// Waits, before a long turn, until nobody else is about to keep an entry.
    pub fn enter<R: Wait>(&self, rt: &R, span: Span) {
        if span == Span::Long {
            self.entries.enter(rt);
        }
    }

    /// Lets the next one keep an entry, after a long turn.
    pub fn leave<R: Wait>(&self, rt: &R, span: Span) {
        if span == Span::Long {
            self.entries.leave(rt);
        }
    }
}

/// What workers need outside of turns, and no turn changes.
#[derive(Drop)]
pub struct Lobby {
    /// The host of the machine.
    pub host: Host,
    /// The members and the peers of the machine.
    pub roster: Roster,
    /// Where paths lead.
    pub routes: Routes,
    /// Who waits to keep something.
    pub queues: Queues,
}

impl Lobby {
    // The lobby of this machine. The error is out of memory.
    fn of<S: Shelf + Drop, P: Keeper>(alloc: Global, core: &Core<S, P>) -> Result<Lobby, AllocError>
        requires hosted { IsTrue (is_some (town core.now.history).host) }
        ensures { IfOk result (IsLobbyOf (town core.now.history)) }
    {
        Ok(Lobby {
            host: host_of(core)?,
            roster: Roster::of(alloc, core.facts())?,
            routes: Routes::new(alloc)?,
            queues: Queues::new(),
        })
    }
}

/// A machine with its log under the turn lock, and what is needed outside of turns. Each worker
/// has a pass of the lock.
#[derive(Drop)]
pub struct Hall<S: Shelf + Drop, P: Keeper + Drop, O: Opened> {
    pub lock: TurnLock<Logged<S, P, O>>,
    pub lobby: Lobby,
}

// A copy of the host of the machine. The error is out of memory.
fn host_of<S: Shelf + Drop, P: Keeper>(core: &Core<S, P>) -> Result<Host, AllocError>
    requires hosted { IsTrue (is_some (town core.now.history).host) }
    ensures { IfOk result (λ host. (town core.now.history).host ≡ Some host) }
{
    match core.host() {
        Some(host) => host.clone(),
        None => unreachable!(),
    }
}

impl<S: Shelf + Drop, P: Keeper + Drop, O: Opened> Hall<S, P, O> {
    /// The hall over an opened machine, with this many passes, each of which has seen the history
    /// of the machine. The error is out of memory, and hands the machine back.
    pub fn new(
        alloc: Global,
        core: Core<S, P>,
        seats: u64,
    ) -> Result<(Hall<S, P, O>, Vec<Pass<Item>>), Core<S, P>>
        requires some { 0 < seats }
        requires unclaimed { core.rows ≡ rows_of (town core.history) }
        requires opened { O.state ≡ state_of core.history (P.shown core.keeper) }
        requires crashes { AreSame O.crashes (P.crashes core.keeper) }
        requires hosted { IsTrue (is_some (town core.history).host) }
        requires legal { IsLegal core.history }
        ensures start { IfOk result (λ r.
            start_of ⟦<Logged<S, P, O> as Grows>⟧ r.0.lock ≡ given core.history) }
        ensures idle { IfOk result (λ r.
            All (IsIdle ⟦<Logged<S, P, O> as Grows>⟧ r.0.lock) r.1.items) }
        ensures new { IfOk result (λ r. AreNew ⟦<Logged<S, P, O> as Grows>⟧ r.0.lock r.1.items) }
        ensures seats { IfOk result (λ r. (seats_of r.0.lock ≡ seats) × (vec_len r.1 ≡ seats)) }
        ensures lobby { IfOk result (λ r. IsLobbyOf (town core.history) r.0.lobby) }
        ensures back { IfErr result (λ back. back ≡ core) }
    {
        let Ok(lobby) = Lobby::of(alloc, &core) else {
            return Err(core);
        };
        match TurnLock::new(alloc, Logged::of(core), seats) {
            Ok((lock, passes)) => Ok((Hall { lock, lobby }, passes)),
            Err(logged) => Err(logged.into_core()),
        }
    }

    /// The machine, in exchange for all passes, each idle. It waits for the machine as a turn does.
    ///
    /// The machine then holds one log. It extends what each pass has seen by items of others, and
    /// each item after the history of the opening names one of the passes. If there are fewer
    /// passes than `new` returned, the hall and the passes are handed back unchanged.
    pub fn close<R: Wait>(
        self,
        rt: &R,
        passes: Vec<Pass<Item>>,
    ) -> Result<Core<S, P>, (Hall<S, P, O>, Vec<Pass<Item>>)>
        requires { All (IsIdle ⟦<Logged<S, P, O> as Grows>⟧ self.lock) passes.items }
        ensures refused { IsErr result ↔ (vec_len passes < seats_of self.lock) }
        ensures closed { IfOk result (λ core. (log : Log)
            × StandsFor P.growth P.room O.state O.crashes
            (state_of core.history (P.shown core.keeper)) (P.crashes core.keeper) log
            × ContinuesEach ⟦<Logged<S, P, O> as Grows>⟧ passes.items log
            × NamesOneOf ⟦<Logged<S, P, O> as Grows>⟧ self.lock passes.items log) }
        ensures back { IfErr result (λ back. (back.0 ≡ self) × (back.1 ≡ passes)) }
    {
        let Hall { lock, lobby } = self;
        match lock.close(rt, passes) {
            Ok(logged) => Ok(logged.into_core()),
            Err((lock, passes)) => Err((Hall { lock, lobby }, passes)),
        }
    }
}

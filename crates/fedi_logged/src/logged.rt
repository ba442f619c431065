//! A machine with its log.
use crate::noted::Noted;
use crate::opened::Opened;
use fedi_core::Core;
use fedi_outside::Keeper;
use fedi_register::Trace;
use fedi_visible::Shelf;
use std::marker::{Model, PhantomData};

/// A machine with the log that it holds, from the opening on. Contracts see both. Only the length
/// of the log is stored.
#[derive(Drop)]
pub struct Logged<S: Shelf, P: Keeper, O: Opened> {
    pub(crate) core: Core<S, P>,
    pub(crate) noted: Trace<Noted>,
    // The length of the log.
    pub(crate) front: u64,
    // How many deliveries are claimed. For each of them the log has room for the item that ends its
    // claim.
    pub(crate) claimed: u64,
    pub(crate) of: PhantomData<O>,
}

impl<S: Shelf, P: Keeper, O: Opened> Model for Logged<S, P, O> {
    ghost use Rattle.std.specs.Prelude.{◌≡◌, length};
    ghost use Rattle.fedi_log.specs.Keeping.{state_of};
    ghost use Rattle.fedi_logged.specs.Logs.{MachineLog, StandsFor, log_of};
    ghost use Rattle.fedi_logged.specs.Claiming.{IsClaiming};
    ghost use Rattle.fedi_effects.specs.Rosters.{callers_in};
    ghost use Rattle.fedi_town.specs.Histories.{town};

    ghost Value = { MachineLog P };

    ghost view = { λ l. record { core = l.core; log = log_of O.state.history l.noted } };

    ghost invariant = { λ l. (l.front ≡ length (log_of O.state.history l.noted))
        × StandsFor P.growth P.room O.state O.crashes
        (state_of l.core.history (P.shown l.core.keeper)) (P.crashes l.core.keeper)
        (log_of O.state.history l.noted)
        × IsClaiming (town l.core.history) l.core.rows (log_of O.state.history l.noted)
        l.front l.claimed
        × (callers_in (town l.core.history) ≡ callers_in (town O.state.history)) };
}

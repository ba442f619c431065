//! The opening that a log begins with, for contracts alone.
ghost use Rattle.std.specs.Prelude.{[], None, false};
ghost use Rattle.fedi_log.specs.Keeping.{State};
ghost use Rattle.fedi_outside.specs.Keepers.{Crashes};

use std::marker::Brand;

/// The machine as it was opened, for contracts alone. A call that opens a machine picks `Brand` for
/// it, and specifies the machine that it denotes.
pub trait Opened {
    /// The history, and what its keeper showed.
    ghost state: { State };

    /// What a crash might have left of the keeper's records up to that moment.
    ghost crashes: { Crashes };
}

impl Opened for Brand {
    ghost state = { record {
      history = [];
      keeper = record { records = None; held = 0; doubt = None; spare = 0; end = 0; faults = 0 };
    } };

    ghost crashes = { record { clock = 0; told = false; left_since = λ _ _. ⊥ } };
}

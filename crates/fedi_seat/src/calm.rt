//! Keepers that never fail.

ghost use Rattle.std.specs.Prelude.{◌≡◌, IsTrue, is_some};
ghost use Rattle.std.proofs.Common.{refl};

use fedi_outside::{CalmKeeper, Keeper};

/// A keeper that never fails, and that reports its records.
pub trait Calm: Keeper {
    /// No call has failed.
    ghost faultless: { (keeper : Self) → (Self.shown keeper).faults ≡ 0 };

    /// It reports its records.
    ghost reports: { (keeper : Self) → IsTrue (is_some (Self.shown keeper).records) };
}

impl Calm for CalmKeeper {
    ghost faultless = { λ _. refl };

    ghost reports = { λ _. refl };
}

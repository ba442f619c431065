//! The law of demonstrations: the contract of a function that does nothing.

ghost use Rattle.std.specs.Prelude.{◌≡◌, ℕ, List};
ghost use Rattle.fedi_demo.specs.Demonstrating.{IsDemo};

/// A number has at most one demonstration: what is printed for it is determined.
pub fn demonstrations_are_determined()
    ensures { (number : ℕ) (a b : List ℕ) → IsDemo number a → IsDemo number b → a ≡ b }
{}

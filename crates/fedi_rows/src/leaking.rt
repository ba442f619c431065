//! Values that tests lend and never drop.

ghost use Rattle.std.specs.Prelude.{◌≡◌};

use std::mem::ManuallyDrop;

/// The value, which is then lent and never dropped. A crate of tests proves for itself how each part
/// of a value is dropped, which for a shelf takes longer than the proofs of its tests.
pub fn leaked<T>(value: T) -> ManuallyDrop<T>
    ensures { result.value ≡ value }
{
    // The one condition is on values that must not be lost, and what tests make may be lost.
    unsafe { ManuallyDrop::new_unchecked(value) }
}

//! The seed of all look-ups.

use fedi_effects::Seed;

/// A seed, the same in each test.
pub fn seed() -> Seed {
    Seed::new(b"0123456789abcdef")
}

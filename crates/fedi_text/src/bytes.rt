//! Bytes whose capacity no clause sees.

ghost use Rattle.std.specs.Prelude.{◌≡◌};

use std::marker::Model;
use std::ops::DerefSlice;

/// A list of bytes. It is made from a `Vec` without taking memory.
#[derive(Drop)]
pub struct Bytes {
    bytes: Vec<u8>,
}

impl Model for Bytes {
    ghost use Rattle.std.specs.Prelude.{ℕ, List};

    ghost Value = { List ℕ };

    ghost view = { λ a. a.bytes.items };
}

impl Bytes {
    /// The bytes of a `Vec`.
    pub fn new(bytes: Vec<u8>) -> Bytes
        ensures { result ≡ bytes.items }
    {
        Bytes { bytes }
    }

    /// The bytes as a slice.
    pub fn bytes(&self) -> &[u8]
        ensures { result.now ≡ self.now }
    {
        self.bytes.as_slice()
    }
}

impl DerefSlice for Bytes {
    type Elem = u8;

    ghost deref_gives = { λ list bytes. bytes ≡ list };

    fn deref(&self) -> &[u8] {
        self.bytes()
    }
}

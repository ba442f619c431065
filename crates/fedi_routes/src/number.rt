//! Numbers in paths.

ghost use Rattle.std.specs.Prelude.{◌≡◌, ◌≢◌, ◌↔◌, ℕ, ◌<◌, decimal, IsTrue, MatchOption};
ghost use Rattle.std.specs.Prelude.{slice_index};
ghost use Rattle.fedi_model.specs.Places.{IsNumber};

/// The number, from 1 to 4,294,967,295, that these digits write without a leading zero.
pub(crate) fn number_of(digits: &str) -> Option<u32>
    ensures { MatchOption result
        ((number : ℕ) → IsNumber number → digits.now ≢ decimal number)
        (λ number. IsNumber number × (digits.now ≡ decimal number)) }
{
    if !begins_above_zero(digits.as_bytes()) {
        return None;
    }
    match digits.parse() {
        Ok(number) => Some(number),
        Err(_) => None,
    }
}

/// The digit that no number begins with.
const ZERO: u8 = b'0';

/// Whether there is a first byte, and it is greater than the digit 0.
fn begins_above_zero(digits: &[u8]) -> bool
    ensures { IsTrue result ↔ (ZERO < slice_index digits.now 0) }
{
    match digits.first() {
        Some(byte) => *byte > ZERO,
        None => false,
    }
}

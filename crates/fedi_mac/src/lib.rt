//! What the authentication of messages rests on: keys, their digests and their texts, and the codes
//! of messages. Nothing here takes memory.
#![tactic(auto)]

ghost use Rattle.std.specs.Prelude.{◌≡◌, ◌↔◌, length, IsTrue, IsSome, IfSome};
ghost use Rattle.std.specs.List.{AllPass};
ghost use Rattle.hex.specs.Hex.{decode_of, encode_lower, is_hex_digit};
ghost use Rattle.sha2.specs.Sha256.{sha256};
ghost use Rattle.fedi_mac.specs.Keys.{key_of};

mod laws;
mod mac;
mod signing;

use hex::FromHex;
pub use laws::codes_are_standard;
pub use mac::Mac;
use sha2::{Digest, Sha256};
pub use signing::sign;

/// The SHA-256 digest of the bytes (FIPS 180-4, section 6.2).
pub fn digest(bytes: &[u8]) -> [u8; 32]
    ensures { result ≡ sha256 bytes.now }
{
    Sha256::digest(bytes)
}

/// Whether the two are equal. Each byte is compared whatever the bytes before it were, so that the
/// time does not show where a wrong code first differs. It is for codes that a caller sends and the
/// server computes by `Mac`. A key is found by its SHA-256 digest: the time of that comparison does
/// not help to guess the key, so digests are compared by `==`. No clause speaks of time.
pub fn matches(a: &[u8; 32], b: &[u8; 32]) -> bool
    ensures { IsTrue result ↔ (a.now ≡ b.now) }
{
    let mut difference = 0u8;
    for (place, byte) in a.iter().enumerate() {
        difference |= *byte ^ b[place];
    }
    difference == 0
}

/// The key that the text writes in hexadecimal digits of either case (RFC 4648, section 8), or none
/// exactly if the text is not 64 such digits.
#[tactic(auto, unfolding(crate::specs::Keys::key_of))]
pub fn read_key(text: &[u8]) -> Option<[u8; 32]>
    ensures key { result ≡ key_of text.now }
    ensures found { IsSome result ↔ ((length text.now ≡ 64) × AllPass is_hex_digit text.now) }
    ensures value { IfSome result (λ key. decode_of text.now ≡ Ok key) }
{
    <[u8; 32] as FromHex>::from_hex(text).ok()
}

/// The hexadecimal digits of the bytes, in lower case (RFC 4648, section 8).
pub fn hex_text(bytes: &[u8; 32]) -> [u8; 64]
    ensures text { result ≡ encode_lower bytes.now }
    ensures back { key_of result ≡ Some bytes.now }
{
    let mut text = [0; 64];
    // It does not fail: the text has two digits for each byte.
    let _ = hex::encode_to_slice(bytes, &mut text);
    text
}

//! Keys that a client uses to mark a repeated post.

ghost use Rattle.std.specs.Prelude.{◌≡◌, IsTrue, IsSome, IfSome, ◌↔◌, bytes_eq};
ghost use Rattle.std.specs.Cmp.{partial_equiv_from_equiv};
ghost use Rattle.std.specs.Cmp.Lexicographic.{nat_list_eq_equiv};
ghost use Rattle.fedi_objects.specs.Keys.{is_repeat_key};

use crate::limits::has_visible_bytes;
use arrayvec::ArrayString;
use std::alloc::AllocError;
use std::marker::Model;
use std::str;

/// The longest key, in bytes.
const LONGEST: usize = 64;

/// The key of a post that may be repeated: 1 to 64 bytes, each from 33 to 126 (Idempotency-Key). It
/// takes no memory.
#[derive(Drop)]
pub struct RepeatKey {
    text: ArrayString<64>,
}

impl Model for RepeatKey {
    ghost use Rattle.std.specs.Prelude.{ℕ, List, IsTrue};
    ghost use Rattle.fedi_objects.specs.Keys.{is_repeat_key};

    ghost Value = { List ℕ };

    ghost view = { λ a. a.text.bytes };

    ghost invariant = { λ a. IsTrue (is_repeat_key a.text.bytes) };
}

fn is_repeat_key(text: &[u8]) -> bool
    ensures { result ≡ is_repeat_key text.now }
{
    1 <= text.len() && text.len() <= LONGEST && has_visible_bytes(text)
}

impl RepeatKey {
    /// The key with these bytes. `None` exactly if they are not 1 to 64 bytes from 33 to 126.
    #[tactic(auto, using(crate::proofs::KeyLemmas::key_is_utf8))]
    pub fn parse(text: &[u8]) -> Option<RepeatKey>
        ensures some { IsSome result ↔ IsTrue (is_repeat_key text.now) }
        ensures value { IfSome result (λ key. key ≡ text.now) }
    {
        if !is_repeat_key(text) {
            return None;
        }
        let text = str::from_utf8(text).ok()?;
        let text = ArrayString::from(text).ok()?;
        Some(RepeatKey { text })
    }

    /// The bytes of the key: 1 to 64 bytes from 33 to 126.
    pub fn bytes(&self) -> &[u8]
        ensures value { result.now ≡ self.now }
        ensures shape { IsTrue (is_repeat_key self.now) }
    {
        self.text.as_str().as_bytes()
    }

    /// A copy. It takes no memory.
    pub fn copy(&self) -> RepeatKey
        ensures { result ≡ self.now }
    {
        RepeatKey { text: self.text }
    }
}

impl Clone for RepeatKey {
    ghost is_clone = { λ key copy. copy ≡ key };

    fn clone(&self) -> Result<RepeatKey, AllocError> {
        Ok(RepeatKey { text: self.text })
    }
}

impl PartialEq for RepeatKey {
    ghost eq = { bytes_eq };

    ghost laws = { partial_equiv_from_equiv nat_list_eq_equiv };

    fn eq(&self, other: &RepeatKey) -> bool {
        self.bytes() == other.bytes()
    }
}

impl Eq for RepeatKey {
    ghost laws = { nat_list_eq_equiv };
}

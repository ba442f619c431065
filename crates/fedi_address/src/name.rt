//! Names of members.

ghost use Rattle.std.specs.Prelude.{◌≡◌, IsTrue, IsSome, IfSome, ◌↔◌, bytes_eq};
ghost use Rattle.std.specs.List.{list_all};
ghost use Rattle.fedi_address.specs.Names.{is_name};
ghost use Rattle.fedi_address.specs.Names as names;
ghost use Rattle.std.specs.Cmp.{partial_equiv_from_equiv};
ghost use Rattle.std.specs.Cmp.Lexicographic.{nat_list_eq_equiv};

use arrayvec::ArrayString;
use std::alloc::AllocError;
use std::marker::Model;
use std::ops::DerefStr;

/// The name of a member: 1 to 30 bytes of `a` to `z`, `0` to `9` and `_`. It takes no memory.
#[derive(Drop)]
pub struct LocalName {
    text: ArrayString<30>,
}

impl Model for LocalName {
    ghost use Rattle.std.specs.Prelude.{ℕ, List, IsTrue};
    ghost use Rattle.fedi_address.specs.Names.{is_name};

    ghost Value = { List ℕ };

    ghost view = { λ a. a.text.bytes };

    ghost invariant = { λ a. IsTrue (is_name a.text.bytes) };
}

fn is_name_byte(byte: u8) -> bool
    ensures { result ≡ names.is_name_byte byte }
{
    byte.is_ascii_lowercase() || byte.is_ascii_digit() || byte == b'_'
}

fn has_name_bytes(text: &[u8]) -> bool
    ensures { result ≡ list_all names.is_name_byte text.now }
{
    text.iter().all(|byte| is_name_byte(*byte))
}

fn is_name(text: &[u8]) -> bool
    ensures { result ≡ names.is_name text.now }
{
    if text.is_empty() || text.len() > LocalName::LONGEST {
        return false;
    }
    has_name_bytes(text)
}

impl LocalName {
    /// The longest name, in bytes.
    pub const LONGEST: usize = 30;

    /// The name with this text. `None` if the text is not 1 to 30 bytes of `a` to `z`, `0` to `9`
    /// and `_`.
    pub fn parse(text: &str) -> Option<LocalName>
        ensures name { IsSome result ↔ IsTrue (is_name text.now) }
        ensures same { IfSome result (λ name. name ≡ text.now) }
    {
        if !is_name(text.as_bytes()) {
            return None;
        }
        let text = ArrayString::from(text).ok()?;
        Some(LocalName { text })
    }

    /// The text of the name.
    pub fn text(&self) -> &str
        ensures value { result.now ≡ self.now }
        ensures name { IsTrue (is_name self.now) }
    {
        self.text.as_str()
    }

    /// A copy. It takes no memory.
    pub fn copy(&self) -> LocalName
        ensures { result ≡ self.now }
    {
        LocalName { text: self.text }
    }
}

impl Clone for LocalName {
    ghost is_clone = { λ name copy. copy ≡ name };

    fn clone(&self) -> Result<LocalName, AllocError> {
        Ok(LocalName { text: self.text })
    }
}

impl PartialEq for LocalName {
    ghost eq = { bytes_eq };

    ghost laws = { partial_equiv_from_equiv nat_list_eq_equiv };

    fn eq(&self, other: &LocalName) -> bool {
        self.text.as_str() == other.text.as_str()
    }
}

impl Eq for LocalName {
    ghost laws = { nat_list_eq_equiv };
}

impl DerefStr for LocalName {
    ghost deref_gives = { λ name text. text ≡ name };

    fn deref(&self) -> &str {
        self.text.as_str()
    }
}

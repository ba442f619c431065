//! Appending values to a buffer.
//!
//! The values keep their limits, so only lengths and counts are tested: one that does not fit in
//! four bytes is refused as out of memory.

ghost use Rattle.std.specs.Prelude.{◌≡◌, ◌<◌, ◌^◌, ◌∷◌, [], ◌++◌, length, IfSome, IsTrue, OnOk};
ghost use Rattle.std.specs.List.{flat_map, All};
ghost use Rattle.std.specs.Str.{is_utf8};
ghost use Rattle.fedi_entry.specs.Codes.{bool_code, option_code, text_code, u16_code, u32_code};
ghost use Rattle.fedi_entry.specs.Codes.{u64_code};
ghost use Rattle.fedi_entry.specs.Fields.{IsKey, IsMoment};

use fedi_address::{Host, Iri, Items, LocalName};
use fedi_objects::Edit;
use fedi_text::{Moment, Text};
use std::alloc::AllocError;

/// A value that has a code, limits that its type does not imply, and a form in which it is read
/// again.
pub trait Encode {
    ghost use Rattle.std.specs.Prelude.{List, ℕ};

    ghost code: { Self → List ℕ };

    ghost limits: { Self → Type 0 };

    ghost form: { Self → Type 0 };

    /// Appends the code of the value, which keeps its limits. The error is out of memory; it is
    /// also returned if a length or a count does not fit in four bytes. After an error the buffer
    /// ends with a part of the code.
    fn put(&self, bytes: &mut Vec<u8>) -> Result<(), AllocError>
        requires limits { limits self.now }
        ensures code { OnOk result (bytes.new.items ≡ bytes.old.items ++ code self.now) }
        ensures formed { OnOk result (form self.now) };
}

/// Appends one byte.
pub fn put_byte(bytes: &mut Vec<u8>, byte: u8) -> Result<(), AllocError>
    ensures { OnOk result (bytes.new.items ≡ bytes.old.items ++ byte ∷ []) }
{
    bytes.push(byte)?;
    Ok(())
}

/// Appends a byte: 1 for yes, 0 for no.
pub fn put_bool(bytes: &mut Vec<u8>, value: bool) -> Result<(), AllocError>
    ensures { OnOk result (bytes.new.items ≡ bytes.old.items ++ bool_code value) }
{
    put_byte(bytes, if value { 1 } else { 0 })
}

/// Appends a status.
#[tactic(auto, unfolding(crate::specs::Codes::u16_code))]
pub fn put_status(bytes: &mut Vec<u8>, status: u16) -> Result<(), AllocError>
    ensures { OnOk result (bytes.new.items ≡ bytes.old.items ++ u16_code status) }
{
    bytes.extend_from_slice(&status.to_be_bytes())
}

/// Appends a length or a count. One that does not fit in four bytes is refused.
#[tactic(auto, unfolding(crate::specs::Codes::u32_code))]
fn put_count(bytes: &mut Vec<u8>, count: usize) -> Result<(), AllocError>
    ensures code { OnOk result (bytes.new.items ≡ bytes.old.items ++ u32_code count) }
    ensures short { OnOk result (count < 2 ^ 32) }
{
    match u32::try_from(count) {
        Ok(count) => bytes.extend_from_slice(&count.to_be_bytes()),
        Err(_) => Err(AllocError),
    }
}

/// Appends a moment.
#[tactic(auto, unfolding(crate::specs::Codes::u64_code))]
pub fn put_moment(bytes: &mut Vec<u8>, moment: Moment) -> Result<(), AllocError>
    ensures code { OnOk result (bytes.new.items ≡ bytes.old.items ++ u64_code moment) }
    ensures formed { OnOk result (IsMoment moment) }
{
    bytes.extend_from_slice(&moment.seconds().to_be_bytes())
}

/// Appends a key or a digest.
pub fn put_key(bytes: &mut Vec<u8>, key: &[u8; 32]) -> Result<(), AllocError>
    ensures code { OnOk result (bytes.new.items ≡ bytes.old.items ++ key.now) }
    ensures formed { OnOk result (IsKey key.now) }
{
    bytes.extend_from_slice(key)
}

/// Appends the bytes of a text, or of a repeat key, preceded by their length.
#[tactic(auto, unfolding(crate::specs::Codes::text_code))]
pub fn put_bytes(bytes: &mut Vec<u8>, text: &[u8]) -> Result<(), AllocError>
    ensures { OnOk result (bytes.new.items ≡ bytes.old.items ++ text_code text.now) }
{
    put_count(bytes, text.len())?;
    bytes.extend_from_slice(text)
}

/// Appends a text, preceded by its length.
#[tactic(auto, using(crate::proofs::Texts::is_utf8_text))]
pub fn put_text(bytes: &mut Vec<u8>, text: &str) -> Result<(), AllocError>
    ensures code { OnOk result (bytes.new.items ≡ bytes.old.items ++ text_code text.now) }
    ensures utf8 { OnOk result (IsTrue (is_utf8 text.now)) }
{
    put_bytes(bytes, text.as_bytes())
}

/// Appends a text, if there is one.
#[tactic(auto, unfolding(crate::specs::Codes::option_code))]
pub fn put_text_option(bytes: &mut Vec<u8>, text: &Option<Text>) -> Result<(), AllocError>
    ensures code { OnOk result (bytes.new.items
        ≡ bytes.old.items ++ option_code text_code text.now) }
    ensures utf8 { OnOk result (IfSome text.now (λ bytes. IsTrue (is_utf8 bytes))) }
{
    match text {
        None => put_byte(bytes, 0),
        Some(text) => {
            put_byte(bytes, 1)?;
            put_text(bytes, text.text())
        }
    }
}

impl Encode for Iri {
    ghost use Rattle.fedi_entry.specs.Codes.{text_code};
    ghost use Rattle.fedi_entry.specs.Fields.{is_iri, IsText};

    ghost code = { text_code };

    ghost limits = { λ _. Unit {0} };

    ghost form = { IsText is_iri };

    #[tactic(auto, unfolding(crate::specs::Fields::is_iri))]
    fn put(&self, bytes: &mut Vec<u8>) -> Result<(), AllocError> {
        put_text(bytes, self.text())
    }
}

// A content, a summary or a name.
impl Encode for Text {
    ghost use Rattle.fedi_objects.specs.Limits.{is_text};
    ghost use Rattle.fedi_entry.specs.Codes.{text_code};
    ghost use Rattle.fedi_entry.specs.Fields.{IsText};
    ghost use Rattle.fedi_entry.specs.Limits.{Passes};

    ghost code = { text_code };

    ghost limits = { Passes is_text };

    ghost form = { IsText is_text };

    fn put(&self, bytes: &mut Vec<u8>) -> Result<(), AllocError> {
        put_text(bytes, self.text())
    }
}

impl Encode for Host {
    ghost use Rattle.fedi_entry.specs.Codes.{text_code};
    ghost use Rattle.fedi_entry.specs.Fields.{is_host, IsText};

    ghost code = { text_code };

    ghost limits = { λ _. Unit {0} };

    ghost form = { IsText is_host };

    #[tactic(auto, unfolding(crate::specs::Fields::is_host))]
    fn put(&self, bytes: &mut Vec<u8>) -> Result<(), AllocError> {
        put_text(bytes, self.text())
    }
}

impl Encode for LocalName {
    ghost use Rattle.fedi_address.specs.Names.{is_name};
    ghost use Rattle.fedi_entry.specs.Codes.{text_code};
    ghost use Rattle.fedi_entry.specs.Fields.{IsText};

    ghost code = { text_code };

    ghost limits = { λ _. Unit {0} };

    ghost form = { IsText is_name };

    fn put(&self, bytes: &mut Vec<u8>) -> Result<(), AllocError> {
        put_text(bytes, self.text())
    }
}

impl<T: Encode> Encode for Option<T> {
    ghost use Rattle.std.specs.Prelude.{IfSome};
    ghost use Rattle.fedi_entry.specs.Codes.{option_code};

    ghost code = { option_code T.code };

    ghost limits = { λ o. IfSome o T.limits };

    ghost form = { λ o. IfSome o T.form };

    #[tactic(auto, unfolding(crate::specs::Codes::option_code))]
    fn put(&self, bytes: &mut Vec<u8>) -> Result<(), AllocError> {
        match self {
            None => put_byte(bytes, 0),
            Some(value) => {
                put_byte(bytes, 1)?;
                value.put(bytes)
            }
        }
    }
}

impl<T: Encode> Encode for Edit<T> {
    ghost use Rattle.fedi_entry.specs.Codes.{edit_code};
    ghost use Rattle.fedi_entry.specs.Fields.{IfGiven};

    ghost code = { edit_code T.code };

    ghost limits = { IfGiven T.limits };

    ghost form = { IfGiven T.form };

    #[tactic(auto, unfolding(crate::specs::Codes::edit_code))]
    fn put(&self, bytes: &mut Vec<u8>) -> Result<(), AllocError> {
        match self {
            Edit::Keep => put_byte(bytes, 0),
            Edit::Remove => put_byte(bytes, 1),
            Edit::Give(value) => {
                put_byte(bytes, 2)?;
                value.put(bytes)
            }
        }
    }
}

// Appends each value.
fn put_each<T: Encode>(bytes: &mut Vec<u8>, items: &[T]) -> Result<(), AllocError>
    requires limits { All T.limits items.now }
    ensures code { OnOk result (bytes.new.items ≡ bytes.old.items ++ flat_map T.code items.now) }
    ensures formed { OnOk result (All T.form items.now) }
{
    for item in items {
        item.put(bytes)?;
    }
    Ok(())
}

impl<T: Encode> Encode for Items<T> {
    ghost use Rattle.std.specs.List.{AllByRecursion};
    ghost use Rattle.fedi_entry.specs.Codes.{list_code};
    ghost use Rattle.fedi_entry.specs.Fields.{IsList};

    ghost code = { list_code T.code };

    ghost limits = { AllByRecursion T.limits };

    ghost form = { IsList T.form };

    #[tactic(auto, using(std::proofs::lemmas::List::Elements::recursion_from_All), unfolding(crate::specs::Codes::list_code))]
    fn put(&self, bytes: &mut Vec<u8>) -> Result<(), AllocError> {
        put_count(bytes, self.len())?;
        put_each(bytes, self.as_slice())
    }
}

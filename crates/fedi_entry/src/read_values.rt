//! Reading values by their types.

ghost use Rattle.std.specs.Prelude.{◌≡◌, ◌↔◌, IfSome, IsSome, IsTrue};
ghost use Rattle.fedi_objects.specs.Keys.{is_repeat_key};
ghost use Rattle.fedi_entry.specs.Reading.{items_at, Takes, TakesAs};

use crate::fault::ReadFault;
use crate::limits::Limit;
use crate::reader::Reader;
use fedi_address::{Iri, Items, LocalName};
use fedi_objects::{Boxed, Edit, RepeatKey};
use fedi_text::{Moment, Text};
use std::marker::Model;

/// A value that is read from its code.
pub trait Decode: Sized {
    ghost use Rattle.std.specs.Prelude.{List, ℕ, Result};

    ghost at: { List ℕ → Result (Self × List ℕ) ℕ };

    /// Reads the value at the front of the remaining bytes.
    fn decode(reader: &mut Reader<'_>) -> Result<Self, ReadFault>
        ensures { Takes result reader.new (at reader.old) };
}

impl Decode for bool {
    ghost use Rattle.fedi_entry.specs.Reading.{flag_at};

    ghost at = { flag_at };

    #[tactic(auto, unfolding(crate::specs::Reading::flag_at))]
    fn decode(reader: &mut Reader<'_>) -> Result<bool, ReadFault> {
        let fault = reader.fault();
        match reader.byte()? {
            0 => Ok(false),
            1 => Ok(true),
            _ => Err(fault),
        }
    }
}

impl Decode for Moment {
    ghost use Rattle.fedi_entry.specs.Reading.{moment_at};

    ghost at = { moment_at };

    #[tactic(auto, unfolding(crate::specs::Reading::moment_at))]
    fn decode(reader: &mut Reader<'_>) -> Result<Moment, ReadFault> {
        let fault = reader.fault();
        match Moment::new(reader.long()?) {
            Some(moment) => Ok(moment),
            None => Err(fault),
        }
    }
}

// A key or a digest.
impl Decode for [u8; 32] {
    ghost use Rattle.fedi_entry.specs.Reading.{bytes_at};

    ghost at = { bytes_at 32 };

    fn decode(reader: &mut Reader<'_>) -> Result<[u8; 32], ReadFault> {
        reader.key()
    }
}

impl Decode for LocalName {
    ghost use Rattle.fedi_address.specs.Names.{is_name};
    ghost use Rattle.fedi_entry.specs.Reading.{text_at};

    ghost at = { text_at is_name };

    #[tactic(auto, unfolding(crate::specs::Reading::text_at))]
    fn decode(reader: &mut Reader<'_>) -> Result<LocalName, ReadFault> {
        let fault = reader.fault();
        match LocalName::parse(reader.text()?) {
            Some(name) => Ok(name),
            None => Err(fault),
        }
    }
}

// The key for repeats with these bytes.
fn key_of(text: &str) -> Option<RepeatKey>
    ensures key { IsSome result ↔ IsTrue (is_repeat_key text.now) }
    ensures same { IfSome result (λ key. key ≡ text.now) }
{
    RepeatKey::parse(text.as_bytes())
}

impl Decode for RepeatKey {
    ghost use Rattle.fedi_objects.specs.Keys.{is_repeat_key};
    ghost use Rattle.fedi_entry.specs.Reading.{text_at};

    ghost at = { text_at is_repeat_key };

    #[tactic(auto, unfolding(crate::specs::Reading::text_at))]
    fn decode(reader: &mut Reader<'_>) -> Result<RepeatKey, ReadFault> {
        let fault = reader.fault();
        match key_of(reader.text()?) {
            Some(key) => Ok(key),
            None => Err(fault),
        }
    }
}

impl Decode for Iri {
    ghost use Rattle.fedi_entry.specs.Reading.{iri_at};

    ghost at = { iri_at };

    fn decode(reader: &mut Reader<'_>) -> Result<Iri, ReadFault> {
        reader.iri()
    }
}

// A content, a summary or a name.
impl Decode for Text {
    ghost use Rattle.fedi_entry.specs.Reading.{content_at};

    ghost at = { content_at };

    fn decode(reader: &mut Reader<'_>) -> Result<Text, ReadFault> {
        reader.limited(Limit::Content)
    }
}

/// A type.
#[derive(Drop)]
pub struct KindName {
    pub text: Text,
}

impl Model for KindName {
    ghost use Rattle.std.specs.Prelude.{ℕ, List};

    ghost Value = { List ℕ };

    ghost view = { λ k. k.text };
}

impl Decode for KindName {
    ghost use Rattle.fedi_objects.specs.Limits.{is_type};
    ghost use Rattle.fedi_entry.specs.Reading.{text_at};

    ghost at = { text_at is_type };

    fn decode(reader: &mut Reader<'_>) -> Result<KindName, ReadFault> {
        Ok(KindName {
            text: reader.limited(Limit::Kind)?,
        })
    }
}

/// A date, as it was given.
#[derive(Drop)]
pub struct Date {
    pub text: Text,
}

impl Model for Date {
    ghost use Rattle.std.specs.Prelude.{ℕ, List};

    ghost Value = { List ℕ };

    ghost view = { λ d. d.text };
}

impl Decode for Date {
    ghost use Rattle.fedi_entry.specs.Reading.{date_at};

    ghost at = { date_at };

    fn decode(reader: &mut Reader<'_>) -> Result<Date, ReadFault> {
        Ok(Date {
            text: reader.limited(Limit::Date)?,
        })
    }
}

/// The address where a peer is reached.
#[derive(Drop)]
pub struct Address {
    pub text: Text,
}

impl Model for Address {
    ghost use Rattle.std.specs.Prelude.{ℕ, List};

    ghost Value = { List ℕ };

    ghost view = { λ a. a.text };
}

impl Decode for Address {
    ghost use Rattle.fedi_objects.specs.Limits.{is_address};
    ghost use Rattle.fedi_entry.specs.Reading.{text_at};

    ghost at = { text_at is_address };

    fn decode(reader: &mut Reader<'_>) -> Result<Address, ReadFault> {
        Ok(Address {
            text: reader.limited(Limit::Address)?,
        })
    }
}

// A value on the heap.
impl<T: Decode + Drop> Decode for Boxed<T> {
    ghost at = { T.at };

    fn decode(reader: &mut Reader<'_>) -> Result<Boxed<T>, ReadFault> {
        let value = T::decode(reader)?;
        Ok(Boxed::new(reader.allocator(), value)?)
    }
}

// A value, followed by another one.
impl<A: Decode + Drop, B: Decode> Decode for (A, B) {
    ghost use Rattle.fedi_entry.specs.Reading.{◌&◌};

    ghost at = { A.at & B.at };

    fn decode(reader: &mut Reader<'_>) -> Result<(A, B), ReadFault> {
        let first = A::decode(reader)?;
        Ok((first, B::decode(reader)?))
    }
}

impl<T: Decode> Decode for Option<T> {
    ghost use Rattle.fedi_entry.specs.Reading.{option_at};

    ghost at = { option_at T.at };

    #[tactic(auto, unfolding(crate::specs::Reading::option_at))]
    fn decode(reader: &mut Reader<'_>) -> Result<Option<T>, ReadFault> {
        if bool::decode(reader)? {
            Ok(Some(T::decode(reader)?))
        } else {
            Ok(None)
        }
    }
}

impl<T: Decode> Decode for Edit<T> {
    ghost use Rattle.fedi_entry.specs.Reading.{edit_at};

    ghost at = { edit_at T.at };

    #[tactic(auto, unfolding(crate::specs::Reading::edit_at))]
    fn decode(reader: &mut Reader<'_>) -> Result<Edit<T>, ReadFault> {
        let fault = reader.fault();
        match reader.byte()? {
            0 => Ok(Edit::Keep),
            1 => Ok(Edit::Remove),
            2 => Ok(Edit::Give(T::decode(reader)?)),
            _ => Err(fault),
        }
    }
}

// Reads `count` values, one after the other.
fn take_items<T: Decode + Drop>(reader: &mut Reader<'_>, count: u32) -> Result<Vec<T>, ReadFault>
    ensures { TakesAs (λ items. items.items) result reader.new (items_at T.at count reader.old) }
{
    let mut items = Vec::new(reader.allocator());
    for _ in 0..count {
        let item = T::decode(reader)?;
        items.push(item)?;
    }
    Ok(items)
}

impl<T: Decode + Drop> Decode for Items<T> {
    ghost use Rattle.fedi_entry.specs.Reading.{list_at};

    ghost at = { list_at T.at };

    #[tactic(auto, unfolding(crate::specs::Reading::list_at))]
    fn decode(reader: &mut Reader<'_>) -> Result<Items<T>, ReadFault> {
        let count = reader.count()?;
        Ok(Items::new(take_items(reader, count)?))
    }
}

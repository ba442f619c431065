//! Queries of targets (RFC 3986, section 3.4), which are read as forms (URL Standard, section 5.1).

ghost use Rattle.std.specs.Prelude.{◌≡◌, bytes_eq, IfOk};
ghost use Rattle.fedi_model.specs.Queries.{decoded, values_of};

use fedi_address::Items;
use fedi_text::Text;
use form_urlencoded::{decode, raw_pairs};
use std::alloc::{AllocError, Global};

/// The values of the pairs of this name, in order. The error is out of memory.
#[tactic(auto, unfolding(fedi_model::specs::Queries::values_of))]
pub(crate) fn values_of(alloc: Global, query: &[u8], key: &str) -> Result<Items<Text>, AllocError>
    ensures { IfOk result (λ values. values ≡ values_of key.now query.now) }
{
    let mut values = Items::empty(alloc);
    for (name, value) in raw_pairs(query) {
        if writes(alloc, name, key)? {
            values.push(decoded_text(alloc, value)?)?;
        }
    }
    Ok(values)
}

/// Whether the bytes write this text.
fn writes(alloc: Global, bytes: &[u8], text: &str) -> Result<bool, AllocError>
    ensures { IfOk result (λ same. same ≡ bytes_eq (decoded bytes.now) text.now) }
{
    Ok(decode(alloc, bytes)?.as_str() == text)
}

/// The text that the bytes write.
fn decoded_text(alloc: Global, bytes: &[u8]) -> Result<Text, AllocError>
    ensures { IfOk result (λ text. text ≡ decoded bytes.now) }
{
    Ok(Text::new(decode(alloc, bytes)?.into_owned(alloc)?))
}

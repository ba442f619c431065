//! How long a request is, and whether another may follow it (RFC 9112, sections 6 and 9).

ghost use Rattle.std.specs.Prelude.{◌≡◌, ◌≢◌, ◌≤◌, List, not, Some, None, IfOk, IfErr, MatchResult};
ghost use Rattle.std.specs.Prelude.{position};
ghost use Rattle.fedi_model.specs.Requests as model;
ghost use Rattle.fedi_model.specs.Requests.{Field};
ghost use Rattle.fedi_http.specs.Fields.{AreKnown, IsLength, IsNoLength};

use crate::fields::{KnownFields, is_same_name};
use fedi_model::{BODY_LIMIT, Coding, Refusal};
use fedi_text::read_decimal;

/// How the end of the body is found, for a request with a method of this name, this version and
/// these fields. The error says why the request is refused. It is `BadHead` unless `Host` occurs
/// exactly once or the version is HTTP/1.0, no field that may occur only once is repeated, the body
/// is not measured by both `Content-Length` and `Transfer-Encoding`, and the length is a number of
/// 1 to 19 digits. Otherwise it is `NoCoding` unless `Transfer-Encoding` is `chunked`, ignoring
/// case, `NoLength` for a POST with neither field, and `TooLong` for a length over `BODY_LIMIT`.
pub(crate) fn coding_of(method: &[u8], minor: u8, known: &KnownFields) -> Result<Coding, Refusal>
    ensures coding { (fields : List Field) → AreKnown fields known.now → MatchResult result
        (λ coding. (model.fields_refusal method.now minor fields ≡ None)
        × (coding ≡ model.coding_of fields))
        (λ refusal. model.fields_refusal method.now minor fields ≡ Some refusal) }
    ensures short { IfOk result (λ coding. model.length_in coding ≤ BODY_LIMIT) }
    ensures no_memory { IfErr result (λ e. e ≢ Refusal.Memory) }
{
    if !known.has_host(minor) || !known.has_no_repeats() {
        return Err(Refusal::BadHead);
    }
    match (known.transfer_encoding.value, known.content_length.value) {
        (Some(_), Some(_)) => Err(Refusal::BadHead),
        (Some(coding), None) if is_chunked(coding) => Ok(Coding::Chunked),
        (Some(_), None) => Err(Refusal::NoCoding),
        (None, Some(length)) => length_of(length),
        (None, None) if is_post(method) => Err(Refusal::NoLength),
        (None, None) => Ok(Coding::Length(0)),
    }
}

/// Whether the method with this name is POST.
fn is_post(method: &[u8]) -> bool
    ensures { result ≡ model.is_post method.now }
{
    method == b"POST".as_slice()
}

/// Whether the coding is `chunked`, ignoring case.
#[tactic(auto, unfolding(fedi_model::specs::Requests::is_chunked))]
fn is_chunked(coding: &[u8]) -> bool
    ensures { result ≡ model.is_chunked coding.now }
{
    is_same_name(coding, b"chunked")
}

/// The length that a `Content-Length` gives. The error is `BadHead` if the value is not a number of
/// 1 to 19 digits, and `TooLong` if the length is over `BODY_LIMIT`.
fn length_of(value: &[u8]) -> Result<Coding, Refusal>
    ensures length { MatchResult result
        (λ coding. IsLength value.now coding)
        (λ refusal. IsNoLength value.now refusal) }
    ensures no_memory { IfErr result (λ e. e ≢ Refusal.Memory) }
{
    match read_decimal(value) {
        Some(length) if length <= BODY_LIMIT as u64 => Ok(Coding::Length(length as usize)),
        Some(_) => Err(Refusal::TooLong),
        None => Err(Refusal::BadHead),
    }
}

/// Whether one of the elements between the commas is `close`.
#[tactic(auto, unfolding(fedi_model::specs::Requests::lists_close))]
pub(crate) fn lists_close(value: &[u8]) -> bool
    ensures { result ≡ model.lists_close value.now }
{
    value.split(|byte| *byte == b',').any(is_close)
}

/// Whether the element without the blanks around it is `close`, ignoring case.
#[tactic(auto, unfolding(fedi_model::specs::Requests::is_close))]
fn is_close(element: &[u8]) -> bool
    ensures { result ≡ model.is_close element.now }
{
    is_same_name(trim_end(trim_start(element)), b"close")
}

/// The text from its first byte on that is not blank.
fn trim_start(text: &[u8]) -> &[u8]
    ensures { result.now ≡ model.trim_start text.now }
{
    match first_not_blank(text) {
        Some(start) => &text[start..],
        None => &[],
    }
}

/// The index of the first byte that is not blank.
fn first_not_blank(text: &[u8]) -> Option<usize>
    ensures { result ≡ position (λ byte. not (model.is_blank byte)) text.now }
{
    text.iter().position(|byte| !is_blank(*byte))
}

/// The text up to its last byte that is not blank.
pub fn trim_end(text: &[u8]) -> &[u8]
    ensures { result.now ≡ model.trim_end text.now }
{
    let mut end = text.len();
    'blanks: while end > 0 && is_blank(text[end - 1]) {
        end -= 1;
    }
    &text[..end]
}

/// Whether the byte is a space or a tab.
fn is_blank(byte: u8) -> bool
    ensures { result ≡ model.is_blank byte }
{
    byte == b' ' || byte == b'\t'
}

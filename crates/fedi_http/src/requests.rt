//! Reading the head of a request (RFC 9112, sections 2 to 5).

ghost use Rattle.std.specs.Prelude.{◌≡◌, ◌≢◌, ℕ, ◌≤◌, List, MatchOption, true, false, ◌&&◌, length};
ghost use Rattle.std.specs.Prelude.{All, IfOk, IfErr, IfSome, IsSome, if◌then◌else◌, option_copied};
ghost use Rattle.std.specs.Str.{is_utf8};
ghost use Rattle.httparse.specs.Grammar.{RequestHead, IsToken};
ghost use Rattle.httparse.specs.Spans.{IsRequestAt, IsRequestWithin, IsHeaderWithin, span_bytes};
ghost use Rattle.fedi_model.specs.Requests as model;
ghost use Rattle.fedi_model.specs.Requests.{Field};
ghost use Rattle.fedi_http.specs.Fields.{AreKnown};
ghost use Rattle.fedi_http.specs.Spans.{refusal_by, request_by};

use crate::fields::KnownFields;
use crate::framing::coding_of;
use fedi_model::{BODY_LIMIT, Fields, Refusal, Request};
use fedi_text::Bytes;
use http::Method;
use httparse::Status;
use httparse::spans::{EMPTY_HEADER_SPAN, HeaderSpan, RequestSpans, parse_request};
use memchr::memchr_iter;
use std::alloc::{AllocError, Global};

/// The maximum number of fields in a head.
pub const MOST_FIELDS: usize = 64;

/// Reads the bytes of one whole head as a request, whose body is still to be read. The error is
/// `HeadTooLong` if there are more than 64 lines between the first line and the empty line. It is
/// `BadHead` if the bytes are not one head of at most 64 fields, or if the head is not served: its
/// target does not begin with a slash, it does not have exactly one `Host` under HTTP/1.1, it
/// repeats a field that may occur only once, it has both `Content-Length` and `Transfer-Encoding`,
/// or its `Content-Length` is not a number of 1 to 19 digits. Otherwise it is `NoCoding` if
/// `Transfer-Encoding` is not `chunked`, `NoLength` for a POST with neither of the two, `TooLong`
/// if `Content-Length` is over 262,144, and `Memory` if memory runs out for the request.
#[tactic(auto, using(crate::proofs::RequestLemmas::reads_once))]
pub fn read_request_head(alloc: Global, text: &[u8]) -> Result<Request, Refusal>
    ensures ok { IfOk result (λ request. model.ReadsAs MOST_FIELDS text.now (Ok request)) }
    ensures refused { IfErr result (λ e.
        e ≢ Refusal.Memory → model.ReadsAs MOST_FIELDS text.now (Err e)) }
    // Memory runs out only for a head that is not refused.
    ensures memory { IfErr result (λ e. e ≡ Refusal.Memory
        → (request : Request) × model.ReadsAs MOST_FIELDS text.now (Ok request)) }
    ensures short { IfOk result (λ request. model.length_in request.coding ≤ BODY_LIMIT) }
    ensures once { model.IsReadOnce MOST_FIELDS text.now }
{
    if line_count(text) > MOST_FIELDS {
        return Err(Refusal::HeadTooLong);
    }
    let mut spans = [EMPTY_HEADER_SPAN; MOST_FIELDS];
    match whole_head(text, &mut spans) {
        Some(head) => request_at(alloc, text, head, &spans[..head.headers]),
        None => Err(Refusal::BadHead),
    }
}

/// The number of lines between the first line of the head and the empty line that ends it.
fn line_count(text: &[u8]) -> usize
    ensures { result ≡ model.line_count text.now }
{
    memchr_iter(b'\n', text).count().saturating_sub(2)
}

/// The positions of the parts of the head, if the text is one whole head whose fields fit.
fn whole_head(text: &[u8], spans: &mut [HeaderSpan]) -> Option<RequestSpans>
    ensures within { IfSome result (IsRequestWithin text.now spans.new) }
    ensures head { IfSome result (λ head. (h : RequestHead)
        × model.IsHead (length spans.old) text.now h × IsRequestAt text.now spans.new head h) }
    ensures found { (h : RequestHead) → model.IsHead (length spans.old) text.now h
        → IfSome result (λ head. IsRequestAt text.now spans.new head h) }
    ensures some { (h : RequestHead) → model.IsHead (length spans.old) text.now h → IsSome result }
    ensures method { IfSome result (λ head. IsToken (span_bytes text.now head.method)) }
{
    match parse_request(text, spans) {
        Ok(Status::Complete(head)) if head.len == text.len() => Some(head),
        _ => None,
    }
}

/// The method with this name, which is a token. The error is that memory runs out for a long name.
fn method_of(alloc: Global, name: &[u8]) -> Result<Method, Refusal>
    requires { IsToken name.now }
    ensures ok { IfOk result (λ method. method ≡ name.now) }
    ensures err { IfErr result (λ e. e ≡ Refusal.Memory) }
{
    match Method::from_bytes(alloc, name) {
        Ok(method) => Ok(method),
        Err(_) => Err(Refusal::Memory),
    }
}

/// The request of the head at these positions.
fn request_at(
    alloc: Global,
    text: &[u8],
    head: RequestSpans,
    spans: &[HeaderSpan],
) -> Result<Request, Refusal>
    requires within { All (IsHeaderWithin (length text.now)) spans.now }
    requires method { IsToken (span_bytes text.now head.method) }
    requires named { head.method.start ≤ head.method.end }
    requires named_within { head.method.end ≤ length text.now }
    requires ordered { head.path.start ≤ head.path.end }
    requires in_range { head.path.end ≤ length text.now }
    ensures ok { IfOk result (λ request. (refusal_by text.now head spans.now ≡ None)
        × (request ≡ request_by text.now head spans.now)) }
    ensures refused { IfErr result (λ e.
        e ≢ Refusal.Memory → refusal_by text.now head spans.now ≡ Some e) }
    ensures memory { IfErr result (λ e.
        e ≡ Refusal.Memory → refusal_by text.now head spans.now ≡ None) }
    ensures short { IfOk result (λ request. model.length_in request.coding ≤ BODY_LIMIT) }
{
    let target = head.path.of(text);
    if !target.starts_with(b"/") {
        return Err(Refusal::BadHead);
    }
    let known = KnownFields::read(text, spans);
    let coding = coding_of(head.method.of(text), head.version, &known)?;
    let method = method_of(alloc, head.method.of(text))?;
    let head_only = method == Method::HEAD;
    Ok(Request {
        method,
        target: copied(alloc, target)?,
        fields: read_fields(alloc, &known)?,
        coding,
        keep_alive: head.version == 1 && !known.closes,
        head_only,
    })
}

/// Copies of the values that are still needed after the head.
fn read_fields(alloc: Global, known: &KnownFields) -> Result<Fields, Refusal>
    ensures ok { IfOk result (λ copies. (fields : List Field)
        → AreKnown fields known.now → copies ≡ model.known_fields fields) }
    ensures err { IfErr result (λ e. e ≡ Refusal.Memory) }
{
    Ok(Fields {
        authorization: copied_if_any(alloc, known.authorization.value)?,
        peer_host: copied_if_any(alloc, known.peer_host.value)?,
        peer_mac: copied_if_any(alloc, known.peer_mac.value)?,
        content_type: copied_if_any(alloc, known.content_type.value)?,
        idempotency_key: copied_if_any(alloc, known.idempotency_key.value)?,
    })
}

/// A copy of the value, if there is one.
fn copied_if_any(alloc: Global, value: Option<&[u8]>) -> Result<Option<Bytes>, Refusal>
    ensures ok { IfOk result (λ bytes. bytes ≡ option_copied value.entry) }
    ensures err { IfErr result (λ e. e ≡ Refusal.Memory) }
{
    match value {
        Some(value) => Ok(Some(copied(alloc, value)?)),
        None => Ok(None),
    }
}

/// A copy of the bytes.
fn copied(alloc: Global, bytes: &[u8]) -> Result<Bytes, Refusal>
    ensures ok { IfOk result (λ copy. copy ≡ bytes.now) }
    ensures err { IfErr result (λ e. e ≡ Refusal.Memory) }
{
    match Vec::from_slice(alloc, bytes) {
        Ok(copy) => Ok(Bytes::new(copy)),
        Err(AllocError) => Err(Refusal::Memory),
    }
}

/// The bytes as a text, if they are UTF-8 (RFC 3629).
pub fn text_of(bytes: &[u8]) -> Option<&str>
    ensures { option_copied result ≡ (if is_utf8 bytes.now then Some bytes.now else None) }
{
    str::from_utf8(bytes).ok()
}

//! Writing replies (RFC 9112, section 4).

ghost use Rattle.std.specs.Prelude.{◌≡◌, ◌+◌, ◌++◌, ◌≤◌, ◌<◌, List, OnOk, IfOk, length, codes};
ghost use Rattle.std.specs.Prelude.{Some, None, option_map};
ghost use Rattle.std.specs.List.{flat_map};
ghost use Rattle.fedi_model.specs.ReplyText as model;

use fedi_address::Iri;
use fedi_model::{Allow, Form, Reply};
use fedi_text::Moment;
use http::StatusCode;
use itoa::Buffer;
use std::alloc::{AllocError, Global};

/// The capacity for the lines whose length has a bound.
const LINES: usize = 320;

/// What ends a line.
const END: &[u8] = b"\r\n";

/// The reply when memory runs out for another one. It closes the connection.
const MEMORY_TEXT: &[u8] =
    b"HTTP/1.1 507 Insufficient Storage\r\nContent-Length: 0\r\nConnection: close\r\n\r\n";

/// The reply when memory runs out for another one (RFC 4918, section 11.5): 507, which closes the
/// connection. It allocates nothing.
#[tactic(auto, unfolding(fedi_model::specs::ReplyText::memory_text))]
pub fn memory_text() -> &'static [u8]
    ensures { result.now ≡ model.memory_text }
{
    MEMORY_TEXT
}

/// The bytes of the reply at this moment (RFC 9112, section 4): the status line, the fields `Date`,
/// `Location`, `Allow`, `WWW-Authenticate`, `Access-Control-Allow-Origin`, `Content-Type`,
/// `Content-Length` and `Connection`, each if it applies, an empty line, and the body unless
/// `head_only`. If `closing`, the reply says that the connection closes. The error is out of
/// memory.
pub fn reply_bytes(
    alloc: Global,
    reply: &Reply,
    moment: Moment,
    head_only: bool,
    closing: bool,
) -> Result<Vec<u8>, AllocError>
    ensures { IfOk result (λ text.
        text.items ≡ model.reply_text moment head_only closing reply.now) }
{
    let mut text = Vec::with_capacity(alloc, room_for(reply))?;
    push_reply(&mut text, reply, moment, head_only, closing).and(Ok(text))
}

/// Appends the text of the reply.
fn push_reply(
    text: &mut Vec<u8>,
    reply: &Reply,
    moment: Moment,
    head_only: bool,
    closing: bool,
) -> Result<(), AllocError>
    ensures { OnOk result (text.new.items
        ≡ text.old.items ++ model.reply_text moment head_only closing reply.now) }
{
    push_start(text, reply, moment)?;
    push_kind(text, reply)?;
    push_content(text, reply, closing)?;
    push_end(text, reply.body.bytes(), head_only)
}

/// The capacity for the text of the reply.
fn room_for(reply: &Reply) -> usize
    ensures small { result ≤ 2368 + length reply.now.body }
{
    let location = match &reply.location {
        Some(iri) => iri.text().len(),
        None => 0,
    };
    LINES
        .saturating_add(location)
        .saturating_add(reply.body.bytes().len())
}

/// Appends the pieces, in order.
fn push(text: &mut Vec<u8>, pieces: &[&[u8]]) -> Result<(), AllocError>
    ensures { OnOk result
        (text.new.items ≡ text.old.items ++ flat_map (λ piece. piece.now) pieces.now) }
{
    for piece in pieces {
        text.extend_from_slice(piece)?;
    }
    Ok(())
}

/// Appends the status line, the date and the location.
#[tactic(auto, unfolding(fedi_model::specs::ReplyText::start_text))]
fn push_start(text: &mut Vec<u8>, reply: &Reply, moment: Moment) -> Result<(), AllocError>
    ensures { OnOk result (text.new.items ≡ text.old.items ++ model.start_text moment reply.now) }
{
    push_status(text, reply.status)?;
    push_date(text, moment)?;
    push_location(text, &reply.location)
}

/// Appends the status line.
#[tactic(auto, unfolding(fedi_model::specs::ReplyText::status_line))]
fn push_status(text: &mut Vec<u8>, status: StatusCode) -> Result<(), AllocError>
    ensures { OnOk result (text.new.items ≡ text.old.items ++ model.status_line status) }
{
    let mut digits = Buffer::new();
    push(
        text,
        &[
            b"HTTP/1.1 ",
            digits.format(status.as_u16()).as_bytes(),
            b" ",
            reason(status).as_bytes(),
            END,
        ],
    )
}

/// The reason of a status code.
fn reason(status: StatusCode) -> &'static str
    ensures { result.now ≡ model.reason_of status }
{
    status.canonical_reason().unwrap_or("<unknown status code>")
}

/// Appends the date.
#[tactic(auto, unfolding(fedi_model::specs::ReplyText::date_line))]
fn push_date(text: &mut Vec<u8>, moment: Moment) -> Result<(), AllocError>
    ensures { OnOk result (text.new.items ≡ text.old.items ++ model.date_line moment) }
{
    push(text, &[b"Date: ", &moment.http_date(), END])
}

/// Appends the location, if there is one.
#[tactic(auto, unfolding(fedi_model::specs::ReplyText::location_line))]
fn push_location(text: &mut Vec<u8>, location: &Option<Iri>) -> Result<(), AllocError>
    ensures { OnOk result (text.new.items ≡ text.old.items ++ model.location_line location.now) }
{
    match location {
        Some(iri) => push(text, &[b"Location: ", iri.text().as_bytes(), END]),
        None => Ok(()),
    }
}

/// Appends the lines that depend on the kind of reply.
#[tactic(auto, unfolding(fedi_model::specs::ReplyText::kind_text))]
fn push_kind(text: &mut Vec<u8>, reply: &Reply) -> Result<(), AllocError>
    ensures { OnOk result (text.new.items ≡ text.old.items ++ model.kind_text reply.now) }
{
    text.extend_from_slice(allow_line(reply.allow))?;
    text.extend_from_slice(challenge_line(reply.status))?;
    text.extend_from_slice(origin_line(reply.form, reply.status))
}

/// The line that names the methods, if there are any to name.
#[tactic(auto, unfolding(fedi_model::specs::ReplyText::allow_line))]
fn allow_line(allow: Option<Allow>) -> &'static [u8]
    ensures { result.now ≡ model.allow_line allow }
{
    match allow {
        Some(Allow::GetHead) => b"Allow: GET, HEAD\r\n",
        Some(Allow::GetHeadPost) => b"Allow: GET, HEAD, POST\r\n",
        None => b"",
    }
}

/// The line that asks for a key, if the status says that the key is missing or wrong.
#[tactic(auto, unfolding(fedi_model::specs::ReplyText::challenge_line))]
fn challenge_line(status: StatusCode) -> &'static [u8]
    ensures { result.now ≡ model.challenge_line status }
{
    if status == StatusCode::UNAUTHORIZED {
        b"WWW-Authenticate: Bearer\r\n"
    } else {
        b""
    }
}

/// The line that lets every site read a JRD.
#[tactic(auto, unfolding(fedi_model::specs::ReplyText::origin_line))]
fn origin_line(form: Form, status: StatusCode) -> &'static [u8]
    ensures { result.now ≡ model.origin_line form status }
{
    match form {
        Form::Jrd if status == StatusCode::OK => b"Access-Control-Allow-Origin: *\r\n",
        _ => b"",
    }
}

/// Appends the lines that depend on the body.
#[tactic(auto, unfolding(fedi_model::specs::ReplyText::content_text))]
fn push_content(text: &mut Vec<u8>, reply: &Reply, closing: bool) -> Result<(), AllocError>
    ensures { OnOk result
        (text.new.items ≡ text.old.items ++ model.content_text closing reply.now) }
{
    text.extend_from_slice(type_line(reply.form, reply.body.bytes()))?;
    push_length(text, reply.body.bytes())?;
    text.extend_from_slice(connection_line(closing))
}

/// The line that names the media type of the body, if there is one.
#[tactic(auto, unfolding(fedi_model::specs::ReplyText::type_line))]
fn type_line(form: Form, body: &[u8]) -> &'static [u8]
    ensures { result.now ≡ model.type_line form body.now }
{
    if body.is_empty() { b"" } else { type_of(form) }
}

/// The line that names a media type.
fn type_of(form: Form) -> &'static [u8]
    ensures { result.now ≡ model.type_of form }
{
    match form {
        Form::None => b"",
        Form::Activity => b"Content-Type: application/activity+json\r\n",
        Form::Jrd => b"Content-Type: application/jrd+json\r\n",
        Form::Json => b"Content-Type: application/json\r\n",
    }
}

/// Appends the length of the body.
#[tactic(auto, unfolding(fedi_model::specs::ReplyText::length_line))]
fn push_length(text: &mut Vec<u8>, body: &[u8]) -> Result<(), AllocError>
    ensures { OnOk result (text.new.items ≡ text.old.items ++ model.length_line body.now) }
{
    let mut digits = Buffer::new();
    push(
        text,
        &[
            b"Content-Length: ",
            digits.format(body.len()).as_bytes(),
            END,
        ],
    )
}

/// The line that says that the connection closes, if it does.
#[tactic(auto, unfolding(fedi_model::specs::ReplyText::connection_line))]
fn connection_line(closing: bool) -> &'static [u8]
    ensures { result.now ≡ model.connection_line closing }
{
    if closing {
        b"Connection: close\r\n"
    } else {
        b""
    }
}

/// Appends the empty line and the body.
fn push_end(text: &mut Vec<u8>, body: &[u8], head_only: bool) -> Result<(), AllocError>
    ensures { OnOk result (text.new.items
        ≡ text.old.items ++ (codes "\r\n" ++ model.body_text head_only body.now)) }
{
    text.extend_from_slice(END)?;
    if head_only {
        return Ok(());
    }
    text.extend_from_slice(body)
}

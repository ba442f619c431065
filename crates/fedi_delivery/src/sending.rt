//! The requests of a delivery.

ghost use Rattle.std.specs.Prelude.{◌≡◌, ◌++◌, IfOk, OnOk};
ghost use Rattle.std.specs.List.{flat_map};
ghost use Rattle.fedi_delivery.specs.Sending.{code_text, content_text, lookup_lines};
ghost use Rattle.fedi_delivery.specs.Sending.{lookup_request, lookup_text, post_text, post_lines};
ghost use Rattle.fedi_delivery.specs.Sending.{post_request, sender_lines};

use fedi_address::{Host, Iri};
use fedi_mac::{hex_text, sign};
use fedi_text::Text;
use itoa::Buffer;
use std::alloc::{AllocError, Global};

/// What is sent to deliver an activity to a recipient, except for the post, which is known only
/// after the lookup has found the inbox.
#[derive(Drop)]
pub struct Outgoing {
    /// The address of the recipient's server.
    pub address: Text,
    /// The request that looks up the recipient's actor document, as `lookup_bytes` makes it.
    pub lookup: Vec<u8>,
    /// The document of the activity: the body for `post_bytes`.
    pub body: Vec<u8>,
}

/// The request with which the server `own` looks up the recipient's actor document (ActivityPub,
/// sections 3.2 and 7.1): an HTTP/1.1 GET with the fields `Host`, `Accept`, `Peer-Host`, `Peer-Mac`
/// and `Connection`, signed under the key that the two servers share (RFC 2104). The error is out
/// of memory.
pub fn lookup_bytes(
    alloc: Global,
    own: &Host,
    key: &[u8; 32],
    recipient: &Iri,
) -> Result<Vec<u8>, AllocError>
    ensures { IfOk result (λ text. text.items ≡ lookup_text own.now key.now recipient.now) }
{
    let mut text = Vec::new(alloc);
    push_lookup(
        &mut text,
        own.text(),
        key,
        recipient.target(),
        recipient.host(),
    )
    .and(Ok(text))
}

/// The request with which the server `own` posts the body to the inbox (ActivityPub, sections 7 and
/// 7.1): an HTTP/1.1 POST with the fields `Host`, `Content-Type`, `Peer-Host`, `Peer-Mac`,
/// `Content-Length` and `Connection`, signed under the key that the two servers share (RFC 2104),
/// and the body. The error is out of memory.
pub fn post_bytes(
    alloc: Global,
    own: &Host,
    key: &[u8; 32],
    inbox: &Iri,
    body: &[u8],
) -> Result<Vec<u8>, AllocError>
    ensures { IfOk result (λ text. text.items ≡ post_text own.now key.now inbox.now body.now) }
{
    let mut text = Vec::new(alloc);
    push_post(
        &mut text,
        own.text(),
        key,
        inbox.target(),
        inbox.host(),
        body,
    )
    .and(Ok(text))
}

// The digits of the code of a request.
#[tactic(auto, unfolding(crate::specs::Sending::code_text))]
fn code(key: &[u8; 32], method: &[u8], target: &str, own: &str, body: &[u8]) -> [u8; 64]
    ensures { result ≡ code_text key.now method.now target.now own.now body.now }
{
    hex_text(&sign(key, method, target.as_bytes(), own, body))
}

// Appends the pieces, in order.
fn push(text: &mut Vec<u8>, pieces: &[&[u8]]) -> Result<(), AllocError>
    ensures { OnOk result
        (text.new.items ≡ text.old.items ++ flat_map (λ piece. piece.now) pieces.now) }
{
    for piece in pieces {
        text.extend_from_slice(piece)?;
    }
    Ok(())
}

#[tactic(auto, unfolding(crate::specs::Sending::sender_lines))]
fn push_sender(text: &mut Vec<u8>, own: &str, code: &[u8; 64]) -> Result<(), AllocError>
    ensures { OnOk result (text.new.items ≡ text.old.items ++ sender_lines own.now code.now) }
{
    push(
        text,
        &[
            b"Peer-Host: ",
            own.as_bytes(),
            b"\r\nPeer-Mac: ",
            code,
            b"\r\n",
        ],
    )
}

// ---- the lookup

#[tactic(auto, unfolding(crate::specs::Sending::lookup_lines))]
fn push_lookup_lines(text: &mut Vec<u8>, target: &str, host: &str) -> Result<(), AllocError>
    ensures { OnOk result (text.new.items ≡ text.old.items ++ lookup_lines target.now host.now) }
{
    push(
        text,
        &[
            b"GET ",
            target.as_bytes(),
            b" HTTP/1.1\r\nHost: ",
            host.as_bytes(),
            b"\r\n\
              Accept: application/ld+json; profile=\"https://www.w3.org/ns/activitystreams\"\r\n",
        ],
    )
}

#[tactic(auto, unfolding(crate::specs::Sending::lookup_request))]
fn push_lookup(
    text: &mut Vec<u8>,
    own: &str,
    key: &[u8; 32],
    target: &str,
    host: &str,
) -> Result<(), AllocError>
    ensures { OnOk result (text.new.items
        ≡ text.old.items ++ lookup_request own.now key.now target.now host.now) }
{
    let code = code(key, b"GET", target, own, b"");
    push_lookup_lines(text, target, host)?;
    push_sender(text, own, &code)?;
    text.extend_from_slice(b"Connection: close\r\n\r\n")
}

// ---- the post

#[tactic(auto, unfolding(crate::specs::Sending::post_lines))]
fn push_post_lines(text: &mut Vec<u8>, target: &str, host: &str) -> Result<(), AllocError>
    ensures { OnOk result (text.new.items ≡ text.old.items ++ post_lines target.now host.now) }
{
    push(
        text,
        &[
            b"POST ",
            target.as_bytes(),
            b" HTTP/1.1\r\nHost: ",
            host.as_bytes(),
            b"\r\n\
              Content-Type: application/ld+json; \
              profile=\"https://www.w3.org/ns/activitystreams\"\r\n",
        ],
    )
}

#[tactic(auto, unfolding(crate::specs::Sending::content_text))]
fn push_content(text: &mut Vec<u8>, body: &[u8]) -> Result<(), AllocError>
    ensures { OnOk result (text.new.items ≡ text.old.items ++ content_text body.now) }
{
    let mut digits = Buffer::new();
    push(
        text,
        &[
            b"Content-Length: ",
            digits.format(body.len()).as_bytes(),
            b"\r\nConnection: close\r\n\r\n",
            body,
        ],
    )
}

#[tactic(auto, unfolding(crate::specs::Sending::post_request))]
fn push_post(
    text: &mut Vec<u8>,
    own: &str,
    key: &[u8; 32],
    target: &str,
    host: &str,
    body: &[u8],
) -> Result<(), AllocError>
    ensures { OnOk result (text.new.items
        ≡ text.old.items ++ post_request own.now key.now target.now host.now body.now) }
{
    let code = code(key, b"POST", target, own, body);
    push_post_lines(text, target, host)?;
    push_sender(text, own, &code)?;
    push_content(text, body)
}

//! Requests as they are read.

use fedi_text::Bytes;
use http::Method;

/// The values of those fields of a head that are used after it was read. Each is from the first
/// field of its name (RFC 9110, section 5.1), without the white space around it (RFC 9110, section
/// 5.5).
#[derive(Drop)]
pub struct Fields {
    /// `Authorization`: a key (RFC 9110, section 11.6.2).
    pub authorization: Option<Bytes>,
    /// `Peer-Host`: the host of a server that signs.
    pub peer_host: Option<Bytes>,
    /// `Peer-Mac`: its code over the request.
    pub peer_mac: Option<Bytes>,
    /// `Content-Type`: the media type of the body (RFC 9110, section 8.3).
    pub content_type: Option<Bytes>,
    /// `Idempotency-Key`: the key that identifies a repeat of the request.
    pub idempotency_key: Option<Bytes>,
}

/// The longest body, in bytes.
pub const BODY_LIMIT: usize = 262_144;

/// How the end of a body is found (RFC 9112, section 6.3).
#[derive(Clone, Copy, Debug, PartialEq, Eq)]
pub enum Coding {
    /// The body has this many bytes (RFC 9112, section 6.2).
    Length(usize),
    /// The body comes in chunks (RFC 9112, section 7.1).
    Chunked,
}

/// A request, without its body (RFC 9112, section 2.1).
#[derive(Drop)]
pub struct Request {
    /// The method (RFC 9110, section 9).
    pub method: Method,
    /// The target (RFC 9112, section 3.2).
    pub target: Bytes,
    /// The values of the fields of the head.
    pub fields: Fields,
    /// How the end of the body is found.
    pub coding: Coding,
    /// Whether the connection stays open after the reply, as far as the head says: the version is
    /// HTTP/1.1, and no `Connection` lists `close` (RFC 9112, section 9.3).
    pub keep_alive: bool,
    /// Whether the reply has no body: the method is HEAD (RFC 9110, section 9.3.2).
    pub head_only: bool,
}

//! What the fields of a head say (RFC 9110, section 5), found in one pass over them.

ghost use Rattle.std.specs.Prelude.{◌≡◌, ◌++◌, ◌∷◌, [], List, length, map, bytes_eq, All};
ghost use Rattle.std.specs.Char.{to_ascii_lowercase};
ghost use Rattle.httparse.specs.Spans.{IsHeaderWithin};
ghost use Rattle.fedi_model.specs.Requests.{Field, field_of, fields_at};
ghost use Rattle.fedi_http.specs.Fields.{AreKnown, IsSlot, has_host, has_no_repeats};

use crate::framing::lists_close;
use httparse::spans::HeaderSpan;

/// Whether the names are equal, ignoring case (RFC 9110, section 5.1).
pub fn is_same_name(one: &[u8], other: &[u8]) -> bool
    ensures { result
        ≡ bytes_eq (map to_ascii_lowercase one.now) (map to_ascii_lowercase other.now) }
{
    one.eq_ignore_ascii_case(other)
}

/// What the fields of one name say.
#[derive(Clone, Copy)]
pub(crate) struct Slot<'a> {
    /// The value of the first of them.
    pub(crate) value: Option<&'a [u8]>,
    /// Whether there is another one.
    pub(crate) is_repeated: bool,
}

impl<'a> Slot<'a> {
    /// The slot before any field is read.
    fn new(name: &str) -> Self
        ensures { IsSlot name.now [] result }
    {
        Slot {
            value: None,
            is_repeated: false,
        }
    }

    /// The slot after one more field, which counts if it has the name.
    #[tactic(auto, using(crate::proofs::FieldLemmas::slots))]
    fn with(self, wanted: &str, name: &[u8], value: &'a [u8]) -> Self
        ensures { (fields : List Field) → IsSlot wanted.now fields self.entry
            → IsSlot wanted.now (fields ++ field_of (name.now, value.now) ∷ []) result }
    {
        if !is_same_name(name, wanted.as_bytes()) {
            return self;
        }
        match self.value {
            None => Slot {
                value: Some(value),
                is_repeated: false,
            },
            Some(first) => Slot {
                value: Some(first),
                is_repeated: true,
            },
        }
    }
}

/// What the fields of a head say, for those fields that the server reads.
#[derive(Clone, Copy)]
pub(crate) struct KnownFields<'a> {
    pub(crate) host: Slot<'a>,
    pub(crate) content_length: Slot<'a>,
    pub(crate) transfer_encoding: Slot<'a>,
    pub(crate) content_type: Slot<'a>,
    pub(crate) authorization: Slot<'a>,
    pub(crate) peer_host: Slot<'a>,
    pub(crate) peer_mac: Slot<'a>,
    pub(crate) idempotency_key: Slot<'a>,
    /// Whether a `Connection` field lists `close` (RFC 9112, section 9.6).
    pub(crate) closes: bool,
}

impl<'a> KnownFields<'a> {
    /// What the fields at these positions say.
    #[tactic(auto, using(crate::proofs::RequestLemmas::fields_more))]
    pub(crate) fn read(text: &'a [u8], spans: &[HeaderSpan]) -> Self
        requires { All (IsHeaderWithin (length text.now)) spans.now }
        ensures { AreKnown (fields_at text.now spans.now) result }
    {
        let mut known = KnownFields::new(text);
        for span in spans {
            known = known.with(span.name.of(text), span.value.of(text));
        }
        known
    }

    /// What is known before any field is read. The text is a parameter so that the values can
    /// borrow from it.
    fn new(_text: &'a [u8]) -> Self
        ensures { AreKnown [] result }
    {
        KnownFields {
            host: Slot::new("Host"),
            content_length: Slot::new("Content-Length"),
            transfer_encoding: Slot::new("Transfer-Encoding"),
            content_type: Slot::new("Content-Type"),
            authorization: Slot::new("Authorization"),
            peer_host: Slot::new("Peer-Host"),
            peer_mac: Slot::new("Peer-Mac"),
            idempotency_key: Slot::new("Idempotency-Key"),
            closes: false,
        }
    }

    /// What is known after one more field.
    fn with(self, name: &[u8], value: &'a [u8]) -> Self
        ensures { (fields : List Field) → AreKnown fields self.entry
            → AreKnown (fields ++ field_of (name.now, value.now) ∷ []) result }
    {
        let closes = self.closes || (is_same_name(name, b"Connection") && lists_close(value));
        KnownFields {
            host: self.host.with("Host", name, value),
            content_length: self.content_length.with("Content-Length", name, value),
            transfer_encoding: self
                .transfer_encoding
                .with("Transfer-Encoding", name, value),
            content_type: self.content_type.with("Content-Type", name, value),
            authorization: self.authorization.with("Authorization", name, value),
            peer_host: self.peer_host.with("Peer-Host", name, value),
            peer_mac: self.peer_mac.with("Peer-Mac", name, value),
            idempotency_key: self.idempotency_key.with("Idempotency-Key", name, value),
            closes,
        }
    }

    /// Whether no field that may occur only once is repeated.
    pub(crate) fn has_no_repeats(&self) -> bool
        ensures { result ≡ has_no_repeats self.now }
    {
        !(self.authorization.is_repeated
            || self.peer_host.is_repeated
            || self.peer_mac.is_repeated
            || self.content_length.is_repeated
            || self.transfer_encoding.is_repeated
            || self.content_type.is_repeated
            || self.idempotency_key.is_repeated)
    }
    /// Whether `Host` occurs exactly once, if the version requires it: HTTP/1.0 does not (RFC 9112,
    /// section 3.2).
    pub(crate) fn has_host(&self, minor: u8) -> bool
        ensures { result ≡ has_host minor self.now }
    {
        minor != 1 || (self.host.value.is_some() && !self.host.is_repeated)
    }
}

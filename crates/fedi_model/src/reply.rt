//! The replies to requests.

ghost use Rattle.std.specs.Prelude.{◌≡◌, []};

use crate::ask::Allow;
use fedi_address::Iri;
use http::StatusCode;
use std::borrow::CowSlice;
use std::marker::Model;

/// The media type of a reply's body.
#[derive(Clone, Copy, Debug)]
pub enum Form {
    /// There is no body.
    None,
    /// `application/activity+json`
    Activity,
    /// `application/jrd+json`
    Jrd,
    /// `application/json`
    Json,
}

/// The bytes of a reply's body: a fixed text, which takes no memory, or bytes of its own.
#[derive(Drop)]
pub struct Body {
    bytes: CowSlice<'static, u8>,
}

impl Model for Body {
    ghost use Rattle.std.specs.Prelude.{ℕ, List};
    ghost use Rattle.std.specs.Cow.{cow_slice_items};

    ghost Value = { List ℕ };

    ghost view = { λ body. cow_slice_items body.bytes };
}

impl Body {
    /// A body without bytes. It takes no memory.
    pub fn empty() -> Body
        ensures { result ≡ [] }
    {
        Body::from(b"".as_slice())
    }

    /// The bytes, in order.
    pub fn bytes(&self) -> &[u8]
        ensures { result.now ≡ self.now }
    {
        self.bytes.as_slice()
    }
}

impl From<&'static [u8]> for Body {
    ghost from_gives = { λ text body. body ≡ text.now };

    fn from(text: &'static [u8]) -> Body {
        Body {
            bytes: CowSlice::Borrowed(text),
        }
    }
}

impl From<Vec<u8>> for Body {
    ghost from_gives = { λ bytes body. body ≡ bytes.items };

    fn from(bytes: Vec<u8>) -> Body {
        Body {
            bytes: CowSlice::Owned(bytes),
        }
    }
}

/// A reply, without what depends on the connection.
#[derive(Drop)]
pub struct Reply {
    /// The status code (RFC 9110, section 15). A contract sees its number, from 100 to 999.
    pub status: StatusCode,
    /// The media type of the body (RFC 9110, section 8.3).
    pub form: Form,
    /// The address of what was created (RFC 9110, section 10.2.2).
    pub location: Option<Iri>,
    /// The allowed methods, if the request used another one (RFC 9110, section 10.2.1).
    pub allow: Option<Allow>,
    /// The body.
    pub body: Body,
}

//! What a request shows about who makes it (RFC 6750, section 2.1; RFC 9110, section 11.6.2).

ghost use Rattle.std.specs.Prelude.{◌≡◌, Some, option_map};
ghost use Rattle.fedi_model.specs.Callers.{is_signed};
ghost use Rattle.fedi_model.specs.Credentials as model;

use fedi_http::text_of;
use fedi_mac::{matches, read_key, sign};
use fedi_model::{Credentials, Request, Signed};

/// The scheme of a bearer key and the one space after it.
const SCHEME: &[u8] = b"bearer ";

/// What the request with this body shows about who makes it, by the fields `Authorization`,
/// `Peer-Host` and `Peer-Mac`. If `Authorization` is present, it alone counts: there is a key
/// exactly if the value is `Bearer`, in upper or lower case, one space and 64 hexadecimal digits
/// (RFC 6750, section 2.1). There is a code exactly if both other fields are present, the host is
/// UTF-8 and the code has 64 hexadecimal digits, none in upper case. It takes no memory.
pub fn credentials<'a>(request: &'a Request, body: &'a [u8]) -> Credentials<'a>
    ensures { model.shown_by result ≡ model.credentials_of request.now body.now }
{
    let fields = &request.fields;
    if let Some(value) = &fields.authorization {
        return Credentials::Bearer(bearer_key(value.bytes()));
    }
    match (&fields.peer_host, &fields.peer_mac) {
        (None, None) => Credentials::Nothing,
        (Some(host), Some(code)) => {
            Credentials::Mac(signed(request, body, host.bytes(), code.bytes()))
        }
        (_, _) => Credentials::Mac(None),
    }
}

/// The key after `Bearer`, in upper or lower case, and one space.
#[tactic(auto, unfolding(fedi_mac::specs::Keys::key_of))]
fn bearer_key(value: &[u8]) -> Option<[u8; 32]>
    ensures { result ≡ model.bearer_key value.now }
{
    if value.len() < SCHEME.len() || !value[..SCHEME.len()].eq_ignore_ascii_case(SCHEME) {
        return None;
    }
    read_key(&value[SCHEME.len()..])
}

/// Whether each byte is a hexadecimal digit that is not in upper case.
#[tactic(auto, unfolding(fedi_model::specs::Credentials::is_lower_hex))]
fn is_lower_hex(text: &[u8]) -> bool
    ensures { result ≡ model.is_lower_hex text.now }
{
    text.iter().all(|byte| byte.is_ascii_digit() || (b'a' <= *byte && *byte <= b'f'))
}

/// The 32 bytes of an authentication code.
#[tactic(auto, unfolding(fedi_mac::specs::Keys::key_of))]
fn code_of(text: &[u8]) -> Option<[u8; 32]>
    ensures { result ≡ model.code_of text.now }
{
    if is_lower_hex(text) {
        read_key(text)
    } else {
        None
    }
}

/// The request with this body, as this host signed it with this code.
fn signed<'a>(
    request: &'a Request,
    body: &'a [u8],
    host: &'a [u8],
    code: &[u8],
) -> Option<Signed<'a>>
    ensures { option_map model.signature_in result
        ≡ model.signature_of request.now body.now (Some host.now) (Some code.now) }
{
    let host = text_of(host)?;
    let mac = code_of(code)?;
    Some(Signed {
        host,
        mac,
        method: request.method.as_str().as_bytes(),
        target: request.target.bytes(),
        body,
    })
}

/// Whether the code that a peer shows is that of the request under this key, which the peer and
/// this server share. It takes no memory.
#[tactic(auto, unfolding(fedi_model::specs::Callers::is_signed))]
pub fn is_signed(key: &[u8; 32], signed: &Signed) -> bool
    ensures { result ≡ is_signed key.now (model.signature_in signed.now) }
{
    let code = sign(key, signed.method, signed.target, signed.host, signed.body);
    matches(&code, &signed.mac)
}

//! What a reply says for each reason of a refusal.

ghost use Rattle.std.specs.Prelude.{◌≡◌};
ghost use Rattle.fedi_model.specs.Refusals.{refusal_body, status_of};

use fedi_town::Refusal;
use http::StatusCode;

/// The status code of the reply to a refused request (RFC 9110, section 15; RFC 6585 for 431 and
/// RFC 4918 for 422 and 507).
pub fn refusal_status(refusal: Refusal) -> StatusCode
    ensures { result ≡ status_of refusal }
{
    match refusal {
        Refusal::BadHead | Refusal::BadBody | Refusal::BadQuery => StatusCode::BAD_REQUEST,
        Refusal::NoKey | Refusal::WrongKey | Refusal::WrongMac => StatusCode::UNAUTHORIZED,
        Refusal::NotOwner
        | Refusal::Blocked
        | Refusal::NotOrigin
        | Refusal::NotPublic
        | Refusal::ActorFull => StatusCode::FORBIDDEN,
        Refusal::NotFound => StatusCode::NOT_FOUND,
        Refusal::WrongMethod => StatusCode::METHOD_NOT_ALLOWED,
        Refusal::KeyReused | Refusal::NotStanding => StatusCode::CONFLICT,
        Refusal::Gone => StatusCode::GONE,
        Refusal::NoLength => StatusCode::LENGTH_REQUIRED,
        Refusal::TooLong => StatusCode::PAYLOAD_TOO_LARGE,
        Refusal::WrongType => StatusCode::UNSUPPORTED_MEDIA_TYPE,
        Refusal::BadShape => StatusCode::UNPROCESSABLE_ENTITY,
        Refusal::HeadTooLong => StatusCode::REQUEST_HEADER_FIELDS_TOO_LARGE,
        Refusal::NoCoding => StatusCode::NOT_IMPLEMENTED,
        Refusal::KeeperFault => StatusCode::SERVICE_UNAVAILABLE,
        Refusal::Memory => StatusCode::INSUFFICIENT_STORAGE,
        Refusal::JournalFull => StatusCode::INTERNAL_SERVER_ERROR,
    }
}

/// The body of the reply to a refused request: a JSON object that names the reason (RFC 8259). It
/// takes no memory.
pub fn refusal_body(refusal: Refusal) -> &'static [u8]
    ensures { result.now ≡ refusal_body refusal }
{
    match refusal {
        Refusal::BadHead => br#"{"error":"BadHead"}"#,
        Refusal::BadBody => br#"{"error":"BadBody"}"#,
        Refusal::BadQuery => br#"{"error":"BadQuery"}"#,
        Refusal::NoKey => br#"{"error":"NoKey"}"#,
        Refusal::WrongKey => br#"{"error":"WrongKey"}"#,
        Refusal::WrongMac => br#"{"error":"WrongMac"}"#,
        Refusal::NotOwner => br#"{"error":"NotOwner"}"#,
        Refusal::Blocked => br#"{"error":"Blocked"}"#,
        Refusal::NotOrigin => br#"{"error":"NotOrigin"}"#,
        Refusal::NotPublic => br#"{"error":"NotPublic"}"#,
        Refusal::NotFound => br#"{"error":"NotFound"}"#,
        Refusal::WrongMethod => br#"{"error":"WrongMethod"}"#,
        Refusal::KeyReused => br#"{"error":"KeyReused"}"#,
        Refusal::NotStanding => br#"{"error":"NotStanding"}"#,
        Refusal::Gone => br#"{"error":"Gone"}"#,
        Refusal::NoLength => br#"{"error":"NoLength"}"#,
        Refusal::TooLong => br#"{"error":"TooLong"}"#,
        Refusal::WrongType => br#"{"error":"WrongType"}"#,
        Refusal::BadShape => br#"{"error":"BadShape"}"#,
        Refusal::HeadTooLong => br#"{"error":"HeadTooLong"}"#,
        Refusal::NoCoding => br#"{"error":"NoCoding"}"#,
        Refusal::ActorFull => br#"{"error":"ActorFull"}"#,
        Refusal::KeeperFault => br#"{"error":"KeeperFault"}"#,
        Refusal::Memory => br#"{"error":"Memory"}"#,
        Refusal::JournalFull => br#"{"error":"JournalFull"}"#,
    }
}

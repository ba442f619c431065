//! The replies to refused requests. They take no memory.

ghost use Rattle.std.specs.Prelude.{◌≡◌};
ghost use Rattle.fedi_model.specs.Refusing.{fault_body, misshapen, refused, text_reply};

use crate::refusal::{refusal_body, refusal_status};
use crate::reply::{Body, Form, Reply};
use fedi_reading::ShapeFault;
use fedi_town::Refusal;
use http::StatusCode;

fn text_reply(status: StatusCode, text: &'static [u8]) -> Reply
    ensures { result ≡ text_reply status text.now }
{
    Reply::with_body(status, Form::Json, Body::from(text))
}

fn fault_body(fault: ShapeFault) -> &'static [u8]
    ensures { result.now ≡ fault_body fault }
{
    match fault {
        ShapeFault::NotObject => br#"{"error":"BadShape","fault":"NotObject"}"#,
        ShapeFault::BadContext => br#"{"error":"BadShape","fault":"BadContext"}"#,
        ShapeFault::NoType => br#"{"error":"BadShape","fault":"NoType"}"#,
        ShapeFault::NoId => br#"{"error":"BadShape","fault":"NoId"}"#,
        ShapeFault::NoActor => br#"{"error":"BadShape","fault":"NoActor"}"#,
        ShapeFault::NoObject => br#"{"error":"BadShape","fault":"NoObject"}"#,
        ShapeFault::BadIri => br#"{"error":"BadShape","fault":"BadIri"}"#,
        ShapeFault::TooManyRecipients => br#"{"error":"BadShape","fault":"TooManyRecipients"}"#,
        ShapeFault::BadText => br#"{"error":"BadShape","fault":"BadText"}"#,
        ShapeFault::SelfTarget => br#"{"error":"BadShape","fault":"SelfTarget"}"#,
        ShapeFault::Memory => br#"{"error":"BadShape","fault":"Memory"}"#,
    }
}

/// The reply that reports a refusal: its status (RFC 9110, section 15), and its name in JSON. It
/// takes no memory.
pub fn refusal_reply(refusal: Refusal) -> Reply
    ensures { result ≡ refused refusal }
{
    text_reply(refusal_status(refusal), refusal_body(refusal))
}

/// The reply to a post of the wrong shape (RFC 9110, section 15.5.21), which names the fault in
/// JSON. It takes no memory.
pub fn misshapen_reply(fault: ShapeFault) -> Reply
    ensures { result ≡ misshapen fault }
{
    text_reply(StatusCode::UNPROCESSABLE_ENTITY, fault_body(fault))
}

//! The forms of replies.

ghost use Rattle.std.specs.Prelude.{◌≡◌, None};
ghost use Rattle.fedi_model.specs.Replies.{without_body};

use crate::reply::{Body, Form, Reply};
use fedi_address::Iri;
use http::StatusCode;

impl Reply {
    // A reply with this body and nothing else.
    pub(crate) fn with_body(status: StatusCode, form: Form, body: Body) -> Reply
        ensures { result ≡ record {
          status = status;
          form = form;
          location = None;
          allow = None;
          body = body;
        } }
    {
        Reply {
            status,
            form,
            location: None,
            allow: None,
            body,
        }
    }

    // A reply without a body.
    fn without_body(status: StatusCode, location: Option<Iri>) -> Reply
        ensures { result ≡ without_body status location }
    {
        Reply {
            status,
            form: Form::None,
            location,
            allow: None,
            body: Body::empty(),
        }
    }

    /// The reply that shows a document of this media type.
    pub fn document(status: StatusCode, form: Form, text: Vec<u8>) -> Reply
        ensures { result ≡ record {
          status = status;
          form = form;
          location = None;
          allow = None;
          body = text.items;
        } }
    {
        Reply::with_body(status, form, Body::from(text))
    }

    /// The reply that gives the address of what was created, now or earlier (RFC 9110, sections
    /// 10.2.2 and 15.3.2). It takes no memory.
    pub fn created(location: Option<Iri>) -> Reply
        ensures { result ≡ without_body 201 location }
    {
        Reply::without_body(StatusCode::CREATED, location)
    }

    /// The reply to what was accepted, now or earlier (RFC 9110, section 15.3.3). It takes no
    /// memory.
    pub fn accepted() -> Reply
        ensures { result ≡ without_body 202 None }
    {
        Reply::without_body(StatusCode::ACCEPTED, None)
    }
}

//! Requests and replies: which requests are served, what each asks for and how it is answered, with
//! the plain types used by these definitions.
#![tactic(auto)]

mod ask;
mod callers;
mod credentials;
mod place;
mod post;
mod refusal;
mod refusing;
mod reply;
mod replying;
mod request;

pub use ask::{Allow, Ask, PageAsk, Resource};
pub use callers::{is_nobody, is_peer, is_self};
pub use credentials::{Credentials, Signed};
pub use fedi_town::{Act, Actor, Caller, Refusal, Which};
pub use place::Place;
pub use post::{KeyAsk, Post, Read};
pub use refusal::{refusal_body, refusal_status};
pub use refusing::{misshapen_reply, refusal_reply};
pub use reply::{Body, Form, Reply};
pub use request::{BODY_LIMIT, Coding, Fields, Request};

//! What a request asks for, what it shows about who makes it, and the documents that say who a
//! member is.
//!
//! That the router finds exactly the routes whose pattern fits the path, and that each parameter
//! takes its segment, is proved over the definitions of `matchit`, for routers with values of any
//! type whose parameters are whole segments.
#![tactic(auto)]

mod documents;
mod kinds;
mod number;
mod pages;
mod places;
mod posts;
mod queries;
mod router;
mod routes;
mod shown;
mod texts;
mod webfinger;

pub use documents::{write_actor, write_jrd};
pub use router::Routes;
pub use routes::route;
pub use shown::{credentials, is_signed};

//! HTTP/1.1 (RFC 9112): requests are read from a source, and replies are written to a sink.
#![tactic(auto)]

mod arrivals;
mod buffer;
mod chunks;
mod fields;
mod framing;
mod heads;
mod read_error;
mod replies;
mod requests;
mod sending;

pub use arrivals::{Arrived, arrivals_are_determined, limits_are_fixed, read_request};
pub use buffer::{BUFFER_LIMIT, Buffer};
pub use chunks::{LINE_LIMIT, TRAILER_LIMIT};
pub use fields::is_same_name;
pub use framing::trim_end;
pub use heads::HEAD_LIMIT;
pub use replies::{memory_text, reply_bytes};
pub use requests::{MOST_FIELDS, read_request_head, text_of};
pub use sending::send;

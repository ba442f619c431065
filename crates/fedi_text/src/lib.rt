//! Moments, decimal numbers, texts and bytes, which every layer reads and writes.
#![tactic(auto)]

mod bytes;
mod decimal;
mod moment;
mod text;

pub use bytes::Bytes;
pub use decimal::read_decimal;
pub use moment::Moment;
pub use text::Text;

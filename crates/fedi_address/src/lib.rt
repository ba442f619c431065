//! Addresses: IRIs, hosts, names of members and the recipients of an activity.
#![tactic(auto)]

mod block;
mod host;
mod iri;
mod items;
mod name;
mod pieces;
mod recipients;

pub use host::{Host, HostFault};
pub use iri::{Iri, IriFault};
pub use items::Items;
pub use name::LocalName;
pub use recipients::{Recipients, is_among};

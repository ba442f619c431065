//! Making, opening and closing stores: disks with the file of the records of a history, or vaults
//! that keep these records.
#![tactic(auto)]

mod closing;
mod faults;
mod laws;
mod making;
mod opening;
mod vaults;

pub use closing::close_store;
pub use faults::{MakeFault, StoreFault};
pub use laws::{stores_are_not_made_anew, stores_have_one_answer, what_was_opened_stays};
pub use making::make_store;
pub use opening::{StoreCore, open_store};
pub use vaults::{VaultCore, close_vault, make_vault, open_vault};

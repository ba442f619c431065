//! The trusted edge: real streams, files, sockets, the clock and random bytes. Each implements the
//! trait that says what is known of it.
//!
//! No contract can say what a file or a socket holds, gives and takes. So disks and lines report
//! nothing of their bytes, doors report no rows, and links no replies. What is proved of them is
//! how many bytes a call moved, and that exactly the calls that fail are counted.
#![tactic(auto)]

mod file_disk;
mod health;
mod listeners;
mod locked_file;
mod raw_file;
mod system;
mod tcp_benches;
mod tcp_doors;
mod tcp_lines;
mod tcp_links;
mod waiting;

pub use file_disk::FileDisk;
pub use health::Health;
pub use listeners::Listening;
pub use locked_file::LockedFile;
pub use raw_file::RawFile;
pub use system::{Reading, SystemClock, SystemEntropy, Writing};
pub use tcp_benches::benches;
pub use tcp_doors::{Role, TcpDoor};
pub use tcp_lines::TcpLine;
pub use tcp_links::TcpLink;

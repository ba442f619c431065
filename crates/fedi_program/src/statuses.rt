//! The exit statuses of the program.

/// It is done.
pub const DONE: u8 = 0;

/// The arguments are not accepted.
pub const NOT_ACCEPTED: u8 = 2;

/// The disk has no store.
pub const NOT_A_STORE: u8 = 3;

/// The store is damaged.
pub const DAMAGED: u8 = 4;

/// The disk failed.
pub const DISK_FAULT: u8 = 5;

/// A read or a draw of random bytes failed.
pub const READ_FAULT: u8 = 6;

/// A write failed.
pub const WRITE_FAULT: u8 = 7;

/// The input ended inside a request.
pub const CUT_SHORT: u8 = 8;

/// The disk that is to be made a store, or to be filled, holds something else.
pub const EXISTS: u8 = 9;

/// A command breaks a rule.
pub const REFUSED: u8 = 10;

/// A door failed.
pub const DOOR_FAULT: u8 = 11;

/// Out of memory.
pub const OUT_OF_MEMORY: u8 = 12;

/// The store has no room.
pub const FULL: u8 = 13;

/// The store is of the first format.
pub const OLD_FORMAT: u8 = 14;

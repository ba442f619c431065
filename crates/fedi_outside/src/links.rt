//! Requests to other servers.
ghost use Rattle.std.specs.Prelude.{ℕ, ◌≡◌, ◌≤◌, IfOk, List, Option, length};
ghost use Rattle.fedi_outside.specs.Causes.{HasCause};
ghost use Rattle.fedi_outside.specs.Links.{AddsRow, Asking, heard_by};

use crate::Failed;

/// How many bytes of a reply are read. What follows is not read.
pub const REPLY_LENGTH: usize = 65_536;

/// Something that sends a request on its own connection, and reads the reply.
pub trait Link {
    /// The addresses and requests so far, if it reports them.
    ghost asked: { Self → Option (List Asking) };

    /// What was heard for each of them, if it reports it: the reply that was read, or none.
    ghost heard: { Self → Option (List (Option (List ℕ))) };

    /// How many exchanges failed. The count saturates at 2^64 - 1.
    ghost link_faults: { Self → ℕ };

    /// Sends the request to the address on a new connection, and reads the reply until the other
    /// side closes or `into`, which has room for `REPLY_LENGTH` bytes, is full. The reply is at the
    /// front of `into`, and its length is returned. After an error, which it counts, nothing is
    /// known of what was sent.
    fn exchange(&mut self, address: &str, request: &[u8], into: &mut [u8]) -> Result<usize, Failed>
        requires { length into.old ≡ 65536 }
        ensures within { IfOk result (λ count. count ≤ length into.new) }
        ensures room { length into.new ≡ length into.old }
        ensures asked { AddsRow (asked self.old) (asked self.new)
            (record { address = address.now; request = request.now }) }
        ensures heard { AddsRow (heard self.old) (heard self.new) (heard_by result into.new) }
        ensures cause { HasCause (link_faults self.old) (link_faults self.new) result };
}

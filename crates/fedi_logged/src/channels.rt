//! The source of requests, and the sink of replies.
ghost use Rattle.std.specs.Prelude.{◌≡◌, ℕ, List, Option};
ghost use Rattle.std.proofs.Common.{refl, ◌∙◌};
ghost use Rattle.fedi_http.specs.Sending.{Sends};
ghost use Rattle.fedi_outside.specs.Causes.{HasCause};
ghost use Rattle.fedi_logged.specs.Channels.{Takes, TellsIfTold, reads_after};
ghost use Rattle.fedi_logged.specs.Endings.{output_by};

use fedi_http::{Arrived, Buffer, read_request, send};
use fedi_outside::{Failed, Line, Sink, Source};
use std::alloc::Global;

/// The two directions of a connection: requests come in, and replies go out. A line is a channel.
pub trait Channel {
    /// The bytes to come, if they are known.
    ghost left: { Self → Option (List ℕ) };

    /// The bytes that were sent, if they are known.
    ghost sent: { Self → Option (List ℕ) };

    /// How many reads failed. The count saturates at 2^64 - 1.
    ghost read_faults: { Self → ℕ };

    /// How many writes failed. The count saturates at 2^64 - 1.
    ghost write_faults: { Self → ℕ };

    /// From the first state to the second, everything that no call changes is the same: what the
    /// channel borrows.
    ghost same: { Self → Self → Type 0 };

    /// Reads the next request into the buffer, as `read_request` does. It does not change what was
    /// sent.
    fn receive(&mut self, alloc: Global, buffer: &mut Buffer) -> Arrived
        ensures takes { Takes buffer.old.pending (left self.old) (left self.new) result
            buffer.new.body buffer.new.pending }
        ensures told { TellsIfTold buffer.old.pending (left self.old) result
            buffer.new.body buffer.new.pending (left self.new) }
        ensures cause { read_faults self.new ≡ reads_after (read_faults self.old) result }
        ensures output { output_by sent write_faults self.new
            ≡ output_by sent write_faults self.old }
        ensures same { same self.old self.new };

    /// Sends all of the bytes. The error is that a write failed: a proper prefix of them was sent.
    /// It does not change what is to come.
    fn send(&mut self, bytes: &[u8]) -> Result<(), Failed>
        ensures bytes { Sends (sent self.old) (sent self.new) bytes.now result }
        ensures cause { HasCause (write_faults self.old) (write_faults self.new) result }
        ensures left { left self.new ≡ left self.old }
        ensures reads { read_faults self.new ≡ read_faults self.old }
        ensures same { same self.old self.new };

    /// Without a call, nothing changes.
    ghost same_none: { (channel : Self) → same channel channel };

    /// What neither of two calls changes stays the same over both.
    ghost same_both: { (first middle last : Self)
        → same first middle → same middle last → same first last };
}

impl<L: Line> Channel for L {
    ghost left = { L.left };

    ghost sent = { L.sent };

    ghost read_faults = { L.read_faults };

    ghost write_faults = { L.write_faults };

    ghost same = { λ _ _. Unit {0} };

    ghost same_none = { λ _. tt };

    ghost same_both = { λ _ _ _ _ _. tt };

    fn receive(&mut self, alloc: Global, buffer: &mut Buffer) -> Arrived {
        read_request(alloc, self, buffer)
    }

    fn send(&mut self, bytes: &[u8]) -> Result<(), Failed> {
        send(self, bytes)
    }
}

/// A borrowed input and a borrowed output, as one channel.
#[derive(Drop)]
pub struct Joined<'a, 'b, S, O> {
    pub input: &'a mut S,
    pub out: &'b mut O,
}

impl<'a, 'b, S: Source, O: Sink> Channel for Joined<'a, 'b, S, O> {
    ghost left = { λ j. S.left j.input.now };

    ghost sent = { λ j. O.sent j.out.now };

    ghost read_faults = { λ j. S.read_faults j.input.now };

    ghost write_faults = { λ j. O.write_faults j.out.now };

    ghost same = { λ before after. (after.input.ghost_name ≡ before.input.ghost_name)
        × (after.out.ghost_name ≡ before.out.ghost_name) };

    ghost same_none = { λ _. (refl, refl) };

    ghost same_both = { λ _ _ _ one two. (two.0 ∙ one.0, two.1 ∙ one.1) };

    fn receive(&mut self, alloc: Global, buffer: &mut Buffer) -> Arrived {
        read_request(alloc, self.input, buffer)
    }

    fn send(&mut self, bytes: &[u8]) -> Result<(), Failed> {
        send(self.out, bytes)
    }
}

//! One connection, request by request (RFC 9112, section 9.3).
ghost use Rattle.std.specs.Prelude.{◌≡◌, ◌||◌, ◌-◌, IfSome, MatchResult, nat_le, not};
ghost use Rattle.fedi_logged.specs.Conversations.{most_requests};
ghost use Rattle.fedi_logged.specs.Endings.{GivesUp, IsCaused, IsCounted, Replies, Serves, StepsOn};
ghost use Rattle.fedi_logged.specs.Endings.{faults_on, output_by, scene_on};
ghost use Rattle.fedi_logged.specs.Turning.{setting_at};

use crate::channels::Channel;
use crate::refusals::refusal_text;
use crate::turns::Answers;
use fedi_http::{Arrived, Buffer, memory_text};
use fedi_model::Request;
use fedi_outside::{Clock, Failed};
use fedi_text::Moment;
use std::alloc::{AllocError, Global};

/// The most requests that one connection serves.
const MOST_REQUESTS: u64 = 1_000;

/// How a session ended.
#[derive(Clone, Copy, Debug)]
pub enum SessionEnd {
    /// The input ended at a point where a request would begin.
    End,
    /// The input ended inside a request.
    CutShort,
    /// The last reply closed the connection.
    Closed,
    /// A read failed.
    ReadFault,
    /// A write failed.
    WriteFault,
    /// Memory ran out. The other side was informed, unless that write failed.
    Memory,
}

/// Sends a reply of this text, which closes the connection if `closing`. If there was no memory for
/// the text, it sends the reply that says so. Returns how the session ends, if it does.
fn send_reply<H: Channel>(
    channel: &mut H,
    text: Result<Vec<u8>, AllocError>,
    closing: bool,
) -> Option<SessionEnd>
    ensures sent { MatchResult text
        (λ text. Replies (output_by H.sent H.write_faults channel.old)
        (output_by H.sent H.write_faults channel.new) text.items closing result)
        (λ _. GivesUp (output_by H.sent H.write_faults channel.old)
        (output_by H.sent H.write_faults channel.new) result) }
    ensures input { H.left channel.new ≡ H.left channel.old }
    ensures counted { IsCounted (faults_on H.read_faults H.write_faults channel.old)
        (faults_on H.read_faults H.write_faults channel.new) result }
    ensures same { H.same channel.old channel.new }
{
    match text {
        Ok(text) => match channel.send(&text) {
            Ok(()) if closing => Some(SessionEnd::Closed),
            Ok(()) => None,
            Err(Failed) => Some(SessionEnd::WriteFault),
        },
        Err(AllocError) => {
            let _ = channel.send(memory_text());
            Some(SessionEnd::Memory)
        }
    }
}

/// Whether a request is the last on its connection after this many were served: it asks to close,
/// or no more are served (RFC 9112, section 9.6).
fn is_last(request: &Request, served: u64) -> bool
    ensures { result ≡ (not request.now.keep_alive || nat_le (most_requests - 1) served) }
{
    !request.keep_alive || served >= MOST_REQUESTS - 1
}

/// Reads the next request and answers it, after this many were served. The bytes after it stay
/// pending. Returns how the session ends, if it does.
pub fn exchange<T: Answers, H: Channel, C: Clock>(
    alloc: Global,
    turns: &mut T,
    channel: &mut H,
    clock: &C,
    buffer: &mut Buffer,
    served: u64,
) -> Option<SessionEnd>
    requires ready { T.ready turns.old }
    ensures ready { T.ready turns.new }
    ensures same { T.same turns.old turns.new }
    ensures channel { H.same channel.old channel.new }
    // The log grows by what others add to it, and by one turn at most.
    ensures steps { StepsOn (setting_at (T.by turns.old) (C.told clock.now) T.base)
        (T.seen turns.old) served
        (scene_on H.left H.sent H.write_faults channel.old) buffer.old.pending
        (scene_on H.left H.sent H.write_faults channel.new) buffer.new.pending
        (T.seen turns.new) result }
    ensures counted { IsCounted (faults_on H.read_faults H.write_faults channel.old)
        (faults_on H.read_faults H.write_faults channel.new) result }
{
    match channel.receive(alloc, buffer) {
        Arrived::Request(request) => {
            let closing = is_last(&request, served);
            let moment = Moment::clamped(clock.now());
            let text = turns.answer(alloc, &request, buffer.body(), moment, closing);
            send_reply(channel, text, closing)
        }
        Arrived::Refused(refusal) => {
            let moment = Moment::clamped(clock.now());
            let text = refusal_text(alloc, refusal, moment, false, true);
            send_reply(channel, text, true)
        }
        Arrived::End => Some(SessionEnd::End),
        Arrived::CutShort => Some(SessionEnd::CutShort),
        Arrived::ReadFault => Some(SessionEnd::ReadFault),
        Arrived::Memory => send_reply(channel, Err(AllocError), true),
    }
}

/// Serves one connection: answers the requests on the channel one after another, until it ends, a
/// reply closes it, or a read or a write fails (RFC 9112, sections 9.3 and 9.6).
pub fn session<T: Answers, H: Channel, C: Clock>(
    alloc: Global,
    turns: &mut T,
    channel: &mut H,
    clock: &C,
) -> SessionEnd
    requires ready { T.ready turns.old }
    ensures ready { T.ready turns.new }
    ensures same { T.same turns.old turns.new }
    ensures channel { H.same channel.old channel.new }
    // If the input is known, what was read and written is one conversation, from the log that was
    // seen before to the one that was seen last.
    ensures serves { IfSome (H.left channel.old) (Serves
        (setting_at (T.by turns.old) (C.told clock.now) T.base) (T.seen turns.old)
        (output_by H.sent H.write_faults channel.old)
        (scene_on H.left H.sent H.write_faults channel.new) (T.seen turns.new) result) }
    ensures causes { IsCaused (faults_on H.read_faults H.write_faults channel.old)
        (faults_on H.read_faults H.write_faults channel.new) result }
{
    let mut buffer = Buffer::new(alloc);
    for served in 0..MOST_REQUESTS {
        if let Some(end) = exchange(alloc, turns, channel, clock, &mut buffer, served) {
            return end;
        }
    }
    SessionEnd::Closed
}
